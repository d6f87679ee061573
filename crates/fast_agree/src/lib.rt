// A list of stretches that agrees with what each station says on the carrier that the list makes: then it is what
// happens. No code; the laws are in specs/.

#![tactic(auto)]
