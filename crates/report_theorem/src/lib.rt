// That the pieces which are handed out are just what is printed (specs/Whole: `told_printed`), and that no octet after
// the first 16,385 matters (specs/Cut). No code.

#![tactic(auto)]
