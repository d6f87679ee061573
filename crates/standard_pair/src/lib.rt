// That every station of the pair does in every step what section 4.2's processes do on what it hears (specs/Pair):
// `standard`'s theorem on the executions of `trace`. No code.

#![tactic(auto)]
