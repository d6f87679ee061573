// The answers of the calls as the C interface hands them out: numbers, and tables of words in a lent output.

#![tactic(auto)]

pub mod numbers;

// The octets of the outputs: a layout, what a run input says, a run, and counters.
pub const SHEET_OUT: usize = 196;

pub const PLAN_OUT: usize = 216;

pub const RUN_OUT: usize = 52;

pub const COUNTERS_OUT: usize = 68;
