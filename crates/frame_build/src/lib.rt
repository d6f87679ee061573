// Building frames (document 01, "Frames").

#![tactic(auto)]

pub mod builder;
pub mod limits;
