// Reads the later lines of a puzzle text.
#![tactic(auto)]

pub mod calls;
