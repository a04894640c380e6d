// The grammar of lines, and what holds of all that is read.
#![tactic(auto)]

pub mod laws;
