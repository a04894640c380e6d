// Reads the lines of a puzzle text.
#![tactic(auto)]

pub mod calls;
pub mod dates;
pub mod faults;
pub mod firsts;
mod readers;
pub mod settings;
