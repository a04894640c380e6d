// The tokens of a line.
#![tactic(auto)]

pub mod cursor;
pub mod faults;
pub mod tokens;
