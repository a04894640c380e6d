// Reads formulas and writes their nodes.
#![tactic(auto)]

pub mod faults;
pub mod nodes;
pub mod parts;
pub mod readers;
mod terms;
mod words;
