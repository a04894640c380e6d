// What every model of a puzzle has in common: the questions it answers, rows of worlds, the verdict, and refusals.
#![tactic(auto)]

pub mod laws;
pub mod questions;
pub mod refusals;
pub mod rows;
pub mod stages;
pub mod verdict;
