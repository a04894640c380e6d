// Formulas as lists of nodes, and their truth at the worlds of a model.
#![tactic(auto)]

pub mod laws;
pub mod node;
