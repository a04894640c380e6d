// Stages over any model: the floor, and the layer that hears.
#![tactic(auto)]

pub mod floor;
pub mod hearing;
