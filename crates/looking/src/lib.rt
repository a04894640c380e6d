// The looking layer: a stage over any stage, that keeps looks in slots of its own.
#![tactic(auto)]

pub mod layer;
mod looks;
mod slots;
