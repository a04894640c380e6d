// The putting layer: a stage over any stage, that keeps a row for each fact that was put.
#![tactic(auto)]

pub mod layer;
