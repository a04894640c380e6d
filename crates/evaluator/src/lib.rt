// The evaluation of a formula at all worlds of a model.
#![tactic(auto)]

mod checks;
mod fills;
pub mod marks;
mod rows;
mod truths;
