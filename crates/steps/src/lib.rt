// Steps on any stage, one or a list of them, and what holds of every such list.
#![tactic(auto)]

pub mod lists;
pub mod pairs;
pub mod requests;
