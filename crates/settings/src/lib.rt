// Settings: models in which every world survives.
#![tactic(auto)]

pub mod cases;
pub mod dates;
pub mod hats;
pub mod pairs;
pub mod sight;
pub mod told;
