// Piles: layers over one another in any order and number, on which the same steps come to the same.
#![tactic(auto)]

pub mod playing;
#[cfg(test)]
mod trying;
