// Turns a puzzle text into its listing.
#![tactic(auto)]

mod findings;
pub mod judges;
pub mod laws;
mod outcomes;
mod sheets;
mod texts;
mod workspaces;
