// A listing before it is text, in memory that is reserved first.
ghost use Rattle.std.specs.Prelude.{◌≤◌, vec_capacity};

use crate::outcomes::{Entry, Header};

pub mod filling;

// The first line, where the setting was accepted, and an entry for each other line. There is room for each line of the longest text.
#[derive(Drop)]
pub struct Sheet {
    header: Option<Header>,
    entries: Vec<Entry>,
    ghost room: { 16385 ≤ vec_capacity entries },
}
