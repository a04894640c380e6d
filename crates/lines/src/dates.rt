// The dates that a line lists.
ghost use Rattle.std.specs.Prelude.{◌≤◌, vec_len, vec_capacity};

pub mod list;

// A day of a month, both by their numbers.
#[derive(Clone, Copy, Debug, PartialEq, Eq)]
pub struct MonthDay {
    pub month: u16,
    pub day: u16,
}

// Beside the list of nodes of formulas it shares the bounds of a `Vec`, and no function.
// Dates in the order of their line, in memory that is reserved first for as many as a line can have.
#[derive(Drop)]
pub struct DateList {
    pub(crate) items: Vec<MonthDay>,
    ghost few: { vec_len items ≤ 100 },
    ghost room: { 100 ≤ vec_capacity items },
}
