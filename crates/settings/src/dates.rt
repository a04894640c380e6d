// Dates.
ghost use Rattle.std.specs.Prelude.{◌≤◌};

// A month and a day, of which one agent is told the month and the other the day.
#[derive(Clone, Copy)]
pub struct Date {
    month: u16,
    day: u16,
    ghost somemonth: { 1 ≤ month },
    ghost fewmonths: { month ≤ 12 },
    ghost someday: { 1 ≤ day },
    ghost fewdays: { day ≤ 31 },
}

pub mod telling;
