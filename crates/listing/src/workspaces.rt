// The memory in which settings are made, reserved first.
ghost use Rattle.std.specs.Prelude.{◌≡◌, ◌≤◌, vec_len, vec_capacity};

use lines::dates::DateList;
use settings::dates::Date;
use settings::pairs::Pair;

pub mod opening;

// Places for the pairs and the dates of the longest list of cases, and for the dates of the longest line.
#[derive(Drop)]
pub struct Workspace {
    pairs: Vec<Pair>,
    dates: Vec<Date>,
    days: DateList,
    ghost places: { vec_len pairs ≡ 4096 },
    ghost room: { 4096 ≤ vec_capacity dates },
}
