// What is done with a list of dates.
ghost use Rattle.std.specs.Prelude.{◌≡◌, ◌+◌, ◌<◌, [], ◌∷◌, ◌++◌, map, IfOk};
ghost use Rattle.lines.specs.Dates.{month_day, days_of, count};

use crate::dates::{DateList, MonthDay};
use std::alloc::{AllocError, Global};

// The most dates that a line has: each takes two bytes of it at least.
const MAX_DATES: usize = 100;

impl DateList {
    // An empty list.
    pub fn new(heap: Global) -> Result<DateList, AllocError>
        ensures is_empty { IfOk result (λ l. days_of l ≡ []) }
    {
        let items = Vec::with_capacity(heap, MAX_DATES)?;
        Ok(DateList { items })
    }

    // The dates, in the order of their line.
    pub fn as_slice(&self) -> &[MonthDay]
        ensures its_items { result.now ≡ self.now.items.items }
        ensures its_dates { map month_day result.now ≡ days_of self.now }
    {
        self.items.as_slice()
    }

    // Empties the list.
    pub(crate) fn clear(&mut self)
        ensures empty { days_of self.new ≡ [] }
        ensures none { count self.new ≡ 0 }
    {
        self.items.clear();
    }

    // Appends a date, where there is room.
    pub(crate) fn add(&mut self, date: MonthDay)
        requires { count self.old < 100 }
        ensures dates { days_of self.new ≡ days_of self.old ++ month_day date ∷ [] }
        ensures more { count self.new ≡ count self.old + 1 }
    {
        self.items.push_reserved(date);
    }
}
