// Makes the model that a setting line asks for, and lists the lines after it.
ghost use Rattle.std.specs.Prelude.{◌≡◌, ◌≤◌, true, map, length, if◌then◌else◌, Ok, Err, vec_capacity};
ghost use Rattle.model.specs.declared.refusals.Refusal.TheVariants.{BadDate};
ghost use Rattle.settings.specs.Results.{on_ok};
ghost use Rattle.settings.specs.Cases.{checked};
ghost use Rattle.settings.specs.Dates.{are_dates};
ghost use Rattle.settings.specs.Readings.{records as records_of, date_numbers};
ghost use Rattle.lines.specs.Dates.{month_day};
ghost use Rattle.lines.specs.Settings.{read_setting};
ghost use Rattle.listing.specs.Lines.{lines_left};
ghost use Rattle.listing.specs.Listing.{sets};
ghost use Rattle.listing.specs.Sheets.{page_of, settled};

use crate::outcomes::Refused;
use crate::sheets::Sheet;
use crate::texts::Lines;
use crate::workspaces::Workspace;
use lines::dates::{DateList, MonthDay};
use lines::settings::{Setting, read_setting};
use model::refusals::Refusal;
use settings::cases::{CaseList, Cases, MAX_CASES};
use settings::dates::Date;
use settings::hats::Hats;
use settings::pairs::Pair;
use settings::pairs::filling::fill_pairs;
use settings::sight::Sight;
use std::alloc::{AllocError, Global};

// The dates of some numbers, in an empty list.
fn fill_dates(dates: &mut Vec<Date>, days: &[MonthDay]) -> Result<(), Refusal>
    requires has_room { length days.now ≤ vec_capacity dates.old }
    ensures keeps_its_room { vec_capacity dates.new ≡ vec_capacity dates.old }
    ensures tells_dates { result ≡ (if are_dates (map month_day days.now) then Ok tt else Err BadDate) }
    ensures holds_the_dates { are_dates (map month_day days.now) ≡ true → map date_numbers dates.new.items ≡ map month_day days.now }
{
    dates.clear();
    for day in days {
        dates.push_reserved(Date::new(day.month, day.day)?);
    }
    Ok(())
}

// The list of the records, as a model.
fn cases_of<R>(records: &[R]) -> Result<Cases<'_, R>, Refusal>
    ensures checks_the_list { on_ok (λ c. records_of c.list) result ≡ checked records.now }
{
    Ok(Cases::new(CaseList::check(records)?))
}

impl Workspace {
    // Reserves the places; what they hold is free.
    pub(crate) fn new(heap: Global) -> Result<Workspace, AllocError> {
        Ok(Workspace {
            pairs: vec![in heap; Pair::new(0, 0); MAX_CASES]?,
            dates: Vec::with_capacity(heap, MAX_CASES)?,
            days: DateList::new(heap)?,
        })
    }

    // Lists the lines after the setting line, over the model that it asks for.
    pub(crate) fn open(
        &mut self,
        sheet: &mut Sheet,
        line: &[u8],
        lines: Lines<'_>,
    ) -> Result<(), Refused>
        ensures settles { settled result (page_of sheet.new) ≡ sets (read_setting line.now) lines.entry.number (lines_left lines.entry.rest) }
    {
        match read_setting(line, &mut self.days)? {
            Setting::Pairs { low, sum } => {
                let count = fill_pairs(self.pairs.as_mut_slice(), low, sum)?;
                sheet.list(&cases_of(&self.pairs[..count])?, lines);
                Ok(())
            }
            Setting::Dates => {
                fill_dates(&mut self.dates, self.days.as_slice())?;
                sheet.list(&cases_of(self.dates.as_slice())?, lines);
                Ok(())
            }
            Setting::Circle { agents } => {
                sheet.list(&Hats::new(Sight::Circle, agents)?, lines);
                Ok(())
            }
            Setting::Queue { agents } => {
                sheet.list(&Hats::new(Sight::Queue, agents)?, lines);
                Ok(())
            }
        }
    }
}
