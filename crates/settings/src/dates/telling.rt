// What a date tells: agent 0 the month, agent 1 the day.
ghost use Rattle.std.specs.Prelude.{◌≡◌};
ghost use Rattle.settings.specs.Results.{on_ok};
ghost use Rattle.settings.specs.Dates.{date_told, date_of};
ghost use Rattle.settings.specs.Readings.{date_numbers};
ghost use Rattle.settings.specs.FairDates.{date_kind, date_small};

use crate::dates::Date;
use crate::told::Told;
use model::refusals::Refusal;

const MONTHS: u16 = 12;

const DAYS: u16 = 31;

impl Date {
    // The date of a month from 1 to 12 and a day from 1 to 31.
    pub fn new(month: u16, day: u16) -> Result<Date, Refusal>
        ensures is_of_its_numbers { on_ok date_numbers result ≡ date_of (month, day) }
    {
        if month < 1 || month > MONTHS || day < 1 || day > DAYS {
            return Err(Refusal::BadDate);
        }
        Ok(Date { month, day })
    }
}

// The quantities are the month and the day.
impl Told for Date {
    ghost agents = { 2 };

    ghost quantities = { 2 };

    ghost told = { λ r p. date_told (date_numbers r) p };

    ghost amount = { λ r q. date_told (date_numbers r) q };

    ghost kind = { date_kind };

    ghost small = { λ r q. date_small r.month r.day r.fewmonths r.fewdays q };

    fn agents() -> u16 {
        2
    }

    fn quantities() -> u16 {
        2
    }

    fn told(&self, agent: u16) -> u32 {
        if agent == 0 {
            self.month as u32
        } else {
            self.day as u32
        }
    }

    fn quantity(&self, quantity: u16) -> u16 {
        if quantity == 0 { self.month } else { self.day }
    }
}
