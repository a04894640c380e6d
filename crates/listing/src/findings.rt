// What a listing says of a model.
ghost use Rattle.std.specs.Prelude.{◌≡◌};
ghost use Rattle.model.specs.Verdict.{verdict_of};
ghost use Rattle.text.specs.Calls.{read_call};
ghost use Rattle.listing.specs.Findings.{header_of, kept_at, quantities_at, outcome_of};
ghost use Rattle.listing.specs.Listing.{answered};
ghost use Rattle.listing.specs.Readings.{quantities_in, outcome_in, entry_in};

use crate::outcomes::{Entry, Header, MAX_QUANTITIES, Outcome, Quantities, Refused};
use model::questions::Model;
use model::verdict::{Verdict, verdict_on};
use text::calls::{Call, read_call};

// How many worlds, agents, facts and quantities the model has.
pub fn header_for<M: Model>(model: &M) -> Header
    ensures states_the_sizes { result ≡ header_of (M.meaning model.now) }
{
    Header {
        worlds: model.width(),
        agents: model.agents(),
        facts: model.facts(),
        quantities: model.quantities(),
    }
}

// The quantities' values at a world. A loop by number: a model has no list of its quantities, and a place that is left has 0.
pub fn quantities_for<M: Model>(model: &M, world: u16) -> Quantities
    ensures keeps_each_in_its_place { result ≡ kept_at (M.meaning model.now) world }
    ensures asks_each_quantity { quantities_in result ≡ quantities_at (M.meaning model.now) world }
{
    let mut values = [0; MAX_QUANTITIES];
    for quantity in 0..MAX_QUANTITIES {
        values[quantity] = model.quantity(quantity as u16, world);
    }
    Quantities {
        values,
        count: model.quantities(),
    }
}

// The model's verdict, as the listing says it.
pub fn finding_for<M: Model>(model: &M) -> Outcome
    ensures reports_the_verdict { outcome_in result ≡ outcome_of (M.meaning model.now) (verdict_of (M.meaning model.now)) }
{
    match verdict_on(model) {
        Verdict::Contradiction => Outcome::Contradiction,
        Verdict::Unique { world } => Outcome::Unique {
            world,
            quantities: quantities_for(model, world),
        },
        Verdict::Rivals {
            count,
            lowest,
            second,
        } => Outcome::Rivals {
            count,
            lowest,
            second,
        },
    }
}

// What is said of one line.
pub fn answer_line<M: Model>(model: &M, line: &[u8]) -> Outcome
    ensures answers_the_line { outcome_in result ≡ answered (M.meaning model.now) (read_call line.now) }
{
    match read_call(line) {
        Ok(Call::Verdict) => finding_for(model),
        Err(fault) => Refused::from(fault).into(),
    }
}

// The entry of a line that is not blank.
pub fn entry_for<M: Model>(model: &M, number: u32, line: &[u8]) -> Entry
    ensures lists_the_line { entry_in result ≡ record { number = number; outcome = answered (M.meaning model.now) (read_call line.now) } }
{
    let outcome = answer_line(model, line);
    Entry { number, outcome }
}
