// A stage: a model that can also take steps, known by its meaning alone.
ghost use Rattle.std.specs.Prelude.{◌≡◌, [], ◌∷◌, nat_le, nat_lt};
ghost use Rattle.model.specs.declared.refusals.Refusal.TheVariants.{NoSuch, ShortRow};
ghost use Rattle.model.specs.Actions.{Action};
ghost use Rattle.model.specs.Causes.{first};
ghost use Rattle.model.specs.Stages.{Takes, Steps, stage_of, short};

use crate::questions::Model;
use crate::refusals::Refusal;
use crate::rows::words_for;

// A step is given a row, of which the bits at worlds that do not survive make no difference.
// It is refused where the row has too few words, then where there is no such agent or fact,
// then where the stage does not take it; a refusal leaves the stage as it was.
// Clauses say `stage_of` of two ghost members: one for both was tried, and generic code does not know it by its default.
pub trait Stage: Model {
    ghost takes: { Self → Takes };

    // Whether the stage hears.
    fn hears(&self) -> bool
        ensures says_whether_it_hears { result ≡ (takes self.now).hears };

    // Whether any look is left.
    fn has_look(&self) -> bool
        ensures says_whether_a_look_is_left { result ≡ nat_lt 0 (takes self.now).looks };

    // Whether the stage puts.
    fn puts(&self) -> bool
        ensures says_whether_it_puts { result ≡ (takes self.now).puts };

    // Only worlds of the row go on surviving.
    fn hear(&mut self, row: &[u64]) -> Result<(), Refusal>
        ensures hears_the_row { Steps (Action.hear row.now) (stage_of Self.Model.meaning takes self.old) result (stage_of Self.Model.meaning takes self.new) };

    // The agent also distinguishes two worlds of which exactly one is in the row; one look fewer is left.
    fn look(&mut self, agent: u16, row: &[u64]) -> Result<(), Refusal>
        ensures looks_at_the_row { Steps (Action.look agent row.now) (stage_of Self.Model.meaning takes self.old) result (stage_of Self.Model.meaning takes self.new) };

    // The fact becomes true exactly at the surviving worlds of the row.
    fn put(&mut self, fact: u16, row: &[u64]) -> Result<(), Refusal>
        ensures puts_by_the_row { Steps (Action.put fact row.now) (stage_of Self.Model.meaning takes self.old) result (stage_of Self.Model.meaning takes self.new) };
}

// Whether a row has too few words for the model's worlds.
pub fn is_short<M: Model>(row: &[u64], model: &M) -> bool
    ensures compares_with_the_width { result ≡ short row.now (M.meaning model.now) }
{
    row.len() < words_for(model.width())
}

// Refuses a row that has too few words for the model's worlds.
pub fn check_row<M: Model>(row: &[u64], model: &M) -> Result<(), Refusal>
    ensures refuses_a_short_row { result ≡ first ((short row.now (M.meaning model.now), ShortRow) ∷ []) tt }
{
    if is_short(row, model) {
        Err(Refusal::ShortRow)
    } else {
        Ok(())
    }
}

// Refuses the number of an agent or fact of which there are just so many.
pub fn check_number(number: u16, count: u16) -> Result<(), Refusal>
    ensures refuses_what_is_not_there { result ≡ first ((nat_le count number, NoSuch) ∷ []) tt }
{
    if number < count {
        Ok(())
    } else {
        Err(Refusal::NoSuch)
    }
}
