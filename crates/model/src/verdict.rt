// What the survivors of a model come to.
ghost use Rattle.std.specs.Prelude.{◌≡◌, true, unwrap_or, IfSome};
ghost use Rattle.model.specs.Rows.{count, least};
ghost use Rattle.model.specs.Verdict.{survives_from, survivors_of, verdict_of, NamesTheSurvivors};

use crate::questions::Model;

#[derive(Clone, Copy, Debug, PartialEq, Eq)]
pub enum Verdict {
    // No world survives.
    Contradiction,
    // Just this world survives.
    Unique {
        world: u16,
    },
    // So many worlds survive; these are the two lowest.
    Rivals {
        count: u16,
        lowest: u16,
        second: u16,
    },
}

// How many worlds below an end survive: a world adds 0 or 1, so that no branch waits for each answer. This and the next two carry the proofs, so that the public functions have no proof file, for their edits.
fn survivors_below<M: Model>(model: &M, end: u16) -> u16
    ensures { result ≡ count (M.meaning model.now).survives «end» }
{
    (0..end).map(|world| u16::from(model.survives(world))).sum()
}

// How many worlds survive.
pub fn survivors<M: Model>(model: &M) -> u16
    ensures counts_the_survivors { result ≡ count (M.meaning model.now).survives (M.meaning model.now).width }
{
    survivors_below(model, model.width())
}

// The lowest surviving world from a number on and below an end, if there is one.
fn lowest_between<M: Model>(model: &M, from: u16, end: u16) -> Option<u16>
    ensures least { unwrap_or result «end» ≡ least (survives_from (M.meaning model.now) from) «end» }
    ensures survives { IfSome result (λ w. (M.meaning model.now).survives w ≡ true) }
{
    (from..end).find(|world| model.survives(*world))
}

// The lowest surviving world from a number on, if there is one.
pub fn lowest_from<M: Model>(model: &M, from: u16) -> Option<u16>
    ensures is_the_lowest_survivor_from_there { unwrap_or result (M.meaning model.now).width ≡ least (survives_from (M.meaning model.now) from) (M.meaning model.now).width }
    ensures is_a_survivor { IfSome result (λ w. (M.meaning model.now).survives w ≡ true) }
{
    lowest_between(model, from, model.width())
}

// The verdict on a model of which the survivors are counted.
fn verdict_among<M: Model>(model: &M, count: u16) -> Verdict
    requires { count ≡ survivors_of (M.meaning model.now) }
    ensures is { result ≡ verdict_of (M.meaning model.now) }
    ensures names { NamesTheSurvivors (M.meaning model.now) result }
{
    if count == 0 {
        return Verdict::Contradiction;
    }
    let Some(lowest) = lowest_from(model, 0) else {
        return Verdict::Contradiction;
    };
    if count == 1 {
        return Verdict::Unique { world: lowest };
    }
    match lowest_from(model, lowest + 1) {
        None => Verdict::Unique { world: lowest },
        Some(second) => Verdict::Rivals {
            count,
            lowest,
            second,
        },
    }
}

// None, one or several: what the survivors come to.
pub fn verdict_on<M: Model>(model: &M) -> Verdict
    ensures is_the_verdict { result ≡ verdict_of (M.meaning model.now) }
    ensures names_the_survivors { NamesTheSurvivors (M.meaning model.now) result }
{
    verdict_among(model, survivors(model))
}
