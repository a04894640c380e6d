// The hearing layer: it keeps one row, and always hears.
ghost use Rattle.std.specs.Prelude.{◌≡◌, true, ◌&&◌, ℕ, ◌<◌};
ghost use Rattle.model.specs.Actions.{Action};
ghost use Rattle.model.specs.Rows.{bit};
ghost use Rattle.model.specs.Stages.{stage_of, taken};
ghost use Rattle.model.proofs.Steps.{lawful_heard};
ghost use Rattle.stages.specs.Layers.{hearing_stage, hearing_meaning, hearing_takes};

use model::questions::Model as PuzzleModel;
use model::refusals::Refusal;
use model::rows::{MAX_WORDS, has_world, whole_row};
use model::stages::{Stage, check_row};
use std::array;

// Only the worlds of the row survive of those that survive below. The row has a fixed size: a step has no heap.
#[derive(Drop)]
pub struct HearingLayer<S> {
    below: S,
    row: [u64; MAX_WORDS],
}

// The row of every world that a model can have.
fn every_world() -> [u64; MAX_WORDS]
    ensures has_every_world { (w : ℕ) → w < 4096 → bit result w ≡ true }
{
    [u64::MAX; MAX_WORDS]
}

// The worlds that both rows have.
fn both_rows(row: &[u64; MAX_WORDS], other: &[u64; MAX_WORDS]) -> [u64; MAX_WORDS]
    ensures has_what_both_have { (w : ℕ) → w < 4096 → bit result w ≡ (bit row.now w && bit other.now w) }
{
    array::from_fn(|place| row[place] & other[place])
}

impl<S: Stage> HearingLayer<S> {
    // The stage below, that now hears: nothing is heard yet.
    pub fn new(below: S) -> HearingLayer<S>
        ensures is_the_stage_below_and_hears { stage_of (hearing_meaning S.Model.meaning) (hearing_takes S.Stage.takes) result ≡ hearing_stage (stage_of S.Model.meaning S.Stage.takes below) }
    {
        HearingLayer::keeping(below, every_world())
    }

    // A layer that keeps a row of every world. `new` calls it so as to stay free of a proof file, for its edit.
    fn keeping(below: S, row: [u64; MAX_WORDS]) -> HearingLayer<S>
        requires has_every_world { (w : ℕ) → w < 4096 → bit row w ≡ true }
        ensures is_the_stage_below_and_hears { stage_of (hearing_meaning S.Model.meaning) (hearing_takes S.Stage.takes) result ≡ hearing_stage (stage_of S.Model.meaning S.Stage.takes below) }
    {
        HearingLayer { below, row }
    }

    // Strikes the worlds that are not in the row.
    fn strike(&mut self, row: &[u64])
        ensures hears_the_row { stage_of (hearing_meaning S.Model.meaning) (hearing_takes S.Stage.takes) self.new ≡ taken (Action.hear row.now) (stage_of (hearing_meaning S.Model.meaning) (hearing_takes S.Stage.takes) self.old) }
    {
        self.row = both_rows(&self.row, &whole_row(row));
    }
}

impl<S: Stage> PuzzleModel for HearingLayer<S> {
    ghost meaning = { hearing_meaning S.Model.meaning };

    ghost lawful = { λ l. lawful_heard (S.Model.meaning l.below) (bit l.row) (S.Model.lawful l.below) };

    fn width(&self) -> u16 {
        self.below.width()
    }

    fn agents(&self) -> u16 {
        self.below.agents()
    }

    fn facts(&self) -> u16 {
        self.below.facts()
    }

    fn quantities(&self) -> u16 {
        self.below.quantities()
    }

    fn survives(&self, world: u16) -> bool {
        self.below.survives(world) && has_world(&self.row, world)
    }

    fn distinguishes(&self, agent: u16, left: u16, right: u16) -> bool {
        let both = has_world(&self.row, left) && has_world(&self.row, right);
        self.below.distinguishes(agent, left, right) || !both
    }

    fn fact(&self, fact: u16, world: u16) -> bool {
        self.below.fact(fact, world) && has_world(&self.row, world)
    }

    fn quantity(&self, quantity: u16, world: u16) -> u16 {
        if has_world(&self.row, world) {
            self.below.quantity(quantity, world)
        } else {
            0
        }
    }
}

impl<S: Stage> Stage for HearingLayer<S> {
    ghost takes = { hearing_takes S.Stage.takes };

    fn hears(&self) -> bool {
        true
    }

    fn has_look(&self) -> bool {
        self.below.has_look()
    }

    fn puts(&self) -> bool {
        self.below.puts()
    }

    fn hear(&mut self, row: &[u64]) -> Result<(), Refusal> {
        check_row(row, &self.below)?;
        self.strike(row);
        Ok(())
    }

    fn look(&mut self, agent: u16, row: &[u64]) -> Result<(), Refusal> {
        self.below.look(agent, row)
    }

    fn put(&mut self, fact: u16, row: &[u64]) -> Result<(), Refusal> {
        self.below.put(fact, row)
    }
}
