// The putting layer: it keeps a row for each fact that was put, and always puts.
ghost use Rattle.std.specs.Prelude.{◌≡◌, ◌<◌, replicate, None};
ghost use Rattle.model.specs.Actions.{Action};
ghost use Rattle.model.specs.Stages.{stage_of, taken};
ghost use Rattle.model.proofs.Steps.{lawful_replaced};
ghost use Rattle.putting.specs.Layer.{putting_stage, putting_meaning, putting_takes, put_facts, put_rows};
ghost use Rattle.putting.specs.PutFacts.{put_facts_there};

use model::questions::Model as PuzzleModel;
use model::refusals::Refusal;
use model::rows::{MAX_WORDS, has_world, whole_row};
use model::stages::{Stage, check_number, check_row};

// How many facts a model can have.
const MAX_FACTS: usize = 16;

// A fact that was put is true exactly at the surviving worlds of its row. There is a place for each fact: a step has no heap.
#[derive(Drop)]
pub struct PuttingLayer<S> {
    below: S,
    rows: [Option<[u64; MAX_WORDS]>; MAX_FACTS],
}

impl<S: Stage> PuttingLayer<S> {
    // The stage below, that now puts: nothing is put yet.
    pub fn new(below: S) -> PuttingLayer<S>
        ensures is_the_stage_below_and_puts { stage_of (putting_meaning S.Model.meaning) (putting_takes S.Stage.takes) result ≡ putting_stage (stage_of S.Model.meaning S.Stage.takes below) }
    {
        PuttingLayer::keeping(below, [None; MAX_FACTS])
    }

    // A layer with no row kept. `new` calls it so as to stay free of a proof file, for its edit.
    fn keeping(below: S, rows: [Option<[u64; MAX_WORDS]>; MAX_FACTS]) -> PuttingLayer<S>
        requires keeps_none { rows ≡ replicate 16 None }
        ensures is_the_stage_below_and_puts { stage_of (putting_meaning S.Model.meaning) (putting_takes S.Stage.takes) result ≡ putting_stage (stage_of S.Model.meaning S.Stage.takes below) }
    {
        PuttingLayer { below, rows }
    }

    // Keeps the row for the fact.
    fn keep(&mut self, fact: u16, row: &[u64])
        requires is_a_fact { fact < (S.Model.meaning self.old.below).facts }
        ensures puts_the_fact { stage_of (putting_meaning S.Model.meaning) (putting_takes S.Stage.takes) self.new ≡ taken (Action.put fact row.now) (stage_of (putting_meaning S.Model.meaning) (putting_takes S.Stage.takes) self.old) }
    {
        self.rows[fact as usize] = Some(whole_row(row));
    }
}

impl<S: Stage> PuzzleModel for PuttingLayer<S> {
    ghost meaning = { putting_meaning S.Model.meaning };

    ghost lawful = { λ l. lawful_replaced (S.Model.meaning l.below) (put_facts (S.Model.meaning l.below) l.rows) (put_rows l.rows) (put_facts_there (S.Model.meaning l.below) l.rows) (S.Model.lawful l.below) };

    fn width(&self) -> u16 {
        self.below.width()
    }

    fn agents(&self) -> u16 {
        self.below.agents()
    }

    fn facts(&self) -> u16 {
        self.below.facts()
    }

    fn quantities(&self) -> u16 {
        self.below.quantities()
    }

    fn survives(&self, world: u16) -> bool {
        self.below.survives(world)
    }

    fn distinguishes(&self, agent: u16, left: u16, right: u16) -> bool {
        self.below.distinguishes(agent, left, right)
    }

    fn fact(&self, fact: u16, world: u16) -> bool {
        if fact >= self.below.facts() {
            return false;
        }
        match &self.rows[fact as usize] {
            Some(row) => self.below.survives(world) && has_world(row, world),
            None => self.below.fact(fact, world),
        }
    }

    fn quantity(&self, quantity: u16, world: u16) -> u16 {
        self.below.quantity(quantity, world)
    }
}

impl<S: Stage> Stage for PuttingLayer<S> {
    ghost takes = { putting_takes S.Stage.takes };

    fn hears(&self) -> bool {
        self.below.hears()
    }

    fn has_look(&self) -> bool {
        self.below.has_look()
    }

    fn puts(&self) -> bool {
        true
    }

    fn hear(&mut self, row: &[u64]) -> Result<(), Refusal> {
        self.below.hear(row)
    }

    fn look(&mut self, agent: u16, row: &[u64]) -> Result<(), Refusal> {
        self.below.look(agent, row)
    }

    fn put(&mut self, fact: u16, row: &[u64]) -> Result<(), Refusal> {
        check_row(row, &self.below)?;
        check_number(fact, self.below.facts())?;
        self.keep(fact, row);
        Ok(())
    }
}
