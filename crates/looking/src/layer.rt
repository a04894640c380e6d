// The looking layer: it fills its own slots before it hands a look down.
ghost use Rattle.std.specs.Prelude.{◌≡◌, ◌≤◌, is_some, nat_lt};
ghost use Rattle.std.specs.Option.{OnSome, IfNone};
ghost use Rattle.model.specs.Actions.{Action};
ghost use Rattle.model.specs.Stages.{stage_of, taken, Steps};
ghost use Rattle.model.proofs.Steps.{lawful_refined};
ghost use Rattle.looking.specs.Slots.{kept};
ghost use Rattle.looking.specs.Looks.{told};
ghost use Rattle.looking.specs.FairLooks.{told_splits};
ghost use Rattle.looking.specs.Layer.{looking_stage, looking_meaning, looking_takes};

use crate::looks::Slot;
use crate::slots::{MAX_SLOTS, Slots};
use model::questions::Model as PuzzleModel;
use model::refusals::Refusal;
use model::stages::{Stage, check_number, check_row};

// An agent also distinguishes what the looks that are kept tell it apart.
#[derive(Drop)]
pub struct LookingLayer<S> {
    below: S,
    table: Slots<Slot>,
}

impl<S: Stage> LookingLayer<S> {
    // The stage below, that now takes 16 looks more: none is kept yet.
    pub fn new(below: S) -> LookingLayer<S>
        ensures is_the_stage_below_with_16_looks_more { stage_of (looking_meaning S.Model.meaning) (looking_takes S.Stage.takes) result ≡ looking_stage (stage_of S.Model.meaning S.Stage.takes below) }
    {
        LookingLayer {
            below,
            table: Slots::new(Slot::blank()),
        }
    }

    // Keeps the look in a slot of its own, if one is empty.
    fn keep(&mut self, agent: u16, row: &[u64]) -> Option<()>
        ensures keeps_while_a_slot_is_empty { is_some result ≡ nat_lt self.old.table.used 16 }
        ensures takes_the_look { OnSome result (stage_of (looking_meaning S.Model.meaning) (looking_takes S.Stage.takes) self.new ≡ taken (Action.look agent row.now) (stage_of (looking_meaning S.Model.meaning) (looking_takes S.Stage.takes) self.old)) }
        ensures stays_when_full { IfNone result (self.new ≡ self.old) }
    {
        self.table.keep(agent, row)
    }

    // Has the look taken below.
    fn hand_down(&mut self, agent: u16, row: &[u64]) -> Result<(), Refusal>
        requires is_full { 16 ≤ self.old.table.used }
        ensures takes_the_look_below { Steps (Action.look agent row.now) (stage_of (looking_meaning S.Model.meaning) (looking_takes S.Stage.takes) self.old) result (stage_of (looking_meaning S.Model.meaning) (looking_takes S.Stage.takes) self.new) }
    {
        self.below.look(agent, row)
    }
}

impl<S: Stage> PuzzleModel for LookingLayer<S> {
    ghost meaning = { looking_meaning S.Model.meaning };

    ghost lawful = { λ l. lawful_refined (S.Model.meaning l.below) (told (kept l.table)) (told_splits (kept l.table)) (S.Model.lawful l.below) };

    fn width(&self) -> u16 {
        self.below.width()
    }

    fn agents(&self) -> u16 {
        self.below.agents()
    }

    fn facts(&self) -> u16 {
        self.below.facts()
    }

    fn quantities(&self) -> u16 {
        self.below.quantities()
    }

    fn survives(&self, world: u16) -> bool {
        self.below.survives(world)
    }

    fn distinguishes(&self, agent: u16, left: u16, right: u16) -> bool {
        self.below.distinguishes(agent, left, right) || self.table.tell(agent, left, right)
    }

    fn fact(&self, fact: u16, world: u16) -> bool {
        self.below.fact(fact, world)
    }

    fn quantity(&self, quantity: u16, world: u16) -> u16 {
        self.below.quantity(quantity, world)
    }
}

impl<S: Stage> Stage for LookingLayer<S> {
    ghost takes = { looking_takes S.Stage.takes };

    fn hears(&self) -> bool {
        self.below.hears()
    }

    fn has_look(&self) -> bool {
        self.table.used() < MAX_SLOTS || self.below.has_look()
    }

    fn puts(&self) -> bool {
        self.below.puts()
    }

    fn hear(&mut self, row: &[u64]) -> Result<(), Refusal> {
        self.below.hear(row)
    }

    fn look(&mut self, agent: u16, row: &[u64]) -> Result<(), Refusal> {
        check_row(row, &self.below)?;
        check_number(agent, self.below.agents())?;
        match self.keep(agent, row) {
            Some(()) => Ok(()),
            None => self.hand_down(agent, row),
        }
    }

    fn put(&mut self, fact: u16, row: &[u64]) -> Result<(), Refusal> {
        self.below.put(fact, row)
    }
}
