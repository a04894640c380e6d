// The floor: a stage over any model, that takes no step.
ghost use Rattle.std.specs.Prelude.{◌≡◌};
ghost use Rattle.model.specs.Stages.{stage_of};
ghost use Rattle.stages.specs.Layers.{floor_stage, floor_meaning, floor_takes};

use model::questions::Model as PuzzleModel;
use model::refusals::Refusal;
use model::stages::{Stage, check_number, check_row};

#[derive(Drop)]
pub struct Floor<M> {
    model: M,
}

impl<M: PuzzleModel> Floor<M> {
    // The model as a stage that does not hear, takes no look and does not put.
    pub fn new(model: M) -> Floor<M>
        ensures is_the_model_without_steps { stage_of (floor_meaning M.Model.meaning) floor_takes result ≡ floor_stage (M.Model.meaning model) }
    {
        Floor { model }
    }
}

impl<M: PuzzleModel> PuzzleModel for Floor<M> {
    ghost meaning = { floor_meaning M.Model.meaning };

    ghost lawful = { λ f. M.Model.lawful f.model };

    fn width(&self) -> u16 {
        self.model.width()
    }

    fn agents(&self) -> u16 {
        self.model.agents()
    }

    fn facts(&self) -> u16 {
        self.model.facts()
    }

    fn quantities(&self) -> u16 {
        self.model.quantities()
    }

    fn survives(&self, world: u16) -> bool {
        self.model.survives(world)
    }

    fn distinguishes(&self, agent: u16, left: u16, right: u16) -> bool {
        self.model.distinguishes(agent, left, right)
    }

    fn fact(&self, fact: u16, world: u16) -> bool {
        self.model.fact(fact, world)
    }

    fn quantity(&self, quantity: u16, world: u16) -> u16 {
        self.model.quantity(quantity, world)
    }
}

impl<M: PuzzleModel> Stage for Floor<M> {
    ghost takes = { floor_takes };

    fn hears(&self) -> bool {
        false
    }

    fn has_look(&self) -> bool {
        false
    }

    fn puts(&self) -> bool {
        false
    }

    fn hear(&mut self, row: &[u64]) -> Result<(), Refusal> {
        check_row(row, &self.model)?;
        Err(Refusal::NotTaken)
    }

    fn look(&mut self, agent: u16, row: &[u64]) -> Result<(), Refusal> {
        check_row(row, &self.model)?;
        check_number(agent, self.model.agents())?;
        Err(Refusal::NotTaken)
    }

    // As a look: the same three calls, over facts in place of agents; what they share is these calls.
    fn put(&mut self, fact: u16, row: &[u64]) -> Result<(), Refusal> {
        check_row(row, &self.model)?;
        check_number(fact, self.model.facts())?;
        Err(Refusal::NotTaken)
    }
}
