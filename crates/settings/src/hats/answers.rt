// A circle or a queue as a model. World w has fact i true where the bit of weight 2^i of w is set.
ghost use Rattle.std.specs.Prelude.{◌≡◌, ◌^◌, ◌<◌};
ghost use Rattle.model.specs.Rows.{digit, count};
ghost use Rattle.settings.specs.Results.{on_ok};
ghost use Rattle.settings.specs.Hats.{agrees, hats_of};
ghost use Rattle.settings.specs.Readings.{hats_meaning};
ghost use Rattle.settings.specs.FairHats.{lawful_hats};
ghost use Rattle.settings.specs.Views.{view_of};

use crate::hats::{Hats, MAX_AGENTS};
use crate::sight::Sight;
use model::questions::Model as PuzzleModel;
use model::refusals::Refusal;
use model::rows::has_world;

impl Hats {
    // A circle or a queue of 1 to 12 agents.
    pub fn new(sight: Sight, agents: u16) -> Result<Hats, Refusal>
        ensures is_of_its_size { on_ok hats_meaning result ≡ hats_of sight agents }
    {
        if agents < 1 || agents > MAX_AGENTS {
            return Err(Refusal::AgentCount);
        }
        Ok(Hats { sight, agents })
    }

    // A number that two worlds share where they agree on what the agent sees.
    fn view(&self, agent: u16, world: u16) -> u16
        requires is_an_agent { agent < 16 }
        ensures is_the_view { result ≡ view_of self.now.sight agent world }
    {
        let own = 1u16 << agent;
        match self.sight {
            Sight::Circle => world | own,
            Sight::Queue => world % own,
        }
    }

    // Whether the two worlds agree on every fact that the agent sees.
    fn agree(&self, agent: u16, left: u16, right: u16) -> bool
        requires is_an_agent { agent < self.now.agents }
        requires left_is_a_world { left < 2 ^ self.now.agents }
        requires right_is_a_world { right < 2 ^ self.now.agents }
        ensures is_agreement { result ≡ agrees self.now.sight self.now.agents agent left right }
    {
        self.view(agent, left) == self.view(agent, right)
    }
}

// Whether the bit of weight 2^fact is set.
fn is_set(world: u16, fact: u16) -> bool
    requires is_a_bit { fact < 16 }
    ensures is_the_digit { result ≡ digit world fact }
{
    has_world(&[u64::from(world)], fact)
}

// How many facts of a world of so many facts are true.
fn true_facts(world: u16, facts: u16) -> u16
    requires is_a_world { world < 2 ^ facts }
    ensures counts { result ≡ count (digit world) facts }
{
    world.count_ones() as u16
}

impl PuzzleModel for Hats {
    ghost meaning = { hats_meaning };

    ghost lawful = { λ h. lawful_hats h.sight h.agents h.some h.few };

    fn width(&self) -> u16 {
        1 << self.agents
    }

    fn agents(&self) -> u16 {
        self.agents
    }

    fn facts(&self) -> u16 {
        self.agents
    }

    fn quantities(&self) -> u16 {
        1
    }

    fn survives(&self, world: u16) -> bool {
        world < self.width()
    }

    fn distinguishes(&self, agent: u16, left: u16, right: u16) -> bool {
        let n = self.width();
        if agent >= self.agents || left >= n || right >= n {
            return true;
        }
        !self.agree(agent, left, right)
    }

    fn fact(&self, fact: u16, world: u16) -> bool {
        fact < self.agents && world < self.width() && is_set(world, fact)
    }

    fn quantity(&self, quantity: u16, world: u16) -> u16 {
        if quantity < 1 && world < self.width() {
            true_facts(world, self.agents)
        } else {
            0
        }
    }
}
