// Agents in a circle or in a queue, each with a hat that is worn or not.
ghost use Rattle.std.specs.Prelude.{◌≤◌};

use crate::sight::Sight;

// The most agents that a circle or a queue can have.
const MAX_AGENTS: u16 = 12;

// One world for each way in which the facts, one for each agent, can be true or false.
#[derive(Clone, Copy)]
pub struct Hats {
    sight: Sight,
    agents: u16,
    ghost some: { 1 ≤ agents },
    ghost few: { agents ≤ 12 },
}

pub mod answers;
