// Looks: who looked, and at which row; and a table of them.
ghost use Rattle.std.specs.Prelude.{◌≡◌, replicate, is_some, nat_lt};
ghost use Rattle.std.specs.Option.{OnSome, IfNone};
ghost use Rattle.looking.specs.Slots.{Filled, kept};
ghost use Rattle.looking.specs.Looks.{tells, told, HoldsLook};

use crate::slots::Slots;
use model::rows::{MAX_WORDS, has_world, whole_row};

// One look: the agent distinguishes worlds of which exactly one is in the row, which has a fixed size: a step has no heap.
#[derive(Clone, Copy, Debug, PartialEq, Eq)]
pub struct Slot {
    agent: u16,
    row: [u64; MAX_WORDS],
}

impl Slot {
    // What an empty slot holds: no agent's look at no world.
    pub fn blank() -> Slot
        ensures is_blank { result ≡ record { agent = 0; row = replicate 64 0 } }
    {
        Slot {
            agent: 0,
            row: [0; MAX_WORDS],
        }
    }

    // Whether the look tells the agent the two worlds apart.
    pub fn tells(&self, agent: u16, left: u16, right: u16) -> bool
        ensures compares_the_two_bits { result ≡ tells self.now agent left right }
    {
        agent == self.agent && has_world(&self.row, left) != has_world(&self.row, right)
    }

    // Writes the look into the slot. Agent and row stay two parameters, as a stage is asked: each has a refusal of its own.
    pub fn fill(&mut self, agent: u16, row: &[u64])
        ensures holds_the_look { HoldsLook agent row.now self.new }
    {
        self.agent = agent;
        self.row = whole_row(row);
    }
}

impl Slots<Slot> {
    // Keeps the look in the next empty slot, if there is one.
    pub fn keep(&mut self, agent: u16, row: &[u64]) -> Option<()>
        ensures keeps_while_a_slot_is_empty { is_some result ≡ nat_lt self.old.used 16 }
        ensures fills_the_next_slot { OnSome result ((s : Slot) × HoldsLook agent row.now s × Filled self.old s self.new) }
        ensures stays_when_full { IfNone result (self.new ≡ self.old) }
    {
        self.next()?.fill(agent, row);
        Some(())
    }

    // Whether a look that is kept tells the agent the two worlds apart.
    pub fn tell(&self, agent: u16, left: u16, right: u16) -> bool
        ensures asks_every_look { result ≡ told (kept self.now) agent left right }
    {
        self.kept()
            .iter()
            .any(|slot| slot.tells(agent, left, right))
    }
}
