// A list of cases as a model: an agent distinguishes two worlds at which it was told different numbers.
ghost use Rattle.std.specs.Prelude.{◌≡◌, ◌<◌, map, length, slice_index};
ghost use Rattle.settings.specs.Results.{on_ok};
ghost use Rattle.settings.specs.Settings.{set_up};
ghost use Rattle.settings.specs.Cases.{listed, checked};
ghost use Rattle.settings.specs.Readings.{records};
ghost use Rattle.settings.specs.FairCases.{lawful_listed};

use crate::cases::{CaseList, Cases, MAX_CASES};
use crate::told::Told;
use model::questions::Model as PuzzleModel;
use model::refusals::Refusal;

impl<'a, R> CaseList<'a, R> {
    // The list of the slice's records, of which there must be 1 to 4,096.
    pub fn check(cases: &'a [R]) -> Result<CaseList<'a, R>, Refusal>
        ensures is_the_slice { on_ok records result ≡ checked cases.now }
    {
        if cases.len() < 1 || cases.len() > MAX_CASES {
            return Err(Refusal::CaseCount);
        }
        Ok(CaseList { cases })
    }
}

impl<'a, R> Cases<'a, R> {
    // The model of the list.
    pub fn new(list: CaseList<'a, R>) -> Cases<'a, R>
        ensures holds_the_list { records result.list ≡ records list.entry }
    {
        Cases { list }
    }
}

impl<'a, R: Told> Cases<'a, R> {
    // What the agent was told at the world.
    fn told_at(&self, agent: u16, world: u16) -> u32
        requires is_a_world { world < length (records self.now.list) }
        ensures is_told { result ≡ slice_index (map (λ x. R.Told.told x agent) (records self.now.list)) world }
    {
        let cases = self.list.cases;
        cases[world as usize].told(agent)
    }

    // The quantity's value at the world.
    fn amount_at(&self, quantity: u16, world: u16) -> u16
        requires is_a_world { world < length (records self.now.list) }
        ensures is_the_amount { result ≡ slice_index (map (λ x. R.Told.amount x quantity) (records self.now.list)) world }
    {
        let cases = self.list.cases;
        cases[world as usize].quantity(quantity)
    }
}

impl<'a, R: Told> PuzzleModel for Cases<'a, R> {
    ghost meaning = { λ c. set_up (listed R.Told.agents R.Told.quantities R.Told.told R.Told.amount (records c.list)) };

    ghost lawful = { λ c. lawful_listed R.Told.kind R.Told.told R.Told.amount R.Told.small (records c.list) c.list.some c.list.few };

    fn width(&self) -> u16 {
        self.list.cases.len() as u16
    }

    fn agents(&self) -> u16 {
        R::agents()
    }

    fn facts(&self) -> u16 {
        0
    }

    fn quantities(&self) -> u16 {
        R::quantities()
    }

    fn survives(&self, world: u16) -> bool {
        world < self.width()
    }

    fn distinguishes(&self, agent: u16, left: u16, right: u16) -> bool {
        let n = self.width();
        if agent >= R::agents() || left >= n || right >= n {
            return true;
        }
        self.told_at(agent, left) != self.told_at(agent, right)
    }

    fn fact(&self, _fact: u16, _world: u16) -> bool {
        false
    }

    fn quantity(&self, quantity: u16, world: u16) -> u16 {
        if quantity < R::quantities() && world < self.width() {
            self.amount_at(quantity, world)
        } else {
            0
        }
    }
}
