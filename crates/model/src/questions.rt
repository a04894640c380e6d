// A model, known by its meaning alone.
ghost use Rattle.std.specs.Prelude.{◌≡◌};
ghost use Rattle.model.specs.Meaning.{Meaning, Lawful};

// A set of possible worlds with what each agent can distinguish and what holds at each world.
// Worlds, agents, facts and quantities go by their numbers, from 0, each a parameter of its own, since any number may be asked about. Every question answers the
// meaning, for every number, and alters nothing.
pub trait Model {
    ghost meaning: { Self → Meaning };

    ghost lawful: { (m : Self) → Lawful (meaning m) };

    // How many worlds there are, surviving or not.
    fn width(&self) -> u16
        ensures { result ≡ (meaning self.now).width };

    fn agents(&self) -> u16
        ensures { result ≡ (meaning self.now).agents };

    fn facts(&self) -> u16
        ensures { result ≡ (meaning self.now).facts };

    fn quantities(&self) -> u16
        ensures { result ≡ (meaning self.now).quantities };

    // Whether the world is still possible.
    fn survives(&self, world: u16) -> bool
        ensures { result ≡ (meaning self.now).survives world };

    // Whether the agent can tell the two worlds apart.
    fn distinguishes(&self, agent: u16, left: u16, right: u16) -> bool
        ensures { result ≡ (meaning self.now).distinguishes agent left right };

    // Whether the fact is true at the world.
    fn fact(&self, fact: u16, world: u16) -> bool
        ensures { result ≡ (meaning self.now).fact fact world };

    // The quantity's value at the world.
    fn quantity(&self, quantity: u16, world: u16) -> u16
        ensures { result ≡ (meaning self.now).quantity quantity world };
}
