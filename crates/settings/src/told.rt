// Records that say what each agent was told.
ghost use Rattle.std.specs.Prelude.{◌≡◌, ℕ, ◌≤◌};
ghost use Rattle.settings.specs.Cases.{Kind};

// A kind of record: how many agents are told something, what each is told, and the quantities.
// Agents and quantities go by their numbers, from 0.
pub trait Told {
    // How many agents and quantities there are.
    ghost agents: { ℕ };

    ghost quantities: { ℕ };

    // What each agent is told, and the value of each quantity.
    ghost told: { Self → ℕ → ℕ };

    ghost amount: { Self → ℕ → ℕ };

    // That these are few, and the values small.
    ghost kind: { Kind agents quantities };

    ghost small: { (r : Self) (q : ℕ) → amount r q ≤ 65535 };

    fn agents() -> u16
        ensures counts_the_agents { result ≡ agents };

    fn quantities() -> u16
        ensures counts_the_quantities { result ≡ quantities };

    // The number that the agent was told.
    fn told(&self, agent: u16) -> u32
        ensures is_what_was_told { result ≡ told self.now agent };

    // The quantity's value.
    fn quantity(&self, quantity: u16) -> u16
        ensures is_the_amount { result ≡ amount self.now quantity };
}
