// What a number pair tells: agent 0 the sum, agent 1 the product.
ghost use Rattle.std.specs.Prelude.{◌≡◌};
ghost use Rattle.settings.specs.Pairs.{pair_told, pair_amount};
ghost use Rattle.settings.specs.Readings.{numbers};
ghost use Rattle.settings.specs.FairPairs.{pair_kind, pair_small};

use crate::pairs::Pair;
use crate::told::Told;

impl Pair {
    // The pair of the two numbers.
    pub fn new(x: u8, y: u8) -> Pair
        ensures holds_its_numbers { numbers result ≡ (x, y) }
    {
        Pair { x, y }
    }
}

// The quantities are the two numbers, their sum and their product.
impl Told for Pair {
    ghost agents = { 2 };

    ghost quantities = { 4 };

    ghost told = { λ r p. pair_told (numbers r) p };

    ghost amount = { λ r q. pair_amount (numbers r) q };

    ghost kind = { pair_kind };

    ghost small = { λ r q. pair_small r.x r.y r.xfits r.yfits q };

    fn agents() -> u16 {
        2
    }

    fn quantities() -> u16 {
        4
    }

    fn told(&self, agent: u16) -> u32 {
        let (x, y) = (self.x as u32, self.y as u32);
        if agent == 0 { x + y } else { x * y }
    }

    fn quantity(&self, quantity: u16) -> u16 {
        let (x, y) = (self.x as u16, self.y as u16);
        match quantity {
            0 => x,
            1 => y,
            2 => x + y,
            _ => x * y,
        }
    }
}
