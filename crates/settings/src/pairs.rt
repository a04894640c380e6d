// Number pairs.
ghost use Rattle.std.specs.Prelude.{◌<◌};

// Two numbers, of which one agent is told the sum and the other the product.
#[derive(Clone, Copy)]
pub struct Pair {
    x: u8,
    y: u8,
    ghost xfits: { x < 256 },
    ghost yfits: { y < 256 },
}

pub mod filling;
pub mod telling;
