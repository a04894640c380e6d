// A table of sixteen slots, filled in order.
ghost use Rattle.std.specs.Prelude.{◌≡◌, ◌≤◌, length};

// How many slots a table has.
pub const MAX_SLOTS: usize = 16;

// The first `used` slots are filled. A rule of the project keeps it a plain array with a count: the next slot is lent out of it.
#[derive(Drop)]
pub struct Slots<T> {
    slots: [T; MAX_SLOTS],
    used: usize,
    ghost whole: { length slots ≡ 16 },
    ghost fits: { used ≤ 16 },
}

pub mod filling;
