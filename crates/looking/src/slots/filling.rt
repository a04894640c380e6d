// How the slots of a table are filled, one after another.
ghost use Rattle.std.specs.Prelude.{◌≡◌, is_some, nat_lt};
ghost use Rattle.std.specs.Borrow.{sem, follows_so};
ghost use Rattle.std.specs.Option.{ghost_name_of as name_of};
ghost use Rattle.looking.specs.contracts.slots.Slots.{the_row};
ghost use Rattle.looking.specs.Slots.{Blank, Fills, Stays, kept};

use crate::slots::{MAX_SLOTS, Slots};

impl<T: Copy> Slots<T> {
    // Sixteen empty slots.
    pub fn new(blank: T) -> Slots<T>
        ensures is_empty { Blank blank result }
    {
        Slots {
            slots: [blank; MAX_SLOTS],
            used: 0,
        }
    }
}

impl<T> Slots<T> {
    // How many slots are filled.
    pub fn used(&self) -> usize
        ensures counts_the_filled_slots { result ≡ self.now.used }
    {
        self.used
    }

    // What the filled slots hold.
    pub fn kept(&self) -> &[T]
        ensures gives_the_filled_slots { result.now ≡ kept self.now }
    {
        &self.slots[..self.used]
    }

    // The next empty slot, lent to be filled: when the loan ends it is filled with what was written there.
    pub fn next(&mut self) -> Option<&mut T>
        ensures* lends_the_next_slot { sem 𝓛 (follows_so (the_row T.row) T.row self.entry.ghost_name (name_of result) (Fills self.old) (Stays self.old)) }
        ensures lends_while_one_is_empty { is_some result ≡ nat_lt self.old.used 16 }
    {
        let place = self.used;
        if place >= MAX_SLOTS {
            return None;
        }
        self.used = place + 1;
        Some(&mut self.slots[place])
    }
}
