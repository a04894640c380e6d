// Goes through the lines of a text that are not blank.
ghost use Rattle.std.specs.Prelude.{◌≡◌, ◌+◌, ◌<◌, ◌≤◌, length, Some};
ghost use Rattle.std.specs.Iterator.{at_most};
ghost use Rattle.listing.specs.Lines.{lines_of, lines_left, size_left};
ghost use Rattle.listing.specs.Walks.{NextFilled};

use crate::texts::{Lines, first_line, is_blank};

impl<'a> Lines<'a> {
    // All lines of a text, from number 1 on.
    pub fn of(text: &'a [u8]) -> Lines<'a>
        requires is_short { length text.now ≤ 16384 }
        ensures begins { result.number ≡ 1 }
        ensures has_all { lines_left result.rest ≡ lines_of text.now }
    {
        Lines {
            number: 1,
            rest: Some(text),
        }
    }

    // The lines after the one of this number.
    fn after(number: u32, rest: Option<&'a [u8]>) -> Lines<'a>
        requires is_left { number + size_left rest < 16386 }
        ensures counts_on { result.number ≡ number + 1 }
        ensures keeps_the_rest { result.rest ≡ rest.entry }
    {
        Lines {
            number: number + 1,
            rest,
        }
    }
}

// The lines that are not blank, each with its number.
impl<'a> Iterator for Lines<'a> {
    type Item = (u32, &'a [u8]);

    ghost next_gives = { NextFilled };

    ghost remaining = { λ s. at_most (size_left s.rest) };

    fn next(&mut self) -> Option<(u32, &'a [u8])> {
        while let Some(text) = self.rest {
            let (line, rest) = first_line(text);
            let number = self.number;
            *self = Lines::after(number, rest);
            if !is_blank(line) {
                return Some((number, line));
            }
        }
        None
    }
}
