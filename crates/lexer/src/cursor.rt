// A place on a line, where its tokens are read.
ghost use Rattle.std.specs.Prelude.{◌≡◌, MatchResult, OnErr};
ghost use Rattle.lexer.specs.Tokens.{pieces_from};
ghost use Rattle.lexer.specs.Faults.{of_token};
ghost use Rattle.lexer.specs.Steps.{Next, Stops};

use crate::tokens::{Class, Lexeme, TokenFault, after, first_token, run};
use std::marker::Model;

// What is left of a line, and the column where it begins. A clause sees the pieces that are left.
#[derive(Drop)]
pub struct Cursor<'a> {
    rest: &'a [u8],
    column: usize,
}

impl<'a> Model for Cursor<'a> {
    ghost use Rattle.std.specs.Prelude.{List, length, ◌+◌, ◌^◌, ◌≤◌};
    ghost use Rattle.lexer.specs.Tokens.{Placed, scan};

    ghost Value = { List Placed };

    ghost view = { λ c. scan 0 c.column c.rest.now };

    ghost invariant = { λ c. c.column + length c.rest.now ≤ 2 ^ 63 };
}

impl<'a> Cursor<'a> {
    // The beginning of a line.
    pub fn new(line: &'a [u8]) -> Cursor<'a>
        ensures stands_at_the_start { result ≡ pieces_from line.now 0 }
    {
        Cursor::at(line, 0)
    }

    // An index of a line; past the line's end there is nothing but the end.
    #[tactic(auto, unfolding(crate::specs::Tokens::pieces_from))]
    pub fn at(line: &'a [u8], from: usize) -> Cursor<'a>
        ensures stands_at_the_index { result ≡ pieces_from line.now from }
    {
        let start = from.min(line.len());
        Cursor {
            rest: after(line, start),
            column: start + 1,
        }
    }

    // A second cursor at the same place. A derived `clone` could fail, and `Copy` is not to be had under a lifetime.
    pub fn fork(&self) -> Cursor<'a>
        ensures stands_there_too { result ≡ self.now }
    {
        Cursor {
            rest: self.rest,
            column: self.column,
        }
    }

    // The next token, which is passed, unless it is the end. A fault is not passed.
    #[tactic(auto, using(crate::proofs::Firsts::no_space, crate::proofs::Scans::scan_spaces))]
    pub fn next_token(&mut self) -> Result<Lexeme<'a>, TokenFault>
        ensures is_the_next_piece { MatchResult result (λ x. Next self.old x self.new) (λ e. Stops self.old (of_token e)) }
        ensures stays_at_a_fault { OnErr result (self.new ≡ self.old) }
    {
        let spaces = run(self.rest, Class::Space);
        let begun = after(self.rest, spaces);
        let column = self.column + spaces;
        let token = first_token(begun, column)?;
        let size = token.size();
        self.rest = after(begun, size);
        self.column = column + size;
        Ok(Lexeme { token, column })
    }
}
