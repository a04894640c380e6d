// Reads the first word of a line.
ghost use Rattle.std.specs.Prelude.{◌≡◌, ◌<◌, ◌≤◌, length, OnErr};
ghost use Rattle.std.specs.Result.{MatchResult};
ghost use Rattle.lexer.specs.Tokens.{pieces_from};
ghost use Rattle.formulas.specs.Steps.{Failed};
ghost use Rattle.lines.specs.Faults.{of_line};
ghost use Rattle.lines.specs.Reading.{the_beginning};
ghost use Rattle.lines.specs.Firsts.{Begun};

use crate::faults::LineFault;
use lexer::cursor::Cursor;
use lexer::tokens::{MAX_LINE, Token};

// A line's first word, with its column.
#[derive(Clone, Copy, Debug, PartialEq, Eq)]
pub struct FirstWord<'a> {
    pub word: &'a [u8],
    pub column: usize,
}

// The beginning of a line that is not too long.
pub fn start(line: &[u8]) -> Result<Cursor<'_>, LineFault>
    ensures starts_a_short_line { MatchResult result (λ c. (length line.now ≤ 200) × (c ≡ pieces_from line.now 0)) (λ e. (200 < length line.now) × (e ≡ LineFault.Long)) }
{
    if line.len() > MAX_LINE {
        return Err(LineFault::Long);
    }
    Ok(Cursor::new(line))
}

// The first word of the line that the cursor stands at the start of, and stays at if there is a fault. That it is known is asked by
// settings and calls: a function over the kind of word would need a longer contract than the line that it saves.
#[tactic(auto, unfolding(crate::specs::Reading::the_beginning))]
pub fn first_word<'a>(cursor: &mut Cursor<'a>) -> Result<FirstWord<'a>, LineFault>
    ensures reads_a_word { MatchResult result (λ x. Begun cursor.old x cursor.new) (λ e. Failed (the_beginning cursor.old) (of_line e)) }
    ensures stays_at_a_fault { OnErr result (cursor.new ≡ cursor.old) }
{
    let begun = cursor.fork();
    let x = cursor.next_token()?;
    match x.token {
        Token::Word(word) => Ok(FirstWord {
            word,
            column: x.column,
        }),
        Token::Number { .. } | Token::Sign(_) | Token::End => {
            *cursor = begun;
            Err(LineFault::Word(x.column))
        }
    }
}
