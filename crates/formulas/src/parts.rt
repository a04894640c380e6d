// Parts of a line that formulas and lines share, each read where the cursor stands. What is public leaves it there at a fault.
ghost use Rattle.std.specs.Prelude.{◌≡◌, ℕ, [], Some, None, MatchOption, MatchResult, IfOk, IfNone, OnErr};
ghost use Rattle.lexer.specs.Faults.{of_token};
ghost use Rattle.formulas.specs.Faults.{of_formula};
ghost use Rattle.formulas.specs.Reading.{a_number, number_if, the_end, perhaps, the_sign, parsed};
ghost use Rattle.formulas.specs.Steps.{Gave, Looked, Failed};

use crate::faults::FormulaFault;
use lexer::cursor::Cursor;
use lexer::tokens::{Sign, Token, TokenFault};

// The fault of a token out of place, at its column; the cursor goes back to where it stood.
fn misplaced<'a>(cursor: &mut Cursor<'a>, begun: Cursor<'a>, column: usize) -> FormulaFault
    ensures goes_back { cursor.new ≡ begun.entry }
    ensures is_the_fault { result ≡ FormulaFault.Place column }
{
    *cursor = begun;
    FormulaFault::Place(column)
}

// A number, which is passed.
#[tactic(auto, unfolding(crate::specs::Reading::a_number))]
pub fn number(cursor: &mut Cursor<'_>) -> Result<u16, FormulaFault>
    ensures reads_a_number { MatchResult result (λ n. Gave (a_number cursor.old) n cursor.old cursor.new) (λ e. Failed (a_number cursor.old) (of_formula e)) }
    ensures stays_at_a_fault { OnErr result (cursor.new ≡ cursor.old) }
{
    let begun = cursor.fork();
    let x = cursor.next_token()?;
    match x.token {
        Token::Number { value, .. } => Ok(value),
        Token::Word(_) | Token::Sign(_) | Token::End => Err(misplaced(cursor, begun, x.column)),
    }
}

// A number, which is passed; none at the line's end, which is not.
#[tactic(auto, unfolding(crate::specs::Reading::number_if))]
pub fn number_if(cursor: &mut Cursor<'_>) -> Result<Option<u16>, FormulaFault>
    ensures reads_a_number_or_the_end { MatchResult result (λ o. MatchOption o (number_if cursor.old ≡ parsed None []) (λ n. Gave (number_if cursor.old) (Some n) cursor.old cursor.new)) (λ e. Failed (number_if cursor.old) (of_formula e)) }
    ensures stays_at_the_end { IfOk result (λ o. IfNone o (cursor.new ≡ cursor.old)) }
    ensures stays_at_a_fault { OnErr result (cursor.new ≡ cursor.old) }
{
    let begun = cursor.fork();
    let x = cursor.next_token()?;
    match x.token {
        Token::Number { value, .. } => Ok(Some(value)),
        Token::End => Ok(None),
        Token::Word(_) | Token::Sign(_) => Err(misplaced(cursor, begun, x.column)),
    }
}

// That nothing more stands on the line. The cursor stays where it stands.
#[tactic(auto, unfolding(crate::specs::Reading::the_end))]
pub fn end(cursor: &mut Cursor<'_>) -> Result<(), FormulaFault>
    ensures reads_the_end { MatchResult result (λ _. the_end cursor.old ≡ parsed tt []) (λ e. Failed (the_end cursor.old) (of_formula e)) }
    ensures stays { cursor.new ≡ cursor.old }
{
    let begun = cursor.fork();
    let x = cursor.next_token()?;
    match x.token {
        Token::End => Ok(()),
        Token::Number { .. } | Token::Word(_) | Token::Sign(_) => {
            Err(misplaced(cursor, begun, x.column))
        }
    }
}

// The column of the sign, which is passed, if it is next.
#[tactic(auto, unfolding(crate::specs::Reading::perhaps))]
pub(crate) fn perhaps_sign(cursor: &mut Cursor<'_>, sign: Sign) -> Result<Option<usize>, TokenFault>
    ensures { MatchResult result (λ o. Looked (perhaps sign cursor.old) o cursor.old cursor.new) (λ e. Failed (perhaps sign cursor.old) (of_token e)) }
{
    let mut ahead = cursor.fork();
    let x = ahead.next_token()?;
    match x.token {
        Token::Sign(s) if s == sign => {
            *cursor = ahead;
            Ok(Some(x.column))
        }
        Token::Number { .. } | Token::Word(_) | Token::Sign(_) | Token::End => Ok(None),
    }
}

// The sign, which is passed.
#[tactic(auto, unfolding(crate::specs::Reading::the_sign))]
pub(crate) fn expect_sign(cursor: &mut Cursor<'_>, sign: Sign) -> Result<(), FormulaFault>
    ensures { MatchResult result (λ _. (c : ℕ) × Gave (the_sign sign cursor.old) c cursor.old cursor.new) (λ e. Failed (the_sign sign cursor.old) (of_formula e)) }
{
    let x = cursor.next_token()?;
    match x.token {
        Token::Sign(s) if s == sign => Ok(()),
        Token::Number { .. } | Token::Word(_) | Token::Sign(_) | Token::End => {
            Err(FormulaFault::Place(x.column))
        }
    }
}
