// Reads what the lines of settings have in common, each where the cursor stands.
ghost use Rattle.std.specs.Prelude.{◌≡◌, ◌≤◌, [], length, MatchOption, MatchResult};
ghost use Rattle.formulas.specs.Faults.{of_formula};
ghost use Rattle.formulas.specs.Reading.{parsed};
ghost use Rattle.formulas.specs.Steps.{Failed};
ghost use Rattle.lines.specs.Reading.{last_number, the_dates};
ghost use Rattle.lines.specs.Dates.{days_of};
ghost use Rattle.lines.specs.Steps.{Dated};

use crate::dates::{DateList, MonthDay};
use formulas::faults::FormulaFault;
use formulas::parts::{end, number, number_if};
use lexer::cursor::Cursor;

// A number with nothing after it.
pub fn last_number(cursor: &mut Cursor<'_>) -> Result<u16, FormulaFault>
    ensures { MatchResult result (λ n. last_number cursor.old ≡ parsed n []) (λ e. Failed (last_number cursor.old) (of_formula e)) }
{
    let n = number(cursor)?;
    end(cursor)?;
    Ok(n)
}

// The next date; none at the line's end.
#[tactic(auto, using(crate::proofs::Readings::month_step, crate::proofs::Readings::day_step))]
fn date(cursor: &mut Cursor<'_>) -> Result<Option<MonthDay>, FormulaFault>
    ensures { MatchResult result (λ o. MatchOption o (the_dates cursor.old ≡ parsed [] []) (λ d. Dated cursor.old d cursor.new)) (λ e. Failed (the_dates cursor.old) (of_formula e)) }
{
    match number_if(cursor)? {
        Some(month) => {
            let day = number(cursor)?;
            Ok(Some(MonthDay { month, day }))
        }
        None => Ok(None),
    }
}

// The dates up to the end of a line of at most 200 bytes, which has no more pieces than these and its end.
pub fn all_dates(cursor: &mut Cursor<'_>, dates: &mut DateList) -> Result<(), FormulaFault>
    requires { length cursor.old ≤ 201 }
    ensures { MatchResult result (λ _. the_dates cursor.old ≡ parsed (days_of dates.new) []) (λ e. Failed (the_dates cursor.old) (of_formula e)) }
{
    dates.clear();
    while let Some(found) = date(cursor)? {
        dates.add(found);
    }
    Ok(())
}
