// Reads a setting line.
ghost use Rattle.std.specs.Prelude.{◌≡◌, ◌≤◌, [], length, MatchResult};
ghost use Rattle.formulas.specs.Faults.{of_formula};
ghost use Rattle.formulas.specs.Reading.{parsed};
ghost use Rattle.formulas.specs.Steps.{Failed};
ghost use Rattle.lines.specs.Faults.{of_line};
ghost use Rattle.lines.specs.Dates.{days_of};
ghost use Rattle.lines.specs.Settings.{setting_word, setting_rest, opening_for, setting_of, opening_of, read_setting, days_in};

use crate::dates::DateList;
use crate::faults::LineFault;
use crate::firsts::{first_word, start};
use crate::readers::{all_dates, last_number};
use formulas::faults::FormulaFault;
use formulas::parts::number;
use lexer::cursor::Cursor;

// What a first line sets: pairs by a low number and a sum, a list of dates, or agents in a circle or a queue.
#[derive(Clone, Copy, Debug, PartialEq, Eq)]
pub enum Setting {
    Pairs { low: u16, sum: u16 },
    Dates,
    // Two variants for two words: what they have in common is no matter of the line.
    Circle { agents: u16 },
    Queue { agents: u16 },
}

// The words that a first line may begin with.
#[derive(Clone, Copy, Debug, PartialEq, Eq)]
pub enum SettingWord {
    Pairs,
    Dates,
    Circle,
    Queue,
}

// The word of a setting, if it is one. No `match` on the bytes: tried, and it gets no proof at words this long.
#[tactic(auto, unfolding(crate::specs::Settings::setting_word))]
fn setting_word(word: &[u8]) -> Option<SettingWord>
    ensures { result ≡ setting_word word.now }
{
    if word == b"pairs".as_slice() {
        Some(SettingWord::Pairs)
    } else if word == b"dates".as_slice() {
        Some(SettingWord::Dates)
    } else if word == b"circle".as_slice() {
        Some(SettingWord::Circle)
    } else if word == b"queue".as_slice() {
        Some(SettingWord::Queue)
    } else {
        None
    }
}

// What follows the word of a setting; the list holds its dates, if it is for dates. Each word has a grammar of its own, so a `match` picks it.
fn setting_rest(
    cursor: &mut Cursor<'_>,
    word: SettingWord,
    dates: &mut DateList,
) -> Result<Setting, FormulaFault>
    requires { length cursor.old ≤ 201 }
    ensures { MatchResult result (λ x. setting_rest word cursor.old ≡ parsed (opening_for x (days_of dates.new)) []) (λ e. Failed (setting_rest word cursor.old) (of_formula e)) }
{
    match word {
        SettingWord::Pairs => {
            let low = number(cursor)?;
            let sum = last_number(cursor)?;
            Ok(Setting::Pairs { low, sum })
        }
        SettingWord::Dates => {
            all_dates(cursor, dates)?;
            Ok(Setting::Dates)
        }
        SettingWord::Circle => Ok(Setting::Circle {
            agents: last_number(cursor)?,
        }),
        SettingWord::Queue => Ok(Setting::Queue {
            agents: last_number(cursor)?,
        }),
    }
}

// A setting line.
#[tactic(auto, using(crate::proofs::Starts::first_long, crate::proofs::Starts::first_short, crate::proofs::Starts::pieces_few))]
fn setting_in(line: &[u8], dates: &mut DateList) -> Result<Setting, LineFault>
    ensures { MatchResult result (λ x. setting_of line.now ≡ parsed (opening_for x (days_of dates.new)) []) (λ e. Failed (setting_of line.now) (of_line e)) }
{
    let mut cursor = start(line)?;
    let first = first_word(&mut cursor)?;
    let word = setting_word(first.word).ok_or(LineFault::Word(first.column))?;
    Ok(setting_rest(&mut cursor, word, dates)?)
}

// Reads a first line. The list then holds its dates, and none where the line is refused or lists none.
pub fn read_setting(line: &[u8], dates: &mut DateList) -> Result<Setting, LineFault>
    ensures answers_the_line { opening_of result (days_of dates.new) ≡ read_setting line.now }
    ensures holds_its_dates { days_of dates.new ≡ days_in (read_setting line.now) }
{
    let answer = setting_in(line, dates);
    if !matches!(answer, Ok(Setting::Dates)) {
        dates.clear();
    }
    answer
}
