// Reads a call line.
ghost use Rattle.std.specs.Prelude.{◌≡◌, MatchResult};
ghost use Rattle.formulas.specs.Faults.{of_formula};
ghost use Rattle.formulas.specs.Steps.{Failed, Keeps};
ghost use Rattle.formulas.specs.Stores.{store_of};
ghost use Rattle.lines.specs.Faults.{of_line};
ghost use Rattle.lines.specs.Calls.{call_word, call_rest, call_of, Called, holding, read_call, nodes_after, calling, answer_of};

use crate::faults::LineFault;
use crate::firsts::{first_word, start};
use formulas::faults::FormulaFault;
use formulas::nodes::NodeList;
use formulas::parts::end;
use formulas::readers::formula;
use lexer::cursor::Cursor;

// What a later line asks for. A formula goes by its last node.
#[derive(Clone, Copy, Debug, PartialEq, Eq)]
pub enum Call {
    Where { root: u16 },
    Verdict,
}

// The words that a later line may begin with.
#[derive(Clone, Copy, Debug, PartialEq, Eq)]
pub enum CallWord {
    Where,
    Verdict,
}

// The word of a call, if it is one. No `match` on the bytes: tried, and it gets no proof at words this long.
#[tactic(auto, unfolding(crate::specs::Calls::call_word))]
fn call_word(word: &[u8]) -> Option<CallWord>
    ensures { result ≡ call_word word.now }
{
    if word == b"where".as_slice() {
        Some(CallWord::Where)
    } else if word == b"verdict".as_slice() {
        Some(CallWord::Verdict)
    } else {
        None
    }
}

// What follows the word of a call; the nodes of its formula are appended. Each word has a grammar of its own, so a `match` picks it.
fn call_rest(
    cursor: &mut Cursor<'_>,
    word: CallWord,
    nodes: &mut NodeList,
) -> Result<Call, FormulaFault>
    ensures reads { MatchResult result (λ x. Called (call_rest word cursor.old) x (store_of nodes.old) (store_of nodes.new)) (λ e. Failed (call_rest word cursor.old) (of_formula e)) }
    ensures keeps { Keeps (store_of nodes.old) (store_of nodes.new) }
{
    match word {
        CallWord::Where => {
            formula(cursor, nodes)?;
            end(cursor)?;
            Ok(Call::Where { root: nodes.last() })
        }
        CallWord::Verdict => {
            end(cursor)?;
            Ok(Call::Verdict)
        }
    }
}

// A call line; the nodes of its formula are appended.
#[tactic(auto, using(crate::proofs::Starts::first_long, crate::proofs::Starts::first_short))]
fn call_in(line: &[u8], nodes: &mut NodeList) -> Result<Call, LineFault>
    ensures reads { MatchResult result (λ x. Called (call_of line.now) x (store_of nodes.old) (store_of nodes.new)) (λ e. Failed (call_of line.now) (of_line e)) }
    ensures keeps { Keeps (store_of nodes.old) (store_of nodes.new) }
{
    let mut cursor = start(line)?;
    let first = first_word(&mut cursor)?;
    let word = call_word(first.word).ok_or(LineFault::Word(first.column))?;
    Ok(call_rest(&mut cursor, word, nodes)?)
}

// Reads a later line. The nodes of its formula are appended; where it is refused, the list is as it was.
pub fn read_call(line: &[u8], nodes: &mut NodeList) -> Result<Call, LineFault>
    ensures answers_the_line { answer_of result ≡ calling (store_of nodes.new) (read_call line.now (store_of nodes.old).nodes) }
    ensures holds_its_nodes { store_of nodes.new ≡ holding (nodes_after line.now (store_of nodes.old).nodes) }
    ensures keeps_the_nodes_before { Keeps (store_of nodes.old) (store_of nodes.new) }
{
    let used = nodes.used();
    nodes.keep(used);
    let answer = match call_in(line, nodes) {
        Ok(_) if nodes.is_full() => Err(LineFault::Full),
        answer => answer,
    };
    if answer.is_err() {
        nodes.keep(used);
    }
    answer
}
