// Reads a whole formula.
ghost use Rattle.std.specs.Prelude.{◌≡◌, OnErr};
ghost use Rattle.formulas.specs.Readers.{a_formula};
ghost use Rattle.formulas.specs.Steps.{Reads, Keeps};
ghost use Rattle.formulas.specs.Stores.{store_of};

use crate::faults::FormulaFault;
use crate::nodes::NodeList;
use crate::terms::Parser;
use lexer::cursor::Cursor;

// How many levels a formula may open.
pub const LEVELS: u8 = 32;

// A formula, where the cursor stands: its nodes are appended. Where it is refused, the cursor stays and some nodes may be appended.
pub fn formula(cursor: &mut Cursor<'_>, nodes: &mut NodeList) -> Result<(), FormulaFault>
    ensures reads_a_formula { Reads a_formula cursor.old cursor.new result (store_of nodes.old) (store_of nodes.new) }
    ensures keeps_the_nodes_before { Keeps (store_of nodes.old) (store_of nodes.new) }
    ensures stays_at_a_fault { OnErr result (cursor.new ≡ cursor.old) }
{
    let begun = cursor.fork();
    let answer = Parser { cursor, nodes }.disjunction(LEVELS);
    if answer.is_err() {
        *cursor = begun;
    }
    answer
}
