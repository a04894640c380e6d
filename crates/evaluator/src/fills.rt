// The rows of the nodes of a list, from the first on.
ghost use Rattle.std.specs.Prelude.{◌≡◌, ◌+◌, ◌*◌, ◌++◌, length, drop};
ghost use Rattle.model.specs.Rows.{words as words_of, count};
ghost use Rattle.theory.specs.Formula.{formula};
ghost use Rattle.theory.specs.Truth.{holds};
ghost use Rattle.evaluator.specs.Checks.{Fillable};
ghost use Rattle.evaluator.specs.Rows.{row_bit, with_row, node_row, rows_of, Ready};
ghost use Rattle.evaluator.specs.Marks.{MarksTheTruth};

use crate::rows::{Rows, add_to_row, clear_row};
use crate::truths::is_true;
use model::questions::Model;
use theory::node::Node;

// Whether a node is true at a world, from the rows before its own.
fn holds_at<M: Model>(model: &M, nodes: &[Node], place: usize, rows: Rows<'_>, world: u16) -> bool
    requires { Ready (M.meaning model.now) nodes.now place rows.words rows.work.now }
    ensures { result ≡ holds (M.meaning model.now) (formula nodes.now place) world }
{
    model.survives(world) && is_true(model, nodes[place], rows, world)
}

// Writes the row of a node. A loop by number: a model has no list of its worlds, and the row is written while the rows before it are read.
fn fill_row<M: Model>(model: &M, nodes: &[Node], place: usize, work: &mut [u64], words: usize)
    requires { Ready (M.meaning model.now) nodes.now place words work.old }
    ensures { work.new ≡ with_row work.old words place (node_row (M.meaning model.now) nodes.now place) }
{
    clear_row(work, words, place);
    for world in 0..model.width() {
        if holds_at(model, nodes, place, Rows { work, words }, world) {
            add_to_row(work, words, place, world);
        }
    }
}

// Writes the rows of nodes 0 to root. A loop by number: a node is read by its place, which is also its row's.
pub fn fill_rows<M: Model>(model: &M, nodes: &[Node], root: usize, work: &mut [u64], words: usize)
    requires fillable { Fillable (M.meaning model.now) nodes.now (root + 1) (length work.old) }
    requires per_row { words ≡ words_of (M.meaning model.now).width }
    ensures writes { work.new ≡ rows_of (M.meaning model.now) nodes.now (root + 1) ++ drop ((root + 1) * words) work.old }
    ensures counts { count (row_bit work.new words root) (M.meaning model.now).width ≡ count (holds (M.meaning model.now) (formula nodes.now root)) (M.meaning model.now).width }
    ensures tells { MarksTheTruth (M.meaning model.now) nodes.now root work.new }
{
    for place in 0..root + 1 {
        fill_row(model, nodes, place, work, words);
    }
}
