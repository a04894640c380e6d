// At how many worlds of a model a formula is true, and at which.
ghost use Rattle.std.specs.Prelude.{◌≡◌, length, Ok};
ghost use Rattle.evaluator.specs.Marks.{answer, area, MarksTheTruth};

use crate::checks::check;
use crate::fills::fill_rows;
use crate::rows::Rows;
use model::questions::Model;
use model::refusals::Refusal;
use model::rows::words_for;
use model::verdict::survivors;
use theory::node::Node;

// At how many of the surviving worlds a formula is true.
#[derive(Clone, Copy, Debug, PartialEq, Eq)]
pub struct Marked {
    pub holding: u16,
    pub survivors: u16,
}

// The nodes, how many are used and the root are three values, as they are lent: any of them may be wrong, and is then refused.
// Writes the rows of nodes 0 to root into the work area, in which bit w of a row says whether its node is true at
// world w, and counts the worlds of the root's row.
pub fn mark<M: Model>(
    model: &M,
    nodes: &[Node],
    used: usize,
    root: usize,
    work: &mut [u64],
) -> Result<Marked, Refusal>
    ensures answers_by_the_rules { result ≡ answer (M.meaning model.now) nodes.now used root (length work.old) }
    ensures writes_the_rows { work.new ≡ area (M.meaning model.now) nodes.now used root work.old }
    ensures marks_the_truth { (m : Marked) → result ≡ Ok m → MarksTheTruth (M.meaning model.now) nodes.now root work.new }
{
    check(model, nodes, used, root, work.len())?;
    let width = model.width();
    let words = words_for(width);
    fill_rows(model, nodes, root, work, words);
    Ok(Marked {
        holding: Rows { work, words }.count(root, width),
        survivors: survivors(model),
    })
}
