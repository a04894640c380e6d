// The rows of a work area, one for each node, end to end.
ghost use Rattle.std.specs.Prelude.{◌≡◌, length, replicate};
ghost use Rattle.model.specs.Rows.{with_world, count};
ghost use Rattle.evaluator.specs.Rows.{HasRow, row_at, row_bit, with_row};

use model::rows::{add_world, count_worlds, has_world};

// The rows of a work area, each of so many words.
#[derive(Clone, Copy)]
pub struct Rows<'a> {
    pub work: &'a [u64],
    pub words: usize,
}

impl<'a> Rows<'a> {
    // The row of a node.
    pub fn row(self, node: usize) -> &'a [u64]
        requires { HasRow node self.words (length self.work.now) }
        ensures { result.now ≡ row_at self.entry.work.now self.entry.words node }
    {
        let work = self.work;
        let start = node * self.words;
        &work[start..start + self.words]
    }

    // Whether the row of a node has a world.
    pub fn has(self, node: u16, world: u16) -> bool
        requires { HasRow node self.words (length self.work.now) }
        ensures { result ≡ row_bit self.entry.work.now self.entry.words node world }
    {
        has_world(self.row(node as usize), world)
    }

    // How many worlds below the width the row of a node has.
    pub fn count(self, node: usize, width: u16) -> u16
        requires { HasRow node self.words (length self.work.now) }
        ensures { result ≡ count (row_bit self.entry.work.now self.entry.words node) width }
    {
        count_worlds(self.row(node), width)
    }
}

// Takes all worlds out of the row of a node. This and the next take the area and its words apart: a struct that holds them to be
// written would be made anew for each call, since the rows before are read in between.
pub fn clear_row(work: &mut [u64], words: usize, node: usize)
    requires { HasRow node words (length work.old) }
    ensures { work.new ≡ with_row work.old words node (replicate words 0) }
{
    let start = node * words;
    work[start..start + words].fill(0);
}

// Puts a world into the row of a node.
pub fn add_to_row(work: &mut [u64], words: usize, node: usize, world: u16)
    requires { HasRow node words (length work.old) }
    ensures { work.new ≡ with_row work.old words node (with_world (row_at work.old words node) world) }
{
    let start = node * words;
    add_world(&mut work[start..start + words], world);
}
