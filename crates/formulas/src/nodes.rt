// The list of nodes that formulas are written to.
ghost use Rattle.std.specs.Prelude.{◌≤◌, vec_len, vec_capacity};

use theory::node::Node;

pub mod writing;

// At most 4,096 nodes, in memory that is reserved first. `full` says that one found no place; a line is read on then, since that is its fault only where nothing else is wrong with it.
#[derive(Drop)]
pub struct NodeList {
    items: Vec<Node>,
    full: bool,
    ghost few: { vec_len items ≤ 4096 },
    ghost room: { 4096 ≤ vec_capacity items },
}
