// Whether a list of nodes can be evaluated.
ghost use Rattle.std.specs.Prelude.{◌≡◌, ◌+◌, ◌<◌, ◌≤◌, length, unwrap_or, IfSome, Ok};
ghost use Rattle.model.specs.Causes.{first};
ghost use Rattle.evaluator.specs.Checks.{usable, names_there, sound, first_bad, faults, Fillable};

use model::questions::Model;
use model::refusals::Refusal;
use model::rows::words_for;
use theory::node::{Node, Shape};

// How many nodes can be used.
const MOST_NODES: usize = 4096;

// Whether the count of used nodes and the root fit a list of that length.
fn is_usable(len: usize, used: usize, root: usize) -> bool
    ensures { result ≡ usable len used root }
{
    (0 < used) & (used <= len) & (used <= MOST_NODES) & (root < used)
}

// Whether what a node at that place says names only what is there.
fn names_what_is_there<M: Model>(model: &M, place: usize, shape: Shape) -> bool
    ensures { result ≡ names_there (M.meaning model.now) place shape }
{
    match shape {
        Shape::Top => true,
        Shape::Fact(fact) => fact < model.facts(),
        Shape::Equals(quantity, _) => quantity < model.quantities(),
        Shape::Not(node) => (node as usize) < place,
        Shape::Both(left, right) => ((left as usize) < place) & ((right as usize) < place),
        Shape::Knows(agent, node) => (agent < model.agents()) & ((node as usize) < place),
        Shape::Value(agent, quantity, node) => {
            (agent < model.agents()) & (quantity < model.quantities()) & ((node as usize) < place)
        }
    }
}

// Whether the node at that place has a kind and names only what is there.
fn is_sound<M: Model>(model: &M, place: usize, node: Node) -> bool
    ensures { result ≡ sound (M.meaning model.now) place node }
{
    match Shape::try_from(node) {
        Ok(shape) => names_what_is_there(model, place, shape),
        Err(_) => false,
    }
}

// The lowest used node that is not sound, if there is one.
fn first_unsound<M: Model>(model: &M, nodes: &[Node], used: usize) -> Option<usize>
    requires { used ≤ length nodes.now }
    ensures lowest { unwrap_or result used ≡ first_bad (M.meaning model.now) nodes.now used }
    ensures below { IfSome result (λ i. i < used) }
{
    (0..used).find(|place| !is_sound(model, *place, nodes[*place]))
}

// The first cause of refusal, if there is one. It stands apart from `check` so as to have no proof file, which would leave its edits without meaning.
fn first_cause<M: Model>(
    model: &M,
    nodes: &[Node],
    used: usize,
    root: usize,
    room: usize,
) -> Result<(), Refusal>
    ensures { result ≡ first (faults (M.meaning model.now) nodes.now used root room) tt }
{
    if !is_usable(nodes.len(), used, root) {
        return Err(Refusal::NodeCount);
    }
    if let Some(bad) = first_unsound(model, nodes, used) {
        return Err(Refusal::BadNode(bad as u16));
    }
    if room < (root + 1) * words_for(model.width()) {
        return Err(Refusal::ShortWork);
    }
    Ok(())
}

// Refuses what cannot be evaluated in a work area of so many words.
pub fn check<M: Model>(
    model: &M,
    nodes: &[Node],
    used: usize,
    root: usize,
    room: usize,
) -> Result<(), Refusal>
    ensures is { result ≡ first (faults (M.meaning model.now) nodes.now used root room) tt }
    ensures accepts { result ≡ Ok tt → Fillable (M.meaning model.now) nodes.now (root + 1) room }
{
    first_cause(model, nodes, used, root, room)
}
