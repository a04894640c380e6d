// What a node says of a world, from the rows of the nodes that it names.
ghost use Rattle.std.specs.Prelude.{◌≡◌, ◌&&◌, length};
ghost use Rattle.model.specs.Rows.{bit, implies};
ghost use Rattle.theory.specs.Formula.{shape};
ghost use Rattle.theory.specs.Truth.{reaches, everywhere, constant};
ghost use Rattle.evaluator.specs.Rows.{row_bit, says, RowsThere};

use crate::rows::Rows;
use model::questions::Model;
use model::rows::has_world;
use theory::node::{Node, Shape};

// Whether the world survives and the agent does not distinguish it from another.
fn is_reached<M: Model>(model: &M, agent: u16, from: u16, world: u16) -> bool
    ensures { result ≡ reaches (M.meaning model.now) agent from world }
{
    model.survives(world) & !model.distinguishes(agent, from, world)
}

// Whether the row has a world, if the agent reaches it.
fn has_if_reached<M: Model>(model: &M, agent: u16, from: u16, row: &[u64], world: u16) -> bool
    ensures { result ≡ implies (reaches (M.meaning model.now) agent from world) (bit row.now world) }
{
    !is_reached(model, agent, from, world) || has_world(row, world)
}

// Whether the row has every world that the agent reaches.
fn knows<M: Model>(model: &M, agent: u16, world: u16, row: &[u64]) -> bool
    ensures { result ≡ everywhere (M.meaning model.now) agent world (bit row.now) }
{
    (0..model.width()).all(|other| has_if_reached(model, agent, world, row, other))
}

// Whether the quantity is equal at all worlds of the row that the agent reaches. A loop: as a `find` and an `all` it takes
// three functions of six parameters each, no plainer.
fn knows_value<M: Model>(model: &M, agent: u16, quantity: u16, world: u16, row: &[u64]) -> bool
    ensures { result ≡ constant (M.meaning model.now) quantity (λ v. reaches (M.meaning model.now) agent world v && bit row.now v) }
{
    let mut seen = None;
    for other in 0..model.width() {
        if is_reached(model, agent, world, other) & has_world(row, other) {
            let here = model.quantity(quantity, other);
            match seen {
                Some(value) if value != here => return false,
                Some(_) => {}
                None => seen = Some(here),
            }
        }
    }
    true
}

// Whether what a node says is true at a surviving world, where the rows of the nodes that it names are written.
fn holds_in<M: Model>(model: &M, shape: Shape, rows: Rows<'_>, world: u16) -> bool
    requires { RowsThere shape rows.words (length rows.work.now) }
    ensures { result ≡ says (M.meaning model.now) (row_bit rows.entry.work.now rows.entry.words) shape world }
{
    match shape {
        Shape::Top => true,
        Shape::Fact(fact) => model.fact(fact, world),
        Shape::Equals(quantity, value) => model.quantity(quantity, world) == value,
        Shape::Not(node) => !rows.has(node, world),
        Shape::Both(left, right) => rows.has(left, world) & rows.has(right, world),
        Shape::Knows(agent, node) => knows(model, agent, world, rows.row(node as usize)),
        Shape::Value(agent, quantity, node) => {
            knows_value(model, agent, quantity, world, rows.row(node as usize))
        }
    }
}

// Whether a node is true at a surviving world, where the rows of the nodes that it names are written.
pub fn is_true<M: Model>(model: &M, node: Node, rows: Rows<'_>, world: u16) -> bool
    requires { RowsThere (shape node) rows.words (length rows.work.now) }
    ensures { result ≡ says (M.meaning model.now) (row_bit rows.entry.work.now rows.entry.words) (shape node) world }
{
    match Shape::try_from(node) {
        Ok(shape) => holds_in(model, shape, rows, world),
        Err(_) => true,
    }
}
