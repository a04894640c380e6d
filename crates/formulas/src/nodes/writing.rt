// What is done with a list of nodes.
ghost use Rattle.std.specs.Prelude.{◌≡◌, ◌≤◌, false, [], length, IfOk};
ghost use Rattle.theory.specs.declared.node.Shape.TheVariants.{Value};
ghost use Rattle.theory.specs.Shapes.{node_of};
ghost use Rattle.formulas.specs.Stores.{store_of, put, last, kept, or_nodes, and_then};
ghost use Rattle.formulas.specs.Steps.{Keeps};

use crate::nodes::NodeList;
use std::alloc::{AllocError, Global};
use theory::node::{Node, Shape};

// The most nodes that a list has.
pub const MAX_NODES: usize = 4096;

impl NodeList {
    // An empty list, with all its places reserved.
    pub fn new(heap: Global) -> Result<NodeList, AllocError>
        ensures is_empty { IfOk result (λ l. store_of l ≡ record { nodes = []; full = false }) }
    {
        let items = Vec::with_capacity(heap, MAX_NODES)?;
        Ok(NodeList { items, full: false })
    }

    // How many nodes there are.
    pub fn used(&self) -> usize
        ensures counts_the_nodes { result ≡ length (store_of self.now).nodes }
    {
        self.as_slice().len()
    }

    // The nodes.
    pub fn as_slice(&self) -> &[Node]
        ensures are_the_nodes { result.now ≡ (store_of self.now).nodes }
    {
        self.items.as_slice()
    }

    // Whether a node found no place.
    pub fn is_full(&self) -> bool
        ensures tells_that_one_found_no_place { result ≡ (store_of self.now).full }
    {
        self.full
    }

    // The number of the node written last, and 0 where there is none: no `Option`, as it is asked for right after a node was written.
    pub fn last(&self) -> u16
        ensures is_the_last_node { result ≡ last (store_of self.now) }
    {
        self.items.len().saturating_sub(1) as u16
    }

    // Keeps the first nodes alone, and forgets that one found no place.
    pub fn keep(&mut self, used: usize)
        ensures keeps_the_first_nodes { store_of self.new ≡ kept used (store_of self.old) }
    {
        self.items.truncate(used);
        self.full = false;
    }

    // Appends the node that says this, if it finds a place.
    #[tactic(auto, unfolding(crate::specs::Stores::put))]
    pub(crate) fn put(&mut self, shape: Shape)
        ensures written { store_of self.new ≡ put (store_of self.old) (node_of shape) }
        ensures keeps { Keeps (store_of self.old) (store_of self.new) }
    {
        if self.items.len() < MAX_NODES {
            self.items.push_reserved(shape.into());
        } else {
            self.full = true;
        }
    }

    // Appends not a, not b, and, not, where b is the node written last.
    pub(crate) fn put_or(&mut self, a: u16)
        ensures written { store_of self.new ≡ or_nodes a (store_of self.old) }
        ensures keeps { Keeps (store_of self.old) (store_of self.new) }
    {
        let b = self.last();
        self.put(Shape::Not(a));
        self.put(Shape::Not(b));
        let y = self.last();
        self.put(Shape::Both(y.saturating_sub(1), y));
        let x = self.last();
        self.put(Shape::Not(x));
    }

    // Appends a value node over the node written last.
    pub(crate) fn put_value(&mut self, agent: u16, quantity: u16)
        ensures written { store_of self.new ≡ and_then (store_of self.old) (λ i. node_of (Value agent quantity i)) }
        ensures keeps { Keeps (store_of self.old) (store_of self.new) }
    {
        let c = self.last();
        self.put(Shape::Value(agent, quantity, c));
    }
}
