// Nodes of formulas: as they are lent, by numbers, and what they say.
ghost use Rattle.std.specs.Prelude.{◌≡◌};
ghost use Rattle.theory.specs.Shapes.{Reads, node_of};

// What the numbers mean goes by the kind, from 0 to 6: the truth; fact a; quantity a is b; node a is not true; the nodes
// a and b are true; agent a knows that node b is true; agent a knows the value of quantity b if node c is true.
// The kind stays a number here, since lists of nodes are lent in this form, with any numbers.
#[derive(Clone, Copy, Debug, PartialEq, Eq)]
pub struct Node {
    pub kind: u8,
    pub a: u16,
    pub b: u16,
    pub c: u16,
}

// What a node says, with the nodes that it names by their numbers.
#[derive(Clone, Copy, Debug, PartialEq, Eq)]
pub enum Shape {
    // The truth.
    Top,
    // The fact is true.
    Fact(u16),
    // The quantity has the value.
    Equals(u16, u16),
    // The node is not true.
    Not(u16),
    // Both nodes are true.
    Both(u16, u16),
    // The agent knows that the node is true.
    Knows(u16, u16),
    // The agent knows the value of the quantity, if the node is true.
    Value(u16, u16, u16),
}

// A number that is no kind of node.
#[derive(Clone, Copy, Debug, PartialEq, Eq)]
pub struct UnknownKind(pub u8);

impl TryFrom<Node> for Shape {
    type Error = UnknownKind;

    ghost try_from_gives = { Reads };

    fn try_from(node: Node) -> Result<Shape, UnknownKind> {
        let Node { kind, a, b, c } = node;
        match kind {
            0 => Ok(Shape::Top),
            1 => Ok(Shape::Fact(a)),
            2 => Ok(Shape::Equals(a, b)),
            3 => Ok(Shape::Not(a)),
            4 => Ok(Shape::Both(a, b)),
            5 => Ok(Shape::Knows(a, b)),
            6 => Ok(Shape::Value(a, b, c)),
            _ => Err(UnknownKind(kind)),
        }
    }
}

// Numbers that a kind does not use are 0. By hand, since a derive has no clause.
impl From<Shape> for Node {
    ghost from_gives = { λ s n. n ≡ node_of s };

    fn from(shape: Shape) -> Node {
        let (kind, a, b, c) = match shape {
            Shape::Top => (0, 0, 0, 0),
            Shape::Fact(fact) => (1, fact, 0, 0),
            Shape::Equals(quantity, value) => (2, quantity, value, 0),
            Shape::Not(node) => (3, node, 0, 0),
            Shape::Both(left, right) => (4, left, right, 0),
            Shape::Knows(agent, node) => (5, agent, node, 0),
            Shape::Value(agent, quantity, node) => (6, agent, quantity, node),
        };
        Node { kind, a, b, c }
    }
}
