// Which facts an agent sees: fact i belongs to agent i.
#[derive(Clone, Copy, Debug, PartialEq, Eq)]
pub enum Sight {
    // Every fact but its own.
    Circle,
    // Only the facts of the agents before it.
    Queue,
}
