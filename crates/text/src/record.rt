use sets::{Node, NodeSet};

// The first field of a line: N counts the nodes, F lists a fail-prone set, Q a quorum.
#[derive(Clone, Copy)]
pub enum Letter {
    N,
    F,
    Q,
}

// What an F or a Q line lists for its node. F lines come before Q lines.
#[derive(Clone, Copy, PartialEq, Eq, PartialOrd, Ord)]
pub enum Role {
    FailProne,
    Quorum,
}

// An F or Q line: one set of one node. In a text entries rise: by node, then by role, then by the mask.
#[derive(Clone, Copy, PartialEq, Eq, PartialOrd, Ord)]
pub struct Entry {
    pub node: Node,
    pub role: Role,
    pub set: NodeSet,
}

// What one line of a statement text says.
#[derive(Clone, Copy)]
pub enum Record {
    Count(u32),
    Listed(Entry),
}
