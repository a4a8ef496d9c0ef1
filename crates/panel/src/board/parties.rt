ghost use Rattle.std.specs.Prelude.{◌≡◌, ◌≤◌, not, ◌&&◌};
ghost use Rattle.sets.specs.Sets.{node?, has};

use super::index::Route;
use protocol::slot::Slot;
use sets::{Node, NodeSet};

// The nodes 1 to `size`, and which of them are faulty.
#[derive(Clone, Copy)]
pub(crate) struct Parties {
    pub size: u32,
    pub faulty: NodeSet,
    ghost few: { size ≤ 16 },
}

// One broadcast: who takes part, whose it is, and what has happened in its slot.
#[derive(Clone, Copy)]
pub(crate) struct Broadcast<'b> {
    pub parties: Parties,
    pub sender: Node,
    pub slot: &'b Slot,
}

impl Parties {
    // One of the nodes, and not faulty.
    pub(crate) fn is_correct(self, node: Node) -> bool
        ensures { result ≡ (node? self.size node.0 && not (has self.faulty.0 node.0)) }
    {
        node.is_among(self.size) && !self.faulty.has(node)
    }

    // Both ends of the route are correct.
    pub(crate) fn join(self, route: Route) -> bool
        ensures { result ≡ ((node? self.size route.from.node.0 && not (has self.faulty.0 route.from.node.0)) && (node? self.size route.to.node.0 && not (has self.faulty.0 route.to.node.0))) }
    {
        self.is_correct(route.from.node) && self.is_correct(route.to.node)
    }
}
