ghost use Rattle.std.specs.Prelude.{◌≡◌, ◌≤◌, ◌&&◌};
ghost use Rattle.trust.specs.ByLists.{misses?, both_part?, b3_row?, b3_pair?, keeps_with?, pair?};

use crate::family::Family;
use sets::NodeSet;

// What a node trusts: its fail-prone sets and its quorums.
// The count of nodes stays a plain number: a type that holds `n ≤ 16` would be taken off in each of its few uses.
#[derive(Clone, Copy)]
pub struct NodeTrust {
    pub fails: Family,
    pub quorums: Family,
}

impl NodeTrust {
    ghost use Rattle.trust.specs.NodeTrusts.{nothing, fits?, few?};

    // No fail-prone set and no quorum.
    pub fn nothing() -> NodeTrust
        ensures { result ≡ nothing }
    {
        NodeTrust {
            fails: Family::empty(),
            quorums: Family::empty(),
        }
    }

    // No set has a bit above n.
    pub(crate) fn fits(&self, n: u32) -> bool
        ensures says { result ≡ fits? n self.now }
        ensures few { result ≡ (fits? n self.now && few? self.now) }
    {
        self.fails.fits(n) && self.quorums.fits(n)
    }

    // Each fail-prone set misses a quorum.
    pub(crate) fn is_available(&self) -> bool
        ensures { result ≡ misses? self.now.fails self.now.quorums }
    {
        let fails = self.fails.sets();
        fails.iter().all(|f| !self.quorums.all_meet(NodeSet(*f)))
    }

    // s is part of a fail-prone set of both.
    fn both_tolerate(&self, other: &NodeTrust, s: NodeSet) -> bool
        ensures { result ≡ both_part? self.now.fails other.now.fails s.0 }
    {
        self.fails.has_around(s) && other.fails.has_around(s)
    }

    // No fail-prone set of the other node, with a and a set that both tolerate, is all n nodes.
    fn leaves_open(&self, other: &NodeTrust, n: u32, a: NodeSet) -> bool
        requires { n ≤ 16 }
        ensures { result ≡ b3_row? n self.now.fails other.now.fails a.0 }
    {
        other.fails.sets().iter().all(|b| !self.both_tolerate(
            other,
            a.union(NodeSet(*b)).rest_within(n),
        ))
    }

    // No fail-prone set of each, and a set that both tolerate, are all n nodes together.
    pub(crate) fn is_b3_with(&self, other: &NodeTrust, n: u32) -> bool
        requires { n ≤ 16 }
        ensures { result ≡ b3_pair? n self.now.fails other.now.fails }
    {
        self.fails
            .sets()
            .iter()
            .all(|a| self.leaves_open(other, n, NodeSet(*a)))
    }

    // No quorum of the other node meets q in a set that both tolerate.
    fn keeps_with(&self, other: &NodeTrust, q: NodeSet) -> bool
        ensures { result ≡ keeps_with? self.now.fails other.now.fails other.now.quorums q.0 }
    {
        other
            .quorums
            .sets()
            .iter()
            .all(|r| !self.both_tolerate(other, q.common(NodeSet(*r))))
    }

    // No two quorums of the pair meet in a set that both tolerate.
    pub(crate) fn is_consistent_with(&self, other: &NodeTrust) -> bool
        ensures { result ≡ pair? self.now.fails other.now.fails self.now.quorums other.now.quorums }
    {
        self.quorums
            .sets()
            .iter()
            .all(|q| self.keeps_with(other, NodeSet(*q)))
    }
}
