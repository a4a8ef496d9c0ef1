ghost use Rattle.std.specs.Prelude.{◌≡◌, ◌+◌, ◌<◌, ◌≤◌, Bool, take, length, not};
ghost use Rattle.trust.specs.Judging.{b3, first_node, first_pair};
ghost use Rattle.trust.specs.NodeTrusts.{trust_at, AnswersAs};
ghost use Rattle.trust.specs.Statements.{meant};
ghost use Rattle.trust.specs.Trust.{consistent, available};

use crate::node_trust::NodeTrust;
use crate::statement::Statement;
use sets::Node;

// The node at a place, which is counted from 0.
fn node_at(place: usize) -> Node
    requires { place < 16 }
    ensures { result.0 ≡ place + 1 }
{
    Node(place as u32 + 1)
}

impl Statement {
    // What each of its nodes trusts.
    fn stated(&self) -> &[NodeTrust]
        ensures list { result.now ≡ take self.now.nodes self.now.trust }
        ensures all { length result.now ≡ self.now.nodes }
    {
        &self.trust[..self.nodes as usize]
    }

    // The lowest node that fails the test with what a node trusts. `position` was tried: no proof closed of a closure that calls this one.
    fn first_with<F: Fn(&NodeTrust, &NodeTrust) -> bool>(
        &self,
        ours: &NodeTrust,
        passes: &F,
    ) -> Option<Node>
        requires { F.IsAlwaysCallable passes.now }
        ensures { (p : NodeTrust → NodeTrust → Bool) → AnswersAs F.Fn passes.now p → result ≡ first_node self.now.nodes (λ j. p ours.now (trust_at self.now.trust j)) }
    {
        for (j, theirs) in self.stated().iter().enumerate() {
            if !passes(ours, theirs) {
                return Some(node_at(j));
            }
        }
        None
    }

    // The pair that fails the test with the lowest first node, and then the lowest second. A loop for the same reason.
    fn first_pair<F: Fn(&NodeTrust, &NodeTrust) -> bool>(&self, passes: F) -> Option<(Node, Node)>
        requires { F.IsAlwaysCallable passes }
        ensures { (p : NodeTrust → NodeTrust → Bool) → AnswersAs F.Fn passes p → result ≡ first_pair self.now.nodes self.now.nodes (λ i j. p (trust_at self.now.trust i) (trust_at self.now.trust j)) }
    {
        for (i, ours) in self.stated().iter().enumerate() {
            if let Some(node) = self.first_with(ours, &passes) {
                return Some((node_at(i), node));
            }
        }
        None
    }

    // The first pair that does not meet B3.
    pub(crate) fn first_not_b3(&self) -> Option<(Node, Node)>
        ensures { result ≡ first_pair self.now.nodes self.now.nodes (b3 (meant self.now)) }
    {
        self.first_pair(|ours, theirs| ours.is_b3_with(theirs, self.nodes))
    }

    // The first pair that is not consistent.
    pub(crate) fn first_inconsistent(&self) -> Option<(Node, Node)>
        ensures { result ≡ first_pair self.now.nodes self.now.nodes (consistent (meant self.now)) }
    {
        self.first_pair(|ours, theirs| ours.is_consistent_with(theirs))
    }

    // The lowest node that is not available.
    pub(crate) fn first_unavailable(&self) -> Option<Node>
        ensures { result ≡ first_node self.now.nodes (available (meant self.now)) }
    {
        self.stated()
            .iter()
            .position(|t| !t.is_available())
            .map(node_at)
    }
}
