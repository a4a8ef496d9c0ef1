ghost use Rattle.std.specs.Prelude.{◌≡◌, ℕ, ◌≤◌, true, ◌&&◌};
ghost use Rattle.sets.specs.Sets.{node?, set?, inside};
ghost use Rattle.trust.specs.Trust.{Trust, holds_quorum, holds_kernel, tolerates, sound};

use sets::{Node, NodeSet};

// What each node trusts, by five questions. A node or a set outside the rule's range gets no.
pub trait TrustRule {
    ghost meaning: { Self → Trust };

    // How many nodes there are.
    fn size(&self) -> u32
        ensures { result ≡ (meaning self.now).size };

    // All of one quorum of the node is in the set.
    fn holds_quorum(&self, node: Node, set: NodeSet) -> bool
        ensures { result ≡ holds_quorum (meaning self.now) node.0 set.0 };

    // The set meets every quorum of the node.
    fn holds_kernel(&self, node: Node, set: NodeSet) -> bool
        ensures { result ≡ holds_kernel (meaning self.now) node.0 set.0 };

    // The node is prepared for all of the set to fail.
    fn tolerated(&self, node: Node, set: NodeSet) -> bool
        ensures { result ≡ tolerates (meaning self.now) node.0 set.0 };

    // Each pair of nodes is consistent, and each node available.
    fn sound(&self) -> bool
        ensures { result ≡ sound (meaning self.now) };

    ghost sized: { (x : Self) → (1 ≤ (meaning x).size) × ((meaning x).size ≤ 16) };

    // Parts of a tolerated set are tolerated, and the empty set always is.
    ghost closed: { (x : Self) (i a b : ℕ) → node? (meaning x).size i ≡ true → set? (meaning x).size b ≡ true → inside a b ≡ true → (meaning x).tolerated i b ≡ true → (meaning x).tolerated i a ≡ true };

    ghost empty: { (x : Self) (i : ℕ) → node? (meaning x).size i ≡ true → (meaning x).tolerated i 0 ≡ true };

    // Quorums and tolerated sets are sets of the rule's nodes.
    ghost within: { (x : Self) (i s : ℕ) → node? (meaning x).size i ≡ true → ((meaning x).quorum i s ≡ true → set? (meaning x).size s ≡ true) × ((meaning x).tolerated i s ≡ true → set? (meaning x).size s ≡ true) };
}

// A node from 1 to n, and a set of such nodes: what a rule is asked about.
pub(crate) fn in_range(n: u32, node: Node, set: NodeSet) -> bool
    ensures { result ≡ (node? n node.0 && set? n set.0) }
{
    node.is_among(n) && set.fits(n)
}
