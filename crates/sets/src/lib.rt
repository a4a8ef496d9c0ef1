#![tactic(auto)]

ghost use Rattle.std.specs.Prelude.{◌≡◌, ℕ, ◌≤◌, min, true, not, ◌&&◌, ◌||◌, Decides, ◌==◌, bit_and, bit_or, count_ones, decimal, Some};
ghost use Rattle.sets.specs.Sets.{node?, set?, has, inside, meets, with_node, how_many, rest};

use std::fmt;

// A node by its number. Nodes are 1 to 16; any number may be asked about.
#[derive(Clone, Copy, PartialEq, Eq, PartialOrd, Ord, Debug)]
pub struct Node(pub u32);

// A set of nodes: node k is the bit worth 2^(k-1). Sets are ordered by that number.
#[derive(Clone, Copy, PartialEq, Eq, PartialOrd, Ord, Debug)]
pub struct NodeSet(pub u16);

impl Node {
    // One of the nodes 1 to n.
    pub fn is_among(self, n: u32) -> bool
        ensures { result ≡ node? n self.0 }
    {
        self.0 >= 1 && self.0 <= n
    }
}

impl fmt::Display for Node {
    ghost output = { λ node. Some (decimal node.0) };

    fn fmt<W: fmt::Write>(&self, f: &mut fmt::Formatter<W>) -> fmt::Result {
        let number = self.0;
        write!(f, "{number}")
    }
}

impl NodeSet {
    // The node is in the set.
    pub fn has(self, node: Node) -> bool
        ensures { result ≡ has self.0 node.0 }
    {
        node.is_among(16) && self.0 & (1 << (node.0 - 1)) != 0
    }

    // How many nodes the set has.
    pub fn count(self) -> u32
        ensures value { result ≡ count_ones self.0 }
        ensures members { result ≡ how_many 16 (has self.0) }
    {
        self.0.count_ones()
    }

    // Every node of the set is in the other.
    pub fn is_inside(self, other: NodeSet) -> bool
        ensures value { result ≡ inside self.0 other.0 }
        ensures members { Decides result ((k : ℕ) → has self.0 k ≡ true → has other.0 k ≡ true) }
    {
        self.0 & other.0 == self.0
    }

    // The two have a node in common.
    pub fn meets(self, other: NodeSet) -> bool
        ensures value { result ≡ meets self.0 other.0 }
        ensures members { Decides result ((k : ℕ) × (has self.0 k ≡ true) × (has other.0 k ≡ true)) }
    {
        self.0 & other.0 != 0
    }

    // The nodes of either.
    pub fn union(self, other: NodeSet) -> NodeSet
        ensures value { result.0 ≡ bit_or self.0 other.0 }
        ensures members { (k : ℕ) → has result.0 k ≡ (has self.0 k || has other.0 k) }
    {
        NodeSet(self.0 | other.0)
    }

    // The nodes of both.
    pub fn common(self, other: NodeSet) -> NodeSet
        ensures value { result.0 ≡ bit_and self.0 other.0 }
        ensures members { (k : ℕ) → has result.0 k ≡ (has self.0 k && has other.0 k) }
    {
        NodeSet(self.0 & other.0)
    }

    // The nodes 1 to n outside the set; there are none above 16.
    pub fn rest_within(self, n: u32) -> NodeSet
        ensures value { result.0 ≡ rest (min n 16) self.0 }
        ensures members { (k : ℕ) → has result.0 k ≡ (node? (min n 16) k && not (has self.0 k)) }
    {
        let all = ((1u32 << n.min(16)) - 1) as u16;
        NodeSet(all - (self.0 & all))
    }

    // The set has no bit above n.
    pub fn fits(self, n: u32) -> bool
        ensures value { result ≡ set? n self.0 }
        ensures members { Decides result ((k : ℕ) → has self.0 k ≡ true → k ≤ n) }
    {
        n >= 16 || (self.0 as u32) < 1u32 << n
    }

    // The set and that node; a number outside 1 to 16 changes nothing.
    pub fn with(self, node: Node) -> NodeSet
        ensures value { result.0 ≡ with_node self.0 node.0 }
        ensures members { (k : ℕ) → has result.0 k ≡ (has self.0 k || (node? 16 node.0 && k == node.0)) }
    {
        if !node.is_among(16) {
            return self;
        }
        NodeSet(self.0 | (1 << (node.0 - 1)))
    }
}
