ghost use Rattle.std.specs.Prelude.{◌≡◌, ◌≤◌, true, length};
ghost use Rattle.trust.specs.Fitting.{in_range?, bounded?, some_each?};

use crate::node_trust::NodeTrust;

pub mod listed;
mod making;
mod searching;

// What each node trusts: node k's trust stands at k - 1.
// The array is fixed, since a C host has no allocator.
#[derive(Clone, Copy)]
pub struct Statement {
    nodes: u32,
    trust: [NodeTrust; 16],
    ghost places: { length trust ≡ 16 },
    ghost some: { 1 ≤ nodes },
    ghost few: { nodes ≤ 16 },
    ghost in_range: { in_range? nodes trust ≡ true },
    ghost bounded: { bounded? nodes trust ≡ true },
    ghost each_fails: { some_each? nodes trust ≡ true },
}
