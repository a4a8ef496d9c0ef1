ghost use Rattle.trust.specs.Statements.{meant, fail_sets, quorum_sets};
ghost use Rattle.std.proofs.Common.{arith, rules};
ghost use Rattle.std.proofs.lemmas.Bool.{ltb-true, eq-eqb, eqb-true, lt-ltb};
ghost use Rattle.sets.proofs.Sets.{inside_le, no_node, node_low};
ghost use Rattle.trust.specs.Soundness.{part_down};
ghost use Rattle.trust.specs.NodeTrusts.{trust_at};
ghost use Rattle.std.specs.Prelude.{◌≡◌, ◌≤◌, zero, suc, ◌^◌, bit_and, nat_eq, slice_index};
ghost use Rattle.std.specs.Int.Bits.{and_zero_l};
ghost use Rattle.sets.specs.Sets.{inside};
ghost use Rattle.sets.proofs.Lists.{any_of_from, any_of_at, listed_lt};
ghost use Rattle.trust.specs.Fits.{some_fail, fails_fit, quorums_fit};

use crate::node_trust::NodeTrust;
use crate::rule::{TrustRule, in_range};
use crate::statement::Statement;
use sets::{Node, NodeSet};

impl Statement {
    // What a node trusts.
    fn of(&self, node: Node) -> &NodeTrust
        requires { (1 ≤ node.0) × (node.0 ≤ 16) }
        ensures { result.now ≡ trust_at self.now.trust node.0 }
    {
        &self.trust[(node.0 - 1) as usize]
    }
}

impl TrustRule for Statement {
    ghost meaning = { meant };

    ghost sized = { first_of (Prim.search rules, Prim.grind (arith, Self.row.coded.inj)) };

    ghost closed = { λ x i a b _ fits within e. part_down x.nodes (fail_sets x i) a b (omega (arith, inside_le a b within, ltb-true b _ fits)) within e };

    ghost empty = { λ x.
        elim [
          | zero ↦ λ e. absurd (no_node x.nodes e)
          | suc k ↦
              λ e.
              let fs = fail_sets x (suc k) in
              any_of_from fs (λ f. inside 0 f) 0 (some_fail x k (node_low x.nodes k e)) (eq-eqb (bit_and 0 (slice_index fs 0)) 0 (and_zero_l (slice_index fs 0)))
        ] };

    ghost within = { λ x.
        elim [
          | zero ↦ λ s e. absurd (no_node x.nodes e)
          | suc k ↦
              λ s e.
              let low = node_low x.nodes k e in
              let fs = fail_sets x (suc k) in
              let qs = quorum_sets x (suc k) in (
                (λ h. let (j, l, same) = any_of_at qs (λ q. nat_eq q s) h in
                    lt-ltb s (2 ^ x.nodes) (omega (arith, listed_lt x.nodes qs (quorums_fit x k low) j l, eqb-true (slice_index qs j) s same))),
                (λ h. let (j, l, part) = any_of_at fs (λ f. inside s f) h in
                    lt-ltb s (2 ^ x.nodes) (omega (arith, listed_lt x.nodes fs (fails_fit x k low) j l, inside_le s (slice_index fs j) part))),
              )
        ] };

    fn size(&self) -> u32 {
        self.nodes
    }

    fn holds_quorum(&self, node: Node, set: NodeSet) -> bool {
        in_range(self.nodes, node, set) && self.of(node).quorums.has_inside(set)
    }

    fn holds_kernel(&self, node: Node, set: NodeSet) -> bool {
        in_range(self.nodes, node, set) && self.of(node).quorums.all_meet(set)
    }

    fn tolerated(&self, node: Node, set: NodeSet) -> bool {
        in_range(self.nodes, node, set) && self.of(node).fails.has_around(set)
    }

    fn sound(&self) -> bool {
        self.first_unavailable().is_none() && self.first_inconsistent().is_none()
    }
}
