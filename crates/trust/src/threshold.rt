ghost use Rattle.std.specs.Prelude.{◌≡◌, ◌^◌, Ok, Err};
ghost use Rattle.trust.specs.Threshold.{Counts, threshold};
ghost use Rattle.std.proofs.Common.{arith, rules};
ghost use Rattle.std.proofs.lemmas.Bool.{ltb-true, and_parts};
ghost use Rattle.sets.proofs.Sets.{inside_le};
ghost use Rattle.sets.proofs.Counts.{ones_inside, ones_none};
ghost use Rattle.trust.specs.ThresholdQuestions.{at_most_says, at_most_from};
ghost use Rattle.std.proofs.lemmas.Nat.{pow_pos};

use crate::refusal::Refusal;
use crate::rule::{TrustRule, in_range};
use sets::{Node, NodeSet};

// Of n nodes, each tolerates every set of at most f, and has every set of exactly q as a quorum.
#[derive(Clone, Copy)]
pub struct Threshold {
    n: u32,
    f: u32,
    q: u32,
    ghost ok: { Counts n f q },
}

impl Threshold {
    // Refused where n is not 1 to 16, or f or q is above 16.
    pub fn new(n: u32, f: u32, q: u32) -> Result<Threshold, Refusal>
        ensures { elim result [ Ok x ↦ Counts n f q × (x.n ≡ n) × (x.f ≡ f) × (x.q ≡ q) | Err e ↦ (Counts n f q → ⊥) × (e ≡ Refusal.Range) ] }
    {
        if n == 0 || n > 16 || f > 16 || q > 16 {
            return Err(Refusal::Range);
        }
        Ok(Threshold { n, f, q })
    }
}

impl TrustRule for Threshold {
    ghost meaning = { λ x. threshold x.n x.f x.q };

    ghost sized = { first_of (Prim.search rules, Prim.grind (arith, Self.row.coded.inj)) };

    ghost closed = { λ x i a b _ fits within e. at_most_from x.n x.f a (omega (arith, inside_le a b within, ltb-true b (2 ^ x.n) fits)) (omega (arith, ones_inside a b within, at_most_says x.n x.f b e)) };

    ghost empty = { λ x i _. at_most_from x.n x.f 0 (pow_pos x.n) (omega (arith, ones_none)) };

    ghost within = { λ x i s _. ((λ e. (and_parts _ _ e).0), (λ e. (and_parts _ _ e).0)) };

    fn size(&self) -> u32 {
        self.n
    }

    fn holds_quorum(&self, node: Node, set: NodeSet) -> bool {
        in_range(self.n, node, set) && set.count() >= self.q
    }

    fn holds_kernel(&self, node: Node, set: NodeSet) -> bool {
        in_range(self.n, node, set) && self.n - set.count() < self.q
    }

    fn tolerated(&self, node: Node, set: NodeSet) -> bool {
        in_range(self.n, node, set) && set.count() <= self.f
    }

    fn sound(&self) -> bool {
        2 * self.q > self.n + self.f && self.q + self.f <= self.n
    }
}
