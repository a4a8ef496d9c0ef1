ghost use Rattle.std.specs.Prelude.{◌≡◌, ◌==◌, min, [], ◌∷◌, ◌++◌, map, length, is_ok, OnOk, IfErr, nat_lt, ◌≤◌};
ghost use Rattle.sets.specs.Lists.{any_of, all_of, of_nodes?};
ghost use Rattle.sets.specs.Sets.{inside, meets, rest};
ghost use Rattle.trust.specs.ByLists.{part?};

use crate::refusal::Refusal;
use sets::NodeSet;
use std::marker::Model;

// At most 16 sets of nodes, in order; a contract sees the list of their masks.
// The array is fixed, since a C host has no allocator, and a statement can be copied.
#[derive(Clone, Copy)]
pub struct Family {
    masks: [u16; 16],
    count: usize,
}

impl Model for Family {
    ghost use Rattle.std.specs.Prelude.{◌≡◌, ℕ, ◌-◌, ◌≤◌, List, ◌++◌, take, drop, length, replicate};
    ghost use Rattle.trust.specs.Padding.{first_len, padded};
    ghost use Rattle.std.proofs.Math.Path.{ap₂};

    ghost Value = { List ℕ };

    ghost view = { λ f. take f.count f.masks };

    // The places past the last set are 0: so the list gives the fields back, which a copy needs.
    ghost invariant = { λ f. (length f.masks ≡ 16) × (f.count ≤ 16) × (drop f.count f.masks ≡ replicate (16 - f.count) 0) };

    ghost inverse = { λ xs. record { masks = xs ++ replicate (16 - length xs) 0; count = length xs } };

    ghost inverse_ok = { λ f ok. ap₂ (λ m c. record { masks = m; count = c }) (padded f.masks f.count ok.0 ok.1 ok.2) (first_len f.masks f.count ok.0 ok.1 ok.2) };
}

impl Family {
    // No sets.
    pub fn empty() -> Family
        ensures { result ≡ [] }
    {
        Family {
            masks: [0; 16],
            count: 0,
        }
    }

    // One set more at the end, or refused where there are 16.
    pub fn push(&mut self, set: NodeSet) -> Result<(), Refusal>
        ensures room { is_ok result ≡ nat_lt (length self.old) 16 }
        ensures added { OnOk result (self.new ≡ self.old ++ set.0 ∷ []) }
        ensures full { IfErr result (λ e. (e ≡ Refusal.TooMany) × (self.new ≡ self.old)) }
        ensures few { length self.new ≤ 16 }
    {
        if self.count >= 16 {
            return Err(Refusal::TooMany);
        }
        self.masks[self.count] = set.0;
        self.count += 1;
        Ok(())
    }

    // How many sets there are.
    pub fn len(&self) -> usize
        ensures count { result ≡ length self.now }
        ensures few { result ≤ 16 }
    {
        self.sets().len()
    }

    // There is no set.
    pub fn is_empty(&self) -> bool
        ensures { result ≡ (length self.now == 0) }
    {
        self.sets().is_empty()
    }

    // The masks of the sets.
    pub(crate) fn sets(&self) -> &[u16]
        ensures list { result.now ≡ self.now }
        ensures few { length result.now ≤ 16 }
    {
        &self.masks[..self.count]
    }

    // Of each set, the nodes 1 to n outside it.
    pub fn rests(&self, n: u32) -> Family
        ensures list { result ≡ map (rest (min n 16)) self.now }
        ensures few { length result ≤ 16 }
    {
        let mut rests = Family::empty();
        for mask in self.sets() {
            rests.push(NodeSet(*mask).rest_within(n)).unwrap();
        }
        rests
    }

    // Some set is all inside s.
    pub(crate) fn has_inside(&self, s: NodeSet) -> bool
        ensures { result ≡ any_of self.now (λ q. inside q s.0) }
    {
        self.sets().iter().any(|q| NodeSet(*q).is_inside(s))
    }

    // s is part of some set.
    pub(crate) fn has_around(&self, s: NodeSet) -> bool
        ensures { result ≡ part? self.now s.0 }
    {
        self.sets().iter().any(|f| s.is_inside(NodeSet(*f)))
    }

    // Every set has a node in s.
    pub(crate) fn all_meet(&self, s: NodeSet) -> bool
        ensures { result ≡ all_of self.now (λ q. meets q s.0) }
    {
        self.sets().iter().all(|q| NodeSet(*q).meets(s))
    }

    // No set has a bit above n.
    pub(crate) fn fits(&self, n: u32) -> bool
        ensures says { result ≡ of_nodes? n self.now }
        ensures few { length self.now ≤ 16 }
    {
        self.sets().iter().all(|mask| NodeSet(*mask).fits(n))
    }
}
