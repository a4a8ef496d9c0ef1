ghost use Rattle.std.specs.Prelude.{◌≡◌, ℕ, suc, ◌<◌, ◌≤◌, ◌&&◌, List, [], ◌++◌, is_ok, OnOk, IfErr, Ok, nat_lt};
ghost use Rattle.sets.specs.Sets.{node?, set?};
ghost use Rattle.text.specs.Reading.{follows?, in_range?, in_order?, own};
ghost use Rattle.text.specs.Drafts.{counted, sets_at, held, placed, Noted, Kept, Taken};

use super::Draft;
use crate::fields::read_record;
use crate::reader::Line;
use crate::record::{Entry, Record, Role};
use trust::node_trust::NodeTrust;
use trust::refusal::Refusal;

impl Entry {
    // A node from 1 to n and a set of such nodes.
    fn is_in_range(self, n: u32) -> bool
        ensures { result ≡ (node? n self.node.0 && set? n self.set.0) }
    {
        self.node.is_among(n) && self.set.fits(n)
    }

    // The entry may follow p.
    fn follows(self, p: Entry) -> bool
        ensures { result ≡ follows? p self }
    {
        p < self
    }
}

impl Draft {
    // No record yet.
    pub(crate) fn empty() -> Draft
        ensures { Kept result [] }
    {
        Draft {
            nodes: None,
            newest: None,
            trust: [NodeTrust::nothing(); 16],
        }
    }

    // Its count, or its node and mask, are in range; before the N line no range is known.
    fn is_in_range(&self, next: Record) -> bool
        ensures { result ≡ in_range? (counted self.now) next }
    {
        match next {
            Record::Count(count) => (1..=16).contains(&count),
            Record::Listed(e) => self.nodes.is_none_or(|n| e.is_in_range(n)),
        }
    }

    // It may follow the newest record.
    fn is_in_order(&self, next: Record) -> bool
        ensures { result ≡ in_order? self.now.newest next }
    {
        match (self.newest, next) {
            (None, Record::Count(_)) => true,
            (None, Record::Listed(_)) => false,
            (Some(_), Record::Count(_)) => false,
            (Some(Record::Count(_)), Record::Listed(_)) => true,
            (Some(Record::Listed(p)), Record::Listed(e)) => e.follows(p),
        }
    }

    // Refused where it is out of range, or out of order.
    fn check(&self, next: Record) -> Result<(), Refusal>
        ensures { result ≡ placed (counted self.now) self.now.newest next }
    {
        if !self.is_in_range(next) {
            return Err(Refusal::Range);
        }
        if !self.is_in_order(next) {
            return Err(Refusal::Order);
        }
        Ok(())
    }

    // One set more for a node, or refused where it has 16 of that role.
    fn add(&mut self, e: Entry) -> Result<(), Refusal>
        requires { (1 ≤ e.node.0) × (e.node.0 ≤ 16) }
        ensures others { (self.new.nodes ≡ self.old.nodes) × (self.new.newest ≡ self.old.newest) }
        ensures room { is_ok result ≡ nat_lt (held self.old (Record.Listed e)) 16 }
        ensures sets { OnOk result ((role : Role) (k : ℕ) → k < 16 → sets_at self.new role k ≡ sets_at self.old role k ++ own role (suc k) (Record.Listed e)) }
        ensures full { IfErr result (λ x. (x ≡ Refusal.TooMany) × (self.new ≡ self.old)) }
    {
        let node = &mut self.trust[(e.node.0 - 1) as usize];
        match e.role {
            Role::FailProne => node.fails.push(e.set),
            Role::Quorum => node.quorums.push(e.set),
        }
    }

    // One record more, or refused where its node has 16 sets of its role.
    fn note(&mut self, next: Record) -> Result<(), Refusal>
        requires { placed (counted self.old) self.old.newest next ≡ Ok tt }
        ensures room { is_ok result ≡ nat_lt (held self.old next) 16 }
        ensures noted { OnOk result (Noted self.old next self.new) }
        ensures full { IfErr result (λ x. (x ≡ Refusal.TooMany) × (self.new ≡ self.old)) }
    {
        match next {
            Record::Count(count) => self.nodes = Some(count),
            Record::Listed(e) => self.add(e)?,
        }
        self.newest = Some(next);
        Ok(())
    }

    // Takes a line, or says why not and stays as it is.
    pub(crate) fn take(&mut self, line: Line<'_>) -> Result<(), Refusal>
        ensures { (before : List Record) → Kept self.old before → Taken before (record { bytes = line.entry.bytes.now; ended = line.entry.ended }) result self.new }
    {
        if !line.ended {
            return Err(Refusal::Form);
        }
        let next = read_record(line.bytes).ok_or(Refusal::Form)?;
        self.check(next)?;
        self.note(next)
    }
}
