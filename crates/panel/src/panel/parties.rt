ghost use Rattle.std.specs.Prelude.{◌≡◌, ◌≤◌, not, [], ◌∷◌, OnOk, IfOk};
ghost use Rattle.std.specs.Result.{result_err};
ghost use Rattle.sets.specs.Sets.{node?};
ghost use Rattle.trust.specs.Refusals.{first_of};
ghost use Rattle.trust.specs.declared.refusal.Refusal.TheVariants.{RollSize, NoSuch, WrongParty};
ghost use Rattle.runs.specs.Calls.{correct, sender, slot?, message?, roll_size};
ghost use Rattle.panel.specs.Broadcasts.{IsBroadcastOf, IsRouteOf};
ghost use Rattle.panel.specs.Views.{world_of};

use super::Panel;
use crate::board::index::{Member, Route, SlotIndex};
use crate::board::parties::{Broadcast, Parties};
use protocol::message::Kind;
use sets::Node;
use trust::refusal::Refusal;
use trust::rule::TrustRule;

impl<'r, R: TrustRule> Panel<'r, R> {
    // The rule's nodes, and which of them are faulty.
    pub(super) fn parties(&self) -> Parties
        ensures size { result.size ≡ (R.meaning self.now.rule.now).size }
        ensures faulty { result.faulty ≡ self.now.faulty }
    {
        let size = self.rule.size();
        Parties {
            size,
            faulty: self.faulty,
        }
    }

    // One of the rule's nodes, and not faulty.
    pub(super) fn is_correct(&self, node: Node) -> bool
        ensures { result ≡ correct (world_of R.meaning self.now) node.0 }
    {
        self.parties().is_correct(node)
    }

    // The sender of a slot.
    pub(super) fn sender(&self, slot: SlotIndex) -> Node
        ensures { result.0 ≡ sender (world_of R.meaning self.now) slot.number }
    {
        Node(slot.number % self.rule.size() + 1)
    }

    // Its sender is not faulty.
    pub(super) fn has_correct_sender(&self, slot: SlotIndex) -> bool
        ensures { result ≡ correct (world_of R.meaning self.now) (sender (world_of R.meaning self.now) slot.number) }
    {
        self.is_correct(self.sender(slot))
    }

    // What is known of the broadcast of a slot.
    pub(super) fn broadcast(&self, slot: SlotIndex) -> Broadcast<'_>
        ensures { IsBroadcastOf (world_of R.meaning self.now) self.now.board.slots slot.number result }
    {
        Broadcast {
            parties: self.parties(),
            sender: self.sender(slot),
            slot: self.board.slot(slot),
        }
    }

    // The slot with that number.
    pub(super) fn slot(&self, number: u32) -> Result<SlotIndex, Refusal>
        ensures refused { result_err result ≡ first_of ((not (slot? (world_of R.meaning self.now) number), NoSuch) ∷ []) }
        ensures same { IfOk result (λ slot. slot.number ≡ number) }
    {
        if number >= self.count {
            return Err(Refusal::NoSuch);
        }
        Ok(SlotIndex { number })
    }

    // The rule's node with that number.
    fn member(&self, number: u32) -> Result<Member, Refusal>
        ensures refused { result_err result ≡ first_of ((not (node? (world_of R.meaning self.now).trust.size number), NoSuch) ∷ []) }
        ensures same { IfOk result (λ member. member.node.0 ≡ number) }
    {
        let node = Node(number);
        if !node.is_among(self.rule.size()) {
            return Err(Refusal::NoSuch);
        }
        Ok(Member { node })
    }

    // The correct node with that number.
    pub(super) fn correct_member(&self, number: u32) -> Result<Member, Refusal>
        ensures refused { result_err result ≡ first_of ((not (node? (world_of R.meaning self.now).trust.size number), NoSuch) ∷ ((not (correct (world_of R.meaning self.now) number), WrongParty) ∷ [])) }
        ensures same { IfOk result (λ member. member.node.0 ≡ number) }
    {
        let member = self.member(number)?;
        if !self.is_correct(member.node) {
            return Err(Refusal::WrongParty);
        }
        Ok(member)
    }

    // The slot of a message, and what goes from whom to whom, all in range.
    pub(super) fn route(
        &self,
        kind: u32,
        slot: u32,
        from: u32,
        to: u32,
    ) -> Result<(SlotIndex, Route), Refusal>
        ensures refused { result_err result ≡ first_of ((not (message? (world_of R.meaning self.now) kind slot from to), NoSuch) ∷ []) }
        ensures same { IfOk result (λ m. IsRouteOf kind slot from to m.0 m.1) }
    {
        let kind = Kind::try_from(kind).map_err(|_| Refusal::NoSuch)?;
        let slot = self.slot(slot)?;
        let from = self.member(from)?;
        let to = self.member(to)?;
        Ok((slot, Route { kind, from, to }))
    }

    // A roll of that many places is neither empty nor too long, and has the used places.
    pub(super) fn check_roll(&self, places: usize) -> Result<(), Refusal>
        ensures refused { result_err result ≡ first_of ((roll_size self.now.board.used places, RollSize) ∷ []) }
        ensures ok { OnOk result ((self.now.board.used ≤ places) × (places ≤ 255)) }
    {
        if places == 0 || places > 255 || places < self.board.used {
            return Err(Refusal::RollSize);
        }
        Ok(())
    }
}
