ghost use Rattle.std.specs.Prelude.{◌≡◌, ℕ, ◌+◌, ◌≤◌, [], ◌∷◌, length, replicate, if◌then◌else◌, slice_set, take, OnOk, OnErr, IfOk};
ghost use Rattle.std.specs.Result.{result_err};
ghost use Rattle.trust.specs.Refusals.{first_of};
ghost use Rattle.trust.specs.declared.refusal.Refusal.TheVariants.{RollFull};
ghost use Rattle.runs.specs.Calls.{slot_at, with_proposal, place_of, roll_full};
ghost use Rattle.protocol.specs.Hearing.{absent, hear};
ghost use Rattle.broadcast.specs.Slots.{record_at};
ghost use Rattle.broadcast.specs.Events.{hears};
ghost use Rattle.protocol.specs.Fresh.{fresh_slot};

use super::Board;
use super::index::{Member, SlotIndex};
use protocol::message::{Message, Place};
use protocol::record::Heard;
use protocol::slot::Slot;
use sets::Node;
use trust::refusal::Refusal;
use trust::rule::TrustRule;

impl Board {
    // No place is used, and nothing has happened in any slot.
    pub(crate) fn fresh() -> Board
        ensures { (result.used ≡ 0) × (result.slots ≡ replicate 16 fresh_slot) }
    {
        Board {
            used: 0,
            slots: [Slot::fresh(); 16],
        }
    }

    pub(crate) fn slot(&self, slot: SlotIndex) -> &Slot
        ensures { result.now ≡ slot_at self.now.slots slot.number }
    {
        &self.slots[slot.index()]
    }

    // The slots below one.
    pub(crate) fn below(&self, slot: SlotIndex) -> &[Slot]
        ensures count { length result.now ≡ slot.number }
        ensures slots { result.now ≡ take slot.number self.now.slots }
    {
        &self.slots[..slot.index()]
    }

    // The sender of a slot proposes the value at a place.
    pub(crate) fn set_proposal(&mut self, slot: SlotIndex, place: Place)
        ensures slots { self.new.slots ≡ with_proposal self.old.slots slot.number place }
        ensures used { self.new.used ≡ self.old.used }
    {
        self.slots[slot.index()].proposal = Some(place);
    }

    // A node hears a message in a slot.
    pub(crate) fn hear<R: TrustRule>(
        &mut self,
        rule: &R,
        slot: SlotIndex,
        sender: Node,
        to: Member,
        message: Message,
    ) -> Heard
        ensures said { result ≡ (hear (R.meaning rule.now) to.node.0 sender.0 (record_at (slot_at self.old.slots slot.number) to.node.0) message.kind message.from.0 message.place).1 }
        ensures slots { (faulty : ℕ) → self.new.slots ≡ slice_set self.old.slots slot.number (hears (record { trust = R.meaning rule.now; faulty = faulty; sender = sender.0 }) message.kind message.from.0 to.node.0 message.place (slot_at self.old.slots slot.number)) }
        ensures used { self.new.used ≡ self.old.used }
    {
        self.slots[slot.index()].records[to.index()].hear(rule, to.node, sender, message)
    }

    // The place of a value: where it is known, or the next place of the roll, where it goes.
    pub(crate) fn enter<V: Copy>(
        &mut self,
        roll: &mut [V],
        value: V,
        known: Option<Place>,
    ) -> Result<Place, Refusal>
        requires { length roll.old ≤ 255 }
        ensures full { result_err result ≡ first_of ((roll_full self.old.used (length roll.old) known, RollFull) ∷ []) }
        ensures place { IfOk result (λ place. place ≡ place_of self.old.used known) }
        ensures slots { self.new.slots ≡ self.old.slots }
        ensures used { OnOk result (self.new.used ≡ (if absent known then self.old.used + 1 else self.old.used)) }
        ensures roll { OnOk result (roll.new ≡ (if absent known then slice_set roll.old self.old.used value else roll.old)) }
        ensures err { OnErr result ((self.new.used ≡ self.old.used) × (roll.new ≡ roll.old)) }
    {
        if let Some(place) = known {
            return Ok(place);
        }
        let at = self.used;
        if roll.len() <= at {
            return Err(Refusal::RollFull);
        }
        roll[at] = value;
        self.used = at + 1;
        Ok(Place(at as u8))
    }
}
