ghost use Rattle.std.specs.Prelude.{◌≡◌, ◌≤◌};
ghost use Rattle.broadcast.specs.Slots.{record_at};
ghost use Rattle.runs.specs.Readings.{meant_at, claims, first_claim, counts?, of_account, tally_of};
ghost use Rattle.panel.specs.Boards.{state_on, of_slots, lent};

use super::Board;
use super::index::{Member, SlotIndex};
use protocol::slot::Slot;
use runs::value::ValueKind;

// What a node delivered in each slot of a board, and the values that the places stand for.
#[derive(Clone, Copy)]
pub(crate) struct Deliveries<'v, V> {
    pub board: &'v Board,
    pub row: &'v [V],
    pub node: Member,
}

impl<'v, V: ValueKind> Deliveries<'v, V> {
    // The value that the node holds in a slot. A delivered place past the row has none.
    fn held(&self, slot: &Slot) -> Option<&'v V>
        ensures { lent V.values result ≡ meant_at V.values self.now.row.now (record_at slot.now self.now.node.node.0).delivered }
    {
        let place = self.node.record_in(slot).delivered?;
        self.row.get(place.0 as usize)
    }

    // The value in a slot is of the account.
    fn is_of(&self, slot: &Slot, account: u16) -> bool
        ensures { result ≡ of_account V.values account (meant_at V.values self.now.row.now (record_at slot.now self.now.node.node.0).delivered) }
    {
        self.held(slot)
            .is_some_and(|value| value.account() == account)
    }

    // The value in a slot makes the claim of another value.
    fn makes_claim(&self, slot: &Slot, other: &V) -> bool
        ensures { result ≡ claims V.values (V.values.claim (V.values.meaning other.now)) (meant_at V.values self.now.row.now (record_at slot.now self.now.node.node.0).delivered) }
    {
        self.held(slot).is_some_and(|value| value.same_claim(other))
    }

    // No lower slot carries the value's claim.
    fn is_first(&self, slot: SlotIndex, value: &V) -> bool
        ensures { result ≡ first_claim V.values (state_on self.now.board.now self.now.row.now) self.now.node.node.0 slot.number (V.values.claim (V.values.meaning value.now)) }
    {
        self.board
            .below(slot)
            .iter()
            .all(|lower| !self.makes_claim(lower, value))
    }

    // The delivery in a slot counts. `is_some_and`, as above, was tried: what it returns was not proved.
    fn is_counted(&self, slot: SlotIndex) -> bool
        ensures { result ≡ counts? V.values (state_on self.now.board.now self.now.row.now) self.now.node.node.0 slot.number }
    {
        match self.held(self.board.slot(slot)) {
            Some(value) => self.is_first(slot, value),
            None => false,
        }
    }

    // Of the deliveries of the account in the first slots, how many count and how many are left out.
    // A loop, since two chains would look each delivery up twice, and nothing bounds the sums of a fold: that proof did not close.
    pub(crate) fn tally(&self, slots: u32, account: u16) -> (u32, u32)
        requires { slots ≤ 16 }
        ensures { result ≡ tally_of V.values (of_slots slots) (state_on self.now.board.now self.now.row.now) self.now.node.node.0 account }
    {
        let mut counted = 0;
        let mut left_out = 0;
        for number in 0..slots {
            let slot = SlotIndex { number };
            if self.is_of(self.board.slot(slot), account) {
                if self.is_counted(slot) {
                    counted += 1;
                } else {
                    left_out += 1;
                }
            }
        }
        (counted, left_out)
    }
}
