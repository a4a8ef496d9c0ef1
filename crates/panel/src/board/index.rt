ghost use Rattle.std.specs.Prelude.{◌≡◌, ◌-◌, ◌<◌, ◌≤◌};
ghost use Rattle.broadcast.specs.Slots.{record_at};

use protocol::message::Kind;
use protocol::record::Record;
use protocol::slot::Slot;
use sets::Node;

// The number of a slot on a board.
#[derive(Clone, Copy)]
pub(crate) struct SlotIndex {
    pub number: u32,
    ghost low: { number < 16 },
}

// A node that has a record in each slot.
#[derive(Clone, Copy)]
pub(crate) struct Member {
    pub node: Node,
    ghost above_none: { 1 ≤ node.0 },
    ghost low: { node.0 ≤ 16 },
}

// What kind of message goes from which node to which. Its slot is not here, since a slot's counts go through all of its routes.
#[derive(Clone, Copy)]
pub(crate) struct Route {
    pub kind: Kind,
    pub from: Member,
    pub to: Member,
}

impl SlotIndex {
    pub(crate) fn index(self) -> usize
        ensures { result ≡ self.number }
    {
        self.number as usize
    }
}

impl Member {
    // Where the node's entry stands in an array with one for each node.
    pub(crate) fn index(self) -> usize
        ensures { result ≡ self.node.0 - 1 }
    {
        (self.node.0 - 1) as usize
    }

    pub(crate) fn record_in(self, slot: &Slot) -> &Record
        ensures { result.now ≡ record_at slot.now self.node.0 }
    {
        &slot.records[self.index()]
    }
}
