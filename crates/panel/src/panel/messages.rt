ghost use Rattle.std.specs.Prelude.{◌≡◌};
ghost use Rattle.runs.specs.Calls.{heeds_in, waiting_in};
ghost use Rattle.panel.specs.Views.{world_of};

use super::Panel;
use crate::board::index::{Route, SlotIndex};
use protocol::message::Place;
use trust::rule::TrustRule;

impl<'r, R: TrustRule> Panel<'r, R> {
    // A node does not ignore such a message.
    pub(super) fn heeds(&self, slot: SlotIndex, route: Route) -> bool
        ensures { result ≡ heeds_in (world_of R.meaning self.now) self.now.board.slots slot.number route.kind route.from.node.0 route.to.node.0 }
    {
        self.broadcast(slot).heeds(route)
    }

    // The place of the value of a message that waits.
    pub(super) fn waiting(&self, slot: SlotIndex, route: Route) -> Option<Place>
        ensures { result ≡ waiting_in (world_of R.meaning self.now) self.now.board.slots slot.number route.kind route.from.node.0 route.to.node.0 }
    {
        self.broadcast(slot).waiting(route)
    }
}
