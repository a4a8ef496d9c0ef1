ghost use Rattle.std.specs.Prelude.{◌≡◌};
ghost use Rattle.protocol.specs.Hearing.{taken, heeds};
ghost use Rattle.broadcast.specs.Slots.{record_at, said, waiting};
ghost use Rattle.panel.specs.Broadcasts.{setting_of};

use super::index::{Member, Route};
use super::parties::Broadcast;
use protocol::message::{Kind, Place};

impl<'b> Broadcast<'b> {
    // What a node has said to all, by kind.
    pub(crate) fn said(&self, kind: Kind, node: Member) -> Option<Place>
        ensures { result ≡ said (setting_of self.now) self.now.slot.now kind node.node.0 }
    {
        let record = node.record_in(self.slot);
        match kind {
            Kind::Send if node.node == self.sender => self.slot.proposal,
            Kind::Send => None,
            Kind::Echo => record.echoed,
            Kind::Ready => record.readied,
        }
    }

    // What a node has taken of another's messages of a kind.
    pub(crate) fn taken(&self, route: Route) -> Option<Place>
        ensures { result ≡ taken self.now.sender.0 (record_at self.now.slot.now route.to.node.0) route.kind route.from.node.0 }
    {
        let record = route.to.record_in(self.slot);
        let at = route.from.index();
        match route.kind {
            Kind::Send if route.from.node == self.sender => record.echoed,
            Kind::Send => None,
            Kind::Echo => record.echoes[at],
            Kind::Ready => record.readies[at],
        }
    }

    // A node of the parties does not ignore such a message of another.
    pub(crate) fn heeds(&self, route: Route) -> bool
        ensures { result ≡ heeds self.now.parties.size self.now.sender.0 (record_at self.now.slot.now route.to.node.0) route.kind route.from.node.0 }
    {
        let may_say = route.kind != Kind::Send || route.from.node == self.sender;
        route.from.node.is_among(self.parties.size) && may_say && self.taken(route).is_none()
    }

    // The value of the message that waits between two nodes.
    pub(crate) fn waiting(&self, route: Route) -> Option<Place>
        ensures { result ≡ waiting (setting_of self.now) self.now.slot.now route.kind route.from.node.0 route.to.node.0 }
    {
        if !self.parties.join(route) || self.taken(route).is_some() {
            return None;
        }
        self.said(route.kind, route.from)
    }
}
