ghost use Rattle.std.specs.Prelude.{◌≡◌, not, ◌&&◌};
ghost use Rattle.runs.specs.Calls.{correct, hears_in};
ghost use Rattle.runs.specs.declared.call.Call.TheVariants.{Forge};
ghost use Rattle.panel.specs.Views.{world_of, Does, Hands};

use super::Panel;
use crate::board::index::{Route, SlotIndex};
use crate::roll::find;
use protocol::message::{Message, Place};
use protocol::record::Heard;
use runs::call::{Answer, Outcome};
use runs::value::ValueKind;
use trust::refusal::Refusal;
use trust::rule::TrustRule;

impl<'r, R: TrustRule> Panel<'r, R> {
    // A message with the value at a place reaches its node.
    fn bring(&mut self, slot: SlotIndex, route: Route, place: Place) -> Heard
        ensures hears { hears_in (world_of R.meaning self.old) self.old.board.slots slot.number route.kind route.from.node.0 route.to.node.0 place ≡ (result, self.new.board.slots) }
        ensures same_world { world_of R.meaning self.new ≡ world_of R.meaning self.old }
        ensures same_used { self.new.board.used ≡ self.old.board.used }
    {
        let sender = self.sender(slot);
        let message = Message {
            kind: route.kind,
            from: route.from.node,
            place,
        };
        self.board.hear(self.rule, slot, sender, route.to, message)
    }

    // From a faulty node to a correct one.
    fn is_forgeable(&self, route: Route) -> bool
        ensures { result ≡ (not (correct (world_of R.meaning self.now) route.from.node.0) && correct (world_of R.meaning self.now) route.to.node.0) }
    {
        !self.is_correct(route.from.node) && self.is_correct(route.to.node)
    }

    // A faulty node's message, with any fit value, reaches a correct node.
    pub fn forge<V: ValueKind + Copy>(
        &mut self,
        roll: &mut [V],
        kind: u32,
        slot: u32,
        from: u32,
        to: u32,
        value: V,
    ) -> Answer
        ensures { Does V.values R.meaning self.old roll.old (Forge kind slot from to value) result self.new roll.new }
    {
        self.check_roll(roll.len())?;
        let (slot, route) = self.route(kind, slot, from, to)?;
        if !self.is_forgeable(route) {
            return Err(Refusal::WrongParty);
        }
        if !value.fit() {
            return Err(Refusal::Unfit);
        }
        // An ignored message needs no place.
        if !self.heeds(slot, route) {
            return Ok(Outcome::Stepped(Heard::Ignored));
        }
        let known = find(&roll[..self.board.used], &value);
        let place = self.board.enter(roll, value, known)?;
        Ok(Outcome::Stepped(self.bring(slot, route, place)))
    }

    // A waiting message of a correct node reaches a correct node.
    pub fn hand(&mut self, kind: u32, slot: u32, from: u32, to: u32) -> Answer
        ensures { Hands R.meaning self.old kind slot from to result self.new }
    {
        let (slot, route) = self.route(kind, slot, from, to)?;
        if !self.parties().join(route) {
            return Err(Refusal::WrongParty);
        }
        let place = self.waiting(slot, route).ok_or(Refusal::NotWaiting)?;
        Ok(Outcome::Stepped(self.bring(slot, route, place)))
    }
}
