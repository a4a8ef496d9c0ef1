ghost use Rattle.panel.specs.Views.{Does};
ghost use Rattle.runs.specs.declared.call.Call.TheVariants.{Propose};

use super::Panel;
use crate::roll::find;
use runs::call::{Answer, Outcome};
use runs::value::ValueKind;
use trust::refusal::Refusal;
use trust::rule::TrustRule;

impl<'r, R: TrustRule> Panel<'r, R> {
    // A slot's correct sender proposes a value. The same value again changes nothing.
    pub fn propose<V: ValueKind + Copy>(&mut self, roll: &mut [V], slot: u32, value: V) -> Answer
        ensures { Does V.values R.meaning self.old roll.old (Propose slot value) result self.new roll.new }
    {
        self.check_roll(roll.len())?;
        let slot = self.slot(slot)?;
        if !self.has_correct_sender(slot) {
            return Err(Refusal::WrongParty);
        }
        if !value.fit() {
            return Err(Refusal::Unfit);
        }
        let known = find(&roll[..self.board.used], &value);
        if let Some(place) = self.board.slot(slot).proposal {
            return if known == Some(place) {
                Ok(Outcome::Already)
            } else {
                Err(Refusal::OtherProposal)
            };
        }
        let place = self.board.enter(roll, value, known)?;
        self.board.set_proposal(slot, place);
        Ok(Outcome::Proposed)
    }
}
