ghost use Rattle.broadcast.specs.Theorems.{AllHold};
ghost use Rattle.runs.specs.Theorems.{theorems, further_theorems};
ghost use Rattle.panel.specs.Views.{Does};
ghost use Rattle.panel.specs.Playing.{Plays, Promises};

use super::Panel;
use runs::call::{Answer, Call, Entry};
use runs::value::ValueKind;
use trust::rule::TrustRule;

impl<'r, R: TrustRule> Panel<'r, R> {
    // Makes a call.
    fn make<V: ValueKind + Copy>(&mut self, roll: &mut [V], call: Call<V>) -> Answer
        ensures { Does V.values R.meaning self.old roll.old call result self.new roll.new }
    {
        match call {
            Call::Propose { slot, value } => self.propose(roll, slot, value),
            Call::Forge {
                kind,
                slot,
                from,
                to,
                value,
            } => self.forge(roll, kind, slot, from, to, value),
            Call::Hand {
                kind,
                slot,
                from,
                to,
            } => self.hand(kind, slot, from, to),
        }
    }

    // Makes every call of the list, in order, and writes its answer beside it. What is promised after every list of calls stands here,
    // and with it the laws of every history.
    pub fn run<V: ValueKind + Copy>(&mut self, roll: &mut [V], log: &mut [Entry<V>])
        ensures plays { Plays V.values R.meaning self.old roll.old log.old self.new roll.new log.new }
        ensures promise { Promises V.values R.meaning self.old roll.old self.new roll.new log.new }
        ensures laws { AllHold (theorems V.values) }
        ensures further { AllHold (further_theorems V.values) }
    {
        for entry in log.iter_mut() {
            entry.answer = self.make(roll, entry.call);
        }
    }
}
