ghost use Rattle.std.specs.Prelude.{length};
ghost use Rattle.panel.specs.Views.{Opens};

use super::Panel;
use crate::board::Board;
use runs::value::ValueKind;
use sets::NodeSet;
use trust::refusal::Refusal;
use trust::rule::TrustRule;

impl<'r, R: TrustRule> Panel<'r, R> {
    // Opens a panel over a rule, which is lent to it, and a roll of which no place is used yet.
    // Inlined, so that a panel, which is large, is made where the caller keeps it.
    #[inline(always)]
    pub fn open<V: ValueKind>(
        rule: &'r R,
        slots: u32,
        faulty: NodeSet,
        roll: &[V],
    ) -> Result<Panel<'r, R>, Refusal>
        ensures { Opens V.values R.meaning rule.now slots faulty.0 (length roll.now) result }
    {
        let places = roll.len();
        if slots == 0 || slots > 16 {
            return Err(Refusal::SlotCount);
        }
        if places == 0 || places > 255 {
            return Err(Refusal::RollSize);
        }
        if !faulty.fits(rule.size()) {
            return Err(Refusal::FaultyMask);
        }
        if !rule.sound() {
            return Err(Refusal::Unsound);
        }
        Ok(Panel {
            rule,
            count: slots,
            faulty,
            board: Board::fresh(),
        })
    }
}
