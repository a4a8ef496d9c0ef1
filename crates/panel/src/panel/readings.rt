ghost use Rattle.std.specs.Prelude.{◌≡◌, List, length};
ghost use Rattle.runs.specs.Readings.{receipt, counts, tally};
ghost use Rattle.panel.specs.Views.{world_of, state_of, Carries};

use super::Panel;
use crate::board::tallying::Deliveries;
use protocol::message::Place;
use runs::call::Counts;
use runs::value::ValueKind;
use trust::refusal::Refusal;
use trust::rule::TrustRule;

impl<'r, R: TrustRule> Panel<'r, R> {
    // The place of the value that a node delivered in a slot.
    pub fn receipt(&self, slot: u32, node: u32) -> Result<Option<Place>, Refusal>
        ensures { result ≡ receipt (world_of R.meaning self.now) self.now.board.slots slot node }
    {
        let slot = self.slot(slot)?;
        let node = self.correct_member(node)?;
        Ok(node.record_in(self.board.slot(slot)).delivered)
    }

    // The five counts of a slot.
    pub fn counts(&self, slot: u32) -> Result<Counts, Refusal>
        ensures { result ≡ counts (world_of R.meaning self.now) self.now.board.slots slot }
    {
        let slot = self.slot(slot)?;
        Ok(self.broadcast(slot).counts())
    }

    // Of a node's deliveries of an account: how many count, and how many are left out.
    // A delivered slot counts when no lower slot that the node delivered carries the same claim.
    pub fn tally<V: ValueKind>(
        &self,
        roll: &[V],
        node: u32,
        account: u16,
    ) -> Result<(u32, u32), Refusal>
        ensures { (row : List V) → Carries self.now.board.used row roll.now → result ≡ tally V.values (world_of R.meaning self.now) (length roll.now) (state_of self.now row) node account }
    {
        self.check_roll(roll.len())?;
        let node = self.correct_member(node)?;
        let deliveries = Deliveries {
            board: &self.board,
            row: &roll[..self.board.used],
            node,
        };
        Ok(deliveries.tally(self.count, account))
    }
}
