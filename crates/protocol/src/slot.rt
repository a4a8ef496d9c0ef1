ghost use Rattle.std.specs.Prelude.{◌≡◌};
ghost use Rattle.protocol.specs.Fresh.{fresh_slot};

use crate::message::Place;
use crate::record::Record;

// One broadcast: what its sender proposed, and the record of each node, node k at k - 1.
#[derive(Clone, Copy, Debug, PartialEq, Eq)]
pub struct Slot {
    pub proposal: Option<Place>,
    pub records: [Record; 16],
}

impl Slot {
    // Nothing proposed, and every record fresh.
    pub fn fresh() -> Slot
        ensures { result ≡ fresh_slot }
    {
        Slot {
            proposal: None,
            records: [Record::fresh(); 16],
        }
    }
}
