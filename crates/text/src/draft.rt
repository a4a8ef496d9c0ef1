ghost use Rattle.std.specs.Prelude.{◌≡◌, ℕ, ◌≤◌, true, length};
ghost use Rattle.std.specs.Option.{ForSome, unwrap_or};
ghost use Rattle.text.specs.Reading.{begun?};

use crate::record::Record;
use trust::node_trust::NodeTrust;

mod finishing;
mod taking;

// The records of a text so far: the count of the N line, the newest record, and each node's sets.
// There is no count before the N line, and then no record.
#[derive(Clone, Copy)]
pub(crate) struct Draft {
    nodes: Option<u32>,
    newest: Option<Record>,
    trust: [NodeTrust; 16],
    ghost places: { length trust ≡ 16 },
    ghost few: { unwrap_or nodes 0 ≤ 16 },
    ghost no_zero: { ForSome nodes (λ n. 1 ≤ n) },
    ghost begun: { begun? (unwrap_or nodes 0) newest ≡ true },
}
