ghost use Rattle.std.specs.Prelude.{◌≡◌, length};
ghost use Rattle.broadcast.specs.Theorems.{AllHold};
ghost use Rattle.runs.specs.Theorems.{theorems};

use crate::value::ValueKind;

// How many theorems of whole runs the table has; all of them hold of every kind of value. As `slot_theorems` of broadcast, whose
// table cannot name these.
pub fn run_theorems<V: ValueKind>() -> u32
    ensures number { result ≡ length (theorems V.values) }
    ensures hold { AllHold (theorems V.values) }
{
    4
}
