ghost use Rattle.std.specs.Prelude.{◌≡◌, ◌≤◌, length};
ghost use Rattle.runs.specs.Calls.{known_in};

use protocol::message::Place;
use runs::value::ValueKind;

// The lowest place of the row that has the value.
pub(crate) fn find<V: ValueKind>(row: &[V], value: &V) -> Option<Place>
    requires { length row.now ≤ 255 }
    ensures { result ≡ known_in V.values row.now value.now }
{
    row.iter()
        .position(|v| v.same(value))
        .map(|i| Place(i as u8))
}
