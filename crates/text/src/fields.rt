ghost use Rattle.std.specs.Prelude.{◌≡◌, ℕ, ◌+◌, ◌^◌, ◌<◌, ◌≤◌, length, Some, None};
ghost use Rattle.text.specs.Bytes.{run_before, first_field, after_field, decimal_of, hex_value, mask_of};
ghost use Rattle.text.specs.Records.{letter_of, entry_of, record_of, mask_in};

use crate::record::{Entry, Letter, Record, Role};
use sets::{Node, NodeSet};

// How many bytes stand before the first `stop`.
pub(crate) fn run_before(bytes: &[u8], stop: u8) -> usize
    ensures { (result ≡ run_before stop bytes.now) × (result ≤ length bytes.now) }
{
    bytes.iter().take_while(|b| **b != stop).count()
}

// The bytes before the first tab.
fn first_field(bytes: &[u8]) -> &[u8]
    ensures { result.now ≡ first_field bytes.now }
{
    let end = run_before(bytes, b'\t');
    &bytes[..end]
}

// The bytes after the first tab, if there is one.
fn after_field(bytes: &[u8]) -> Option<&[u8]>
    ensures { elim result [ Some x ↦ after_field bytes.now ≡ Some x.now | None ↦ after_field bytes.now ≡ None ] }
{
    bytes.get(run_before(bytes, b'\t') + 1..)
}

// 0, or one or two digits that do not begin with 0.
fn decimal(field: &[u8]) -> Option<u32>
    ensures { result ≡ decimal_of field.now }
{
    match *field {
        [a @ b'0'..=b'9'] => Some(u32::from(a - b'0')),
        [a @ b'1'..=b'9', b @ b'0'..=b'9'] => {
            Some(u32::from(a - b'0') * 10 + u32::from(b - b'0'))
        }
        _ => None,
    }
}

// A hexadecimal digit with a small letter.
fn hex_digit(b: u8) -> Option<u16>
    ensures { (result ≡ hex_value b) × (elim result [ Some x ↦ x < 16 | None ↦ Unit {0} ]) }
{
    match b {
        b'0'..=b'9' => Some(u16::from(b - b'0')),
        b'a'..=b'f' => Some(u16::from(b - b'a') + 10),
        _ => None,
    }
}

// Four hexadecimal digits.
fn mask(field: &[u8]) -> Option<u16>
    ensures { result ≡ mask_of field.now }
{
    let [a, b, c, d] = field else {
        return None;
    };
    let a = hex_digit(*a)?;
    let b = hex_digit(*b)?;
    let c = hex_digit(*c)?;
    let d = hex_digit(*d)?;
    Some(((a * 16 + b) * 16 + c) * 16 + d)
}

// What the first field names.
fn letter(field: &[u8]) -> Option<Letter>
    ensures { result ≡ letter_of field.now }
{
    match field {
        b"N" => Some(Letter::N),
        b"F" => Some(Letter::F),
        b"Q" => Some(Letter::Q),
        _ => None,
    }
}

// A node number and a mask.
fn entry(role: Role, bytes: &[u8]) -> Option<Entry>
    ensures { result ≡ entry_of role bytes.now }
{
    let node = decimal(first_field(bytes))?;
    let set = mask(after_field(bytes)?)?;
    Some(Entry {
        node: Node(node),
        role,
        set: NodeSet(set),
    })
}

// What the line says, if its fields have the form.
pub(crate) fn read_record(line: &[u8]) -> Option<Record>
    ensures { result ≡ record_of line.now }
{
    let letter = letter(first_field(line))?;
    let rest = after_field(line)?;
    match letter {
        Letter::N => Some(Record::Count(decimal(rest)?)),
        Letter::F => Some(Record::Listed(entry(Role::FailProne, rest)?)),
        Letter::Q => Some(Record::Listed(entry(Role::Quorum, rest)?)),
    }
}
