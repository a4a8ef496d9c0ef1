ghost use Rattle.std.specs.Prelude.{ℕ, ◌≤◌, length};
ghost use Rattle.std.specs.Str.Iter.{bytes_rest};

use sets::NodeSet;
use std::alloc::{AllocError, Global};
use std::str::{Bytes, FromStr};

// A decimal number of digits alone, which fits its type.
pub(crate) fn number<T: FromStr>(word: &str) -> Option<T>
where
    T::Err: Drop,
{
    if word.bytes().all(|byte| byte.is_ascii_digit()) {
        word.parse().ok()
    } else {
        None
    }
}

// The value of a hexadecimal digit with a small letter.
// This and `mask` are not those of crate text: the cases test its reader, and a fault of it must not stand on both sides.
fn hex(digit: u8) -> Option<u8> {
    if digit.is_ascii_uppercase() {
        return None;
    }
    (digit as char).to_digit(16).map(|value| value as u8)
}

// A mask of four hexadecimal digits.
pub(crate) fn mask(word: &str) -> Option<NodeSet> {
    let [a, b, c, d] = word.as_bytes() else {
        return None;
    };
    let high = hex(*a)? << 4 | hex(*b)?;
    let low = hex(*c)? << 4 | hex(*d)?;
    Some(NodeSet(u16::from_be_bytes([high, low])))
}

// The byte that a written byte stands for, and after `%` the two digits that follow it.
fn unescaped(byte: u8, rest: &mut Bytes<'_>) -> Option<u8>
    ensures { length (bytes_rest rest.new) ≤ length (bytes_rest rest.old) }
{
    match byte {
        b'_' => Some(b'\t'),
        b'/' => Some(b'\n'),
        b'%' => Some(hex(rest.next()?)? << 4 | hex(rest.next()?)?),
        _ => byte.is_ascii_alphanumeric().then_some(byte),
    }
}

// The bytes of a statement text that is written in one field.
pub(crate) fn decode(heap: Global, word: &str) -> Result<Option<Vec<u8>>, AllocError> {
    let mut bytes = Vec::new(heap);
    if word == "." {
        return Ok(Some(bytes));
    }
    if word.is_empty() {
        return Ok(None);
    }
    let mut rest = word.bytes();
    while let Some(byte) = rest.next() {
        let Some(byte) = unescaped(byte, &mut rest) else {
            return Ok(None);
        };
        bytes.push(byte)?;
    }
    Ok(Some(bytes))
}
