// Words as numbers, places and signed numbers.
ghost use Rattle.std.specs.Prelude.{◌≡◌};
ghost use Rattle.sheet_text_statements.specs.Parts.{numeral_in, place_in, signed_in};

use crate::bytes::find;

/// A place `A:S`: an agent and a value, as the word says them.
#[derive(Clone, Copy)]
pub struct Place {
    pub agent: u64,
    pub value: u64,
}

/// Reads a number: one or more digits and nothing else, leading zeros allowed, at most 2^64 - 1.
/// `None` for anything else, larger numbers too; `support_buffer::read_number` reads those as
/// 2^64 - 1. Equals `numeral_in` of specs/Parts.antt.
pub fn read_numeral(s: &[u8]) -> Option<u64>
    ensures { result ≡ numeral_in s.now }
{
    if s.is_empty() {
        return None;
    }
    let mut value: u64 = 0;
    for b in s {
        match b {
            b'0'..=b'9' => value = value.checked_mul(10)?.checked_add(u64::from(*b - b'0'))?,
            _ => return None,
        }
    }
    Some(value)
}

/// Reads a place: a number on each side of the first colon. `None` for anything else. Equals
/// `place_in` of specs/Parts.antt.
pub fn read_place(s: &[u8]) -> Option<Place>
    ensures { result ≡ place_in s.now }
{
    let colon = find(s, b':')?;
    let agent = read_numeral(&s[..colon])?;
    let value = read_numeral(&s[colon + 1..])?;
    Some(Place { agent, value })
}

/// Reads a signed number: a number with or without one `-` before it. `None` for anything else.
/// Equals `signed_in` of specs/Parts.antt.
pub fn read_signed(s: &[u8]) -> Option<i128>
    ensures { result ≡ signed_in s.now }
{
    match s {
        [b'-', size @ ..] => Some(-i128::from(read_numeral(size)?)),
        _ => Some(i128::from(read_numeral(s)?)),
    }
}
