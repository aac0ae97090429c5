//! Bytes put into a lent buffer, and numbers in decimal digits, written and read. A writer that
//! puts its bytes one behind the other uses [`cursor::Cursor`]; one that knows the place of each
//! part uses [`put`]. The digits are those of the library `io`, and the definitions stand in
//! model_base/specs (Decimal, Numerals). Start at cursor.rt and specs/Puts.antt.
//! docs/FORMATS.md, 'Lent buffers'.
#![tactic(auto)]

ghost use Rattle.std.specs.Prelude.{drop, length, take, ◌*◌, ◌++◌, ◌+◌, ◌<◌, ◌≡◌, ◌≤◌};
ghost use Rattle.model_base.specs.Decimal.{decimal, line_of};
ghost use Rattle.model_base.specs.Numerals.{capped, number_in};
ghost use Rattle.support_buffer.specs.Puts.{Adds, Room};

pub mod cursor;

use crate::cursor::Cursor;

/// Copies `s` into `out` from byte `at` on; the other bytes stay. `s` must end within the buffer.
pub fn put(out: &mut [u8], at: usize, s: &[u8])
    requires { at + length s.now ≤ length out.old }
    ensures { out.new ≡ take at out.old ++ s.now ++ drop (at + length s.now) out.old }
{
    // byte by byte: `copy_from_slice` would have an archive for C ask for `memmove`
    for (i, byte) in s.iter().enumerate() {
        out[at + i] = *byte;
    }
}

/// Appends `n` in decimal without leading zeros, at most 20 bytes. The buffer must have room for as
/// many. Equals `decimal` of model_base/specs/Decimal.antt.
pub fn append_number(out: &mut Cursor<'_>, n: u64)
    requires { Room out.old 20 }
    ensures text { Adds out.old (decimal n) out.new }
    ensures short { length (decimal n) ≤ 20 }
{
    let mut digits = [0u8; 20];
    let count = io::decimal(n, &mut digits);
    out.put_all(&digits[..count]);
}

/// Appends a line that ends in a number: the bytes of `before`, `n` in decimal, and a newline. The
/// buffer must have room for `before` and 21 bytes more. Equals `line_of` of
/// model_base/specs/Decimal.antt.
pub fn append_line(out: &mut Cursor<'_>, before: &[u8], n: u64)
    requires { Room out.old (length before.now + 21) }
    ensures text { Adds out.old (line_of before.now n) out.new }
    ensures short { length (line_of before.now n) ≤ length before.now + 21 }
{
    out.put_all(before);
    append_number(out, n);
    out.put_all(b"\n");
}

// Returns the number with one digit more; 2^64 - 1 stands for every larger one.
fn with_digit(value: u64, digit: u64) -> u64
    requires { digit < 10 }
    ensures { result ≡ capped (10 * value + digit) }
{
    value.saturating_mul(10).saturating_add(digit)
}

/// Reads a number: one or more decimal digits and nothing else, of any length. A number above
/// 2^64 - 1 reads as 2^64 - 1. Returns `None` for other bytes, and for none. Equals `number_in` of
/// model_base/specs/Numerals.antt.
pub fn read_number(s: &[u8]) -> Option<u64>
    ensures { result ≡ number_in s.now }
{
    if s.is_empty() {
        return None;
    }
    let mut value: u64 = 0;
    for b in s {
        match b {
            b'0'..=b'9' => value = with_digit(value, u64::from(*b - b'0')),
            _ => return None,
        }
    }
    Some(value)
}
