//! A sheet under hand, built record by record or byte by byte.
ghost use Rattle.std.specs.Prelude.{◌≡◌, [], ◌∷◌, suc, ◌-◌, ◌≤◌, ◌<◌, take, IfSome};
ghost use Rattle.gate_script.specs.Sheets.{
  blank_sheet,
  two_at,
  with_zeros,
  with_byte,
  with_bytes,
  hex_digit,
  hex_after,
  with_hex,
  slots_sheet,
  link_before,
  index_at,
  with_ban,
  with_bans,
  built_by,
};

use crate::kinds::Kind;
use crate::lines::{Line, Numbers, is_digit};

/// A sheet: the first `length` of its bytes.
#[derive(Clone, Copy)]
pub struct Sheet {
    pub bytes: [u8; 33824],
    pub length: usize,
}

/// A sheet of no bytes.
#[tactic(auto, unfolding(crate::specs::Sheets::blank_sheet))]
pub fn blank() -> Sheet
    ensures { result ≡ blank_sheet }
{
    Sheet {
        bytes: [0u8; 33824],
        length: 0,
    }
}

impl Sheet {
    /// The bytes of the sheet.
    pub fn as_bytes(&self) -> &[u8]
        ensures { result.now ≡ take self.now.length self.now.bytes }
    {
        &self.bytes[..self.length.min(33824)]
    }
}

// So many zeros more, if there is room.
#[tactic(auto, unfolding(crate::specs::Sheets::with_zeros))]
fn with_zeros(s: Sheet, more: usize) -> Sheet
    ensures { result ≡ with_zeros more s }
{
    let n = s.length;
    if 33824 < more {
        return s;
    }
    if 33824 - more < n {
        return s;
    }
    let mut o = s;
    o.length = n + more;
    o
}

// ---- a line of hexadecimal digits

// One byte more, if there is room.
#[tactic(auto, unfolding(crate::specs::Sheets::with_byte))]
fn with_byte(s: Sheet, b: u8) -> Sheet
    ensures { result ≡ with_byte b s }
{
    let n = s.length;
    if 33824 <= n {
        return s;
    }
    let mut o = s;
    o.bytes[n] = b;
    o.length = n + 1;
    o
}

// The value of a hexadecimal digit.
#[tactic(auto, unfolding(crate::specs::Lines::is_digit, crate::specs::Sheets::is_hex_letter, crate::specs::Sheets::hex_digit))]
fn hex_digit(b: u8) -> Option<u8>
    ensures value { result ≡ hex_digit b }
    ensures below { IfSome result (λ h. h < 16) }
{
    match b {
        b'0'..=b'9' => Some(b - b'0'),
        b'a'..=b'f' => Some(b - b'a' + 10),
        _ => None,
    }
}

// One byte more where two digits stand side by side.
#[tactic(auto, unfolding(crate::specs::Sheets::hex_after, crate::specs::Sheets::with_bytes))]
fn with_pair(s: Sheet, high: u8, low: u8) -> Sheet
    ensures { result ≡ with_bytes (hex_after high (low ∷ [])) s }
{
    match (hex_digit(high), hex_digit(low)) {
        (Some(high), Some(low)) => with_byte(s, 16 * high + low),
        _ => s,
    }
}

// The bytes that a line gives as pairs of hexadecimal digits, with a blank between them.
fn with_hex(s: Sheet, line: &[u8]) -> Sheet
    ensures { result ≡ with_hex line.now s }
{
    let mut o = s;
    let mut before = b' ';
    for b in line {
        o = with_pair(o, before, *b);
        before = *b;
    }
    o
}

// ---- a line of domains

// The header for these domains, with no record.
fn with_slots(n: Numbers) -> Sheet
    ensures { result ≡ slots_sheet n }
{
    let mut o = blank();
    o.bytes[0] = (n.count % 256) as u8;
    o.bytes[1] = 1;
    o.length = 24;
    for i in 0..12 {
        o.bytes[8 + i] = (n.values[i] % 256) as u8;
    }
    o
}

// ---- a line of one ban, or of an agent's values that are banned

// Two bytes side by side.
fn with_two(s: Sheet, k: usize, a: u8, b: u8) -> Sheet
    requires { k < 33823 }
    ensures { result ≡ two_at k a b s }
{
    let mut o = s;
    o.bytes[k] = a;
    o.bytes[k + 1] = b;
    o
}

// An index or a count, little-endian.
fn with_index(s: Sheet, k: usize, index: usize) -> Sheet
    requires { k < 33823 }
    ensures { result ≡ index_at k index s }
{
    with_two(s, k, (index % 256) as u8, (index / 256 % 256) as u8)
}

// Where the index of the record behind the last one stands: in the header, and from record 1 on at
// a record's fifth byte.
#[tactic(auto, unfolding(crate::specs::Sheets::link_before))]
fn link_before(index: usize, length: usize) -> usize
    requires { 4 ≤ length }
    ensures { result ≡ link_before index length }
{
    if index == 1 { 2 } else { length - 4 }
}

// One record more at the end of the chain, if there is room: value v of agent i with value w of
// agent j.
fn with_ban(s: Sheet, i: u8, v: u8, j: u8, w: u8) -> Sheet
    ensures { result ≡ with_ban i v j w s }
{
    let n = s.length;
    if n < 24 {
        return s;
    }
    if 33816 < n {
        return s;
    }
    let index = n / 8 - 2;
    let linked = with_index(with_index(s, link_before(index, n), index), 4, index);
    let mut o = with_two(with_two(linked, n, i, j), n + 2, v, w);
    o.length = n + 8;
    o
}

// A record for each value of agent i from `first` to `last`.
fn with_bans(s: Sheet, i: u8, first: u8, last: u8, j: u8, w: u8) -> Sheet
    ensures { result ≡ with_bans (suc last - first) i first j w s }
{
    let mut o = s;
    for v in first..=last {
        o = with_ban(o, i, v, j, w);
    }
    o
}

// ---- all lines that build

/// The sheet after a line. A case begins with a blank one, and a line that is not understood builds
/// nothing. Equals `built_by` of specs/Sheets.antt.
#[tactic(auto, unfolding(crate::specs::Sheets::built_by))]
pub fn with_line(s: Sheet, line: Line<'_>) -> Sheet
    ensures { result ≡ built_by s line.entry.kind line.entry.numbers line.entry.text.now }
{
    let n = line.numbers;
    match line.kind {
        Some(Kind::Case) => blank(),
        Some(Kind::Slots) => with_slots(n),
        Some(Kind::Ban) => with_ban(s, n.small(0), n.small(1), n.small(2), n.small(3)),
        Some(Kind::Each) => with_bans(
            s,
            n.small(0),
            n.small(1),
            n.small(2),
            n.small(3),
            n.small(4),
        ),
        Some(Kind::Hex) => with_hex(s, line.text),
        Some(Kind::Zeros) => with_zeros(s, n.values[0] as usize),
        _ => s,
    }
}
