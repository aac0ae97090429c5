//! A line of the cases: where it ends, what it asks for, and the numbers in it.
ghost use Rattle.std.specs.Prelude.{◌≡◌, ◌+◌, ◌≤◌, ◌<◌, min, eqb, length, drop};
ghost use Rattle.std.specs.List.{position_or_len};
ghost use Rattle.gate_script.specs.Kinds.{kind_of};
ghost use Rattle.gate_script.specs.Lines.{end_from, first_line, is_digit, with_digit, value_from, number_begins, with_number, numbers_in, number_of, small_of};

use crate::kinds::{Kind, kind_of};

/// The numbers of a line, in order, at most 16; the places beyond `count` are zero.
#[derive(Clone, Copy)]
pub struct Numbers {
    pub count: usize,
    pub values: [u64; 16],
}

// How many bytes stand before the first line feed, or before the end.
fn line_length(text: &[u8]) -> usize
    ensures { (result ≡ position_or_len (λ b. eqb b 10) text.now) × (result ≤ length text.now) }
{
    text.iter().take_while(|b| **b != b'\n').count()
}

/// The end of the line that begins at `from`, which is at most the text's length: its line feed, or
/// the end of the text.
pub fn line_end(text: &[u8], from: usize) -> usize
    requires { from ≤ length text.now }
    ensures { (from ≤ result) × (result ≤ length text.now) × (result ≡ end_from from (drop from text.now)) }
{
    from + line_length(&text[from..])
}

/// Where the line behind one that ends at `end` begins, in a text of so many bytes; at its end,
/// where there is none.
pub fn next_line(end: usize, bytes: usize) -> usize
    ensures { result ≡ min (end + 1) bytes }
{
    if end < bytes { end + 1 } else { bytes }
}

/// `0` to `9`.
#[tactic(auto, unfolding(crate::specs::Lines::is_digit))]
pub fn is_digit(b: u8) -> bool
    ensures { result ≡ is_digit b }
{
    b.is_ascii_digit()
}

// A number with one digit more; the last eleven digits count.
fn with_digit(value: u64, b: u8) -> u64
    requires { (48 ≤ b) × (b ≤ 57) }
    ensures { result ≡ with_digit value b }
{
    value % 10000000000 * 10 + u64::from(b - b'0')
}

// The number that the digits at the front say.
fn number_at(bytes: &[u8]) -> u64
    ensures { result ≡ value_from 0 bytes.now }
{
    let mut value: u64 = 0;
    for b in bytes {
        if !is_digit(*b) {
            return value;
        }
        value = with_digit(value, *b);
    }
    value
}

// A digit, and no digit before it.
#[tactic(auto, unfolding(crate::specs::Lines::number_begins))]
fn begins(before: u8, b: u8) -> bool
    ensures { result ≡ number_begins before b }
{
    is_digit(b) && !is_digit(before)
}

// One number more, if there is room.
#[tactic(auto, unfolding(crate::specs::Lines::with_number))]
fn with_number(n: Numbers, value: u64) -> Numbers
    ensures { result ≡ with_number value n }
{
    let mut more = n;
    if more.count < 16 {
        more.values[more.count] = value;
        more.count += 1;
    }
    more
}

/// The first 16 numbers of a line. Equals `numbers_in` of specs/Lines.antt.
pub fn numbers_in(line: &[u8]) -> Numbers
    ensures { result ≡ numbers_in line.now }
{
    let mut n = Numbers {
        count: 0,
        values: [0u64; 16],
    };
    let mut before = b' ';
    for (i, b) in line.iter().enumerate() {
        if begins(before, *b) {
            n = with_number(n, number_at(&line[i..]));
        }
        before = *b;
    }
    n
}

impl Numbers {
    /// Number k of a line, from 0 on, if it has so many.
    pub fn get(self, k: usize) -> Option<u64>
        ensures { result ≡ number_of self k }
    {
        if k < self.count {
            self.values.get(k).copied()
        } else {
            None
        }
    }

    /// Number k of a line, 0 to 15, as a byte: modulo 256, and 0 where it has not so many.
    pub fn small(self, k: usize) -> u8
        requires { k < 16 }
        ensures { result ≡ small_of self k }
    {
        (self.values[k] % 256) as u8
    }
}

/// A line as it was read.
#[derive(Clone, Copy)]
pub struct Line<'a> {
    /// What it asks for; None where it is not understood.
    pub kind: Option<Kind>,
    /// The numbers in it.
    pub numbers: Numbers,
    /// The line itself.
    pub text: &'a [u8],
}

/// Reads a line that stands by itself.
pub fn read_line(text: &[u8]) -> Line<'_>
    ensures kind { result.kind ≡ kind_of text.now (numbers_in text.now).count }
    ensures numbers { result.numbers ≡ numbers_in text.now }
    ensures text { result.text.now ≡ text.now }
{
    let numbers = numbers_in(text);
    Line {
        kind: kind_of(text, numbers.count),
        numbers,
        text,
    }
}

/// Reads the line at the front of a text, without its line feed.
pub fn first_line(text: &[u8]) -> Line<'_>
    ensures kind { result.kind ≡ kind_of (first_line text.now) (numbers_in (first_line text.now)).count }
    ensures numbers { result.numbers ≡ numbers_in (first_line text.now) }
    ensures text { result.text.now ≡ first_line text.now }
{
    read_line(&text[..line_end(text, 0)])
}
