// The channels of an image: where their messages stand, and the messages. A network has 132
// channels of eight places each.
ghost use Rattle.std.specs.Prelude.{◌≡◌, true, ℕ, ◌+◌, ◌*◌, ◌%◌, ◌≤◌, ◌<◌, length, get_or, drop};
ghost use Rattle.abt_agent.specs.Abstract.{message_of};
ghost use Rattle.abt_packed.specs.Packed.{assignment};
ghost use Rattle.abt_record.specs.Abstract.{is_channel, channel_at, place_of, no_place, row_of};
ghost use Rattle.model_image.specs.Reading.{message_in, line_in};
ghost use Rattle.abt_image_reader.specs.Narrow.{narrow_message};
ghost use Rattle.abt_image_reader.specs.Layout.{LaidOut, empty_line};

use crate::agents::slots;
use crate::bytes::{byte, tail, two_bytes};
use abt_agent::{Message, PackedAssignment};
use abt_packed::with_digit;
use abt_record::Place;
use abt_shape::places::channel_at;

/// How many messages a channel has, and where its first one stands.
#[derive(Clone, Copy)]
pub struct Line {
    /// The messages on the channel, 0 to 8.
    pub count: u8,
    /// The byte of the image, from 0, where the first of them begins.
    pub start: usize,
}

// How many messages a channel with this head has, where they stand at the beginning of s: up to one
// whose next index is zero, and at most eight.
fn line_length(head: u16, s: &[u8]) -> u8
    ensures { (result ≡ length (line_in head s.now)) × (result ≤ 8) }
{
    if head == 0 {
        return 0;
    }
    for before in 0..8 {
        if two_bytes(s, 16 * before + 2) == 0 {
            return before as u8 + 1;
        }
    }
    8
}

/// Finds the channels of an image with n agents, by sender, then receiver. The messages of one
/// stand behind those of the one before. Needs n at most 12. `LaidOut` of specs/Layout.antt says
/// what it returns: counts are at most 8, and starts are below 20,000.
pub fn read_lines(s: &[u8], n: usize) -> [Line; 132]
    requires { n ≤ 12 }
    ensures { LaidOut s.now n result }
{
    let heads = 544 + 170 * n;
    let mut lines = [Line { count: 0, start: 0 }; 132];
    let mut start = heads + 264;
    for k in 0..132 {
        let count = line_length(two_bytes(s, heads + 2 * k), tail(s, start));
        lines[k] = Line { count, start };
        start += 16 * count as usize;
    }
    lines
}

// The message at the beginning of the bytes; a sort other than 1 and 2 is read as AddLink.
fn message(s: &[u8]) -> Message
    ensures { message_of result ≡ narrow_message (message_in s.now) }
{
    let value = byte(s, 1);
    match byte(s, 0) {
        1 => Message::Info(value),
        2 => {
            // as `Assignment::pack` of `abt_agent` does, which is private to that crate
            let digits = slots(tail(s, 4));
            let lhs = PackedAssignment {
                low: (digits % 65536) as u16,
                middle: (digits / 65536 % 65536) as u16,
                high: (digits / 4294967296) as u16,
            };
            Message::Back(value, lhs)
        }
        _ => Message::AddLink,
    }
}

/// Reads the messages into 1,056 places, eight for each channel: those of a channel stand from the
/// first place of its ring on, and an unused place holds an Info with the value 0. Needs each start
/// below 20,000.
pub fn places(s: &[u8], lines: &[Line; 132]) -> [Place; 1056]
    requires { (k : ℕ) → (get_or lines.now k empty_line).start < 20000 }
    ensures { (k q : ℕ) → k < 132 → q < 8 → q < (get_or lines.now k empty_line).count → place_of (get_or result (8 * k + q) no_place) ≡ narrow_message (message_in (drop ((get_or lines.now k empty_line).start + 16 * q) s.now)) }
{
    let nothing = Place {
        message: Message::Info(0),
    };
    let mut places = [nothing; 1056];
    for p in 0..1056 {
        let Line { count, start } = lines[p / 8];
        let q = p % 8;
        if q < count as usize {
            places[p] = Place {
                message: message(tail(s, start + 16 * q)),
            };
        }
    }
    places
}

// The row of sender i: how many messages wait for each receiver.
fn row(lines: &[Line; 132], i: u8) -> u64
    requires { (1 ≤ i) × (i ≤ 12) }
    ensures { (j : ℕ) → is_channel i j ≡ true → assignment result j ≡ (get_or lines.now (channel_at i j) empty_line).count % 16 }
{
    let mut word = 0;
    for j in 1..=12 {
        if j != i {
            word = with_digit(word, j, lines[channel_at(i, j)].count % 16);
        }
    }
    word
}

/// Returns the rows of the counts, one word for each sender: the digit of receiver j in the row of
/// sender i is how many messages wait from i to j, modulo 16.
pub fn rows(lines: &[Line; 132]) -> [u64; 12]
    ensures { (i j : ℕ) → is_channel i j ≡ true → row_of result i j ≡ (get_or lines.now (channel_at i j) empty_line).count % 16 }
{
    let mut rows = [0u64; 12];
    for i in 1..=12 {
        rows[i as usize - 1] = row(lines, i);
    }
    rows
}
