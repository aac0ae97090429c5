// The channels' heads, and the messages.
ghost use Rattle.std.specs.Prelude.{◌≡◌, List, [], ◌∷◌, ◌++◌, ℕ, ◌*◌, ◌≤◌, ◌<◌, length};
ghost use Rattle.model_agent.specs.Message.{Message as Message'};
ghost use Rattle.abt_packed.specs.Packed.{assignment};
ghost use Rattle.abt_agent.specs.Abstract.{message_of};
ghost use Rattle.abt_record.specs.Abstract.{network_of};
ghost use Rattle.model_image.specs.Bytes.{bytes_of};
ghost use Rattle.model_image.specs.Image.{slots, all_lines, number_after, heads_from, message_bytes, chain_from, messages_from};
ghost use Rattle.abt_image_writer.specs.Lines.{line_at};
ghost use Rattle.support_buffer.specs.Puts.{Room, Puts};

use crate::lines::on_line;
use crate::slots::put_slots;
use abt_agent::Message;
use abt_record::Network;
use abt_shape::places::place_at;
use support_buffer::cursor::Cursor;

// The number of the first of `count` messages that stand behind `before` others, from 1; 0 where
// there is none.
fn first_of(before: u16, count: u8) -> u16
    requires { before < 65535 }
    ensures { (l : List Message') → length l ≡ count → result ≡ number_after before l }
{
    if count == 0 { 0 } else { before + 1 }
}

/// Puts the 132 heads, two bytes each: for each channel, by sender, then receiver, the number of
/// its first message, or 0 where it is empty. Needs room for 264 bytes. Equals `heads_from` of
/// model_image/specs/Image.antt.
pub fn put_heads(out: &mut Cursor<'_>, r: &Network)
    requires { Room out.old 264 }
    ensures { Puts out.old 264 (heads_from 0 (all_lines (network_of r.now))) out.new }
{
    let mut before = 0;
    for line in 0..132 {
        let count = on_line(&r.counts, line);
        out.put_all(&first_of(before, count).to_le_bytes());
        before += count as u16;
    }
}

// A message's sort, its value and its left side, packed; zero where it has none.
fn apart(m: Message) -> (u8, u8, u64)
    ensures { (next : ℕ) → message_bytes (message_of m) next ≡ (result.0 ∷ result.1 ∷ []) ++ bytes_of 2 next ++ slots (assignment result.2) }
{
    match m {
        Message::Info(v) => (1, v, 0),
        Message::Back(v, lhs) => (2, v, lhs.unpack().digits),
        Message::AddLink => (3, 0, 0),
    }
}

// A message, 16 bytes, with the number of the next on its channel.
fn put_message(out: &mut Cursor<'_>, m: Message, next: u16)
    requires { Room out.old 16 }
    ensures { Puts out.old 16 (message_bytes (message_of m) next) out.new }
{
    let (sort, value, word) = apart(m);
    out.put(sort);
    out.put(value);
    out.put_all(&next.to_le_bytes());
    put_slots(out, word);
}

// The messages of one channel, behind `before` others. Returns how many there are.
fn put_line(out: &mut Cursor<'_>, r: &Network, line: usize, before: u16) -> u16
    requires inside { (line < 132) × (before ≤ 2000) }
    requires room { Room out.old (16 * length (line_at (network_of r.now) line)) }
    ensures count { (result ≡ length (line_at (network_of r.now) line)) × (result ≤ 15) }
    ensures put { Puts out.old (16 * length (line_at (network_of r.now) line)) (chain_from before (line_at (network_of r.now) line)) out.new }
{
    let count = on_line(&r.counts, line);
    let head = on_line(&r.heads, line);
    for ahead in 0..count {
        let place = r.places[place_at(line, head, ahead)];
        let number = before + ahead as u16 + 1;
        put_message(out, place.message, first_of(number, count - ahead - 1));
    }
    count as u16
}

/// Puts all messages, 16 bytes each, channel by channel in the order of the heads. Needs room for
/// them. Equals `messages_from` of model_image/specs/Image.antt.
pub fn put_messages(out: &mut Cursor<'_>, r: &Network)
    requires { Room out.old (length (messages_from 0 (all_lines (network_of r.now)))) }
    ensures { Puts out.old (length (messages_from 0 (all_lines (network_of r.now)))) (messages_from 0 (all_lines (network_of r.now))) out.new }
{
    let mut before = 0;
    for line in 0..132 {
        before += put_line(out, r, line, before);
    }
}
