// The channels that hold something, by sender, then receiver, each with its messages from the head
// on.
ghost use Rattle.std.specs.Prelude.{◌≡◌, ◌∷◌, ◌++◌, ◌-◌, ◌≤◌, ◌<◌, true, codes, OnOk};
ghost use Rattle.model_network.specs.Lines.{is_channel};
ghost use Rattle.abt_agent.specs.Abstract.{message_of};
ghost use Rattle.abt_record.specs.Abstract.{network_of};
ghost use Rattle.abt_board_drawing.specs.Text.{message_text, messages_behind, line_start, line_line, lines_of, line_lines};
ghost use Rattle.abt_board_drawing.specs.Waiting.{waiting, others};

use crate::put_number;
use crate::sides::put_left_side;
use abt_agent::Message;
use abt_packed::digit;
use abt_record::Network;
use abt_shape::places::{channel_at, place_at};
use std::alloc::AllocError;

#[tactic(auto, unfolding(crate::specs::Text::message_text, abt_agent::specs::Abstract::message_of, abt_agent::specs::Abstract::assigned))]
fn put_message(out: &mut Vec<u8>, m: Message) -> Result<(), AllocError>
    ensures { OnOk result (out.new.items ≡ out.old.items ++ message_text (message_of m)) }
{
    match m {
        Message::Info(value) => {
            out.extend_from_slice(b"news ")?;
            put_number(out, u64::from(value))
        }
        Message::Back(value, lhs) => {
            out.extend_from_slice(b"refusal ")?;
            put_number(out, u64::from(value))?;
            out.extend_from_slice(b":")?;
            put_left_side(out, lhs.unpack())
        }
        Message::AddLink => out.extend_from_slice(b"link"),
    }
}

// The message that stands k places behind the head of a channel.
#[tactic(auto, using(abt_shape::proofs::Numbering::ends))]
fn put_waiting(out: &mut Vec<u8>, r: &Network, from: u8, to: u8, k: u8) -> Result<(), AllocError>
    requires { (is_channel from to ≡ true) × (k < 16) }
    ensures { OnOk result (out.new.items ≡ out.old.items ++ message_text (waiting r.now from to k)) }
{
    let head = digit(r.heads[from as usize - 1], to);
    let place = r.places[place_at(channel_at(from, to), head, k)];
    put_message(out, place.message)
}

// The same behind a comma.
fn put_next(out: &mut Vec<u8>, r: &Network, from: u8, to: u8, k: u8) -> Result<(), AllocError>
    requires { (is_channel from to ≡ true) × (k < 16) }
    ensures { OnOk result (out.new.items ≡ out.old.items ++ (codes ", " ++ message_text (waiting r.now from to k))) }
{
    out.extend_from_slice(b", ")?;
    put_waiting(out, r, from, to, k)
}

// The messages behind the head of a channel that holds `count` of them.
fn put_others(out: &mut Vec<u8>, r: &Network, from: u8, to: u8, count: u8) -> Result<(), AllocError>
    requires { (is_channel from to ≡ true) × (1 ≤ count) × (count ≤ 16) }
    ensures { OnOk result (out.new.items ≡ out.old.items ++ messages_behind (others r.now from to (count - 1))) }
{
    for k in 1..count {
        put_next(out, r, from, to, k)?;
    }
    Ok(())
}

#[tactic(auto, unfolding(crate::specs::Text::line_start))]
fn put_line_start(out: &mut Vec<u8>, from: u8, to: u8) -> Result<(), AllocError>
    ensures { OnOk result (out.new.items ≡ out.old.items ++ line_start from to) }
{
    out.extend_from_slice(b"line ")?;
    put_number(out, u64::from(from))?;
    out.extend_from_slice(b" to ")?;
    put_number(out, u64::from(to))?;
    out.extend_from_slice(b": ")
}

// The channel from one agent to another, which holds `count` messages.
#[tactic(auto, unfolding(crate::specs::Text::line_line, model_base::specs::Decimal::newline))]
fn put_line(out: &mut Vec<u8>, r: &Network, from: u8, to: u8, count: u8) -> Result<(), AllocError>
    requires { (is_channel from to ≡ true) × (1 ≤ count) × (count ≤ 16) }
    ensures { OnOk result (out.new.items ≡ out.old.items ++ line_line from to (waiting r.now from to 0 ∷ others r.now from to (count - 1))) }
{
    put_line_start(out, from, to)?;
    put_waiting(out, r, from, to, 0)?;
    put_others(out, r, from, to, count)?;
    out.extend_from_slice(b"\n")
}

// The channel from one agent to another, where it holds something.
#[tactic(auto, using(abt_shape::proofs::Numbering::ends))]
fn put_channel(out: &mut Vec<u8>, r: &Network, from: u8, to: u8) -> Result<(), AllocError>
    requires { is_channel from to ≡ true }
    ensures { OnOk result (out.new.items ≡ out.old.items ++ line_line from to ((network_of r.now).channel from to)) }
{
    let count = digit(r.counts[from as usize - 1], to);
    if count == 0 {
        Ok(())
    } else {
        put_line(out, r, from, to, count)
    }
}

// The channels of one sender.
fn put_channels_of(out: &mut Vec<u8>, r: &Network, from: u8) -> Result<(), AllocError>
    requires { (1 ≤ from) × (from ≤ 12) }
    ensures { OnOk result (out.new.items ≡ out.old.items ++ lines_of (network_of r.now) from) }
{
    for to in 1..=12 {
        if from != to {
            put_channel(out, r, from, to)?;
        }
    }
    Ok(())
}

/// Appends a line for each channel that holds something, by sender, then receiver, to `out`.
/// `AllocError` where memory runs out. Equals `line_lines` of specs/Text.antt.
pub fn put_channels(out: &mut Vec<u8>, r: &Network) -> Result<(), AllocError>
    ensures { OnOk result (out.new.items ≡ out.old.items ++ line_lines (network_of r.now)) }
{
    for from in 1..=12 {
        put_channels_of(out, r, from)?;
    }
    Ok(())
}
