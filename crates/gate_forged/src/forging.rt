//! Networks to be tried: one in shape, and what changes it in one place.
ghost use Rattle.std.specs.Prelude.{◌≤◌, ◌<◌};

use Part::{Domain, Informs, Last, Listens, Received, Sent, Settled, Value, View};
use Row::{Head, Held};
use abt_agent::{Agent, Assignment, Message, PackedAssignment, Traffic};
use abt_packed::with_digit;
use abt_record::{Network, Place};

// ---- one change
//
// Agent i + 1 has place i of its array and bit i of a set; digit i of a packed word is its value.
// Of the channels, 1 to 2 has number 0, 1 to 3 number 1, 2 to 1 number 11, 2 to 3 number 12, 3 to 1
// number 22 and 3 to 2 number 23; the places of number l begin at 8 * l.

/// The network with this number of agents.
pub fn with_count(r: Network, count: u8) -> Network {
    Network { count, ..r }
}

/// The network with this rule.
pub fn with_rule(r: Network, rule: u8) -> Network {
    Network { rule, ..r }
}

/// The network with the verdict.
pub fn with_verdict(r: Network) -> Network {
    Network {
        unsolvable: true,
        ..r
    }
}

/// The network with this word of bans at a place, 0 to 65.
pub fn with_bans(mut r: Network, at: usize, word: u64) -> Network
    requires { at < 66 }
{
    r.bans[at] = word;
    r
}

/// What one agent has, beside its nogoods.
#[derive(Clone, Copy)]
pub enum Part {
    /// Its domain.
    Domain(u8),
    /// The value that it holds.
    Value(u8),
    /// The last value that it took.
    Last(u8),
    /// The value that it holds, and took last.
    Settled(u8),
    /// The set of agents that it listens to.
    Listens(u16),
    /// The set of agents that it informs.
    Informs(u16),
    /// The digits of its view.
    View(u64),
    /// How many messages it has sent.
    Sent(Traffic),
    /// How many messages it has received.
    Received(Traffic),
}

/// Agent i + 1, i from 0 to 11, with this in place of what it has.
pub fn with(mut r: Network, i: usize, part: Part) -> Network
    requires { i < 12 }
{
    let a = &mut r.agents[i];
    match part {
        Domain(d) => r.domains[i] = d,
        Value(value) => a.value = value,
        Last(last) => a.last = last,
        Settled(value) => *a = Agent {
            value,
            last: value,
            ..*a
        },
        Listens(listens) => a.listens = listens,
        Informs(informs) => a.informs = informs,
        View(digits) => a.view = Assignment { digits },
        Sent(sent) => a.sent = sent,
        Received(received) => a.received = received,
    }
    r
}

/// What agent i + 1 has beside its value k + 1, i from 0 to 11 and k from 0 to 7. Bit and left side
/// are given apart: a forged network may have a left side where it stores none.
pub fn with_nogood(mut r: Network, i: usize, k: u8, kept: bool, digits: u64) -> Network
    requires { (i < 12) × (k < 8) }
{
    let a = &mut r.agents[i];
    a.nogoods[k as usize] = digits;
    a.nogood_mask = (a.nogood_mask & !(1u8 << k)) | (u8::from(kept) << k);
    r
}

/// So many messages of each sort.
pub fn counts(infos: u64, backs: u64, links: u64) -> Traffic {
    Traffic {
        infos,
        backs,
        links,
    }
}

/// What a channel has in a row of its sender.
#[derive(Clone, Copy)]
pub enum Row {
    /// Where its first message stands.
    Head,
    /// How many messages it holds.
    Held,
}

/// The channel with n, 0 to 15, in its row. `from` is 1 to 12, `to` is 1 to 16.
pub fn with_row(mut r: Network, row: Row, from: u8, to: u8, n: u8) -> Network
    requires { (1 ≤ from) × (from ≤ 12) × (1 ≤ to) × (to ≤ 16) × (n < 16) }
{
    let i = from as usize - 1;
    match row {
        Head => r.heads[i] = with_digit(r.heads[i], to, n),
        Held => r.counts[i] = with_digit(r.counts[i], to, n),
    }
    r
}

/// The network with this message at a place, 0 to 1,055.
pub fn with_message(mut r: Network, at: usize, message: Message) -> Network
    requires { at < 1056 }
{
    r.places[at] = Place { message };
    r
}

/// A Back; the left side's digits are those of agents 1 to 4.
pub fn back(low: u16, value: u8) -> Message {
    let lhs = PackedAssignment {
        low,
        middle: 0,
        high: 0,
    };
    Message::Back(value, lhs)
}

/// A Back whose left side names agent 1 at 1, and agent 12 at 1.
pub fn far_back(value: u8) -> Message {
    let lhs = PackedAssignment {
        low: 0x1,
        middle: 0,
        high: 0x1000,
    };
    Message::Back(value, lhs)
}

// ---- networks in shape

/// A network in shape: three agents with domain 2, under rule 1. Bans: 1:1 with 3:1, and 2:1 with
/// 3:2. Agent 3 listens to both others and sees both at 1; it holds 2 and keeps "1 has 1" for its
/// own value 1. It has sent agent 2 a Back with the left side "1 has 1", then one with "1 has 2",
/// and agent 1 a Back. Channel 1 to 3 is full and begins in the midst of its ring; on channel 2 to
/// 3 waits one Info.
pub fn good() -> Network {
    let mut r = abt_record::empty();
    r.count = 3;
    r.rule = 1;
    r.domains[0] = 2;
    r.domains[1] = 2;
    r.domains[2] = 2;
    r.bans[1] = 1;
    r.bans[2] = 2;
    r = with(with(r, 0, Settled(1)), 0, Informs(0b100));
    r = with(with(r, 1, Settled(1)), 1, Informs(0b100));
    r = with(
        with(with(r, 2, Settled(2)), 2, Listens(0b11)),
        2,
        View(0x11),
    );
    r = with_nogood(r, 2, 0, true, 0x1);
    r = with_row(with_row(r, Head, 1, 3, 3), Held, 1, 3, 8);
    r = with_message(with_message(r, 8, Message::Info(1)), 9, Message::Info(2));
    r = with_message(with_message(r, 10, Message::Info(1)), 11, Message::Info(2));
    r = with_message(with_message(r, 12, Message::Info(1)), 13, Message::Info(2));
    r = with_message(with_message(r, 14, Message::Info(1)), 15, Message::Info(2));
    r = with_message(with_row(r, Held, 2, 3, 1), 96, Message::Info(1));
    r = with_message(with_row(r, Held, 3, 2, 2), 184, back(0x1, 1));
    r = with_message(r, 185, back(0x2, 1));
    with_message(with_row(r, Held, 3, 1, 1), 176, back(0x0, 1))
}

/// The same without bans: agent 3 still listens to both others, but nobody informs it.
pub fn unlinked() -> Network {
    let r = with_bans(with_bans(good(), 1, 0), 2, 0);
    with(with(r, 0, Informs(0)), 1, Informs(0))
}

/// Three agents without a ban, agent 2 with domain d. Agent 3 listens to agent 2, which does not
/// inform it, and has sent it a Back of its value 1 with the left side "1 has 1"; agent 2 listens
/// to agent 1 and sees it at 1.
pub fn uninformed(rule: u8, d: u8) -> Network {
    let mut r = abt_record::empty();
    r.count = 3;
    r.rule = rule;
    r.domains[0] = 2;
    r.domains[1] = d;
    r.domains[2] = 2;
    r = with(with(r, 0, Settled(1)), 0, Informs(0b10));
    r = with(with(with(r, 1, Settled(1)), 1, Listens(0b1)), 1, View(0x1));
    r = with(with(r, 2, Settled(1)), 2, Listens(0b10));
    with_message(with_row(r, Held, 3, 2, 1), 184, back(0x1, 1))
}
