//! The network (rail) by value: its record, the empty one, the test of its shape, and asking an
//! agent's value. It stands on `abt_agent` (an agent's record) and `abt_shape` (the clauses of the
//! shape). `network_of` of specs/Abstract.antt says which network a record means. Start at
//! `Network` and `in_shape`; docs/RULES.md, 'The rail', has the rules. `abt_engine` changes
//! networks.
#![tactic(auto)]

ghost use Rattle.std.specs.Prelude.{◌≡◌};
ghost use Rattle.model_network.specs.Network.{empty_network, is_rule};
ghost use Rattle.model_network.specs.Shape.{in_shape};
ghost use Rattle.model_network.specs.Delivery.{answer_number, ask_value};
ghost use Rattle.abt_record.specs.Abstract.{network_of};
ghost use Rattle.abt_record.specs.Asked.{asked_number, asked_value};
ghost use Rattle.abt_record.specs.Empty.{empty_record};

mod framing;
mod lines;

use abt_agent::{Agent, Assignment, Message, Traffic};
use support_rejection::Rejection;

/// One place of a channel.
#[derive(Clone, Copy, Debug, PartialEq, Eq)]
pub struct Place {
    /// The message. Where the place is not in use, it has no meaning.
    pub message: Message,
}

/// A network by value: the problem, the rule, the agents and the 132 channels, in arrays of fixed
/// length. A host may hand over any record, a forged one too: until the shape is tested, any number
/// may stand in any field. Where in its ring a channel's messages stand, and what unused places
/// hold, is no part of the network.
#[derive(Clone, Copy, Debug, PartialEq, Eq)]
pub struct Network {
    /// The number of agents, n.
    pub count: u8,
    /// The rule: 1, or 2, the quiet one. 0 in the empty network.
    pub rule: u8,
    /// At place k - 1 the domain of agent k: how many values it has. 0 beyond n.
    pub domains: [u8; 12],
    /// A word for each pair of agents, at the place that `words_before` of abt_shape gives: bit
    /// `8 * (v - 1) + w - 1` bans value v of the lower with value w of the higher.
    pub bans: [u64; 66],
    /// Whether the verdict `none` stands.
    pub unsolvable: bool,
    /// At place k - 1 agent k.
    pub agents: [Agent; 12],
    /// At place i - 1 the row of sender i. Hexadecimal digit j, from 1 at the low end, is where in
    /// the ring to receiver j the first message stands, modulo 8.
    pub heads: [u64; 12],
    /// Rows as in `heads`: digit j is how many messages wait on the channel to receiver j. The
    /// other digits have no meaning.
    pub counts: [u64; 12],
    /// A ring of eight places for each of the 132 channels, by sender, then receiver. The messages
    /// of a channel stand from its head on, so many as its count.
    pub places: [Place; 1056],
}

/// Returns the empty network (the empty rail): n = 0, all else zero, and the same message in every
/// place. Equals `empty_network` of model_network/specs/Network.antt.
pub fn empty() -> Network
    ensures { (result ≡ empty_record) × (network_of result ≡ empty_network) }
{
    let none = Traffic::default();
    let nobody = Agent {
        value: 0,
        last: 0,
        nogood_mask: 0,
        listens: 0,
        informs: 0,
        view: Assignment::default(),
        nogoods: [0; 8],
        sent: none,
        received: none,
    };
    let nothing = Place {
        message: Message::Info(0),
    };
    Network {
        count: 0,
        rule: 0,
        domains: [0; 12],
        bans: [0; 66],
        unsolvable: false,
        agents: [nobody; 12],
        heads: [0; 12],
        counts: [0; 12],
        places: [nothing; 1056],
    }
}

/// Returns whether this is the number of a rule: 1, or 2, the quiet one.
pub fn is_rule(rule: u8) -> bool
    ensures { result ≡ is_rule rule }
{
    0 < rule && rule <= 2
}

/// Returns whether a network is in shape, any at all, forged ones included. Equals `in_shape` of
/// model_network/specs/Shape.antt. `Network::is_in_shape` says it of a network that is lent.
pub fn in_shape(r: Network) -> bool
    ensures { result ≡ in_shape (network_of r) }
{
    r.is_in_shape()
}

impl Network {
    /// Returns whether the network is in shape, as `in_shape` does, where it stands: it is not
    /// copied.
    pub fn is_in_shape(&self) -> bool
        ensures { result ≡ in_shape (network_of self.now) }
    {
        match self.framed() {
            Some(frame) => self.lines_fit(&frame),
            None => false,
        }
    }
}

// ---- asking a value

/// Returns the value of agent `i`. It is 0 where the verdict left the agent without one.
///
/// Rejects with `BadShape` (5) where the network is not in shape, then with `BadNumbers` (6) where
/// `i` is not 1 to n. Equals `ask_value` of model_network/specs/Delivery.antt.
pub fn value(r: Network, i: u8) -> Result<u8, Rejection>
    ensures { let asked = ask_value (network_of r) i in (asked_number result ≡ answer_number asked.answer) × (asked_value result ≡ asked.value) }
{
    if !r.is_in_shape() {
        Err(Rejection::BadShape)
    } else if i == 0 || r.count < i {
        Err(Rejection::BadNumbers)
    } else {
        Ok(r.agents[i as usize - 1].value)
    }
}
