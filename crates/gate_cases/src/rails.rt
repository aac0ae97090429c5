//! Whether two networks are the same: n, rule, domains, verdict, bans, agents' records and the
//! messages that wait on each channel, in order; and what waits on one channel.
ghost use Rattle.std.specs.Prelude.{◌≡◌, true, ◌<◌};
ghost use Rattle.abt_record.specs.Abstract.{is_channel};

use abt_agent::{Agent, Message};
use abt_packed::digit;
use abt_record::{Network, Place};
use abt_shape::places::{channel_at, ends_of, is_line, place_at};

// ---- a channel of a network

/// A channel between two agents.
#[derive(Clone, Copy)]
pub struct Channel {
    from: u8,
    to: u8,
    ghost exists: { is_channel from to ≡ true },
}

impl Channel {
    /// The channel from one agent to another, and None where there is no such channel.
    #[tactic(auto, unfolding(model_network::specs::Lines::is_channel, model_sheet::specs::Problem::max_agents))]
    pub fn between(from: u8, to: u8) -> Option<Channel> {
        if is_line(12, from, to) {
            Some(Channel { from, to })
        } else {
            None
        }
    }

    /// How many messages wait on the channel.
    #[tactic(auto, using(abt_shape::proofs::Numbering::ends))]
    pub fn held(self, r: &Network) -> u8 {
        digit(r.counts[self.from as usize - 1], self.to)
    }

    // The place of message t, from the head on, in a ring whose head stands there.
    fn place(self, head: u8, t: u8) -> usize
        requires { (head < 16) × (t < 8) }
        ensures { result < 1056 }
    {
        place_at(channel_at(self.from, self.to), head, t)
    }

    // Message t, from the head on.
    #[tactic(auto, using(abt_shape::proofs::Numbering::ends))]
    fn waiting(self, r: &Network, t: u8) -> Message
        requires { t < 8 }
    {
        let head = digit(r.heads[self.from as usize - 1], self.to);
        r.places[self.place(head, t)].message
    }

    /// All that waits on the channel is this message.
    pub fn holds_only(self, r: &Network, message: Message) -> bool {
        for t in 0..self.held(r).min(8) {
            if self.waiting(r, t) != message {
                return false;
            }
        }
        true
    }
}

// ---- all of a network

// An agent's record, with zeros for the words where no nogood is stored.
fn bare_agent(a: &Agent) -> Agent {
    let mut bare = *a;
    for (k, word) in bare.nogoods.iter_mut().enumerate() {
        if (a.nogood_mask >> k) % 2 == 0 {
            *word = 0;
        }
    }
    bare
}

// The same network, with what counts for nothing left out: the words where no nogood is stored, and
// where in its ring a channel's head stands. Each channel's messages stand from its first place on,
// and there is nothing beyond them. Rows of counts are as they stand.
fn bare(r: &Network) -> Network {
    let Network { heads, places, .. } = abt_record::empty();
    let mut bare = Network {
        heads,
        places,
        ..*r
    };
    for (agent, of_r) in bare.agents.iter_mut().zip(&r.agents) {
        *agent = bare_agent(of_r);
    }
    for channel in 0..132 {
        let (from, to) = ends_of(channel);
        let line = Channel { from, to };
        for t in 0..line.held(r).min(8) {
            bare.places[line.place(0, t)] = Place {
                message: line.waiting(r, t),
            };
        }
    }
    bare
}

/// The two networks are the same. They may differ in what counts for nothing.
pub fn same_rail(a: &Network, b: &Network) -> bool {
    bare(a) == bare(b)
}
