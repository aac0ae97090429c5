//! An agent (scanner) of Asynchronous Backtracking: its record by value, the three messages, and
//! its step on a message. It stands on `abt_choosing` (the choice of a value) and `abt_packed`
//! (packed words), and equals the rules of model_agent/specs/Receiving.antt. `abt_engine` hands
//! agents their messages. Start at `Agent::receive`; the rules are in docs/RULES.md, 'What a
//! scanner does'.
#![tactic(auto)]

ghost use Rattle.std.specs.Prelude.{◌≡◌, true, false, length};
ghost use Rattle.model_agent.specs.Traffic.{messages_in};
ghost use Rattle.model_agent.specs.Agent.{Bans};
ghost use Rattle.model_agent.specs.Receiving.{receive, begin};
ghost use Rattle.model_agent.specs.Shape.{RecordFits, MessageFits, any_value};
ghost use Rattle.model_base.specs.Sets.{members};
ghost use Rattle.abt_choosing.specs.Conflicts.{self_of, ConfigFits, Able, bans_in, ConflictsOf};
ghost use Rattle.abt_agent.specs.Abstract.{assigned, message_of, agent_of};
ghost use Rattle.abt_agent.specs.Posting.{posts_left, Ready};
ghost use Rattle.abt_agent.specs.Entries.{Below, StepsAs, Raised, heard_by, Still, BeginsAs};
ghost use Rattle.abt_agent.specs.Parts.{apart, posts_of, step_whole, stays_with};

mod assigning;
mod backing;
mod counting;
mod posting;
mod receiving;

use crate::backing::Done;
use abt_choosing::{AgentConfig, Conflicts};

/// A partial assignment, packed: an agent view, or the left-hand side of a nogood.
#[derive(Clone, Copy, Debug, PartialEq, Eq, Default)]
pub struct Assignment {
    /// Hexadecimal digit k, counted from 1 at the low end, is the value of agent k, and 0 where
    /// that is unknown or not named.
    pub digits: u64,
}

/// A left-hand side as a message carries it: the digits of agents 1 to 12 in three short words, so
/// that a message takes eight bytes.
#[derive(Clone, Copy, Debug, PartialEq, Eq)]
pub struct PackedAssignment {
    /// Agents 1 to 4, agent 1 in the lowest digit.
    pub low: u16,
    /// Agents 5 to 8.
    pub middle: u16,
    /// Agents 9 to 12.
    pub high: u16,
}

/// A message is exactly one of three. An Info goes from a lower to a higher number, a Back and an
/// AddLink from a higher to a lower one.
#[derive(Clone, Copy, Debug, PartialEq, Eq)]
pub enum Message {
    /// News: the sender's value.
    Info(u8),
    /// A refusal, sent as a nogood: the receiver's value that is refused, and the left-hand side.
    Back(u8, PackedAssignment),
    /// A link request: the sender wants to be informed from now on.
    AddLink,
}

/// How many messages of each sort. A count that reaches 2^64 - 1 stays there.
#[derive(Clone, Copy, Debug, PartialEq, Eq, Default)]
pub struct Traffic {
    pub infos: u64,
    pub backs: u64,
    pub links: u64,
}

/// An agent's record. `agent_of` of specs/Abstract.antt says what it means.
#[derive(Clone, Copy, Debug, PartialEq, Eq)]
pub struct Agent {
    /// The value that it holds, from 1 on; 0 where it holds none.
    pub value: u8,
    /// The last value that it took, held or not; 0 where it took none yet.
    pub last: u8,
    /// Bit v - 1 says whether a nogood is stored for own value v.
    pub nogood_mask: u8,
    /// The agents above that it listens to; bit k - 1 is agent k.
    pub listens: u16,
    /// The agents below that it informs; bit k - 1 is agent k.
    pub informs: u16,
    /// The agent view: a value for each agent listened to that is known.
    pub view: Assignment,
    /// At place v - 1 the left-hand side of the nogood for own value v, packed as in `Assignment`.
    /// It may be empty. A place whose bit `nogood_mask` lacks has no meaning.
    pub nogoods: [u64; 8],
    /// The messages that it sent.
    pub sent: Traffic,
    /// The messages that it was handed.
    pub received: Traffic,
}

/// A message and the agent that gets it.
#[derive(Clone, Copy, Debug, PartialEq, Eq)]
pub struct Envelope {
    pub to: u8,
    pub message: Message,
}

/// What a step has left to send, in order: AddLinks, then Backs, then Infos. The words of the Backs
/// stand in `Step::backs`. To be read it has to be `Ready` (specs/Posting.antt): agents up to 12,
/// `next` at most `count`, `count` at most 11, and each word up to `count` names an agent and none
/// beyond 12.
#[derive(Clone, Copy, Debug, PartialEq, Eq)]
pub struct Outbox {
    /// The agents that get an AddLink, upward; bit k - 1 is agent k.
    pub links: u16,
    /// The agents that get an Info of `value`, upward; bit k - 1 is agent k.
    pub told: u16,
    /// The value of the Infos.
    pub value: u8,
    /// The place of the next Back.
    pub next: usize,
    /// The number of Backs, those sent already among them.
    pub count: usize,
}

/// The messages left in an outbox that is `Ready`, each with its receiver, in the order of sending:
/// `for envelope in letters`.
#[derive(Clone, Debug, Drop)]
pub struct Envelopes<'a> {
    pub outbox: Outbox,
    /// The words of its Backs, as in `Step::backs`.
    pub backs: &'a [u64; 11],
}

/// What an agent hands back after a message.
#[derive(Clone, Copy, Debug, PartialEq, Eq)]
pub struct Step {
    /// The agent, changed.
    pub agent: Agent,
    /// What it sends. None of it is sent yet.
    pub outbox: Outbox,
    /// The Backs, each as its whole nogood, packed as in `Assignment`: a Back goes to the
    /// highest-numbered agent that the word names. The first `outbox.count` words have a meaning.
    pub backs: [u64; 11],
    /// What its view bars now.
    pub conflicts: Conflicts,
    /// Whether the verdict `none` fell.
    pub unsolvable: bool,
    /// Where it is set, nothing is sent, and the agent is changed in its view, `nogood_mask` and
    /// `received` only, so that `Agent::put` has less to store.
    pub still: bool,
}

// An agent taken apart: all of it but the words of its nogoods and its counts, with what its view
// bars. The words are changed where they lie while this is handed on by value.
#[derive(Clone, Copy)]
struct State {
    pub value: u8,
    pub last: u8,
    pub nogood_mask: u8,
    pub listens: u16,
    pub informs: u16,
    pub view: u64,
    pub conflicts: Conflicts,
}

// What an agent has left to do once a message is taken in: to choose, after AddLinks to the agents
// of the set `links`, `refuser` being the agent whose Back is worked, if one is; or to tell its
// value to the agents of a set.
#[derive(Clone, Copy)]
enum Reaction {
    Choose { links: u16, refuser: Option<u8> },
    Tell(u16),
}

impl Agent {
    // The agent taken apart.
    fn apart(self, conflicts: Conflicts) -> State
        ensures { result ≡ apart self conflicts }
    {
        let Agent {
            value,
            last,
            nogood_mask,
            listens,
            informs,
            view,
            ..
        } = self;
        State {
            value,
            last,
            nogood_mask,
            listens,
            informs,
            view: view.digits,
            conflicts,
        }
    }

    /// Takes in message `m` of agent `from` and returns the step: the agent changed, with what it
    /// sends. `bans` has a word for each agent above, as `Conflicts::of` takes them, and
    /// `conflicts` is what the agent's view bars.
    ///
    /// Requires that the agent and the message fit (`RecordFits` and `MessageFits` of
    /// model_agent/specs/Shape.antt): among others, the agent holds a value, its view names agents
    /// listened to, its nogoods agree with its view, and the message comes from the side that its
    /// sort allows. In a network in shape without a verdict, each agent and each message waiting
    /// for it fit. Equals `receive` of model_agent/specs/Receiving.antt.
    pub fn receive(
        self,
        own: AgentConfig,
        bans: &[u64],
        conflicts: Conflicts,
        from: u8,
        m: Message,
    ) -> Step
        requires able { Able own bans.now }
        requires record_fits { RecordFits any_value (self_of own) (agent_of self) }
        requires message_fits { MessageFits any_value (self_of own) (agent_of self) from (message_of m) }
        requires conflicts_of { ConflictsOf (bans_in bans.now) (assigned self.view) conflicts }
        ensures steps_as { StepsAs own (bans_in bans.now) result (receive (self_of own) (bans_in bans.now) (agent_of self) from (message_of m)) }
        ensures still { Still self result }
    {
        let mut nogoods = self.nogoods;
        let s = self.apart(conflicts);
        let received = self.received.with_received(m);
        let (state, reaction) = match m {
            Message::Info(v) => {
                let (state, banned) = s.on_info(own, &self.nogoods, bans, from, v);
                if !banned {
                    return self.still_step(state, received);
                }
                let reaction = Reaction::Choose {
                    links: 0,
                    refuser: None,
                };
                (state, reaction)
            }
            Message::Back(v, lhs) => s.on_back(
                own,
                &mut nogoods,
                bans,
                from,
                lhs.unpack().digits,
                v,
            ),
            Message::AddLink => s.on_add_link(own, from),
        };
        match reaction {
            Reaction::Choose { links, refuser } => {
                let mut backs = [0u64; 11];
                let done = state.settle(own, &mut nogoods, &mut backs, links, refuser);
                self.into_step(done, nogoods, backs, received)
            }
            Reaction::Tell(told) => self.into_step(state.telling(told), nogoods, [0; 11], received),
        }
    }

    // A step that chose or told: the agent put together again, with what it sends counted.
    fn into_step(self, done: Done, nogoods: [u64; 8], backs: [u64; 11], received: Traffic) -> Step
        ensures { (result ≡ step_whole done nogoods backs result.agent.sent received false) × (Ready (posts_of done) backs → Raised self.sent (messages_in (posts_left (posts_of done) backs)) result.agent.sent) }
    {
        let Done {
            state,
            links,
            told,
            count,
            unsolvable,
        } = done;
        let State {
            value,
            last,
            nogood_mask,
            listens,
            informs,
            view,
            conflicts,
        } = state;
        let outbox = Outbox {
            links,
            told,
            value,
            next: 0,
            count,
        };
        Step {
            agent: Agent {
                value,
                last,
                nogood_mask,
                listens,
                informs,
                view: Assignment { digits: view },
                nogoods,
                sent: self.sent.with_sent(outbox),
                received,
            },
            outbox,
            backs,
            conflicts,
            unsolvable,
            still: false,
        }
    }

    // A still step: an Info was taken in, "otherwise that is all".
    fn still_step(self, state: State, received: Traffic) -> Step
        ensures { (result ≡ stays_with self state received result.backs) × (length result.backs ≡ 11) }
    {
        Step {
            agent: Agent {
                nogood_mask: state.nogood_mask,
                view: Assignment { digits: state.view },
                received,
                ..self
            },
            outbox: Outbox {
                links: 0,
                told: 0,
                value: state.value,
                next: 0,
                count: 0,
            },
            backs: [0; 11],
            conflicts: state.conflicts,
            unsolvable: false,
            still: true,
        }
    }

    /// Stores the agent of a step at `place`, where the agent stands that the step was made of.
    /// Where `still`, it writes only what a still step changes; the rest must be equal. It is a
    /// method of the agent, since a step that is lent stays in memory.
    pub fn put(self, place: &mut Agent, still: bool)
        requires { still ≡ true → self ≡ heard_by place.old self }
        ensures { place.new ≡ self }
    {
        if still {
            place.nogood_mask = self.nogood_mask;
            place.view = self.view;
            place.received = self.received;
        } else {
            *place = self;
        }
    }

    /// Returns the agent after the start: "All views are unknown, and each scanner chooses." It
    /// holds value 1, since nothing is barred. Under either rule it sends an Info of it to all of
    /// `informs`: these are counted as sent here, and the caller puts them on the channels.
    ///
    /// The sets have bit k - 1 for agent k; `informs` names only agents below, up to 12. Equals
    /// `begin` of model_agent/specs/Receiving.antt.
    pub fn begin(own: AgentConfig, listens: u16, informs: u16) -> Agent
        requires own_fits { ConfigFits own }
        requires below { Below own informs }
        ensures { (bans : Bans) → BeginsAs result (begin (self_of own) bans (members listens) (members informs)) }
    {
        let none = Traffic::default();
        let news = Outbox {
            links: 0,
            told: informs,
            value: 1,
            next: 0,
            count: 0,
        };
        Agent {
            value: 1,
            last: 1,
            nogood_mask: 0,
            listens,
            informs,
            view: Assignment::default(),
            nogoods: [0; 8],
            sent: none.with_sent(news),
            received: none,
        }
    }
}
