//! The rules 'News' (Info), 'Refusal' (Back) and 'Link request' (AddLink): what an agent does with
//! a message before it chooses, if it has to.
ghost use Rattle.std.specs.Prelude.{◌≡◌, List, ℕ, ◌≤◌, ◌<◌};
ghost use Rattle.model_agent.specs.Message.{Info as Info', Back as Back', AddLink as AddLink'};
ghost use Rattle.model_agent.specs.Receiving.{on_info, on_back, on_add_link};
ghost use Rattle.abt_packed.specs.Packed.{assignment};
ghost use Rattle.abt_choosing.specs.Conflicts.{self_of, Able, ViewFits, bans_in, ConflictsOf};
ghost use Rattle.abt_agent.specs.Parts.{agent_in, Handed, Listening, Hears, left_by, seen_by, Takes};

use crate::{Reaction, State};
use abt_choosing::conflict_masks::conflicts_at;
use abt_choosing::{AgentConfig, Conflicts, nogoods_without};
use abt_packed::{Entries, add, digit, has, with_digit, within};

// What a left-hand side that holds brings an agent: whom of it the agent does not listen to, and
// the agent's view with their values, with what that bars.
#[derive(Clone, Copy)]
struct Heard {
    pub links: u16,
    pub view: u64,
    pub conflicts: Conflicts,
}

impl State {
    /// Takes in an Info of value `v`: "The view is updated, and reasons that disagree with it are
    /// dropped. If the own slot is now banned, it chooses; otherwise that is all." Returns the
    /// state, and whether the own value is banned now. Equals `on_info` of
    /// model_agent/specs/Receiving.antt, once what is left to do is done (`Takes`).
    #[tactic(auto, using(crate::proofs::Infos::in_range))]
    pub(crate) fn on_info(
        self,
        own: AgentConfig,
        nogoods: &[u64; 8],
        bans: &[u64],
        from: u8,
        v: u8,
    ) -> (State, bool)
        requires { Handed own bans.now self nogoods.now from (Info' v) }
        ensures takes { Takes own (bans_in bans.now) result.0 (left_by result.1) nogoods.now (on_info (self_of own) (bans_in bans.now) (agent_in self nogoods.now) from v) }
        ensures stays { result.0 ≡ seen_by self result.0 }
    {
        // stored nogoods agree with the view: none is dropped where the value stays or was unknown
        let old = digit(self.view, from);
        let nogood_mask = if old != 0 && old != v {
            self.nogood_mask & nogoods_without(nogoods, from)
        } else {
            self.nogood_mask
        };
        let conflicts = self
            .conflicts
            .with(from, conflicts_at(bans[from as usize - 1], v));
        let state = State {
            nogood_mask,
            view: with_digit(self.view, from, v),
            conflicts,
            ..self
        };
        (state, conflicts.bans(self.value))
    }

    // "each scanner of the left side that the receiver listens to has that slot in its view;
    // unknown does not match." A walk along the left-hand side, left out where the view has all of
    // it.
    fn hear(self, own: AgentConfig, bans: &[u64], lhs: u64) -> Option<Heard>
        requires able { Able own bans.now }
        requires listening { Listening self }
        requires view_fits { ViewFits own (assignment lhs) }
        requires conflicts_of { ConflictsOf (bans_in bans.now) (assignment self.view) self.conflicts }
        ensures { Hears own (bans_in bans.now) self (assignment lhs) result }
    {
        let mut h = Heard {
            links: 0,
            view: self.view,
            conflicts: self.conflicts,
        };
        if within(lhs, self.view) {
            return Some(h);
        }
        for (k, u) in Entries(lhs) {
            if has(self.listens, k) {
                if digit(self.view, k) != u {
                    return None;
                }
            } else {
                h.links = add(h.links, k);
                h.view = with_digit(h.view, k, u);
                h.conflicts = h.conflicts.with(k, conflicts_at(bans[k as usize - 1], u));
            }
        }
        Some(h)
    }

    /// Takes in a Back that refuses value `v`, with the left-hand side `lhs`, packed: "It holds if
    /// the refused slot is the receiver's own and each scanner of the left side that the receiver
    /// listens to has that slot in its view". If so, "upward, each scanner of the left side that is
    /// not listened to gets a link request, is listened to and has its slot put into the view; then
    /// the left side is stored as the reason, the slot is cleared, and the scanner chooses."
    /// Otherwise "where the refused slot is the own one, news goes to the sender; otherwise
    /// nothing." Returns the state, and what is left to do. Equals `on_back` of
    /// model_agent/specs/Receiving.antt, once that is done (`Takes`).
    pub(crate) fn on_back(
        self,
        own: AgentConfig,
        nogoods: &mut [u64; 8],
        bans: &[u64],
        from: u8,
        lhs: u64,
        v: u8,
    ) -> (State, Reaction)
        requires { Handed own bans.now self nogoods.old from (Back' (assignment lhs) v) }
        ensures { Takes own (bans_in bans.now) result.0 result.1 nogoods.new (on_back (self_of own) (bans_in bans.now) (agent_in self nogoods.old) from (assignment lhs) v) }
    {
        if v != self.value {
            return (self, Reaction::Tell(0));
        }
        let Some(
            Heard {
                links,
                view,
                conflicts,
            },
        ) = self.hear(own, bans, lhs)
        else {
            return (self, Reaction::Tell(add(0, from)));
        };
        let i = v - 1;
        nogoods[i as usize] = lhs;
        let state = State {
            value: 0,
            nogood_mask: self.nogood_mask | (1u8 << i),
            listens: self.listens | links,
            view,
            conflicts,
            ..self
        };
        let reaction = Reaction::Choose {
            links,
            refuser: Some(from),
        };
        (state, reaction)
    }

    /// Takes in an AddLink: "The sender is informed from now on, and gets news." Returns the state,
    /// and what is left to do. Equals `on_add_link` of model_agent/specs/Receiving.antt, once that
    /// is done (`Takes`).
    pub(crate) fn on_add_link(self, own: AgentConfig, from: u8) -> (State, Reaction)
        requires { (own.number < from) × (from ≤ 12) }
        ensures { (bans nogoods : List ℕ) → Handed own bans self nogoods from AddLink' → Takes own (bans_in bans) result.0 result.1 nogoods (on_add_link (agent_in self nogoods) from) }
    {
        let state = State {
            informs: add(self.informs, from),
            ..self
        };
        (state, Reaction::Tell(add(0, from)))
    }
}
