//! The rules 'Choosing' and 'Backing up': a value is chosen and told, or none is, and Backs are
//! sent until one is or the verdict falls.
ghost use Rattle.std.specs.Prelude.{◌≡◌, List, ℕ, ◌≤◌, length};
ghost use Rattle.model_agent.specs.Agent.{Bans};
ghost use Rattle.model_agent.specs.Choosing.{tells, after, check_view};
ghost use Rattle.model_agent.specs.Receiving.{quiet};
ghost use Rattle.model_base.specs.Sets.{members};
ghost use Rattle.abt_packed.specs.Packed.{assignment};
ghost use Rattle.abt_choosing.specs.Conflicts.{self_of, ConfigFits, ConflictsOf};
ghost use Rattle.abt_agent.specs.Posting.{links_to, news_to};
ghost use Rattle.abt_agent.specs.Entries.{Above, Below, StepsAs};
ghost use Rattle.abt_agent.specs.Parts.{agent_in, listener, step_with, Sound, refuser_of, Refuser, has_taken, has_failed};

use crate::State;
use abt_choosing::{AgentConfig, Choice, choose, nogoods_without};
use abt_packed::{add, last_digit, with_digit};

/// A step done: the agent less the words of its nogoods, what it sends, and whether the verdict
/// `none` fell. The value told is the agent's own.
#[derive(Clone, Copy)]
pub(crate) struct Done {
    pub state: State,
    /// The agents that get an AddLink.
    pub links: u16,
    /// The agents that get an Info.
    pub told: u16,
    /// The number of Backs.
    pub count: usize,
    pub unsolvable: bool,
}

impl State {
    /// Returns the step that tells the own value to the agents of the set `told` and does nothing
    /// else.
    pub(crate) fn telling(self, told: u16) -> Done
        ensures { (own : AgentConfig) (bans : Bans) (nogoods backs : List ℕ) → ConfigFits own → length backs ≡ 11 → Below own told → ConflictsOf bans (assignment self.view) self.conflicts → StepsAs own bans (step_with result nogoods backs) (quiet (agent_in self nogoods) (news_to self.value told)) }
    {
        Done {
            state: self,
            links: 0,
            told,
            count: 0,
            unsolvable: false,
        }
    }

    // The set of those that get the Info of a value. Rule 1: "all that it informs, even if the slot
    // is the old one". Rule 2: nobody where the value is the last that it took; but the agent whose
    // Back is worked, if there is one, in any case.
    fn tells(self, own: AgentConfig, refuser: Option<u8>, value: u8) -> u16
        requires { Refuser own refuser }
        ensures { (k : ℕ) → 1 ≤ k → members result k ≡ tells (self_of own) (listener self) (refuser_of refuser) value k }
    {
        if own.rule != 2 {
            return self.informs;
        }
        let told = if value != self.last { self.informs } else { 0 };
        match refuser {
            Some(k) => add(told, k),
            None => told,
        }
    }

    // The value is taken, is the last one taken from now on, and is told.
    fn taking(self, value: u8, told: u16, links: u16, count: usize) -> Done
        ensures { result ≡ has_taken self value told links count }
    {
        let state = State {
            value,
            last: value,
            ..self
        };
        Done {
            state,
            links,
            told,
            count,
            unsolvable: false,
        }
    }

    // None is taken: the verdict falls, and the last one taken stays.
    fn failing(self, links: u16, count: usize) -> Done
        ensures { result ≡ has_failed self links count }
    {
        let state = State { value: 0, ..self };
        Done {
            state,
            links,
            told: 0,
            count,
            unsolvable: true,
        }
    }

    /// Chooses, backing up until a value is taken or the verdict falls: "Where no slot is free, all
    /// left sides are joined. .. Otherwise the highest-numbered scanner in the join gets a refusal
    /// .. The sender sets that scanner to unknown, drops every reason that names it, and chooses
    /// again, until a slot is taken." Puts the Backs into `backs`, each as its whole nogood.
    /// AddLinks to the agents of the set `links`, which are above, come before. `refuser` is the
    /// agent whose Back is worked, if one is; it is below and stays the same throughout. Equals
    /// `check_view` of model_agent/specs/Choosing.antt, after the AddLinks.
    pub(crate) fn settle(
        self,
        own: AgentConfig,
        nogoods: &mut [u64; 8],
        backs: &mut [u64; 11],
        links: u16,
        refuser: Option<u8>,
    ) -> Done
        requires own_fits { ConfigFits own }
        requires sound { Sound own self nogoods.old }
        requires backs_len { length backs.old ≡ 11 }
        requires above { Above own links }
        requires refuser { Refuser own refuser }
        ensures { (bans : Bans) → ConflictsOf bans (assignment self.view) self.conflicts → StepsAs own bans (step_with result nogoods.new backs.new) (after (links_to links) (check_view (self_of own) bans (refuser_of refuser) (agent_in self nogoods.old))) }
    {
        let mut s = self;
        let mut count = 0;
        loop {
            let Choice {
                value,
                nogood_mask,
                resolvent,
            } = choose(nogoods, own, s.view, s.conflicts, s.nogood_mask);
            s.nogood_mask = nogood_mask;
            if let Some(value) = value {
                let told = s.tells(own, refuser, value);
                return s.taking(value, told, links, count);
            }
            let Some(k) = last_digit(resolvent) else {
                return s.failing(links, count);
            };
            backs[count] = resolvent;
            count += 1;
            s.nogood_mask &= nogoods_without(nogoods, k);
            s.view = with_digit(s.view, k, 0);
            s.conflicts = s.conflicts.with(k, 0);
        }
    }
}
