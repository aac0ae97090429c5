//! An agent's figures. What it is handed and what it sends is counted here and nowhere else.
ghost use Rattle.std.specs.Prelude.{◌≡◌, List, [], ◌∷◌, ℕ, ◌≤◌, eqb};
ghost use Rattle.model_agent.specs.Traffic.{each_sort, messages_in};
ghost use Rattle.abt_agent.specs.Abstract.{message_of, count_of};
ghost use Rattle.abt_agent.specs.Posting.{posts_left, Ready};
ghost use Rattle.abt_agent.specs.Entries.{Raised};

use crate::{Message, Outbox, Traffic};

impl Traffic {
    /// Returns whether no message is counted.
    pub fn is_zero(self) -> bool
        ensures { result ≡ each_sort (count_of self) (λ k. eqb k 0) }
    {
        self == Traffic::default()
    }

    /// Returns the counts with message `m` counted. A count at 2^64 - 1 stays there.
    pub(crate) fn with_received(self, m: Message) -> Traffic
        ensures { Raised self (message_of m ∷ []) result }
    {
        match m {
            Message::Info(_) => Traffic {
                infos: self.infos.saturating_add(1),
                ..self
            },
            Message::Back(_, _) => Traffic {
                backs: self.backs.saturating_add(1),
                ..self
            },
            Message::AddLink => Traffic {
                links: self.links.saturating_add(1),
                ..self
            },
        }
    }

    /// Returns the counts with all that is left in the outbox counted. A count at 2^64 - 1 stays
    /// there.
    pub(crate) fn with_sent(self, p: Outbox) -> Traffic
        requires { p.next ≤ p.count }
        ensures { (backs : List ℕ) → Ready p backs → Raised self (messages_in (posts_left p backs)) result }
    {
        Traffic {
            infos: self.infos.saturating_add(p.told.count_ones() as u64),
            backs: self.backs.saturating_add((p.count - p.next) as u64),
            links: self.links.saturating_add(p.links.count_ones() as u64),
        }
    }
}
