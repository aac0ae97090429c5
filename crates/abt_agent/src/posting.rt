//! What a step sends, one message at a time, in the order of sending.
ghost use Rattle.std.specs.Prelude.{◌≡◌, true, false, List, [], ◌∷◌, ℕ, ◌≤◌};
ghost use Rattle.std.specs.Iterator.{YieldsFirstBy, item_count};
ghost use Rattle.abt_agent.specs.Abstract.{post_of};
ghost use Rattle.abt_agent.specs.Posting.{posts_left, envelopes_left, none_left, tail_of, Ready};

use crate::{Assignment, Envelope, Envelopes, Message, Outbox};
use abt_packed::{digit, first, last_digit, with_digit, without};

impl Outbox {
    /// Returns whether nothing is left to send.
    pub fn is_empty(self) -> bool
        ensures { (result ≡ none_left self) × (result ≡ true → (backs : List ℕ) → Ready self backs → posts_left self backs ≡ []) }
    {
        // joined by `&`, without a branch: `&&` makes a long run 6 percent slower
        (self.links == 0) & (self.told == 0) & (self.next == self.count)
    }

    /// Returns the first message left, with its receiver. Something is left, and `backs` has the
    /// words of the Backs (`Ready`).
    pub fn first(self, backs: &[u64; 11]) -> Envelope
        requires self_value { none_left self ≡ false }
        requires ready { Ready self backs.now }
        ensures { posts_left self backs.now ≡ post_of result ∷ tail_of (posts_left self backs.now) }
    {
        let Outbox {
            links,
            told,
            value,
            next,
            count,
        } = self;
        if links != 0 {
            Envelope {
                to: first(links),
                message: Message::AddLink,
            }
        } else if next < count {
            let resolvent = backs[next];
            let k = last_digit(resolvent).unwrap();
            let lhs = Assignment {
                digits: with_digit(resolvent, k, 0),
            };
            Envelope {
                to: k,
                message: Message::Back(digit(resolvent, k), lhs.pack()),
            }
        } else {
            Envelope {
                to: first(told),
                message: Message::Info(value),
            }
        }
    }

    /// Returns what is left after the first message. Something is left.
    pub fn rest(self) -> Outbox
        requires self_value { none_left self ≡ false }
        requires next_le_count { self.next ≤ self.count }
        ensures { (backs : List ℕ) → Ready self backs → Ready result backs × (posts_left result backs ≡ tail_of (posts_left self backs)) }
    {
        if self.links != 0 {
            Outbox {
                links: without(self.links, first(self.links)),
                ..self
            }
        } else if self.next < self.count {
            Outbox {
                next: self.next + 1,
                ..self
            }
        } else {
            Outbox {
                told: without(self.told, first(self.told)),
                ..self
            }
        }
    }
}

impl<'a> Iterator for Envelopes<'a> {
    type Item = Envelope;

    ghost can_next = { λ s. Ready s.outbox s.backs.now };

    ghost next_gives = { YieldsFirstBy post_of envelopes_left };

    ghost remaining = { item_count envelopes_left };

    fn next(&mut self) -> Option<Envelope> {
        if self.outbox.is_empty() {
            return None;
        }
        let post = self.outbox.first(self.backs);
        self.outbox = self.outbox.rest();
        Some(post)
    }
}
