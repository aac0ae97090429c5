//! The shape of one message.
ghost use Rattle.std.specs.Prelude.{◌≡◌, true, ◌≤◌};
ghost use Rattle.model_sheet.specs.Problem.{Problem};
ghost use Rattle.model_network.specs.Network.{Network as Network'};
ghost use Rattle.model_network.specs.Shape.{lhs_fits};
ghost use Rattle.abt_agent.specs.Abstract.{assigned, message_of};
ghost use Rattle.abt_shape.specs.Parts.{Domains, is_link, fits_now};
ghost use Rattle.abt_shape.specs.Frames.{MessageFraming};

use crate::frames::Frame;
use crate::range::in_domain;
use abt_agent::{Assignment, Message};
use abt_packed::{at_most, has};

// The left-hand side of a Back to agent j names only agents above j, with values they own.
fn lhs_fits(domains: u64, j: u8, lhs: Assignment) -> bool
    requires { (1 ≤ j) × (j ≤ 12) }
    ensures { (p : Problem) → Domains p domains → result ≡ lhs_fits p j (assigned lhs) }
{
    at_most(lhs.digits, domains % (1u64 << (4 * (j - 1))))
}

/// Returns whether the message is an AddLink.
pub fn is_link(m: Message) -> bool
    ensures { result ≡ is_link (message_of m) }
{
    matches!(m, Message::AddLink)
}

impl Frame {
    /// Returns whether a message on the channel from agent `i` to agent `j`, each 1 to 12, is in
    /// shape: it goes in its direction, with owned values, between agents of whom one listens to
    /// the other, and the left-hand side of a Back names only agents above `j`. An AddLink does not
    /// fit where one was `asked` already; `asked` is true also where the receiver informs the
    /// sender. The frame has the network's domains and sets (`MessageFraming`). Equals `fits_now`
    /// of specs/Parts.antt.
    pub fn message_fits(&self, i: u8, j: u8, m: Message, asked: bool) -> bool
        requires { (1 ≤ i) × (i ≤ 12) × (1 ≤ j) × (j ≤ 12) }
        ensures { (w : Network') → MessageFraming w self.now → ((w.agents j).informs i ≡ true → asked ≡ true) → result ≡ fits_now w i j asked (message_of m) }
    {
        match m {
            Message::Info(v) => {
                i < j && in_domain(self.domains, i, v) && has(self.listens[j as usize - 1], i)
            }
            Message::Back(v, lhs) => {
                j < i
                    && in_domain(self.domains, j, v)
                    && has(self.listens[i as usize - 1], j)
                    && lhs_fits(self.domains, j, lhs.unpack())
            }
            Message::AddLink => j < i && has(self.listens[i as usize - 1], j) && !asked,
        }
    }
}
