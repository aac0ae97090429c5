//! The shape of the agents. Each function is one clause; its contract says which, for every network
//! that has what the function is given.
ghost use Rattle.std.specs.Prelude.{◌≡◌, ℕ, ◌≤◌, ◌<◌};
ghost use Rattle.model_sheet.specs.Problem.{domain};
ghost use Rattle.model_network.specs.Network.{Network as Network'};
ghost use Rattle.model_network.specs.Shape.{holds_value, last_fits, listens_upward, informs_downward, view_listened, nogoods_fit, unused};
ghost use Rattle.model_base.specs.Sets.{members};
ghost use Rattle.abt_agent.specs.Abstract.{assigned, agent_of};
ghost use Rattle.abt_shape.specs.Parts.{Domains, heard, set_of, links_in_shape, holds_in_shape, agent_passes};
ghost use Rattle.abt_shape.specs.Frames.{AgentFraming};

use crate::frames::Frame;
use crate::places::words_before;
use crate::sets::{all_above, all_to};
use abt_agent::{Agent, Assignment};
use abt_packed::{at_most, digit, has, names, within};

// "Every scanner holds an owned slot; only under a verdict may it have none." Its domain is d.
fn holds_value(unsolvable: bool, d: u8, value: u8) -> bool
    ensures { (w : Network') (i : ℕ) → w.unsolvable ≡ unsolvable → domain w.problem i ≡ d → (w.agents i).value ≡ value → result ≡ holds_value w i }
{
    if value == 0 { unsolvable } else { value <= d }
}

// "The last slot that a scanner took is an owned one, and the one held if it holds any." Its domain
// is d.
fn last_fits(d: u8, value: u8, last: u8) -> bool
    ensures { (w : Network') (i : ℕ) → domain w.problem i ≡ d → (w.agents i).value ≡ value → (w.agents i).last ≡ last → result ≡ last_fits w i }
{
    0 < last && last <= d && (value == 0 || value == last)
}

fn listens_upward(i: u8, listens: u16) -> bool
    requires { 1 ≤ i }
    ensures { (w : Network') → (w.agents i).listens ≡ members listens → result ≡ listens_upward w i }
{
    all_to(listens, i - 1)
}

fn informs_downward(count: u8, i: u8, informs: u16) -> bool
    requires { i < 16 }
    ensures { (w : Network') → w.problem.count ≡ count → (w.agents i).informs ≡ members informs → result ≡ informs_downward w i }
{
    all_above(informs, i) && all_to(informs, count)
}

// "A view names only scanners listened to, with slots they own."
fn view_listened(domains: u64, listens: u16, view: Assignment) -> bool
    ensures { (w : Network') (i : ℕ) → Domains w.problem domains → (w.agents i).listens ≡ members listens → (w.agents i).view ≡ assigned view → result ≡ view_listened w i }
{
    at_most(view.digits, domains) && names(view.digits) & !listens == 0
}

// "A stored reason names only scanners whose slot in the view is the same." Each nogood stands at
// an own value; the agent's domain is d.
fn nogoods_fit(d: u8, a: Agent) -> bool
    ensures { (w : Network') (i : ℕ) → domain w.problem i ≡ d → w.agents i ≡ agent_of a → result ≡ nogoods_fit w i }
{
    // by number: it is the place of a bit and of a word, and a value
    for v in (0..8u8).rev() {
        if (a.nogood_mask >> v) % 2 == 1
            && (d <= v || !within(a.nogoods[v as usize], a.view.digits))
        {
            return false;
        }
    }
    true
}

// Everything of an agent beyond n is zero.
fn unused(a: Agent) -> bool
    ensures { result ≡ unused (agent_of a) }
{
    a.value == 0
        && a.last == 0
        && a.listens == 0
        && a.informs == 0
        && a.view.digits == 0
        && a.nogood_mask == 0
        && a.sent.is_zero()
        && a.received.is_zero()
}

impl Frame {
    // Each agent above j either informs it and is listened to, or has no ban with it. `listens` is
    // whom j listens to.
    fn heard(&self, bans: &[u64; 66], j: u8, listens: u16) -> bool
        requires { (1 ≤ j) × (j ≤ 12) }
        ensures { (w : Network') → w.problem.bans ≡ bans.now → ((k x : ℕ) → (w.agents k).informs x ≡ set_of self.now.informs k x) → (w.agents j).listens ≡ members listens → result ≡ heard w j }
    {
        let words = words_before(j);
        // by number: it is an agent of three sets, and the place of a ban word
        for i in (1..j).rev() {
            let fits = if has(self.informs[i as usize - 1], j) {
                has(listens, i)
            } else {
                bans[words + i as usize - 1] == 0
            };
            if !fits {
                return false;
            }
        }
        true
    }

    // The clauses on the links of agent i.
    fn links_in_shape(&self, bans: &[u64; 66], i: u8, listens: u16) -> bool
        requires { (1 ≤ i) × (i ≤ 12) }
        ensures { (w : Network') → AgentFraming w self.now → w.problem.bans ≡ bans.now → (w.agents i).listens ≡ members listens → result ≡ links_in_shape w i }
    {
        listens_upward(i, listens)
            && informs_downward(self.count, i, self.informs[i as usize - 1])
            && self.heard(bans, i, listens)
    }

    // The clauses on what agent i holds by itself: its value, the last that it took, its view and
    // its nogoods. Its counts may be any.
    fn holds_in_shape(&self, i: u8, a: Agent) -> bool
        requires { (1 ≤ i) × (i ≤ 12) }
        ensures { (w : Network') → AgentFraming w self.now → w.agents i ≡ agent_of a → result ≡ holds_in_shape w i }
    {
        let d = digit(self.domains, i);
        holds_value(self.unsolvable, d, a.value)
            && last_fits(d, a.value, a.last)
            && view_listened(self.domains, a.listens, a.view)
            && nogoods_fit(d, a)
    }

    /// Returns whether agent `i`, 1 to 12, passes: its links and what it holds are in shape or,
    /// beyond n, it is unused. The frame has the network's n, verdict, domains and sets
    /// (`AgentFraming`), `bans` its words of bans, and `a` the agent's record. Equals
    /// `agent_passes` of specs/Parts.antt.
    pub fn agent_passes(&self, bans: &[u64; 66], i: u8, a: Agent) -> bool
        requires { (1 ≤ i) × (i ≤ 12) }
        ensures { (w : Network') → AgentFraming w self.now → w.problem.bans ≡ bans.now → w.agents i ≡ agent_of a → result ≡ agent_passes w i }
    {
        if self.count < i {
            unused(a)
        } else {
            self.links_in_shape(bans, i, a.listens) && self.holds_in_shape(i, a)
        }
    }
}
