//! The start of a network (rail): each agent of a sheet's problem begins, and what it sends waits
//! on its channels. It stands on `sheet_reader` (sheets), `abt_agent` (an agent's start) and
//! `abt_record` (the network). Start at `start`; the rules are in docs/RULES.md, 'What a scanner
//! does' and 'The quiet rule'.
#![tactic(auto)]

ghost use Rattle.std.specs.Prelude.{◌≡◌, false, ℕ, ◌≤◌, ◌<◌, IfErr};
ghost use Rattle.model_sheet.specs.Problem.{Problem as Problem', linked};
ghost use Rattle.model_network.specs.Network.{start_sheet};
ghost use Rattle.model_base.specs.Sets.{members};
ghost use Rattle.abt_record.specs.Abstract.{network_of, no_place};
ghost use Rattle.abt_record.specs.Empty.{empty_agent, empty_record};
ghost use Rattle.abt_start.specs.Started.{StartsAs, started_network};

use abt_agent::{Agent, Assignment, Message, Traffic};
use abt_choosing::AgentConfig;
use abt_packed::{Members, with_digit};
use abt_record::{Network, Place, is_rule};
use abt_shape::places::{channel_at, place_at, words_before};
use sheet_reader::Problem;
use support_rejection::Rejection;

// ---- links

// The agents above `i` that it is linked with.
fn listens(bans: &[u64; 66], i: u8) -> u16
    requires { (1 ≤ i) × (i ≤ 12) }
    ensures { (p : Problem') → p.bans ≡ bans.now → members result ≡ (λ k. linked p k i) }
{
    let words = words_before(i);
    let mut mask: u16 = 0;
    // by number, as in `informs`, so that one lemma on masks serves both
    for k in (0..i as usize - 1).rev() {
        mask = mask * 2 + u16::from(bans[words + k] != 0);
    }
    mask
}

// The agents below `i`, up to n, that it is linked with.
fn informs(bans: &[u64; 66], n: u8, i: u8) -> u16
    requires { (1 ≤ i) × (i ≤ n) × (n ≤ 12) }
    ensures { (p : Problem') → p.bans ≡ bans.now → ((k : ℕ) → n < k → linked p i k ≡ false) → members result ≡ (λ k. linked p i k) }
{
    let mut mask: u16 = 0;
    // by number: the words of one lower agent do not stand beside each other
    for k in (i..n).rev() {
        let word = words_before(k + 1) + i as usize - 1;
        mask = mask * 2 + u16::from(bans[word] != 0);
    }
    mask << i
}

// ---- the start

// The agent at a place that no agent has.
#[tactic(auto, unfolding(abt_record::specs::Empty::empty_agent, abt_agent::specs::Abstract::none_counted))]
fn nobody() -> Agent
    ensures { result ≡ empty_agent }
{
    let none = Traffic {
        infos: 0,
        backs: 0,
        links: 0,
    };
    Agent {
        value: 0,
        last: 0,
        nogood_mask: 0,
        listens: 0,
        informs: 0,
        view: Assignment { digits: 0 },
        nogoods: [0; 8],
        sent: none,
        received: none,
    }
}

// What stands in a place of a channel where nothing waits.
#[tactic(auto, unfolding(abt_record::specs::Abstract::no_place))]
fn nothing() -> Place
    ensures { result ≡ no_place }
{
    Place {
        message: Message::Info(0),
    }
}

/// Starts a network: every agent of the sheet's problem begins, and what it sends waits on its
/// channels. `rule` is 1 or 2; `sheet` may be any bytes.
///
/// Rejects with `BadRule` (11) where the rule is another number, before it looks at the sheet; then
/// with the sheet's first fault, `BadLength` (1), `BadHeader` (2), `BadRecord` (3) or `Cycle` (4).
/// Equals `start_sheet` of model_network/specs/Network.antt.
pub fn start(rule: u8, sheet: &[u8]) -> Result<Network, Rejection>
    ensures { StartsAs (start_sheet rule sheet.now) result }
{
    if !is_rule(rule) {
        return Err(Rejection::BadRule);
    }
    let Problem {
        count,
        domains,
        bans,
    } = sheet_reader::decode(sheet)?;
    // all of it is made here: what is left of the empty network would be made apart, and moved
    let mut r = Network {
        count,
        rule,
        domains,
        bans,
        unsolvable: false,
        agents: [nobody(); 12],
        heads: [0; 12],
        counts: [0; 12],
        places: [nothing(); 1056],
    };
    // by number: an agent changes two arrays at its place, and places of its channels in a third
    for at in 0..count as usize {
        let i = at as u8 + 1;
        let own = AgentConfig {
            number: i,
            domain: domains[at],
            rule,
        };
        let agent = Agent::begin(own, listens(&bans, i), informs(&bans, count, i));
        r.agents[at] = agent;
        let mut row: u64 = 0;
        for k in Members(agent.informs) {
            r.places[place_at(channel_at(i, k), 0, 0)] = Place {
                message: Message::Info(agent.value),
            };
            row = with_digit(row, k, 1);
        }
        r.counts[at] = row;
    }
    Ok(r)
}

/// Returns the network that a start gives: the empty one where it was rejected.
pub fn rail_of(started: Result<Network, Rejection>) -> Network
    ensures rail { network_of result ≡ started_network started }
    ensures refused { IfErr started (λ _. result ≡ empty_record) }
{
    match started {
        Ok(network) => network,
        Err(_) => abt_record::empty(),
    }
}
