//! The work on a network (rail): one delivery, or the rounds of a run, made by one function on the
//! network where it stands. It stands on `abt_record` (the network) and `abt_agent` (an agent's
//! step); `abt` states what its answers tell. Start at `work`, then the modules `lines` (the order
//! of a round's visits) and `tests` (what rejects a delivery). The rules are in docs/RULES.md,
//! 'Rounds and the run'.
#![tactic(auto)]

ghost use Rattle.std.specs.Prelude.{◌≡◌, ◌≤◌};
ghost use Rattle.abt_record.specs.Abstract.{network_of};
ghost use Rattle.abt_engine.specs.Tasks.{allowed_of, work_by};
ghost use Rattle.abt_engine.specs.Answers.{WorksAs};
ghost use Rattle.abt_engine.specs.Refused.{rejected_number};

mod lines;
mod tests;

use crate::lines::next_visit;
use crate::tests::{clear_unused, ending_at, first_rejection, waits};
use abt_agent::Envelopes;
use abt_choosing::{AgentConfig, Conflicts};
use abt_packed::{digit, one_further, one_less, one_more, with_digit};
use abt_record::{Network, Place};
use abt_shape::places::{channel_at, place_at, words_before};
use support_rejection::Rejection;

/// How a network stands after a call, and so how a run ends.
#[derive(Clone, Copy, Debug, PartialEq, Eq)]
pub enum Ending {
    /// The verdict `none` stands.
    Unsolvable,
    /// Nothing waits, and no verdict stands.
    Plan,
    /// Something waits, and the last whole round of a run delivered nothing.
    Jammed,
    /// Something waits, and a run has used its rounds, or the call was a delivery.
    Open,
    /// The network is not in shape: the call is rejected with 5.
    Broken,
}

/// What a call hands back.
#[derive(Clone, Copy, Debug, PartialEq, Eq)]
pub struct Answer {
    /// The network that the call leaves.
    pub network: Network,
    /// The full rounds made: those that delivered all that waited when they began. 0 of a delivery.
    pub rounds: u64,
    /// Why the call was rejected, if it was.
    pub rejection: Option<Rejection>,
    /// How the network stands.
    pub ending: Ending,
}

/// What is to be done.
#[derive(Clone, Copy, Debug, PartialEq, Eq)]
pub enum Task {
    /// One delivery, of the head of the channel between two agents. Any two numbers may stand here.
    Deliver { from: u8, to: u8 },
    /// Rounds, at most so many: 0 to 1,000,000.
    Run { allowed: u64 },
}

/// Does a task on a network, any at all. A run is allowed at most 1,000,000 rounds.
///
/// Rejects both tasks with `BadShape` (5) where the network is not in shape, and hands back the
/// very network given. Rejects a delivery also with `BadNumbers` (6), `VerdictStands` (7),
/// `EmptyChannel` (8) or `NoRoom` (10), tested in this order; the network handed back then equals
/// the one given, though unused places may differ. Equals `work_by` of specs/Tasks.antt.
///
/// A round is full if nothing that waited when it began was missed. A channel whose delivery finds
/// no room is passed over for the rest of the round, and after a verdict all channels are. A round
/// that delivers nothing ends the work: a delivery with `NoRoom`, a run with `Jammed`.
pub fn work(r: Network, task: Task) -> Answer
    requires allowed_bound { allowed_of task ≤ 1000000 }
    ensures works_as { WorksAs (work_by task (network_of r)) result }
    ensures network_value { rejected_number result.rejection ≡ 5 → result.network ≡ r }
{
    let mut o = r;
    // the answer is put together once, at the end: one at each of the three places would copy the
    // network once more, and a delivery would take a third longer
    let (rounds, rejection, ending) = 'answer: {
        if !o.is_in_shape() {
            break 'answer (0, Some(Rejection::BadShape), Ending::Broken);
        }
        o.counts = clear_unused(o.counts);
        let n = o.count;
        // `from` is the sender whose channels are visited, and `rest` has a digit for each receiver
        // yet to be visited: before its first round a run has none. `left` is how many rounds are
        // left. A delivery is one round of one visit, by the same loop; `once` tells the two apart
        // where a round ends: without room a delivery is rejected, and a run is jammed
        let (once, mut from, mut rest, mut left) = match task {
            Task::Deliver { from, to } => {
                if let Some(rejection) = first_rejection(n, o.unsolvable, &o.counts, from, to) {
                    break 'answer (
                        0,
                        Some(rejection),
                        ending_at(o.unsolvable, waits(&o.counts, n), false),
                    );
                }
                (true, from, one_more(0, to), 0)
            }
            Task::Run { allowed } => (false, n, 0, allowed),
        };
        let domains = o.domains;
        let bans = o.bans;
        // `conflicts` is what the agents' views bar, where it was worked out. `quota` is what each
        // channel held when the round began; `missed`, whether something of it was not delivered;
        // `stuck`, whether nothing was
        let mut conflicts: [Option<Conflicts>; 12] = [None; 12];
        let mut quota = [0u64; 12];
        let mut missed = true;
        let mut stuck = once;
        let mut made: u64 = 0;
        'rounds: loop {
            // a visit may strike out visits ahead, so the next one is looked for each time
            'visits: while let Some(visit) = next_visit(from, rest, &quota, n) {
                from = visit.from;
                rest = visit.rest;
                let to = visit.to;
                let at = to as usize - 1;
                let row = from as usize - 1;
                let head = digit(o.heads[row], to);
                let message = o.places[place_at(channel_at(from, to), head, 0)].message;
                let agent = o.agents[at];
                let words = words_before(to);
                let own = AgentConfig {
                    number: to,
                    domain: domains[at],
                    rule: o.rule,
                };
                let mine = &bans[words..words + at];
                let barred = match conflicts[at] {
                    Some(known) => known,
                    None => Conflicts::of(agent.view.digits, own, mine),
                };
                // stored before the step, so that it is not worked out again where the step finds no
                // room
                conflicts[at] = Some(barred);
                let step = agent.receive(own, mine, barred, from, message);
                // half of the steps of a long run are still: they send nothing, and their Backs
                // are not moved
                if !step.still {
                    let mut now = o.counts[at];
                    // made here: a method that is lent the step would keep it in memory, and a long
                    // run would take a sixth longer
                    let backs = step.backs;
                    let letters = Envelopes {
                        outbox: step.outbox,
                        backs: &backs,
                    };
                    'posts: for post in letters {
                        let waiting = digit(now, post.to);
                        if 8 <= waiting {
                            rest = with_digit(rest, to, 0);
                            missed = true;
                            continue 'visits;
                        }
                        let end = place_at(
                            channel_at(to, post.to),
                            digit(o.heads[at], post.to),
                            waiting,
                        );
                        o.places[end] = Place {
                            message: post.message,
                        };
                        now = one_more(now, post.to);
                    }
                    o.counts[at] = now;
                }
                step.agent.put(&mut o.agents[at], step.still);
                o.heads[row] = one_further(o.heads[row], to);
                o.counts[row] = one_less(o.counts[row], to);
                conflicts[at] = Some(step.conflicts);
                o.unsolvable = step.unsolvable;
                stuck = false;
                if step.unsolvable {
                    missed |= next_visit(from, rest, &quota, n).is_some();
                    from = n;
                    rest = 0;
                }
            }
            if !missed {
                made += 1;
            }
            let waits = waits(&o.counts, n);
            if o.unsolvable || stuck || !waits || left == 0 {
                let rejection = if once && stuck {
                    Some(Rejection::NoRoom)
                } else {
                    None
                };
                break 'answer (
                    made,
                    rejection,
                    ending_at(o.unsolvable, waits, !once && stuck),
                );
            }
            left -= 1;
            quota = o.counts;
            missed = false;
            stuck = true;
            from = 0;
            rest = 0;
        }
    };
    Answer {
        network: o,
        rounds,
        rejection,
        ending,
    }
}
