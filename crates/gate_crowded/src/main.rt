//! Tries networks whose channels are full: forged ones, and those that deliveries lead to which
//! starve an agent. Each delivery is held to a second count of the room that it needs, and made in
//! place too; each run is held to the same rounds, made delivery by delivery. Every failure is
//! printed; at the end stands how many of each kind were tried. tools/second_reading/expected works
//! these figures out. It stands on `abt` and `gate_random`. Start with `judging`.
#![tactic(auto)]

mod forging;
mod judging;
mod tallies;

use abt_packed::digit;
use abt_record::Network;
use abt_shape::places::ends_of;
use abt_words::printing::{Out, Screen};
use forging::forged;
use gate_random::drafts::random_draft;
use gate_random::draws::{next, pick};
use judging::{delivery_right, run_right};
use support_rejection::Rejection;
use tallies::Tally;

// A channel that holds something and does not lead to the starved agent: the first one from a
// random one on and round. One time in eight any two numbers from 0 to 13.
#[tactic(auto, using(abt_shape::proofs::Numbering::ends))]
fn chosen(rail: &Network, starved: u8, state: u64) -> Option<(u8, u8)> {
    let second = next(state);
    if pick(second, 8) == 0 {
        return Some((pick(state, 14) as u8, pick(next(second), 14) as u8));
    }
    for k in 0..132 {
        let (from, to) = ends_of((pick(state, 132) + k) % 132);
        if to != starved && digit(rail.counts[from as usize - 1], to) != 0 {
            return Some((from, to));
        }
    }
    None
}

// A network that has come about, and the generator's state.
#[derive(Clone, Copy)]
struct Trial {
    rail: Network,
    state: u64,
}

impl Tally {
    // Makes up to `most` deliveries in random order, none of them to the starved agent but by
    // chance: up to one that a verdict rejects, or until nothing else waits.
    fn try_list(&mut self, trial: Trial, starved: u8, most: usize) -> Trial {
        let Trial {
            mut rail,
            mut state,
        } = trial;
        for _ in 0..most {
            let Some((from, to)) = chosen(&rail, starved, state) else {
                break;
            };
            let answer = abt::deliver(rail, from, to);
            self.count_delivery(answer.rejection);
            let right = delivery_right(&rail, from, to, &answer);
            self.judge(right, b"a delivery, state ", state);
            rail = answer.network;
            state = next(next(next(state)));
            if answer.rejection == Some(Rejection::VerdictStands) {
                break;
            }
        }
        Trial { rail, state }
    }

    // Runs with up to three rounds, or one time in two with up to forty.
    fn try_run(&mut self, trial: Trial) -> Trial {
        let state = next(next(trial.state));
        let most = if pick(trial.state, 2) == 0 { 41 } else { 4 };
        let allowed = pick(next(trial.state), most) as u64;
        let answer = abt::run(trial.rail, allowed);
        self.count_run(answer.ending);
        self.rounds.add(answer.rounds);
        let right = run_right(trial.rail, allowed, &answer);
        self.judge(right, b"a run, state ", trial.state);
        Trial {
            rail: answer.network,
            state,
        }
    }

    // A run, a list of deliveries, and a run again.
    fn try_rail(&mut self, trial: Trial, starved: u8, most: usize) {
        self.rails.add(1);
        let first = self.try_run(trial);
        let listed = self.try_list(
            Trial {
                rail: trial.rail,
                ..first
            },
            starved,
            most,
        );
        self.try_run(listed);
    }
}

// Tries so many forged networks. None of their agents has number 13, so none starves.
fn try_forged(out: Screen, rails: usize) {
    let mut tally = Tally::new(out, b"forged rails");
    let mut state: u64 = 20030139;
    for _ in 0..rails {
        let f = forged(state);
        state = f.state;
        tally.judge(
            abt_record::in_shape(f.rail),
            b"a rail out of shape, state ",
            state,
        );
        let trial = Trial {
            rail: f.rail,
            state,
        };
        tally.try_rail(trial, 13, 60);
    }
    tally.report();
}

// Tries so many random sheets, under rule 1 and rule 2. One of the agents starves.
fn try_starved(out: Screen, sheets: usize) {
    let mut tally = Tally::new(out, b"rails with a starved scanner");
    let mut state: u64 = 20261127;
    for _ in 0..sheets {
        let d = random_draft(state);
        state = d.state;
        for rule in [1, 2] {
            if let Ok(rail) = abt_start::start(rule, d.sheet()) {
                let starved = 1 + pick(state, usize::from(rail.count)) as u8;
                tally.try_rail(Trial { rail, state }, starved, 120);
            }
        }
    }
    tally.report();
}

fn main(rt: HostRuntime) {
    try_forged(Out::new(rt.stdout()), 1000);
    try_starved(Out::new(rt.stdout()), 1000);
}
