//! Tries the dock on random sheets, each under rule 1 and then, with the same rounds allowed and
//! the same random numbers for its deliveries, under rule 2. Each sheet must be rejected with the
//! number that a second reading gives, or accepted. On those accepted the run's word and random
//! lists of deliveries are held to an exhaustive search: at rest the values obey all bans, and at
//! the verdict no assignment does. Every failure is printed with its rule and sheet; at the end
//! stands how many of each kind were tried, under both rules together. It tries `abt` by
//! `gate_second_reading`. Start with `tallies`.
#![tactic(auto)]

mod tallies;

use abt_engine::Ending;
use abt_record::Network;
use abt_words::printing::{Out, Screen};
use gate_random::drafts::random_draft;
use gate_random::draws::{next, pick};
use gate_random::rails::{at_rest, play_random};
use gate_second_reading::assigned::assigned_choice;
use gate_second_reading::reading::Sheet;
use tallies::{Tally, Trial};

// The rounds that a run may use: 1,000, or one time in eight up to seven.
fn allowed(state: u64) -> u64 {
    if pick(state, 8) == 0 {
        pick(next(state), 8) as u64
    } else {
        1000
    }
}

// In these functions `found` says whether there is a plan, by the search.
impl Tally {
    // Tries how a run ends: right where a plan settles the sheet, and where the search finds
    // nothing for `none`.
    fn try_run(&mut self, trial: Trial, rail: Network, state: u64, found: bool) {
        let out = abt::run(rail, allowed(state));
        match out.ending {
            Ending::Plan => {
                self.plans.add(1);
                let right = trial.sheet.settles(assigned_choice(out.network));
                self.judge(trial, right, b"a plan that breaks a ban:");
            }
            Ending::Unsolvable => {
                self.nones.add(1);
                self.judge(trial, !found, b"none, where there is a plan:");
            }
            Ending::Jammed => self.jammed.add(1),
            Ending::Open => self.open.add(1),
            Ending::Broken => {
                self.open.add(1);
                self.judge(trial, false, b"a start out of shape:");
            }
        }
    }

    // Tries what a list of deliveries comes to.
    fn try_list(&mut self, trial: Trial, rail: Network, state: u64, found: bool) {
        let l = play_random(rail, state, 200);
        self.accepted.add(l.accepted);
        self.refusals.add(l.refused);
        if l.rail.unsolvable {
            self.at_verdict.add(1);
            self.judge(trial, !found, b"a verdict, where there is a plan:");
        } else if at_rest(l.rail) {
            self.at_rest.add(1);
            let right = trial.sheet.settles(assigned_choice(l.rail));
            self.judge(trial, right, b"a rest that breaks a ban:");
        } else {
            self.cut_short.add(1);
        }
        self.judge(trial, l.wrong == 0, b"a delivery with a wrong number:");
    }

    // Tries a sheet under a rule: it is rejected with the right number, or its network is run and
    // delivered on.
    fn try_sheet(&mut self, trial: Trial, state: u64) {
        let sheet = trial.sheet;
        let started = abt_start::start(trial.rule, sheet.bytes);
        let right = match (started, sheet.fault()) {
            (Ok(_), None) => true,
            (Err(rejection), Some(fault)) => rejection.number() == fault.number(),
            _ => false,
        };
        self.sheets.add(1);
        self.judge(trial, right, b"a sheet that is not refused as it must be:");
        match started {
            Ok(rail) => {
                if sheet.of_gaps() {
                    self.gaps.add(1);
                }
                let found = sheet.solvable();
                self.try_run(trial, rail, state, found);
                self.try_list(trial, rail, next(state), found);
            }
            Err(rejection) => self.refuse(rejection),
        }
    }
}

// Tries so many sheets, from a fixed seed, each under either rule.
fn tried(out: Screen, sheets: usize) -> Tally {
    let mut t = Tally::new(out);
    let mut state: u64 = 20030139;
    for _ in 0..sheets {
        let d = random_draft(state);
        state = d.state;
        let sheet = Sheet { bytes: d.sheet() };
        for rule in 1..=2 {
            t.try_sheet(Trial { rule, sheet }, state);
        }
    }
    t
}

fn main(rt: HostRuntime) {
    tried(Out::new(rt.stdout()), 10000).report();
}
