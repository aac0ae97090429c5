//! Tries the dispatcher: worked picks, a line for each, and random wishes on random networks. Each
//! random pick is held to a second computation of the channel that it must serve, of its count, its
//! place and the network that it leaves; and every channel that can be delivered all the time is
//! watched to be served in time. Failures are printed; at the end stands how many of each kind were
//! tried. It tries `abt_dispatch`. Start with `judging`.
#![tactic(auto)]

mod draws;
mod judging;
mod sheets;
mod watching;
mod worked;

use abt_dispatch::{Dispatcher, Line};
use abt_words::printing::{Out, Screen};
use draws::draw;
use gate_random::draws::next;
use judging::Pick;
use sheets::{rail, random_sheet};
use support_rejection::Rejection;
use watching::{Watch, none_waited, with_pick};
use worked::put_worked;

// How many picks served the wish, went round, or were rejected with 7, 8 and 10; networks played,
// failures, and the longest wait.
#[derive(Clone, Copy, Default)]
struct Tally {
    rails: u64,
    wishes: u64,
    rounds: u64,
    verdicts: u64,
    rests: u64,
    stuck: u64,
    failures: u64,
    longest: u64,
}

// One more, where it holds.
fn more(n: u64, holds: bool) -> u64 {
    n.saturating_add(u64::from(holds))
}

// Counts a pick by its answer and by whether it served the wish; and whether it was right.
fn with_answer(t: Tally, answer: Result<Line, Rejection>, wished: bool, good: bool) -> Tally {
    Tally {
        wishes: more(t.wishes, answer.is_ok() && wished),
        rounds: more(t.rounds, answer.is_ok() && !wished),
        verdicts: more(t.verdicts, answer == Err(Rejection::VerdictStands)),
        rests: more(t.rests, answer == Err(Rejection::EmptyChannel)),
        stuck: more(t.stuck, answer == Err(Rejection::NoRoom)),
        failures: more(t.failures, !good),
        ..t
    }
}

// Counts a network that is done with; one whose channel was served too late has failed.
fn with_rail(t: Tally, w: Watch) -> Tally {
    Tally {
        rails: more(t.rails, true),
        failures: more(t.failures, w.late),
        longest: t.longest.max(w.longest),
        ..t
    }
}

// ---- one network

// The dispatcher at work, and what has come of it.
#[derive(Clone, Copy)]
struct Play {
    dispatcher: Dispatcher,
    watch: Watch,
    tally: Tally,
    state: u64,
}

// Two of n agents, which may be one; one time in eight any two numbers from 0 to 7.
fn wish(n: u8, state: u64) -> Line {
    let second = next(state);
    let third = next(second);
    if draw(third, 8) == 0 {
        Line {
            from: draw(state, 8),
            to: draw(second, 8),
        }
    } else {
        Line {
            from: draw(state, n) + 1,
            to: draw(second, n) + 1,
        }
    }
}

// With what has come of one pick more.
fn with_played(p: Play, pick: &Pick) -> Play {
    let answer = pick.picked.answer;
    let wished = pick.before.picks % 2 == 0 && answer == Ok(pick.wish);
    Play {
        dispatcher: pick.picked.state,
        watch: with_pick(p.watch, pick.before.network, answer.ok()),
        tally: with_answer(p.tally, answer, wished, pick.is_right()),
        state: next(next(next(p.state))),
    }
}

// Makes up to `most` picks, up to one that is rejected.
fn played(play: Play, most: usize) -> Play {
    let mut p = play;
    for _ in 0..most {
        let wish = wish(p.dispatcher.network.count, p.state);
        let pick = Pick::made(p.dispatcher, wish);
        p = with_played(p, &pick);
        if pick.picked.answer.is_err() {
            break;
        }
    }
    p
}

// Where a dispatcher's count begins: most often at zero or one, else at the top or just below.
fn first_count(state: u64) -> u64 {
    match draw(state, 8) {
        0 => u64::MAX,
        1 => u64::MAX - 1,
        2 => u64::MAX - 2,
        3 => 1,
        _ => 0,
    }
}

// ---- all networks

// Tally and generator.
#[derive(Clone, Copy)]
struct Trial {
    tally: Tally,
    state: u64,
}

// A random network by either rule, from any place on.
fn with_random(t: Trial) -> Trial {
    let d = random_sheet(t.state);
    let a = next(d.state);
    let b = next(a);
    let c = next(b);
    let e = next(c);
    let dispatcher = Dispatcher {
        network: rail(d.draft, draw(e, 2) + 1),
        picks: first_count(a),
        place: Line {
            from: draw(b, 8),
            to: draw(c, 8),
        },
    };
    let begun = Play {
        dispatcher,
        watch: none_waited(),
        tally: t.tally,
        state: next(e),
    };
    let p = played(begun, 150);
    Trial {
        tally: with_rail(p.tally, p.watch),
        state: p.state,
    }
}

// Plays so many networks, from a fixed seed.
fn tried(rails: usize) -> Tally {
    let mut t = Trial {
        tally: Tally::default(),
        state: 20030139,
    };
    for _ in 0..rails {
        t = with_random(t);
    }
    t.tally
}

fn report(o: Screen, t: Tally) -> Screen {
    o.line(b"rails ", t.rails)
        .line(b"wishes served ", t.wishes)
        .line(b"lines served in turn ", t.rounds)
        .line(b"refused 7: ", t.verdicts)
        .line(b"refused 8: ", t.rests)
        .line(b"refused 10: ", t.stuck)
        .line(
            b"longest wait of a line that could be delivered ",
            t.longest,
        )
        .number(t.failures)
        .put(b" failed\n")
}

fn main(rt: HostRuntime) {
    report(put_worked(Out::new(rt.stdout())), tried(3000));
}
