//! Worked picks, each printed with its wish, its answer, the count and the place.
use crate::judging::Pick;
use crate::sheets::{drafted, rail};
use abt_dispatch::{Dispatcher, Line, NO_LINE};
use abt_record::Network;
use abt_words::printing::Screen;

// ---- networks

// Three agents, each content with its first value: an Info waits on 1 to 2, 1 to 3 and 2 to 3, and
// calls for no answer.
fn three() -> Network {
    rail(
        drafted(&[2, 2, 2], &[(1, 1, 2, 2), (1, 1, 3, 2), (2, 1, 3, 2)]),
        1,
    )
}

// Two agents that cannot agree.
fn two() -> Network {
    rail(drafted(&[1, 1], &[(1, 1, 2, 1)]), 1)
}

fn one() -> Network {
    rail(drafted(&[1], &[]), 1)
}

// Four agents; with 2 to 3 and 3 to 2 delivered in turn, seven times, channel 2 to 4 holds eight,
// and a delivery 1 to 2 has no room.
fn crowded() -> Network {
    let bans = [
        (1, 1, 2, 8),
        (2, 1, 3, 1),
        (2, 2, 3, 1),
        (2, 3, 3, 1),
        (2, 4, 3, 1),
        (2, 5, 3, 1),
        (2, 6, 3, 1),
        (2, 7, 3, 1),
        (2, 1, 4, 1),
    ];
    let mut r = rail(drafted(&[1, 8, 1, 1], &bans), 1);
    for _ in 0..7 {
        r = abt::deliver(r, 2, 3).network;
        r = abt::deliver(r, 3, 2).network;
    }
    r
}

// Six agents whose run jams: messages wait, and none can be delivered.
fn stuck() -> Network {
    let bans = [
        (1, 1, 4, 1),
        (1, 2, 4, 1),
        (1, 3, 4, 1),
        (1, 4, 4, 2),
        (2, 1, 5, 1),
        (3, 1, 4, 2),
        (3, 1, 6, 1),
        (4, 2, 5, 2),
        (4, 2, 6, 2),
    ];
    abt::run(rail(drafted(&[4, 1, 1, 2, 2, 2], &bans), 1), 100).network
}

fn judged(r: Network) -> Network {
    Network {
        unsolvable: true,
        ..r
    }
}

// Out of shape.
fn broken(r: Network) -> Network {
    Network { rule: 3, ..r }
}

// ---- printing

// Both ends of a channel, behind a word.
fn put_ends(o: Screen, word: &[u8], line: Line) -> Screen {
    o.put(word)
        .number(u64::from(line.from))
        .put(b" ")
        .number(u64::from(line.to))
}

// A pick: its wish, its answer, and what it left.
fn put_pick(o: Screen, p: &Pick) -> Screen {
    let said = put_ends(o, b"  wish ", p.wish);
    let answered = match p.picked.answer {
        Ok(line) => {
            let wrong = if p.is_right() { "" } else { ", WRONG" };
            put_ends(said, b": delivered ", line).put(wrong.as_bytes())
        }
        Err(rejection) => {
            let left = if p.is_unchanged() {
                ", unchanged"
            } else {
                ", CHANGED"
            };
            let said = said
                .put(b": refused ")
                .number(u64::from(rejection.number()));
            said.put(left.as_bytes())
        }
    };
    let counted = answered.put(b", count ").number(p.picked.state.picks);
    put_ends(counted, b", place ", p.picked.state.place).put(b"\n")
}

// Picks with these wishes one behind the other.
fn put_picks(o: Screen, name: &[u8], dispatcher: Dispatcher, wishes: &[(u8, u8)]) -> Screen {
    let mut out = o.put(name).put(b"\n");
    let mut d = dispatcher;
    for (from, to) in wishes {
        let wish = Line {
            from: *from,
            to: *to,
        };
        let p = Pick::made(d, wish);
        out = put_pick(out, &p);
        d = p.picked.state;
    }
    out
}

// A dispatcher above a network, with this count and this place.
fn at(network: Network, picks: u64, from: u8, to: u8) -> Dispatcher {
    Dispatcher {
        network,
        picks,
        place: Line { from, to },
    }
}

// Zero picks, at no channel.
fn fresh(network: Network) -> Dispatcher {
    at(network, 0, NO_LINE.from, NO_LINE.to)
}

// ---- cases

fn put_wishes(o: Screen) -> Screen {
    let d = fresh(three());
    let name = b"a wish met, then an even pick, then an empty wish";
    let met = put_picks(o, name, d, &[(1, 3), (1, 3), (1, 3), (1, 3)]);
    let bad = put_picks(met, b"bad numbers", d, &[(0, 7)]);
    let equal = put_picks(bad, b"equal numbers", d, &[(1, 1)]);
    put_picks(equal, b"the highest numbers", d, &[(255, 255)])
}

fn put_rooms(o: Screen) -> Screen {
    let wishes = [(1, 2), (1, 2), (1, 2)];
    let first = put_picks(o, b"a wish without room", fresh(crowded()), &wishes);
    let none = [(1, 2), (0, 0)];
    put_picks(first, b"nothing has room", fresh(stuck()), &none)
}

fn put_places(o: Screen) -> Screen {
    let r = three();
    let behind = put_picks(o, b"behind the place", at(r, 1, 1, 2), &[(1, 2)]);
    let name = b"past the last line to the first";
    let round = put_picks(behind, name, at(r, 1, 2, 3), &[(2, 3)]);
    let name = b"an odd pick between two even ones";
    let wishes = [(2, 3), (2, 3), (2, 3)];
    let between = put_picks(round, name, at(r, 1, 3, 1), &wishes);
    let high = put_picks(between, b"a place beyond n", at(r, 1, 1, 9), &[(2, 3)]);
    put_picks(high, b"a place from 3 to 3", at(r, 1, 3, 3), &[(2, 3)])
}

fn put_counts(o: Screen) -> Screen {
    let top = at(three(), u64::MAX, 0, 0);
    let said = put_picks(o, b"the count at its top", top, &[(2, 3), (2, 3)]);
    let below = at(three(), u64::MAX - 1, 0, 0);
    put_picks(said, b"the count one below", below, &[(2, 3), (1, 3)])
}

fn put_refusals(o: Screen) -> Screen {
    let alone = put_picks(o, b"one scanner", fresh(one()), &[(1, 1)]);
    let wishes = [(1, 2), (1, 2), (1, 2)];
    let none = put_picks(alone, b"to the verdict", fresh(two()), &wishes);
    let name = b"a verdict where news waits";
    let over = put_picks(none, name, fresh(judged(three())), &[(1, 3)]);
    let d = at(broken(three()), 5, 2, 3);
    let shape = put_picks(over, b"out of shape", d, &[(1, 3)]);
    let d = fresh(broken(judged(three())));
    let both = put_picks(shape, b"out of shape under a verdict", d, &[(1, 3)]);
    put_picks(
        both,
        b"the empty rail",
        fresh(abt_record::empty()),
        &[(1, 2)],
    )
}

/// Prints all worked picks.
pub fn put_worked(o: Screen) -> Screen {
    put_refusals(put_counts(put_places(put_rooms(put_wishes(o)))))
}
