//! Forged networks, each one change away from one in shape, and what the public calls say of each:
//! a line for each case. It prints the test of the shape; a delivery from 2 to 3, a run with one
//! round and asking the value of agent 1, each with the number that it answers; and of a rejected
//! call whether it hands back the network given, in every field. Start with `forging`.
#![tactic(auto)]

mod forging;

use abt_agent::Message;
use abt_engine::Answer;
use abt_packed::digit;
use abt_record::Network;
use abt_words::printing::{Out, Screen};
use forging::Part::{Domain, Informs, Last, Listens, Received, Sent, Settled, Value, View};
use forging::Row::{Head, Held};
use forging::{
    back, counts, far_back, good, uninformed, unlinked, with, with_bans, with_count, with_message,
    with_nogood, with_row, with_rule, with_verdict,
};
use support_rejection::Rejection;

// ---- printing

fn put_shape(o: Screen, r: &Network) -> Screen {
    let shape = if r.is_in_shape() {
        "in shape"
    } else {
        "broken"
    };
    o.put(b": ").put(shape.as_bytes())
}

// What a call answers: the rejection's number, and whether it hands back the network given; 0 for a
// call that nothing rejects.
fn put_answer(o: Screen, before: &[u8], a: &Answer, given: &Network) -> Screen {
    let o = o.put(before);
    match a.rejection {
        None => o.number(0),
        Some(rejection) => {
            let kept = if a.network == *given {
                ", as given"
            } else {
                ", CHANGED"
            };
            o.number(u64::from(rejection.number())).put(kept.as_bytes())
        }
    }
}

// ---- the cases

// What is printed, and the network in shape that each case is one change away from.
#[derive(Clone, Copy)]
struct Cases<'a> {
    out: Screen,
    good: &'a Network,
}

impl<'a> Cases<'a> {
    // One case. The comparison has to tell it from the good network too.
    fn case(self, name: &str, r: &Network) -> Cases<'a> {
        let shape = put_shape(self.out.put(name.as_bytes()), r);
        let delivery = put_answer(shape, b"; delivery ", &abt::deliver(*r, 2, 3), r);
        let ran = put_answer(delivery, b"; run ", &abt::run(*r, 1), r);
        let value = abt_record::value(*r, 1).err().map_or(0, Rejection::number);
        let end = if r == self.good {
            "; no change\n"
        } else {
            "\n"
        };
        Cases {
            out: ran
                .put(b"; value ")
                .number(u64::from(value))
                .put(end.as_bytes()),
            ..self
        }
    }

    // A line for each.
    fn all(self, named: &[(&str, Network)]) -> Cases<'a> {
        let mut cases = self;
        for (name, r) in named {
            cases = cases.case(name, r);
        }
        cases
    }

    // What a network may hold.
    fn free(self) -> Cases<'a> {
        let g = self.good;
        let valueless = with(*g, 0, Value(0));
        let top = 18446744073709551615;
        let talkative = with(*g, 2, Sent(counts(top, 7, 0)));
        let named = [
            ("good", *g),
            ("rule 2", with_rule(*g, 2)),
            ("no value under the verdict", with_verdict(valueless)),
            (
                "no value under the verdict, and the other one the last",
                with_verdict(with(valueless, 0, Last(2))),
            ),
            (
                "counts of any size",
                with(talkative, 1, Received(counts(0, top - 1, top))),
            ),
        ];
        self.all(&named)
    }

    // What is no part of a network.
    fn unread(self) -> Cases<'a> {
        let g = self.good;
        let named = [
            (
                "a left side beside no nogood",
                with_nogood(*g, 2, 1, false, 0x270f),
            ),
            ("an unused place", with_message(*g, 0, back(0x270f, 9))),
            ("a head beyond the ring", with_row(*g, Head, 1, 3, 11)),
            ("a head of 15", with_row(*g, Head, 1, 3, 15)),
            ("a head beyond agent 12", with_row(*g, Head, 1, 13, 5)),
            ("a count of no line", with_row(*g, Held, 2, 2, 9)),
            ("a count beyond agent 12", with_row(*g, Held, 2, 13, 9)),
        ];
        self.all(&named)
    }

    // n, the rule, the domains, the bans.
    fn problems(self) -> Cases<'a> {
        let g = self.good;
        let named = [
            ("empty", abt_record::empty()),
            ("13 agents", with_count(*g, 13)),
            ("255 agents", with_count(*g, 255)),
            ("rule 0", with_rule(*g, 0)),
            ("rule 3", with_rule(*g, 3)),
            ("rule 255", with_rule(*g, 255)),
            ("no values", with(*g, 1, Domain(0))),
            ("9 values", with(*g, 1, Domain(9))),
            ("255 values", with(*g, 1, Domain(255))),
            ("values beyond n", with(*g, 3, Domain(1))),
            (
                "a ban on the lower agent's value 3",
                with_bans(*g, 1, 65537),
            ),
            ("a ban on the higher agent's value 3", with_bans(*g, 1, 5)),
            ("a ban beyond n", with_bans(*g, 3, 1)),
        ];
        self.all(&named)
    }

    // The value an agent holds.
    fn values(self) -> Cases<'a> {
        let g = self.good;
        let named = [
            ("a value not owned", with(*g, 0, Settled(3))),
            ("no value", with(*g, 0, Value(0))),
            (
                "a value not owned under the verdict",
                with_verdict(with(*g, 0, Settled(3))),
            ),
        ];
        self.all(&named)
    }

    // The last value that an agent took.
    fn lasts(self) -> Cases<'a> {
        let g = self.good;
        let valueless = with(*g, 0, Value(0));
        let named = [
            ("no last value", with(*g, 0, Last(0))),
            (
                "a last value that is not the one held",
                with(*g, 0, Last(2)),
            ),
            (
                "a last value that is not the one held under the verdict",
                with_verdict(with(*g, 0, Last(2))),
            ),
            (
                "no value and no last value under the verdict",
                with_verdict(with(valueless, 0, Last(0))),
            ),
            (
                "no value and a last value not owned under the verdict",
                with_verdict(with(valueless, 0, Last(3))),
            ),
        ];
        self.all(&named)
    }

    // Whom an agent listens to and informs.
    fn sets(self) -> Cases<'a> {
        let g = self.good;
        let named = [
            ("listens to itself", with(*g, 2, Listens(0b111))),
            ("listens downward", with(*g, 1, Listens(0b100))),
            ("listens to agent 13", with(*g, 2, Listens(0b1000000000011))),
            (
                "listens to agent 16",
                with(*g, 2, Listens(0b1000000000000011)),
            ),
            ("informs itself", with(*g, 1, Informs(0b110))),
            ("informs upward", with(*g, 1, Informs(0b101))),
            ("informs beyond n", with(*g, 1, Informs(0b1100))),
            ("informs agent 16", with(*g, 1, Informs(0b1000000000000100))),
            ("banned and not listening", with(*g, 2, Listens(0b10))),
            ("banned and not informing", with(*g, 0, Informs(0))),
            ("informed and not listening", with(*g, 0, Informs(0b110))),
        ];
        self.all(&named)
    }

    // Views and nogoods.
    fn views(self) -> Cases<'a> {
        let g = self.good;
        let named = [
            ("a view of one not listened to", with(*g, 1, View(0x1))),
            ("a view with a value not owned", with(*g, 2, View(0x31))),
            ("a view of agent 13", with(*g, 2, View(0x1000000000011))),
            ("a view of agent 16", with(*g, 2, View(0x1000000000000011))),
            (
                "a nogood against the view",
                with_nogood(*g, 2, 0, true, 0x2),
            ),
            (
                "a nogood of agent 13",
                with_nogood(*g, 2, 0, true, 0x1000000000001),
            ),
            (
                "a nogood of agent 16",
                with_nogood(*g, 2, 0, true, 0x1000000000000001),
            ),
            (
                "a nogood at a value not owned",
                with_nogood(*g, 2, 2, true, 0x0),
            ),
        ];
        self.all(&named)
    }

    // An agent beyond n.
    fn beyond(self) -> Cases<'a> {
        let g = self.good;
        let named = [
            ("a value beyond n", with(*g, 3, Value(1))),
            ("a last value beyond n", with(*g, 3, Last(1))),
            ("listens beyond n", with(*g, 3, Listens(0b1))),
            ("agent 4 informs", with(*g, 3, Informs(0b10000))),
            ("a view beyond n", with(*g, 3, View(0x1))),
            ("a nogood beyond n", with_nogood(*g, 3, 0, true, 0x0)),
            ("news sent beyond n", with(*g, 3, Sent(counts(1, 0, 0)))),
            (
                "a refusal sent beyond n",
                with(*g, 3, Sent(counts(0, 1, 0))),
            ),
            (
                "a link asked for beyond n",
                with(*g, 3, Sent(counts(0, 0, 1))),
            ),
            (
                "news received beyond n",
                with(*g, 3, Received(counts(1, 0, 0))),
            ),
            (
                "a refusal received beyond n",
                with(*g, 3, Received(counts(0, 1, 0))),
            ),
            (
                "a link request received beyond n",
                with(*g, 3, Received(counts(0, 0, 18446744073709551615))),
            ),
            (
                "a message from beyond n",
                with_row(with_message(*g, 264, Message::AddLink), Held, 4, 1, 1),
            ),
        ];
        self.all(&named)
    }

    // Full channels, and Info.
    fn news(self) -> Cases<'a> {
        let g = self.good;
        let named = [
            ("nine messages", with_row(*g, Held, 1, 3, 9)),
            ("fifteen messages", with_row(*g, Held, 1, 3, 15)),
            ("Info upward", with_message(*g, 176, Message::Info(1))),
            (
                "Info of a value not owned",
                with_message(*g, 96, Message::Info(3)),
            ),
            ("Info of no value", with_message(*g, 96, Message::Info(0))),
            (
                "Info to one not listening",
                with_row(with_message(*g, 0, Message::Info(1)), Held, 1, 2, 1),
            ),
        ];
        self.all(&named)
    }

    // Back and AddLink.
    fn refusals(self) -> Cases<'a> {
        let g = self.good;
        let named = [
            ("Back downward", with_message(*g, 96, back(0x0, 1))),
            (
                "Back of a value not owned",
                with_message(*g, 184, back(0x1, 3)),
            ),
            ("Back of no value", with_message(*g, 184, back(0x1, 0))),
            (
                "Back from one not listening",
                with_row(with_message(*g, 88, back(0x0, 1)), Held, 2, 1, 1),
            ),
            (
                "Back that names the receiver",
                with_message(*g, 184, back(0x10, 1)),
            ),
            (
                "Back that names a value not owned",
                with_message(*g, 184, back(0x3, 1)),
            ),
            (
                "Back that names agent 4, beyond n",
                with_message(*g, 184, back(0x1001, 1)),
            ),
            (
                "Back that names agent 12, beyond n",
                with_message(*g, 184, far_back(1)),
            ),
            ("AddLink downward", with_message(*g, 96, Message::AddLink)),
            (
                "AddLink from one not listening",
                with_row(with_message(*g, 88, Message::AddLink), Held, 2, 1, 1),
            ),
        ];
        self.all(&named)
    }

    // A channel holds at most one AddLink, and none from an agent that the receiver informs
    // already. The ring of channel 3 to 2 begins at place 184: `one` has a Back there, then an
    // AddLink; `apart` an AddLink, then two Backs, round the ring's end.
    fn requests(self) -> Cases<'a> {
        let g = self.good;
        let u = unlinked();
        let one = with_message(u, 185, Message::AddLink);
        let ring = with_message(
            with_row(with_row(u, Held, 3, 2, 3), Head, 3, 2, 6),
            191,
            back(0x1, 1),
        );
        let apart = with_message(ring, 190, Message::AddLink);
        let named = [
            ("AddLink from one not informed", one),
            (
                "AddLink from one that another agent informs",
                with(one, 0, Informs(0b100)),
            ),
            (
                "AddLink from one informed already",
                with(one, 1, Informs(0b100)),
            ),
            (
                "AddLinks on two channels",
                with_message(one, 176, Message::AddLink),
            ),
            (
                "AddLink, and one in an unused place",
                with_message(one, 186, Message::AddLink),
            ),
            (
                "two AddLinks on one channel",
                with_message(one, 184, Message::AddLink),
            ),
            ("AddLink and two Backs", apart),
            (
                "two AddLinks on one channel, a Back between them",
                with_message(apart, 184, Message::AddLink),
            ),
        ];
        self.all(&named)
    }
}

// What waits on channel 2 to 3, whose ring begins at place 96: how many messages, and the head.
fn put_line(o: Screen, r: &Network) -> Screen {
    let held = digit(r.counts[1], 3);
    let o = o.put(b"; line 2 to 3 holds ").number(u64::from(held));
    if held == 0 {
        return o;
    }
    match r.places[96].message {
        Message::Info(v) => o.put(b", news of ").number(u64::from(v)),
        Message::Back(v, _) => o.put(b", a refusal of ").number(u64::from(v)),
        Message::AddLink => o.put(b", a link request"),
    }
}

// A Back from an agent that its receiver does not inform: under rule 2 the sender is told all the
// same.
fn refuser(o: Screen, name: &str, r: &Network) -> Screen {
    let shape = put_shape(o.put(name.as_bytes()), r);
    let answer = abt::deliver(*r, 3, 2);
    let delivery = put_answer(shape, b"; delivery ", &answer, r);
    put_line(delivery, &answer.network).put(b"\n")
}

fn refusers(o: Screen) {
    let named = [
        ("a refuser not informed, rule 1", uninformed(1, 1)),
        (
            "a refuser not informed, rule 1, another value",
            uninformed(1, 2),
        ),
        ("a refuser not informed, rule 2", uninformed(2, 1)),
        (
            "a refuser not informed, rule 2, another value",
            uninformed(2, 2),
        ),
    ];
    let mut o = o;
    for (name, r) in &named {
        o = refuser(o, name, r);
    }
}

fn main(rt: HostRuntime) {
    let cases = Cases {
        out: Out::new(rt.stdout()),
        good: &good(),
    };
    let cases = cases.free().unread().problems().values().lasts().sets();
    let cases = cases.views().beyond().news().refusals().requests();
    refusers(cases.out);
}
