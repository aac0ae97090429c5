//! The checks: what a line finds on the network of the case under hand, and what it must find.
use crate::rails::{Channel, same_rail};
use abt_agent::Message;
use abt_engine::Ending;
use abt_record::Network;
use abt_words::printing::Screen;
use abt_words::word_for;
use gate_script::kinds::Kind;
use gate_script::lines::{Line, Numbers};
use gate_script::sheets::{Sheet, blank, with_line};
use support_rejection::Rejection;

/// What a line finds.
#[derive(Clone, Copy)]
pub struct Found {
    /// The number, if it looks for one.
    pub number: Option<u64>,
    /// Whether all else is as the line says.
    pub right: bool,
}

/// The sheet and the network of the case under hand, the network kept beside, and what is printed.
#[derive(Clone, Copy)]
pub struct Desk {
    sheet: Sheet,
    rail: Network,
    kept: Network,
    pub out: Screen,
}

// ---- looking at a network

// Agent k has the value that the line gives; or the line gives none, as there is no such agent, and
// asking is rejected.
fn slot_right(rail: &Network, k: u8, must: Option<u64>) -> bool {
    match abt_record::value(*rail, k) {
        Ok(slot) => must == Some(u64::from(slot)),
        Err(rejection) => must.is_none() && rejection == Rejection::BadNumbers,
    }
}

// The channel that a line of the text names, if there is such a channel.
fn channel_in(n: Numbers) -> Option<Channel> {
    Channel::between(n.small(0), n.small(1))
}

// ---- run and delivery

// The line names the word for how a run ended, behind `run`: the first letter tells. A run on a
// network out of shape has no word, and a blank stands for it.
fn names(text: &[u8], e: Ending) -> bool {
    text.len() > 4 && *word_for(e).first().unwrap_or(&b' ') == text[4]
}

fn number_of(rejection: Rejection) -> u64 {
    u64::from(rejection.number())
}

impl Desk {
    /// Begins with a blank sheet and empty networks, and prints to `out`.
    pub fn new(out: Screen) -> Desk {
        Desk {
            sheet: blank(),
            rail: abt_record::empty(),
            kept: abt_record::empty(),
            out,
        }
    }

    // Starts the sheet under the rule that is number k of the line, or rule 1. If the sheet is
    // accepted the network must hold the rule, and otherwise be empty.
    fn start(&mut self, n: Numbers, k: usize) -> Found {
        let rule = n.get(k).map_or(1, |rule| (rule % 256) as u8);
        let answer = abt_start::start(rule, self.sheet.as_bytes());
        self.rail = abt_start::rail_of(answer);
        Found {
            number: answer.err().map(number_of),
            right: match answer {
                Ok(rail) => rail.rule == rule,
                Err(_) => same_rail(&self.rail, &abt_record::empty()),
            },
        }
    }

    // Runs with as many rounds as the line's second number says, or 100,000. Where the line names
    // another word, the one that came is printed.
    fn run(&mut self, line: Line<'_>) -> Found {
        let answer = abt::run(self.rail, line.numbers.get(1).unwrap_or(100000));
        let right = names(line.text, answer.ending);
        if !right {
            let said = self.out.put(b"the run's word is ");
            self.out = said.ending(answer.ending).put(b"\n");
        }
        self.rail = answer.network;
        Found {
            number: Some(answer.rounds),
            right,
        }
    }

    fn deliver(&mut self, n: Numbers) -> Found {
        let answer = abt::deliver(self.rail, n.small(0), n.small(1));
        self.rail = answer.network;
        Found {
            number: answer.rejection.map(number_of),
            right: true,
        }
    }

    // The first agent whose value is not the line's, and none where all twelve are right.
    fn wrong_slot(&self, n: Numbers) -> Option<u64> {
        for k in 0..12_u8 {
            if !slot_right(&self.rail, k + 1, n.get(k as usize)) {
                return Some(u64::from(k) + 1);
            }
        }
        None
    }

    // The first agent whose last value is not the line's: an agent for which the line gives none
    // took none.
    fn wrong_last(&self, n: Numbers) -> Option<u64> {
        for (k, agent) in self.rail.agents.iter().enumerate() {
            if u64::from(agent.last) != n.get(k).unwrap_or(0) {
                return Some(k as u64 + 1);
            }
        }
        None
    }

    // How many messages wait on the channel that a line of the text names; 0 where there is no such
    // channel.
    fn waiting(&self, n: Numbers) -> u64 {
        channel_in(n).map_or(0, |line| u64::from(line.held(&self.rail)))
    }

    // Where a line of the text has a fourth number, all that waits on the channel is an Info of
    // this value.
    fn news_right(&self, n: Numbers) -> bool {
        let news = Message::Info(n.small(3));
        n.get(3).is_none() || channel_in(n).is_some_and(|line| line.holds_only(&self.rail, news))
    }

    // Looks at the network as it lies.
    fn look(&self, kind: Kind, n: Numbers) -> Found {
        Found {
            number: match kind {
                Kind::Taken => self.wrong_slot(n),
                Kind::Last => self.wrong_last(n),
                Kind::Line => Some(self.waiting(n)),
                Kind::Same | Kind::Differs => Some(u64::from(same_rail(&self.rail, &self.kept))),
                _ => None,
            },
            right: kind != Kind::Line || self.news_right(n),
        }
    }

    // What a line finds on the network. A line that is not understood is never right.
    fn check(&mut self, line: Line<'_>) -> Found {
        let n = line.numbers;
        match line.kind {
            Some(Kind::Start) => self.start(n, 0),
            Some(Kind::Refused) => self.start(n, 1),
            Some(Kind::Run) => self.run(line),
            Some(Kind::Deliver) => self.deliver(n),
            Some(kind) => self.look(kind, n),
            None => Found {
                number: None,
                right: false,
            },
        }
    }

    /// Follows a line, which builds on the sheet, checks something, or keeps the network, and
    /// returns what it finds.
    pub fn follow(&mut self, line: Line<'_>) -> Found {
        self.sheet = with_line(self.sheet, line);
        if line.kind == Some(Kind::Keep) {
            self.kept = self.rail;
        }
        self.check(line)
    }
}

/// The number that the line must find: a rejection's for a sheet and a delivery, None where it is
/// accepted; a run's full rounds; how many messages a channel holds; 1 for `same` and 0 for
/// `differs`; None for a line of values, where no agent's is wrong.
pub fn expected(line: Line<'_>) -> Option<u64> {
    match line.kind? {
        Kind::Same => Some(1),
        Kind::Differs => Some(0),
        Kind::Refused | Kind::Run => line.numbers.get(0),
        Kind::Deliver | Kind::Line => line.numbers.get(2),
        _ => None,
    }
}
