//! Networks that no start leads to: in shape, with many messages on their channels. Two to five
//! agents have one to five values each; of two agents the higher listens to the lower five times in
//! six, and is informed four times in six.
ghost use Rattle.std.specs.Prelude.{◌-◌, ◌≤◌, ◌<◌};

use abt_agent::{Message, PackedAssignment};
use abt_packed::{add, digit, has, one_more, with_digit};
use abt_record::{Network, Place};
use abt_shape::places::{ends_of, place_at, words_before};
use gate_random::draws::{next, pick};

/// A network that is being forged, and the generator's state.
#[derive(Clone, Copy)]
pub struct Forge {
    pub rail: Network,
    pub state: u64,
}

impl Forge {
    // Moves the generator on, and picks a number.
    fn pick(&mut self, below: usize) -> usize
        ensures { result ≤ below - 1 }
    {
        self.state = next(self.state);
        pick(self.state, below)
    }

    // A value of agent i.
    fn slot(&mut self, i: u8) -> u8
        requires { (1 ≤ i) × (i ≤ 12) }
        ensures { result ≤ 8 }
    {
        let slots = self.rail.domains[i as usize - 1];
        1 + (self.pick(usize::from(slots)) % 8) as u8
    }

    // A value of agent i, or 0.
    fn slot_or_none(&mut self, i: u8) -> u8
        requires { (1 ≤ i) × (i ≤ 12) }
        ensures { result < 8 }
    {
        let slots = self.rail.domains[i as usize - 1];
        (self.pick(usize::from(slots) + 1) % 8) as u8
    }

    // ---- agents

    // Agent i has one to five values, and holds one of them.
    fn set_scanner(&mut self, i: u8)
        requires { (1 ≤ i) × (i ≤ 12) }
    {
        let at = i as usize - 1;
        self.rail.domains[at] = 1 + (self.pick(5) % 8) as u8;
        let value = self.slot(i);
        self.rail.agents[at].value = value;
        self.rail.agents[at].last = value;
    }

    // The higher agent listens to the lower one, and may know its value.
    fn set_listening(&mut self, lower: u8, higher: u8)
        requires { (1 ≤ lower) × (lower ≤ 12) × (1 ≤ higher) × (higher ≤ 12) }
    {
        let seen = self.slot_or_none(lower);
        let listener = &mut self.rail.agents[higher as usize - 1];
        listener.listens = add(listener.listens, lower);
        listener.view.digits = with_digit(listener.view.digits, lower, seen);
    }

    // One pair of values in three is banned.
    fn set_bans(&mut self, lower: u8, higher: u8)
        requires { (1 ≤ lower) × (lower ≤ 11) × (1 ≤ higher) × (higher ≤ 12) × (lower < higher) }
    {
        let word = words_before(higher) + lower as usize - 1;
        for v in 0..self.rail.domains[lower as usize - 1].min(8) {
            for w in 0..self.rail.domains[higher as usize - 1].min(8) {
                if self.pick(3) == 0 {
                    self.rail.bans[word] |= 1u64 << (8 * v + w);
                }
            }
        }
    }

    // The lower agent informs the higher one. Only then may there be bans.
    fn set_informing(&mut self, lower: u8, higher: u8)
        requires { (1 ≤ lower) × (lower ≤ 11) × (1 ≤ higher) × (higher ≤ 12) × (lower < higher) }
    {
        let informer = &mut self.rail.agents[lower as usize - 1];
        informer.informs = add(informer.informs, higher);
        self.set_bans(lower, higher);
    }

    fn set_link(&mut self, lower: u8, higher: u8)
        requires { (1 ≤ lower) × (lower ≤ 11) × (1 ≤ higher) × (higher ≤ 12) × (lower < higher) }
    {
        let kind = self.pick(6);
        if kind != 0 {
            self.set_listening(lower, higher);
        }
        if 1 < kind {
            self.set_informing(lower, higher);
        }
    }

    // ---- channels

    // One message more on a channel, where there is room.
    #[tactic(auto, using(abt_shape::proofs::Numbering::ends))]
    fn push(&mut self, line: usize, message: Message)
        requires { line < 132 }
    {
        let (from, to) = ends_of(line);
        let row = from as usize - 1;
        let held = digit(self.rail.counts[row], to);
        if held < 8 {
            let head = digit(self.rail.heads[row], to);
            self.rail.places[place_at(line, head, held)] = Place { message };
            self.rail.counts[row] = one_more(self.rail.counts[row], to);
        }
    }

    // The value that agent i holds, or one time in two any of its values.
    fn refused_slot(&mut self, i: u8) -> u8
        requires { (1 ≤ i) × (i ≤ 12) }
    {
        if self.pick(2) == 0 {
            self.slot(i)
        } else {
            self.rail.agents[i as usize - 1].value
        }
    }

    // A Back to agent `to`: of a value of its own, with values of agents above it for the left
    // side.
    fn rejection(&mut self, to: u8) -> Message
        requires { (1 ≤ to) × (to ≤ 12) }
    {
        let refused = self.refused_slot(to);
        let mut low: u64 = 0;
        for k in 1..to {
            low = with_digit(low, k, self.slot_or_none(k));
        }
        let lhs = PackedAssignment {
            low: (low % 65536) as u16,
            middle: (low / 65536 % 65536) as u16,
            high: (low / 4294967296 % 65536) as u16,
        };
        Message::Back(refused, lhs)
    }

    // How many messages are put on a channel: eight, or one time in four any number up to eight.
    fn held(&mut self) -> usize {
        if self.pick(4) == 0 { self.pick(9) } else { 8 }
    }

    // Infos from the lower agent.
    fn put_news(&mut self, line: usize, from: u8)
        requires { (line < 132) × (1 ≤ from) × (from ≤ 12) }
    {
        for _ in 0..self.held() {
            let message = Message::Info(self.slot(from));
            self.push(line, message);
        }
    }

    // Backs from the higher agent, behind an AddLink where the lower one does not inform it.
    fn put_refusals(&mut self, line: usize, from: u8, to: u8)
        requires { (line < 132) × (1 ≤ from) × (from ≤ 12) × (1 ≤ to) × (to ≤ 12) }
    {
        if !has(self.rail.agents[to as usize - 1].informs, from) {
            self.push(line, Message::AddLink);
        }
        for _ in 0..self.held() {
            let message = self.rejection(to);
            self.push(line, message);
        }
    }

    // What waits on a channel, if its higher agent listens to the lower one. Its ring begins
    // anywhere.
    #[tactic(auto, using(abt_shape::proofs::Numbering::ends))]
    fn set_line(&mut self, line: usize)
        requires { line < 132 }
    {
        let (from, to) = ends_of(line);
        let (lower, higher) = (from.min(to), from.max(to));
        if !has(self.rail.agents[higher as usize - 1].listens, lower) {
            return;
        }
        let head = (self.pick(8) % 8) as u8;
        let row = from as usize - 1;
        self.rail.heads[row] = with_digit(self.rail.heads[row], to, head);
        if from < to {
            self.put_news(line, from);
        } else {
            self.put_refusals(line, from, to);
        }
    }

    // ---- the whole network

    fn set_scanners(&mut self, n: u8)
        requires { n ≤ 12 }
    {
        for i in 1..=n {
            self.set_scanner(i);
        }
        for higher in 2..=n {
            for lower in 1..higher {
                self.set_link(lower, higher);
            }
        }
    }
}

/// A network for this state of the generator, and the state behind it.
pub fn forged(state: u64) -> Forge {
    let mut f = Forge {
        rail: abt_record::empty(),
        state,
    };
    let n = 2 + (f.pick(4) % 8) as u8;
    f.rail.count = n;
    f.rail.rule = 1 + (f.pick(2) % 2) as u8;
    f.set_scanners(n);
    for line in 0..132 {
        f.set_line(line);
    }
    f
}
