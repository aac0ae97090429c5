//! All of the shape but the channels.
ghost use Rattle.std.specs.Prelude.{◌≡◌, true, false, MatchOption};
ghost use Rattle.model_sheet.specs.Problem.{in_range};
ghost use Rattle.model_network.specs.Shape.{in_shape};
ghost use Rattle.abt_shape.specs.Frames.{Framing};
ghost use Rattle.abt_record.specs.Abstract.{problem_of, network_of};
ghost use Rattle.abt_record.specs.Looking.{Framed};

use crate::{Network, is_rule};
use abt_shape::frames::Frame;
use abt_shape::range::{domain_digits, in_range};

impl Network {
    // What the clauses on the agents and on the messages go by.
    fn frame(&self) -> Frame
        ensures { in_range (problem_of self.now) ≡ true → Framing (network_of self.now) result }
    {
        let mut listens = [0u16; 12];
        let mut informs = [0u16; 12];
        // one walk over the agents where they stand: `map` of an array would copy them all, twice
        for (k, a) in self.agents.iter().enumerate() {
            listens[k] = a.listens;
            informs[k] = a.informs;
        }
        let Network {
            count,
            unsolvable,
            ..
        } = *self;
        Frame {
            count,
            unsolvable,
            domains: domain_digits(&self.domains),
            listens,
            informs,
        }
    }

    /// Tests the rule, the problem and the agents, in this order. Returns the frame for the test of
    /// the channels, which alone are then left to test; `None` where one of the three is not in
    /// shape.
    pub(crate) fn framed(&self) -> Option<Frame>
        ensures { MatchOption result (in_shape (network_of self.now) ≡ false) (λ f. Framed self.now f) }
    {
        if !is_rule(self.rule) || !in_range(self.count, &self.domains, &self.bans) {
            return None;
        }
        let frame = self.frame();
        for (k, a) in self.agents.iter().enumerate() {
            if !frame.agent_passes(&self.bans, k as u8 + 1, *a) {
                return None;
            }
        }
        Some(frame)
    }
}
