//! The figures of the sheets so far, and how one more sheet is counted.
ghost use Rattle.std.specs.Prelude.{◌≡◌, ◌≤◌};
ghost use Rattle.support_rejection.specs.Rejections.{rejection_number};
ghost use Rattle.abt_engine.specs.Answers.{ending_of};
ghost use Rattle.model_season.specs.Season.{Refused, Ended, no_figures, place, one_more, with_rounds, outcome, with_outcome};
ghost use Rattle.model_season.specs.Claims.{Known};
ghost use Rattle.model_season.specs.Capped.{capped_rounds, capped_kinds, capped};
ghost use Rattle.season_figures.specs.Abstract.{kinds, rounds_of, figures_of, with_word, AddsSheet, CountsSheet};
ghost use Rattle.season_figures.specs.Promised.{OutcomeTells, CountTells};

use abt_dock_text::settle;
use abt_engine::Ending;
use support_rejection::Rejection;

/// The full rounds of the sheets that ended in `none` or `plan`, one at least.
#[derive(Clone, Copy)]
pub struct Rounds {
    /// How many such sheets there are; at most `2^64 - 1`.
    pub count: u64,
    /// The fewest rounds of one sheet.
    pub fewest: u64,
    /// The most rounds of one sheet.
    pub most: u64,
    /// The sum of their rounds; at most `2^64 - 1`.
    pub sum: u64,
}

/// The figures of some sheets. A count stays at `2^64 - 1` once it is there.
#[derive(Clone, Copy)]
pub struct Figures {
    /// How many sheets there are.
    pub sheets: u64,
    /// How many were rejected, by number, 1 to 4.
    pub refused: [u64; 4],
    /// How many ended, by word: `none`, `plan`, `jammed`, `open`.
    pub words: [u64; 4],
    /// The rounds of `none` and `plan` together; `None` where no sheet ended so.
    pub rounds: Option<Rounds>,
}

// ---- counting

// One more of kind k, 1 to 4: the number of a rejection or the place of a word. A count stays at
// `2^64 - 1`.
fn counted(mut four: [u64; 4], k: usize) -> [u64; 4]
    requires { (1 ≤ k) × (k ≤ 4) }
    ensures { kinds result ≡ capped_kinds (one_more (kinds four) k) }
{
    four[k - 1] = four[k - 1].saturating_add(1);
    four
}

// With the rounds of one sheet more.
fn with_rounds(rounds: Option<Rounds>, n: u64) -> Option<Rounds>
    ensures { rounds_of result ≡ capped_rounds (with_rounds n (rounds_of rounds)) }
{
    let more = match rounds {
        None => Rounds {
            count: 1,
            fewest: n,
            most: n,
            sum: n,
        },
        Some(r) => Rounds {
            count: r.count.saturating_add(1),
            fewest: n.min(r.fewest),
            most: n.max(r.most),
            sum: n.saturating_add(r.sum),
        },
    };
    Some(more)
}

// ---- one sheet

// The place of a word among the four, from 1 on; 0 for a network out of shape, which has none.
#[tactic(auto, unfolding(abt_engine::specs::Answers::ending_of, model_season::specs::Season::place))]
fn place(e: Ending) -> usize
    ensures { (result ≡ place (ending_of e)) × (result ≤ 4) }
{
    match e {
        Ending::Unsolvable => 1,
        Ending::Plan => 2,
        Ending::Jammed => 3,
        Ending::Open => 4,
        Ending::Broken => 0,
    }
}

impl Figures {
    /// Returns the figures of no sheets. Equals `no_figures` of model_season/specs/Season.antt.
    #[tactic(auto, using(crate::proofs::Counting::no_kinds), unfolding(crate::specs::Abstract::figures_of, crate::specs::Abstract::rounds_of, model_season::specs::Season::no_figures))]
    pub fn none() -> Figures
        ensures { figures_of result ≡ no_figures }
    {
        Figures {
            sheets: 0,
            refused: [0; 4],
            words: [0; 4],
            rounds: None,
        }
    }

    // One more that is rejected, with one of the first four numbers.
    fn with_refused(self, rejection: Rejection) -> Figures
        requires { rejection_number rejection ≤ 4 }
        ensures { figures_of result ≡ capped (with_outcome (Refused (rejection_number rejection)) (figures_of self)) }
    {
        Figures {
            sheets: self.sheets.saturating_add(1),
            refused: counted(self.refused, rejection.number() as usize),
            ..self
        }
    }

    // One more that ended in this word, and these rounds.
    fn with_word(self, e: Ending, rounds: Option<Rounds>) -> Figures
        requires { 1 ≤ place (ending_of e) }
        ensures { figures_of result ≡ capped (with_word (figures_of self) (place (ending_of e)) (rounds_of rounds)) }
    {
        Figures {
            sheets: self.sheets.saturating_add(1),
            words: counted(self.words, place(e)),
            rounds,
            ..self
        }
    }

    // One more that ended, with so many full rounds. No start of a sheet is out of shape.
    fn with_ended(self, e: Ending, n: u64) -> Figures
        requires { 1 ≤ place (ending_of e) }
        ensures { figures_of result ≡ capped (with_outcome (Ended (ending_of e) n) (figures_of self)) }
    {
        match e {
            Ending::Unsolvable | Ending::Plan => self.with_word(e, with_rounds(self.rounds, n)),
            Ending::Jammed | Ending::Open => self.with_word(e, self.rounds),
            Ending::Broken => self,
        }
    }

    /// Returns the figures with one sheet more: it is started by rule 1 and run with 100,000
    /// rounds, and what it comes to is counted. A sheet that counts under `none` has no choice of
    /// values that obeys every ban; one that counts under `plan` was left with values that do.
    /// Equals `with_outcome` of model_season/specs/Season.antt, each count capped at `2^64 - 1`.
    pub fn with_sheet(self, sheet: &[u8]) -> Figures
        ensures capped { CountsSheet self sheet.now result }
        ensures adds { AddsSheet self sheet.now result }
        ensures known { Known (outcome sheet.now) }
        ensures promised { OutcomeTells sheet.now }
        ensures tells { CountTells self sheet.now result }
    {
        match settle(sheet, 100000) {
            Ok(ran) => self.with_ended(ran.ending, ran.rounds),
            Err(rejection) => self.with_refused(rejection),
        }
    }
}
