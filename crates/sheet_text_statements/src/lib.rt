//! The words of a line of a text, and what stands behind the first word, read as a statement of its
//! kind: `slots`, `ban` or `gap`. `sheet_text_drafts` takes the statements into a draft and reports
//! their faults. The definitions stand in model_text/specs (Words, Statements). Start at
//! [`ban_in`], [`gap_in`] and [`slots_in`], then parts.rt and numbers.rt.
//! docs/FORMATS.md, 'Sheets as text'.
#![tactic(auto)]

ghost use Rattle.std.specs.Prelude.{◌≡◌, List, [], ◌∷◌, ◌++◌, ℕ, ◌<◌};
ghost use Rattle.model_base.specs.Finite.{within};
ghost use Rattle.model_text.specs.Statements.{ban_said, gap_said};
ghost use Rattle.sheet_text_statements.specs.Parts.{words_in};
ghost use Rattle.sheet_text_statements.specs.Saying.{ban_from, gap_from, domains_of, slots_of, slots_from};

pub mod bytes;
pub mod numbers;
pub mod parts;

use numbers::{read_numeral, read_place, read_signed};
use parts::{has_word, next_word};

/// `ban A:S B:T`: agent `a` at value `s` and agent `b` at value `t`, as the line says them.
#[derive(Clone, Copy)]
pub struct Ban {
    pub a: u64,
    pub s: u64,
    pub b: u64,
    pub t: u64,
}

/// `gap A B LEAST GREATEST`: the agents `a` and `b`, and a least and a greatest gap, as the line
/// says them.
#[derive(Clone, Copy)]
pub struct Gap {
    pub a: u64,
    pub b: u64,
    /// From -(2^64 - 1) to 2^64 - 1, as [`gap_in`] reads it.
    pub least: i128,
    /// From -(2^64 - 1) to 2^64 - 1, as [`gap_in`] reads it.
    pub greatest: i128,
}

/// `slots D1 D2 ..`: how many domain sizes the line says, and which.
#[derive(Clone, Copy)]
pub struct Slots {
    /// How many there are on the line, also more than twelve.
    pub count: usize,
    /// The sizes with zeros behind them; `None` where there are more than twelve, or one is not
    /// 1 to 8.
    pub domains: Option<[u8; 12]>,
}

/// Reads what stands behind the word `ban`: exactly two places. `None` for anything else. Equals
/// `ban_said` of model_text/specs/Statements.antt.
pub fn ban_in(args: &[u8]) -> Option<Ban>
    ensures { ban_from result ≡ ban_said (words_in args.now) }
{
    let (first, rest) = next_word(args)?;
    let (second, rest) = next_word(rest)?;
    if has_word(rest, 0) {
        return None;
    }
    let first = read_place(first)?;
    let second = read_place(second)?;
    Some(Ban {
        a: first.agent,
        s: first.value,
        b: second.agent,
        t: second.value,
    })
}

/// Reads what stands behind the word `gap`: exactly two numbers and two signed numbers. `None` for
/// anything else. Equals `gap_said` of model_text/specs/Statements.antt.
pub fn gap_in(args: &[u8]) -> Option<Gap>
    ensures { gap_from result ≡ gap_said (words_in args.now) }
{
    let (a, rest) = next_word(args)?;
    let (b, rest) = next_word(rest)?;
    let (least, rest) = next_word(rest)?;
    let (greatest, rest) = next_word(rest)?;
    if has_word(rest, 0) {
        return None;
    }
    Some(Gap {
        a: read_numeral(a)?,
        b: read_numeral(b)?,
        least: read_signed(least)?,
        greatest: read_signed(greatest)?,
    })
}

/// Returns whether `k` is one of 1 to `m`. Equals `within` of model_base/specs/Finite.antt.
#[tactic(auto, unfolding(model_base::specs::Finite::within))]
pub fn within(m: u64, k: u64) -> bool
    ensures { result ≡ within m k }
{
    (1..=m).contains(&k)
}

impl Slots {
    // The sizes with one more behind them, if it is 1 to 8 and there is a place for it.
    fn domains_with(self, value: u64) -> Option<[u8; 12]>
        ensures { (counts : List ℕ) → self ≡ slots_of counts → result ≡ domains_of (counts ++ (value ∷ [])) }
    {
        let mut domains = self.domains?;
        if 12 <= self.count || !within(8, value) {
            return None;
        }
        domains[self.count] = value as u8;
        Some(domains)
    }

    // One domain size more.
    fn with_count(self, value: u64) -> Slots
        requires { self.count < 9223372036854775808 }
        ensures { (counts : List ℕ) → self ≡ slots_of counts → result ≡ slots_of (counts ++ (value ∷ [])) }
    {
        Slots {
            count: self.count + 1,
            domains: self.domains_with(value),
        }
    }
}

/// Reads what stands behind the word `slots`: any number of numbers. `None` for anything else.
/// Equals `slots_from` of specs/Saying.antt.
pub fn slots_in(args: &[u8]) -> Option<Slots>
    ensures { result ≡ slots_from (words_in args.now) }
{
    let mut slots = Slots {
        count: 0,
        domains: Some([0; 12]),
    };
    let mut rest = args;
    while let Some((word, behind)) = next_word(rest) {
        slots = slots.with_count(read_numeral(word)?);
        rest = behind;
    }
    Some(slots)
}
