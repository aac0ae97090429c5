// From an ordinal to domains and a set of bans.
ghost use Rattle.std.specs.Prelude.{◌≡◌, [], ◌+◌, ◌*◌, ◌^◌, ◌≤◌, ◌<◌, get_or, MatchOption};
ghost use Rattle.model_little.specs.Little.{little_count, sizes, choice_from};
ghost use Rattle.sheet_reader.specs.Abstract.{problem_of};
ghost use Rattle.sheet_little.specs.Abstract.{Holds, Means, bare_of};

use sheet_reader::Problem;

/// How many agents there are, 1 to 3, and their domain sizes, 1 or 2; zero beyond the agents.
#[derive(Clone, Copy)]
pub struct Counts {
    pub agents: u8,
    /// The domain size of agent 1.
    pub first: u8,
    /// The domain size of agent 2.
    pub second: u8,
    /// The domain size of agent 3.
    pub third: u8,
}

/// What a little sheet says: its domains, and its set of bans as a number.
#[derive(Clone, Copy)]
pub struct Choice {
    /// The agents and their domain sizes.
    pub counts: Counts,
    /// A bit for each owned pair of values, 1 where it is banned. The lowest bit is the first
    /// pair's, in the order of rows.rt.
    pub bans: u64,
}

// Returns the domain sizes at place k of their order. Behind those of fewer agents, k is read as
// binary digits, agent 1 first.
fn counts_at(k: u8) -> Counts
    requires { k < 14 }
    ensures { Holds result (get_or sizes k []) }
{
    if k < 2 {
        Counts {
            agents: 1,
            first: 1 + k,
            second: 0,
            third: 0,
        }
    } else if k < 6 {
        let d = k - 2;
        Counts {
            agents: 2,
            first: 1 + d / 2,
            second: 1 + d % 2,
            third: 0,
        }
    } else {
        let d = k - 6;
        Counts {
            agents: 3,
            first: 1 + d / 4,
            second: 1 + d / 2 % 2,
            third: 1 + d % 2,
        }
    }
}

/// Returns the problem with these domains and no ban. Equals `bare_of` of specs/Abstract.antt.
#[tactic(auto, unfolding(model_sheet::specs::Problem::max_pairs, model_sheet::specs::Problem::no_bans, sheet_reader::specs::Abstract::problem_of, crate::specs::Abstract::bare_of))]
pub fn without_bans(c: Counts) -> Problem
    ensures { problem_of result ≡ bare_of c }
{
    Problem {
        count: c.agents,
        domains: [c.first, c.second, c.third, 0, 0, 0, 0, 0, 0, 0, 0, 0],
        bans: [0; 66],
    }
}

// The pairs of values of two agents.
fn pairs(d: u8, e: u8) -> u8
    requires { (d ≤ 2) × (e ≤ 2) }
    ensures { (result ≡ d * e) × (result ≤ 4) }
{
    d * e
}

// How many sets of bans there are for these domains.
fn sets_of(c: Counts) -> u64
    requires { (c.first ≤ 2) × (c.second ≤ 2) × (c.third ≤ 2) }
    ensures { result ≡ 2 ^ (c.first * c.second + c.first * c.third + c.second * c.third) }
{
    let all = pairs(c.first, c.second) + pairs(c.first, c.third) + pairs(c.second, c.third);
    1 << all
}

/// Returns the domains and the set of bans of this ordinal; `None` above 4,995. The sheets with the
/// same domains stand together, as many as there are sets of bans. Equals `choice_from sizes` of
/// model_little/specs/Little.antt.
pub fn choice_at(ordinal: u64) -> Option<Choice>
    ensures { MatchOption result (little_count ≤ ordinal) (λ c. (ordinal < little_count) × Means c (choice_from sizes ordinal)) }
{
    let mut left = ordinal;
    for k in 0..14 {
        let counts = counts_at(k);
        let sets = sets_of(counts);
        if left < sets {
            return Some(Choice { counts, bans: left });
        }
        left -= sets;
    }
    None
}
