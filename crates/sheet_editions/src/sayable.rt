// Whether a table is sayable in gaps.
ghost use Rattle.std.specs.Prelude.{◌≡◌, not, pred, ◌≤◌, ◌<◌};
ghost use Rattle.model_base.specs.Finite.{all_to};
ghost use Rattle.sheet_reader.specs.Abstract.{problem_of};
ghost use Rattle.model_editions.specs.Gaps.{gap_places, mixed_gap, sayable};
ghost use Rattle.sheet_editions.specs.Pairs.{Means};

use crate::accepted::Accepted;
use crate::pair::Pair;
use sheet_records::index::word_at;

impl Accepted {
    /// Returns what the table and the domains say of the agents `i` and `j`, 1 ≤ `i` < `j` ≤ n.
    pub fn pair(&self, i: u8, j: u8) -> Pair
        requires { (1 ≤ i) × (i < j) × (j ≤ self.now.problem.count) }
        ensures { Means (problem_of self.now.problem) i j result }
    {
        let p = &self.problem;
        Pair {
            lower: i,
            higher: j,
            slots: p.domains[i as usize - 1],
            others: p.domains[j as usize - 1],
            word: p.bans[word_at(i as usize, j as usize)],
        }
    }

    // Gaps can say what agent j has with each agent above it.
    fn is_sayable_with(&self, j: u8) -> bool
        requires { (1 ≤ j) × (j ≤ self.now.problem.count) }
        ensures { result
            ≡ all_to (pred j) (λ i. all_to gap_places (λ k. not (mixed_gap (problem_of self.now.problem) i j (pred k)))) }
    {
        for i in 1..j {
            if !self.pair(i, j).is_sayable() {
                return false;
            }
        }
        true
    }

    /// Returns whether gaps can say the table. Equals `sayable` of model_editions/specs/Gaps.antt.
    pub fn is_sayable(&self) -> bool
        ensures { result ≡ sayable (problem_of self.now.problem) }
    {
        for j in 1..=self.problem.count {
            if !self.is_sayable_with(j) {
                return false;
            }
        }
        true
    }
}
