// Where a pair's word stands in the table of bans.
ghost use Rattle.std.specs.Prelude.{◌≡◌, ◌≤◌, ◌<◌};
ghost use Rattle.model_sheet.specs.Problem.{word_at};

/// Returns the place of the word of the lower agent `i` and the higher agent `j`, each 1 to 12, in
/// the table: 0 to 65. Equals `word_at` of model_sheet/specs/Problem.antt.
pub fn word_at(i: usize, j: usize) -> usize
    requires { (1 ≤ i) × (i < j) × (j ≤ 12) }
    ensures { (result ≡ word_at i j) × (result < 66) }
{
    (j - 1) * (j - 2) / 2 + (i - 1)
}
