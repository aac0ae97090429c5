// The problem that a sheet says.
ghost use Rattle.std.specs.Prelude.{◌≡◌, ◌≤◌, true};
ghost use Rattle.model_sheet.specs.Problem.{in_range};
ghost use Rattle.sheet_reader.specs.Abstract.{problem_of};

use sheet_reader::Problem;

/// The problem of an accepted sheet: n, the domains and the bans are in range.
#[derive(Clone, Copy)]
pub struct Accepted {
    pub problem: Problem,
    pub ghost few: { problem.count ≤ 12 },
    pub ghost good: { in_range (problem_of problem) ≡ true },
}
