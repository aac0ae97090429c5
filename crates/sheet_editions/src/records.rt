// The records of a sheet, two agents after two agents.
ghost use Rattle.std.specs.Prelude.{◌≡◌, ◌++◌, suc, ◌-◌, ◌≤◌, [], length};
ghost use Rattle.model_base.specs.Finite.{gather};
ghost use Rattle.model_base.specs.Lent.{put};
ghost use Rattle.model_sheet.specs.Writing.{written};
ghost use Rattle.sheet_reader.specs.Abstract.{problem_of};
ghost use Rattle.support_buffer.specs.Abstract.{written_of};
ghost use Rattle.sheet_editions.specs.Rows.{Room};
ghost use Rattle.sheet_editions.specs.Pairs.{rows_of, all_rows};
ghost use Rattle.sheet_writer.specs.Editions.{number_of};

use crate::accepted::Accepted;
use sheet_writer::{Edition, Rows, put_sheet};
use support_rejection::Rejection;

impl Accepted {
    // Appends the records of agent i with each agent below it.
    fn put_below(&self, rows: &mut Rows<4224>, edition: Edition, i: u8)
        requires { (1 ≤ i) × (i ≤ self.now.problem.count)
            × Room rows.old (gather (self.now.problem.count - i) (suc i) (rows_of (number_of edition) (problem_of self.now.problem) i)) }
        ensures { rows.new
            ≡ rows.old
            ++ gather (self.now.problem.count - i) (suc i) (rows_of (number_of edition) (problem_of self.now.problem) i) }
    {
        for j in i + 1..=self.problem.count {
            self.pair(i, j).put_rows(rows, edition);
        }
    }

    // Returns the records of all agents, at most 4,224.
    fn rows(&self, edition: Edition) -> Rows<4224>
        requires { length (all_rows (number_of edition) (problem_of self.now.problem)) ≤ 4224 }
        ensures { result ≡ all_rows (number_of edition) (problem_of self.now.problem) }
    {
        let mut rows = Rows::new();
        for i in 1..=self.problem.count {
            self.put_below(&mut rows, edition, i);
        }
        rows
    }

    /// Writes the sheet of this edition with the problem's records, at most 4,224, and returns its
    /// length. Equals `put` of `written` with `all_rows` of specs/Pairs.antt. The error is
    /// `ShortBuffer`; the buffer is untouched then.
    pub fn put_sheet(&self, out: &mut [u8], edition: Edition) -> Result<usize, Rejection>
        requires { length (all_rows (number_of edition) (problem_of self.now.problem)) ≤ 4224 }
        ensures { written_of result out.new
            ≡ put (written (number_of edition) (problem_of self.now.problem) (all_rows (number_of edition) (problem_of self.now.problem))) out.old }
    {
        let rows = self.rows(edition);
        put_sheet(out, edition.number(), self.problem, rows.as_slice())
    }
}
