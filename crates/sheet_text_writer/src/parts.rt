// The two parts of a text: the line of the domain sizes, and the lines of the records along the
// chain.
ghost use Rattle.std.specs.Prelude.{◌≤◌};
ghost use Rattle.model_sheet.specs.Sheet.{edition_in};
ghost use Rattle.model_sheet.specs.Chain.{rows_in};
ghost use Rattle.sheet_reader.specs.Abstract.{problem_of};
ghost use Rattle.support_buffer.specs.Puts.{Adds};
ghost use Rattle.model_text.specs.Telling.{slots_line, row_lines};
ghost use Rattle.sheet_text_writer.specs.Parts.{RoomFor, Readable};

use crate::lines::{append_figure, append_row};
use sheet_reader::Problem;
use sheet_records::Sheet;
use sheet_records::header::two_bytes;
use support_buffer::cursor::Cursor;

/// Appends the line `slots` with the domain sizes of the n agents, n at most 12. Room as `RoomFor`
/// of specs/Parts.antt asks. Equals `slots_line` of model_text/specs/Telling.antt.
pub fn append_slots(out: &mut Cursor<'_>, p: Problem)
    requires { (p.count ≤ 12) × RoomFor out.old (slots_line (problem_of p)) }
    ensures { Adds out.old (slots_line (problem_of p)) out.new }
{
    out.put_all(b"slots");
    for domain in &p.domains[..usize::from(p.count)] {
        append_figure(out, *domain);
    }
    out.put_all(b"\n");
}

/// Appends a line for each record on the chain of a good sheet. A good sheet's chain has at most m
/// records, so m + 1 turns come to its end. Room as `RoomFor` of specs/Parts.antt asks. Equals
/// `row_lines` of model_text/specs/Telling.antt.
#[tactic(auto, using(crate::proofs::Chains::whole_header, crate::proofs::Chains::whole_record))]
pub fn append_rows(out: &mut Cursor<'_>, s: &[u8])
    requires { Readable s.now × RoomFor out.old (row_lines (edition_in s.now) (rows_in s.now)) }
    ensures { Adds out.old (row_lines (edition_in s.now) (rows_in s.now)) out.new }
{
    let sheet = Sheet { bytes: s };
    let mut r = two_bytes(s, 2);
    for _ in 0..=two_bytes(s, 4) {
        if r == 0 {
            break;
        }
        append_row(out, s[1], sheet.row(r));
        r = two_bytes(s, 20 + 8 * r);
    }
}
