//! The line that a program writes about a faulty line of a text. The faults are those of
//! `sheet_text_drafts`, and the words are defined in model_text/specs/Faults.antt. Start at
//! [`rejection_text`]. docs/FORMATS.md, 'Sheets as text'.
#![tactic(auto)]

ghost use Rattle.std.specs.Prelude.{◌≡◌, ◌≤◌, length, drop};
ghost use Rattle.support_buffer.specs.Puts.{Room, Adds};
ghost use Rattle.model_base.specs.Decimal.{Appends};
ghost use Rattle.model_text.specs.Faults.{fault_words, rejection_text};
ghost use Rattle.sheet_text_drafts.specs.Faults.{fault_of};

use sheet_text_drafts::LineRejection;
use support_buffer::append_number;
use support_buffer::cursor::Cursor;

// Appends what is wrong, in at most 61 bytes.
#[tactic(auto, unfolding(model_text::specs::Faults::fault_words))]
fn append_fault(out: &mut Cursor<'_>, fault: LineRejection)
    requires { Room out.old 61 }
    ensures text { Adds out.old (fault_words (fault_of fault)) out.new }
    ensures short { length (fault_words (fault_of fault)) ≤ 61 }
{
    match fault {
        LineRejection::NotStatement => out.put_all(b"not a statement"),
        LineRejection::SlotsFirst => out.put_all(b"slots must come first"),
        LineRejection::SlotsTwice => out.put_all(b"slots twice"),
        LineRejection::AgentCount => out.put_all(b"1 to 12 scanners"),
        LineRejection::DomainSize => out.put_all(b"a slot count is 1 to 8"),
        LineRejection::BothKinds => out.put_all(b"bans and gaps in one text"),
        LineRejection::NoAgent(agent) => {
            out.put_all(b"no scanner ");
            append_number(out, agent);
        }
        LineRejection::SameAgent => out.put_all(b"the same scanner twice"),
        LineRejection::HigherFirst => out.put_all(b"the lower-numbered scanner comes first"),
        LineRejection::NotOwned(agent, value) => {
            out.put_all(b"scanner ");
            append_number(out, agent);
            out.put_all(b" has no slot ");
            append_number(out, value);
        }
        LineRejection::GapRange => out.put_all(b"a gap is -7 to 7"),
        LineRejection::LeastAbove => out.put_all(b"least is above greatest"),
        LineRejection::ManyRecords => out.put_all(b"more than 4224 records"),
        LineRejection::LongText => out.put_all(b"text too long"),
    }
}

/// Writes `line `, the line's number, `: `, what is wrong and a newline to the buffer's start, and
/// returns how many bytes they are, at most 89. The bytes behind them stay. Equals `rejection_text`
/// of model_text/specs/Faults.antt.
pub fn rejection_text(line: u64, fault: LineRejection, out: &mut [u8; 89]) -> usize
    ensures appends { Appends out.old 0 (rejection_text line (fault_of fault)) out.new result }
    ensures behind { drop result out.new ≡ drop result out.old }
    ensures short { result ≤ 89 }
{
    let mut next = Cursor { buffer: out, at: 0 };
    next.put_all(b"line ");
    append_number(&mut next, line);
    next.put_all(b": ");
    append_fault(&mut next, fault);
    next.put_all(b"\n");
    next.at
}
