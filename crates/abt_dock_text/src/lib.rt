//! What `dock` does with a sheet: the agents settle it, and what they come to is made a text in a
//! lent buffer. docs/RULES.md, 'Rounds and the run'; docs/PROGRAMS.md, 'dock'. Stands on
//! `abt_start` (the start) and `abt` (the run). Start reading at `settle`, then `text`;
//! specs/Settling.antt and specs/Text.antt define them.
#![tactic(auto)]

ghost use Rattle.std.specs.Prelude.{◌≡◌, ◌≤◌, length, take, drop, IfOk};
ghost use Rattle.model_network.specs.Run.{Plan};
ghost use Rattle.io.specs.Counts.{IsPrefixLen};
ghost use Rattle.abt_record.specs.Abstract.{network_of};
ghost use Rattle.abt_engine.specs.Answers.{ending_of};
ghost use Rattle.support_buffer.specs.Puts.{Room, Adds};
ghost use Rattle.abt_dock_text.specs.Settling.{program_rounds, Settles};
ghost use Rattle.abt_dock_text.specs.Text.{slot_line, slot_lines, plan_lines, answer_text, Prints};
ghost use Rattle.abt_dock_text.specs.Promised.{SheetTells, TextPromised};

use abt_engine::{Answer, Ending};
use abt_record::Network;
use abt_words::append_ending;
use support_buffer::cursor::Cursor;
use support_buffer::{append_line, append_number};
use support_rejection::Rejection;

/// Starts a sheet by rule 1, and runs it with up to `rounds` rounds; more than 1,000,000 count as
/// 1,000,000. Returns the network, the full rounds made and how the run ended. `Plan` comes only
/// with values that obey every ban of the sheet, `Unsolvable` only where no choice of values does,
/// and the full rounds obey the bound of docs/RULES.md, 'Rounds and the run'.
///
/// Errors, those of the sheet: `BadLength` (1), `BadHeader` (2), `BadRecord` (3), `Cycle` (4).
/// `Settles` of specs/Settling.antt says what it returns.
pub fn settle(sheet: &[u8], rounds: u64) -> Result<Answer, Rejection>
    ensures settles { Settles rounds sheet.now result }
    ensures promised { IfOk result (SheetTells sheet.now) }
{
    // a `match`: `?` would move the network twice, and a season of small sheets take a third longer
    match abt_start::start(1, sheet) {
        Ok(rail) => Ok(abt::run(rail, rounds)),
        Err(rejection) => Err(rejection),
    }
}

// ---- the text

// A network may say any number of agents, so that a clause asks for at most 12.

// A line for agent i.
fn append_slot(out: &mut Cursor<'_>, i: u8, v: u8)
    requires { Room out.old 55 }
    ensures text { Adds out.old (slot_line i v) out.new }
    ensures short { length (slot_line i v) ≤ 55 }
{
    out.put_all(b"scanner ");
    append_number(out, u64::from(i));
    append_line(out, b" slot ", u64::from(v));
}

// A line for each agent.
fn append_slots(out: &mut Cursor<'_>, r: Network)
    requires few { r.count ≤ 12 }
    requires room { Room out.old 660 }
    ensures { Adds out.old (slot_lines (network_of r)) out.new }
{
    for i in 1..=r.count {
        append_slot(out, i, abt_record::value(r, i).unwrap_or(0));
    }
}

// For a plan a line for each agent, else nothing.
fn append_plan(out: &mut Cursor<'_>, e: Ending, r: Network)
    requires few { ending_of e ≡ Plan → r.count ≤ 12 }
    requires room { Room out.old 660 }
    ensures { Adds out.old (plan_lines (ending_of e) (network_of r)) out.new }
{
    if let Ending::Plan = e {
        append_slots(out, r);
    }
}

// How the run ended, its full rounds, and for a plan the values.
fn append_ran(out: &mut Cursor<'_>, ran: Answer)
    requires few { ending_of ran.ending ≡ Plan → ran.network.count ≤ 12 }
    requires room { Room out.old 1024 }
    ensures { Adds out.old (answer_text ran) out.new }
{
    out.put_all(b"verdict ");
    append_ending(out, ran.ending);
    out.put_all(b"\n");
    append_line(out, b"rounds ", ran.rounds);
    append_plan(out, ran.ending, ran.network);
}

/// Settles a sheet with up to `rounds` rounds, writes the text of it at the buffer's beginning, and
/// returns how many bytes it has. Bytes past it stay. Whatever word, count and values the text says
/// are true of the sheet's problem (`TextPromised` of specs/Promised.antt). A caller may cut a
/// longer input behind 33,817 bytes: the text is the same. Equals `dock_text` of specs/Text.antt.
pub fn text(sheet: &[u8], rounds: u64, out: &mut [u8; 1024]) -> usize
    ensures prints { Prints rounds sheet.now out.new result }
    ensures promised { TextPromised sheet.now (take result out.new) }
    ensures behind { drop result out.new ≡ drop result out.old }
    ensures prefix_len { IsPrefixLen result out.new }
{
    let mut next = Cursor { buffer: out, at: 0 };
    match settle(sheet, rounds) {
        Ok(ran) => append_ran(&mut next, ran),
        Err(rejection) => append_line(&mut next, b"sheet refused ", u64::from(rejection.number())),
    }
    next.at
}

/// Writes the text that `dock` prints for a sheet: `text` with 100,000 rounds.
#[tactic(auto, unfolding(crate::specs::Settling::program_rounds))]
pub fn program_text(sheet: &[u8], out: &mut [u8; 1024]) -> usize
    ensures prints { Prints program_rounds sheet.now out.new result }
    ensures promised { TextPromised sheet.now (take result out.new) }
    ensures behind { drop result out.new ≡ drop result out.old }
    ensures prefix_len { IsPrefixLen result out.new }
{
    text(sheet, 100000, out)
}
