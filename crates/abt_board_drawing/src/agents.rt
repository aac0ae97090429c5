// An agent's block: its value, then a line each for its agent view, the agents that it informs, its
// nogoods and its counts. A value of 0 is none.
ghost use Rattle.std.specs.Prelude.{◌≡◌, ◌++◌, OnOk, Some};
ghost use Rattle.abt_agent.specs.Abstract.{assigned, count_of, agent_of};
ghost use Rattle.abt_board_drawing.specs.Text.{slot_of, scanner_line, view_text, view_line, informs_text, informs_line, reason_line, reason_lines, sorts, counts_line, scanner_block};

use crate::put_number;
use crate::sides::{put_left_side, put_scanners, put_sight};
use abt_agent::{Agent, Assignment, Traffic};
use std::alloc::AllocError;

// The value; where the verdict left the agent without one, the last that it took.
#[tactic(auto, unfolding(crate::specs::Text::slot_of, model_agent::specs::Message::known, abt_agent::specs::Abstract::agent_of))]
fn put_slot(out: &mut Vec<u8>, a: &Agent) -> Result<(), AllocError>
    ensures { OnOk result (out.new.items ≡ out.old.items ++ slot_of (agent_of a.now)) }
{
    if a.value != 0 {
        return put_number(out, u64::from(a.value));
    }
    out.extend_from_slice(b"-, last ")?;
    put_number(out, u64::from(a.last))
}

#[tactic(auto, unfolding(crate::specs::Text::scanner_line, model_base::specs::Decimal::newline))]
fn put_scanner_line(out: &mut Vec<u8>, number: u64, a: &Agent) -> Result<(), AllocError>
    ensures { OnOk result (out.new.items ≡ out.old.items ++ scanner_line number (agent_of a.now)) }
{
    out.extend_from_slice(b"scanner ")?;
    put_number(out, number)?;
    out.extend_from_slice(b" slot ")?;
    put_slot(out, a)?;
    out.extend_from_slice(b"\n")
}

#[tactic(auto, unfolding(crate::specs::Text::view_text, model_base::specs::Decimal::newline, abt_agent::specs::Abstract::agent_of))]
fn put_view_text(out: &mut Vec<u8>, a: &Agent) -> Result<(), AllocError>
    ensures { OnOk result (out.new.items ≡ out.old.items ++ view_text (agent_of a.now)) }
{
    out.extend_from_slice(b"  view")?;
    put_sight(out, a.listens, a.view)?;
    out.extend_from_slice(b"\n")
}

// The agents listened to, with their values; no line where there are none.
fn put_view(out: &mut Vec<u8>, a: &Agent) -> Result<(), AllocError>
    ensures { OnOk result (out.new.items ≡ out.old.items ++ view_line (agent_of a.now)) }
{
    if a.listens == 0 {
        Ok(())
    } else {
        put_view_text(out, a)
    }
}

#[tactic(auto, unfolding(crate::specs::Text::informs_text, model_base::specs::Decimal::newline, abt_agent::specs::Abstract::agent_of))]
fn put_informs_text(out: &mut Vec<u8>, a: &Agent) -> Result<(), AllocError>
    ensures { OnOk result (out.new.items ≡ out.old.items ++ informs_text (agent_of a.now)) }
{
    out.extend_from_slice(b"  informs")?;
    put_scanners(out, a.informs)?;
    out.extend_from_slice(b"\n")
}

// The agents informed; no line where there are none.
fn put_informs(out: &mut Vec<u8>, a: &Agent) -> Result<(), AllocError>
    ensures { OnOk result (out.new.items ≡ out.old.items ++ informs_line (agent_of a.now)) }
{
    if a.informs == 0 {
        Ok(())
    } else {
        put_informs_text(out, a)
    }
}

// The nogood of value v.
#[tactic(auto, unfolding(crate::specs::Text::reason_line, model_base::specs::Decimal::newline))]
fn put_reason(out: &mut Vec<u8>, v: u64, l: Assignment) -> Result<(), AllocError>
    ensures { OnOk result (out.new.items ≡ out.old.items ++ reason_line v (Some (assigned l))) }
{
    out.extend_from_slice(b"  reason ")?;
    put_number(out, v)?;
    out.extend_from_slice(b":")?;
    put_left_side(out, l)?;
    out.extend_from_slice(b"\n")
}

// A line for each stored nogood, by value.
fn put_reasons(out: &mut Vec<u8>, a: &Agent) -> Result<(), AllocError>
    ensures { OnOk result (out.new.items ≡ out.old.items ++ reason_lines (agent_of a.now)) }
{
    for v in 0u8..8 {
        if (a.nogood_mask >> v) % 2 == 1 {
            let digits = a.nogoods[v as usize];
            put_reason(out, u64::from(v) + 1, Assignment { digits })?;
        }
    }
    Ok(())
}

// How many messages of each sort.
#[tactic(auto, unfolding(crate::specs::Text::sorts, abt_agent::specs::Abstract::count_of))]
fn put_sorts(out: &mut Vec<u8>, c: Traffic) -> Result<(), AllocError>
    ensures { OnOk result (out.new.items ≡ out.old.items ++ sorts (count_of c)) }
{
    out.extend_from_slice(b" news ")?;
    put_number(out, c.infos)?;
    out.extend_from_slice(b" refusals ")?;
    put_number(out, c.backs)?;
    out.extend_from_slice(b" links ")?;
    put_number(out, c.links)
}

// What was sent and received, left out where nothing was.
#[tactic(auto, unfolding(crate::specs::Text::counts_line, crate::specs::Text::said_if, model_base::specs::Decimal::newline, model_agent::specs::Traffic::each_count, abt_agent::specs::Abstract::agent_of, abt_agent::specs::Abstract::counts_of))]
fn put_counts(out: &mut Vec<u8>, a: &Agent) -> Result<(), AllocError>
    ensures { OnOk result (out.new.items ≡ out.old.items ++ counts_line (agent_of a.now)) }
{
    if a.sent.is_zero() && a.received.is_zero() {
        return Ok(());
    }
    out.extend_from_slice(b"  sent")?;
    put_sorts(out, a.sent)?;
    out.extend_from_slice(b", received")?;
    put_sorts(out, a.received)?;
    out.extend_from_slice(b"\n")
}

/// Appends the block of the agent with this number to `out`. `AllocError` where memory runs out.
/// Equals `scanner_block` of specs/Text.antt.
#[tactic(auto, unfolding(crate::specs::Text::scanner_block))]
pub fn put_agent(out: &mut Vec<u8>, number: u64, a: &Agent) -> Result<(), AllocError>
    ensures { OnOk result (out.new.items ≡ out.old.items ++ scanner_block number (agent_of a.now)) }
{
    put_scanner_line(out, number, a)?;
    put_view(out, a)?;
    put_informs(out, a)?;
    put_reasons(out, a)?;
    put_counts(out, a)
}
