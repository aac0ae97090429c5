//! Draws the board of a network: the text by which `board` shows it. docs/PROGRAMS.md, 'The board
//! and the image on the command line'. Stands on `abt_record` (the network) and makes its text in
//! memory. Start reading at `put_board`; specs/Text.antt defines each line. Each function appends
//! its part to `out`; where memory runs out it returns `AllocError`, and `out` holds some beginning
//! of the part.
#![tactic(auto)]

ghost use Rattle.std.specs.Prelude.{◌≡◌, ◌++◌, OnOk};
ghost use Rattle.abt_record.specs.Abstract.{network_of};
ghost use Rattle.model_base.specs.Decimal.{decimal};
ghost use Rattle.abt_board_drawing.specs.Text.{scanner_block, line_line, verdict_line, scanner_blocks, line_lines, board_of};

mod agents;
mod lines;
mod sides;

use abt_record::Network;
use agents::put_agent;
use lines::put_channels;
use std::alloc::AllocError;
use support_buffer::append_number;
use support_buffer::cursor::Cursor;

/// Appends a number in decimal to `out`. `AllocError` where memory runs out. Equals `decimal` of
/// model_base/specs/Decimal.antt.
pub fn put_number(out: &mut Vec<u8>, n: u64) -> Result<(), AllocError>
    ensures { OnOk result (out.new.items ≡ out.old.items ++ decimal n) }
{
    let mut digits = [0u8; 20];
    let mut next = Cursor {
        buffer: &mut digits,
        at: 0,
    };
    append_number(&mut next, n);
    let count = next.at;
    out.extend_from_slice(&digits[..count])
}

// "verdict none", where it stands.
#[tactic(auto, unfolding(crate::specs::Text::verdict_line, crate::specs::Text::said_if, model_base::specs::Decimal::newline))]
fn put_verdict(out: &mut Vec<u8>, unsolvable: bool) -> Result<(), AllocError>
    ensures { OnOk result (out.new.items ≡ out.old.items ++ verdict_line unsolvable) }
{
    if unsolvable {
        out.extend_from_slice(b"verdict none\n")?;
    }
    Ok(())
}

// A block for each agent, of twelve at most.
fn put_agents(out: &mut Vec<u8>, r: &Network) -> Result<(), AllocError>
    ensures { OnOk result (out.new.items ≡ out.old.items ++ scanner_blocks (network_of r.now)) }
{
    for i in 0..r.count.min(12) {
        put_agent(out, u64::from(i) + 1, &r.agents[i as usize])?;
    }
    Ok(())
}

/// Appends the board of a network to `out`: the verdict, a block for each agent, and a line for
/// each channel that holds something. Takes any network, forged ones included. `AllocError` where
/// memory runs out. Equals `board_of` of specs/Text.antt.
#[tactic(auto, unfolding(crate::specs::Text::board_of, abt_record::specs::Abstract::network_of))]
pub fn put_board(out: &mut Vec<u8>, r: &Network) -> Result<(), AllocError>
    ensures { OnOk result (out.new.items ≡ out.old.items ++ board_of (network_of r.now)) }
{
    put_verdict(out, r.unsolvable)?;
    put_agents(out, r)?;
    put_channels(out, r)
}
