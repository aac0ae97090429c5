// Agents with their values: the left sides of nogoods and Backs, and agent views.
ghost use Rattle.std.specs.Prelude.{◌≡◌, ◌++◌, OnOk};
ghost use Rattle.model_base.specs.Sets.{members};
ghost use Rattle.abt_packed.specs.Packed.{assignment};
ghost use Rattle.abt_agent.specs.Abstract.{assigned};
ghost use Rattle.abt_board_drawing.specs.Text.{of_each, scanner_of, pair, seen, left_side};

use crate::put_number;
use abt_agent::Assignment;
use abt_packed::{Entries, Members, digit};
use std::alloc::AllocError;

// An agent's number behind a blank.
#[tactic(auto, unfolding(crate::specs::Text::scanner_of))]
fn put_scanner(out: &mut Vec<u8>, k: u8) -> Result<(), AllocError>
    ensures { OnOk result (out.new.items ≡ out.old.items ++ scanner_of k) }
{
    out.extend_from_slice(b" ")?;
    put_number(out, u64::from(k))
}

#[tactic(auto, unfolding(crate::specs::Text::pair))]
fn put_pair(out: &mut Vec<u8>, k: u8, value: u8) -> Result<(), AllocError>
    ensures { OnOk result (out.new.items ≡ out.old.items ++ pair k value) }
{
    put_scanner(out, k)?;
    out.extend_from_slice(b"=")?;
    put_number(out, u64::from(value))
}

// Agent k that is listened to, with its value, `?` where it is unknown.
#[tactic(auto, unfolding(crate::specs::Text::seen, model_agent::specs::Message::known))]
fn put_seen(out: &mut Vec<u8>, k: u8, value: u8) -> Result<(), AllocError>
    ensures { OnOk result (out.new.items ≡ out.old.items ++ seen k value) }
{
    if value != 0 {
        return put_pair(out, k, value);
    }
    put_scanner(out, k)?;
    out.extend_from_slice(b"=?")
}

/// Appends the number of each agent of a set, behind a blank, upward. A set can name agents 1 to
/// 16. `AllocError` where memory runs out. Equals `of_each` with `scanner_of` of specs/Text.antt.
pub fn put_scanners(out: &mut Vec<u8>, set: u16) -> Result<(), AllocError>
    ensures { OnOk result (out.new.items ≡ out.old.items ++ of_each (members set) scanner_of) }
{
    for k in Members(set) {
        put_scanner(out, k)?;
    }
    Ok(())
}

/// Appends ` K=V` for each agent K of a set, upward, V its value in the view, or `?` where the view
/// has none. `AllocError` where memory runs out. Equals `of_each` with `seen` of specs/Text.antt.
pub fn put_sight(out: &mut Vec<u8>, set: u16, view: Assignment) -> Result<(), AllocError>
    ensures { OnOk result (out.new.items ≡ out.old.items ++ of_each (members set) (λ k. seen k (assigned view k))) }
{
    for k in Members(set) {
        put_seen(out, k, digit(view.digits, k))?;
    }
    Ok(())
}

/// Appends ` K=V` for each agent K that an assignment names, upward, V its value; ` nothing` where
/// it names none. `AllocError` where memory runs out. Equals `left_side` of specs/Text.antt.
pub fn put_left_side(out: &mut Vec<u8>, l: Assignment) -> Result<(), AllocError>
    ensures { OnOk result (out.new.items ≡ out.old.items ++ left_side (assigned l)) }
{
    if l.digits == 0 {
        return out.extend_from_slice(b" nothing");
    }
    for (k, value) in Entries(l.digits) {
        put_pair(out, k, value)?;
    }
    Ok(())
}
