// The draft of a sheet.
ghost use Rattle.std.specs.Prelude.{◌≡◌, eqb, not};
ghost use Rattle.sheet_text_drafts.specs.Kinds.{edition_in, other_edition};

use sheet_reader::Problem;
use sheet_writer::{Edition, Rows};

/// The draft of a sheet: what the statements so far say. Equals `Draft` of
/// model_text/specs/Drafts.antt by `draft_in` of specs/Drafting.antt.
#[derive(Clone, Copy)]
pub struct Draft {
    /// n and the domains, without bans; n is zero before `slots` says them.
    pub problem: Problem,
    /// The edition of the records so far; `None` while there is none.
    pub edition: Option<Edition>,
    /// The records, in the order of the lines.
    pub rows: Rows<4224>,
}

/// Returns whether a record of this edition may follow the records so far: all of them are of this
/// edition, or there is none.
pub fn accepts_edition(so_far: Option<Edition>, edition: Edition) -> bool
    ensures { result ≡ not (eqb (edition_in so_far) (other_edition edition)) }
{
    match so_far {
        Some(one) => one == edition,
        None => true,
    }
}
