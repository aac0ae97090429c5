// What is wrong with a line.
ghost use Rattle.std.specs.Prelude.{◌≡◌};
ghost use Rattle.sheet_text_drafts.specs.Faults.{needed};

/// What is wrong with a line, in the order of the table in docs/FORMATS.md, 'Sheets as text', which
/// has the words that are said of each; `LongText` comes last. Equals `LineRejection` of
/// model_text/specs/Drafts.antt.
#[derive(Clone, Copy, Debug, PartialEq, Eq)]
pub enum LineRejection {
    /// The line has words and is no statement.
    NotStatement,
    /// A `ban` or a `gap` stands before `slots`, or the text has no statement.
    SlotsFirst,
    /// A second `slots`.
    SlotsTwice,
    /// `slots` has no domain size, or more than twelve.
    AgentCount,
    /// A domain size is not 1 to 8.
    DomainSize,
    /// A `gap` after a `ban`, or a `ban` after a `gap`.
    BothKinds,
    /// This agent is not one of 1 to n.
    NoAgent(u64),
    /// Both agents are the same.
    SameAgent,
    /// A `gap` names the higher-numbered agent first.
    HigherFirst,
    /// In a `ban`, this agent has no such value.
    NotOwned(u64, u64),
    /// A least or greatest gap is not -7 to 7.
    GapRange,
    /// The least gap is above the greatest.
    LeastAbove,
    /// A record more than the 4,224 that a sheet can have.
    ManyRecords,
    /// The text has more than 1,048,576 bytes, and no line before the cut is faulty.
    LongText,
}

/// Returns this fault unless the condition holds. Equals `needed` of specs/Faults.antt.
#[tactic(auto, unfolding(crate::specs::Faults::needed))]
pub fn need(holds: bool, fault: LineRejection) -> Result<(), LineRejection>
    ensures { result ≡ needed holds fault }
{
    if holds { Ok(()) } else { Err(fault) }
}
