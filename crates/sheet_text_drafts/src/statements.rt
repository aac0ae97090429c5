// The tests of a statement, in their order, and what it comes to.
ghost use Rattle.std.specs.Prelude.{◌≡◌, true, ◌<◌, length, IfErr};
ghost use Rattle.model_base.specs.Finite.{within};
ghost use Rattle.model_sheet.specs.Problem.{owns, no_bans};
ghost use Rattle.sheet_reader.specs.Abstract.{problem_of};
ghost use Rattle.sheet_writer.specs.Editions.{number_of};
ghost use Rattle.sheet_writer.specs.Rows.{row_of};
ghost use Rattle.model_text.specs.Drafts.{begun, no_draft, with_record, with_said};
ghost use Rattle.model_text.specs.Statements.{slots_said, ban_said, gap_said};
ghost use Rattle.sheet_text_statements.specs.Parts.{words_in};
ghost use Rattle.sheet_text_drafts.specs.Drafting.{problem_in, draft_in, taken_of, JudgesPair, JudgesRoom};

use crate::draft::{Draft, accepts_edition};
use crate::fault::{LineRejection, need};
use crate::records::{ban_row, gap_row, in_range, is_ordered};
use sheet_reader::Problem;
use sheet_text_statements::{ban_in, gap_in, slots_in, within};
use sheet_writer::{Edition, Row, Rows};

impl Draft {
    // The problem of n and these domains, without bans.
    #[tactic(auto, unfolding(sheet_reader::specs::Abstract::problem_of, model_sheet::specs::Problem::no_bans, model_sheet::specs::Problem::max_pairs))]
    fn without_bans(count: u8, domains: [u8; 12]) -> Problem
        ensures { problem_of result ≡ record { count = count; domains = domains; bans = no_bans } }
    {
        Problem {
            count,
            domains,
            bans: [0; 66],
        }
    }

    /// Returns the draft before any statement. Equals `no_draft` of model_text/specs/Drafts.antt.
    pub fn new() -> Draft
        ensures { draft_in result ≡ no_draft }
    {
        Draft {
            problem: Draft::without_bans(0, [0; 12]),
            edition: None,
            rows: Rows::new(),
        }
    }

    /// Returns whether `slots` has said the domains. Equals `begun` of
    /// model_text/specs/Drafts.antt.
    #[tactic(auto, unfolding(model_text::specs::Drafts::begun, crate::specs::Drafting::draft_in, crate::specs::Drafting::problem_in, sheet_reader::specs::Abstract::problem_of))]
    pub fn has_slots(&self) -> bool
        ensures { result ≡ begun (draft_in self.now) }
    {
        0 < self.problem.count
    }

    // v is one of 1 to n; then it fits a byte.
    fn up_to(n: u8, v: u64) -> bool
        ensures { (result ≡ within n v) × (result ≡ true → v < 256) }
    {
        within(u64::from(n), v)
    }

    // Agent a owns value v; then v fits a byte.
    fn owns(&self, a: u64, v: u64) -> bool
        ensures { (result ≡ owns (problem_in self.now) a v) × (result ≡ true → v < 256) }
    {
        let domains = self.problem.domains.as_slice();
        within(domains.len() as u64, a) && Draft::up_to(domains[a as usize - 1], v)
    }

    // The tests of records of both editions, in their order.
    fn check_pair(&self, edition: Edition, a: u64, b: u64) -> Result<(), LineRejection>
        ensures { JudgesPair self.now edition a b result }
    {
        need(self.has_slots(), LineRejection::SlotsFirst)?;
        need(
            accepts_edition(self.edition, edition),
            LineRejection::BothKinds,
        )?;
        need(
            Draft::up_to(self.problem.count, a),
            LineRejection::NoAgent(a),
        )?;
        need(
            Draft::up_to(self.problem.count, b),
            LineRejection::NoAgent(b),
        )?;
        need(a != b, LineRejection::SameAgent)
    }

    // The last test of a record: the sheet has room for one more.
    fn check_room(&self) -> Result<(), LineRejection>
        ensures { JudgesRoom self.now result }
    {
        need(!self.rows.is_full(), LineRejection::ManyRecords)
    }

    // Appends a record of this edition.
    fn push(&mut self, edition: Edition, row: Row)
        requires { length self.old.rows < 4224 }
        ensures { draft_in self.new ≡ with_record (draft_in self.old) (number_of edition) (row_of row) }
    {
        self.rows.push(row);
        self.edition = Some(edition);
    }

    /// Takes the domains from `args`, the words behind `slots`. Equals `with_said` of `slots_said`
    /// of model_text/specs.
    ///
    /// # Errors
    /// The first that is so: `NotStatement`, `SlotsTwice`, `AgentCount`, `DomainSize`. The draft is
    /// as it was then.
    pub fn set_slots(&mut self, args: &[u8]) -> Result<(), LineRejection>
        ensures taken { taken_of result self.new ≡ with_said (draft_in self.old) (slots_said (words_in args.now)) }
        ensures kept { IfErr result (λ e. self.new ≡ self.old) }
    {
        let slots = slots_in(args).ok_or(LineRejection::NotStatement)?;
        need(!self.has_slots(), LineRejection::SlotsTwice)?;
        need(within(12, slots.count as u64), LineRejection::AgentCount)?;
        let domains = slots.domains.ok_or(LineRejection::DomainSize)?;
        self.problem = Draft::without_bans(slots.count as u8, domains);
        Ok(())
    }

    /// Appends the record that `args` say, the words behind `ban`. Equals `with_said` of `ban_said`
    /// of model_text/specs.
    ///
    /// # Errors
    /// The first that is so: `NotStatement`, `SlotsFirst`, `BothKinds`, `NoAgent` of A, then of B,
    /// `SameAgent`, `NotOwned` of A, then of B, `ManyRecords`. The draft is as it was then.
    pub fn add_ban(&mut self, args: &[u8]) -> Result<(), LineRejection>
        ensures taken { taken_of result self.new ≡ with_said (draft_in self.old) (ban_said (words_in args.now)) }
        ensures kept { IfErr result (λ e. self.new ≡ self.old) }
    {
        let q = ban_in(args).ok_or(LineRejection::NotStatement)?;
        self.check_pair(Edition::Bans, q.a, q.b)?;
        need(self.owns(q.a, q.s), LineRejection::NotOwned(q.a, q.s))?;
        need(self.owns(q.b, q.t), LineRejection::NotOwned(q.b, q.t))?;
        self.check_room()?;
        self.push(Edition::Bans, ban_row(q));
        Ok(())
    }

    /// Appends the record that `args` say, the words behind `gap`. Equals `with_said` of `gap_said`
    /// of model_text/specs.
    ///
    /// # Errors
    /// The first that is so: `NotStatement`, `SlotsFirst`, `BothKinds`, `NoAgent` of A, then of B,
    /// `SameAgent`, `HigherFirst`, `GapRange`, `LeastAbove`, `ManyRecords`. The draft is as it was
    /// then.
    pub fn add_gap(&mut self, args: &[u8]) -> Result<(), LineRejection>
        ensures taken { taken_of result self.new ≡ with_said (draft_in self.old) (gap_said (words_in args.now)) }
        ensures kept { IfErr result (λ e. self.new ≡ self.old) }
    {
        let q = gap_in(args).ok_or(LineRejection::NotStatement)?;
        self.check_pair(Edition::Gaps, q.a, q.b)?;
        need(q.a < q.b, LineRejection::HigherFirst)?;
        need(in_range(q), LineRejection::GapRange)?;
        need(is_ordered(q), LineRejection::LeastAbove)?;
        self.check_room()?;
        self.push(Edition::Gaps, gap_row(q));
        Ok(())
    }
}
