// The records of two agents, appended to those that are listed.
ghost use Rattle.std.specs.Prelude.{◌≡◌, ◌++◌, ◌≤◌, ◌<◌};
ghost use Rattle.model_base.specs.Bits.{bit};
ghost use Rattle.model_editions.specs.Gaps.{runs_of};
ghost use Rattle.sheet_writer.specs.Rows.{row_of};
ghost use Rattle.sheet_editions.specs.Rows.{Room, pair_in, pairs_with, pairs_of, run_in};
ghost use Rattle.sheet_editions.specs.Pairs.{word_rows};
ghost use Rattle.sheet_writer.specs.Editions.{number_of};

use crate::gaps::{Gaps, gap_byte};
use crate::pair::Pair;
use sheet_writer::{Edition, Row, Rows};

impl Pair {
    // A record of the two.
    fn row(self, low: u8, high: u8) -> Row
        ensures { row_of result ≡ record { lower = self.lower; higher = self.higher; low = low; high = high } }
    {
        let Pair { lower, higher, .. } = self;
        Row {
            lower,
            higher,
            low,
            high,
        }
    }

    // Appends the lower's value v with the higher's value w, if the word has that pair.
    fn put_pair(self, rows: &mut Rows<4224>, v: u8, w: u8)
        requires { (1 ≤ v) × (v ≤ 8) × (1 ≤ w) × (w ≤ 8) × Room rows.old (pair_in self.lower self.higher self.word v w) }
        ensures { rows.new ≡ rows.old ++ pair_in self.lower self.higher self.word v w }
    {
        if self.bans(v, w) {
            rows.push(self.row(v, w));
        }
    }

    // Appends the pairs that the word has of the lower's value v.
    fn put_pairs_with(self, rows: &mut Rows<4224>, v: u8)
        requires { (1 ≤ v) × (v ≤ 8) × Room rows.old (pairs_with self.lower self.higher self.others self.word v) }
        ensures { rows.new ≡ rows.old ++ pairs_with self.lower self.higher self.others self.word v }
    {
        for w in 1..=self.others {
            self.put_pair(rows, v, w);
        }
    }

    // Appends all pairs that the word has.
    fn put_pairs(self, rows: &mut Rows<4224>)
        requires { Room rows.old (pairs_of self.lower self.higher self.slots self.others self.word) }
        ensures { rows.new ≡ rows.old ++ pairs_of self.lower self.higher self.slots self.others self.word }
    {
        for v in 1..=self.slots {
            self.put_pairs_with(rows, v);
        }
    }

    // Appends the run that begins at place k, if one does.
    fn put_run(self, rows: &mut Rows<4224>, gaps: Gaps, k: u8)
        requires { (k < 15) × Room rows.old (run_in self.lower self.higher (bit gaps.bits) k) }
        ensures { rows.new ≡ rows.old ++ run_in self.lower self.higher (bit gaps.bits) k }
    {
        if gaps.begins(k) {
            rows.push(self.row(gap_byte(k), gap_byte(gaps.last_of(k))));
        }
    }

    // Appends the runs of these gaps.
    fn put_runs(self, rows: &mut Rows<4224>, gaps: Gaps)
        requires { Room rows.old (runs_of self.lower self.higher (bit gaps.bits)) }
        ensures { rows.new ≡ rows.old ++ runs_of self.lower self.higher (bit gaps.bits) }
    {
        for k in 0..15 {
            self.put_run(rows, gaps, k);
        }
    }

    /// Appends the two agents' records of this edition: their banned pairs of values, or their runs
    /// of banned gaps. The list must have room for them. Equals `word_rows` of specs/Pairs.antt.
    pub fn put_rows(self, rows: &mut Rows<4224>, edition: Edition)
        requires { Room rows.old (word_rows (number_of edition) self.lower self.higher self.slots self.others self.word) }
        ensures { rows.new
            ≡ rows.old ++ word_rows (number_of edition) self.lower self.higher self.slots self.others self.word }
    {
        match edition {
            Edition::Bans => self.put_pairs(rows),
            Edition::Gaps => self.put_runs(rows, self.gaps()),
        }
    }
}
