//! How many of each kind were tried, and what failed.
use abt_words::printing::Screen;
use gate_counters::Count;
use gate_second_reading::reading::Sheet;
use support_rejection::Rejection;

/// A sheet under a rule.
#[derive(Clone, Copy)]
pub struct Trial<'a> {
    pub rule: u8,
    pub sheet: Sheet<'a>,
}

/// How many of each kind were tried.
#[derive(Clone, Copy)]
pub struct Tally {
    /// Sheets, each counted under either rule.
    pub sheets: Count,
    /// Accepted sheets of edition 2.
    pub gaps: Count,
    /// Rejected sheets by number, 1 to 4.
    pub refused: [Count; 4],
    /// Runs that end in `plan`.
    pub plans: Count,
    /// Runs that end in `none`.
    pub nones: Count,
    /// Runs that end in `jammed`.
    pub jammed: Count,
    /// Runs that end in `open`; a rejected run counts here too.
    pub open: Count,
    /// Lists of deliveries that come to rest.
    pub at_rest: Count,
    /// Lists of deliveries that come to the verdict.
    pub at_verdict: Count,
    /// Lists of deliveries that come to neither.
    pub cut_short: Count,
    /// Accepted deliveries.
    pub accepted: Count,
    /// Rejected deliveries.
    pub refusals: Count,
    failed: Count,
    out: Screen,
}

impl Tally {
    /// Nothing tried yet.
    pub fn new(out: Screen) -> Tally {
        let none = Count::none();
        Tally {
            sheets: none,
            gaps: none,
            refused: [none; 4],
            plans: none,
            nones: none,
            jammed: none,
            open: none,
            at_rest: none,
            at_verdict: none,
            cut_short: none,
            accepted: none,
            refusals: none,
            failed: none,
            out,
        }
    }

    /// Counts a sheet that is rejected so.
    pub fn refuse(&mut self, rejection: Rejection) {
        match rejection {
            Rejection::BadLength => self.refused[0].add(1),
            Rejection::BadHeader => self.refused[1].add(1),
            Rejection::BadRecord => self.refused[2].add(1),
            Rejection::Cycle => self.refused[3].add(1),
            _ => {}
        }
    }

    /// Counts what is not right, and prints it with the rule and the sheet, in hexadecimal digits,
    /// to try it with.
    pub fn judge(&mut self, trial: Trial, right: bool, words: &[u8]) {
        if !right {
            self.failed.add(1);
            self.out = self
                .out
                .put(b"failed, rule ")
                .number(trial.rule as u64)
                .put(b": ")
                .put(words);
            for b in trial.sheet.bytes {
                self.out = self.out.byte(*b);
            }
            self.out = self.out.put(b"\n");
        }
    }

    /// Prints how many of each kind were tried; none at all of a kind is a failure, but for runs
    /// that jammed.
    pub fn report(self) {
        let [first, second, third, fourth] = self.refused;
        let mut r = Report {
            failed: self.failed.n,
            out: self.out,
        };
        r.line(b"sheets ", self.sheets);
        r.line(b"of gaps, accepted ", self.gaps);
        r.line(b"refused 1: ", first);
        r.line(b"refused 2: ", second);
        r.line(b"refused 3: ", third);
        r.line(b"refused 4: ", fourth);
        r.line(b"runs to a plan ", self.plans);
        r.line(b"runs to none ", self.nones);
        // rare: none of these sheets does
        r.out = r.out.line(b"runs that jammed ", self.jammed.n);
        r.line(b"runs left open ", self.open);
        r.line(b"lists to rest ", self.at_rest);
        r.line(b"lists to the verdict ", self.at_verdict);
        r.line(b"lists cut short ", self.cut_short);
        r.line(b"deliveries accepted ", self.accepted);
        r.line(b"deliveries refused ", self.refusals);
        r.out.number(r.failed).put(b" failed\n");
    }
}

// ---- the report

// How many have failed so far, and what is printed.
#[derive(Clone, Copy)]
struct Report {
    failed: u64,
    out: Screen,
}

impl Report {
    // How many of a kind were tried; none at all is a failure.
    fn line(&mut self, words: &[u8], tried: Count) {
        self.out = self.out.line(words, tried.n);
        if tried.n == 0 {
            self.failed = 1;
            self.out = self.out.put(b"failed: nothing of this kind was tried\n");
        }
    }
}
