// How a program ends.
ghost use Rattle.std.specs.Prelude.{◌≡◌, max};
ghost use Rattle.support_cli.specs.Answers.{status_code};

/// How a program ends: with the greatest status of what it said. The discriminant is the exit
/// status.
#[derive(Clone, Copy, Debug, PartialEq, Eq)]
pub enum Status {
    /// The program did what its command line asks for.
    Done = 0,
    /// A sheet, a rule, an image, an ordinal or a text is rejected.
    Refused = 1,
    /// Something was not understood or could not be read, or memory ran out.
    NotUnderstood = 2,
    /// Standard output could not be written.
    NotWritten = 3,
}

impl Status {
    /// Returns the exit status, 0 to 3. Equals `status_code` of specs/Answers.antt.
    pub fn code(self) -> u8
        ensures { result ≡ status_code self }
    {
        self as u8
    }

    /// Returns the greater of the two.
    pub fn or(self, other: Status) -> Status
        ensures { status_code result ≡ max (status_code self) (status_code other) }
    {
        if self.code() < other.code() {
            other
        } else {
            self
        }
    }
}
