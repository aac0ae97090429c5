// The two editions of a sheet.
ghost use Rattle.std.specs.Prelude.{◌≡◌};
ghost use Rattle.sheet_writer.specs.Editions.{number_of};

/// The edition of a sheet: what its records say.
#[derive(Clone, Copy, Debug, PartialEq, Eq)]
pub enum Edition {
    /// Edition 1: a record bans one pair of values.
    Bans,
    /// Edition 2: a record bans a run of gaps.
    Gaps,
}

impl Edition {
    /// Returns the edition's number in the header, 1 or 2. Equals `number_of` of
    /// specs/Editions.antt.
    pub fn number(self) -> u8
        ensures { result ≡ number_of self }
    {
        match self {
            Edition::Bans => 1,
            Edition::Gaps => 2,
        }
    }
}
