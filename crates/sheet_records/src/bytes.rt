// The bytes of a sheet.
ghost use Rattle.std.specs.Prelude.{◌≡◌, ◌≤◌, eqb, length};
ghost use Rattle.model_sheet.specs.Sheet.{edition_in};

/// The bytes of a sheet: at least the 24 of a header, and nothing else of them is checked.
#[derive(Clone, Copy)]
pub struct Sheet<'a> {
    pub bytes: &'a [u8],
    pub ghost long: { 24 ≤ length bytes.now },
}

impl Sheet<'_> {
    /// Returns whether byte 1 says edition 2. Any other byte there, also one that is no edition,
    /// gives `false`.
    #[tactic(auto, unfolding(model_sheet::specs::Sheet::byte_at, model_sheet::specs::Sheet::edition_in))]
    pub(crate) fn of_gaps(&self) -> bool
        ensures { result ≡ eqb (edition_in self.now.bytes.now) 2 }
    {
        self.bytes[1] == 2
    }
}
