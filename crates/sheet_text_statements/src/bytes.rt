// Bytes of a text: where the first of a kind stands.
ghost use Rattle.std.specs.Prelude.{◌≡◌, ◌≤◌, eqb, length, position, not};
ghost use Rattle.std.specs.List.{position_or_len};
ghost use Rattle.model_text.specs.Words.{is_blank};

/// Returns where the first byte `b` stands; `None` where there is none.
pub fn find(s: &[u8], b: u8) -> Option<usize>
    ensures { result ≡ position (λ x. eqb x b) s.now }
{
    s.iter().position(|x| *x == b)
}

#[tactic(auto, unfolding(model_text::specs::Words::is_blank))]
fn is_blank(b: u8) -> bool
    ensures { result ≡ is_blank b }
{
    b == b' ' || b == b'\t'
}

/// Returns where the first byte stands that is neither a blank nor a tab; `None` where there is
/// none.
pub fn word_start(s: &[u8]) -> Option<usize>
    ensures { result ≡ position (λ b. not (is_blank b)) s.now }
{
    s.iter().position(|b| !is_blank(*b))
}

/// Returns where the first blank or tab stands; the length where there is none.
pub fn word_length(s: &[u8]) -> usize
    ensures { (result ≡ position_or_len is_blank s.now) × (result ≤ length s.now) }
{
    s.iter().take_while(|b| !is_blank(**b)).count()
}
