// Reading a call from a word of the command line.
ghost use Rattle.std.specs.Prelude.{◌≡◌, ◌<◌, not, eqb, length, position, IfSome};
ghost use Rattle.abt_board_text.specs.Reading.{byte_in, dash_in, ends_in, call_in};
ghost use Rattle.abt_board_text.specs.Text.{significant};

use abt_calls::Call;
use abt_dispatch::Line;
use support_buffer::read_number;

/// Reads a number from 0 to 255 in decimal digits, with or without leading zeros; `None` for any
/// other word. Equals `byte_in` of specs/Reading.antt.
#[tactic(auto, unfolding(crate::specs::Reading::byte_in, crate::specs::Reading::byte_for, crate::specs::Reading::is_byte))]
pub fn read_byte(word: &[u8]) -> Option<u8>
    ensures { result ≡ byte_in word.now }
{
    u8::try_from(read_number(word)?).ok()
}

// Where the first dash stands.
#[tactic(auto, unfolding(crate::specs::Reading::dash_in))]
fn dash_at(word: &[u8]) -> Option<usize>
    ensures at { result ≡ dash_in word.now }
    ensures within { IfSome result (λ k. k < length word.now) }
{
    word.iter().position(|b| *b == b'-')
}

// The numbers on both sides of the first dash.
#[tactic(auto, unfolding(crate::specs::Reading::ends_in, crate::specs::Reading::ends_at, crate::specs::Reading::ends_for))]
fn read_ends(word: &[u8]) -> Option<Line>
    ensures { result ≡ ends_in word.now }
{
    let dash = dash_at(word)?;
    let from = read_byte(&word[..dash])?;
    let to = read_byte(&word[dash + 1..])?;
    Some(Line { from, to })
}

/// Reads the call that a word says: `A-B` is a delivery from A to B, `wA-B` a pick with the wish A
/// to B, `rN` a run with N rounds; `None` for any other word. A and B are 0 to 255. An N above
/// `2^64 - 1` is read as that number. Equals `call_in` of specs/Reading.antt.
#[tactic(auto, unfolding(crate::specs::Reading::call_in))]
pub fn read_call(word: &[u8]) -> Option<Call>
    ensures { result ≡ call_in word.now }
{
    match word {
        [] => None,
        [b'r', rounds @ ..] => Some(Call::Run(read_number(rounds)?)),
        [b'w', wish @ ..] => Some(Call::Pick(read_ends(wish)?)),
        _ => Some(Call::Deliver(read_ends(word)?)),
    }
}

// Where the first digit stands that is not `0`.
fn nonzero_at(digits: &[u8]) -> Option<usize>
    ensures at { result ≡ position (λ b. not (eqb b 48)) digits.now }
    ensures within { IfSome result (λ k. k < length digits.now) }
{
    digits.iter().position(|b| *b != b'0')
}

/// Returns the digits from the first on that is not `0`; the last one where all are `0`. Equals
/// `significant` of specs/Text.antt.
#[tactic(auto, unfolding(crate::specs::Text::significant))]
pub fn without_leading_zeros(digits: &[u8]) -> &[u8]
    ensures { result.now ≡ significant digits.now }
{
    let last = digits.len().saturating_sub(1);
    &digits[nonzero_at(digits).unwrap_or(last)..]
}
