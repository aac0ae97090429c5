// Single bits of a word.
ghost use Rattle.std.specs.Prelude.{◌≡◌, ◌<◌};
ghost use Rattle.model_base.specs.Bits.{bit};

/// Returns whether bit `k`, 0 to 63, is 1. Equals `bit` of model_base/specs/Bits.antt.
#[tactic(auto, unfolding(model_base::specs::Bits::bit))]
pub fn has(x: u64, k: u8) -> bool
    requires { k < 64 }
    ensures { result ≡ bit x k }
{
    (x >> k) % 2 == 1
}
