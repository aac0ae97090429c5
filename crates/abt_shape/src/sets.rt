//! Sets of agents, as masks: bit k - 1 is agent k, and there is room for 16.
ghost use Rattle.std.specs.Prelude.{◌≡◌, ◌<◌, ltb, leb};
ghost use Rattle.model_network.specs.Shape.{each_in};
ghost use Rattle.model_base.specs.Sets.{members};

/// Returns whether all agents of the set are at most `m`.
pub fn all_to(set: u16, m: u8) -> bool
    ensures { result ≡ each_in (members set) (λ k. leb k m) }
{
    16 <= m || set >> m == 0
}

/// Returns whether all agents of the set are above the number `i`, which is under 16.
pub fn all_above(set: u16, i: u8) -> bool
    requires { i < 16 }
    ensures { result ≡ each_in (members set) (λ k. ltb i k) }
{
    set % (1u16 << i) == 0
}
