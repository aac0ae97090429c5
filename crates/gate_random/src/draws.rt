//! Random numbers, the same ones in each run.
ghost use Rattle.std.specs.Prelude.{◌≡◌, ◌-◌, ◌*◌, ◌%◌, ◌≤◌};
ghost use Rattle.gate_random.specs.Draws.{picked};

/// Lehmer's generator: the state after this one, below 2,147,483,647. A multiple of that number
/// leads to 0, and 0 to itself.
pub fn next(state: u64) -> u64
    ensures { result ≡ state % 2147483647 * 48271 % 2147483647 }
{
    state % 2147483647 * 48271 % 2147483647
}

/// A number below `below`, and 0 where `below` is 0. Equals `picked` of specs/Draws.antt.
#[tactic(auto, unfolding(crate::specs::Draws::picked))]
pub fn pick(state: u64, below: usize) -> usize
    ensures { (result ≡ picked state below) × (result ≤ below - 1) }
{
    if below == 0 {
        0
    } else {
        (state % below as u64) as usize
    }
}
