//! Random bytes, by the generator that the random sheets are drawn by.
ghost use Rattle.std.specs.Prelude.{◌-◌, ◌≤◌};

use gate_random::draws::pick;

/// One of the numbers from 0 up to `below` less one; 0 where `below` is 0.
pub fn draw(state: u64, below: u8) -> u8
    ensures { result ≤ below - 1 }
{
    pick(state, usize::from(below)) as u8
}
