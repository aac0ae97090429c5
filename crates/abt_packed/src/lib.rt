//! Packed words: partial assignments as hexadecimal digits of a `u64`, and sets of agents as bits
//! of a `u16`. Digit k of a word, counted from 1 at the low end, is the value of agent k; bit k - 1
//! of a set is agent k. Agents and places are numbers from 1 to 16. What the words mean is in
//! specs/Packed.antt, on which the contracts stand. Start at `digit` and `Entries`.
#![tactic(auto)]

ghost use Rattle.std.specs.Prelude.{◌≡◌, ℕ, ◌+◌, ◌*◌, ◌-◌, ◌%◌, ◌^◌, ◌≤◌, ◌<◌, true, false, not, cond, ◌||◌, eqb, leb, IfSome};
ghost use Rattle.std.specs.Iterator.{at_most};
ghost use Rattle.model_base.specs.Finite.{at, highest, all_to};
ghost use Rattle.model_agent.specs.Message.{known};
ghost use Rattle.model_agent.specs.Shape.{max_named};
ghost use Rattle.model_base.specs.Sets.{members};
ghost use Rattle.abt_packed.specs.Packed.{field, exchanged, assignment, Lowest, naming, EntryTaken, MemberTaken};

// ---- fields of so many bits each

/// Returns field `k` of a word, counted from 1 at the low end, where a field has `BITS` bits.
/// `BITS` is at most 8, and the field lies within the word. Equals `field` of specs/Packed.antt,
/// which counts from 0.
pub fn field<const BITS: u8>(x: u64, k: u8) -> u8
    requires { (1 ≤ k) × (BITS ≤ 8) × (BITS * k ≤ 64) }
    ensures { result ≡ field BITS x (k - 1) }
{
    ((x >> (BITS * (k - 1))) % (1 << BITS)) as u8
}

/// Returns the word with `v` as field `k`, counted as in `field`. `v` has at most `BITS` bits.
/// Equals `exchanged` of specs/Packed.antt.
pub fn with_field<const BITS: u8>(x: u64, k: u8, v: u8) -> u64
    requires { (1 ≤ k) × (BITS ≤ 8) × (BITS * k ≤ 64) × (v < 2 ^ BITS) }
    ensures { result ≡ exchanged BITS (BITS * (k - 1)) x v }
{
    let place = BITS * (k - 1);
    let mask: u64 = (1 << BITS) - 1;
    x - (x & (mask << place)) + ((v as u64) << place)
}

// ---- digits

/// Returns digit `k` of a word, 0 to 15. `k` is 1 to 16. Equals `assignment` of specs/Packed.antt.
pub fn digit(x: u64, k: u8) -> u8
    requires { (1 ≤ k) × (k ≤ 16) }
    ensures { (result ≡ assignment x k) × (result < 16) }
{
    field::<4>(x, k)
}

/// Returns the word with `v`, 0 to 15, as digit `k`, 1 to 16.
pub fn with_digit(x: u64, k: u8, v: u8) -> u64
    requires { (1 ≤ k) × (k ≤ 16) × (v < 16) }
    ensures { assignment result ≡ at (assignment x) k v }
{
    with_field::<4>(x, k, v)
}

/// Returns the word with digit `k`, 1 to 16, raised by one. The digit is under 15.
pub fn one_more(x: u64, k: u8) -> u64
    requires { (1 ≤ k) × (k ≤ 16) × (assignment x k < 15) }
    ensures { assignment result ≡ at (assignment x) k (assignment x k + 1) }
{
    x + (1u64 << (4 * (k - 1)))
}

/// Returns the word with digit `k`, 1 to 16, lowered by one. The digit is at least 1.
pub fn one_less(x: u64, k: u8) -> u64
    requires { (1 ≤ k) × (k ≤ 16) × (1 ≤ assignment x k) }
    ensures { (assignment result ≡ at (assignment x) k (assignment x k - 1)) × (result < x) }
{
    x - (1u64 << (4 * (k - 1)))
}

/// Returns the word with digit `k`, 1 to 16, moved one place round a ring of eight: after 7 comes
/// 0. A digit beyond 7 counts modulo 8.
pub fn one_further(x: u64, k: u8) -> u64
    requires { (1 ≤ k) × (k ≤ 16) }
    ensures { assignment result ≡ at (assignment x) k ((assignment x k + 1) % 8) }
{
    let sevens = !(8u64 << (4 * (k - 1)));
    one_more(x & sevens, k) & sevens
}

/// Returns the place, 1 to 16, of the lowest digit that is not 0. The word is not 0.
pub fn first_digit(x: u64) -> u8
    requires { 1 ≤ x }
    ensures { Lowest (λ k. known (assignment x k)) result }
{
    x.trailing_zeros() as u8 / 4 + 1
}

/// Returns the place, 1 to 16, of the highest digit that is not 0. `None` where the word is 0.
pub fn last_digit(x: u64) -> Option<u8>
    ensures found { result ≡ highest max_named (λ k. known (assignment x k)) }
    ensures in_range { IfSome result (λ k. (1 ≤ k) × (k ≤ 16)) }
{
    if x == 0 {
        None
    } else {
        Some((67 - x.leading_zeros()) as u8 / 4)
    }
}

/// The agents that a word names, upward, each with its digit: `for (k, v) in Entries(x)`.
#[derive(Clone, Debug, Drop)]
pub struct Entries(pub u64);

impl Iterator for Entries {
    type Item = (u8, u8);

    ghost next_gives = { λ s r t. EntryTaken s.0 r t.0 };

    ghost remaining = { λ s. at_most (naming s.0) };

    fn next(&mut self) -> Option<(u8, u8)> {
        if self.0 == 0 {
            return None;
        }
        let k = first_digit(self.0);
        let v = digit(self.0, k);
        self.0 = with_digit(self.0, k, 0);
        Some((k, v))
    }
}

/// Returns the word that has 15 at each digit that is not 0 in `x`, and 0 elsewhere.
pub fn named(x: u64) -> u64
    ensures { (k : ℕ) → assignment result k ≡ cond (known (assignment x k)) 15 0 }
{
    15 * ((x | (x >> 1) | (x >> 2) | (x >> 3)) & 0x1111_1111_1111_1111)
}

/// Returns whether each digit of `x` is 0 or equal to the same digit of `y`.
pub fn within(x: u64, y: u64) -> bool
    ensures { result ≡ all_to max_named (λ k. not (known (assignment x k)) || eqb (assignment x k) (assignment y k)) }
{
    y & named(x) == x
}

// Whether each digit of odd place, the low half of a byte, is at most the same digit of `y`. The
// top bit of a byte stays only then.
fn odd_at_most(x: u64, y: u64) -> bool
    ensures { result ≡ all_to 8 (λ j. leb (assignment x (2 * j - 1)) (assignment y (2 * j - 1))) }
{
    let lows: u64 = 0x0f0f_0f0f_0f0f_0f0f;
    let tops: u64 = 0x8080_8080_8080_8080;
    (((y & lows) + tops) - (x & lows)) & tops == tops
}

/// Returns whether each digit of `x` is at most the same digit of `y`.
pub fn at_most(x: u64, y: u64) -> bool
    ensures { result ≡ all_to max_named (λ k. leb (assignment x k) (assignment y k)) }
{
    odd_at_most(x, y) && odd_at_most(x >> 4, y >> 4)
}

/// Returns the set of the agents that a word names.
pub fn names(x: u64) -> u16
    ensures { (k : ℕ) → members result k ≡ known (assignment x k) }
{
    // one bit of each digit, drawn together by twos, fours, eights and all
    let ones = (x | (x >> 1) | (x >> 2) | (x >> 3)) & 0x1111_1111_1111_1111;
    let twos = (ones | (ones >> 3)) & 0x0303_0303_0303_0303;
    let fours = (twos | (twos >> 6)) & 0x000f_000f_000f_000f;
    let eights = (fours | (fours >> 12)) & 0x0000_00ff_0000_00ff;
    ((eights | (eights >> 24)) & 0xffff) as u16
}

// ---- sets

/// Returns whether agent `k`, 1 to 16, is in the set.
pub fn has(set: u16, k: u8) -> bool
    requires { (1 ≤ k) × (k ≤ 16) }
    ensures { result ≡ members set k }
{
    (set >> (k - 1)) % 2 == 1
}

/// Returns the set with agent `k`, 1 to 16.
pub fn add(set: u16, k: u8) -> u16
    requires { (1 ≤ k) × (k ≤ 16) }
    ensures { members result ≡ at (members set) k true }
{
    set | (1u16 << (k - 1))
}

/// Returns the lowest-numbered agent of a set, which is not empty.
pub fn first(set: u16) -> u8
    requires { 1 ≤ set }
    ensures { Lowest (members set) result }
{
    set.trailing_zeros() as u8 + 1
}

/// Returns the set without agent `k`, 1 to 16, which is in it.
pub fn without(set: u16, k: u8) -> u16
    requires { (1 ≤ k) × (k ≤ 16) × (members set k ≡ true) }
    ensures { (members result ≡ at (members set) k false) × (result < set) }
{
    set - (1u16 << (k - 1))
}

/// The agents of a set, upward: `for k in Members(set)`.
#[derive(Clone, Debug, Drop)]
pub struct Members(pub u16);

impl Iterator for Members {
    type Item = u8;

    ghost next_gives = { λ s r t. MemberTaken s.0 r t.0 };

    ghost remaining = { λ s. at_most s.0 };

    fn next(&mut self) -> Option<u8> {
        if self.0 == 0 {
            return None;
        }
        let k = first(self.0);
        self.0 = without(self.0, k);
        Some(k)
    }
}
