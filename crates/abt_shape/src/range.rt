//! Whether the problem of a network is in range: n, the domains and the bans.
ghost use Rattle.std.specs.Prelude.{◌≡◌, true, ℕ, suc, pred, ◌%◌, ◌≤◌, ◌<◌, eqb, length, get_or};
ghost use Rattle.model_base.specs.Finite.{all_to};
ghost use Rattle.abt_packed.specs.Packed.{assignment};
ghost use Rattle.abt_shape.specs.Parts.{Domains, Columns, Beyond};
ghost use Rattle.model_sheet.specs.Problem.{Problem, max_agents, domain, owns, word_at, domain_in_range, word_owned, bans_owned, sized, in_range};

use crate::places::words_before;
use abt_packed::digit;

/// Returns the domains as a word of hexadecimal digits, each modulo 16: digit k, from 1 at the low
/// end, is that of agent k.
pub fn domain_digits(domains: &[u8; 12]) -> u64
    ensures { (p : Problem) → p.domains ≡ domains.now → length p.domains ≡ 12 → (k : ℕ) → assignment result k ≡ domain p k % 16 }
{
    let mut word: u64 = 0;
    for d in domains.iter().rev() {
        word = word * 16 + (*d % 16) as u64;
    }
    word
}

/// Returns whether agent `k`, 1 to 16, owns value `v`, where `domains` has the domains as digits.
/// Equals `owns` of model_sheet/specs/Problem.antt.
pub fn in_domain(domains: u64, k: u8, v: u8) -> bool
    requires { (1 ≤ k) × (k ≤ 16) }
    ensures { (p : Problem) → Domains p domains → result ≡ owns p k v }
{
    0 < v && v <= digit(domains, k)
}

// The domain d of agent i is 1 to 8, and 0 beyond `count`.
fn domain_in_range(count: u8, i: u8, d: u8) -> bool
    requires { (1 ≤ i) × (i ≤ 12) }
    ensures { (p : Problem) → p.count ≡ count → domain p i ≡ d → result ≡ domain_in_range p i }
{
    if i <= count { 0 < d && d <= 8 } else { d == 0 }
}

#[tactic(auto, unfolding(model_base::specs::Finite::all_to, model_sheet::specs::Problem::max_agents))]
fn domains_in_range(count: u8, domains: &[u8; 12]) -> bool
    ensures { (p : Problem) → p.count ≡ count → p.domains ≡ domains.now → result ≡ all_to max_agents (domain_in_range p) }
{
    for (k, d) in domains.iter().enumerate() {
        if !domain_in_range(count, k as u8 + 1, *d) {
            return false;
        }
    }
    true
}

// The bits of a word of bans that stand for owned values of a higher agent with domain e: so many
// in each byte.
fn columns(e: u8) -> u64
    ensures { Columns e result }
{
    if 8 <= e {
        u64::MAX
    } else {
        0x0101_0101_0101_0101 * ((1u64 << e) - 1)
    }
}

// The bits of a word of bans that stand for no owned value of a lower agent with domain d: the
// bytes behind d.
fn beyond(d: u8) -> u64
    ensures { Beyond d result }
{
    if 8 <= d { 0 } else { u64::MAX << (8 * d) }
}

// The bits of a word of bans that stand for no owned values; there are none exactly if the bans are
// between owned ones. `rows` is `beyond` of the lower agent, `columns` that of the higher.
fn unowned(rows: u64, columns: u64, word: u64) -> u64
    ensures { (d e : ℕ) → Beyond d rows → Columns e columns → word_owned d e word ≡ eqb result 0 }
{
    word & (rows | !columns)
}

// The words of bans of higher agent j, all at once: what stands for no owned values is laid over
// each other.
fn bans_of_owned(rows: &[u64; 12], columns: u64, bans: &[u64; 66], j: u8) -> bool
    requires { (1 ≤ j) × (j ≤ 12) }
    ensures { (p : Problem) → p.bans ≡ bans.now → Columns (domain p j) columns → ((i : ℕ) → i < 12 → Beyond (domain p (suc i)) (get_or rows.now i 0)) → result ≡ all_to (pred j) (λ i. word_owned (domain p i) (domain p j) (get_or p.bans (word_at i j) 0)) }
{
    let words = words_before(j);
    let mut over: u64 = 0;
    // by number: it is the place of a lower agent in the rows and in the words
    for k in (0..j as usize - 1).rev() {
        over |= unowned(rows[k], columns, bans[words + k]);
    }
    over == 0
}

// For each agent the bits that stand for no value that it owns as the lower one.
fn all_beyond(domains: &[u8; 12]) -> [u64; 12]
    ensures { (length result ≡ 12) × ((i : ℕ) → i < 12 → Beyond (get_or domains.now i 0) (get_or result i 0)) }
{
    domains.map(beyond)
}

#[tactic(auto, unfolding(model_base::specs::Finite::all_to, model_sheet::specs::Problem::max_agents, model_sheet::specs::Problem::bans_owned))]
fn bans_owned(domains: &[u8; 12], bans: &[u64; 66]) -> bool
    ensures { (p : Problem) → p.domains ≡ domains.now → p.bans ≡ bans.now → result ≡ bans_owned p }
{
    let rows = all_beyond(domains);
    for (k, d) in domains.iter().enumerate() {
        if !bans_of_owned(&rows, columns(*d), bans, k as u8 + 1) {
            return false;
        }
    }
    true
}

/// Returns whether a problem is in range: n is 1 to 12, the domains are 1 to 8 up to n and 0
/// beyond, and bans are only between owned values. Equals `in_range` of
/// model_sheet/specs/Problem.antt; the arrays' lengths are those of the types.
pub fn in_range(count: u8, domains: &[u8; 12], bans: &[u64; 66]) -> bool
    ensures { (p : Problem) → sized p ≡ true → p.count ≡ count → p.domains ≡ domains.now → p.bans ≡ bans.now → result ≡ in_range p }
{
    0 < count && count <= 12 && domains_in_range(count, domains) && bans_owned(domains, bans)
}
