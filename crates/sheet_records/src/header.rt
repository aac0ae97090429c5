// The header: its checks, and the domain sizes that it holds.
ghost use Rattle.std.specs.Prelude.{◌≡◌, ◌+◌, ◌≤◌, ◌<◌, length};
ghost use Rattle.model_base.specs.Finite.{within, all_to};
ghost use Rattle.model_sheet.specs.Problem.{domain, domain_in_range};
ghost use Rattle.model_sheet.specs.Sheet.{word_from, domains_in, without_bans, header_good};

use crate::bytes::Sheet;

/// Reads the bytes at `k` and `k + 1`, low byte first: 0 to 65,535. Both must lie within `s`.
/// Equals `word_from` of model_sheet/specs/Sheet.antt.
#[tactic(auto, unfolding(model_sheet::specs::Sheet::byte_at, model_sheet::specs::Sheet::word_from))]
pub fn two_bytes(s: &[u8], k: usize) -> usize
    requires { k + 1 < length s.now }
    ensures { (result ≡ word_from s.now k) × (result < 65536) }
{
    u16::from_le_bytes([s[k], s[k + 1]]) as usize
}

/// Returns whether `k` is one of 1 to `m`. Equals `within` of model_base/specs/Finite.antt.
#[tactic(auto, unfolding(model_base::specs::Finite::within))]
pub fn within(m: u8, k: u8) -> bool
    ensures { result ≡ within m k }
{
    (1..=m).contains(&k)
}

impl Sheet<'_> {
    /// Returns the domain size of agent `i`, 1 to 12, as the byte says it. Equals `domain` of
    /// model_sheet/specs/Problem.antt.
    #[tactic(auto, using(crate::proofs::Headers::domain_byte), unfolding(model_sheet::specs::Sheet::byte_at))]
    pub fn domain(&self, i: usize) -> u8
        requires { (1 ≤ i) × (i ≤ 12) }
        ensures { result ≡ domain (without_bans self.now.bytes.now) i }
    {
        self.bytes[7 + i]
    }

    // The domain size of agent i is 1 to 8, and beyond n it is zero.
    #[tactic(auto, unfolding(model_sheet::specs::Problem::max_domain, model_sheet::specs::Problem::domain_in_range, model_sheet::specs::Sheet::agents_in, model_sheet::specs::Sheet::byte_at, model_sheet::specs::Sheet::without_bans))]
    fn domain_good(&self, i: usize) -> bool
        requires { (1 ≤ i) × (i ≤ 12) }
        ensures { result ≡ domain_in_range (without_bans self.now.bytes.now) i }
    {
        let d = self.domain(i);
        if i <= self.bytes[0] as usize {
            within(8, d)
        } else {
            d == 0
        }
    }

    // All twelve domain sizes are good.
    #[tactic(auto, using(crate::proofs::Tests::all_passed))]
    fn domains_good(&self) -> bool
        ensures { result ≡ all_to 12 (domain_in_range (without_bans self.now.bytes.now)) }
    {
        for i in 1..=12 {
            if !self.domain_good(i) {
                return false;
            }
        }
        true
    }

    /// Checks the header's 24 bytes: n, the edition, the first index, m, the domain sizes and the
    /// zeros. Equals `header_good` of model_sheet/specs/Sheet.antt.
    #[tactic(auto, unfolding(model_sheet::specs::Problem::max_agents, model_sheet::specs::Problem::count_in_range, model_sheet::specs::Sheet::max_records, model_sheet::specs::Sheet::byte_at, model_sheet::specs::Sheet::agents_in, model_sheet::specs::Sheet::edition_in, model_sheet::specs::Sheet::first_in, model_sheet::specs::Sheet::records_in, model_sheet::specs::Sheet::without_bans, model_sheet::specs::Sheet::header_good))]
    pub fn header_good(&self) -> bool
        ensures { result ≡ header_good self.now.bytes.now }
    {
        let s = self.bytes;
        let records = two_bytes(s, 4);
        within(12, s[0])
            && within(2, s[1])
            && records <= 4224
            && two_bytes(s, 6) == 0
            && self.domains_good()
            && two_bytes(s, 20) == 0
            && two_bytes(s, 22) == 0
            && two_bytes(s, 2) <= records
    }

    /// Returns the twelve domain sizes, bytes 8 to 19. Equals `domains_in` of
    /// model_sheet/specs/Sheet.antt.
    #[tactic(auto, unfolding(model_sheet::specs::Problem::max_agents, model_sheet::specs::Sheet::domains_in))]
    pub fn domains(&self) -> [u8; 12]
        ensures { (result ≡ domains_in self.now.bytes.now) × (length result ≡ 12) }
    {
        let mut d = [0; 12];
        d.copy_from_slice(&self.bytes[8..20]);
        d
    }
}
