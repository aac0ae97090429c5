//! What an agent view bars, and the choice of a value: the rule 'Choosing' of docs/RULES.md, 'What
//! a scanner does', worked on packed words. It stands on `abt_packed`; `abt_agent` makes an agent's
//! steps of it. Start at `choose`; the module `conflict_masks` works out what a view bars. In every mask
//! of own values bit v - 1 is value v. The contracts are stated in specs/Conflicts.antt and
//! specs/Choosing.antt.
#![tactic(auto)]

ghost use Rattle.std.specs.Prelude.{◌≡◌, true, not, ℕ, pred, ◌≤◌, length, get_or};
ghost use Rattle.model_base.specs.Bits.{bit};
ghost use Rattle.model_base.specs.Finite.{lowest, is_some};
ghost use Rattle.model_agent.specs.Message.{known};
ghost use Rattle.model_agent.specs.Choosing.{lhs_of, union};
ghost use Rattle.model_agent.specs.Shape.{max_named};
ghost use Rattle.model_base.specs.Sets.{mask_from};
ghost use Rattle.abt_packed.specs.Packed.{assignment};
ghost use Rattle.abt_choosing.specs.Conflicts.{byte_of, ConfigFits};
ghost use Rattle.abt_choosing.specs.Choosing.{nogoods_of, Coherent, left_free, Barred, Blames, Reasoned, Chose};

pub mod conflict_masks;

use abt_packed::{digit, with_digit};

/// An agent's number and domain, and the network's rule: all that an agent has of the problem
/// beside the bans, which are lent. The public functions that take one require `ConfigFits` of
/// specs/Conflicts.antt: number 1 to 12, domain 1 to 8.
#[derive(Clone, Copy, Debug, PartialEq, Eq)]
pub struct AgentConfig {
    /// The agent's number, 1 to 12.
    pub number: u8,
    /// How many values it has: they are 1 to `domain`, at most 8.
    pub domain: u8,
    /// The rule, 1 or 2. Any other number acts as 1.
    pub rule: u8,
}

/// The own values that an agent view bars, for each agent that bars them. Agent k has a byte, in
/// which bit w - 1 says that k's value in the view bans own value w.
#[derive(Clone, Copy, Debug, PartialEq, Eq, Default)]
pub struct Conflicts {
    /// The bytes of agents 1 to 8; agent k has byte k - 1 from the low end.
    pub low: u64,
    /// The bytes of agents 9 to 16; agent k has byte k - 9 from the low end.
    pub high: u64,
}

/// What choosing comes to.
#[derive(Clone, Copy, Debug, PartialEq, Eq)]
pub struct Choice {
    /// The value taken. `None` where no own value is free.
    pub value: Option<u8>,
    /// The own values that have a nogood now.
    pub nogood_mask: u8,
    /// Where no value is free, the resolvent: all left-hand sides joined, as a packed word.
    /// Otherwise it has no meaning.
    pub resolvent: u64,
}

/// Returns the mask of the values 1 to 8 whose word in `nogoods` does not name agent `k`, 1 to 16.
pub fn nogoods_without(nogoods: &[u64; 8], k: u8) -> u8
    requires { (1 ≤ k) × (k ≤ 16) }
    ensures { result ≡ mask_from (λ v. not (known (assignment (get_or nogoods.now (pred v) 0) k))) 1 8 }
{
    let mut mask = 0;
    for (i, nogood) in nogoods.iter().enumerate() {
        if digit(*nogood, k) == 0 {
            mask |= 1u8 << i;
        }
    }
    mask
}

// The mask of the own values that neither a nogood nor the view bars.
fn free_values(own: AgentConfig, conflicts: Conflicts, nogood_mask: u8) -> u8
    requires { ConfigFits own }
    ensures { result ≡ mask_from (left_free nogood_mask conflicts) 1 own.domain }
{
    let values = 255u8 >> (8 - own.domain);
    values & !(nogood_mask | conflicts.all())
}

// The left-hand sides stored for own values, laid over each other. Only which agents it names has a
// meaning.
fn union_of_nogoods(nogoods: &[u64; 8], domain: u8, nogood_mask: u8) -> u64
    requires { domain ≤ 8 }
    ensures { (k : ℕ) → known (assignment result k) ≡ is_some (lowest domain 1 (λ v. known (lhs_of (nogoods_of nogood_mask nogoods.now v) k))) }
{
    let mut all = 0;
    let mut rest = nogood_mask;
    for nogood in &nogoods[..domain as usize] {
        if rest % 2 == 1 {
            all |= *nogood;
        }
        rest /= 2;
    }
    all
}

// The agent to blame for own value `w`, which some agent bars: "the lowest-numbered one that some
// stored reason names already, and only if there is none the lowest-numbered of all". The stored
// nogoods are read only where more than one agent bars it.
fn agent_to_blame(
    nogoods: &[u64; 8],
    own: AgentConfig,
    conflicts: Conflicts,
    nogood_mask: u8,
    w: u8,
) -> u8
    requires own_fits { ConfigFits own }
    requires barred { (1 ≤ w) × (w ≤ 8) × (is_some (lowest max_named 1 (λ k. bit (byte_of conflicts k) (pred w))) ≡ true) }
    ensures { Blames own conflicts (nogoods_of nogood_mask nogoods.now) w result }
{
    let first = conflicts.first(w).unwrap();
    if conflicts.with(first, 0).bans(w) {
        conflicts
            .first_of(union_of_nogoods(nogoods, own.domain, nogood_mask), w)
            .unwrap_or(first)
    } else {
        first
    }
}

// Goes through the own values 1 to `tried` upward, none of which is free: "A slot with a stored
// reason is skipped. A slot that is banned against a known slot of the view gets the reason "that
// scanner has that slot"." The nogoods are read as they stand when that value is tried. Returns the
// mask of the own values that have a nogood then, and the join of the left-hand sides met. The loop
// goes by number, since `agent_to_blame` reads all words between two writes.
fn give_reasons(
    nogoods: &mut [u64; 8],
    own: AgentConfig,
    view: u64,
    conflicts: Conflicts,
    nogood_mask: u8,
    tried: u8,
) -> (u8, u64)
    requires own_fits { ConfigFits own }
    requires none_free { (length nogoods.old ≡ 8) × (tried ≤ own.domain) × Barred nogood_mask conflicts tried }
    requires coherent { Coherent own (assignment view) (nogoods_of nogood_mask nogoods.old) }
    ensures reasoned { (length nogoods.new ≡ 8) × Reasoned own (assignment view) conflicts tried (nogoods_of nogood_mask nogoods.old) (nogoods_of result.0 nogoods.new) }
    ensures joined { assignment result.1 ≡ union tried (nogoods_of result.0 nogoods.new) }
{
    let mut reasoned = nogood_mask;
    let mut resolvent = 0;
    let mut rest = nogood_mask;
    for i in 0..tried {
        let lhs = if rest % 2 == 1 {
            nogoods[i as usize]
        } else {
            let k = agent_to_blame(nogoods, own, conflicts, reasoned, i + 1);
            let lhs = with_digit(0, k, digit(view, k));
            nogoods[i as usize] = lhs;
            reasoned |= 1u8 << i;
            lhs
        };
        resolvent |= lhs;
        rest /= 2;
    }
    (reasoned, resolvent)
}

/// Chooses an own value: "The lowest slot that is still free is taken; those above it are not tried
/// and get no reason." A value is free where `nogood_mask` does not have it and `conflicts` does
/// not bar it. Each own value below the one taken, or each of all where none is free, has a nogood
/// then: those that had none get one, in `nogoods`.
///
/// Requires that the view names only agents above, and that the stored nogoods agree with it
/// (`Coherent`). Equals `choose` of model_agent/specs/Choosing.antt where `conflicts` is what the
/// bans and the view bar. Where no value is free, `resolvent` equals `union` of the same file.
pub fn choose(
    nogoods: &mut [u64; 8],
    own: AgentConfig,
    view: u64,
    conflicts: Conflicts,
    nogood_mask: u8,
) -> Choice
    requires own_fits { ConfigFits own }
    requires coherent { (length nogoods.old ≡ 8) × Coherent own (assignment view) (nogoods_of nogood_mask nogoods.old) }
    ensures chose { (length nogoods.new ≡ 8) × Chose own (assignment view) conflicts (nogoods_of nogood_mask nogoods.old) result.value (nogoods_of result.nogood_mask nogoods.new) }
    ensures joined { result.value ≡ None → assignment result.resolvent ≡ union own.domain (nogoods_of result.nogood_mask nogoods.new) }
{
    let mask = free_values(own, conflicts, nogood_mask);
    let (tried, value) = if mask != 0 {
        let tried = mask.trailing_zeros() as u8;
        (tried, Some(tried + 1))
    } else {
        (own.domain, None)
    };
    let (nogood_mask, resolvent) = give_reasons(nogoods, own, view, conflicts, nogood_mask, tried);
    Choice {
        value,
        nogood_mask,
        resolvent,
    }
}
