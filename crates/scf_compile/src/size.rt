//! The size bounds of compiled filters.

ghost use Rattle.std.specs.Prelude.{◌≡◌, ◌<◌, ◌^◌, sum_by};
ghost use Rattle.scf_compile.specs.SizeBound.{number_count, rule_bound, size_bound_of, stub_count};

use scf_profile::{Profile, Rule};

/// 1 for a profile with a stub, else 0.
fn stub_count(profile: &Profile) -> usize
    ensures { result ≡ stub_count profile.now.stub }
{
    match profile.stub() {
        Some(_) => 1,
        None => 0,
    }
}

/// The count of distinct syscall numbers of a profile's rules. A stub counts as one more.
#[tactic(auto, using(crate::proofs::Sizes::count_small, crate::proofs::Common::count_of_numbers))]
pub(crate) fn number_count(profile: &Profile) -> usize
    ensures count { result ≡ number_count profile.now }
    ensures few { result < 2 ^ 32 }
{
    profile.numbers().len() + stub_count(profile)
}

/// 2 for each of the rules, and 8 for each of its conditions.
fn bound_of_rules(rules: &[Rule]) -> u64
    requires { sum_by rule_bound rules.now < 2 ^ 31 }
    ensures { result ≡ sum_by rule_bound rules.now }
{
    let mut bound = 0;
    for rule in rules {
        bound += 2 + 8 * rule.conditions.as_slice().len() as u64;
    }
    bound
}

/// The size bound of a profile's filter, in instructions: 8, plus 4 for each distinct syscall number, plus 2 for each
/// rule, plus 8 for each condition; a stub counts as one more number, with one rule. `compile` answers `TooLarge` only
/// if this exceeds `BPF_MAXINSNS` (4096). Never allocates.
#[tactic(auto, using(crate::proofs::Sizes::size_small, crate::proofs::Common::count_of_numbers))]
pub fn size_bound(profile: &Profile) -> u64
    ensures { result ≡ size_bound_of profile.now }
{
    let rules = bound_of_rules(profile.rules()) + 2 * stub_count(profile) as u64;
    8 + 4 * number_count(profile) as u64 + rules
}
