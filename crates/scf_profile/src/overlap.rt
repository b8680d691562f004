//! Whether a record can meet the conditions of two rules.

ghost use Rattle.std.specs.Prelude.{◌≡◌, ◌≤◌, ◌↔◌, ◌==◌, ℕ, IfSome, IsTrue, option_map, true};
ghost use Rattle.std.specs.List.{find};
ghost use Rattle.scf_insn.specs.Architectures.{greatest_argument};
ghost use Rattle.scf_profile.specs.Rule.{HaveDistinctIndices};
ghost use Rattle.scf_profile.specs.internal.NumberSets.{IsNumberSet, is_in_some};
ghost use Rattle.scf_profile.specs.internal.Overlaps.{HoldAt, Overlap, OverlapAt};

use crate::condition::Condition;
use crate::limits::ARGUMENTS;
use crate::number_set::NumberSet;
use scf_insn::ArgumentBits;

/// The first condition on an argument.
pub(crate) fn condition_on(conditions: &[Condition], index: u8) -> Option<&Condition>
    ensures { option_map (λ c. c.now) result ≡ find (λ c. c.index == index) conditions.now }
{
    conditions.iter().find(|condition| condition.index == index)
}

/// The values for which the conditions on an argument hold, if there are any.
fn numbers_at(bits: ArgumentBits, conditions: &[Condition], index: u8) -> Option<NumberSet>
    requires { HaveDistinctIndices conditions.now }
    ensures same { (n : ℕ) → n ≤ greatest_argument bits
        → (is_in_some result n ≡ true) ↔ HoldAt conditions.now index n }
    ensures set { IfSome result (IsNumberSet bits) }
{
    match condition_on(conditions, index) {
        Some(condition) => condition.numbers(bits),
        None => Some(NumberSet::AtLeast(0)),
    }
}

/// Whether some value satisfies both lists' conditions on an argument.
fn overlap_at(bits: ArgumentBits, first: &[Condition], second: &[Condition], index: u8) -> bool
    requires first { HaveDistinctIndices first.now }
    requires second { HaveDistinctIndices second.now }
    ensures { IsTrue result ↔ OverlapAt bits first.now second.now index }
{
    let Some(numbers) = numbers_at(bits, first, index) else {
        return false;
    };
    let Some(others) = numbers_at(bits, second, index) else {
        return false;
    };
    numbers.has_common_with(bits, others)
}

/// Whether some six arguments satisfy both lists.
pub(crate) fn conditions_overlap(
    bits: ArgumentBits,
    first: &[Condition],
    second: &[Condition],
) -> bool
    requires first { HaveDistinctIndices first.now }
    requires second { HaveDistinctIndices second.now }
    ensures { IsTrue result ↔ Overlap bits first.now second.now }
{
    for index in 0..ARGUMENTS {
        if !overlap_at(bits, first, second, index) {
            return false;
        }
    }
    true
}
