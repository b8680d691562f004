//! The rules of a profile by syscall number.

ghost use Rattle.std.specs.Prelude.{◌≡◌, ◌≢◌, ℕ, ◌++◌, ◌∷◌, [], is_some, map, true, All, IfOk, IsTrue, OnOk};
ghost use Rattle.std.specs.BTreeMap.{get, IsOrdered};
ghost use Rattle.std.specs.Ordering.{nat_cmp};
ghost use Rattle.scf_profile.specs.NumberRules.{AreNumbersOf, AreRising};
ghost use Rattle.scf_profile.specs.internal.RulesUnder.{AreUnder, pair_of, rules_under};

use crate::rule::Rule;
use smallvec::SmallVec;
use std::alloc::{AllocError, Global};
use std::collections::BTreeMap;

/// A syscall number that a profile has rules for, and these rules in the order of the text. A single rule, the usual
/// case, needs no allocation.
#[derive(Drop)]
pub struct NumberRules {
    pub number: u32,
    pub rules: SmallVec<Rule, 1>,
    /// Whether it is known that each rule's first condition wants the same argument to have a value, and that no value
    /// is below an earlier rule's.
    pub is_rising: bool,
}

/// Whether each rule's first condition is found to want the same argument to have a value, and no value to be below an
/// earlier rule's. No answer is promised where they do.
fn are_rising(rules: &[Rule]) -> bool
    ensures { IsTrue result → AreRising rules.now }
{
    for i in 0..rules.len() {
        if !rules[i.saturating_sub(1)].rises_to(&rules[i]) {
            return false;
        }
    }
    true
}

/// The rules, by syscall number.
#[tactic(auto, using(std::proofs::lemmas::Grind::common_steps))]
fn rules_under_numbers(
    alloc: Global,
    rules: &[Rule],
) -> Result<BTreeMap<u32, SmallVec<Rule, 1>>, AllocError>
    ensures { IfOk result (AreUnder rules.now) }
{
    let mut under: BTreeMap<u32, SmallVec<Rule, 1>> = BTreeMap::new(alloc);
    for rule in rules {
        let copy = rule.try_clone(alloc)?;
        under.entry(rule.number)?.or_default().push(copy)?;
    }
    Ok(under)
}

/// The entries of a map from syscall numbers to rules.
fn numbers_of_tree(
    alloc: Global,
    under: BTreeMap<u32, SmallVec<Rule, 1>>,
) -> Result<Vec<NumberRules>, AllocError>
    ensures numbers { IfOk result (λ numbers. map pair_of numbers.items ≡ under.entries) }
    ensures rising { IfOk result (λ numbers.
        All (λ group. group.is_rising ≡ true → AreRising group.rules.items) numbers.items) }
    ensures ordered { IsOrdered nat_cmp under }
{
    let mut numbers = Vec::with_capacity(alloc, under.len())?;
    for (number, rules) in under {
        let is_rising = are_rising(&rules);
        numbers.push(NumberRules {
            number,
            rules,
            is_rising,
        })?;
    }
    Ok(numbers)
}

/// The distinct syscall numbers of rules in rising order, each with its rules in their order. `Err`: an allocation
/// failed.
#[tactic(auto, using(std::proofs::lemmas::Grind::common_steps, crate::proofs::NumberLists::are_numbers))]
pub(crate) fn by_number(alloc: Global, rules: &[Rule]) -> Result<Vec<NumberRules>, AllocError>
    ensures { IfOk result (λ numbers. AreNumbersOf numbers.items rules.now) }
{
    let under = rules_under_numbers(alloc, rules)?;
    numbers_of_tree(alloc, under)
}
