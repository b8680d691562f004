//! The rules by which libseccomp's filter answers.

ghost use Rattle.std.specs.Prelude.{◌≡◌, ◌==◌, ◌&&◌, ℕ, IfOk, option_map};
ghost use Rattle.std.specs.List.{find};
ghost use Rattle.std.specs.BTreeMap.{get};
ghost use Rattle.std.specs.Ordering.{nat_cmp};
ghost use Rattle.scf_profile.specs.Readings.{effective_rules as effective_by, is_unconditional};

use crate::reading::Reading;
use crate::rule::Rule;
use scf_insn::{Answer, Architecture};
use std::alloc::{AllocError, Global};
use std::collections::BTreeMap;

/// The answer of the first rule without conditions of each syscall number that has one.
fn first_answers(
    alloc: Global,
    architecture: Architecture,
    rules: &[Rule],
) -> Result<BTreeMap<u32, Answer>, AllocError>
    ensures { IfOk result (λ answers. (number : ℕ) → get nat_cmp answers number
        ≡ option_map (λ r. r.answer)
        (find (λ r. (r.number == number) && is_unconditional architecture r) rules.now)) }
{
    let mut answers = BTreeMap::new(alloc);
    for rule in rules {
        if rule.is_unconditional(architecture) {
            answers.entry(rule.number)?.or_insert(rule.answer);
        }
    }
    Ok(answers)
}

/// The rules by which a filter answers: all of them, but for a runtime's reading. `Err`: an allocation failed.
pub(crate) fn effective_rules(
    alloc: Global,
    reading: Reading,
    architecture: Architecture,
    mut rules: Vec<Rule>,
) -> Result<Vec<Rule>, AllocError>
    ensures { IfOk result (λ list. list.items ≡ effective_by reading architecture rules.items) }
{
    if !reading.is_runtime() {
        return Ok(rules);
    }
    let answers = first_answers(alloc, architecture, &rules)?;
    rules.retain(|rule| match answers.get(&rule.number) {
        Some(first) => *first == rule.answer,
        None => true,
    });
    Ok(rules)
}
