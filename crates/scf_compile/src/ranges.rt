//! Ranges of syscall numbers whose rules answer alike.

ghost use Rattle.std.specs.Prelude.{◌≡◌, ◌<◌, ◌≤◌, ◌^◌, All, IfOk, IsTrue, List, OnOk, length};
ghost use Rattle.scf_insn.specs.Architectures.{row_of};
ghost use Rattle.scf_insn.specs.declared.answer.Answer.{Answer};
ghost use Rattle.scf_profile.specs.declared.rule.Rule.{Rule};
ghost use Rattle.scf_profile.specs.NumberRules.{AreNumbersOf};
ghost use Rattle.scf_compile.specs.internal.NrRanges.{AreRangesOfRules, AreEffective, IsLaid, StandsFor, ranges_below};

use scf_insn::{Answer, Architecture};
use scf_profile::{NumberRules, Rule};
use std::alloc::{AllocError, Global};

/// The rules for all syscall numbers from `first` up to the next range. If none is met, the default answer holds.
#[derive(Drop)]
pub(crate) struct NrRange<'a> {
    pub(crate) first: u32,
    pub(crate) rules: &'a [Rule],
}

/// Whether two lists of rules answer alike, whatever their syscall numbers: equal conditions and answers, in order.
fn are_alike(rules: &[Rule], others: &[Rule]) -> bool
    ensures { IsTrue result → (default : Answer) → StandsFor default rules.now others.now }
{
    if rules.len() != others.len() {
        return false;
    }
    for (i, rule) in rules.iter().enumerate() {
        let other = &others[i];
        if rule.answer != other.answer
            || rule.conditions.as_slice() != other.conditions.as_slice()
        {
            return false;
        }
    }
    true
}

/// The rules of a syscall number, or none if all of them give the default answer.
fn effective_rules<'a>(number_rules: &'a NumberRules, default: Answer) -> &'a [Rule]
    ensures { AreEffective default result.now number_rules.now.rules.items }
{
    for rule in number_rules.rules.iter() {
        if rule.answer != default {
            return &number_rules.rules;
        }
    }
    &number_rules.rules[..0]
}

/// Appends the rules for all numbers from `first` on. The last range goes on if its rules answer alike.
fn add_range<'a>(
    ranges: &mut Vec<NrRange<'a>>,
    first: u32,
    rules: &'a [Rule],
) -> Result<(), AllocError>
    ensures { OnOk result (IsLaid ranges.old.items first rules.now ranges.new.items) }
{
    let continues = match ranges.last() {
        Some(last) => are_alike(last.rules, rules),
        None => false,
    };
    if !continues {
        ranges.push(NrRange { first, rules })?;
    }
    Ok(())
}

/// Appends the rules for the numbers from `first` up to `end`, if there are any such numbers.
pub(crate) fn fill<'a>(
    ranges: &mut Vec<NrRange<'a>>,
    first: u64,
    end: u64,
    rules: &'a [Rule],
) -> Result<(), AllocError>
    requires { end ≤ 2 ^ 32 }
    ensures some { OnOk result (first < end → IsLaid ranges.old.items first rules.now ranges.new.items) }
    ensures none { OnOk result (end ≤ first → ranges.new.items ≡ ranges.old.items) }
{
    if first < end {
        add_range(ranges, first as u32, rules)?;
    }
    Ok(())
}

/// The ranges of an architecture's syscall numbers, in rising order, from its first number on: neighbours whose rules
/// answer alike are one range, and so are the numbers between them that have no rules.
pub(crate) fn ranges_of<'a>(
    alloc: Global,
    architecture: Architecture,
    numbers: &'a [NumberRules],
    default: Answer,
) -> Result<Vec<NrRange<'a>>, AllocError>
    requires first { All (λ n. (row_of architecture).first ≤ n.number) numbers.now }
    requires last { All (λ n. n.number ≤ (row_of architecture).last) numbers.now }
    ensures { IfOk result (λ ranges. (rules : List Rule) → AreNumbersOf numbers.now rules
        → AreRangesOfRules architecture default ranges.items rules) }
{
    let mut ranges = Vec::new(alloc);
    let mut next = u64::from(architecture.first());
    for number_rules in numbers {
        let number = u64::from(number_rules.number);
        fill(&mut ranges, next, number, &[])?;
        add_range(
            &mut ranges,
            number_rules.number,
            effective_rules(number_rules, default),
        )?;
        next = number + 1;
    }
    fill(&mut ranges, next, u64::from(architecture.last()) + 1, &[])?;
    Ok(ranges)
}

/// Drops the ranges that begin at a number or above it.
pub(crate) fn cut(ranges: &mut Vec<NrRange>, start: u64)
    ensures { ranges.new.items ≡ ranges_below start ranges.old.items }
{
    ranges.retain(|range| u64::from(range.first) < start);
}
