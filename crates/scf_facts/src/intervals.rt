//! Sets of values as sorted, disjoint intervals.

ghost use Rattle.std.specs.Prelude.{◌≡◌, ◌<◌, ◌≤◌, ◌↔◌, ℕ, [], ◌∷◌, length, IsTrue, IfSome, IfNone, IfOk, OnOk};
ghost use Rattle.std.specs.List.{AllWithin};
ghost use Rattle.scf_facts.specs.Intervals.{LiesIn, LiesInOne};
ghost use Rattle.scf_facts.specs.internal.Intervals.{AreApart, ArePartsOf};

use crate::interval::Interval;
use std::alloc::{AllocError, Global};

/// The least interval that has all values of the intervals, if there is one.
#[tactic(auto, using(crate::proofs::IntervalLaws::within_ends))]
pub(crate) fn hull(intervals: &[Interval]) -> Option<Interval>
    requires { AreApart intervals.now }
    ensures hull { IfSome result (λ hull. (x : ℕ) → LiesInOne intervals.now x → LiesIn hull x) }
{
    let first = intervals.first()?;
    let last = intervals.last()?;
    Some(Interval {
        low: first.low,
        high: last.high,
    })
}

/// An end of the first interval that lies outside a range, if one does.
#[tactic(auto, using(crate::proofs::IntervalLaws::lies_first))]
pub(crate) fn end_outside(intervals: &[Interval], range: Interval) -> Option<u32>
    requires { AreApart intervals.now }
    ensures inside { IfSome result (LiesInOne intervals.now) }
    ensures outside { IfSome result (λ x. LiesIn range x → ⊥) }
{
    let first = intervals.first()?;
    if first.low < range.low {
        return Some(first.low);
    }
    (range.high < first.high).then_some(first.high)
}

/// The intervals' parts within a range.
pub(crate) fn parts_within(
    alloc: Global,
    intervals: &[Interval],
    range: Interval,
) -> Result<Vec<Interval>, AllocError>
    requires { AreApart intervals.now }
    ensures { IfOk result (λ parts. ArePartsOf (LiesIn range) intervals.now parts.items) }
{
    let Some((first, rest)) = split_from(intervals, u64::from(range.low)) else {
        return Ok(Vec::new(alloc));
    };
    if first.low <= range.high && range.high <= first.high {
        let only = Interval {
            low: first.low,
            high: range.high,
        };
        return Vec::from_slice(alloc, &[only]);
    }
    let mut parts = Vec::with_capacity(alloc, rest.len() + 1)?;
    parts.push(first)?;
    parts.extend_from_slice(rest)?;
    cut_from(&mut parts, u64::from(range.high) + 1)?;
    Ok(parts)
}

/// The intervals' parts outside a range.
pub(crate) fn parts_outside(
    alloc: Global,
    intervals: &[Interval],
    range: Interval,
) -> Result<Vec<Interval>, AllocError>
    requires apart { AreApart intervals.now }
    requires filled { range.low ≤ range.high }
    ensures { IfOk result (λ parts. ArePartsOf (λ x. LiesIn range x → ⊥) intervals.now parts.items) }
{
    let mut parts = Vec::with_capacity(alloc, intervals.len() + 1)?;
    parts.extend_from_slice(intervals)?;
    cut_from(&mut parts, u64::from(range.low))?;
    let Some((first, rest)) = split_from(intervals, u64::from(range.high) + 1) else {
        return Ok(parts);
    };
    parts.push(first)?;
    parts.extend_from_slice(rest)?;
    Ok(parts)
}

/// Keeps the intervals' parts below a bound.
fn cut_from(intervals: &mut Vec<Interval>, bound: u64) -> Result<(), AllocError>
    requires { AreApart intervals.old.items }
    ensures { OnOk result (ArePartsOf (λ x. x < bound) intervals.old.items intervals.new.items) }
{
    let count = count_ending_below(intervals, bound);
    let Some(last) = intervals.get(count).copied() else {
        return Ok(());
    };
    intervals.truncate(count);
    if bound <= u64::from(last.low) {
        return Ok(());
    }
    intervals.push(Interval {
        low: last.low,
        high: (bound - 1) as u32,
    })?;
    Ok(())
}

/// The intervals' parts from a bound on: the first one, which the bound may cut, and those behind it.
fn split_from(intervals: &[Interval], bound: u64) -> Option<(Interval, &[Interval])>
    requires { AreApart intervals.now }
    ensures some { IfSome result (λ parts. ArePartsOf (λ x. bound ≤ x) intervals.now (parts.0 ∷ parts.1.now)) }
    ensures none { IfNone result (ArePartsOf (λ x. bound ≤ x) intervals.now []) }
{
    let count = count_ending_below(intervals, bound);
    let Some(first) = intervals.get(count).copied() else {
        return None;
    };
    let cut = Interval {
        low: u64::from(first.low).max(bound) as u32,
        high: first.high,
    };
    Some((cut, &intervals[count + 1..]))
}

/// How many of the sorted intervals end below a bound.
fn count_ending_below(intervals: &[Interval], bound: u64) -> usize
    requires { AreApart intervals.now }
    ensures bound { result ≤ length intervals.now }
    ensures below { AllWithin (λ interval. interval.high < bound) intervals.now 0 result }
    ensures rest { AllWithin (λ interval. bound ≤ interval.high) intervals.now result (length intervals.now) }
{
    intervals.partition_point(|interval| u64::from(interval.high) < bound)
}

/// The first of the sorted intervals whose end is at least a value.
pub(crate) fn first_reaching(intervals: &[Interval], x: u32) -> Option<Interval>
    requires { AreApart intervals.now }
    ensures reaches { IfSome result (λ interval. x ≤ interval.high) }
    ensures one { IfSome result (λ interval. (y : ℕ) → LiesIn interval y → LiesInOne intervals.now y) }
    ensures first { IfSome result (λ interval. (y : ℕ) → x ≤ y → LiesInOne intervals.now y → interval.low ≤ y) }
    ensures none { IfNone result ((y : ℕ) → x ≤ y → LiesInOne intervals.now y → ⊥) }
{
    intervals
        .get(count_ending_below(intervals, u64::from(x)))
        .copied()
}

/// Whether a value lies in one of the sorted intervals.
pub(crate) fn lies_in_one(intervals: &[Interval], x: u32) -> bool
    requires { AreApart intervals.now }
    ensures { IsTrue result ↔ LiesInOne intervals.now x }
{
    matches!(first_reaching(intervals, x), Some(interval) if interval.low <= x)
}
