//! The least value with some bits.

ghost use Rattle.std.specs.Prelude.{◌≡◌, ◌<◌, ◌≤◌, ◌^◌, ◌/◌, ℕ, IfSome, IfNone};
ghost use Rattle.std.specs.Int.{bit_at};
ghost use Rattle.scf_facts.specs.Bits.{HasBits, LacksBits};
ghost use Rattle.scf_facts.specs.Intervals.{LiesIn, LiesInOne};
ghost use Rattle.scf_facts.specs.internal.Intervals.{AreApart};

use crate::bits::Bits;
use crate::interval::Interval;
use crate::intervals::first_reaching;

/// The index of the highest set bit.
#[tactic(auto, using(crate::proofs::LeastNumber::highest))]
fn highest_bit(n: u32) -> Option<u32>
    ensures none { IfNone result (n ≡ 0) }
    ensures some { IfSome result (λ index. (index < 32) × (bit_at n index ≡ 1)) }
{
    if n == 0 {
        return None;
    }
    Some(31 - n.leading_zeros())
}

/// The least value past all those that share with `x` its highest wrong bit and those above. None if `x` has the bits.
#[tactic(auto, using(crate::proofs::LeastNumber::mismatch))]
fn past(x: u32, bits: Bits) -> Option<u64>
    ensures right { IfNone result (HasBits bits x) }
    ensures above { IfSome result (λ next. x < next) }
    ensures none { IfSome result (λ next. (y : ℕ) → x ≤ y → y < next → LacksBits bits y) }
{
    let index = highest_bit((x & bits.mask) ^ bits.value)?;
    let power = 1u64 << index;
    Some((u64::from(x) / power + 1) * power)
}

/// The least value with the bits that is at least a bound.
fn least_from(low: u32, bits: Bits) -> Option<u32>
    ensures found { IfSome result (λ x. (low ≤ x) × HasBits bits x) }
    ensures least { IfSome result (λ x. (y : ℕ) → low ≤ y → y < x → LacksBits bits y) }
    ensures none { IfNone result ((y : ℕ) → low ≤ y → y < 2 ^ 32 → LacksBits bits y) }
{
    let mut x = low;
    while let Some(next) = past(x, bits) {
        x = u32::try_from(next).ok()?;
    }
    Some(x)
}

/// The first value of sorted intervals that lies in a range and has the bits.
///
/// Mostly it is the least value of all. Else the least value with the bits from a bound on may lie before the first
/// interval that reaches it; then that interval's low end is the next bound.
pub(crate) fn first_number(intervals: &[Interval], range: Interval, bits: Bits) -> Option<u32>
    requires { AreApart intervals.now }
    ensures found { IfSome result (λ x. LiesInOne intervals.now x × LiesIn range x × HasBits bits x) }
    ensures none { IfNone result ((x : ℕ) → x < 2 ^ 32
        → LiesInOne intervals.now x → LiesIn range x → HasBits bits x → ⊥) }
{
    let least = intervals.first()?.low;
    if range.low <= least && least <= range.high && bits.are_in(least) {
        return Some(least);
    }
    let mut bound = range.low;
    while let Some(x) = least_from(bound, bits) {
        if x > range.high {
            return None;
        }
        let interval = first_reaching(intervals, x)?;
        if interval.low <= x {
            return Some(x);
        }
        bound = interval.low;
    }
    None
}
