//! The binary search for the rules of a syscall number.

ghost use Rattle.std.specs.Prelude.{◌≡◌, ◌+◌, ◌*◌, ◌^◌, ◌<◌, ◌≤◌, IfOk, length, sum_by};
ghost use Rattle.scf_profile.specs.Rule.{IsRule};
ghost use Rattle.scf_compile.specs.internal.Filters.{IsSearchPut};
ghost use Rattle.scf_compile.specs.internal.NrRanges.{AllRules, range_bound};

use crate::placing::{Position, put_branch, put_shared};
use crate::ranges::NrRange;
use crate::rules::rules_block;
use scf_insn::{Answer, Architecture, Insn, Test};
use std::alloc::{AllocError, Global};
use std::collections::VecDeque;

/// The sum of weights, or `u64::MAX` if that is less.
fn sum_of(weights: &[u64]) -> u64 {
    weights
        .iter()
        .fold(0u64, |sum, weight| sum.saturating_add(*weight))
}

/// Where to cut a search over ranges with these weights: the count of ranges below the cut. Of the cuts that leave at
/// most `half` of the ranges on either side, the one nearest to where the sum of the weights halves.
fn cut_of(weights: &[u64], half: usize) -> usize
    requires some { 1 < length weights.now }
    requires few { length weights.now ≤ 2 * half }
    ensures below { (0 < result) × (result ≤ half) }
    ensures above { (result < length weights.now) × (length weights.now ≤ result + half) }
{
    let least = weights.len().saturating_sub(half).max(1);
    let most = half.min(weights.len() - 1);
    let sum = sum_of(weights);
    let mut below = sum_of(&weights[..least]);
    for i in least..most {
        // A range in the middle belongs to the side that has less without it.
        let through = below.saturating_add(weights[i]);
        if sum.saturating_sub(below) < through {
            return i;
        }
        below = through;
    }
    most
}

/// What the leaves of a search are: blocks of rules.
#[derive(Clone, Copy)]
pub(crate) struct Leaves {
    pub(crate) architecture: Architecture,
    /// The answer if no rule is met.
    pub(crate) default: Answer,
    /// Blocks that stand from this position on are shared.
    pub(crate) earlier: Position,
}

/// Puts a binary search over ranges in front of the code, the upper part in front of the lower one. It is cut by
/// weight, but no range takes more tests than if `most` ranges were halved by their count.
pub(crate) fn put_search(
    alloc: Global,
    code: &mut VecDeque<Insn>,
    leaves: Leaves,
    ranges: &[NrRange],
    weights: &[u64],
    most: usize,
) -> Result<Position, AllocError>
    requires some { 0 < length ranges.now }
    requires few { length ranges.now ≤ most }
    requires weights { length weights.now ≡ length ranges.now }
    requires rules { AllRules (IsRule leaves.architecture) ranges.now }
    requires small { length code.now.items + sum_by range_bound ranges.now < 2 ^ 32 }
    ensures { IfOk result
        (IsSearchPut leaves.architecture leaves.default most ranges.now code.old.items code.new.items) }
{
    if ranges.len() > 1 {
        let half = most - most / 2;
        let cut = cut_of(weights, half);
        let (low, high) = ranges.split_at(cut);
        let (low_weights, high_weights) = weights.split_at(cut);
        let miss = put_search(alloc, code, leaves, low, low_weights, half)?;
        let hit = put_search(alloc, code, leaves, high, high_weights, half)?;
        return put_branch(code, Test::GreaterOrEqual, high[0].first, hit, miss);
    }
    let block = rules_block(alloc, leaves.architecture, ranges[0].rules, leaves.default)?;
    put_shared(code, &block, leaves.earlier)
}
