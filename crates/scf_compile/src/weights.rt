//! Weights of ranges of syscall numbers, by which their search is cut.

ghost use Rattle.std.specs.Prelude.{◌≡◌, IfOk, length};

use crate::ranges::NrRange;
use scf_insn::Architecture;
use scf_profile::Profile;
use std::alloc::{AllocError, Global};

/// How often a syscall is called.
#[derive(Clone, Copy)]
pub struct CallCount {
    pub architecture: Architecture,
    /// The syscall's number in a call record.
    pub nr: u32,
    pub count: u64,
}

/// The weight of one call; a number with rules weighs 1.
const CALL_WEIGHT: u64 = 1024;

/// Adds to the weight of the range of a syscall number.
fn add_weight(sums: &mut [u64], ranges: &[NrRange], nr: u32, weight: u64)
    requires { length sums.old ≡ length ranges.now }
    ensures { length sums.new ≡ length sums.old }
{
    let begun = ranges.partition_point(|range| range.first <= nr);
    if begun > 0 {
        sums[begun - 1] = sums[begun - 1].saturating_add(weight);
    }
}

/// For each of the ranges of a profile, in rising order, the sum of the weights of its numbers, or `u64::MAX` if that
/// is less. A number weighs 1 if the profile has rules for it, and `CALL_WEIGHT` for each counted call of the profile's
/// architecture.
pub(crate) fn range_weights(
    alloc: Global,
    profile: &Profile,
    ranges: &[NrRange],
    counts: &[CallCount],
) -> Result<Vec<u64>, AllocError>
    ensures { IfOk result (λ sums. length sums.items ≡ length ranges.now) }
{
    let mut sums = vec![in alloc; 0u64; ranges.len()]?;
    for number_rules in profile.numbers() {
        add_weight(&mut sums, ranges, number_rules.number, 1);
    }
    for call in counts {
        if call.architecture.name() == profile.architecture().name() {
            let weight = call.count.saturating_mul(CALL_WEIGHT);
            add_weight(&mut sums, ranges, call.nr, weight);
        }
    }
    Ok(sums)
}
