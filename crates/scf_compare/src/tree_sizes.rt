//! The effort of a comparison.

ghost use Rattle.std.specs.Prelude.{◌≡◌, ◌<◌, ◌≤◌, ℕ, length, slice_index};
ghost use Rattle.scf_machine.specs.Rules.{IsValidList};
ghost use Rattle.scf_compare.specs.Effort.{conditions_size, rules_size, spread, stack_paths, effort_of};
ghost use Rattle.scf_compare.specs.Effort.{effort_of_stack, saturated, spread_of_all as profiles_spread};
ghost use Rattle.scf_compare.specs.Paths.{tree_size};
ghost use Rattle.scf_compare.specs.Sides.{behavior_of, effort_of_sides};

use crate::control_flow::ControlFlow;
use crate::side::Side;
use scf_insn::Insn;
use scf_insn::kernel::BPF_MAXINSNS;
use scf_machine::{FilterStack, Program};
use scf_profile::{Condition, Profile, Rule};
use std::slice;

/// The effort: how many steps a comparison takes at most, or 2^64-1 if it is more. It is the size of the filter's tree
/// of paths times the spread of the profile. A limit of at least the exact effort suffices for every comparison of the
/// two.
pub fn effort(program: &Program, profile: &Profile) -> u64
    ensures { result ≡ saturated (effort_of program.now profile.now) }
{
    let filter = Side::Stack(slice::from_ref(program));
    effort_sides(&filter, &Side::Profiles(slice::from_ref(profile)))
}

/// The effort of a stack, or 2^64-1 if it is more: the product of the sizes of the filters' trees of paths, 1 for no
/// filter, times the spread of the profile.
pub fn effort_stack(stack: &FilterStack, profile: &Profile) -> u64
    ensures { result ≡ saturated (effort_of_stack stack.now profile.now) }
{
    let filters = Side::Stack(stack.filters());
    effort_sides(&filters, &Side::Profiles(slice::from_ref(profile)))
}

/// The effort of a comparison of two sides, or 2^64-1 if it is more: the product of their sizes. That of a stack is the
/// product of the sizes of its filters' trees of paths, that of profiles their spread.
#[tactic(auto, using(crate::proofs::Saturated::products))]
pub fn effort_sides(left: &Side<'_>, right: &Side<'_>) -> u64
    ensures { result ≡ saturated (effort_of_sides left.now right.now) }
{
    let left_size = size_of_side(left);
    left_size.saturating_mul(size_of_side(right))
}

/// The size of a side's tree.
fn size_of_side(side: &Side<'_>) -> u64
    ensures { result ≡ saturated (behavior_of side.now).size }
{
    match *side {
        Side::Stack(filters) => paths_of_all(filters),
        Side::Profiles(profiles) => spread_of_all(profiles),
    }
}

/// The product of the sizes of the filters' trees of paths, the newest filter first.
#[tactic(auto, using(crate::proofs::Stacks::paths_before, crate::proofs::Saturated::products))]
fn paths_of_all(filters: &[Program]) -> u64
    ensures { result ≡ saturated (stack_paths filters.now) }
{
    let mut product: u64 = 1;
    for index in (0..filters.len()).rev() {
        let paths = paths_of(filters[index].insns());
        product = paths.saturating_mul(product);
    }
    product
}

/// The size of the tree of paths, from that of the last instruction on: jumps go forward.
fn paths_of(insns: &[Insn]) -> u64
    requires { IsValidList insns.now }
    ensures { result ≡ saturated (tree_size insns.now 0) }
{
    let mut sizes = [0; BPF_MAXINSNS];
    for index in (0..insns.len()).rev() {
        let size = size_at(insns, index, &sizes);
        sizes[index] = size;
    }
    sizes[0]
}

/// The size of the tree of paths from an index, given those from all later ones.
fn size_at(insns: &[Insn], index: usize, sizes: &[u64]) -> u64
    requires valid { IsValidList insns.now }
    requires index { index < length insns.now }
    requires room { length insns.now ≤ length sizes.now }
    requires later { (at : ℕ) → index < at
        → at < length insns.now
        → slice_index sizes.now at ≡ saturated (tree_size insns.now at) }
    ensures { result ≡ saturated (tree_size insns.now index) }
{
    let (_, _, control_flow) = ControlFlow::at(insns, index);
    match control_flow {
        ControlFlow::FallThrough(next) => sizes[next].saturating_add(1),
        ControlFlow::Jump(target) => sizes[target].saturating_add(1),
        ControlFlow::ConditionalJump(_, _, if_true, if_false) => sizes[if_true]
            .saturating_add(sizes[if_false])
            .saturating_add(1),
        ControlFlow::DivideByIndex(next) => sizes[next].saturating_add(2),
        ControlFlow::ReturnConstant => 1,
        ControlFlow::ReturnAccumulator => 1,
    }
}

/// The spread of a profile: 8, 2 if it has a stub, and for each of its numbers 1 and the size of its rules.
fn spread_of(profile: &Profile) -> u64
    ensures { result ≡ saturated (spread profile.now) }
{
    let mut sum: u64 = if profile.stub().is_some() { 10 } else { 8 };
    for number in profile.numbers() {
        sum = sum
            .saturating_add(size_of_rules(&number.rules))
            .saturating_add(1);
    }
    sum
}

/// The spread of profiles, the last one first.
#[tactic(auto, using(crate::proofs::Saturated::spreads_before, crate::proofs::Saturated::spreads_step))]
fn spread_of_all(profiles: &[Profile]) -> u64
    ensures { result ≡ saturated (profiles_spread profiles.now) }
{
    let mut sum: u64 = if profiles.len() == 1 { 0 } else { 1 };
    for index in (0..profiles.len()).rev() {
        let spread = spread_of(&profiles[index]);
        sum = sum.saturating_mul(3).saturating_add(spread);
    }
    sum
}

/// The size of the tree of the rules of a number, the last one first.
#[tactic(auto, using(crate::proofs::Saturated::rules_step))]
fn size_of_rules(rules: &[Rule]) -> u64
    ensures { result ≡ saturated (rules_size rules.now) }
{
    let mut size = 1;
    for index in (0..rules.len()).rev() {
        size = size_of_conditions(rules[index].conditions.as_slice(), size);
    }
    size
}

/// The size of the tree of conditions, given the size of the tree behind a condition that fails.
#[tactic(auto, using(crate::proofs::Saturated::conditions_added, crate::proofs::Saturated::conditions_step))]
fn size_of_conditions(conditions: &[Condition], fails: u64) -> u64
    ensures { (behind : ℕ) → fails ≡ saturated behind → result ≡ saturated (conditions_size conditions.now behind) }
{
    let twice_fails = fails.saturating_add(fails);
    let mut size: u64 = 1;
    for _index in (0..conditions.len()).rev() {
        size = size
            .saturating_add(size)
            .saturating_add(twice_fails)
            .saturating_add(3);
    }
    size
}
