//! Comparisons: of two sides, and of a filter with a profile.

ghost use Rattle.std.specs.Prelude.{◌≡◌, ℕ, All, IsTrue, IfOk, OnErr, min};
ghost use Rattle.scf_machine.specs.Machine.{RunAnswers};
ghost use Rattle.scf_machine.specs.Plain.{IsPlainProgram};
ghost use Rattle.scf_machine.specs.Precedence.{StackAnswers};
ghost use Rattle.scf_machine.specs.Rules.{IsFilter};
ghost use Rattle.scf_profile.specs.PlainProfile.{IsPlainProfile};
ghost use Rattle.scf_profile.specs.SameAnswers.{SameAnswers};
ghost use Rattle.scf_profile.specs.Scope.{SameAnswersIn};
ghost use Rattle.scf_compare.specs.Effort.{effort_of, effort_of_stack};
ghost use Rattle.scf_compare.specs.Findings.{
  AllRelated,
  IsFindingDecided,
  IsFindingWithin,
  IsTrueFinding,
  LeavesFindingSteps,
  compared_in,
  compared_sides,
};
ghost use Rattle.scf_facts.specs.Masks.{AreFew};
ghost use Rattle.scf_compare.specs.Masked.{IsMaskedProfile, IsMaskedProgram};
ghost use Rattle.scf_compare.specs.Sides.{AreOneStack, IsMaskedSide, IsPlainSide, behavior_of, effort_of_sides};
ghost use Rattle.scf_compare.specs.Verdicts.{IsDecided, IsTrueOf, IsTrueOfStack, IsWithin};
ghost use Rattle.scf_compare.specs.internal.Comparers.{IsComparison};

use crate::budget::{Limit, Splits};
use crate::explore::explore;
use crate::finding::Finding;
use crate::pair::Pair;
use crate::profiles::ProfilesSide;
use crate::scope::facts_of;
use crate::settle::settle;
use crate::side::Side;
use crate::side_tree::SideTree;
use crate::stack::StackSide;
use crate::verdict::Verdict;
use scf_facts::WordFacts;
use scf_insn::Memory;
use scf_machine::{FilterStack, Program};
use scf_profile::{Profile, Relation, Scope};
use std::alloc::Global;
use std::slice;

/// Compares two sides over the records of a scope by a relation, within a limit.
///
/// `Holds` says that the relation holds of the answers to every record of the scope; `Fails` shows one, with both
/// answers, of which it doesn't hold. `Undecided` gives the index of an instruction where runs of one side end and the
/// store `F` doesn't decide the answers. `Unfinished` comes only if the limit is below the exact effort; the steps of
/// `Holds` are within both.
///
/// A store that starts exact decides plain sides: with a limit of at least the effort the finding is `Holds` exactly if
/// the relation holds of the answers to every record of the scope, else `Fails`. It decides sides so that also test
/// words under masks of several bits, if these masks have at most 16 bits together, without a split. If the splits have
/// no limit, any two sides are decided so, by every store.
pub fn compare_sides<F: WordFacts>(
    alloc: Global,
    left: &Side<'_>,
    right: &Side<'_>,
    over: Scope,
    by: Relation,
    limit: Limit,
) -> Result<Finding, Memory>
    ensures holds { IfOk result (IsTrueFinding (compared_sides by over left.now right.now)) }
    ensures within { IfOk result (IsFindingWithin limit.steps (effort_of_sides left.now right.now)) }
    ensures decided { IsTrue F.starts_exact → IsPlainSide left.now → IsPlainSide right.now
        → IfOk result (IsFindingDecided (AllRelated (compared_sides by over left.now right.now))
        limit.steps (effort_of_sides left.now right.now)) }
    ensures by_masks { IsTrue F.starts_exact → (masks : ℕ) → AreFew masks
        → IsMaskedSide masks left.now → IsMaskedSide masks right.now
        → IfOk result (IsFindingDecided (AllRelated (compared_sides by over left.now right.now))
        limit.steps (effort_of_sides left.now right.now)) }
    ensures settled { limit.splits ≡ Splits.NoLimit
        → IfOk result (IsFindingDecided (AllRelated (compared_sides by over left.now right.now))
        limit.steps (effort_of_sides left.now right.now)) }
    ensures of_one { AreOneStack left.now right.now
        → IfOk result (IsFindingDecided (AllRelated (compared_sides by over left.now right.now))
        limit.steps (effort_of_sides left.now right.now)) }
{
    let mut left_over = limit.steps;
    let mut left_below = limit.steps;
    compare_sides_within::<F>(
        alloc,
        left,
        right,
        over,
        by,
        limit,
        &mut left_over,
        &mut left_below,
    )
}

/// Compares as `compare_sides` does, in at most the `left_over` steps that several comparisons share, and below splits
/// in at most `left_below` of them. What is taken is subtracted; if an allocation fails, neither changes. With no steps
/// left the finding is `Unfinished`.
pub fn compare_sides_within<F: WordFacts>(
    alloc: Global,
    left: &Side<'_>,
    right: &Side<'_>,
    over: Scope,
    by: Relation,
    limit: Limit,
    left_over: &mut u64,
    left_below: &mut u64,
) -> Result<Finding, Memory>
    ensures holds { IfOk result (IsTrueFinding (compared_sides by over left.now right.now)) }
    ensures within { IfOk result (IsFindingWithin
        (min limit.steps left_over.old) (effort_of_sides left.now right.now)) }
    ensures decided { IsTrue F.starts_exact → IsPlainSide left.now → IsPlainSide right.now
        → IfOk result (IsFindingDecided (AllRelated (compared_sides by over left.now right.now))
        (min limit.steps left_over.old) (effort_of_sides left.now right.now)) }
    ensures by_masks { IsTrue F.starts_exact → (masks : ℕ) → AreFew masks
        → IsMaskedSide masks left.now → IsMaskedSide masks right.now
        → IfOk result (IsFindingDecided (AllRelated (compared_sides by over left.now right.now))
        (min limit.steps left_over.old) (effort_of_sides left.now right.now)) }
    ensures settled { limit.splits ≡ Splits.NoLimit
        → IfOk result (IsFindingDecided (AllRelated (compared_sides by over left.now right.now))
        (min limit.steps left_over.old) (effort_of_sides left.now right.now)) }
    ensures of_one { AreOneStack left.now right.now
        → IfOk result (IsFindingDecided (AllRelated (compared_sides by over left.now right.now))
        (min limit.steps left_over.old) (effort_of_sides left.now right.now)) }
    ensures left { IfOk result (λ finding. LeavesFindingSteps
        (min limit.steps left_over.old) (effort_of_sides left.now right.now) left_over.old finding left_over.new) }
    ensures err { OnErr result (left_over.new ≡ left_over.old) }
    ensures err_below { OnErr result (left_below.new ≡ left_below.old) }
{
    let mut taken = 0;
    let most = limit.steps.min(*left_over);
    let most_below = limit.steps.min(*left_below);
    let mut budget = Limit {
        steps: most_below,
        splits: limit.splits,
    };
    let finding = compare_counted::<F>(
        alloc,
        left,
        right,
        over,
        by,
        most,
        &mut budget,
        &mut taken,
    )?;
    *left_over -= taken;
    *left_below -= most_below - budget.steps;
    Ok(finding)
}

/// Compares two sides. `taken` becomes the count of steps taken.
fn compare_counted<F: WordFacts>(
    alloc: Global,
    left: &Side<'_>,
    right: &Side<'_>,
    over: Scope,
    by: Relation,
    limit: u64,
    budget: &mut Limit,
    taken: &mut u64,
) -> Result<Finding, Memory>
    ensures { IfOk result (λ finding.
        IsComparison (compared_sides by over left.now right.now)
        (IsTrue F.starts_exact) (AreOneStack left.now right.now) limit budget.old finding taken.new budget.new.steps) }
{
    let is_same = are_same_stacks(left, right);
    match *left {
        Side::Stack(filters) => {
            let left = StackSide { filters };
            compare_with::<F, StackSide<'_>>(
                alloc, left, right, is_same, over, by, limit, budget, taken,
            )
        }
        Side::Profiles(profiles) => {
            let left = ProfilesSide { profiles };
            compare_with::<F, ProfilesSide<'_>>(
                alloc, left, right, is_same, over, by, limit, budget, taken,
            )
        }
    }
}

/// Whether both sides are stacks of the same filters.
fn are_same_stacks(left: &Side<'_>, right: &Side<'_>) -> bool
    ensures related { IsTrue result → (by : Relation) (over : Scope)
        → AllRelated (compared_sides by over left.now right.now) }
    ensures all { AreOneStack left.now right.now → IsTrue result }
{
    match (*left, *right) {
        (Side::Stack(left), Side::Stack(right)) => have_same_filters(left, right),
        _ => false,
    }
}

/// Whether two stacks have the same filters, in the same order.
fn have_same_filters(left: &[Program], right: &[Program]) -> bool
    ensures same { IsTrue result → left.now ≡ right.now }
    ensures filters { IsTrue result → All IsFilter left.now }
    ensures all { left.now ≡ right.now → IsTrue result }
{
    if left.len() != right.len() {
        return false;
    }
    for i in 0..left.len() {
        if left[i].insns() != right[i].insns() {
            return false;
        }
    }
    true
}

/// Compares the left side with the right one, which may be known to answer each call alike.
fn compare_with<F: WordFacts, L: SideTree + Drop>(
    alloc: Global,
    left: L,
    right: &Side<'_>,
    is_same: bool,
    over: Scope,
    by: Relation,
    limit: u64,
    budget: &mut Limit,
    taken: &mut u64,
) -> Result<Finding, Memory>
    requires { IsTrue is_same → AllRelated (compared_in by over (L.behavior left) (behavior_of right.now)) }
    ensures { IfOk result (λ finding. IsComparison (compared_in by over (L.behavior left) (behavior_of right.now))
        (IsTrue F.starts_exact) (IsTrue is_same) limit budget.old finding taken.new budget.new.steps) }
{
    match *right {
        Side::Stack(filters) => {
            let right = StackSide { filters };
            let pair = Pair {
                left,
                right,
                over,
                by,
            };
            compare_pair::<F, L, StackSide<'_>>(alloc, &pair, is_same, limit, budget, taken)
        }
        Side::Profiles(profiles) => {
            let right = ProfilesSide { profiles };
            let pair = Pair {
                left,
                right,
                over,
                by,
            };
            compare_pair::<F, L, ProfilesSide<'_>>(alloc, &pair, is_same, limit, budget, taken)
        }
    }
}

/// Walks the tree of a pair; if that leaves it undecided, a second time with splits, unless both sides are the same.
fn compare_pair<F: WordFacts, L: SideTree, R: SideTree>(
    alloc: Global,
    pair: &Pair<L, R>,
    is_same: bool,
    limit: u64,
    budget: &mut Limit,
    taken: &mut u64,
) -> Result<Finding, Memory>
    requires { IsTrue is_same → AllRelated
        (compared_in pair.now.by pair.now.over (L.behavior pair.now.left) (R.behavior pair.now.right)) }
    ensures { IfOk result (λ finding. IsComparison
        (compared_in pair.now.by pair.now.over (L.behavior pair.now.left) (R.behavior pair.now.right))
        (IsTrue F.starts_exact) (IsTrue is_same) limit budget.old finding taken.new budget.new.steps) }
{
    let facts: F = facts_of(alloc, pair.over)?;
    let (known, root) = pair.start();
    let finding = explore(alloc, pair, facts, known, root, limit, taken)?;
    match finding {
        Finding::Undecided { .. } if is_same => Ok(Finding::Holds { steps: *taken }),
        Finding::Undecided { .. } => {
            let again: F = facts_of(alloc, pair.over)?;
            let settled = settle(alloc, pair, again, known, root, *taken, budget)?;
            Ok(settled.unwrap_or(finding))
        }
        _ => Ok(finding),
    }
}

/// Compares a program with a profile over every call record, in at most `limit` steps.
///
/// `Same` is true of every call record. `Differs` shows a record that is answered differently, with both answers.
/// `Undecided` gives the index of an instruction where runs of the program end (a return, or a division by the index
/// register) and where the store `F` doesn't decide the answer. `Unfinished` comes only if the limit is below the exact
/// effort; the steps of `Same` are within both.
///
/// A store that starts exact decides plain programs and profiles, and those that test under masks of at most 16 bits
/// together: with a limit of at least the effort the verdict is `Same` exactly if both answer every call record alike,
/// else `Differs`.
#[tactic(auto, using(crate::proofs::Verdicts::on_the_left))]
pub fn compare<F: WordFacts>(
    alloc: Global,
    program: &Program,
    profile: &Profile,
    limit: u64,
) -> Result<Verdict, Memory>
    ensures holds { IfOk result (IsTrueOf program.now profile.now) }
    ensures within { IfOk result (IsWithin limit (effort_of program.now profile.now)) }
    ensures decided { IsTrue F.starts_exact → IsPlainProgram program.now → IsPlainProfile profile.now
        → IfOk result (IsDecided
        (SameAnswers (RunAnswers program.now) profile.now)
        limit (effort_of program.now profile.now)) }
    ensures by_masks { IsTrue F.starts_exact → (masks : ℕ) → AreFew masks
        → IsMaskedProgram masks program.now → IsMaskedProfile masks profile.now
        → IfOk result (IsDecided
        (SameAnswers (RunAnswers program.now) profile.now)
        limit (effort_of program.now profile.now)) }
{
    let limit = Limit::of_steps(limit);
    let filter = Side::Stack(slice::from_ref(program));
    let profile = Side::Profiles(slice::from_ref(profile));
    let finding = compare_sides::<F>(alloc, &filter, &profile, Scope::All, Relation::Same, limit)?;
    Ok(finding.verdict())
}

/// Compares a stack of filters with a profile over the records of a scope, in at most `limit` steps.
///
/// The verdicts are those of `compare`. The record of `Differs` is in the scope, and its filter's answer is the
/// stack's. `Undecided` gives an instruction index in the oldest filter whose answer isn't known; if all answers are
/// known, and only the path to them isn't, in the filter whose answer takes precedence; 0 for an empty stack. A store
/// that starts exact decides what `compare` decides.
#[tactic(auto, using(crate::proofs::Verdicts::on_the_left))]
pub fn compare_stack<F: WordFacts>(
    alloc: Global,
    stack: &FilterStack,
    profile: &Profile,
    scope: Scope,
    limit: u64,
) -> Result<Verdict, Memory>
    ensures holds { IfOk result (IsTrueOfStack stack.now profile.now scope) }
    ensures within { IfOk result (IsWithin limit (effort_of_stack stack.now profile.now)) }
    ensures decided { IsTrue F.starts_exact → All IsPlainProgram stack.now → IsPlainProfile profile.now
        → IfOk result (IsDecided
        (SameAnswersIn scope (StackAnswers stack.now) profile.now)
        limit (effort_of_stack stack.now profile.now)) }
    ensures by_masks { IsTrue F.starts_exact → (masks : ℕ) → AreFew masks
        → All (IsMaskedProgram masks) stack.now → IsMaskedProfile masks profile.now
        → IfOk result (IsDecided
        (SameAnswersIn scope (StackAnswers stack.now) profile.now)
        limit (effort_of_stack stack.now profile.now)) }
{
    let limit = Limit::of_steps(limit);
    let filters = Side::Stack(stack.filters());
    let profile = Side::Profiles(slice::from_ref(profile));
    let finding = compare_sides::<F>(alloc, &filters, &profile, scope, Relation::Same, limit)?;
    Ok(finding.verdict())
}
