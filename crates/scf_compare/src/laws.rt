//! Laws of the relations by which filters are compared. Each function does nothing: what it ensures is the law.

ghost use Rattle.std.specs.Prelude.{◌≡◌, ◌∷◌, [], ℕ, All, List};
ghost use Rattle.scf_insn.specs.declared.insn.Insn.{Insn};
ghost use Rattle.scf_insn.specs.declared.record.CallRecord.{CallRecord};
ghost use Rattle.scf_insn.specs.Answers.{disposition_of};
ghost use Rattle.scf_insn.specs.Words.{IsRecord, words_of};
ghost use Rattle.scf_machine.specs.Precedence.{StackAnswers};
ghost use Rattle.scf_profile.specs.Profile.{Profile, HaveNoConflict};
ghost use Rattle.scf_profile.specs.ProfileAnswers.{ProfileAnswers};
ghost use Rattle.scf_compare.specs.Findings.{IsTrueFinding, compared_in};
ghost use Rattle.scf_compare.specs.Headline.{Headline};
ghost use Rattle.scf_compare.specs.Regions.{AreRegions, IsDecidedRegion, IsPartition};
ghost use Rattle.scf_compare.specs.SideLaws.{
  BothWaysIsOneDisposition,
  HoldsOverRanges,
  HoldsThrough,
  HoldsTurned,
  SameHoldsByAll,
  SidesHeadline,
};
ghost use Rattle.scf_compare.specs.Sides.{behavior_of, profiles_behavior, stack_behavior};
ghost use Rattle.scf_compare.specs.Splits.{SplitsEnd};
ghost use Rattle.scf_compare.specs.Verdicts.{IsTrueOfStackBy, finding_of};
ghost use Rattle.scf_profile.specs.Scope.{IsInScope, RelatedAnswersIn, SameAnswersIn};

use crate::regions::Regions;
use crate::side::Side;
use crate::verdict::Verdict;
use scf_profile::{Relation, Scope};

/// A stack that answers as a profile does is no more permissive of any syscall than the profile, and no less.
pub fn same_is_no_more_and_no_less()
    ensures no_more { (filters : List (List Insn)) (p : Profile) (scope : Scope)
        → SameAnswersIn scope (StackAnswers filters) p
        → RelatedAnswersIn Relation.NoMore scope (StackAnswers filters) p }
    ensures no_less { (filters : List (List Insn)) (p : Profile) (scope : Scope)
        → SameAnswersIn scope (StackAnswers filters) p
        → RelatedAnswersIn Relation.NoLess scope (StackAnswers filters) p }
{}

/// Where a stack is no more permissive of any syscall than a profile, and no less, both have the same disposition of
/// each: denied, delegated or allowed.
pub fn no_more_and_no_less_is_one_disposition()
    ensures { (filters : List (List Insn)) (p : Profile) (scope : Scope) (call : CallRecord) (filter profile : ℕ)
        → HaveNoConflict p.architecture p.rules
        → RelatedAnswersIn Relation.NoMore scope (StackAnswers filters) p
        → RelatedAnswersIn Relation.NoLess scope (StackAnswers filters) p
        → IsRecord call → IsInScope scope call
        → StackAnswers filters (words_of call) filter → ProfileAnswers p call profile
        → disposition_of filter ≡ disposition_of profile }
{}

/// A finding on a stack and a profile claims what the verdict that it is claims of them.
#[tactic(auto, using(crate::proofs::Verdicts::true_by))]
pub fn finding_is_verdict()
    ensures { (relation : Relation) (filters : List (List Insn)) (p : Profile) (scope : Scope) (verdict : Verdict)
        → IsTrueFinding (compared_in relation scope (stack_behavior filters) (profiles_behavior (p ∷ [])))
        (finding_of verdict)
        → IsTrueOfStackBy relation filters p scope verdict }
{}

/// Regions that are all decided, as those of sides whose masks have few bits together, are a partition of the scope's
/// records.
pub fn regions_partition()
    ensures { (left right : Side) (scope : Scope) (limit : ℕ) (regions : Regions)
        → AreRegions (behavior_of left) (behavior_of right) (IsInScope scope) limit regions
        → All IsDecidedRegion regions.list.items → IsPartition (IsInScope scope) regions.list.items }
{}

/// The headline of any two sides, which follows from what `compare_sides` promises.
#[tactic(auto, using(crate::proofs::Relations::side_answers_once))]
pub fn sides_headline()
    ensures { SidesHeadline }
{}

/// A comparison with left and right exchanged.
pub fn holds_turned()
    ensures { HoldsTurned }
{}

/// Sides that answer alike are related by each relation.
pub fn same_holds_by_all()
    ensures { SameHoldsByAll }
{}

/// What is no more permissive, and no less, denies, delegates and allows the same calls.
#[tactic(auto, using(crate::proofs::Relations::side_answers_once))]
pub fn both_ways_is_one_disposition()
    ensures { BothWaysIsOneDisposition }
{}

/// A comparison of three sides.
#[tactic(auto, using(crate::proofs::Relations::side_answers_once))]
pub fn holds_through()
    ensures { HoldsThrough }
{}

/// Comparisons over two ranges of numbers, one behind the other, are one over both.
pub fn holds_over_ranges()
    ensures { HoldsOverRanges }
{}

/// If each split leaves fewer bits that aren't fixed in both of its halves, there are fewer than 2^512 splits.
pub fn splits_end()
    ensures { SplitsEnd }
{}

/// The headline, which follows from what `check` and `compare_stack` promise, and by other relations from what
/// `compare_sides` does.
pub fn headline()
    ensures { Headline }
{}
