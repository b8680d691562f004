//! Laws of conditions, of profiles' answers, of relations and of scopes. Each function does nothing: its contract is
//! the law.

ghost use Rattle.std.specs.Prelude.{◌≡◌, ◌↔◌, ◌<◌, ◌^◌, ℕ, List, All};
ghost use Rattle.scf_insn.specs.declared.record.CallRecord.{CallRecord};
ghost use Rattle.scf_insn.specs.Words.{IsRecord};
ghost use Rattle.scf_profile.specs.declared.condition.Condition.{Condition};
ghost use Rattle.scf_profile.specs.declared.reason.Reason.{Reason};
ghost use Rattle.scf_profile.specs.CallsAndRest.{CallsAndRest};
ghost use Rattle.scf_profile.specs.Condition.{condition_holds};
ghost use Rattle.scf_profile.specs.NumberTests.{comes_to, test_of};
ghost use Rattle.scf_profile.specs.Profile.{Profile, HaveNoConflict};
ghost use Rattle.scf_profile.specs.ProfileAnswers.{ProfileAnswers, ProfilesAnswer};
ghost use Rattle.scf_profile.specs.Reasons.{IsAnswerOf, IsReason};
ghost use Rattle.scf_profile.specs.Relation.{IsRelated};

use crate::relation::Relation;

/// A condition holds exactly if its test, decided half by half, has the expected result.
#[tactic(auto, using(crate::proofs::NumberTests::decides))]
pub fn condition_by_halves()
    ensures { (c : Condition) (n : ℕ) → n < 2 ^ 64
        → comes_to (test_of c) n ≡ condition_holds c n }
{}

/// A profile answers every record.
#[tactic(auto, using(crate::proofs::Answering::some_answer))]
pub fn some_answer()
    ensures { (p : Profile) (call : CallRecord) → (answer : ℕ) × ProfileAnswers p call answer }
{}

/// If no two rules conflict, a record has only one answer.
#[tactic(auto, using(crate::proofs::Answering::one_answer))]
pub fn one_answer()
    ensures { (p : Profile) (call : CallRecord) (a b : ℕ) → HaveNoConflict p.architecture p.rules → IsRecord call
        → ProfileAnswers p call a → ProfileAnswers p call b → a ≡ b }
{}

/// If no two rules of one profile conflict, a record has only one answer.
#[tactic(auto, using(crate::proofs::Answering::one_answer_among))]
pub fn one_answer_among()
    ensures { (profiles : List Profile) (call : CallRecord) (a b : ℕ)
        → All (λ p. HaveNoConflict p.architecture p.rules) profiles
        → IsRecord call → ProfilesAnswer profiles call a → ProfilesAnswer profiles call b → a ≡ b }
{}

/// If no two rules conflict, the answer to a record is its reason's.
#[tactic(auto, using(crate::proofs::Reasons::answer_of_reason))]
pub fn answer_of_reason()
    ensures { (p : Profile) (call : CallRecord) (reason : Reason) (answer : ℕ) → HaveNoConflict p.architecture p.rules
        → IsRecord call → IsReason p call reason → ProfileAnswers p call answer → IsAnswerOf p call reason answer }
{}

/// Two answers have the same disposition exactly if neither is more permissive than the other.
pub fn same_disposition_is_no_more_and_no_less()
    ensures { (left right : ℕ) → IsRelated Relation.SameDisposition left right
        ↔ (IsRelated Relation.NoMore left right × IsRelated Relation.NoLess left right) }
{}

/// Each syscall of a table by itself, and the ranges of numbers between them, have all native records and no others.
pub fn calls_and_rest()
    ensures { CallsAndRest }
{}
