//! Rules of a profile.

ghost use Rattle.std.specs.Prelude.{◌≡◌, ◌<◌, ◌↔◌, IsTrue, IfOk, All};
ghost use Rattle.scf_insn.specs.Kernel.{seccomp_data_args};
ghost use Rattle.scf_profile.specs.NumberRules.{Rise, first_value as first_value_of};
ghost use Rattle.scf_profile.specs.PlainProfile.{IsPlainRule};
ghost use Rattle.scf_profile.specs.Readings.{is_unconditional as unconditional};
ghost use Rattle.scf_profile.specs.Rule.{Conflicts, IsRule, all_hold as all_conditions_hold, meets};

use crate::condition::{Condition, Conditions, Operator};
use crate::overlap::conditions_overlap;
use scf_insn::{Answer, Architecture, CallRecord};
use std::alloc::{AllocError, Global};
use std::default::MadeWith;

/// A rule answers the records of an architecture with its syscall number for which all its conditions hold.
#[derive(Drop)]
pub struct Rule {
    pub number: u32,
    pub conditions: Conditions,
    pub answer: Answer,
    /// The index of its entry in `syscalls`.
    pub entry: u32,
}

impl Rule {
    /// A copy of the rule.
    pub(crate) fn try_clone(&self, alloc: Global) -> Result<Rule, AllocError>
        ensures { IfOk result (λ r. r ≡ self.now) }
    {
        Ok(Rule {
            number: self.number,
            conditions: self.conditions.try_clone(alloc)?,
            answer: self.answer,
            entry: self.entry,
        })
    }

    /// Whether each of its masks is simple.
    pub(crate) fn is_plain(&self) -> bool
        ensures { IsTrue result ↔ IsPlainRule self.now }
    {
        self.conditions.are_plain()
    }

    /// Whether no condition compares a bit of an argument, so that all records of an architecture with the syscall
    /// number meet the rule.
    pub(crate) fn is_unconditional(&self, architecture: Architecture) -> bool
        ensures { result ≡ unconditional architecture self.now }
    {
        self.conditions
            .compare_nothing(architecture.argument_bits())
    }

    /// Whether a record of an architecture meets the rule.
    pub(crate) fn is_met(&self, architecture: Architecture, call: &CallRecord) -> bool
        requires { All (λ c. c.index < seccomp_data_args) self.now.conditions }
        ensures { result ≡ meets architecture self.now call.now }
    {
        call.nr == self.number && all_hold(architecture, self.conditions.as_slice(), call)
    }

    /// Whether the first conditions of both rules want the same argument to have a value, the later rule's no less than
    /// this one's.
    pub(crate) fn rises_to(&self, later: &Rule) -> bool
        ensures { IsTrue result → Rise self.now later.now }
    {
        match (self.conditions.as_slice(), later.conditions.as_slice()) {
            ([first, ..], [second, ..]) => {
                first.op == Operator::Equal
                    && second.op == Operator::Equal
                    && first.index == second.index
                    && first.value <= second.value
            }
            _ => false,
        }
    }

    /// The value of the first condition, 0 if there is none.
    pub fn first_value(&self) -> u64
        ensures { result ≡ first_value_of self.now }
    {
        match self.conditions.as_slice() {
            [first, ..] => first.value,
            [] => 0,
        }
    }

    /// Whether some record of an architecture meets both rules and their answers differ.
    #[tactic(auto, using(crate::proofs::Overlaps::conflict_from, crate::proofs::Overlaps::overlap_of_conflict))]
    pub(crate) fn conflicts_with(&self, other: &Rule, architecture: Architecture) -> bool
        requires own { IsRule architecture self.now }
        requires other { IsRule architecture other.now }
        ensures { IsTrue result ↔ Conflicts architecture self.now other.now }
    {
        self.number == other.number
            && self.answer != other.answer
            && conditions_overlap(
                architecture.argument_bits(),
                self.conditions.as_slice(),
                other.conditions.as_slice(),
            )
    }
}

impl MadeWith<Global> for Rule {
    /// A rule without conditions, for the unused slots of inline storage.
    fn made_with(alloc: Global) -> Rule {
        Rule {
            number: 0,
            conditions: Conditions::from_vec(Vec::new(alloc)),
            answer: Answer(0),
            entry: 0,
        }
    }
}

/// Whether each condition holds of the argument at its index.
fn all_hold(architecture: Architecture, conditions: &[Condition], call: &CallRecord) -> bool
    requires { All (λ c. c.index < seccomp_data_args) conditions.now }
    ensures { result ≡ all_conditions_hold architecture call.now conditions.now }
{
    let bits = architecture.argument_bits();
    for condition in conditions {
        if !condition.holds_of(bits.taken(call.args[usize::from(condition.index)])) {
            return false;
        }
    }
    true
}
