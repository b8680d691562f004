//! Conditions on syscall arguments (OCI runtime specification, config-linux.md, seccomp).

ghost use Rattle.std.specs.Prelude.{◌≡◌, ◌≤◌, ◌↔◌, ℕ, IsTrue, All, IfOk, IfSome};
ghost use Rattle.std.specs.List.{list_all};
ghost use Rattle.scf_profile.specs.Condition.{condition_holds};
ghost use Rattle.scf_profile.specs.NumberTests.{test_of};
ghost use Rattle.scf_profile.specs.internal.NumberSets.{IsNumberSet, is_in_some};
ghost use Rattle.scf_insn.specs.Architectures.{greatest_argument};
ghost use Rattle.scf_profile.specs.PlainProfile.{IsPlainCondition};
ghost use Rattle.scf_profile.specs.Readings.{compares_nothing as nothing_compared};

use crate::number_set::NumberSet;
use crate::number_test::NumberTest;
use scf_insn::{ArgumentBits, high_half, is_simple_mask, low_half};
use std::alloc::{AllocError, Global};
use std::marker::Model;

/// The operator of a condition (`SCMP_CMP_NE`, `LT`, `LE`, `EQ`, `GE`, `GT`, `MASKED_EQ`). All compare whole unsigned
/// 64-bit numbers.
#[derive(Clone, Copy, PartialEq, Eq)]
pub enum Operator {
    NotEqual,
    Less,
    LessOrEqual,
    Equal,
    GreaterOrEqual,
    Greater,
    /// `argument & value == value_two & value`.
    MaskedEqual,
}

/// A condition on the argument with index `index`, 0 to 5 in a loaded profile. `value_two` matters to `MaskedEqual`
/// only.
#[derive(Clone, Copy, PartialEq, Eq)]
pub struct Condition {
    pub index: u8,
    pub op: Operator,
    pub value: u64,
    pub value_two: u64,
}

impl Condition {
    /// Whether both 32-bit halves of its mask are simple, if its operator has one.
    fn is_plain(&self) -> bool
        ensures { IsTrue result ↔ IsPlainCondition self.now }
    {
        self.op != Operator::MaskedEqual
            || (is_simple_mask(low_half(self.value)) && is_simple_mask(high_half(self.value)))
    }

    /// The test of the argument that decides the condition, and the test's result if the condition holds.
    pub fn test(&self) -> (NumberTest, bool)
        ensures { result ≡ test_of self.now }
    {
        let value = self.value;
        let equal = NumberTest::Masked {
            mask: u64::MAX,
            value,
        };
        match self.op {
            Operator::NotEqual => (equal, false),
            Operator::Less => (NumberTest::GreaterOrEqual(value), false),
            Operator::LessOrEqual => (NumberTest::Greater(value), false),
            Operator::Equal => (equal, true),
            Operator::GreaterOrEqual => (NumberTest::GreaterOrEqual(value), true),
            Operator::Greater => (NumberTest::Greater(value), true),
            Operator::MaskedEqual => {
                let masked = NumberTest::Masked {
                    mask: value,
                    value: self.value_two & value,
                };
                (masked, true)
            }
        }
    }

    /// Whether its mask has no bit of an argument.
    pub(crate) fn compares_nothing(&self, bits: ArgumentBits) -> bool
        ensures { result ≡ nothing_compared bits self.now.op self.now.value }
    {
        matches!(self.op, Operator::MaskedEqual) && bits.taken(self.value) == 0
    }

    /// Whether the condition holds for an argument.
    pub(crate) fn holds_of(&self, argument: u64) -> bool
        ensures { result ≡ condition_holds self.now argument }
    {
        match self.op {
            Operator::NotEqual => argument != self.value,
            Operator::Less => argument < self.value,
            Operator::LessOrEqual => argument <= self.value,
            Operator::Equal => argument == self.value,
            Operator::GreaterOrEqual => argument >= self.value,
            Operator::Greater => argument > self.value,
            Operator::MaskedEqual => argument & self.value == self.value_two & self.value,
        }
    }

    /// The arguments for which the condition holds, if there are any.
    #[tactic(auto, using(crate::proofs::Masks::masked_twice))]
    pub(crate) fn numbers(&self, bits: ArgumentBits) -> Option<NumberSet>
        ensures same { (n : ℕ) → n ≤ greatest_argument bits → is_in_some result n ≡ condition_holds self.now n }
        ensures set { IfSome result (IsNumberSet bits) }
    {
        let value = self.value;
        match self.op {
            Operator::NotEqual => Some(NumberSet::AllBut(value)),
            Operator::Less => Some(NumberSet::AtMost(value.checked_sub(1)?)),
            Operator::LessOrEqual => Some(NumberSet::AtMost(value)),
            Operator::Equal => NumberSet::masked(bits, u64::MAX, value),
            Operator::GreaterOrEqual => NumberSet::at_least(bits, value),
            Operator::Greater => NumberSet::at_least(bits, value.checked_add(1)?),
            Operator::MaskedEqual => NumberSet::masked(bits, value, self.value_two & value),
        }
    }
}

/// The conditions of a rule: a list.
#[derive(Drop)]
pub struct Conditions {
    list: Vec<Condition>,
}

impl Model for Conditions {
    ghost use Rattle.std.specs.Prelude.{List};
    ghost use Rattle.scf_profile.specs.declared.condition.Condition.{Condition};

    ghost Value = { List Condition };

    ghost view = { λ c. c.list.items };
}

impl Conditions {
    /// The list of these conditions, in order.
    pub fn from_vec(list: Vec<Condition>) -> Conditions
        ensures { result ≡ list.items }
    {
        Conditions { list }
    }

    /// A copy of the conditions.
    pub(crate) fn try_clone(&self, alloc: Global) -> Result<Conditions, AllocError>
        ensures { IfOk result (λ c. c ≡ self.now) }
    {
        Ok(Conditions {
            list: Vec::from_slice(alloc, &self.list)?,
        })
    }

    /// Whether each of them is plain.
    pub(crate) fn are_plain(&self) -> bool
        ensures { IsTrue result ↔ All IsPlainCondition self.now }
    {
        self.list.iter().all(|condition| condition.is_plain())
    }

    /// Whether none of them compares anything.
    pub(crate) fn compare_nothing(&self, bits: ArgumentBits) -> bool
        ensures { result ≡ list_all (λ c. nothing_compared bits c.op c.value) self.now }
    {
        self.list
            .iter()
            .all(|condition| condition.compares_nothing(bits))
    }

    /// The conditions, in order.
    pub fn as_slice(&self) -> &[Condition]
        ensures { result.now ≡ self.now }
    {
        &self.list
    }
}
