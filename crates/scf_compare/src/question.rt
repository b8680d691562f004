//! Conditions on arguments as questions about 32-bit words.

ghost use Rattle.std.specs.Prelude.{◌≡◌, ◌+◌, ◌*◌, ◌<◌, ◌^◌, ℕ};
ghost use Rattle.scf_insn.specs.Kernel.{seccomp_data_args};
ghost use Rattle.scf_facts.specs.Atoms.{word_of};
ghost use Rattle.scf_profile.specs.NumberTests.{test_of};
ghost use Rattle.scf_compare.specs.Masked.{IsMaskedCondition};
ghost use Rattle.scf_compare.specs.internal.Conditions.{CostsAt, IsAtTest, Splits, asks_of_zero, successor_at_zero, word_asked};
ghost use Rattle.scf_compare.specs.internal.Asking.{KeepsEither};

use crate::asking::word_is;
use ConditionPart::{Above, Low};
use Successor::{Decided, Then};
use scf_facts::Atom;
use scf_insn::{ArgumentBits, high_half, low_half};
use scf_profile::{Condition, NumberTest};

/// Which part of a condition is asked.
#[derive(Clone, Copy)]
pub(crate) enum ConditionPart {
    /// Whether the high half equals the value's: the first question.
    High,
    /// Whether the high half is above the value's, if it isn't equal.
    Above,
    /// The question about the low half, if the high half is equal.
    Low,
}

impl ConditionPart {
    /// Whether it asks of the high half of an argument of 32 bits: that half is 0, whatever its word is.
    pub(crate) fn asks_of_zero(self, bits: ArgumentBits) -> bool
        ensures { result ≡ asks_of_zero bits self }
    {
        match self {
            ConditionPart::High | ConditionPart::Above => bits == ArgumentBits::Bits32,
            ConditionPart::Low => false,
        }
    }
}

/// Where the answer to a question leads.
#[derive(Clone, Copy)]
pub(crate) enum Successor {
    /// It is decided whether the condition holds.
    Decided(bool),
    /// Another part has to be asked.
    Then(ConditionPart),
}

/// A question, and where its two answers lead.
#[derive(Clone, Copy)]
pub(crate) struct Question {
    pub(crate) atom: Atom,
    pub(crate) if_true: Successor,
    pub(crate) if_false: Successor,
}

impl Question {
    /// Where the answer leads if the half is 0.
    pub(crate) fn successor_at_zero(self) -> Successor
        ensures { result ≡ successor_at_zero self }
    {
        if self.atom.answer(0) {
            self.if_true
        } else {
            self.if_false
        }
    }
}

/// The question of one part of a condition.
#[tactic(auto, using(crate::proofs::MaskedSides::masked_test))]
pub(crate) fn question_of(condition: Condition, part: ConditionPart) -> Question
    requires { condition.index < seccomp_data_args }
    ensures within { word_of result.atom < 16 }
    ensures word { word_of result.atom ≡ word_asked part (2 * condition.index + 4) }
    ensures splits { let test = test_of condition in
        (n : ℕ) → n < 2 ^ 64 → IsAtTest test.0 part n → Splits test part result n }
    ensures costs { CostsAt part result }
    ensures keeps { (masks : ℕ) → IsMaskedCondition masks condition → KeepsEither masks result.atom }
{
    let (test, expected) = condition.test();
    let low = 2 * condition.index + 4;
    let high = low + 1;
    let (met, unmet) = (Decided(expected), Decided(!expected));
    match part {
        ConditionPart::High => match test {
            NumberTest::Masked { mask, value } => Question {
                atom: Atom::Eq {
                    word: high,
                    mask: high_half(mask),
                    value: high_half(value),
                },
                if_true: Then(Low),
                if_false: unmet,
            },
            NumberTest::Greater(value) | NumberTest::GreaterOrEqual(value) => Question {
                atom: word_is(high, high_half(value)),
                if_true: Then(Low),
                if_false: Then(Above),
            },
        },
        ConditionPart::Above => match test {
            NumberTest::Masked { value, .. }
            | NumberTest::Greater(value)
            | NumberTest::GreaterOrEqual(value) => Question {
                atom: Atom::Gt {
                    word: high,
                    value: high_half(value),
                },
                if_true: met,
                if_false: unmet,
            },
        },
        ConditionPart::Low => {
            let atom = match test {
                NumberTest::Masked { mask, value } => Atom::Eq {
                    word: low,
                    mask: low_half(mask),
                    value: low_half(value),
                },
                NumberTest::Greater(value) => Atom::Gt {
                    word: low,
                    value: low_half(value),
                },
                NumberTest::GreaterOrEqual(value) => Atom::Ge {
                    word: low,
                    value: low_half(value),
                },
            };
            Question {
                atom,
                if_true: met,
                if_false: unmet,
            }
        }
    }
}
