//! Abstract values: what is known of a register or a scratch word on a path through a filter.

ghost use Rattle.std.specs.Prelude.{◌≡◌, ℕ, ◌%◌, ◌^◌, ◌<◌, List, Bool, false, true, not, IfSome, IsSome};
ghost use Rattle.scf_insn.specs.Words.{IsWords};
ghost use Rattle.scf_machine.specs.Machine.{holds, value_computed};
ghost use Rattle.scf_compare.specs.Masked.{IsMaskOf, IsMaskedTest};
ghost use Rattle.scf_compare.specs.internal.BitSlices.{IsBitSlice, IsMaskedSlice, IsWhole, bit_slice_value};
ghost use Rattle.scf_compare.specs.internal.AffineTerms.{IsAffineTerm, affine_value};
ghost use Rattle.scf_compare.specs.internal.Values.{IsValue, Abstracts, IsMaskedValue, IsTestDecision, Decides};
ghost use Rattle.scf_compare.specs.internal.Values.{IsPlainDecision, IsComputedNumber};

use crate::affine_term::AffineTerm;
use crate::bit_slice::BitSlice;
use crate::computed::Computed;
use crate::known_bits::{known_outcome, told_bits};
use crate::sources::OpenTest;
use scf_facts::{Atom, WordFacts};
use scf_insn::{Arithmetic, Test};
use scf_machine::holds_of;

/// What is known of a value that a filter computes.
#[derive(Clone, Copy)]
pub(crate) enum Value {
    Known(u32),
    /// A bit slice of a word of the record.
    Slice(BitSlice),
    /// An affine term of a bit slice.
    Affine(AffineTerm),
    /// Anything else, by the bits that are known of it.
    Computed(Computed),
}

/// The decision of a test.
#[derive(Clone, Copy)]
pub(crate) enum Decision {
    Known(bool),
    /// It holds exactly if the atom has this answer.
    Asks(Atom, bool),
    /// Neither an atom nor the known bits decide it.
    Open(OpenTest),
}

impl Value {
    /// The known bits of the value, and the bits of the record's words on which it depends.
    pub(crate) fn in_bits<F: WordFacts>(self, facts: &F) -> Computed
        requires { IsValue self }
        ensures { (words : List ℕ) (x : ℕ) → F.allows facts.now (F.level facts.now) words
            → Abstracts self words x
            → IsComputedNumber result x }
    {
        match self {
            Value::Known(value) => Computed::constant(value),
            Value::Slice(bit_slice) => bit_slice.in_bits(told_bits(facts, bit_slice.word)),
            Value::Affine(term) => term.in_bits(told_bits(facts, term.bit_slice.word)),
            Value::Computed(computed) => computed,
        }
    }

    /// The abstract result of `self op other`.
    pub(crate) fn computed<F: WordFacts>(
        self,
        facts: &F,
        arithmetic: Arithmetic,
        other: Value,
    ) -> Value
        requires value { IsValue self }
        requires other { IsValue other }
        ensures value { IsValue result }
        ensures stands { (words : List ℕ) (a v : ℕ) → F.allows facts.now (F.level facts.now) words
            → Abstracts self words a
            → Abstracts other words v
            → Abstracts result words (value_computed arithmetic a v) }
        ensures masked { (masks v : ℕ) (under : Bool) → IsMaskedValue masks under self → other ≡ Value.Known v
            → arithmetic ≡ Arithmetic.And → IsMaskOf masks v → IsMaskedValue masks true result }
    {
        match self.exact_result(arithmetic, other) {
            Some(value) => value,
            None => self.result_in_bits(facts, arithmetic, other),
        }
    }

    /// The abstract result of `self op other` by the known bits of both: exact, if these make one of them a constant.
    fn result_in_bits<F: WordFacts>(self, facts: &F, arithmetic: Arithmetic, other: Value) -> Value
        requires value { IsValue self }
        requires other { IsValue other }
        ensures value { IsValue result }
        ensures stands { (words : List ℕ) (a v : ℕ) → F.allows facts.now (F.level facts.now) words
            → Abstracts self words a
            → Abstracts other words v
            → Abstracts result words (value_computed arithmetic a v) }
    {
        let (first, second) = (self.in_bits(facts), other.in_bits(facts));
        let exact = self
            .folded(first)
            .exact_result(arithmetic, other.folded(second));
        match exact {
            Some(value) => value,
            None => first.combined(arithmetic, second).value(),
        }
    }

    /// The value, or the number that its bits are, if all of them are known.
    fn folded(self, bits: Computed) -> Value
        requires { IsValue self }
        ensures value { IsValue result }
        ensures stands { (words : List ℕ) (x : ℕ) → IsComputedNumber bits x → Abstracts self words x
            → Abstracts result words x }
    {
        match bits.number() {
            Some(number) => Value::Known(number),
            None => self,
        }
    }

    /// The abstract result of `self op other`, if it is a constant, a bit slice or an affine term.
    fn exact_result(self, arithmetic: Arithmetic, other: Value) -> Option<Value>
        requires value { IsValue self }
        requires other { IsValue other }
        ensures value { IfSome result IsValue }
        ensures stands { IfSome result (λ value. (words : List ℕ) (a v : ℕ) → Abstracts self words a
            → Abstracts other words v
            → Abstracts value words (value_computed arithmetic a v)) }
        ensures some { (masks v : ℕ) (under : Bool) → IsMaskedValue masks under self → other ≡ Value.Known v
            → arithmetic ≡ Arithmetic.And → IsSome result }
        ensures masked { IfSome result (λ value. (masks v : ℕ) (under : Bool) → IsMaskedValue masks under self
            → other ≡ Value.Known v → arithmetic ≡ Arithmetic.And → IsMaskOf masks v
            → IsMaskedValue masks true value) }
    {
        match self.bit_slice_result(arithmetic, other) {
            Some(value) => Some(value),
            None => Some(Value::Affine(self.affine_result(arithmetic, other)?)),
        }
    }

    /// The abstract result of `self op other`, if one of them is a bit slice or a constant, the other a constant, and
    /// the result a bit slice or a constant.
    #[tactic(auto, using(std::proofs::lemmas::Nat::and_comm))]
    fn bit_slice_result(self, arithmetic: Arithmetic, other: Value) -> Option<Value>
        requires value { IsValue self }
        requires other { IsValue other }
        ensures value { IfSome result IsValue }
        ensures stands { IfSome result (λ value. (words : List ℕ) (a v : ℕ) → Abstracts self words a
            → Abstracts other words v
            → Abstracts value words (value_computed arithmetic a v)) }
        ensures some { (masks v : ℕ) (under : Bool) → IsMaskedValue masks under self → other ≡ Value.Known v
            → arithmetic ≡ Arithmetic.And → IsSome result }
        ensures masked { IfSome result (λ value. (masks v : ℕ) (under : Bool) → IsMaskedValue masks under self
            → other ≡ Value.Known v → arithmetic ≡ Arithmetic.And → IsMaskOf masks v
            → IsMaskedValue masks true value) }
    {
        match (arithmetic, self, other) {
            (Arithmetic::And, Value::Known(a), Value::Known(v)) => Some(Value::Known(a & v)),
            (Arithmetic::And, Value::Slice(bit_slice), Value::Known(v)) => {
                Some(Value::Slice(bit_slice.and(v)))
            }
            (Arithmetic::And, Value::Known(v), Value::Slice(bit_slice)) => {
                Some(Value::Slice(bit_slice.and(v)))
            }
            (Arithmetic::Lsh, Value::Slice(bit_slice), Value::Known(v)) if v < 32 => {
                Some(bit_slice.shifted_left(v))
            }
            (Arithmetic::Rsh, Value::Slice(bit_slice), Value::Known(v)) if v < 32 => {
                Some(bit_slice.shifted_right(v))
            }
            (Arithmetic::Mul, Value::Slice(bit_slice), Value::Known(v))
            | (Arithmetic::Mul, Value::Known(v), Value::Slice(bit_slice)) => {
                Some(bit_slice.shifted_left(exponent_of(v)?))
            }
            (Arithmetic::Div, Value::Slice(bit_slice), Value::Known(v)) => {
                Some(bit_slice.shifted_right(exponent_of(v)?))
            }
            _ => None,
        }
    }

    /// The value as an affine term, if it is one and no constant.
    fn affine_term(self) -> Option<AffineTerm>
        requires { IsValue self }
        ensures term { IfSome result IsAffineTerm }
        ensures number { IfSome result (λ term. (words : List ℕ) (x : ℕ) → Abstracts self words x
            → x ≡ affine_value term words) }
    {
        match self {
            Value::Slice(bit_slice) => Some(AffineTerm::of(bit_slice)),
            Value::Affine(term) => Some(term),
            Value::Known(_) | Value::Computed(_) => None,
        }
    }

    /// The abstract result of `self op other`, if they are affine terms or constants, and the result an affine term.
    fn affine_result(self, arithmetic: Arithmetic, other: Value) -> Option<AffineTerm>
        requires value { IsValue self }
        requires other { IsValue other }
        ensures term { IfSome result IsAffineTerm }
        ensures number { IfSome result (λ term. (words : List ℕ) (a v : ℕ) → Abstracts self words a
            → Abstracts other words v
            → value_computed arithmetic a v ≡ affine_value term words) }
    {
        match (self, other) {
            (_, Value::Known(v)) => self.affine_term()?.computed(arithmetic, v),
            (Value::Known(v), _) => other.affine_term()?.computed_from(arithmetic, v),
            _ => self
                .affine_term()?
                .combined(arithmetic, other.affine_term()?),
        }
    }

    /// Abstract `self & 31`.
    pub(crate) fn low_five_bits<F: WordFacts>(self, facts: &F) -> Value
        requires { IsValue self }
        ensures value { IsValue result }
        ensures stands { (words : List ℕ) (a : ℕ) → F.allows facts.now (F.level facts.now) words
            → Abstracts self words a
            → Abstracts result words (a % 32) }
    {
        self.computed(facts, Arithmetic::And, Value::Known(31))
    }

    /// The decision of the test of `self` against `other`.
    #[inline(always)]
    pub(crate) fn decide<F: WordFacts>(self, facts: &F, test: Test, other: Value) -> Decision
        requires value { IsValue self }
        requires other { IsValue other }
        ensures asks { IsTestDecision result }
        ensures decides { (words : List ℕ) (a v : ℕ) → IsWords words
            → F.allows facts.now (F.level facts.now) words
            → Abstracts self words a
            → Abstracts other words v
            → Decides result words (holds test a v) }
        ensures plain { (masks v : ℕ) (under : Bool) → IsMaskedValue masks under self → other ≡ Value.Known v
            → IsMaskedTest masks under test v → IsPlainDecision masks result }
    {
        match self.decide_by_atoms(test, other) {
            Decision::Open(_) => self.decide_by_bits(facts, test, other),
            decision => decision,
        }
    }

    /// The decision by the known bits of both, or by atoms, if the known bits make one of them a constant.
    #[cold]
    #[inline(never)]
    fn decide_by_bits<F: WordFacts>(self, facts: &F, test: Test, other: Value) -> Decision
        requires value { IsValue self }
        requires other { IsValue other }
        ensures asks { IsTestDecision result }
        ensures decides { (words : List ℕ) (a v : ℕ) → IsWords words
            → F.allows facts.now (F.level facts.now) words
            → Abstracts self words a
            → Abstracts other words v
            → Decides result words (holds test a v) }
    {
        let first = self.in_bits(facts);
        let second = other.in_bits(facts);
        match known_outcome(test, first.bits, second.bits) {
            Some(outcome) => Decision::Known(outcome),
            None => match self
                .folded(first)
                .decide_by_atoms(test, other.folded(second))
            {
                Decision::Open(_) => Decision::Open(open_test(test, first, second)),
                decision => decision,
            },
        }
    }

    /// The decision by what is asked of words of the record.
    #[tactic(auto, using(std::proofs::lemmas::Nat::and_comm))]
    fn decide_by_atoms(self, test: Test, other: Value) -> Decision
        requires value { IsValue self }
        requires other { IsValue other }
        ensures asks { IsTestDecision result }
        ensures decides { (words : List ℕ) (a v : ℕ) → IsWords words
            → Abstracts self words a
            → Abstracts other words v
            → Decides result words (holds test a v) }
        ensures plain { (masks v : ℕ) (under : Bool) → IsMaskedValue masks under self → other ≡ Value.Known v
            → IsMaskedTest masks under test v → IsPlainDecision masks result }
    {
        match (self, other) {
            (_, Value::Known(v)) => self.decide_against(test, v),
            (Value::Known(a), _) => match test {
                Test::Equal => other.decide_against(Test::Equal, a),
                Test::CommonBit => other.decide_against(Test::CommonBit, a),
                Test::Greater => other.decide_against(Test::GreaterOrEqual, a).negated(),
                Test::GreaterOrEqual => other.decide_against(Test::Greater, a).negated(),
            },
            _ => Decision::Open(OpenTest::NONE),
        }
    }

    /// The decision of a test against a constant by what is asked of words of the record.
    fn decide_against(self, test: Test, v: u32) -> Decision
        requires { IsValue self }
        ensures asks { IsTestDecision result }
        ensures decides { (words : List ℕ) (a : ℕ) → IsWords words
            → Abstracts self words a
            → Decides result words (holds test a v) }
        ensures plain { (masks : ℕ) (under : Bool) → IsMaskedValue masks under self
            → IsMaskedTest masks under test v → IsPlainDecision masks result }
    {
        match self {
            Value::Known(a) => Decision::Known(holds_of(test, a, v)),
            Value::Slice(bit_slice) => match decide_bit_slice(bit_slice, test, v) {
                Decision::Open(_) => AffineTerm::of(bit_slice).decide(test, v),
                decision => decision,
            },
            Value::Affine(term) => term.decide(test, v),
            Value::Computed(_) => Decision::Open(OpenTest::NONE),
        }
    }
}

impl Decision {
    /// The decision of the negated test.
    pub(crate) fn negated(self) -> Decision
        requires { IsTestDecision self }
        ensures asks { IsTestDecision result }
        ensures decides { (words : List ℕ) (outcome : Bool) → Decides self words outcome
            → Decides result words (not outcome) }
        ensures plain { (masks : ℕ) → IsPlainDecision masks self → IsPlainDecision masks result }
    {
        match self {
            Decision::Known(outcome) => Decision::Known(!outcome),
            Decision::Asks(atom, holds) => Decision::Asks(atom, !holds),
            Decision::Open(test) => Decision::Open(test),
        }
    }
}

/// A test of two values that their known bits don't decide.
fn open_test(test: Test, first: Computed, second: Computed) -> OpenTest {
    let (sources, is_order) = match test {
        Test::Equal => (first.sources.guiding(second.sources), false),
        Test::Greater | Test::GreaterOrEqual => (first.sources.guiding(second.sources), true),
        Test::CommonBit => {
            let common = first.combined(Arithmetic::And, second);
            (common.sources, common.bits.mask & 0xff == 0xff)
        }
    };
    OpenTest::of(sources, is_order)
}

/// The exponent, if `v` is a power of two.
fn exponent_of(v: u32) -> Option<u32>
    ensures { IfSome result (λ count. (count < 32) × (v ≡ 2 ^ count)) }
{
    let count = v.trailing_zeros();
    (count < u32::BITS && v == 1 << count).then_some(count)
}

/// The decision of a test of a bit slice against a constant.
#[tactic(auto, using(crate::proofs::BitSlices::whole_laws))]
fn decide_bit_slice(bit_slice: BitSlice, test: Test, v: u32) -> Decision
    requires { IsBitSlice bit_slice }
    ensures asks { IsTestDecision result }
    ensures decides { (words : List ℕ) → IsWords words
        → Decides result words (holds test (bit_slice_value bit_slice words) v) }
    ensures plain { (masks : ℕ) (under : Bool) → IsMaskedSlice masks bit_slice → (under ≡ false → IsWhole bit_slice)
        → IsMaskedTest masks under test v → IsPlainDecision masks result }
{
    match test {
        Test::Equal => bit_slice.is(v),
        Test::CommonBit => bit_slice.and(v).is(0).negated(),
        Test::Greater => bit_slice.is_above(v),
        Test::GreaterOrEqual if bit_slice.is_whole() => {
            let word = bit_slice.word;
            Decision::Asks(Atom::Ge { word, value: v }, true)
        }
        Test::GreaterOrEqual if v == 0 => Decision::Known(true),
        Test::GreaterOrEqual => bit_slice.is_above(v - 1),
    }
}
