//! Affine terms: a bit slice under an XOR with a constant, times a constant, plus one, divided by one.

ghost use Rattle.std.specs.Prelude.{◌≡◌, ◌-◌, ◌*◌, ◌/◌, ◌%◌, ◌+◌, ◌<◌, ◌≤◌, ◌^◌, ℕ, List, IfSome, not};
ghost use Rattle.std.specs.Prelude.{◌==◌, bit_and, bit_or, bit_xor, slice_index};
ghost use Rattle.scf_insn.specs.Words.{IsWords};
ghost use Rattle.scf_facts.specs.Bits.{HasBits};
ghost use Rattle.scf_machine.specs.Machine.{holds, value_computed};
ghost use Rattle.scf_compare.specs.internal.AffineTerms.{IsAffineTerm, affine_value, is_within, product_value};
ghost use Rattle.scf_compare.specs.internal.AffineTerms.{sum_value, xored_value};
ghost use Rattle.scf_compare.specs.internal.BitSlices.{IsBitSlice, bit_slice_value};
ghost use Rattle.scf_compare.specs.internal.Values.{Decides, IsComputedNumber, IsTestDecision};

use crate::bit_slice::BitSlice;
use crate::computed::Computed;
use crate::sources::OpenTest;
use crate::value::{Decision, Value};
use scf_facts::{Bits, is_high_mask};
use scf_insn::{Arithmetic, Test};

/// `((bit_slice ^ xor_mask) * factor + addend) / divisor`, where the product and the sum are modulo 2^32.
#[derive(Clone, Copy)]
pub(crate) struct AffineTerm {
    pub(crate) bit_slice: BitSlice,
    pub(crate) xor_mask: u32,
    pub(crate) factor: u32,
    pub(crate) addend: u32,
    pub(crate) divisor: u32,
}

impl AffineTerm {
    /// The bit slice itself.
    #[tactic(auto, using(crate::proofs::AffineTerms::of_laws))]
    pub(crate) fn of(bit_slice: BitSlice) -> AffineTerm
        requires { IsBitSlice bit_slice }
        ensures term { IsAffineTerm result }
        ensures number { (words : List ℕ) → bit_slice_value bit_slice words ≡ affine_value result words }
    {
        AffineTerm {
            bit_slice,
            xor_mask: 0,
            factor: 1,
            addend: 0,
            divisor: 1,
        }
    }

    /// The known bits of the number, given those of its word, and the bits of the word on which it depends.
    pub(crate) fn in_bits(self, word: Bits) -> Computed
        requires { IsAffineTerm self }
        ensures { (words : List ℕ) → HasBits word (slice_index words self.bit_slice.word)
            → IsComputedNumber result (affine_value self words) }
    {
        self.bit_slice
            .in_bits(word)
            .combined(Arithmetic::Xor, Computed::constant(self.xor_mask))
            .times(self.factor)
            .plus(self.addend)
            .over(self.divisor)
    }

    /// `self op v`, if it is an affine term.
    pub(crate) fn computed(self, arithmetic: Arithmetic, v: u32) -> Option<AffineTerm>
        requires { IsAffineTerm self }
        ensures term { IfSome result IsAffineTerm }
        ensures number { IfSome result (λ term. (words : List ℕ)
            → value_computed arithmetic (affine_value self words) v ≡ affine_value term words) }
    {
        match arithmetic {
            Arithmetic::Add => self.add(v),
            Arithmetic::Sub => self.sub(v),
            Arithmetic::Div => self.div(v),
            Arithmetic::Rsh if v < 32 => self.div(1 << v),
            Arithmetic::Mul => self.mul(v),
            Arithmetic::Lsh if v < 32 => self.mul(1 << v),
            Arithmetic::And => self.masked(v),
            Arithmetic::Or => self.or(v),
            Arithmetic::Xor => self.xor(v),
            Arithmetic::Lsh | Arithmetic::Rsh => None,
        }
    }

    /// `v op self`, if it is an affine term.
    #[tactic(auto, using(crate::proofs::AffineTerms::commuted_laws))]
    pub(crate) fn computed_from(self, arithmetic: Arithmetic, v: u32) -> Option<AffineTerm>
        requires { IsAffineTerm self }
        ensures term { IfSome result IsAffineTerm }
        ensures number { IfSome result (λ term. (words : List ℕ)
            → value_computed arithmetic v (affine_value self words) ≡ affine_value term words) }
    {
        match arithmetic {
            Arithmetic::Sub => self.reverse_sub(v),
            Arithmetic::Add
            | Arithmetic::Mul
            | Arithmetic::And
            | Arithmetic::Or
            | Arithmetic::Xor => self.computed(arithmetic, v),
            Arithmetic::Div | Arithmetic::Lsh | Arithmetic::Rsh => None,
        }
    }

    /// `self op other`, if it is an affine term.
    #[tactic(auto, using(crate::proofs::AffineTerms::combined_laws))]
    pub(crate) fn combined(self, arithmetic: Arithmetic, other: AffineTerm) -> Option<AffineTerm>
        requires term { IsAffineTerm self }
        requires other { IsAffineTerm other }
        ensures term { IfSome result IsAffineTerm }
        ensures number { IfSome result (λ term. (words : List ℕ)
            → value_computed arithmetic (affine_value self words) (affine_value other words)
            ≡ affine_value term words) }
    {
        match arithmetic {
            Arithmetic::Add => self.sum(other),
            Arithmetic::Sub => self.sum(other.reverse_sub(0)?),
            Arithmetic::Mul
            | Arithmetic::Div
            | Arithmetic::Or
            | Arithmetic::And
            | Arithmetic::Xor
            | Arithmetic::Lsh
            | Arithmetic::Rsh => None,
        }
    }

    /// `self + other`, if the bit slice of one of them is that of the other one shifted to the left.
    #[tactic(auto, using(crate::proofs::Common::add_comm))]
    fn sum(self, other: AffineTerm) -> Option<AffineTerm>
        requires term { IsAffineTerm self }
        requires other { IsAffineTerm other }
        ensures term { IfSome result IsAffineTerm }
        ensures number { IfSome result (λ term. (words : List ℕ)
            → (affine_value self words + affine_value other words) % 2 ^ 32 ≡ affine_value term words) }
    {
        let (first, second) = (self.upright(), other.upright());
        let sum = if first.bit_slice.left <= second.bit_slice.left {
            first.plus_shifted(second)
        } else {
            second.plus_shifted(first)
        };
        Some(sum?.normal())
    }

    /// `self + other`, if the bit slice of `other` is that of `self` shifted to the left.
    fn plus_shifted(self, other: AffineTerm) -> Option<AffineTerm>
        requires term { IsAffineTerm self }
        requires other { IsAffineTerm other }
        ensures term { IfSome result IsAffineTerm }
        ensures number { IfSome result (λ term. (words : List ℕ)
            → (affine_value self words + affine_value other words) % 2 ^ 32 ≡ affine_value term words) }
    {
        if self.divisor != 1 || other.divisor != 1 {
            return None;
        }
        let count = other.bit_slice.left.checked_sub(self.bit_slice.left)?;
        let shifted = self.shifted_left(count)?;
        if shifted.bit_slice != other.bit_slice || shifted.xor_mask != other.xor_mask {
            return None;
        }
        Some(AffineTerm {
            factor: self.factor.wrapping_add(other.factor << count),
            addend: self.addend.wrapping_add(other.addend),
            ..self
        })
    }

    /// `self ^ v`, if it is an affine term.
    fn xor(self, v: u32) -> Option<AffineTerm>
        requires { IsAffineTerm self }
        ensures term { IfSome result IsAffineTerm }
        ensures number { IfSome result (λ term. (words : List ℕ)
            → bit_xor (affine_value self words) v ≡ affine_value term words) }
    {
        if self.divisor != 1 {
            return None;
        }
        if self.addend == 0 && self.factor == 1 {
            return Some(AffineTerm {
                xor_mask: self.xor_mask ^ v,
                ..self
            });
        }
        (v == u32::MAX).then_some(self.complement())
    }

    /// `!self`, if nothing is divided.
    #[tactic(auto, using(crate::proofs::AffineTerms::complement_laws))]
    fn complement(self) -> AffineTerm
        requires { IsAffineTerm self }
        ensures term { IsAffineTerm result }
        ensures divisor { result.divisor ≡ self.divisor }
        ensures number { self.divisor ≡ 1
            → (words : List ℕ) → 2 ^ 32 - 1 - affine_value self words ≡ affine_value result words }
    {
        AffineTerm {
            xor_mask: !self.xor_mask,
            addend: self.factor.wrapping_sub(self.addend).wrapping_sub(1),
            ..self
        }
    }

    /// `self & v`, if it is an affine term: of a sum `v` is all bits below one, and the others are shifted out. The low
    /// bits of a product by an odd number are followed one by one: a range of it isn't one of the word.
    #[tactic(auto, using(crate::proofs::AffineTerms::masked_laws))]
    fn masked(self, v: u32) -> Option<AffineTerm>
        requires { IsAffineTerm self }
        ensures term { IfSome result IsAffineTerm }
        ensures number { IfSome result (λ term. (words : List ℕ)
            → bit_and (affine_value self words) v ≡ affine_value term words) }
    {
        let count = v.leading_zeros();
        match self.and(v) {
            None if v != 0 && v == u32::MAX >> count => {
                let top = self.mul(1 << count)?;
                if top.factor != 1 {
                    return None;
                }
                top.div(1 << count)
            }
            term => term,
        }
    }

    /// `self & v`, if nothing is multiplied, added or divided.
    #[tactic(auto, using(crate::proofs::AffineTerms::and_laws))]
    fn and(self, v: u32) -> Option<AffineTerm>
        requires { IsAffineTerm self }
        ensures term { IfSome result IsAffineTerm }
        ensures no_product { IfSome result (λ term. term.factor ≡ 1) }
        ensures no_sum { IfSome result (λ term. term.addend ≡ 0) }
        ensures undivided { IfSome result (λ term. term.divisor ≡ 1) }
        ensures number { IfSome result (λ term. (words : List ℕ)
            → bit_and (affine_value self words) v ≡ affine_value term words) }
    {
        if self.factor != 1 || self.addend != 0 || self.divisor != 1 {
            return None;
        }
        Some(AffineTerm {
            bit_slice: self.bit_slice.and(v),
            xor_mask: self.xor_mask & v,
            ..self
        })
    }

    /// `self | v`, if it is an affine term.
    #[tactic(auto, using(crate::proofs::AffineTerms::or_laws))]
    fn or(self, v: u32) -> Option<AffineTerm>
        requires { IsAffineTerm self }
        ensures term { IfSome result IsAffineTerm }
        ensures number { IfSome result (λ term. (words : List ℕ)
            → bit_or (affine_value self words) v ≡ affine_value term words) }
    {
        self.and(!v)?.xor(v)
    }

    /// `self + v`, if it is an affine term.
    #[tactic(auto, using(crate::proofs::AffineTerms::add_more))]
    fn add(self, v: u32) -> Option<AffineTerm>
        requires { IsAffineTerm self }
        ensures term { IfSome result IsAffineTerm }
        ensures number { IfSome result (λ term. (words : List ℕ)
            → (affine_value self words + v) % 2 ^ 32 ≡ affine_value term words) }
    {
        if self.divisor != 1 {
            return None;
        }
        Some(AffineTerm {
            addend: self.addend.wrapping_add(v),
            ..self
        })
    }

    /// `self - v`, if it is an affine term.
    #[tactic(auto, using(crate::proofs::AffineTerms::sum_of_negation))]
    fn sub(self, v: u32) -> Option<AffineTerm>
        requires { IsAffineTerm self }
        ensures term { IfSome result IsAffineTerm }
        ensures number { IfSome result (λ term. (words : List ℕ)
            → (affine_value self words + 2 ^ 32 - v) % 2 ^ 32 ≡ affine_value term words) }
    {
        self.add(0u32.wrapping_sub(v))
    }

    /// `v - self`, if it is an affine term.
    #[tactic(auto, using(crate::proofs::AffineTerms::reverse_sub_laws))]
    fn reverse_sub(self, v: u32) -> Option<AffineTerm>
        requires { IsAffineTerm self }
        ensures term { IfSome result IsAffineTerm }
        ensures number { IfSome result (λ term. (words : List ℕ)
            → (v + 2 ^ 32 - affine_value self words) % 2 ^ 32 ≡ affine_value term words) }
    {
        if self.divisor != 1 {
            return None;
        }
        self.complement().add(v.wrapping_add(1))
    }

    /// `self * v`, if it is an affine term.
    #[tactic(auto, using(crate::proofs::AffineTerms::mul_laws))]
    fn mul(self, v: u32) -> Option<AffineTerm>
        requires { IsAffineTerm self }
        ensures term { IfSome result IsAffineTerm }
        ensures number { IfSome result (λ term. (words : List ℕ)
            → affine_value self words * v % 2 ^ 32 ≡ affine_value term words) }
    {
        if self.divisor != 1 {
            return None;
        }
        let product = AffineTerm {
            factor: self.factor.wrapping_mul(v),
            addend: self.addend.wrapping_mul(v),
            ..self
        };
        Some(product.normal())
    }

    /// `self / v`, if it is an affine term.
    #[tactic(auto, using(crate::proofs::AffineTerms::div_laws))]
    fn div(self, v: u32) -> Option<AffineTerm>
        requires { IsAffineTerm self }
        ensures term { IfSome result IsAffineTerm }
        ensures number { IfSome result (λ term. (words : List ℕ)
            → affine_value self words / v ≡ affine_value term words) }
    {
        if v == 0 {
            return None;
        }
        let divisor = self.divisor.checked_mul(v)?;
        Some(AffineTerm { divisor, ..self })
    }

    /// The decision of the test of `self` against `v`.
    pub(crate) fn decide(self, test: Test, v: u32) -> Decision
        requires { IsAffineTerm self }
        ensures asks { IsTestDecision result }
        ensures decides { (words : List ℕ) → IsWords words
            → Decides result words (holds test (affine_value self words) v) }
    {
        match test {
            Test::Equal => self.is_within(v, v),
            Test::GreaterOrEqual => self.is_within(v, u32::MAX),
            Test::Greater if v == u32::MAX => Decision::Known(false),
            Test::Greater => self.is_within(v + 1, u32::MAX),
            Test::CommonBit => match self.masked(v) {
                Some(common) => common.is_within(0, 0).negated(),
                None if is_high_mask(v) => self.is_within(!v + 1, u32::MAX),
                None => Decision::Open(OpenTest::NONE),
            },
        }
    }

    /// The same number with an odd factor of the lesser of both signs, where bits of the slice remain: so `w * 2 * 3`
    /// and `w * 6` are one term, and `-w * 3` and `-(w * 3)`.
    fn normal(self) -> AffineTerm
        requires { IsAffineTerm self }
        ensures term { IsAffineTerm result }
        ensures number { (words : List ℕ) → affine_value self words ≡ affine_value result words }
    {
        let term = self.with_odd_factor().reduced();
        if term.factor << term.bit_slice.left < 1 << 31 {
            return term;
        }
        term.turned().reduced()
    }

    /// The same number with a XOR of only those bits that the slice may have, and a factor without the bits that its
    /// left shift loses.
    fn reduced(self) -> AffineTerm
        requires { IsAffineTerm self }
        ensures term { IsAffineTerm result }
        ensures number { (words : List ℕ) → affine_value self words ≡ affine_value result words }
    {
        let bits = self.bit_slice.bits();
        let left = self.bit_slice.left;
        let added = (self.xor_mask & !bits).wrapping_mul(self.factor);
        AffineTerm {
            xor_mask: self.xor_mask & bits,
            factor: self.factor << left >> left,
            addend: self.addend.wrapping_add(added),
            ..self
        }
    }

    /// The same number, where the XOR doesn't turn round the highest bit that the slice may have.
    fn upright(self) -> AffineTerm
        requires { IsAffineTerm self }
        ensures term { IsAffineTerm result }
        ensures number { (words : List ℕ) → affine_value self words ≡ affine_value result words }
    {
        let term = self.reduced();
        if term.xor_mask <= self.bit_slice.bits() / 2 {
            return term;
        }
        term.turned().reduced()
    }

    /// The same number, where the XOR turns the other bits round, and the factor has the other sign.
    #[tactic(auto, using(crate::proofs::AffineTerms::turned_laws))]
    fn turned(self) -> AffineTerm
        requires { IsAffineTerm self }
        ensures term { IsAffineTerm result }
        ensures number { (words : List ℕ) → affine_value self words ≡ affine_value result words }
    {
        AffineTerm {
            xor_mask: !self.xor_mask,
            factor: 0u32.wrapping_sub(self.factor),
            addend: self.addend.wrapping_sub(self.factor),
            ..self
        }
    }

    /// The same number with an odd factor, where bits of the slice remain.
    #[tactic(auto, using(crate::proofs::AffineTerms::by_odd))]
    fn with_odd_factor(self) -> AffineTerm
        requires { IsAffineTerm self }
        ensures term { IsAffineTerm result }
        ensures number { (words : List ℕ) → affine_value self words ≡ affine_value result words }
    {
        let (factor, count) = odd_part(self.factor);
        match self.shifted_left(count) {
            Some(shifted) => AffineTerm { factor, ..shifted },
            None => self,
        }
    }

    /// The test `low <= self <= high`.
    fn is_within(self, low: u32, high: u32) -> Decision
        requires term { IsAffineTerm self }
        requires some { low ≤ high }
        ensures asks { IsTestDecision result }
        ensures decides { (words : List ℕ) → IsWords words
            → Decides result words (is_within low high (affine_value self words)) }
    {
        let most = u32::MAX / self.divisor;
        if low > most {
            return Decision::Known(false);
        }
        let last = if high >= most {
            u32::MAX
        } else {
            high * self.divisor + (self.divisor - 1)
        };
        self.is_sum_within(low * self.divisor, last)
    }

    /// The test that the sum lies in `low..=high`.
    #[tactic(auto, using(crate::proofs::AffineTerms::sum_laws))]
    fn is_sum_within(self, low: u32, high: u32) -> Decision
        requires term { IsAffineTerm self }
        requires some { low ≤ high }
        ensures asks { IsTestDecision result }
        ensures decides { (words : List ℕ) → IsWords words
            → Decides result words (is_within low high (sum_value self words)) }
    {
        if low == 0 && high == u32::MAX {
            return Decision::Known(true);
        }
        let first = low.wrapping_sub(self.addend);
        let last = high.wrapping_sub(self.addend);
        if first <= last {
            self.is_product_within(first, last)
        } else {
            self.is_product_within(last + 1, first - 1).negated()
        }
    }

    /// The test that the product lies in `low..=high`: if the factor isn't 1, only that it is one value.
    #[tactic(auto, using(crate::proofs::AffineTerms::product_laws))]
    fn is_product_within(self, low: u32, high: u32) -> Decision
        requires term { IsAffineTerm self }
        requires some { low ≤ high }
        ensures asks { IsTestDecision result }
        ensures decides { (words : List ℕ) → IsWords words
            → Decides result words (is_within low high (product_value self words)) }
    {
        if self.factor == 1 {
            return self.is_xored_within(low, high);
        }
        match inverse_of(self.factor) {
            Some(inverse) if low == high => {
                let value = low.wrapping_mul(inverse);
                self.is_xored_within(value, value)
            }
            _ => Decision::Open(OpenTest::NONE),
        }
    }

    /// The bit slice under the XOR, shifted to the left, unless all its bits are lost.
    #[tactic(auto, using(crate::proofs::AffineTerms::shifted_laws))]
    fn shifted_left(self, count: u32) -> Option<AffineTerm>
        requires term { IsAffineTerm self }
        requires count { count < 32 }
        ensures term { IfSome result IsAffineTerm }
        ensures number { IfSome result (λ term. (words : List ℕ)
            → xored_value self words * 2 ^ count % 2 ^ 32 ≡ xored_value term words) }
        ensures rest { IfSome result (λ term. (term.addend ≡ self.addend) × (term.divisor ≡ self.divisor)) }
    {
        let Value::Slice(bit_slice) = self.bit_slice.shifted_left(count) else {
            return None;
        };
        Some(AffineTerm {
            bit_slice,
            xor_mask: self.xor_mask << count,
            ..self
        })
    }

    /// The test that the bit slice under the XOR lies in `low..=high`: it is one value, or the XOR sets bits that the
    /// slice lacks, or turns all bits round that it may have.
    fn is_xored_within(self, low: u32, high: u32) -> Decision
        requires term { IsAffineTerm self }
        requires some { low ≤ high }
        ensures asks { IsTestDecision result }
        ensures decides { (words : List ℕ) → IsWords words
            → Decides result words (is_within low high (xored_value self words)) }
    {
        let bits = self.bit_slice.bits();
        if low == high {
            self.bit_slice.is(low ^ self.xor_mask)
        } else if bits & self.xor_mask == 0 && self.xor_mask <= high {
            self.bit_slice
                .is_within(low.saturating_sub(self.xor_mask), high - self.xor_mask)
        } else if bits & self.xor_mask == bits {
            if low > self.xor_mask {
                return Decision::Known(false);
            }
            self.bit_slice
                .is_within(self.xor_mask.saturating_sub(high), self.xor_mask - low)
        } else {
            Decision::Open(OpenTest::NONE)
        }
    }
}

/// A number as an odd number, or 0, and how far that is shifted to the left.
#[tactic(auto, using(crate::proofs::AffineTerms::odd_laws))]
fn odd_part(number: u32) -> (u32, u32)
    ensures count { result.1 < 32 }
    ensures number { number ≡ result.0 * 2 ^ result.1 }
{
    if number == 0 {
        return (0, 0);
    }
    let count = number.trailing_zeros();
    (number >> count, count)
}

/// The inverse of an odd number modulo 2^32. An even number has none.
fn inverse_of(number: u32) -> Option<u32>
    ensures { IfSome result (λ inverse. number * inverse % 2 ^ 32 ≡ 1) }
{
    let mut inverse = number;
    for _step in 0..4 {
        let error = number.wrapping_mul(inverse).wrapping_sub(1);
        inverse = inverse.wrapping_mul(1u32.wrapping_sub(error));
    }
    (number.wrapping_mul(inverse) == 1).then_some(inverse)
}
