//! Bit slices: what a filter takes of one word of the record by masks and shifts.

ghost use Rattle.std.specs.Prelude.{◌≡◌, ◌==◌, ◌↔◌, ◌-◌, ◌*◌, ◌/◌, ◌%◌, ◌<◌, ◌≤◌, ◌^◌, ℕ, List, IsTrue, bit_and, nat_lt};
ghost use Rattle.std.specs.Prelude.{slice_index};
ghost use Rattle.scf_facts.specs.Bits.{HasBits};
ghost use Rattle.scf_insn.specs.Words.{IsWords};
ghost use Rattle.scf_compare.specs.Masked.{IsMaskOf};
ghost use Rattle.scf_compare.specs.internal.BitSlices.{IsBitSlice, IsMaskedSlice, IsWhole, bit_slice_value};
ghost use Rattle.scf_compare.specs.internal.AffineTerms.{is_within};
ghost use Rattle.scf_compare.specs.internal.Values.{IsValue, Abstracts, IsTestDecision, Decides, IsPlainDecision};
ghost use Rattle.scf_compare.specs.internal.Values.{IsComputedNumber};

use crate::computed::Computed;
use crate::known_bits::{and_bits, left_bits, right_bits};
use crate::sources::{OpenTest, Sources};
use crate::value::{Decision, Value};
use scf_facts::{Atom, Bits, is_high_mask};

/// `(word & mask) >> right << left`, of the word with index `word`.
#[derive(Clone, Copy, PartialEq, Eq)]
pub(crate) struct BitSlice {
    pub(crate) word: u8,
    pub(crate) mask: u32,
    pub(crate) right: u32,
    pub(crate) left: u32,
}

impl BitSlice {
    /// The whole word.
    #[tactic(auto, using(crate::proofs::BitSlices::whole_laws))]
    pub(crate) fn of_word(word: u8) -> BitSlice
        requires { word < 16 }
        ensures bit_slice { IsBitSlice result }
        ensures whole { IsWhole result }
        ensures word { result.word ≡ word }
        ensures number { (words : List ℕ) → IsWords words → slice_index words word ≡ bit_slice_value result words }
    {
        BitSlice {
            word,
            mask: u32::MAX,
            right: 0,
            left: 0,
        }
    }

    /// Whether this is the whole word.
    pub(crate) fn is_whole(self) -> bool
        ensures { IsTrue result ↔ IsWhole self }
    {
        self.mask == u32::MAX && self.right == 0 && self.left == 0
    }

    /// The known bits of the slice, given those of its word, and the bits of the word on which it depends.
    pub(crate) fn in_bits(self, word: Bits) -> Computed
        requires { IsBitSlice self }
        ensures { (words : List ℕ) → HasBits word (slice_index words self.word)
            → IsComputedNumber result (bit_slice_value self words) }
    {
        let masked = and_bits(word, Computed::constant(self.mask).bits);
        let bits = left_bits(right_bits(masked, self.right), self.left);
        Computed {
            bits,
            sources: Sources::of(self.word, self.mask, self.right, self.left),
        }
    }

    /// `self & v`. The shifts of `self` may lose bits of its mask; those of the result don't.
    #[tactic(auto, using(crate::proofs::BitSlices::and_laws))]
    pub(crate) fn and(self, v: u32) -> BitSlice
        requires word { self.word < 16 }
        requires right { self.right < 32 }
        requires left { self.left < 32 }
        ensures bit_slice { IsBitSlice result }
        ensures number { (words : List ℕ) → bit_and (bit_slice_value self words) v ≡ bit_slice_value result words }
        ensures mask { IsWhole self → result.mask ≡ v }
        ensures masked { (masks : ℕ) → IsMaskedSlice masks self → IsMaskOf masks v → IsMaskedSlice masks result }
    {
        BitSlice {
            mask: self.mask & (v >> self.left << self.right),
            ..self
        }
    }

    /// `self >> count`.
    #[tactic(auto, using(crate::proofs::BitSlices::right_shift))]
    pub(crate) fn shifted_right(self, count: u32) -> Value
        requires bit_slice { IsBitSlice self }
        requires count { count < 32 }
        ensures value { IsValue result }
        ensures stands { (words : List ℕ) → Abstracts result words (bit_slice_value self words / 2 ^ count) }
    {
        self.with_shifts(
            self.right + count.saturating_sub(self.left),
            self.left.saturating_sub(count),
        )
    }

    /// `self << count`.
    #[tactic(auto, using(crate::proofs::BitSlices::scaled))]
    pub(crate) fn shifted_left(self, count: u32) -> Value
        requires bit_slice { IsBitSlice self }
        requires count { count < 32 }
        ensures value { IsValue result }
        ensures stands { (words : List ℕ) → Abstracts result words (bit_slice_value self words * 2 ^ count % 2 ^ 32) }
    {
        self.with_shifts(self.right, self.left + count)
    }

    /// The same bits of the word with other shifts, modulo 2^32: 0 if none of them remains.
    #[tactic(auto, using(crate::proofs::BitSlices::shift_laws))]
    fn with_shifts(self, right: u32, left: u32) -> Value
        requires { self.word < 16 }
        ensures value { IsValue result }
        ensures stands { (words : List ℕ) → Abstracts result words
            (bit_and (slice_index words self.word) self.mask / 2 ^ right * 2 ^ left % 2 ^ 32) }
    {
        if right >= u32::BITS || left >= u32::BITS {
            return Value::Known(0);
        }
        let shifted = BitSlice {
            right,
            left,
            ..self
        };
        Value::Slice(shifted.and(u32::MAX))
    }

    /// The bits that the slice may have.
    #[tactic(auto, using(crate::proofs::BitSlices::bits_laws))]
    pub(crate) fn bits(self) -> u32
        requires { IsBitSlice self }
        ensures shifted { result ≡ self.mask / 2 ^ self.right * 2 ^ self.left }
        ensures all { (words : List ℕ) → bit_and (bit_slice_value self words) result ≡ bit_slice_value self words }
    {
        self.mask >> self.right << self.left
    }

    /// The test `self == v`, as an atom about its word.
    #[tactic(auto, using(crate::proofs::BitSlices::test_laws))]
    pub(crate) fn is(self, v: u32) -> Decision
        requires { IsBitSlice self }
        ensures asks { IsTestDecision result }
        ensures decides { (words : List ℕ) → Decides result words (bit_slice_value self words == v) }
        ensures plain { (masks : ℕ) → IsMaskOf masks self.mask → IsPlainDecision masks result }
    {
        let value = v >> self.left;
        if value > self.mask >> self.right || value << self.left != v {
            return Decision::Known(false);
        }
        let atom = Atom::Eq {
            word: self.word,
            mask: self.mask,
            value: value << self.right,
        };
        Decision::Asks(atom, true)
    }

    /// The test `self > v`, as an atom about its word, if the mask has all bits of the word from one on.
    pub(crate) fn is_above(self, v: u32) -> Decision
        requires { IsBitSlice self }
        ensures asks { IsTestDecision result }
        ensures decides { (words : List ℕ) → IsWords words
            → Decides result words (nat_lt v (bit_slice_value self words)) }
        ensures plain { (masks : ℕ) → IsWhole self → IsPlainDecision masks result }
    {
        let value = v >> self.left;
        if value > self.mask >> self.right {
            return Decision::Known(false);
        }
        if !is_high_mask(self.mask) {
            return Decision::Open(OpenTest::NONE);
        }
        let atom = Atom::Gt {
            word: self.word,
            value: (value << self.right & self.mask) + !self.mask,
        };
        Decision::Asks(atom, true)
    }

    /// The least count of units `1 << left` that come to `low`: the slice is a multiple of the unit.
    #[tactic(auto, using(crate::proofs::BitSlices::unit_laws))]
    fn first_unit(self, low: u32) -> u32
        requires { self.left < 32 }
        ensures { (z : ℕ) → (low ≤ z * 2 ^ self.left) ↔ (result ≤ z) }
    {
        if low == 0 {
            return 0;
        }
        (low - 1 >> self.left) + 1
    }

    /// The test `low <= self <= high`, as an atom about its word, if at most one value of the slice lies in the range,
    /// none lies beyond one of its ends, or this is the whole word.
    #[tactic(auto, using(crate::proofs::AffineTerms::slice_laws))]
    pub(crate) fn is_within(self, low: u32, high: u32) -> Decision
        requires bit_slice { IsBitSlice self }
        requires some { low ≤ high }
        ensures asks { IsTestDecision result }
        ensures decides { (words : List ℕ) → IsWords words
            → Decides result words (is_within low high (bit_slice_value self words)) }
    {
        let most = self.mask >> self.right;
        let first = self.first_unit(low);
        let last = (high >> self.left).min(most);
        if first > last {
            return Decision::Known(false);
        }
        if first == last {
            return self.is(first << self.left);
        }
        if low == 0 {
            return self.is_above(high).negated();
        }
        if last == most {
            return self.is_above(low - 1);
        }
        if self.is_whole() {
            let atom = Atom::In {
                word: self.word,
                low,
                high,
            };
            return Decision::Asks(atom, true);
        }
        Decision::Open(OpenTest::NONE)
    }
}
