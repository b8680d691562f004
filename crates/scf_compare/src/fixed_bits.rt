//! The bits of the sixteen words of a record that splits have fixed.

ghost use Rattle.std.specs.Prelude.{◌≡◌, ◌≢◌, ◌-◌, ◌<◌, ◌≤◌, ◌^◌, ℕ, List, IfSome, IfNone, length, slice_index};
ghost use Rattle.std.specs.Int.{IsPowerOfTwo};
ghost use Rattle.scf_insn.specs.Words.{IsWords};
ghost use Rattle.scf_facts.specs.Atoms.{atom_answer};
ghost use Rattle.scf_facts.specs.Bits.{HasBits};
ghost use Rattle.scf_compare.specs.internal.FixedBits.{AreWhole, IsOpenBit};
ghost use Rattle.scf_compare.specs.Splits.{HaveBits, bit_is_set, bits_at, open_bits};

use crate::known_bits::told_bits;
use crate::sources::{OpenTest, Sources};
use scf_facts::{Atom, Bits, WordFacts};

/// A bit of one of the sixteen words: its mask, which has no other bit.
#[derive(Clone, Copy)]
pub(crate) struct WordBit {
    pub(crate) word: u8,
    pub(crate) mask: u32,
}

/// For each of the sixteen words the bits that are fixed, with their values.
#[derive(Clone, Copy)]
pub(crate) struct FixedBits {
    pub(crate) words: [Bits; 16],
}

impl WordBit {
    /// Whether the word has the bit.
    pub(crate) fn is_set(self) -> Atom
        ensures { result ≡ bit_is_set self.word self.mask }
    {
        Atom::Eq {
            word: self.word,
            mask: self.mask,
            value: self.mask,
        }
    }

    /// The bit with its value.
    #[tactic(auto, using(crate::proofs::BitSets::lacks_bit))]
    pub(crate) fn as_bits(self, is_set: bool) -> Bits
        requires { IsPowerOfTwo self.mask }
        ensures mask { result.mask ≡ self.mask }
        ensures stands { (words : List ℕ) → atom_answer (bit_is_set self.word self.mask) words ≡ is_set
            → HasBits result (slice_index words self.word) }
    {
        Bits {
            mask: self.mask,
            value: if is_set { self.mask } else { 0 },
        }
    }
}

impl FixedBits {
    /// No bit is fixed.
    pub(crate) fn none() -> FixedBits
        ensures { (words : List ℕ) → HaveBits result.words words }
    {
        FixedBits {
            words: [Bits::NONE; 16],
        }
    }

    /// The values of the fixed bits, and 0 for the others.
    pub(crate) fn values(&self) -> [u32; 16]
        ensures { (words : List ℕ) → IsWords words → AreWhole self.now.words → HaveBits self.now.words words
            → result ≡ words }
    {
        let mut values = [0; 16];
        for (index, bits) in self.words.iter().enumerate() {
            values[index] = bits.value;
        }
        values
    }

    /// Fixes a bit that isn't fixed yet.
    #[tactic(auto, using(crate::proofs::BitSets::fixings))]
    pub(crate) fn fix(&mut self, bit: WordBit, is_set: bool)
        requires { IsOpenBit self.old.words bit }
        ensures have { (words : List ℕ) → HaveBits self.old.words words
            → atom_answer (bit_is_set bit.word bit.mask) words ≡ is_set → HaveBits self.new.words words }
        ensures less { open_bits self.new.words < open_bits self.old.words }
        ensures others { (index : ℕ) → index ≢ bit.word
            → bits_at self.new.words index ≡ bits_at self.old.words index }
    {
        let word = bit.word as usize;
        self.words[word] = self.words[word].union(bit.as_bits(is_set));
    }

    /// Fixes the bits of a word that the store knows.
    #[tactic(auto, using(crate::proofs::BitSets::fixings))]
    fn fix_known<F: WordFacts>(&mut self, facts: &F, word: u8)
        requires { word < 16 }
        ensures have { (words : List ℕ) → F.allows facts.now (F.level facts.now) words
            → HaveBits self.old.words words → HaveBits self.new.words words }
        ensures less { open_bits self.new.words ≤ open_bits self.old.words }
        ensures others { (index : ℕ) → index ≢ word
            → bits_at self.new.words index ≡ bits_at self.old.words index }
    {
        let known = told_bits(facts, word);
        let word = word as usize;
        self.words[word] = self.words[word].union(known);
    }

    /// The lowest bit of a word that isn't fixed.
    fn lowest_open(&self, word: u8) -> Option<WordBit>
        requires { word < 16 }
        ensures open { IfSome result (IsOpenBit self.now.words) }
        ensures none { IfNone result ((bits_at self.now.words word).mask ≡ 2 ^ 32 - 1) }
    {
        let fixed = self.words[word as usize].mask;
        if fixed == u32::MAX {
            return None;
        }
        let mask = 1 << fixed.trailing_ones();
        Some(WordBit { word, mask })
    }

    /// The next bit to split on, if any isn't fixed: of those on which an open test depends, if there is one, then of
    /// those of refuted masks, whose values a store may leave open, and then of all. Bits that a store knows are fixed
    /// on the way.
    pub(crate) fn next_bit<F: WordFacts>(
        &mut self,
        facts: &F,
        test: Option<OpenTest>,
    ) -> Option<WordBit>
        ensures have { (words : List ℕ) → F.allows facts.now (F.level facts.now) words
            → HaveBits self.old.words words → HaveBits self.new.words words }
        ensures less { open_bits self.new.words ≤ open_bits self.old.words }
        ensures open { IfSome result (IsOpenBit self.new.words) }
        ensures none { IfNone result (AreWhole self.new.words) }
    {
        if let Some(test) = test {
            for word in 0..16 {
                if test.sources.bits_of(word) != 0 {
                    self.fix_known(facts, word);
                }
            }
            if let Some(bit) = self.open_bit_of(test) {
                return Some(bit);
            }
        }
        for word in 0..16 {
            let refuted = facts.refuted_bits(word);
            if refuted != 0 {
                self.fix_known(facts, word);
                let masks = OpenTest::of(Sources::of(word, refuted, 0, 0), false);
                if let Some(bit) = self.open_bit_of(masks) {
                    return Some(bit);
                }
            }
        }
        for word in 0..16 {
            self.fix_known(facts, word);
            if let Some(bit) = self.lowest_open(word) {
                return Some(bit);
            }
        }
        None
    }

    /// The next bit on which an open test depends, if any isn't fixed: for an order the highest one, since the leading
    /// bits decide most orders, and else the lowest one, since sums and products are known from the low end.
    #[tactic(auto, using(crate::proofs::BitSets::power_at))]
    fn open_bit_of(&self, test: OpenTest) -> Option<WordBit>
        ensures { IfSome result (IsOpenBit self.now.words) }
    {
        for position in 0..u32::BITS {
            let index = if test.is_order {
                31 - position
            } else {
                position
            };
            let mask = 1 << index;
            for word in 0..16 {
                let is_fixed = self.words[word as usize].mask & mask != 0;
                if !is_fixed && test.sources.bits_of(word) & mask != 0 {
                    return Some(WordBit { word, mask });
                }
            }
        }
        None
    }
}
