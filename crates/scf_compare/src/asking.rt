//! Questions about whole words, and about the syscall number.

ghost use Rattle.std.specs.Prelude.{◌≡◌, ◌-◌, ◌<◌, ◌^◌, ℕ, List, IfSome, slice_index};
ghost use Rattle.scf_insn.specs.Words.{IsWords};

use scf_facts::{Atom, WordFacts};

/// The atom `word == value`.
pub(crate) fn word_is(word: u8, value: u32) -> Atom
    ensures { result ≡ Atom.Eq word (2 ^ 32 - 1) value }
{
    Atom::Eq {
        word,
        mask: u32::MAX,
        value,
    }
}

/// The atom `nr >= first`.
pub(crate) fn number_from(first: u32) -> Atom
    ensures { result ≡ Atom.Ge 0 first }
{
    Atom::Ge {
        word: 0,
        value: first,
    }
}

/// The word with this index, if the store knows all of its bits.
#[tactic(auto, using(crate::proofs::Bits::whole_words))]
pub(crate) fn known_word<F: WordFacts>(facts: &F, word: u8) -> Option<u32>
    requires { word < 16 }
    ensures { IfSome result (λ number. (words : List ℕ) → IsWords words
        → F.allows facts.now (F.level facts.now) words → slice_index words word ≡ number) }
{
    let bits = facts.known_bits(word);
    (bits.mask == u32::MAX).then_some(bits.value)
}
