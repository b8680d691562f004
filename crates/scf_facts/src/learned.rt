//! Learned answers of atoms.

ghost use Rattle.std.specs.Prelude.{◌≡◌, ◌<◌, ◌↔◌, ℕ, List, IsTrue, IfSome, true, false, slice_index};
ghost use Rattle.scf_insn.specs.Words.{IsWords};
ghost use Rattle.scf_facts.specs.Atoms.{atom_answer, word_of};

use crate::atom::{Atom, Tell};

/// An atom with its answer.
#[derive(Clone, Copy)]
pub(crate) struct Learned {
    pub(crate) atom: Atom,
    pub(crate) holds: bool,
    ghost about_word: { word_of atom < 16 },
}

impl Learned {
    /// The word that this fixes, and its only value.
    pub(crate) fn fixes(&self) -> Option<(u8, u32)>
        ensures index { IfSome result (λ fixed. fixed.0 < 16) }
        ensures value { IfSome result (λ fixed. (words : List ℕ) → IsWords words
            → atom_answer self.now.atom words ≡ self.now.holds → slice_index words fixed.0 ≡ fixed.1) }
    {
        match self.atom {
            Atom::Eq {
                word,
                mask: u32::MAX,
                value,
            } if self.holds => Some((word, value)),
            _ => None,
        }
    }

    /// What this alone shows of another atom.
    pub(crate) fn tells(&self, atom: Atom) -> Tell
        ensures always { result ≡ Tell.Always
            → (words : List ℕ) → IsWords words
            → atom_answer self.now.atom words ≡ self.now.holds
            → atom_answer atom words ≡ true }
        ensures never { result ≡ Tell.Never
            → (words : List ℕ) → IsWords words
            → atom_answer self.now.atom words ≡ self.now.holds
            → atom_answer atom words ≡ false }
    {
        if self.atom == atom {
            return Tell::of(self.holds);
        }
        match self.fixes() {
            Some((word, value)) if word == atom.word() => Tell::of(atom.answer(value)),
            _ => Tell::Maybe,
        }
    }

    /// Whether the atom has this answer for the words.
    pub(crate) fn agrees(&self, words: &[u32; 16]) -> bool
        ensures { IsTrue result ↔ (atom_answer self.now.atom words.now ≡ self.now.holds) }
    {
        self.atom.answer(words[self.atom.word() as usize]) == self.holds
    }
}
