//! What is known at a moment.

ghost use Rattle.std.specs.Prelude.{◌≡◌, ◌<◌, ◌↔◌, ℕ, List, IsTrue, IfOk, OnOk, OnErr, IfSome, IsSome};
ghost use Rattle.std.specs.Prelude.{length, slice_get, slice_index, slice_set, true, false, bit_and};
ghost use Rattle.scf_insn.specs.Words.{IsWords};
ghost use Rattle.scf_facts.specs.Atoms.{atom_answer, word_of};
ghost use Rattle.scf_facts.specs.Bits.{HasBits};
ghost use Rattle.scf_facts.specs.Exactness.{KeepsExact};
ghost use Rattle.scf_facts.specs.Masks.{AreFew, KeepsAmong, RefuteAmong};
ghost use Rattle.scf_facts.specs.WordSets.{AllowsWords};
ghost use Rattle.scf_facts.specs.internal.WordSets.{are_exact_sets};

use crate::atom::{Atom, Tell};
use crate::bits::Bits;
use crate::shared_set::SharedSet;
use crate::word_facts::WordFacts;
use crate::word_set::WordSet;
use scf_insn::Memory;
use std::alloc::{AllocError, Global};
use std::marker::Model;
use std::rc::Rc;

/// What a store knows at a moment of each of the sixteen words of a call record.
///
/// Cloning it copies no set: to learn replaces a set, and changes none. Most tests ask the syscall number, so its set
/// is by itself, and to learn of it copies nothing of the others.
#[derive(Drop)]
pub struct Snapshot {
    number: SharedSet,
    others: Rc<Vec<SharedSet>>,
    ghost fifteen: { length others.value.items ≡ 15 },
}

impl Model for Snapshot {
    ghost use Rattle.std.specs.Prelude.{List, ◌∷◌};
    ghost use Rattle.scf_facts.specs.WordSets.{NumberFacts};

    ghost Value = { List NumberFacts };

    ghost view = { λ s. s.number ∷ s.others.value.items };
}

impl Clone for Snapshot {
    ghost is_clone = { λ s copy. copy ≡ s };

    fn clone(&self) -> Result<Snapshot, AllocError> {
        let number = self.number.clone()?;
        let others = self.others.clone()?;
        Ok(Snapshot { number, others })
    }
}

impl Snapshot {
    /// Nothing is known.
    pub(crate) fn new(alloc: Global) -> Result<Snapshot, Memory>
        ensures all { IfOk result (λ facts. (words : List ℕ) → AllowsWords facts words ↔ IsWords words) }
        ensures exact { IfOk result (λ facts. are_exact_sets facts ≡ true) }
        ensures among { IfOk result (λ facts. (masks : ℕ) → RefuteAmong masks facts) }
    {
        let number = SharedSet::new(alloc, WordSet::new(alloc)?)?;
        let others = Rc::new(alloc, Vec::from_elem(alloc, number.clone()?, 15)?)?;
        Ok(Snapshot { number, others })
    }

    /// The values that the word with this index, 0 to 15, may have.
    pub fn word(&self, index: u8) -> &WordSet
        requires { index < 16 }
        ensures sixteen { length self.now ≡ 16 }
        ensures word { slice_get self.now index ≡ Some result.now }
    {
        match index {
            0 => self.number.as_set(),
            _ => self.others[index as usize - 1].as_set(),
        }
    }

    /// Puts another set in the place of a word's. If allocation fails, nothing changes.
    fn replace(&mut self, word: u8, set: SharedSet) -> Result<(), AllocError>
        requires { word < 16 }
        ensures replaced { OnOk result (self.new ≡ slice_set self.old word set) }
        ensures refused { OnErr result (self.new ≡ self.old) }
    {
        match word {
            0 => self.number = set,
            _ => Rc::make_mut(&mut self.others)?[word as usize - 1] = set,
        }
        Ok(())
    }

    /// Keeps the allowed lists that give the atom this answer. If allocation fails, nothing changes.
    pub(crate) fn learn(&mut self, alloc: Global, atom: Atom, holds: bool) -> Result<(), Memory>
        requires word { word_of atom < 16 }
        ensures learned { OnOk result ((words : List ℕ) → AllowsWords self.new words
            ↔ (AllowsWords self.old words × (atom_answer atom words ≡ holds))) }
        ensures exact { OnOk result (KeepsExact atom holds
            → IsTrue (are_exact_sets self.old) → IsTrue (are_exact_sets self.new)) }
        ensures among { OnOk result ((masks : ℕ) → KeepsAmong masks atom holds
            → RefuteAmong masks self.old → RefuteAmong masks self.new) }
        ensures refused { OnErr result (self.new ≡ self.old) }
    {
        let word = atom.word();
        let set = self.word(word).learn(alloc, atom, holds)?;
        self.replace(word, SharedSet::new(alloc, set)?)?;
        Ok(())
    }

    /// The atom's answer for every allowed list, if it is known.
    pub(crate) fn tell(&self, atom: Atom) -> Tell
        requires word { word_of atom < 16 }
        ensures always { result ≡ Tell.Always
            → (words : List ℕ) → AllowsWords self.now words → atom_answer atom words ≡ true }
        ensures never { result ≡ Tell.Never
            → (words : List ℕ) → AllowsWords self.now words → atom_answer atom words ≡ false }
        ensures both { result ≡ Tell.Maybe → IsTrue (are_exact_sets self.now)
            → (some : List ℕ) → AllowsWords self.now some
            → ((words : List ℕ) × AllowsWords self.now words × (atom_answer atom words ≡ true))
            × ((words : List ℕ) × AllowsWords self.now words × (atom_answer atom words ≡ false)) }
    {
        self.word(atom.word()).tell(atom)
    }

    /// Bits that the word with this index has in every allowed list.
    #[tactic(auto, using(crate::proofs::StoreLaws::each_word))]
    pub(crate) fn known_bits(&self, word: u8) -> Bits
        requires word { word < 16 }
        ensures within { bit_and result.value result.mask ≡ result.value }
        ensures known { (words : List ℕ) → AllowsWords self.now words → HasBits result (slice_index words word) }
    {
        self.word(word).known_bits()
    }

    /// Whether some word is known to have no value.
    pub(crate) fn is_empty(&self) -> bool
        ensures empty { IsTrue result → (words : List ℕ) → AllowsWords self.now words → ⊥ }
        ensures seen { IsTrue (are_exact_sets self.now)
            → ((words : List ℕ) → AllowsWords self.now words → ⊥) → IsTrue result }
        ensures seen_among { (masks : ℕ) → AreFew masks → RefuteAmong masks self.now
            → ((words : List ℕ) → AllowsWords self.now words → ⊥) → IsTrue result }
    {
        for index in 0..16u8 {
            if self.word(index).is_empty() {
                return true;
            }
        }
        false
    }

    /// An allowed list, if one is found.
    pub(crate) fn pick(&self) -> Option<[u32; 16]>
        ensures allowed { IfSome result (AllowsWords self.now) }
        ensures found { IsTrue (are_exact_sets self.now)
            → (words : List ℕ) → AllowsWords self.now words → IsSome result }
        ensures found_among { (masks : ℕ) → AreFew masks → RefuteAmong masks self.now
            → (words : List ℕ) → AllowsWords self.now words → IsSome result }
    {
        let mut words = [0; 16];
        for index in 0..16u8 {
            words[index as usize] = self.word(index).pick()?;
        }
        Some(words)
    }

    /// The bits of a word that refuted masks have.
    pub(crate) fn refuted_bits(&self, word: u8) -> u32
        requires { word < 16 }
    {
        self.word(word).refuted_bits()
    }
}

/// A store that hands out what it knows.
pub trait Snapshots: WordFacts {
    /// What is known now: the snapshot allows the lists of words that the store allows.
    fn snapshot(&self) -> Result<Snapshot, Memory>
        ensures { IfOk result (λ snapshot. (words : List ℕ)
            → AllowsWords snapshot words ↔ Self.allows self.now (Self.level self.now) words) };
}
