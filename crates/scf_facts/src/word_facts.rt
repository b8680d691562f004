//! The laws of a store of facts.

ghost use Rattle.std.specs.Prelude.{◌≡◌, ◌+◌, ◌<◌, ◌≤◌, ◌↔◌, ℕ, List, Bool, IsTrue, true, false};
ghost use Rattle.std.specs.Prelude.{IsSome, IfSome, IfOk, OnOk, OnErr, bit_and, slice_index};
ghost use Rattle.scf_insn.specs.Words.{IsWords};
ghost use Rattle.scf_facts.specs.Atoms.{atom_answer, word_of};
ghost use Rattle.scf_facts.specs.Bits.{HasBits};
ghost use Rattle.scf_facts.specs.Exactness.{KeepsExact};
ghost use Rattle.scf_facts.specs.Levels.{IsSameLevel};
ghost use Rattle.scf_facts.specs.Masks.{AreFew, KeepsAmong};

use crate::atom::{Atom, Tell};
use crate::bits::Bits;
use scf_insn::Memory;
use std::alloc::Global;

/// What is known of the sixteen words of a call record: the set of lists of sixteen words that are still allowed.
///
/// A mark saves what is known, and `undo` returns to it. A level is the index of an open mark, 0 being the oldest; the
/// count of open marks is the level of what is known now.
///
/// A store may be exact (complete) at a level. Then `is_empty` is true whenever no list is allowed, `pick` finds a list
/// whenever one is, and `tell` knows every answer on which all allowed lists agree. The first two are so
/// too while it refutes under few bits alone.
pub trait WordFacts: Sized + Drop {
    /// The count of open marks: the level of what is known now.
    ghost level: { Self → ℕ };

    /// The lists of words that are allowed at a level.
    ghost allows: { Self → ℕ → List ℕ → Type 0 };

    /// Whether the facts are exact at a level.
    ghost is_exact: { Self → ℕ → Bool };

    /// What is refuted at a level beside ranges and single bits is refuted under bits of this mask alone.
    ghost refutes_among: { Self → ℕ → ℕ → Type 0 };

    /// Whether facts that allow every list are exact.
    ghost starts_exact: { Bool };

    /// A store that allows every list of sixteen words, with no open mark.
    fn all(alloc: Global) -> Result<Self, Memory>
        ensures unmarked { IfOk result (λ facts. level facts ≡ 0) }
        ensures law_all { IfOk result (λ facts. (words : List ℕ) → allows facts 0 words ↔ IsWords words) }
        ensures exact { IfOk result (λ facts. is_exact facts 0 ≡ starts_exact) }
        ensures among { IfOk result (λ facts. IsTrue starts_exact → (masks : ℕ) → refutes_among facts 0 masks) };

    /// Keeps the allowed lists that give the atom this answer. The marks don't change. If allocation fails, nothing
    /// changes.
    fn learn(&mut self, atom: Atom, holds: bool) -> Result<(), Memory>
        requires word { word_of atom < 16 }
        ensures marks { level self.new ≡ level self.old }
        ensures at_marks { (index : ℕ) → index < level self.old
            → IsSameLevel allows is_exact refutes_among self.old index self.new index }
        ensures law_learn { OnOk result ((words : List ℕ) → allows self.new (level self.old) words
            ↔ (allows self.old (level self.old) words × (atom_answer atom words ≡ holds))) }
        ensures exact { OnOk result (KeepsExact atom holds
            → IsTrue (is_exact self.old (level self.old)) → IsTrue (is_exact self.new (level self.old))) }
        ensures among { OnOk result ((masks : ℕ) → KeepsAmong masks atom holds
            → refutes_among self.old (level self.old) masks → refutes_among self.new (level self.old) masks) }
        ensures refused { OnErr result (
            IsSameLevel allows is_exact refutes_among self.old (level self.old) self.new (level self.old)) };

    /// Opens a mark at what is known now. If allocation fails, none is opened.
    fn mark(&mut self) -> Result<(), Memory>
        ensures opened { OnOk result (level self.new ≡ level self.old + 1) }
        ensures known { OnOk result (
            IsSameLevel allows is_exact refutes_among self.old (level self.old) self.new (level self.old + 1)) }
        ensures refused { OnErr result (level self.new ≡ level self.old) }
        ensures at_marks { (index : ℕ) → index ≤ level self.old
            → IsSameLevel allows is_exact refutes_among self.old index self.new index };

    /// Returns to what was known at the newest open mark, and closes it. Older marks stay. Never allocates.
    fn undo(&mut self)
        requires marked { 0 < level self.old }
        ensures closed { level self.new + 1 ≡ level self.old }
        ensures law_undo { (index : ℕ) → index < level self.old
            → IsSameLevel allows is_exact refutes_among self.old index self.new index };

    /// The count of open marks.
    fn open_marks(&self) -> usize
        ensures { result ≡ level self.now };

    /// The atom's answer for every allowed list, if it is known.
    fn tell(&self, atom: Atom) -> Tell
        requires word { word_of atom < 16 }
        ensures law_always { result ≡ Tell.Always
            → (words : List ℕ) → allows self.now (level self.now) words
            → atom_answer atom words ≡ true }
        ensures law_never { result ≡ Tell.Never
            → (words : List ℕ) → allows self.now (level self.now) words
            → atom_answer atom words ≡ false }
        ensures told_always { IsTrue (is_exact self.now (level self.now))
            → (some : List ℕ) → allows self.now (level self.now) some
            → ((words : List ℕ) → allows self.now (level self.now) words → atom_answer atom words ≡ true)
            → result ≡ Tell.Always }
        ensures told_never { IsTrue (is_exact self.now (level self.now))
            → (some : List ℕ) → allows self.now (level self.now) some
            → ((words : List ℕ) → allows self.now (level self.now) words → atom_answer atom words ≡ false)
            → result ≡ Tell.Never };

    /// Bits that the word with this index has in every allowed list.
    fn known_bits(&self, word: u8) -> Bits
        requires word { word < 16 }
        ensures within { bit_and result.value result.mask ≡ result.value }
        ensures known { (words : List ℕ) → allows self.now (level self.now) words
            → HasBits result (slice_index words word) };

    /// The bits of this word that refuted masks have. They only say which bits to split on, so no law speaks of them.
    fn refuted_bits(&self, word: u8) -> u32
        requires word { word < 16 };

    /// Whether no list is known to be allowed: true only if none is.
    fn is_empty(&self) -> bool
        ensures law_empty { IsTrue result → (words : List ℕ) → allows self.now (level self.now) words → ⊥ }
        ensures seen { IsTrue (is_exact self.now (level self.now))
            → ((words : List ℕ) → allows self.now (level self.now) words → ⊥) → IsTrue result }
        ensures seen_among { (masks : ℕ) → AreFew masks → refutes_among self.now (level self.now) masks
            → ((words : List ℕ) → allows self.now (level self.now) words → ⊥) → IsTrue result };

    /// An allowed list, if one is found.
    fn pick(&self) -> Option<[u32; 16]>
        ensures law_pick { IfSome result (λ words. allows self.now (level self.now) words) }
        ensures found { IsTrue (is_exact self.now (level self.now))
            → (words : List ℕ) → allows self.now (level self.now) words → IsSome result }
        ensures found_among { (masks : ℕ) → AreFew masks → refutes_among self.now (level self.now) masks
            → (words : List ℕ) → allows self.now (level self.now) words → IsSome result };
}
