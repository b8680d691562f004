//! A store that keeps what it learned as a list.

ghost use Rattle.std.specs.Prelude.{◌≡◌, ◌↔◌, ℕ, List, IfOk, IsOk, IsTrue, false, length, slice_index_or};
ghost use Rattle.scf_insn.specs.Words.{IsWords};
ghost use Rattle.scf_facts.specs.internal.Learned.{AllHold, AllowsByLearned};

use crate::atom::{Atom, Tell};
use crate::bits::Bits;
use crate::learned::Learned;
use crate::word_facts::WordFacts;
use scf_insn::Memory;
use std::alloc::Global;

/// The learned atoms with their answers, in order, and that list as it was at each open mark.
///
/// `tell` knows an atom that was itself learned, an `Eq` with mask 0, and any atom on a word whose value a true `Eq`
/// under a full mask has fixed. `known_bits` gives the bits of such a word, and none of another. `pick` gives 0 for
/// each word that isn't fixed, if that agrees with everything learned.
#[derive(Drop)]
pub struct AtomList {
    learned: Vec<Learned>,
    saved: Vec<Vec<Learned>>,
}

impl WordFacts for AtomList {
    ghost level = { λ facts. length facts.saved.items };

    ghost allows = { λ facts level. AllowsByLearned (slice_index_or facts.saved.items level facts.learned).items };

    ghost is_exact = { λ _ _. false };

    ghost refutes_among = { λ _ _ _. ⊥ };

    ghost starts_exact = { false };

    fn all(alloc: Global) -> Result<Self, Memory>
        ensures unmarked { IfOk result (λ facts. ⟦<AtomList as WordFacts>⟧.level facts ≡ 0) }
        ensures law_all { IfOk result (λ facts. (words : List ℕ)
            → ⟦<AtomList as WordFacts>⟧.allows facts 0 words ↔ IsWords words) }
        // No memory is wanted for nothing learned.
        ensures never_refused { IsOk result }
    {
        Ok(AtomList {
            learned: Vec::new(alloc),
            saved: Vec::new(alloc),
        })
    }

    fn learn(&mut self, atom: Atom, holds: bool) -> Result<(), Memory> {
        self.learned.push(Learned { atom, holds })?;
        Ok(())
    }

    fn mark(&mut self) -> Result<(), Memory> {
        let learned = self.learned.clone()?;
        self.saved.push(learned)?;
        Ok(())
    }

    fn undo(&mut self) {
        if let Some(learned) = self.saved.pop() {
            self.learned = learned;
        }
    }

    fn open_marks(&self) -> usize {
        self.saved.len()
    }

    #[tactic(auto, using(crate::proofs::AtomLaws::holds))]
    fn tell(&self, atom: Atom) -> Tell {
        if let Atom::Eq { mask: 0, value, .. } = atom {
            return Tell::of(value == 0);
        }
        for known in &self.learned {
            match known.tells(atom) {
                Tell::Maybe => {}
                answer => return answer,
            }
        }
        Tell::Maybe
    }

    #[tactic(auto, using(crate::proofs::AtomLaws::holds))]
    fn known_bits(&self, word: u8) -> Bits {
        for known in &self.learned {
            match known.fixes() {
                Some((fixed, value)) if fixed == word => return Bits::of(value, u32::MAX),
                _ => {}
            }
        }
        Bits::NONE
    }

    fn refuted_bits(&self, word: u8) -> u32 {
        let _ = word;
        0
    }

    fn is_empty(&self) -> bool {
        false
    }

    #[tactic(auto, using(crate::proofs::Levels::now))]
    fn pick(&self) -> Option<[u32; 16]> {
        let mut words = [0; 16];
        for known in &self.learned {
            if let Some((word, value)) = known.fixes() {
                words[word as usize] = value;
            }
        }
        all_agree(&self.learned, &words).then_some(words)
    }
}

/// Whether the words give each learned answer.
fn all_agree(learned: &[Learned], words: &[u32; 16]) -> bool
    ensures { IsTrue result ↔ AllHold learned.now words.now }
{
    learned.iter().all(|known| known.agrees(words))
}
