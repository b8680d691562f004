//! A store that keeps a set of values for each word.

ghost use Rattle.std.specs.Prelude.{◌≡◌, ◌<◌, ℕ, List, length, slice_index_or, true, false};
ghost use Rattle.scf_facts.specs.Masks.{RefuteAmong};
ghost use Rattle.scf_facts.specs.WordSets.{AllowsWords};
ghost use Rattle.scf_facts.specs.internal.WordSets.{are_exact_sets};

use crate::atom::{Atom, Tell};
use crate::bits::Bits;
use crate::snapshot::{Snapshot, Snapshots};
use crate::word_facts::WordFacts;
use scf_insn::Memory;
use std::alloc::Global;

/// For each word its possible values, as sorted intervals, known bits and refuted bits under masks.
///
/// Everything learned becomes intervals or known bits, except an `Eq` that is false under a mask of several bits.
/// Without such an answer the store is exact. With one, `tell` still knows what was itself
/// learned, and an `Eq` under known bits. `known_bits` gives a word's known bits and those that the ends of its
/// intervals have in common. `pick` tries the least value, the ends of the intervals, the known value and that value
/// with one further bit; if all are refuted, it searches bit by bit until a value is found, there is none, or the tries
/// run out.
///
/// A mark saves what is known. Levels share a set that they know alike.
#[derive(Drop)]
pub struct WordSets {
    alloc: Global,
    known: Snapshot,
    saved: Vec<Snapshot>,
}

impl WordFacts for WordSets {
    ghost level = { λ facts. length facts.saved.items };

    ghost allows = { λ facts level. AllowsWords (slice_index_or facts.saved.items level facts.known) };

    ghost is_exact = { λ facts level. are_exact_sets (slice_index_or facts.saved.items level facts.known) };

    ghost refutes_among = { λ facts level masks.
        RefuteAmong masks (slice_index_or facts.saved.items level facts.known) };

    ghost starts_exact = { true };

    fn all(alloc: Global) -> Result<Self, Memory> {
        Ok(WordSets {
            alloc,
            known: Snapshot::new(alloc)?,
            saved: Vec::new(alloc),
        })
    }

    #[tactic(auto, using(crate::proofs::Levels::now))]
    fn learn(&mut self, atom: Atom, holds: bool) -> Result<(), Memory> {
        self.known.learn(self.alloc, atom, holds)
    }

    fn mark(&mut self) -> Result<(), Memory> {
        self.saved.push(self.known.clone()?)?;
        Ok(())
    }

    fn undo(&mut self) {
        if let Some(known) = self.saved.pop() {
            self.known = known;
        }
    }

    fn open_marks(&self) -> usize {
        self.saved.len()
    }

    #[tactic(auto, using(crate::proofs::Levels::now))]
    fn tell(&self, atom: Atom) -> Tell {
        self.known.tell(atom)
    }

    #[tactic(auto, using(crate::proofs::Levels::now))]
    fn known_bits(&self, word: u8) -> Bits {
        self.known.known_bits(word)
    }

    fn refuted_bits(&self, word: u8) -> u32 {
        self.known.refuted_bits(word)
    }

    #[tactic(auto, using(crate::proofs::Levels::now))]
    fn is_empty(&self) -> bool {
        self.known.is_empty()
    }

    #[tactic(auto, using(crate::proofs::Levels::now))]
    fn pick(&self) -> Option<[u32; 16]> {
        self.known.pick()
    }
}

impl Snapshots for WordSets {
    #[tactic(auto, using(crate::proofs::Levels::now))]
    fn snapshot(&self) -> Result<Snapshot, Memory> {
        Ok(self.known.clone()?)
    }
}
