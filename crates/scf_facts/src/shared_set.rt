//! A word's set that several levels of a store share.

ghost use Rattle.std.specs.Prelude.{◌≡◌, IfOk};

use crate::word_set::WordSet;
use scf_insn::Memory;
use std::alloc::{AllocError, Global};
use std::marker::Model;
use std::rc::Rc;

/// A word's set that several levels of a store share. Cloning it copies no set.
#[derive(Drop)]
pub(crate) struct SharedSet {
    set: Rc<WordSet>,
}

impl Model for SharedSet {
    ghost use Rattle.scf_facts.specs.WordSets.{NumberFacts};

    ghost Value = { NumberFacts };

    ghost view = { λ s. s.set.value };
}

impl SharedSet {
    pub(crate) fn new(alloc: Global, set: WordSet) -> Result<SharedSet, Memory>
        ensures { IfOk result (λ shared. shared ≡ set) }
    {
        let set = Rc::new(alloc, set)?;
        Ok(SharedSet { set })
    }

    pub(crate) fn as_set(&self) -> &WordSet
        ensures { result.now ≡ self.now }
    {
        &self.set
    }
}

impl Clone for SharedSet {
    ghost is_clone = { λ s copy. copy ≡ s };

    fn clone(&self) -> Result<SharedSet, AllocError> {
        let set = self.set.clone()?;
        Ok(SharedSet { set })
    }
}
