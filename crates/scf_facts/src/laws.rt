//! Laws of stores. The function does nothing: its contract is the law.

ghost use Rattle.std.specs.Prelude.{◌≡◌, true};

use crate::word_facts::WordFacts;
use crate::word_sets::WordSets;

/// `WordSets` is exact before anything is learned, so callers needn't ask.
pub fn word_sets_start_exact()
    ensures { ⟦<WordSets as WordFacts>⟧.starts_exact ≡ true }
{}
