//! Regions: the records that come to one leaf of the tree of two sides.

ghost use Rattle.std.specs.Prelude.{◌≡◌, ℕ, List, IfNone, IfOk, IfSome, IsTrue, true};
ghost use Rattle.scf_facts.specs.Masks.{AreFew};
ghost use Rattle.scf_compare.specs.internal.Regions.{IsRegionOf};

use crate::comparison::PairLeaf;
use scf_facts::{Snapshot, Snapshots};
use scf_insn::{CallRecord, Memory};

/// Records that come to one leaf of the tree of two sides.
#[derive(Drop)]
pub struct Region {
    /// What is known of their words.
    pub words: Snapshot,
    /// One record with such words, if one is found.
    pub example: Option<CallRecord>,
    /// What both sides answer them.
    pub leaf: PairLeaf,
    /// Whether every record with such words comes to the leaf, and there is one. Otherwise a test on the path wasn't
    /// decided by words: such a record may come to another leaf.
    pub is_exact: bool,
}

/// The region of a leaf, for the words that a store allows there: none if the store knows that it allows none.
/// `is_whole` says that all of these words come to the leaf.
pub(crate) fn region_of<F: Snapshots>(
    facts: &F,
    leaf: PairLeaf,
    is_whole: bool,
) -> Result<Option<Region>, Memory>
    ensures some { IfOk result (λ added. IfSome added (
        IsRegionOf (F.allows facts.now (F.level facts.now)) leaf is_whole)) }
    ensures none { IfOk result (λ added. IfNone added (
        (words : List ℕ) → F.allows facts.now (F.level facts.now) words → ⊥)) }
    ensures exact { IfOk result (λ added. IfSome added (λ region.
        (masks : ℕ) → AreFew masks → F.refutes_among facts.now (F.level facts.now) masks
        → IsTrue is_whole → IsTrue region.is_exact)) }
{
    let example = match facts.pick() {
        Some(words) => Some(CallRecord::from_words(&words)),
        None if facts.is_empty() => return Ok(None),
        None => None,
    };
    let words = facts.snapshot()?;
    let is_exact = is_whole && example.is_some();
    Ok(Some(Region {
        words,
        example,
        leaf,
        is_exact,
    }))
}
