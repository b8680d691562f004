//! What two sides answer to the records of a scope, as regions of records.

ghost use Rattle.std.specs.Prelude.{◌≡◌, ◌*◌, ◌<◌, ◌↔◌, ℕ, List, All, IsTrue, IfOk, IfSome, IfNone};
ghost use Rattle.std.specs.Prelude.{OnOk, length};
ghost use Rattle.scf_profile.specs.Scope.{IsInScope};
ghost use Rattle.scf_compare.specs.Regions.{AreRegions, IsDecidedRegion};
ghost use Rattle.scf_facts.specs.Masks.{AreFew};
ghost use Rattle.scf_compare.specs.Leaves.{KnowsBoth};
ghost use Rattle.scf_compare.specs.Sides.{IsMaskedSide, IsPlainSide, behavior_of, effort_of_sides};
ghost use Rattle.scf_compare.specs.internal.Leaves.{AreWordsIn};
ghost use Rattle.scf_compare.specs.internal.Frontier.{IsFrontier, IsWhole, first_open_after, first_open_left};
ghost use Rattle.scf_compare.specs.internal.Regions.{AreRegionsSoFar, IsAdded, IsRegionStep};

use crate::comparison::{Comparison, PairLeaf};
use crate::frontier::{Frontier, Stage, ask, pass_on, take_branch};
use crate::pair::Pair;
use crate::profiles::ProfilesSide;
use crate::region::{Region, region_of};
use crate::scope::facts_of;
use crate::side::Side;
use crate::side_tree::SideTree;
use crate::stack::StackSide;
use crate::step::Step;
use scf_facts::{Atom, Snapshots};
use scf_insn::Memory;
use scf_profile::{Relation, Scope};
use std::alloc::Global;

/// Regions, in the order of the walk, and how many steps that took.
#[derive(Drop)]
pub struct Regions {
    pub list: Vec<Region>,
    pub steps: u64,
}

/// What two sides answer to the records of a scope. Each record lies in a region, and exact regions don't overlap. None
/// if that takes more than `limit` steps; a walk takes at most as many as the exact effort. A side by itself is walked
/// beside a stack without filters, of size 1.
///
/// With a store that starts exact, plain sides have exact regions with known answers alone, and so have two whose masks
/// have few bits together.
pub fn regions_of<F: Snapshots>(
    alloc: Global,
    left: &Side<'_>,
    right: &Side<'_>,
    scope: Scope,
    limit: u64,
) -> Result<Option<Regions>, Memory>
    ensures regions { IfOk result (λ listed. IfSome listed
        (AreRegions (behavior_of left.now) (behavior_of right.now) (IsInScope scope) limit)) }
    ensures unfinished { IfOk result (λ listed. IfNone listed (limit < effort_of_sides left.now right.now)) }
    ensures decided { IsTrue F.starts_exact → IsPlainSide left.now → IsPlainSide right.now
        → IfOk result (λ listed. IfSome listed (λ regions. All IsDecidedRegion regions.list.items)) }
    ensures by_masks { IsTrue F.starts_exact → (masks : ℕ) → AreFew masks
        → IsMaskedSide masks left.now → IsMaskedSide masks right.now
        → IfOk result (λ listed. IfSome listed (λ regions. All IsDecidedRegion regions.list.items)) }
{
    match *left {
        Side::Stack(filters) => {
            let left = StackSide { filters };
            regions_beside::<F, StackSide<'_>>(alloc, left, right, scope, limit)
        }
        Side::Profiles(profiles) => {
            let left = ProfilesSide { profiles };
            regions_beside::<F, ProfilesSide<'_>>(alloc, left, right, scope, limit)
        }
    }
}

/// The regions of the left side's tree beside the right side.
fn regions_beside<F: Snapshots, L: SideTree + Drop>(
    alloc: Global,
    left: L,
    right: &Side<'_>,
    scope: Scope,
    limit: u64,
) -> Result<Option<Regions>, Memory>
    ensures regions { IfOk result (λ listed. IfSome listed
        (AreRegions (L.behavior left) (behavior_of right.now) (IsInScope scope) limit)) }
    ensures unfinished { IfOk result (λ listed. IfNone listed
        (limit < (L.behavior left).size * (behavior_of right.now).size)) }
    ensures decided { IsTrue F.starts_exact → (masks : ℕ) → AreFew masks
        → (L.behavior left).is_masked masks → IsMaskedSide masks right.now
        → IfOk result (λ listed. IfSome listed (λ regions. All IsDecidedRegion regions.list.items)) }
{
    match *right {
        Side::Stack(filters) => {
            let right = StackSide { filters };
            regions_of_trees::<F, L, StackSide<'_>>(alloc, left, right, scope, limit)
        }
        Side::Profiles(profiles) => {
            let right = ProfilesSide { profiles };
            regions_of_trees::<F, L, ProfilesSide<'_>>(alloc, left, right, scope, limit)
        }
    }
}

/// The regions of the trees of two sides.
fn regions_of_trees<F: Snapshots, L: SideTree + Drop, R: SideTree + Drop>(
    alloc: Global,
    left: L,
    right: R,
    over: Scope,
    limit: u64,
) -> Result<Option<Regions>, Memory>
    ensures regions { IfOk result (λ listed. IfSome listed
        (AreRegions (L.behavior left) (R.behavior right) (IsInScope over) limit)) }
    ensures unfinished { IfOk result (λ listed. IfNone listed
        (limit < (L.behavior left).size * (R.behavior right).size)) }
    ensures decided { IsTrue F.starts_exact → (masks : ℕ) → AreFew masks
        → (L.behavior left).is_masked masks → (R.behavior right).is_masked masks
        → IfOk result (λ listed. IfSome listed (λ regions. All IsDecidedRegion regions.list.items)) }
{
    let pair = Pair {
        left,
        right,
        over,
        by: Relation::Same,
    };
    let facts: F = facts_of(alloc, over)?;
    let (known, root) = pair.start();
    regions_of_pair(alloc, &pair, facts, known, root, limit)
}

/// The regions of two sides, by a walk of the whole tree from a node.
fn regions_of_pair<C: Comparison, F: Snapshots>(
    alloc: Global,
    comparison: &C,
    facts: F,
    start: C::Known,
    root: C::Node,
    limit: u64,
) -> Result<Option<Regions>, Memory>
    requires node { (C.tree comparison.now start).is_node root }
    requires unmarked { F.level facts ≡ 0 }
    requires scope { (words : List ℕ) → F.allows facts 0 words ↔ AreWordsIn (C.compared comparison.now) words }
    requires reached { (words : List ℕ) → AreWordsIn (C.compared comparison.now) words
        → (C.tree comparison.now start).reaches root words }
    requires size { let compared = C.compared comparison.now in
        (C.tree comparison.now start).size root ≡ compared.left.size * compared.right.size }
    ensures regions { let compared = C.compared comparison.now in IfOk result (λ listed. IfSome listed
        (AreRegions compared.left compared.right compared.in_scope limit)) }
    ensures unfinished { let compared = C.compared comparison.now in IfOk result (λ listed. IfNone listed
        (limit < compared.left.size * compared.right.size)) }
    ensures decided { (masks : ℕ) → AreFew masks → F.refutes_among facts 0 masks
        → (C.tree comparison.now start).is_plain masks root
        → IfOk result (λ listed. IfSome listed (λ regions. All IsDecidedRegion regions.list.items)) }
{
    let mut frontier = Frontier::new(alloc, facts);
    let mut known = start;
    let mut node = root;
    let mut first_open = None;
    let mut list = Vec::new(alloc);
    let mut steps = 0;
    let mut open_before = 0;
    while steps < limit {
        let most = limit - steps - 1;
        let passed = pass_on(
            comparison,
            &frontier,
            open_before,
            &mut known,
            &mut node,
            most,
        );
        steps += passed + 1;
        open_before = frontier.branches.len();
        match region_step(
            comparison,
            &mut frontier,
            &mut known,
            node,
            &mut first_open,
            &mut list,
        )? {
            Stage::At(next) => node = next,
            Stage::AllSeen => return Ok(Some(Regions { list, steps })),
            Stage::Found(_) => return Ok(None),
        }
    }
    Ok(None)
}

/// One step of the walk from a node. At a leaf its region is added, and the newest open branch is taken. `first_open`
/// is how many branches were open at the first test of the path that nothing decides, if there was one.
fn region_step<C: Comparison, F: Snapshots>(
    comparison: &C,
    frontier: &mut Frontier<F, C::Known, C::Node>,
    known: &mut C::Known,
    node: C::Node,
    first_open: &mut Option<usize>,
    regions: &mut Vec<Region>,
) -> Result<Stage<C::Node>, Memory>
    requires frontier { IsFrontier F.WordFacts (C.tree comparison.now)
        (AreWordsIn (C.compared comparison.now)) frontier.old }
    requires node { (C.tree comparison.now known.old).is_node node }
    requires whole { IsWhole F.WordFacts (C.tree comparison.now) frontier.old first_open.old
        ((C.tree comparison.now known.old).reaches node) }
    requires regions { AreRegionsSoFar F.WordFacts (C.compared comparison.now) (C.tree comparison.now)
        frontier.old first_open.old regions.old.items }
    ensures { let tree = C.tree comparison.now in
        IfOk result (IsRegionStep F.WordFacts (C.compared comparison.now) tree frontier.old frontier.new
        (tree known.old) node (tree known.new) first_open.old first_open.new regions.old.items regions.new.items) }
{
    match comparison.step(&frontier.facts, known, &node) {
        Step::Next(next) => Ok(Stage::At(next)),
        Step::Branch(atom, if_true, if_false) => {
            note_branch(first_open, atom, frontier.branches.len());
            let next = ask(comparison, frontier, known, atom, if_true, if_false)?;
            Ok(Stage::At(next))
        }
        Step::Leaf(leaf) => {
            add_region(&frontier.facts, leaf, first_open.is_none(), regions)?;
            let stage = take_branch(comparison, frontier, known)?;
            note_taken(first_open, frontier.branches.len());
            Ok(stage)
        }
    }
}

/// Notes that a branch is opened, beside so many others.
fn note_branch(first_open: &mut Option<usize>, atom: Option<Atom>, count: usize)
    ensures { first_open.new ≡ first_open_after first_open.old atom count }
{
    if atom.is_none() {
        *first_open = first_open.or(Some(count));
    }
}

/// Notes that a branch was taken, and so many others are still open.
fn note_taken(first_open: &mut Option<usize>, count: usize)
    ensures { first_open.new ≡ first_open_left first_open.old count }
{
    if let Some(first) = *first_open {
        if count < first {
            *first_open = None;
        }
    }
}

/// Adds the region of a leaf, unless the store knows that it allows no words there.
fn add_region<F: Snapshots>(
    facts: &F,
    leaf: PairLeaf,
    is_whole: bool,
    regions: &mut Vec<Region>,
) -> Result<(), Memory>
    ensures added { OnOk result (IsAdded (F.allows facts.now (F.level facts.now)) leaf is_whole
        regions.old.items regions.new.items) }
    ensures decided { OnOk result ((masks : ℕ) → AreFew masks
        → F.refutes_among facts.now (F.level facts.now) masks → IsTrue is_whole
        → KnowsBoth leaf → All IsDecidedRegion regions.old.items → All IsDecidedRegion regions.new.items) }
{
    if let Some(region) = region_of(facts, leaf, is_whole)? {
        regions.push(region)?;
    }
    Ok(())
}
