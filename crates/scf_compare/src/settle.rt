//! The second walk of a comparison, which splits the records by bits of their words until every test is decided.

ghost use Rattle.std.specs.Prelude.{◌≡◌, ◌≤◌, ◌↔◌, ℕ, List, IfNone, IfOk, IfSome};
ghost use Rattle.scf_compare.specs.Findings.{WordsRelated};
ghost use Rattle.scf_compare.specs.Splits.{HaveBits, open_bits};
ghost use Rattle.scf_compare.specs.internal.FixedBits.{AreWhole, IsOpenBit};
ghost use Rattle.scf_compare.specs.internal.Frontier.{IsFrontier};
ghost use Rattle.scf_compare.specs.internal.Leaves.{AreWordsIn};
ghost use Rattle.scf_compare.specs.internal.Settling.{IsSecondWalk, IsWalkedOn, StartsAt, settling_trees};
ghost use Rattle.scf_compare.specs.internal.Stages.{IsFound};

use crate::budget::Limit;
use crate::comparison::Comparison;
use crate::explore::{Judged, difference_by, judge};
use crate::finding::Finding;
use crate::fixed_bits::{FixedBits, WordBit};
use crate::frontier::{Frontier, Stage, ask, open_branch, take_branch};
use crate::settling::{Settling, SettlingNode};
use crate::step::Step;
use scf_facts::WordFacts;
use scf_insn::{CallRecord, Memory};
use std::alloc::Global;

/// The difference that the only words with these bits show, if they are in the scope and show one.
fn difference_of<C: Comparison>(comparison: &C, fixed: &FixedBits) -> Option<Finding>
    requires { AreWhole fixed.now.words }
    ensures related { IfNone result ((words : List ℕ) → AreWordsIn (C.compared comparison.now) words
        → HaveBits fixed.now.words words → WordsRelated (C.compared comparison.now) words) }
    ensures found { IfSome result (IsFound (C.compared comparison.now)) }
{
    let call = CallRecord::from_words(&fixed.values());
    if comparison.is_in_scope(&call) {
        difference_by(comparison, call)
    } else {
        None
    }
}

/// Splits on a bit that isn't fixed yet, if a split is left: opens a branch where the bit is clear, and learns that it
/// is set. Both begin at the root.
fn restart<C: Comparison, F: WordFacts>(
    settling: &Settling<'_, C>,
    frontier: &mut Frontier<F, C::Known, SettlingNode<C::Node>>,
    known: &mut C::Known,
    from: SettlingNode<C::Node>,
    fixed: FixedBits,
    bit: WordBit,
    budget: &mut Limit,
) -> Result<Option<Stage<SettlingNode<C::Node>>>, Memory>
    requires frontier { let walk = settling.now in let tree = C.tree walk.comparison.now in
        IsFrontier F.WordFacts (settling_trees tree walk.start walk.root)
        (AreWordsIn (C.compared walk.comparison.now)) frontier.old }
    requires root { let walk = settling.now in
        StartsAt (AreWordsIn (C.compared walk.comparison.now)) (C.tree walk.comparison.now walk.start) walk.root }
    requires have { (words : List ℕ) → F.allows frontier.old.facts (F.level frontier.old.facts) words
        → HaveBits from.fixed.words words → HaveBits fixed.words words }
    requires less { open_bits fixed.words ≤ open_bits from.fixed.words }
    requires open { IsOpenBit fixed.words bit }
    ensures { let walk = settling.now in
        (before : C.Known) → IfOk result (IsWalkedOn F.WordFacts (C.compared walk.comparison.now)
        (C.tree walk.comparison.now) walk.start walk.root frontier.old frontier.new before from known.new
        budget.old budget.new) }
{
    if !budget.take_split() {
        return Ok(None);
    }
    let node = settling.root;
    let mut set = fixed;
    set.fix(bit, true);
    let if_set = SettlingNode { node, fixed: set };
    let mut clear = fixed;
    clear.fix(bit, false);
    let if_clear = SettlingNode { node, fixed: clear };
    *known = settling.start;
    open_branch(settling, frontier, known, Some(bit.is_set()), if_clear)?;
    Ok(Some(Stage::At(if_set)))
}

/// Goes on where a test or an answer is open. If every bit is fixed, both sides are asked about the only words left.
fn split<C: Comparison, F: WordFacts>(
    settling: &Settling<'_, C>,
    frontier: &mut Frontier<F, C::Known, SettlingNode<C::Node>>,
    known: &mut C::Known,
    from: SettlingNode<C::Node>,
    budget: &mut Limit,
) -> Result<Option<Stage<SettlingNode<C::Node>>>, Memory>
    requires frontier { let walk = settling.now in let tree = C.tree walk.comparison.now in
        IsFrontier F.WordFacts (settling_trees tree walk.start walk.root)
        (AreWordsIn (C.compared walk.comparison.now)) frontier.old }
    requires root { let walk = settling.now in
        StartsAt (AreWordsIn (C.compared walk.comparison.now)) (C.tree walk.comparison.now walk.start) walk.root }
    ensures { let walk = settling.now in
        (before : C.Known) → IfOk result (IsWalkedOn F.WordFacts (C.compared walk.comparison.now)
        (C.tree walk.comparison.now) walk.start walk.root frontier.old frontier.new before from known.new
        budget.old budget.new) }
{
    let mut fixed = from.fixed;
    match fixed.next_bit(&frontier.facts, settling.open_test(known)) {
        Some(bit) => restart(settling, frontier, known, from, fixed, bit, budget),
        None => match difference_of(settling, &fixed) {
            Some(finding) => Ok(Some(Stage::Found(finding))),
            None => Ok(Some(take_branch(settling, frontier, known)?)),
        },
    }
}

/// One step of the second walk, if the budget suffices. At a test that no atom decides, and at a leaf where the store
/// doesn't decide the answers, it splits.
fn advance_again<C: Comparison, F: WordFacts>(
    settling: &Settling<'_, C>,
    frontier: &mut Frontier<F, C::Known, SettlingNode<C::Node>>,
    known: &mut C::Known,
    node: SettlingNode<C::Node>,
    budget: &mut Limit,
) -> Result<Option<Stage<SettlingNode<C::Node>>>, Memory>
    requires frontier { let walk = settling.now in let tree = C.tree walk.comparison.now in
        IsFrontier F.WordFacts (settling_trees tree walk.start walk.root)
        (AreWordsIn (C.compared walk.comparison.now)) frontier.old }
    requires root { let walk = settling.now in
        StartsAt (AreWordsIn (C.compared walk.comparison.now)) (C.tree walk.comparison.now walk.start) walk.root }
    requires node { (C.tree settling.now.comparison.now known.old).is_node node.node }
    ensures { let walk = settling.now in
        IfOk result (IsWalkedOn F.WordFacts (C.compared walk.comparison.now)
        (C.tree walk.comparison.now) walk.start walk.root frontier.old frontier.new known.old node known.new
        budget.old budget.new) }
{
    match settling.step(&frontier.facts, known, &node) {
        Step::Next(next) => Ok(Some(Stage::At(next))),
        Step::Branch(Some(atom), if_true, if_false) => {
            let next = ask(settling, frontier, known, Some(atom), if_true, if_false)?;
            Ok(Some(Stage::At(next)))
        }
        Step::Branch(..) => split(settling, frontier, known, node, budget),
        Step::Leaf(leaf) => match judge(settling, &frontier.facts, leaf) {
            Judged::Related => Ok(Some(take_branch(settling, frontier, known)?)),
            Judged::Fails(finding) => Ok(Some(Stage::Found(finding))),
            Judged::Open => split(settling, frontier, known, node, budget),
        },
    }
}

/// Walks the whole tree from a node again, with splits. The finding is `Holds`, with these steps, or `Fails`; there is
/// none only if the budget was used up.
pub(crate) fn settle<C: Comparison, F: WordFacts>(
    alloc: Global,
    comparison: &C,
    facts: F,
    start: C::Known,
    root: C::Node,
    steps: u64,
    budget: &mut Limit,
) -> Result<Option<Finding>, Memory>
    requires unmarked { F.level facts ≡ 0 }
    requires scope { (words : List ℕ) → F.allows facts 0 words ↔ AreWordsIn (C.compared comparison.now) words }
    requires root { StartsAt (AreWordsIn (C.compared comparison.now)) (C.tree comparison.now start) root }
    ensures { IfOk result (IsSecondWalk (C.compared comparison.now) steps budget.old budget.new.steps) }
{
    let settling = Settling {
        comparison,
        start,
        root,
    };
    let mut frontier = Frontier::new(alloc, facts);
    let mut known = start;
    let mut node = SettlingNode {
        node: root,
        fixed: FixedBits::none(),
    };
    while budget.take_step() {
        match advance_again(&settling, &mut frontier, &mut known, node, budget)? {
            Some(Stage::At(next)) => node = next,
            Some(Stage::AllSeen) => return Ok(Some(Finding::Holds { steps })),
            Some(Stage::Found(finding)) => return Ok(Some(finding)),
            None => return Ok(None),
        }
    }
    Ok(None)
}
