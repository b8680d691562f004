//! The open branches of a walk.

ghost use Rattle.std.specs.Prelude.{◌≡◌, ◌+◌, ◌<◌, ◌≤◌, ◌↔◌, [], ℕ, List, OnOk, IfOk};
ghost use Rattle.scf_facts.specs.Levels.{IsSameLevel};
ghost use Rattle.scf_compare.specs.Leaves.{IsLeaf};
ghost use Rattle.scf_compare.specs.internal.Leaves.{AreWordsIn};
ghost use Rattle.scf_compare.specs.internal.Frontier.{GivesAnswer, HasOpened, LearnsAmong, IsFrontier};
ghost use Rattle.scf_compare.specs.internal.Stages.{IsAfterLeaf, IsAfterTest};
ghost use Rattle.scf_compare.specs.internal.Trees.{IsAsked, IsLaterNode, IsProper};

use crate::comparison::Comparison;
use crate::finding::Finding;
use crate::step::Step;
use scf_facts::{Atom, Tell, WordFacts};
use scf_insn::Memory;
use std::alloc::Global;

/// A branch that is still to be explored: its node, what is known there, and the atom that is false in it, if any is.
#[derive(Drop)]
pub(crate) struct OpenBranch<K, N> {
    pub(crate) known: K,
    pub(crate) node: N,
    pub(crate) asked: Option<Atom>,
}

/// Where a walk is after a step.
#[derive(Drop)]
pub(crate) enum Stage<N> {
    /// At this node.
    At(N),
    /// Behind the last leaf.
    AllSeen,
    /// At a finding.
    Found(Finding),
}

/// The store at the current node, and the open branches, the newest last.
///
/// Each branch has an open mark of the store, at what was known where it branched off.
#[derive(Drop)]
pub(crate) struct Frontier<F, K, N> {
    pub(crate) facts: F,
    pub(crate) branches: Vec<OpenBranch<K, N>>,
}

impl<F: WordFacts, K: Copy, N: Drop> Frontier<F, K, N> {
    /// No open branches.
    pub(crate) fn new(alloc: Global, facts: F) -> Frontier<F, K, N>
        ensures facts { result.facts ≡ facts }
        ensures branches { result.branches.items ≡ [] }
    {
        Frontier {
            facts,
            branches: Vec::new(alloc),
        }
    }
}

/// Learns an answer to what is asked, if anything is.
fn learn_answer<F: WordFacts>(
    facts: &mut F,
    asked: Option<Atom>,
    answer: bool,
) -> Result<(), Memory>
    requires { IsAsked asked }
    ensures marks { F.level facts.new ≡ F.level facts.old }
    ensures at_marks { (index : ℕ) → index < F.level facts.old
        → IsSameLevel F.allows F.is_exact F.refutes_among facts.old index facts.new index }
    ensures learned { OnOk result ((words : List ℕ) → F.allows facts.new (F.level facts.old) words
        ↔ (F.allows facts.old (F.level facts.old) words × GivesAnswer asked answer words)) }
    ensures among { OnOk result ((masks : ℕ) → LearnsAmong masks asked answer
        → F.refutes_among facts.old (F.level facts.old) masks → F.refutes_among facts.new (F.level facts.old) masks) }
{
    match asked {
        Some(atom) => facts.learn(atom, answer),
        None => Ok(()),
    }
}

/// Goes on from a leaf, whose words were seen, with the newest branch, if there is one: undoes to its mark, and learns
/// the answer that leads into it.
pub(crate) fn take_branch<C: Comparison, F: WordFacts>(
    comparison: &C,
    frontier: &mut Frontier<F, C::Known, C::Node>,
    known: &mut C::Known,
) -> Result<Stage<C::Node>, Memory>
    requires { IsFrontier F.WordFacts (C.tree comparison.now) (AreWordsIn (C.compared comparison.now)) frontier.old }
    ensures { IfOk result (IsAfterLeaf F.WordFacts (C.compared comparison.now) (C.tree comparison.now)
        frontier.old frontier.new known.new) }
{
    let _ = comparison;
    let Some(branch) = frontier.branches.last() else {
        return Ok(Stage::AllSeen);
    };
    *known = branch.known;
    let node = branch.node;
    let asked = branch.asked;
    frontier.branches.truncate(frontier.branches.len() - 1);
    frontier.facts.undo();
    learn_answer(&mut frontier.facts, asked, false)?;
    Ok(Stage::At(node))
}

/// Opens a branch for the answer no to what is asked, if anything is, and learns yes.
pub(crate) fn open_branch<C: Comparison, F: WordFacts>(
    comparison: &C,
    frontier: &mut Frontier<F, C::Known, C::Node>,
    known: &C::Known,
    asked: Option<Atom>,
    node: C::Node,
) -> Result<(), Memory>
    requires frontier { IsFrontier F.WordFacts (C.tree comparison.now)
        (AreWordsIn (C.compared comparison.now)) frontier.old }
    requires asked { IsAsked asked }
    ensures { OnOk result (HasOpened F.WordFacts frontier.old frontier.new
        (record { known = known.now; node = node; asked = asked })) }
{
    let _ = comparison;
    frontier.facts.mark()?;
    frontier.branches.push(OpenBranch {
        known: *known,
        node,
        asked,
    })?;
    learn_answer(&mut frontier.facts, asked, true)?;
    Ok(())
}

/// Goes on from a test. If the store knows the answer, that side is followed. Otherwise a branch is opened for the
/// answer no, and yes is learned; where no atom decides the test, nothing is learned on either side.
pub(crate) fn ask<C: Comparison, F: WordFacts>(
    comparison: &C,
    frontier: &mut Frontier<F, C::Known, C::Node>,
    known: &C::Known,
    atom: Option<Atom>,
    if_true: C::Node,
    if_false: C::Node,
) -> Result<C::Node, Memory>
    requires frontier { IsFrontier F.WordFacts (C.tree comparison.now)
        (AreWordsIn (C.compared comparison.now)) frontier.old }
    requires proper { let compared = C.compared comparison.now in
        let step = Step.Branch atom if_true if_false in
        IsProper (C.tree comparison.now known.now) (IsLeaf compared.left compared.right) step }
    ensures { IfOk result (IsAfterTest F.WordFacts (C.compared comparison.now) (C.tree comparison.now)
        frontier.old frontier.new known.now atom if_true if_false) }
{
    let question = atom;
    if let Some(asked) = question {
        match frontier.facts.tell(asked) {
            Tell::Always => return Ok(if_true),
            Tell::Never => return Ok(if_false),
            Tell::Maybe => {}
        }
    }
    open_branch(comparison, frontier, known, atom, if_false)?;
    Ok(if_true)
}

/// Passes steps that the store decides, at most so many, unless the last step opened or took a branch: before it so
/// many were open. Behind a branch there is seldom anything to pass. How many steps were passed; the node becomes the
/// one behind them.
pub(crate) fn pass_on<C: Comparison, F: WordFacts>(
    comparison: &C,
    frontier: &Frontier<F, C::Known, C::Node>,
    open_before: usize,
    known: &mut C::Known,
    node: &mut C::Node,
    most: u64,
) -> u64
    requires { (C.tree comparison.now known.old).is_node node.old }
    ensures later { let facts = frontier.now.facts in IsLaterNode (F.allows facts (F.level facts))
        (C.tree comparison.now known.old) node.old (C.tree comparison.now known.new) node.new }
    ensures size { (C.tree comparison.now known.new).size node.new + result
        ≤ (C.tree comparison.now known.old).size node.old }
    ensures most { result ≤ most }
{
    if frontier.branches.len() == open_before {
        comparison.pass(&frontier.facts, known, node, most)
    } else {
        0
    }
}
