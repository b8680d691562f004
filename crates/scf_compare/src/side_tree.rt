//! A side of a comparison as a tree of questions about the words of a call record.

ghost use Rattle.std.specs.Prelude.{◌≡◌, ◌+◌, ◌<◌, ◌≤◌, ℕ, List};
ghost use Rattle.scf_insn.specs.Words.{words_of, IsWords};
ghost use Rattle.scf_compare.specs.Sides.{Behavior};
ghost use Rattle.scf_compare.specs.internal.Leaves.{IsOnlyAnswer, side_leaves};
ghost use Rattle.scf_compare.specs.internal.Trees.{IsLaterNode, IsStep, Tree};

use crate::origin::Origin;
use crate::sources::OpenTest;
use crate::step::{Passed, Step};
use scf_facts::WordFacts;
use scf_insn::{Answer, CallRecord};

/// A leaf of a side's tree of questions: what the side answers the records that come to it.
#[derive(Clone, Copy)]
pub struct SideLeaf {
    /// Their answer, if it is known.
    pub answer: Option<Answer>,
    /// Where the answer comes from; if it isn't known, where runs end.
    pub origin: Origin,
}

/// A side as a tree of questions.
pub(crate) trait SideTree {
    /// What is known at a node beside the store: the registers of a filter, or which profile is asked.
    type Known: Copy;

    type Node: Copy;

    ghost behavior: { Self → Behavior };

    /// The tree, given what is known at its nodes.
    ghost tree: { Self → Self.Known → Tree Self.Node };

    /// What is known at the root, and the root.
    fn start(&self) -> (Self::Known, Self::Node)
        ensures node { (tree self.now result.0).is_node result.1 }
        ensures reached { (words : List ℕ) → (tree self.now result.0).reaches result.1 words }
        ensures size { (tree self.now result.0).size result.1 ≡ (behavior self.now).size }
        ensures plain { (masks : ℕ) → (behavior self.now).is_masked masks
            → (tree self.now result.0).is_plain masks result.1 };

    /// The step from a node, for the words that the store allows, and what is known after it.
    fn step<F: WordFacts>(
        &self,
        facts: &F,
        known: &mut Self::Known,
        node: Self::Node,
    ) -> Step<Self::Node, SideLeaf>
        requires { (tree self.now known.old).is_node node }
        ensures { IsStep (side_leaves (behavior self.now))
            (λ words. IsWords words × F.allows facts.now (F.level facts.now) words)
            (tree self.now known.old) node (tree self.now known.new) result };

    /// Passes steps that the store decides, at most so many, where the side does so at less cost than step by step. The
    /// node becomes the one behind them.
    fn pass<F: WordFacts>(
        &self,
        facts: &F,
        known: &mut Self::Known,
        node: &mut Self::Node,
        most: u64,
    ) -> Passed
        requires { (tree self.now known.old).is_node node.old }
        ensures later { IsLaterNode (λ words. IsWords words × F.allows facts.now (F.level facts.now) words)
            (tree self.now known.old) node.old (tree self.now known.new) node.new }
        ensures size { (tree self.now known.new).size node.new + result.steps
            ≤ (tree self.now known.old).size node.old }
        ensures most { result.steps ≤ most };

    /// Whether the step from a node wants all that will be known there: it computes, or tests a computed value.
    fn waits_at(&self, known: &Self::Known, node: Self::Node) -> bool
        requires { (tree self.now known.now).is_node node }
    {
        let _ = known;
        let _ = node;
        false
    }

    /// The first test on the path to a node that nothing known decides, given what is known there.
    fn open_test(&self, known: &Self::Known) -> Option<OpenTest>;

    /// The answer to a call, which is the only one.
    fn answer(&self, call: &CallRecord) -> Answer
        ensures of_words { (behavior self.now).answers (words_of call.now) result.0 }
        ensures only { IsOnlyAnswer (behavior self.now).answers (words_of call.now) result.0 };

    /// Each node has a size above 0.
    ghost counts: { (side : Self) (known : Self.Known) (node : Self.Node) → 0 < (tree side known).size node };
}
