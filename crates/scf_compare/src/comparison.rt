//! What the explorer knows of the two sides: one tree of questions.

ghost use Rattle.std.specs.Prelude.{◌+◌, ◌<◌, ◌≤◌, ◌↔◌, IsTrue};
ghost use Rattle.scf_insn.specs.Words.{words_of};
ghost use Rattle.scf_compare.specs.Findings.{Compared};
ghost use Rattle.scf_compare.specs.internal.Leaves.{IsOnlyAnswer, pair_leaves};
ghost use Rattle.scf_compare.specs.internal.Trees.{IsLaterNode, IsStep, Tree};

use crate::side_tree::SideLeaf;
use crate::sources::OpenTest;
use crate::step::Step;
use scf_facts::WordFacts;
use scf_insn::{Answer, CallRecord};

/// A leaf of the tree of two sides: what each of them answers the records that come to it.
#[derive(Clone, Copy)]
pub struct PairLeaf {
    pub left: SideLeaf,
    pub right: SideLeaf,
}

/// Two sides that are asked about the same words, as one tree of questions.
pub(crate) trait Comparison {
    /// What is known at a node beside the store.
    type Known: Copy;

    type Node: Copy;

    ghost compared: { Self → Compared };

    /// The tree, given what is known at its nodes.
    ghost tree: { Self → Self.Known → Tree Self.Node };

    /// The step from a node, for the words that the store allows, and what is known after it.
    fn step<F: WordFacts>(
        &self,
        facts: &F,
        known: &mut Self::Known,
        node: &Self::Node,
    ) -> Step<Self::Node, PairLeaf>
        requires { (tree self.now known.old).is_node node.now }
        ensures { IsStep (pair_leaves (compared self.now)) (F.allows facts.now (F.level facts.now))
            (tree self.now known.old) node.now (tree self.now known.new) result };

    /// Passes steps that the store decides, at most so many, at less cost than step by step: how many. The node becomes
    /// the one behind them.
    fn pass<F: WordFacts>(
        &self,
        facts: &F,
        known: &mut Self::Known,
        node: &mut Self::Node,
        most: u64,
    ) -> u64
        requires { (tree self.now known.old).is_node node.old }
        ensures later { IsLaterNode (F.allows facts.now (F.level facts.now))
            (tree self.now known.old) node.old (tree self.now known.new) node.new }
        ensures size { (tree self.now known.new).size node.new + result ≤ (tree self.now known.old).size node.old }
        ensures most { result ≤ most }
    {
        let _ = facts;
        let _ = known;
        let _ = node;
        let _ = most;
        0
    }

    /// The first test on the path that nothing known decides, given what is known at its end.
    fn open_test(&self, known: &Self::Known) -> Option<OpenTest>;

    /// The answers to a call: the left side's and the right one's. Each is the only one.
    fn answers(&self, call: &CallRecord) -> (Answer, Answer)
        ensures left { (compared self.now).left.answers (words_of call.now) result.0.0 }
        ensures right { (compared self.now).right.answers (words_of call.now) result.1.0 }
        ensures one_of_left { IsOnlyAnswer (compared self.now).left.answers (words_of call.now) result.0.0 }
        ensures one_of_right { IsOnlyAnswer (compared self.now).right.answers (words_of call.now) result.1.0 };

    /// Whether the relation holds of an answer of the left side and one of the right side.
    fn relates(&self, left: Answer, right: Answer) -> bool
        ensures { IsTrue result ↔ (compared self.now).related left.0 right.0 };

    /// Whether a call is one of the scope.
    fn is_in_scope(&self, call: &CallRecord) -> bool
        ensures { IsTrue result ↔ (compared self.now).in_scope call.now };

    /// Each node has a size above 0.
    ghost counts: { (comparison : Self) (known : Self.Known) (node : Self.Node)
        → 0 < (tree comparison known).size node };
}
