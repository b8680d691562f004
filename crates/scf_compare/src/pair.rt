//! Two sides as one tree of questions: the left side is asked first, and the right one at each leaf of its tree, from
//! where it has come by what is known before.

ghost use Rattle.std.specs.Prelude.{◌≡◌, ◌*◌, ℕ, List};
ghost use Rattle.scf_insn.specs.Words.{IsWords};
ghost use Rattle.scf_compare.specs.Findings.{compared_in};
ghost use Rattle.scf_compare.specs.Leaves.{IsSideLeaf};
ghost use Rattle.scf_compare.specs.declared.side_tree.SideLeaf.{SideLeaf};
ghost use Rattle.scf_compare.specs.declared.step.Step.{Step};
ghost use Rattle.scf_compare.specs.internal.Leaves.{pair_leaves};
ghost use Rattle.scf_compare.specs.internal.Pairs.{pair_tree, tree_behind};
ghost use Rattle.scf_compare.specs.internal.Trees.{IsProper, IsStep};

use crate::comparison::{Comparison, PairLeaf};
use crate::decided::{MOST_AT_ONCE, follow, go_ahead};
use crate::scope::is_in_scope;
use crate::side_tree::{SideLeaf, SideTree};
use crate::sources::OpenTest;
use crate::step::Step;
use scf_facts::WordFacts;
use scf_insn::{Answer, CallRecord};
use scf_profile::{Relation, Scope};

/// What is known of each side, and the pending step to which the right one has come while the left one is asked.
#[derive_where(Clone, Copy; K: Copy, M: Copy, B: Copy)]
pub(crate) struct PairKnown<K, M, B> {
    pub(crate) left: K,
    pub(crate) right: M,
    pub(crate) ahead: Step<B, SideLeaf>,
    /// How many of the right side's steps that are taken at once were taken before its node.
    pub(crate) taken: u64,
}

/// A node of the left side's tree, or one of the right side's tree behind a leaf of the left side's.
#[derive_where(Clone, Copy; A: Copy, B: Copy)]
pub(crate) enum PairNode<A, B> {
    AtLeft(A),
    AtRight(SideLeaf, B),
}

/// Two sides that are compared over a scope, by a relation.
#[derive(Drop)]
pub(crate) struct Pair<L, R> {
    pub(crate) left: L,
    pub(crate) right: R,
    pub(crate) over: Scope,
    pub(crate) by: Relation,
}

impl<L: SideTree, R: SideTree> Comparison for Pair<L, R> {
    type Known = PairKnown<L::Known, R::Known, R::Node>;

    type Node = PairNode<L::Node, R::Node>;

    ghost compared = { λ pair. compared_in pair.by pair.over (L.behavior pair.left) (R.behavior pair.right) };

    ghost tree = { λ pair. pair_tree (compared_in pair.by pair.over (L.behavior pair.left) (R.behavior pair.right))
        (L.tree pair.left) (R.tree pair.right) };

    fn step<F: WordFacts>(
        &self,
        facts: &F,
        known: &mut PairKnown<L::Known, R::Known, R::Node>,
        node: &PairNode<L::Node, R::Node>,
    ) -> Step<PairNode<L::Node, R::Node>, PairLeaf> {
        match *node {
            PairNode::AtLeft(node) => match self.left.step(facts, &mut known.left, node) {
                Step::Next(next) => Step::Next(PairNode::AtLeft(next)),
                Step::Branch(atom, if_true, if_false) => {
                    go_ahead(&self.right, facts, &mut known.right, &mut known.ahead, 1);
                    Step::Branch(atom, PairNode::AtLeft(if_true), PairNode::AtLeft(if_false))
                }
                Step::Leaf(leaf) => {
                    self.ask_right(facts, &mut known.right, leaf, &mut known.ahead, 0)
                }
            },
            PairNode::AtRight(leaf, node) => {
                let taken = known.taken;
                known.taken = 0;
                let mut pending = Step::Next(node);
                self.ask_right(facts, &mut known.right, leaf, &mut pending, taken)
            }
        }
    }

    fn pass<F: WordFacts>(
        &self,
        facts: &F,
        known: &mut PairKnown<L::Known, R::Known, R::Node>,
        node: &mut PairNode<L::Node, R::Node>,
        most: u64,
    ) -> u64 {
        match node {
            PairNode::AtLeft(left) => {
                let passed = self.left.pass(facts, &mut known.left, left, most);
                if passed.asked == 0 {
                    return passed.steps;
                }
                let (right, asked) = (&self.right, passed.asked);
                go_ahead(right, facts, &mut known.right, &mut known.ahead, asked);
                passed.steps
            }
            PairNode::AtRight(_, right) => {
                let most = most.saturating_mul(MOST_AT_ONCE);
                let passed = self.right.pass(facts, &mut known.right, right, most);
                known.taken = passed.steps % MOST_AT_ONCE;
                passed.steps / MOST_AT_ONCE
            }
        }
    }

    fn open_test(&self, known: &PairKnown<L::Known, R::Known, R::Node>) -> Option<OpenTest> {
        match self.left.open_test(&known.left) {
            None => self.right.open_test(&known.right),
            open => open,
        }
    }

    fn answers(&self, call: &CallRecord) -> (Answer, Answer) {
        (self.left.answer(call), self.right.answer(call))
    }

    fn relates(&self, left: Answer, right: Answer) -> bool {
        self.by.relates(left, right)
    }

    fn is_in_scope(&self, call: &CallRecord) -> bool {
        is_in_scope(self.over, call)
    }

    ghost use Rattle.scf_compare.specs.internal.Laws.{pair_counts};

    ghost counts = { λ pair. pair_counts
        (compared_in pair.by pair.over (L.behavior pair.left) (R.behavior pair.right))
        (L.tree pair.left) (R.tree pair.right) (L.counts pair.left) (R.counts pair.right) };
}

impl<L: SideTree, R: SideTree> Pair<L, R> {
    /// What is known at the root, and the root.
    pub(crate) fn start(
        &self,
    ) -> (
        PairKnown<L::Known, R::Known, R::Node>,
        PairNode<L::Node, R::Node>,
    )
        ensures node { let pair = self.now in
            let compared = compared_in pair.by pair.over (L.behavior pair.left) (R.behavior pair.right) in
            (pair_tree compared (L.tree pair.left) (R.tree pair.right) result.0).is_node result.1 }
        ensures reached { let pair = self.now in
            let compared = compared_in pair.by pair.over (L.behavior pair.left) (R.behavior pair.right) in
            (words : List ℕ) → IsWords words
            → (pair_tree compared (L.tree pair.left) (R.tree pair.right) result.0).reaches result.1 words }
        ensures size { let pair = self.now in
            let compared = compared_in pair.by pair.over (L.behavior pair.left) (R.behavior pair.right) in
            (pair_tree compared (L.tree pair.left) (R.tree pair.right) result.0).size result.1
            ≡ (L.behavior pair.left).size * (R.behavior pair.right).size }
        ensures plain { let pair = self.now in
            let compared = compared_in pair.by pair.over (L.behavior pair.left) (R.behavior pair.right) in
            (masks : ℕ) → (L.behavior pair.left).is_masked masks → (R.behavior pair.right).is_masked masks
            → (pair_tree compared (L.tree pair.left) (R.tree pair.right) result.0).is_plain masks result.1 }
    {
        let (left, start) = self.left.start();
        let (right, right_start) = self.right.start();
        let ahead = Step::Next(right_start);
        let known = PairKnown {
            left,
            right,
            ahead,
            taken: 0,
        };
        (known, PairNode::AtLeft(start))
    }

    /// The right side's step, behind a leaf of the left side's tree. So many of the steps that are taken at once were
    /// taken before it.
    fn ask_right<F: WordFacts>(
        &self,
        facts: &F,
        known: &mut R::Known,
        leaf: SideLeaf,
        pending: &mut Step<R::Node, SideLeaf>,
        taken: u64,
    ) -> Step<PairNode<L::Node, R::Node>, PairLeaf>
        requires step { IsProper (R.tree self.now.right known.old)
            (IsSideLeaf (R.behavior self.now.right)) pending.old }
        requires leaf { IsSideLeaf (L.behavior self.now.left) leaf }
        ensures { (left : L.Known) (ahead : Step R.Node SideLeaf) (over : ℕ) → let pair = self.now in
            let compared = compared_in pair.by pair.over (L.behavior pair.left) (R.behavior pair.right) in
            let tree = pair_tree compared (L.tree pair.left) (R.tree pair.right) in
            IsStep (pair_leaves compared) (F.allows facts.now (F.level facts.now))
            (tree_behind compared (R.tree pair.right) known.old leaf) pending.old
            (tree (record { left = left; right = known.new; ahead = ahead; taken = over })) result }
    {
        follow(&self.right, facts, known, pending, taken);
        match *pending {
            Step::Next(next) => Step::Next(PairNode::AtRight(leaf, next)),
            Step::Branch(atom, if_true, if_false) => Step::Branch(
                atom,
                PairNode::AtRight(leaf, if_true),
                PairNode::AtRight(leaf, if_false),
            ),
            Step::Leaf(right) => Step::Leaf(PairLeaf { left: leaf, right }),
        }
    }
}
