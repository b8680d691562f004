//! A comparison's tree with the bits of the words that splits have fixed.

ghost use Rattle.scf_compare.specs.internal.Settling.{settling_trees};

use crate::comparison::{Comparison, PairLeaf};
use crate::fixed_bits::FixedBits;
use crate::sources::OpenTest;
use crate::step::Step;
use scf_facts::WordFacts;
use scf_insn::{Answer, CallRecord};

/// A node of a comparison's tree, and the bits that splits have fixed.
#[derive_where(Clone, Copy; N: Copy)]
pub(crate) struct SettlingNode<N> {
    pub(crate) node: N,
    pub(crate) fixed: FixedBits,
}

/// A comparison that is walked from its root again with each split.
#[derive(Drop)]
pub(crate) struct Settling<'a, C: Comparison> {
    pub(crate) comparison: &'a C,
    /// What is known at the root.
    pub(crate) start: C::Known,
    pub(crate) root: C::Node,
}

impl<C: Comparison> Comparison for Settling<'_, C> {
    type Known = C::Known;

    type Node = SettlingNode<C::Node>;

    ghost compared = { λ settling. C.compared settling.comparison.now };

    ghost tree = { λ settling. settling_trees (C.tree settling.comparison.now) settling.start settling.root };

    fn step<F: WordFacts>(
        &self,
        facts: &F,
        known: &mut C::Known,
        node: &SettlingNode<C::Node>,
    ) -> Step<SettlingNode<C::Node>, PairLeaf> {
        let fixed = node.fixed;
        match self.comparison.step(facts, known, &node.node) {
            Step::Next(node) => Step::Next(SettlingNode { node, fixed }),
            Step::Branch(atom, if_true, if_false) => Step::Branch(
                atom,
                SettlingNode {
                    node: if_true,
                    fixed,
                },
                SettlingNode {
                    node: if_false,
                    fixed,
                },
            ),
            Step::Leaf(leaf) => Step::Leaf(leaf),
        }
    }

    fn open_test(&self, known: &C::Known) -> Option<OpenTest> {
        self.comparison.open_test(known)
    }

    fn answers(&self, call: &CallRecord) -> (Answer, Answer) {
        self.comparison.answers(call)
    }

    fn relates(&self, left: Answer, right: Answer) -> bool {
        self.comparison.relates(left, right)
    }

    fn is_in_scope(&self, call: &CallRecord) -> bool {
        self.comparison.is_in_scope(call)
    }

    ghost use Rattle.scf_compare.specs.internal.Laws.{settling_counts};

    ghost counts = { λ settling known. let tree = C.tree settling.comparison.now in
        settling_counts ((tree settling.start).size settling.root) (tree known)
        (C.counts settling.comparison.now known) };
}
