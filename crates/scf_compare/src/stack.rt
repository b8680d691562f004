//! A stack of filters as a tree of questions: the filters are walked one after another, the oldest first.

ghost use Rattle.std.specs.Prelude.{◌≡◌, ◌+◌, ◌<◌, ℕ, List, All, IfSome, length};
ghost use Rattle.scf_insn.specs.Words.{IsWords};
ghost use Rattle.scf_insn.specs.declared.insn.Insn.{Insn};
ghost use Rattle.scf_compare.specs.Sides.{filter_at, stack_behavior};
ghost use Rattle.scf_compare.specs.Leaves.{KnowsAnswer, SideTells};
ghost use Rattle.scf_compare.specs.internal.Leaves.{side_leaves};
ghost use Rattle.scf_compare.specs.internal.Stacks.{FirstAnswer, IsOlder, IsStackLeaf, NextAnswers, OlderTells};
ghost use Rattle.scf_compare.specs.internal.Stacks.{stack_is_node, stack_tree};
ghost use Rattle.scf_compare.specs.internal.Trees.{IsStep};

use crate::filter::{FilterNode, pass_in_filter, start_in_filter, step_in_filter, waits_in_filter};
use crate::origin::Origin;
use crate::registers::KnownRegisters;
use crate::side_tree::{SideLeaf, SideTree};
use crate::sources::OpenTest;
use crate::step::{Passed, Step};
use StackNode::{At, Empty};
use scf_facts::WordFacts;
use scf_insn::{Action, Answer, CallRecord};
use scf_machine::{Program, decide};

/// A node of one filter of a stack, with the leaf that the older filters came to, if there are any.
#[derive(Clone, Copy)]
pub(crate) enum StackNode {
    /// There is no filter.
    Empty,
    /// In the filter at this index.
    At(usize, Option<SideLeaf>, FilterNode),
}

/// The filters of a stack, the oldest first.
#[derive(Drop)]
pub(crate) struct StackSide<'a> {
    pub(crate) filters: &'a [Program],
}

impl SideTree for StackSide<'_> {
    type Known = KnownRegisters;

    type Node = StackNode;

    ghost behavior = { λ side. stack_behavior side.filters.now };

    ghost tree = { λ side. stack_tree side.filters.now };

    fn start(&self) -> (KnownRegisters, StackNode) {
        let mut known = KnownRegisters::at_start();
        if self.filters.is_empty() {
            return (known, Empty);
        }
        let node = start_in_filter(filter_of(self.filters, 0), &mut known);
        (known, At(0, None, node))
    }

    fn step<F: WordFacts>(
        &self,
        facts: &F,
        known: &mut KnownRegisters,
        node: StackNode,
    ) -> Step<StackNode, SideLeaf> {
        match node {
            Empty => Step::Leaf(SideLeaf {
                answer: Some(Answer::new(Action::Allow, 0)),
                origin: Origin::Filter {
                    filter: 0,
                    index: 0,
                },
            }),
            At(index, older, node) => step_from(self.filters, facts, known, index, older, node),
        }
    }

    fn pass<F: WordFacts>(
        &self,
        facts: &F,
        known: &mut KnownRegisters,
        node: &mut StackNode,
        most: u64,
    ) -> Passed {
        match node {
            Empty => Passed::NOTHING,
            At(index, _, inner) => {
                let program = filter_of(self.filters, *index);
                pass_in_filter(program, facts, known, inner, most)
            }
        }
    }

    fn waits_at(&self, known: &KnownRegisters, node: StackNode) -> bool {
        match node {
            Empty => false,
            At(index, _, node) => waits_in_filter(filter_of(self.filters, index), known, node),
        }
    }

    fn open_test(&self, known: &KnownRegisters) -> Option<OpenTest> {
        known.open
    }

    fn answer(&self, call: &CallRecord) -> Answer {
        call.within_widths();
        decide(self.filters, call)
    }

    ghost use Rattle.scf_compare.specs.internal.Laws.{stack_node_counts};

    ghost counts = { λ side. stack_node_counts side.filters.now };
}

/// The filter at an index.
fn filter_of(filters: &[Program], index: usize) -> &Program
    requires { index < length filters.now }
    ensures { result.now ≡ filter_at filters.now index }
{
    &filters[index]
}

/// The leaf of filters with one more, the newest: the first whose answer isn't known, else the one whose answer takes
/// precedence.
#[tactic(auto, using(crate::proofs::Stacks::first_decides))]
fn decided_at(older: Option<SideLeaf>, newest: SideLeaf) -> SideLeaf
    ensures leaf { (filters : List (List Insn)) (index : ℕ) → IsOlder filters index older → IsStackLeaf filters newest
        → IsStackLeaf filters result }
    ensures known { IfSome older KnowsAnswer → KnowsAnswer newest → KnowsAnswer result }
    ensures decides { (filters : List (List Insn)) (index : ℕ) (words : List ℕ) → index < length filters
        → IsOlder filters index older → OlderTells filters index older words
        → SideTells (NextAnswers filters index) newest words
        → SideTells (FirstAnswer filters (index + 1)) result words }
{
    let Some(older) = older else {
        return newest;
    };
    match (older.answer, newest.answer) {
        (Some(first), Some(last)) => {
            if first.rank() < last.rank() {
                older
            } else {
                newest
            }
        }
        (Some(_), None) => newest,
        (None, _) => older,
    }
}

/// The step from a node of a filter, and what is known of its registers after it. At a leaf the next newer filter
/// begins.
#[tactic(auto, using(crate::specs::internal::Laws::paths_count, crate::specs::internal::Laws::scaled_costs))]
fn step_from<F: WordFacts>(
    filters: &[Program],
    facts: &F,
    registers: &mut KnownRegisters,
    first: usize,
    decided: Option<SideLeaf>,
    begun: FilterNode,
) -> Step<StackNode, SideLeaf>
    requires { stack_is_node filters.now registers.old (StackNode.At first decided begun) }
    ensures { IsStep (side_leaves (stack_behavior filters.now))
        (λ words. IsWords words × F.allows facts.now (F.level facts.now) words)
        (stack_tree filters.now registers.old) (StackNode.At first decided begun)
        (stack_tree filters.now registers.new) result }
{
    let mut index = first;
    let mut older = decided;
    let mut node = begun;
    loop {
        match step_in_filter(filter_of(filters, index), facts, registers, node) {
            Step::Next(next) => return Step::Next(At(index, older, next)),
            Step::Branch(atom, if_true, if_false) => {
                return Step::Branch(atom, At(index, older, if_true), At(index, older, if_false));
            }
            Step::Leaf(leaf) => {
                let newest = SideLeaf {
                    answer: leaf.answer,
                    origin: Origin::Filter {
                        filter: index,
                        index: leaf.at,
                    },
                };
                let decided = decided_at(older, newest);
                index += 1;
                if index == filters.len() {
                    return Step::Leaf(decided);
                }
                older = Some(decided);
                let start = start_in_filter(filter_of(filters, index), registers);
                node = start;
            }
        }
    }
}
