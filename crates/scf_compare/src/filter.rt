//! A filter as a tree of questions: its paths are followed with what is known of the registers.

ghost use Rattle.std.specs.Prelude.{◌≡◌, ◌+◌, ◌≤◌, ℕ, List, IfNone, IfSome, IsTrue};
ghost use Rattle.scf_insn.specs.Words.{IsWords};
ghost use Rattle.scf_compare.specs.Masked.{IsMaskedProgram};
ghost use Rattle.scf_compare.specs.Paths.{tree_size};
ghost use Rattle.scf_compare.specs.internal.Filters.{IsStepOf, leaves_of_filter, filter_is_node, filter_is_plain};
ghost use Rattle.scf_compare.specs.internal.Filters.{filter_reaches, filter_size, filter_tree};
ghost use Rattle.scf_compare.specs.declared.step.Step.{Step};
ghost use Rattle.scf_compare.specs.internal.Trees.{IsLaterNode, IsStep};
ghost use Rattle.scf_compare.specs.internal.Values.{Abstracts, IsValue};

use crate::asking::known_word;
use crate::control_flow::ControlFlow;
use crate::registers::KnownRegisters;
use crate::sources::OpenTest;
use crate::step::{Passed, Step};
use crate::value::{Decision, Value};
use scf_facts::WordFacts;
use scf_insn::{Answer, Operand, Operation, Test};
use scf_machine::{Program, holds_of};

/// The code of a test whether the accumulator equals a constant.
const EQUALS_CONSTANT: u16 = 0x15;

/// An instruction index, or the leaf of a division by 0.
#[derive(Clone, Copy)]
pub(crate) enum FilterNode {
    At(usize),
    Stopped(Answer, usize),
}

/// A leaf of a filter's tree: its answer, if it is known, and the index of the instruction there.
#[derive(Clone, Copy)]
pub(crate) struct FilterLeaf {
    pub(crate) answer: Option<Answer>,
    pub(crate) at: usize,
}

/// The root of a filter's tree, with what is known of the registers there. The open test is of the filters before.
pub(crate) fn start_in_filter(program: &Program, registers: &mut KnownRegisters) -> FilterNode
    ensures node { filter_is_node program.now registers.new result }
    ensures reached { (words : List ℕ) → filter_reaches program.now registers.new result words }
    ensures size { filter_size program.now result ≡ tree_size program.now 0 }
    ensures plain { (masks : ℕ) → IsMaskedProgram masks program.now
        → filter_is_plain program.now registers.new masks result }
{
    let _insns = program.insns();
    registers.restart();
    FilterNode::At(0)
}

/// The step from a node of a filter, and what is known of its registers after it.
#[tactic(auto, using(crate::proofs::ControlFlows::load_fits, crate::proofs::ControlFlows::scratch_fits))]
pub(crate) fn step_in_filter<F: WordFacts>(
    program: &Program,
    facts: &F,
    registers: &mut KnownRegisters,
    node: FilterNode,
) -> Step<FilterNode, FilterLeaf>
    requires { filter_is_node program.now registers.old node }
    ensures { IsStep (leaves_of_filter program.now)
        (λ words. IsWords words × F.allows facts.now (F.level facts.now) words)
        (filter_tree program.now registers.old) node (filter_tree program.now registers.new) result }
{
    match node {
        FilterNode::At(index) => {
            let (insn, operation, control_flow) = ControlFlow::at(program.insns(), index);
            match control_flow {
                ControlFlow::FallThrough(next) => {
                    registers.apply(facts, insn, operation);
                    Step::Next(FilterNode::At(next))
                }
                ControlFlow::Jump(target) => Step::Next(FilterNode::At(target)),
                ControlFlow::ConditionalJump(test, operand, if_true, if_false) => {
                    if if_true == if_false {
                        return Step::Next(FilterNode::At(if_true));
                    }
                    let decision = registers
                        .a
                        .decide(facts, test, registers.operand(operand, insn));
                    registers.note_open(decision);
                    step_by(decision, FilterNode::At(if_true), FilterNode::At(if_false))
                }
                ControlFlow::DivideByIndex(next) => {
                    let decision = registers.x.decide(facts, Test::Equal, Value::Known(0));
                    let stopped = FilterNode::Stopped(Answer(0), index);
                    registers.note_open(decision);
                    registers.apply(facts, insn, operation);
                    step_by(decision, stopped, FilterNode::At(next))
                }
                ControlFlow::ReturnConstant => Step::Leaf(FilterLeaf {
                    answer: Some(Answer(insn.k)),
                    at: index,
                }),
                ControlFlow::ReturnAccumulator => Step::Leaf(FilterLeaf {
                    answer: registers.answer(facts),
                    at: index,
                }),
            }
        }
        FilterNode::Stopped(answer, at) => Step::Leaf(FilterLeaf {
            answer: Some(answer),
            at,
        }),
    }
}

/// Passes jumps, loads of words, and tests against constants while the accumulator is a whole word that the store
/// knows, at most so many.
#[tactic(auto, using(crate::proofs::Steps::passed_on))]
pub(crate) fn pass_in_filter<F: WordFacts>(
    program: &Program,
    facts: &F,
    registers: &mut KnownRegisters,
    node: &mut FilterNode,
    most: u64,
) -> Passed
    requires { filter_is_node program.now registers.old node.old }
    ensures later { IsLaterNode (λ words. IsWords words × F.allows facts.now (F.level facts.now) words)
        (filter_tree program.now registers.old) node.old (filter_tree program.now registers.new) node.new }
    ensures steps { filter_size program.now node.new + result.steps ≤ filter_size program.now node.old }
    ensures most { result.steps ≤ most }
{
    let FilterNode::At(first) = *node else {
        return Passed::NOTHING;
    };
    let (mut steps, mut asked) = (0, 0);
    let mut index = first;
    let mut accumulator = known_accumulator(facts, registers.a);
    while steps < most {
        let Some(number) = accumulator else {
            break;
        };
        let (behind, tests) = pass_equalities(
            program,
            facts,
            registers,
            index,
            number,
            most - steps,
        );
        if tests > 0 {
            index = behind;
            steps += tests;
            asked += tests;
            continue;
        }
        let Some((next, asks)) = pass_at(program, facts, registers, index, number) else {
            break;
        };
        if !asks {
            accumulator = known_accumulator(facts, registers.a);
        }
        index = next;
        steps += 1;
        asked += u64::from(asks);
    }
    *node = FilterNode::At(index);
    Passed { steps, asked }
}

/// Passes tests whether the accumulator, which is this number, equals a constant, at most so many: the index behind
/// them, and how many. Each has two successors, and takes few instructions here: lists of them are long.
fn pass_equalities<F: WordFacts>(
    program: &Program,
    facts: &F,
    registers: &KnownRegisters,
    first: usize,
    number: u32,
    most: u64,
) -> (usize, u64)
    requires node { filter_is_node program.now registers.now (FilterNode.At first) }
    requires number { (words : List ℕ) (x : ℕ) → IsWords words → F.allows facts.now (F.level facts.now) words
        → Abstracts registers.now.a words x → x ≡ number }
    ensures later { IsLaterNode (λ words. IsWords words × F.allows facts.now (F.level facts.now) words)
        (filter_tree program.now registers.now) (FilterNode.At first)
        (filter_tree program.now registers.now) (FilterNode.At result.0) }
    ensures size { tree_size program.now result.0 + result.1 ≤ tree_size program.now first }
    ensures most { result.1 ≤ most }
{
    let _ = facts;
    let _ = registers;
    let insns = program.insns();
    let mut index = first;
    let mut steps = 0;
    while steps < most {
        let insn = insns[index];
        if insn.code != EQUALS_CONSTANT || insn.jt == insn.jf {
            break;
        }
        let offset = if insn.k == number { insn.jt } else { insn.jf };
        index += 1 + usize::from(offset);
        steps += 1;
    }
    (index, steps)
}

/// The index after a jump, a load of a word, or a test of the accumulator, which is this number, against a constant;
/// and whether it is such a test, with two successors.
#[tactic(auto, using(crate::proofs::ControlFlows::load_fits))]
fn pass_at<F: WordFacts>(
    program: &Program,
    facts: &F,
    registers: &mut KnownRegisters,
    index: usize,
    number: u32,
) -> Option<(usize, bool)>
    requires node { filter_is_node program.now registers.old (FilterNode.At index) }
    requires number { (words : List ℕ) (x : ℕ) → IsWords words → F.allows facts.now (F.level facts.now) words
        → Abstracts registers.old.a words x → x ≡ number }
    ensures next { IfSome result (λ next. IsStep (leaves_of_filter program.now)
        (λ words. IsWords words × F.allows facts.now (F.level facts.now) words)
        (filter_tree program.now registers.old) (FilterNode.At index)
        (filter_tree program.now registers.new) (Step.Next (FilterNode.At next.0))) }
    ensures asks { IfSome result (λ next. IsTrue next.1 → registers.new ≡ registers.old) }
    ensures none { IfNone result (registers.new ≡ registers.old) }
{
    let (insn, operation, control_flow) = ControlFlow::at(program.insns(), index);
    match control_flow {
        ControlFlow::Jump(target) => Some((target, false)),
        ControlFlow::FallThrough(next) => match operation {
            Operation::LoadWord => {
                registers.apply(facts, insn, operation);
                Some((next, false))
            }
            _ => None,
        },
        ControlFlow::ConditionalJump(test, operand, if_true, if_false) => {
            let Operand::Constant = operand else {
                return None;
            };
            let asks = if_true != if_false;
            if holds_of(test, number, insn.k) {
                Some((if_true, asks))
            } else {
                Some((if_false, asks))
            }
        }
        _ => None,
    }
}

/// The accumulator, if it is a whole word that the store knows.
#[tactic(auto, using(crate::proofs::Bits::whole_words))]
fn known_accumulator<F: WordFacts>(facts: &F, value: Value) -> Option<u32>
    requires { IsValue value }
    ensures { IfSome result (λ number. (words : List ℕ) (x : ℕ) → IsWords words
        → F.allows facts.now (F.level facts.now) words → Abstracts value words x → x ≡ number) }
{
    match value {
        Value::Slice(bit_slice) if bit_slice.is_whole() => known_word(facts, bit_slice.word),
        _ => None,
    }
}

/// Whether the instruction at a node computes, or tests or returns a computed value.
pub(crate) fn waits_in_filter(
    program: &Program,
    registers: &KnownRegisters,
    node: FilterNode,
) -> bool
    requires { filter_is_node program.now registers.now node }
{
    let FilterNode::At(index) = node else {
        return false;
    };
    let (_, operation, control_flow) = ControlFlow::at(program.insns(), index);
    match control_flow {
        ControlFlow::FallThrough(_) => {
            matches!(operation, Operation::Compute(..) | Operation::Negate)
        }
        ControlFlow::Jump(_) | ControlFlow::ReturnConstant => false,
        ControlFlow::ConditionalJump(_, operand, ..) => {
            operand == Operand::Index || matches!(registers.a, Value::Computed(_))
        }
        ControlFlow::DivideByIndex(_) | ControlFlow::ReturnAccumulator => true,
    }
}

/// The step from a test whose decision is known.
fn step_by(
    decision: Decision,
    if_true: FilterNode,
    if_false: FilterNode,
) -> Step<FilterNode, FilterLeaf>
    ensures { IsStepOf decision if_true if_false result }
{
    match decision {
        Decision::Known(true) => Step::Next(if_true),
        Decision::Known(false) => Step::Next(if_false),
        Decision::Asks(atom, true) => Step::Branch(Some(atom), if_true, if_false),
        Decision::Asks(atom, false) => Step::Branch(Some(atom), if_false, if_true),
        Decision::Open(_) => Step::Branch(None, if_true, if_false),
    }
}
