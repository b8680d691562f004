//! Control flow: where an instruction leads.

ghost use Rattle.std.specs.Prelude.{◌≡◌, ◌<◌, length};
ghost use Rattle.scf_compare.specs.Paths.{tree_size};
ghost use Rattle.scf_machine.specs.Rules.{IsValidList, Stands};
ghost use Rattle.scf_compare.specs.internal.ControlFlow.{IsInside, control_flow_at, size_of_flow};

use scf_insn::{Arithmetic, Insn, Operand, Operation, Test};

/// Where an instruction leads, by indices of instructions.
#[derive(Clone, Copy)]
pub(crate) enum ControlFlow {
    /// To the next instruction.
    FallThrough(usize),
    /// To a target.
    Jump(usize),
    /// To the first target if the test holds, else to the second.
    ConditionalJump(Test, Operand, usize, usize),
    /// To the next instruction, or to the answer 0 if the index register is 0.
    DivideByIndex(usize),
    /// To the answer `k`.
    ReturnConstant,
    /// To the answer in the accumulator.
    ReturnAccumulator,
}

impl ControlFlow {
    /// The instruction at an index, its operation, and where it leads.
    #[tactic(auto, using(crate::proofs::ControlFlows::reads))]
    #[inline(always)]
    pub(crate) fn at(insns: &[Insn], index: usize) -> (Insn, Operation, ControlFlow)
        requires index { index < length insns.now }
        requires valid { IsValidList insns.now }
        ensures stands { Stands insns.now index result.0 result.1 }
        ensures control_flow { control_flow_at result.1 result.0 index ≡ result.2 }
        ensures inside { IsInside index (length insns.now) result.2 }
        ensures size { tree_size insns.now index ≡ size_of_flow result.2 (tree_size insns.now) }
    {
        let insn = insns[index];
        match insn.operation() {
            Some(operation) => (
                insn,
                operation,
                ControlFlow::of(insns, index, insn, operation),
            ),
            None => unreachable!(),
        }
    }

    /// Where the instruction with this index and this operation leads.
    fn of(insns: &[Insn], index: usize, insn: Insn, operation: Operation) -> ControlFlow
        requires valid { IsValidList insns.now }
        requires stands { Stands insns.now index insn operation }
        ensures { result ≡ control_flow_at operation insn index }
    {
        let _ = insns;
        match operation {
            Operation::Jump => ControlFlow::Jump(index + 1 + insn.k as usize),
            Operation::JumpIf(test, operand) => ControlFlow::ConditionalJump(
                test,
                operand,
                index + 1 + usize::from(insn.jt),
                index + 1 + usize::from(insn.jf),
            ),
            Operation::ReturnConstant => ControlFlow::ReturnConstant,
            Operation::ReturnAccumulator => ControlFlow::ReturnAccumulator,
            Operation::Compute(Arithmetic::Div, Operand::Index) => ControlFlow::DivideByIndex(
                index + 1,
            ),
            _ => ControlFlow::FallThrough(index + 1),
        }
    }
}
