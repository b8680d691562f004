//! Plain programs.

ghost use Rattle.std.specs.Prelude.{◌↔◌, IsTrue};
ghost use Rattle.scf_machine.specs.Plain.{IsPlainProgram, IsPlainInsn};

use scf_insn::{Insn, Operand, Operation, Test, is_simple_mask};
use scf_machine::Program;

/// Whether a program only loads words of the record, compares them with constants, tests them by masks that have no
/// bit, one bit or all of the 32, jumps, and returns constants.
pub fn is_plain(program: &Program) -> bool
    ensures { IsTrue result ↔ IsPlainProgram program.now }
{
    program.insns().iter().all(|insn| is_plain_insn(*insn))
}

fn is_plain_insn(insn: Insn) -> bool
    ensures { IsTrue result ↔ IsPlainInsn insn }
{
    match insn.operation() {
        Some(Operation::LoadWord | Operation::Jump | Operation::ReturnConstant) => true,
        Some(Operation::JumpIf(test, Operand::Constant)) => {
            test != Test::CommonBit || is_simple_mask(insn.k)
        }
        _ => false,
    }
}
