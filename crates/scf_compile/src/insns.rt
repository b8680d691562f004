//! The instructions of compiled filters (Linux uapi filter.h).

ghost use Rattle.std.specs.Prelude.{◌≡◌, ◌<◌};
ghost use Rattle.scf_insn.specs.Codes.{code_of};
ghost use Rattle.scf_compile.specs.internal.Insns.{load_word, and_with, jump_if, jump_over, return_with};

use scf_insn::{Answer, Arithmetic, Insn, Operand, Operation, Test};

/// The instruction of an operation, with its fields.
fn insn_of(operation: Operation, jt: u8, jf: u8, k: u32) -> Insn
    ensures { result ≡ record { code = code_of operation; jt = jt; jf = jf; k = k } }
{
    let code = operation.code();
    Insn { code, jt, jf, k }
}

/// Loads a word of the record.
pub(crate) fn load_word(word: u8) -> Insn
    requires { word < 16 }
    ensures { result ≡ load_word word }
{
    insn_of(Operation::LoadWord, 0, 0, 4 * u32::from(word))
}

/// `A &= mask`.
pub(crate) fn and_with(mask: u32) -> Insn
    ensures { result ≡ and_with mask }
{
    let and = Operation::Compute(Arithmetic::And, Operand::Constant);
    insn_of(and, 0, 0, mask)
}

/// Skips `hit` instructions if the test of A against a constant holds, else `miss`.
pub(crate) fn jump_if(test: Test, constant: u32, hit: u8, miss: u8) -> Insn
    ensures { result ≡ jump_if test constant hit miss }
{
    let jump = Operation::JumpIf(test, Operand::Constant);
    insn_of(jump, hit, miss, constant)
}

/// Skips `count` instructions.
pub(crate) fn jump_over(count: u32) -> Insn
    ensures { result ≡ jump_over count }
{
    insn_of(Operation::Jump, 0, 0, count)
}

/// Returns an answer.
pub(crate) fn return_with(answer: Answer) -> Insn
    ensures { result ≡ return_with answer.0 }
{
    insn_of(Operation::ReturnConstant, 0, 0, answer.0)
}
