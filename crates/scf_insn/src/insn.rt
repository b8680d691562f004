//! One instruction (Linux uapi filter.h, struct sock_filter).

ghost use Rattle.std.specs.Prelude.{◌≡◌};
ghost use Rattle.scf_insn.specs.Insn.{IsInsn, insn_bytes};
ghost use Rattle.scf_insn.specs.Codes.{operation_of};

use crate::operation::{Arithmetic, Operand, Operation, Register, Test};

/// An instruction, checked or not: `code` (16 bits), the jump offsets `jt` and `jf` (8 bits, counted from the next
/// instruction) and `k` (32 bits).
#[derive(Clone, Copy, PartialEq, Eq)]
pub struct Insn {
    pub code: u16,
    pub jt: u8,
    pub jf: u8,
    pub k: u32,
}

impl Insn {
    /// A law for proofs: each field is within its width. Does nothing.
    pub fn within_widths(&self)
        ensures { IsInsn self.now }
    {
        let (_code, _jt, _jf, _k) = (self.code, self.jt, self.jf, self.k);
    }

    /// Decodes 8 bytes, numbers little-endian.
    pub fn from_bytes(bytes: [u8; 8]) -> Insn
        ensures { insn_bytes result ≡ bytes }
    {
        let [code_low, code_high, jt, jf, k0, k1, k2, k3] = bytes;
        Insn {
            code: u16::from_le_bytes([code_low, code_high]),
            jt,
            jf,
            k: u32::from_le_bytes([k0, k1, k2, k3]),
        }
    }

    /// Encodes it in 8 bytes, numbers little-endian.
    pub fn to_bytes(&self) -> [u8; 8]
        ensures { result ≡ insn_bytes self.now }
    {
        let [code_low, code_high] = self.code.to_le_bytes();
        let [k0, k1, k2, k3] = self.k.to_le_bytes();
        [code_low, code_high, self.jt, self.jf, k0, k1, k2, k3]
    }

    /// The operation of its code, or `None` if the code isn't one of the 41 that seccomp accepts.
    ///
    /// Inlined, so that a code leads straight to the arm of its operation.
    #[tactic(auto, unfolding(crate::specs::Codes::operation_of))]
    #[inline(always)]
    pub fn operation(&self) -> Option<Operation>
        ensures { result ≡ operation_of self.now.code }
    {
        let operation = match self.code {
            0x20 => Operation::LoadWord,
            0x80 => Operation::LoadLength(Register::A),
            0x81 => Operation::LoadLength(Register::X),
            0x00 => Operation::LoadConstant(Register::A),
            0x01 => Operation::LoadConstant(Register::X),
            0x60 => Operation::LoadScratch(Register::A),
            0x61 => Operation::LoadScratch(Register::X),
            0x02 => Operation::StoreScratch(Register::A),
            0x03 => Operation::StoreScratch(Register::X),
            0x04 => Operation::Compute(Arithmetic::Add, Operand::Constant),
            0x0c => Operation::Compute(Arithmetic::Add, Operand::Index),
            0x14 => Operation::Compute(Arithmetic::Sub, Operand::Constant),
            0x1c => Operation::Compute(Arithmetic::Sub, Operand::Index),
            0x24 => Operation::Compute(Arithmetic::Mul, Operand::Constant),
            0x2c => Operation::Compute(Arithmetic::Mul, Operand::Index),
            0x34 => Operation::Compute(Arithmetic::Div, Operand::Constant),
            0x3c => Operation::Compute(Arithmetic::Div, Operand::Index),
            0x44 => Operation::Compute(Arithmetic::Or, Operand::Constant),
            0x4c => Operation::Compute(Arithmetic::Or, Operand::Index),
            0x54 => Operation::Compute(Arithmetic::And, Operand::Constant),
            0x5c => Operation::Compute(Arithmetic::And, Operand::Index),
            0x64 => Operation::Compute(Arithmetic::Lsh, Operand::Constant),
            0x6c => Operation::Compute(Arithmetic::Lsh, Operand::Index),
            0x74 => Operation::Compute(Arithmetic::Rsh, Operand::Constant),
            0x7c => Operation::Compute(Arithmetic::Rsh, Operand::Index),
            0xa4 => Operation::Compute(Arithmetic::Xor, Operand::Constant),
            0xac => Operation::Compute(Arithmetic::Xor, Operand::Index),
            0x84 => Operation::Negate,
            0x05 => Operation::Jump,
            0x15 => Operation::JumpIf(Test::Equal, Operand::Constant),
            0x1d => Operation::JumpIf(Test::Equal, Operand::Index),
            0x25 => Operation::JumpIf(Test::Greater, Operand::Constant),
            0x2d => Operation::JumpIf(Test::Greater, Operand::Index),
            0x35 => Operation::JumpIf(Test::GreaterOrEqual, Operand::Constant),
            0x3d => Operation::JumpIf(Test::GreaterOrEqual, Operand::Index),
            0x45 => Operation::JumpIf(Test::CommonBit, Operand::Constant),
            0x4d => Operation::JumpIf(Test::CommonBit, Operand::Index),
            0x06 => Operation::ReturnConstant,
            0x16 => Operation::ReturnAccumulator,
            0x07 => Operation::CopyToIndex,
            0x87 => Operation::CopyToAccumulator,
            _ => return None,
        };
        Some(operation)
    }
}
