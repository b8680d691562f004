//! Why a text isn't assembled.
ghost use Rattle.std.specs.Prelude.{◌≡◌};
ghost use Rattle.scf_text.specs.declared.fault.TextFault.TheVariants.{Memory};

use std::alloc::AllocFailed;
use thiserror::Error;

/// The first fault of a text, with its line counted from 1, or out of memory.
#[derive(Clone, Copy, Debug, Error)]
pub enum TextFault {
    /// A byte of 0x80 or more stands in the line.
    #[error("line {line}: a byte that is not ASCII")]
    NotAscii { line: usize },
    /// A statement doesn't begin with a mnemonic.
    #[error("line {line}: not a mnemonic")]
    Mnemonic { line: usize },
    /// The operands have none of the mnemonic's formats.
    #[error("line {line}: not the operands of this mnemonic")]
    Operand { line: usize },
    /// A number doesn't fit its field.
    #[error("line {line}: a number that does not fit its field")]
    NumberRange { line: usize },
    /// The label is defined twice, or a jump names an undefined label.
    #[error("line {line}: a label given twice, or not at all")]
    Label { line: usize },
    /// The label of a jump is at or before it, or farther away than its field can say.
    #[error("line {line}: a label that this jump does not reach")]
    JumpTooFar { line: usize },
    /// The line has the instruction behind the 4096 (`BPF_MAXINSNS`) that a filter may have.
    #[error("line {line}: more than 4096 instructions")]
    TooLong { line: usize },
    #[error("out of memory")]
    Memory,
}

impl<T: Drop> From<AllocFailed<T>> for TextFault {
    ghost from_gives = { λ _ e. e ≡ Memory };

    fn from(_: AllocFailed<T>) -> TextFault {
        TextFault::Memory
    }
}
