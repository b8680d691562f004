//! The base of every crate: instructions, call records, answers, the kernel's constants, readers and writers.
#![tactic(auto)]

mod answer;
mod architecture;
mod digits;
mod encoding;
mod input;
mod insn;
pub mod kernel;
mod laws;
mod mask;
mod memory;
mod number;
mod operation;
mod record;
mod stream;

pub use answer::{Action, Answer, Disposition};
pub use architecture::{ARCHITECTURES, Architecture, ArgumentBits};
pub use digits::{digit_byte, write_numeral};
pub use encoding::{ReadFault, read_program, write_program};
pub use input::{InputFault, read_input};
pub use insn::Insn;
pub use laws::{kernel_constants, one_code, one_encoding};
pub use mask::{MaskKind, is_simple_mask, mask_kind};
pub use memory::Memory;
pub use number::{NumeralFault, parse_number, parse_numeral};
pub use operation::{Arithmetic, Operand, Operation, Register, Test};
pub use record::{CallRecord, high_half, low_half};
pub use stream::{Counted, Failed, Sink, Source, WriteFault, write_whole};
