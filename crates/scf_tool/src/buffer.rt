//! The encoding and the listing of instructions, in memory.

ghost use Rattle.std.specs.Prelude.{◌≡◌, IfOk};
ghost use Rattle.scf_insn.specs.Insn.{program_bytes};
ghost use Rattle.scf_text.specs.Listing.{text_of};

use scf_insn::{Failed, Insn, Memory, Sink, write_program};
use scf_text::disassemble;
use std::alloc::Global;

/// A writer that keeps what is written. A write fails if an allocation fails.
#[derive(Drop)]
struct Buffer {
    bytes: Vec<u8>,
    failures: u64,
}

impl Sink for Buffer {
    ghost use Rattle.std.specs.Prelude.{Some};

    ghost contents = { λ s. Some s.bytes.items };

    ghost failures = { λ s. s.failures };

    fn write(&mut self, bytes: &[u8]) -> Result<usize, Failed> {
        match self.bytes.extend_from_slice(bytes) {
            Ok(()) => Ok(bytes.len()),
            Err(_) => {
                self.failures = self.failures.saturating_add(1);
                Err(Failed)
            }
        }
    }
}

/// The bytes of instructions.
pub fn encoding_of(alloc: Global, insns: &[Insn]) -> Result<Vec<u8>, Memory>
    ensures { IfOk result (λ bytes. bytes.items ≡ program_bytes insns.now) }
{
    let bytes = Vec::new(alloc);
    let mut encoding = Buffer { bytes, failures: 0 };
    write_program(insns, &mut encoding).map_err(|_| Memory)?;
    Ok(encoding.bytes)
}

/// The listing of instructions.
pub fn listing_of(alloc: Global, insns: &[Insn]) -> Result<Vec<u8>, Memory>
    ensures { IfOk result (λ text. text.items ≡ text_of insns.now) }
{
    let bytes = Vec::new(alloc);
    let mut listing = Buffer { bytes, failures: 0 };
    disassemble(insns, &mut listing).map_err(|_| Memory)?;
    Ok(listing.bytes)
}
