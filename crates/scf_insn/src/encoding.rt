//! Filter files: instructions of 8 bytes, one after another (Linux uapi filter.h).

ghost use Rattle.std.specs.Prelude.{◌≡◌, ◌≢◌, ◌+◌, ◌%◌, [], Err, length, IfErr, IfOk, OnOk, OnErr, IfSome};
ghost use Rattle.std.specs.Io.KnownBytes.{IsAtEnd};
ghost use Rattle.std.specs.List.{AllByRecursion};
ghost use Rattle.scf_insn.specs.Insn.{IsInsn, program_bytes};
ghost use Rattle.scf_insn.specs.Kernel.{max_filter_len, sock_filter_len};
ghost use Rattle.scf_insn.specs.Streams.{GivesAtMost, GivesSome, HasFailed, Writes};
ghost use Rattle.scf_insn.specs.Readings.{IsReading, read_len};

use crate::input::{InputFault, read_input};
use crate::insn::Insn;
use crate::kernel::{MAX_FILTER_LEN, SOCK_FILTER_LEN};
use crate::stream::{Sink, Source, WriteFault, write_whole};
use std::alloc::Global;
use thiserror::Error;

/// Why a filter file wasn't read.
#[derive(Clone, Copy, Debug, Error)]
pub enum ReadFault {
    #[error("the input can't be read")]
    Read,
    #[error("the instruction at byte {offset} is cut")]
    Truncated { offset: usize },
    #[error("the input has more than 32768 bytes")]
    TooLong,
    #[error("out of memory")]
    Memory,
}

/// The instructions with these bytes.
fn decode(alloc: Global, bytes: &[u8]) -> Result<Vec<Insn>, ReadFault>
    requires { length bytes.now % sock_filter_len ≡ 0 }
    ensures bytes { IfOk result (λ v. bytes.now ≡ program_bytes v.items) }
    ensures widths { IfOk result (λ v. AllByRecursion IsInsn v.items) }
    ensures memory { IfErr result (λ fault. fault ≡ ReadFault.Memory) }
    ensures wanted { OnErr result (bytes.now ≢ []) }
{
    let mut insns = Vec::new(alloc);
    let mut remaining = bytes;
    while let Some((first, behind)) = remaining.split_first_chunk() {
        let insn = Insn::from_bytes(*first);
        insn.within_widths();
        if insns.push(insn).is_err() {
            return Err(ReadFault::Memory);
        }
        remaining = behind;
    }
    Ok(insns)
}

/// Reads a filter file to its end, however the source splits it: at most 4096 instructions, unchecked.
///
/// `Truncated` has the offset of the instruction that is cut. `Read` comes if the source failed, `Memory` if an
/// allocation failed, `TooLong` if a byte behind 32768 came.
pub fn read_program<S: Source>(alloc: Global, source: &mut S) -> Result<Vec<Insn>, ReadFault>
    // The fields of each instruction are within their widths.
    ensures widths { IfOk result (λ insns. AllByRecursion IsInsn insns.items) }
    ensures reading { IfSome (S.remaining source.old) (λ bytes. IsReading (λ v. v.items) bytes result) }
    // The source came to its end.
    ensures whole { OnOk result (IsAtEnd (S.remaining source.new)) }
    // An error comes when it happens first.
    ensures early { result ≢ Err ReadFault.TooLong
        → GivesAtMost max_filter_len (S.remaining source.old) (S.remaining source.new) }
    // Once a byte behind the limit came, nothing more is read.
    ensures past { result ≡ Err ReadFault.TooLong
        → GivesAtMost (max_filter_len + read_len) (S.remaining source.old) (S.remaining source.new) }
    // Nothing is allocated before the first byte.
    ensures wanted { result ≡ Err ReadFault.Memory → GivesSome (S.remaining source.old) (S.remaining source.new) }
    ensures no_failure { result ≢ Err ReadFault.Read → S.failures source.new ≡ S.failures source.old }
    ensures failure { result ≡ Err ReadFault.Read → HasFailed (S.failures source.old) (S.failures source.new) }
{
    let bytes = match read_input(alloc, source, MAX_FILTER_LEN) {
        Ok(bytes) => bytes,
        Err(InputFault::Read) => return Err(ReadFault::Read),
        Err(InputFault::TooLong) => return Err(ReadFault::TooLong),
        Err(InputFault::Memory) => return Err(ReadFault::Memory),
    };
    let cut = bytes.len() % SOCK_FILTER_LEN;
    if cut != 0 {
        let offset = bytes.len() - cut;
        return Err(ReadFault::Truncated { offset });
    }
    decode(alloc, &bytes)
}

/// Writes the bytes of instructions; or a prefix of them, if writing fails.
pub fn write_program<S: Sink>(insns: &[Insn], sink: &mut S) -> Result<(), WriteFault>
    ensures { Writes S.contents S.failures sink.old (program_bytes insns.now) result sink.new }
{
    for insn in insns {
        write_whole(sink, &insn.to_bytes())?;
    }
    Ok(())
}
