//! Whole inputs, up to a limit.

ghost use Rattle.std.specs.Prelude.{◌≡◌, ◌≢◌, ◌+◌, Err, OnOk, IfSome};
ghost use Rattle.std.specs.Io.KnownBytes.{IsAtEnd};
ghost use Rattle.scf_insn.specs.Streams.{GivesAtMost, GivesSome, HasFailed};
ghost use Rattle.scf_insn.specs.Readings.{IsInput, read_len};

use crate::stream::Source;
use std::alloc::Global;
use thiserror::Error;

/// Why an input wasn't read.
#[derive(Clone, Copy, Debug, Error)]
pub enum InputFault {
    #[error("the input can't be read")]
    Read,
    #[error("the input is too long")]
    TooLong,
    #[error("out of memory")]
    Memory,
}

/// How many bytes are read at a time.
const CHUNK: usize = 4096;

/// Reads a source to its end: at most `limit` bytes.
///
/// `Read` comes only if the source failed during the call, `TooLong` only if a byte behind the limit came.
pub fn read_input<S: Source>(
    alloc: Global,
    source: &mut S,
    limit: usize,
) -> Result<Vec<u8>, InputFault>
    ensures input { IfSome (S.remaining source.old) (λ bytes. IsInput (λ v. v.items) limit bytes result) }
    // The source came to its end.
    ensures whole { OnOk result (IsAtEnd (S.remaining source.new)) }
    // An error comes when it happens first.
    ensures early { result ≢ Err InputFault.TooLong
        → GivesAtMost limit (S.remaining source.old) (S.remaining source.new) }
    // Once a byte behind the limit came, nothing more is read.
    ensures past { result ≡ Err InputFault.TooLong
        → GivesAtMost (limit + read_len) (S.remaining source.old) (S.remaining source.new) }
    // Nothing is allocated before the first byte.
    ensures wanted { result ≡ Err InputFault.Memory → GivesSome (S.remaining source.old) (S.remaining source.new) }
    ensures no_failure { result ≢ Err InputFault.Read → S.failures source.new ≡ S.failures source.old }
    ensures failure { result ≡ Err InputFault.Read → HasFailed (S.failures source.old) (S.failures source.new) }
{
    let mut bytes = Vec::new(alloc);
    let mut chunk = [0; CHUNK];
    'chunks: loop {
        let Ok(count) = source.read(&mut chunk) else {
            return Err(InputFault::Read);
        };
        if count == 0 {
            return Ok(bytes);
        }
        if count > limit - bytes.len() {
            return Err(InputFault::TooLong);
        }
        if bytes.extend_from_slice(&chunk[..count]).is_err() {
            return Err(InputFault::Memory);
        }
    }
}
