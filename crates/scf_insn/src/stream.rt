//! Readers and writers that count their failures.

ghost use Rattle.std.specs.Prelude.{◌≡◌, ◌<◌, ◌≤◌, ℕ, List, Option, None, length, IfOk, OnOk, OnErr};
ghost use Rattle.std.specs.Io.KnownBytes.{ReadConsumes, WriteAppends};
ghost use Rattle.scf_insn.specs.Streams.{HasFailed, Writes};

use std::io::{Read, Write};
use thiserror::Error;

/// A read or a write failed: the failure count of its reader or writer went up.
#[derive(Clone, Copy, Debug, Error)]
#[error("a read or a write failed")]
pub struct Failed;

/// A reader.
pub trait Source {
    /// The bytes still to come, if they are known.
    ghost remaining: { Self → Option (List ℕ) } = { λ _. None };

    /// How many reads have failed; the count stays at 2^64-1.
    ghost failures: { Self → ℕ };

    /// Reads bytes into the buffer and returns their count. 0 means the end, or an empty buffer.
    fn read(&mut self, buffer: &mut [u8]) -> Result<usize, Failed>
        ensures bound { IfOk result (λ n. n ≤ length buffer.new) }
        ensures bytes { ReadConsumes (remaining self.old) (remaining self.new) result buffer.new }
        ensures ok { OnOk result (failures self.new ≡ failures self.old) }
        ensures err { OnErr result (HasFailed (failures self.old) (failures self.new)) };
}

/// A writer.
pub trait Sink {
    /// The bytes written so far, if they are known.
    ghost contents: { Self → Option (List ℕ) } = { λ _. None };

    /// How many writes have failed; the count stays at 2^64-1.
    ghost failures: { Self → ℕ };

    /// Writes a prefix of the bytes and returns its length, at least 1 unless there are none.
    fn write(&mut self, bytes: &[u8]) -> Result<usize, Failed>
        ensures bound { IfOk result (λ n. n ≤ length bytes.now) }
        ensures some { IfOk result (λ n. 0 < length bytes.now → 0 < n) }
        ensures bytes { WriteAppends (contents self.old) (contents self.new) result bytes.now }
        ensures ok { OnOk result (failures self.new ≡ failures self.old) }
        ensures err { OnErr result (HasFailed (failures self.old) (failures self.new)) };
}

/// Why bytes weren't written.
#[derive(Clone, Copy, Debug, Error)]
pub enum WriteFault {
    #[error("the output can't be written")]
    Write,
}

/// Writes all bytes; or a prefix of them, if writing fails.
#[tactic(auto, using(std::proofs::lemmas::Grind::common_steps, crate::proofs::Written::takes_more))]
pub fn write_whole<S: Sink>(sink: &mut S, bytes: &[u8]) -> Result<(), WriteFault>
    ensures { Writes S.contents S.failures sink.old bytes.now result sink.new }
{
    let mut remaining = bytes;
    while !remaining.is_empty() {
        match sink.write(remaining) {
            Ok(count) => remaining = &remaining[count..],
            Err(_) => return Err(WriteFault::Write),
        }
    }
    Ok(())
}

/// A reader or writer of std with a count of its failures.
///
/// Each error adds one to the count, also an interruption, and a write that accepts no byte. A call uses the inner
/// reader or writer once: errors aren't retried.
#[derive(Drop)]
pub struct Counted<T> {
    inner: T,
    failures: u64,
}

impl<T> Counted<T> {
    ghost use Rattle.scf_insn.specs.Counted.{inner_of, failures_of};

    /// Wraps a reader or writer; the count is 0.
    pub fn new(inner: T) -> Counted<T>
        ensures inner { inner_of result ≡ inner }
        ensures failures { failures_of result ≡ 0 }
    {
        Counted { inner, failures: 0 }
    }

    /// How many reads or writes have failed; the count stays at 2^64-1.
    pub fn failures(&self) -> u64
        ensures { result ≡ failures_of self.now }
    {
        self.failures
    }
}

impl<R: Read> Source for Counted<R> {
    ghost use Rattle.scf_insn.specs.Counted.{inner_of, failures_of};

    ghost remaining = { λ s. R.remaining (inner_of s) };

    ghost failures = { λ s. failures_of s };

    fn read(&mut self, buffer: &mut [u8]) -> Result<usize, Failed> {
        match self.inner.read(buffer) {
            Ok(count) => Ok(count),
            Err(_) => {
                self.failures = self.failures.saturating_add(1);
                Err(Failed)
            }
        }
    }
}

impl<W: Write> Sink for Counted<W> {
    ghost use Rattle.scf_insn.specs.Counted.{inner_of, failures_of};

    ghost contents = { λ s. W.contents (inner_of s) };

    ghost failures = { λ s. failures_of s };

    fn write(&mut self, bytes: &[u8]) -> Result<usize, Failed> {
        match self.inner.write(bytes) {
            Ok(count) if count > 0 || bytes.is_empty() => Ok(count),
            _ => {
                self.failures = self.failures.saturating_add(1);
                Err(Failed)
            }
        }
    }
}
