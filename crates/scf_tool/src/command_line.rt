//! Replies to arguments that name no command to run.

ghost use Rattle.std.specs.Prelude.{◌≡◌, ◌≢◌};
ghost use Rattle.std.specs.IoError.{error_kind};
ghost use Rattle.clap.specs.Words.{kind_of};
ghost use Rattle.scf_tool.specs.Faults.{printed_fault};
ghost use Rattle.scf_tool.specs.declared.fault.Fault.TheVariants as faults;
ghost use Rattle.scf_tool.specs.Runs.{Prints, printed_of_no_utf8};
ghost use Rattle.scf_tool.specs.internal.Explaining.{Explains};

use crate::fault::Fault;
use crate::reply::Reply;
use crate::status::Status;
use clap::Error;
use clap::error::ErrorKind;
use scf_insn::{Sink, write_whole};
use std::alloc::Global;
use std::io;
use std::io::ErrorKind as IoErrorKind;

/// The line printed if an argument isn't UTF-8.
const NOT_UTF8: &[u8] = b"error: invalid UTF-8 was detected in one or more arguments\n";

/// The line printed if memory runs out before any input is read.
const NO_MEMORY: &[u8] = b"fault command Memory\n";

/// The reply to arguments that name no command to run: help, the version, or a usage error.
pub(crate) fn explain(alloc: Global, error: &Error) -> Result<Reply, Fault>
    ensures { Explains (kind_of error.now) result }
{
    if error.kind() == ErrorKind::OutOfMemory {
        return Err(Fault::CommandLine);
    }
    let status = if error.use_stderr() {
        Status::CommandLine
    } else {
        Status::Success
    };
    let text = format!(in alloc; "{error}").map_err(|_| Fault::CommandLine)?;
    Ok(Reply::CommandLine { text, status })
}

/// Prints that memory ran out before any input was read. Returns the exit status.
pub(crate) fn report_out_of_memory<W: Sink>(out: &mut W) -> u8
    ensures { Prints W.contents W.failures out.old (printed_fault faults.CommandLine) result out.new }
{
    let _written = write_whole(out, NO_MEMORY);
    Status::Failed.code()
}

/// Prints why the program's arguments can't be collected. Returns the exit status: 2 if one isn't UTF-8, 3 if memory
/// ran out or writing failed.
pub fn report_usage_error<W: Sink>(error: &io::Error, out: &mut W) -> u8
    ensures not_utf8 { error_kind error.now ≡ IoErrorKind.InvalidData
        → Prints W.contents W.failures out.old printed_of_no_utf8 result out.new }
    ensures memory { error_kind error.now ≢ IoErrorKind.InvalidData
        → Prints W.contents W.failures out.old (printed_fault faults.CommandLine) result out.new }
{
    match error.kind() {
        IoErrorKind::InvalidData => match write_whole(out, NOT_UTF8) {
            Ok(()) => Status::CommandLine.code(),
            Err(_) => Status::Failed.code(),
        },
        _ => report_out_of_memory(out),
    }
}
