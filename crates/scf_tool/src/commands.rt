//! The program's commands.

ghost use Rattle.std.specs.Prelude.{◌≡◌, ◌⊎◌, map, Ok, Err, IfErr, IfOk, OnOk};
ghost use Rattle.scf_tool.specs.Commands.{EndsOnBytes, IsTrueOf, max_input_len};
ghost use Rattle.scf_tool.specs.Runs.{IsAnswered, IsRunOfProgram, SpeaksOfWords};
ghost use Rattle.scf_tool.specs.Statuses.{LeavesInput};
ghost use Rattle.scf_tool.specs.Verifying.{HasEnded, HasFailedWhere, ReadsUnder};

mod bundle;
mod compare;
mod decide;
mod filter;
mod profile;
mod text;

use crate::command_line::{explain, report_out_of_memory};
use crate::fault::Fault;
use crate::reply::{LINE_ROOM, Reply, printed};
use crate::status::Status;
use bundle::answer_bundle;
use filter::{check_filter, list_filter, run_filter, trace_filter};
use scf_insn::{InputFault, Sink, Source, read_input, write_whole};
use scf_request::{Command, Request, parse, request_of};
use std::alloc::Global;
use std::convert::AsStr;
use text::assemble_text;

/// The most bytes of standard input, unless it is one filter.
const MAX_INPUT: usize = 16_777_216;

/// Reads all of standard input, unless it is one filter.
fn whole_input<R: Source>(alloc: Global, input: &mut R) -> Result<Vec<u8>, InputFault>
    ensures read { IfOk result (λ bytes. ReadsUnder max_input_len (R.remaining input.old) (Ok bytes.items)) }
    ensures ended { OnOk result (HasEnded R.remaining R.failures input.old input.new) }
    ensures fault { IfErr result (λ fault. ReadsUnder max_input_len (R.remaining input.old) (Err fault)) }
    ensures failed { IfErr result (λ fault.
        HasFailedWhere (fault ≡ InputFault.Read) R.failures input.old input.new) }
{
    read_input(alloc, input, MAX_INPUT)
}

/// Runs a request on all of standard input.
fn answer_bytes(alloc: Global, request: &Request, bytes: &[u8]) -> Result<Reply, Fault>
    ensures { EndsOnBytes request.now.reading request.now.form request.now.command bytes.now result }
{
    match &request.command {
        Command::Assemble => assemble_text(alloc, bytes),
        _ => answer_bundle(alloc, request, bytes),
    }
}

/// Runs a request on standard input, of which the commands on one filter read no more than that.
fn answer<R: Source>(alloc: Global, request: &Request, input: &mut R) -> Result<Reply, Fault>
    ensures answer { IsTrueOf request.now.reading request.now.form request.now.command (R.remaining input.old) result }
    ensures input { LeavesInput request.now.command R.remaining R.failures input.old result input.new }
{
    match &request.command {
        Command::Check => check_filter(alloc, input),
        Command::List => list_filter(alloc, input),
        Command::Run { call, has_path } => {
            if *has_path {
                trace_filter(alloc, call, input)
            } else {
                run_filter(alloc, call, input)
            }
        }
        _ => {
            let bytes = whole_input(alloc, input)?;
            answer_bytes(alloc, request, &bytes)
        }
    }
}

/// Parses the arguments and runs their request. Everything that allocates is done when it returns.
fn ending_of<T: AsStr, R: Source>(alloc: Global, words: &[T], input: &mut R) -> Result<Reply, Fault>
    ensures { (SpeaksOfWords (map T.text words.now) result × (input.new ≡ input.old))
        ⊎ IsAnswered (map T.text words.now) R.remaining R.failures input.old result input.new }
{
    match parse(alloc, words) {
        Ok(matches) => answer(alloc, &request_of(&matches)?, input),
        Err(error) => explain(alloc, &error),
    }
}

/// One run of the program on its arguments, of which the first is its name. Returns the exit status: 0 for success, 1
/// if a filter, a text, a table, a profile or a stack is refused, the compiled filter would be too large or a filter
/// answers otherwise than a profile, 2 for a usage error, 3 if the input can't be read, the output can't be written or
/// memory runs out, 4 if a comparison leaves open whether the answers differ, or a walk over all answers is
/// unfinished.
///
/// Where the output fails, a beginning of the text was written, and nothing more is.
pub fn run_command<T: AsStr, R: Source, W: Sink>(
    alloc: Global,
    words: &[T],
    input: &mut R,
    out: &mut W,
) -> u8
    ensures { IsRunOfProgram (map T.text words.now)
        R.remaining R.failures input.old input.new
        W.contents W.failures out.old out.new
        result }
{
    let Ok(line) = String::with_capacity(alloc, LINE_ROOM) else {
        return report_out_of_memory(out);
    };
    let ending = ending_of(alloc, words, input);
    let Ok((status, text)) = printed(ending, line) else {
        return report_out_of_memory(out);
    };
    match write_whole(out, &text) {
        Ok(()) => status.code(),
        Err(_) => Status::Failed.code(),
    }
}
