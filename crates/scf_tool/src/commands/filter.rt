//! Commands on one filter.

ghost use Rattle.std.specs.Prelude.{◌≡◌, ℕ, List, IfOk, false, true};
ghost use Rattle.scf_insn.specs.Words.{words_of};
ghost use Rattle.scf_machine.specs.Path.{IsPathOf};
ghost use Rattle.scf_tool.specs.Commands.{EndsOnFilter};
ghost use Rattle.scf_request.specs.declared.request.Command.TheVariants as commands;
ghost use Rattle.scf_tool.specs.Lines.{traced_text};
ghost use Rattle.scf_tool.specs.Statuses.{LeavesFilter};

use crate::buffer::listing_of;
use crate::fault::Fault;
use crate::filter::read_filter;
use crate::lines::TraceLines;
use crate::reply::Reply;
use crate::verify_fault::VerifyFault;
use scf_insn::{CallRecord, Memory, ReadFault, Source, read_program};
use scf_machine::{Program, run, trace};
use std::alloc::Global;

/// `check`: whether a filter is accepted.
pub(super) fn check_filter<R: Source>(alloc: Global, input: &mut R) -> Result<Reply, Fault>
    ensures answer { EndsOnFilter commands.Check (R.remaining input.old) result }
    ensures input { LeavesFilter R.remaining R.failures input.old result input.new }
{
    let program = read_filter(alloc, input)?;
    Ok(Reply::Accepted(program.len()))
}

/// `run`: what a filter answers to a call.
pub(super) fn run_filter<R: Source>(
    alloc: Global,
    call: &CallRecord,
    input: &mut R,
) -> Result<Reply, Fault>
    ensures answer { EndsOnFilter (commands.Run call.now false) (R.remaining input.old) result }
    ensures input { LeavesFilter R.remaining R.failures input.old result input.new }
{
    let program = read_filter(alloc, input)?;
    Ok(Reply::Ran(run(&program, call)))
}

/// Memory ran out for what is printed of a filter.
const NO_MEMORY: VerifyFault = VerifyFault::FilterRead(ReadFault::Memory);

/// The lines of a filter's run on a call and its way.
fn traced(alloc: Global, program: &Program, call: &CallRecord) -> Result<Vec<u8>, Memory>
    ensures { IfOk result (λ text. (answer : ℕ) × (indices : List ℕ)
        × IsPathOf program.now (words_of call.now) answer indices × (text.items ≡ traced_text answer indices)) }
{
    let trace = trace(alloc, program, call)?;
    Ok(format!(in alloc; "{}", TraceLines(&trace))?.into_bytes())
}

/// `run --path`: what a filter answers to a call, and the instructions on the way.
pub(super) fn trace_filter<R: Source>(
    alloc: Global,
    call: &CallRecord,
    input: &mut R,
) -> Result<Reply, Fault>
    ensures answer { EndsOnFilter (commands.Run call.now true) (R.remaining input.old) result }
    ensures input { LeavesFilter R.remaining R.failures input.old result input.new }
{
    let program = read_filter(alloc, input)?;
    Ok(Reply::Bytes(traced(alloc, &program, call).map_err(|_| NO_MEMORY)?))
}

/// `dis`: the listing of a filter, which isn't checked.
pub(super) fn list_filter<R: Source>(alloc: Global, input: &mut R) -> Result<Reply, Fault>
    ensures answer { EndsOnFilter commands.List (R.remaining input.old) result }
    ensures input { LeavesFilter R.remaining R.failures input.old result input.new }
{
    let insns = read_program(alloc, input).map_err(VerifyFault::FilterRead)?;
    Ok(Reply::Bytes(listing_of(alloc, &insns).map_err(|_| NO_MEMORY)?))
}
