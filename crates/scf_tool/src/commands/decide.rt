//! Commands on a stack of filters.

ghost use Rattle.std.specs.Prelude.{◌≡◌, ◌++◌, ℕ, List, string_bytes, IfOk};
ghost use Rattle.std.specs.List.{AllZip, flat_map};
ghost use Rattle.scf_insn.specs.Words.{words_of};
ghost use Rattle.scf_machine.specs.Path.{IsPathOf};
ghost use Rattle.scf_machine.specs.Precedence.{IsDecidedBy};
ghost use Rattle.scf_request.specs.declared.request.Command.TheVariants as commands;
ghost use Rattle.scf_tool.specs.Commands.{RepliesTo};
ghost use Rattle.scf_tool.specs.Lines.{decision_text, traced_text};
ghost use Rattle.scf_tool.specs.internal.ShownRuns.{ShowsRuns};

use crate::fault::Fault;
use crate::lines::{DecisionLine, TraceLines};
use crate::reply::Reply;
use crate::sides::{SideInput, SidesInput};
use scf_insn::{CallRecord, Memory};
use scf_machine::{Decision, FilterStack, Program, trace};
use scf_request::Detail;
use std::alloc::Global;

/// Adds the lines of a filter's run on a call and its path.
fn add_run(
    alloc: Global,
    text: &mut String,
    filter: &Program,
    call: &CallRecord,
) -> Result<(), Memory>
    ensures { IfOk result (λ _. (answer : ℕ) × (indices : List ℕ)
        × IsPathOf filter.now (words_of call.now) answer indices
        × (string_bytes text.new ≡ string_bytes text.old ++ traced_text answer indices)) }
{
    let trace = trace(alloc, filter, call)?;
    text.write(TraceLines(&trace))?;
    Ok(())
}

/// Adds the lines of the runs of filters on a call and their paths.
fn add_runs(
    alloc: Global,
    text: &mut String,
    filters: &[Program],
    call: &CallRecord,
) -> Result<(), Memory>
    ensures { IfOk result (λ _. (runs : List ℕ) × ShowsRuns filters.now (words_of call.now) runs
        × (string_bytes text.new ≡ string_bytes text.old ++ runs)) }
{
    for filter in filters {
        add_run(alloc, text, filter, call)?;
    }
    Ok(())
}

/// The lines of the answer of a stack to a call, of what gives it, and of the runs of its filters.
fn lines_of_runs(alloc: Global, stack: &FilterStack, call: &CallRecord) -> Result<Vec<u8>, Memory>
    ensures { IfOk result (λ text. (decision : Decision)
        × IsDecidedBy stack.now (words_of call.now) decision.by decision.answer.0
        × (runs : List (ℕ × List ℕ))
        × AllZip (λ filter run. IsPathOf filter (words_of call.now) run.0 run.1) stack.now runs
        × (text.items ≡ decision_text decision.by decision.answer.0
        ++ flat_map (λ run. traced_text run.0 run.1) runs)) }
{
    let mut text = format!(in alloc; "{}", DecisionLine(stack.decision(call)))?;
    add_runs(alloc, &mut text, stack.filters(), call)?;
    Ok(text.into_bytes())
}

/// `decide`: what a stack of filters answers to a call, in the detail that is asked for.
pub(super) fn decide(
    alloc: Global,
    sides: &SidesInput,
    call: &CallRecord,
    detail: Detail,
) -> Result<Reply, Fault>
    ensures { RepliesTo (commands.Decide call.now detail) sides.now result }
{
    let SideInput::Stack(stack) = &sides.left else {
        return Err(Fault::Parts);
    };
    match detail {
        Detail::Answer => Ok(Reply::Decided(stack.decide(call))),
        Detail::Instruction => Ok(Reply::DecidedBy(stack.decision(call))),
        Detail::Paths => Ok(Reply::Bytes(lines_of_runs(alloc, stack, call)?)),
    }
}
