//! Reads stacks of filters.

ghost use Rattle.std.specs.Prelude.{List, Ok, map, Some, IfOk, IfErr, OnOk};
ghost use Rattle.scf_insn.specs.declared.insn.Insn.{Insn};
ghost use Rattle.scf_machine.specs.Stack.{IsPush};
ghost use Rattle.scf_tool.specs.FilterStacks.{HasStack, HasNoStack, HaveEnded, HaveStopped, IsNotPushed, NoReadFailed};
ghost use Rattle.scf_tool.specs.Verifying.{HasEnded, IsAcceptedFilter, LeavesFilterReader};
ghost use Rattle.scf_request.specs.Contents.{rest_of};

use crate::filter::read_filter;
use crate::verify_fault::VerifyFault;
use scf_insn::Source;
use scf_machine::FilterStack;
use scf_request::PartReader;
use std::alloc::Global;

/// Reads a filter and pushes it.
fn push_filter<R: Source>(
    alloc: Global,
    stack: &mut FilterStack,
    reader: &mut R,
) -> Result<(), VerifyFault>
    ensures pushed { OnOk result ((insns : List Insn) × IsAcceptedFilter (R.remaining reader.old) insns
        × IsPush stack.old insns (Ok tt) stack.new) }
    ensures ended { OnOk result (HasEnded R.remaining R.failures reader.old reader.new) }
    ensures refused { IfErr result (IsNotPushed stack.old (R.remaining reader.old)) }
    ensures reader { LeavesFilterReader R.remaining R.failures reader.old result reader.new }
{
    let program = read_filter(alloc, reader)?;
    stack
        .push(program)
        .map_err(|(fault, _)| VerifyFault::Stack(fault))
}

/// Reads a stack of filters, the oldest first. Each is read, checked and pushed before the next; the error is the first
/// fault.
pub fn read_stack<R: Source>(alloc: Global, readers: &mut [R]) -> Result<FilterStack, VerifyFault>
    ensures stack { IfOk result (HasStack (map R.remaining readers.old)) }
    ensures refused { IfErr result (HasNoStack (map R.remaining readers.old)) }
    ensures ended { OnOk result (HaveEnded R.remaining R.failures readers.old readers.new) }
    ensures stopped { IfErr result (λ fault. HaveStopped R.remaining R.failures fault readers.old readers.new) }
{
    let mut stack = FilterStack::new(alloc);
    for reader in readers.iter_mut() {
        push_filter(alloc, &mut stack, reader)?;
    }
    Ok(stack)
}

/// The stack of the filters of a bundle.
pub fn stack_of(alloc: Global, filters: &mut [PartReader<'_>]) -> Result<FilterStack, VerifyFault>
    ensures stack { IfOk result (HasStack (map Some (map rest_of filters.old))) }
    ensures fault { IfErr result (λ fault. NoReadFailed fault
        × HasNoStack (map Some (map rest_of filters.old)) fault) }
{
    read_stack(alloc, filters)
}
