//! A stack of filters.

ghost use Rattle.std.specs.Prelude.{◌≡◌, List, Option, map, IfErr, IfOk};
ghost use Rattle.scf_insn.specs.Words.{words_of};
ghost use Rattle.scf_insn.specs.declared.insn.Insn.{Insn};
ghost use Rattle.scf_machine.specs.Precedence.{IsDecidedBy, StackAnswers};
ghost use Rattle.scf_machine.specs.declared.stack.DecidingInsn.{DecidingInsn};
ghost use Rattle.scf_request.specs.Contents.{rest_of};
ghost use Rattle.scf_tool.specs.Faults.{verify_row};
ghost use Rattle.scf_tool.specs.FilterStacks.{HasStack};
ghost use Rattle.scf_c.specs.Endings.{Ends, IsRefusal};
ghost use Rattle.scf_c.specs.Filters.{IsStackRefused, decided_by, no_decision};
ghost use Rattle.scf_c.specs.Layout.{bytes_of, known_bytes, record_of};

use crate::ending::{OK, or_refuse};
use crate::layout::{Bytes, Call, DecisionNumbers, Fault};
use scf_insn::Memory;
use scf_machine::FilterStack;
use scf_tool::{PartReader, VerifyFault, stack_of, verify_row};
use std::alloc::Global;

/// Readers of filters, in their order.
fn readers_of<'a>(alloc: Global, filters: &[Bytes<'a>]) -> Result<Vec<PartReader<'a>>, Memory>
    ensures { IfOk result (λ readers. map rest_of readers.items ≡ bytes_of filters.now) }
{
    let mut readers = Vec::new(alloc);
    for filter in filters {
        readers.push(PartReader::new(filter.bytes))?;
    }
    Ok(readers)
}

/// The stack of the filters with these bytes, the oldest first.
pub(crate) fn stacked(alloc: Global, filters: &[Bytes]) -> Result<FilterStack, VerifyFault>
    ensures stack { IfOk result (HasStack (known_bytes filters.now)) }
    ensures refused { IfErr result (IsStackRefused filters.now) }
{
    let mut readers = readers_of(alloc, filters)?;
    stack_of(alloc, &mut readers)
}

/// What a stack of filters answers to a call, and which instruction of which filter gives the answer. The filters are
/// in the order of the stack, the oldest first.
#[unsafe(no_mangle)]
pub extern "C" fn scf_decide(
    alloc: Global,
    filters: &[Bytes],
    call: &Call,
    decision: &mut DecisionNumbers,
    fault: &mut Fault,
) -> u32
    ensures { Ends ((stack : List (List Insn)) × HasStack (known_bytes filters.now) stack
        × StackAnswers stack (words_of (record_of call.now)) decision.new.answer
        × (by : Option DecidingInsn) × IsDecidedBy stack (words_of (record_of call.now)) by decision.new.answer
        × (decision.new ≡ decided_by decision.new.answer by))
        (IsRefusal verify_row (IsStackRefused filters.now)) (decision.new ≡ no_decision) result fault.new }
{
    *decision = DecisionNumbers::default();
    *fault = Fault::default();
    let stack = or_refuse!(stacked(alloc, filters), verify_row, fault);
    let decided = stack.decision(&call.record());
    let (filter, index) = decided.by.map_or((0, 0), |by| (by.filter, by.index));
    *decision = DecisionNumbers {
        answer: decided.answer.0,
        has_filter: u32::from(decided.by.is_some()),
        filter: filter as u64,
        index: index as u64,
        reserved: [0; 4],
    };
    OK
}
