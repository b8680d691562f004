//! A filter by itself: its bytes, its runs, and the texts that spell it.

ghost use Rattle.std.specs.Prelude.{◌≡◌, ℕ, List, Ok, Some, length, IfErr, IfOk};
ghost use Rattle.scf_insn.specs.Insn.{program_bytes};
ghost use Rattle.scf_insn.specs.Words.{words_of};
ghost use Rattle.scf_insn.specs.declared.insn.Insn.{Insn};
ghost use Rattle.scf_insn.specs.declared.encoding.ReadFault.TheVariants as reads;
ghost use Rattle.scf_machine.specs.Machine.{IsRun};
ghost use Rattle.scf_machine.specs.Path.{IsPathOf};
ghost use Rattle.scf_text.specs.Listing.{text_of};
ghost use Rattle.scf_text.specs.Spelling as spelling;
ghost use Rattle.scf_tool.specs.Faults.{text_row, verify_row};
ghost use Rattle.scf_tool.specs.Verifying.{IsAcceptedFilter, ReadsFilter};
ghost use Rattle.scf_tool.specs.declared.verify_fault.VerifyFault.TheVariants as verifies;
ghost use Rattle.scf_c.specs.Endings.{Ends, IsHandedOut, IsNothingHandedOut, IsRefusal};
ghost use Rattle.scf_c.specs.Filters.{IsFilterRefused, IsListRefused, IsTextRefused};
ghost use Rattle.scf_c.specs.Layout.{record_of};

use crate::ending::{OK, hand_out, or_refuse};
use crate::layout::{Call, Fault};
use scf_insn::{Memory, ReadFault, read_program};
use scf_machine::{Program, run, trace};
use scf_text::{TextFault, assemble};
use scf_tool::{
    PartReader, VerifyFault, encoding_of, listing_of, read_filter, text_row, verify_row,
};
use std::alloc::Global;

/// The filter with these bytes.
#[tactic(auto, using(crate::proofs::FilterLemmas::refused_well))]
fn accepted(alloc: Global, filter: &[u8]) -> Result<Program, VerifyFault>
    ensures filter { IfOk result (IsAcceptedFilter (Some filter.now)) }
    ensures refused { IfErr result (IsFilterRefused filter.now) }
{
    read_filter(alloc, &mut PartReader::new(filter))
}

/// Memory ran out for what is read of a filter.
fn out_of_memory(_why: Memory) -> VerifyFault
    ensures { result ≡ verifies.FilterRead reads.Memory }
{
    VerifyFault::FilterRead(ReadFault::Memory)
}

/// Whether the bytes are a filter that the kernel accepts, and of how many instructions.
#[unsafe(no_mangle)]
pub extern "C" fn scf_check(
    alloc: Global,
    filter: &[u8],
    count: &mut usize,
    fault: &mut Fault,
) -> u32
    ensures { Ends ((insns : List Insn) × IsAcceptedFilter (Some filter.now) insns × (count.new ≡ length insns))
        (IsRefusal verify_row (IsFilterRefused filter.now)) (count.new ≡ 0) result fault.new }
{
    *count = 0;
    *fault = Fault::default();
    let program = or_refuse!(accepted(alloc, filter), verify_row, fault);
    *count = program.len();
    OK
}

/// What a filter answers to a call, and in how many steps.
#[unsafe(no_mangle)]
pub extern "C" fn scf_run(
    alloc: Global,
    filter: &[u8],
    call: &Call,
    answer: &mut u32,
    steps: &mut u32,
    fault: &mut Fault,
) -> u32
    ensures { Ends ((insns : List Insn) × IsAcceptedFilter (Some filter.now) insns
        × IsRun insns (words_of (record_of call.now)) answer.new steps.new)
        (IsRefusal verify_row (IsFilterRefused filter.now)) ((answer.new ≡ 0) × (steps.new ≡ 0))
        result fault.new }
{
    *answer = 0;
    *steps = 0;
    *fault = Fault::default();
    let program = or_refuse!(accepted(alloc, filter), verify_row, fault);
    let ran = run(&program, &call.record());
    *answer = ran.answer.0;
    *steps = ran.steps;
    OK
}

/// What a filter answers to a call, and the indices of the instructions on the way.
#[unsafe(no_mangle)]
pub extern "C" fn scf_trace(
    alloc: Global,
    filter: &[u8],
    call: &Call,
    answer: &mut u32,
    path: &mut [usize],
    needed: &mut usize,
    fault: &mut Fault,
) -> u32
    ensures { Ends ((insns : List Insn) × IsAcceptedFilter (Some filter.now) insns × (indices : List ℕ)
        × IsPathOf insns (words_of (record_of call.now)) answer.new indices
        × IsHandedOut indices path.old path.new needed.new) (IsRefusal verify_row (IsFilterRefused filter.now))
        ((answer.new ≡ 0) × IsNothingHandedOut path.old path.new needed.new) result fault.new }
{
    *answer = 0;
    *needed = 0;
    *fault = Fault::default();
    let program = or_refuse!(accepted(alloc, filter), verify_row, fault);
    let traced = trace(alloc, &program, &call.record()).map_err(out_of_memory);
    let trace = or_refuse!(traced, verify_row, fault);
    *answer = trace.answer.0;
    hand_out(&trace.indices, path, needed);
    OK
}

/// The filter that a text spells. It isn't checked.
#[unsafe(no_mangle)]
pub extern "C" fn scf_assemble(
    alloc: Global,
    text: &[u8],
    filter: &mut [u8],
    needed: &mut usize,
    fault: &mut Fault,
) -> u32
    ensures { Ends ((insns : List Insn) × spelling.Spells text.now insns
        × IsHandedOut (program_bytes insns) filter.old filter.new needed.new)
        (IsRefusal text_row (IsTextRefused text.now)) (IsNothingHandedOut filter.old filter.new needed.new)
        result fault.new }
{
    *needed = 0;
    *fault = Fault::default();
    let insns = or_refuse!(assemble(alloc, text), text_row, fault);
    let encoded = encoding_of(alloc, &insns).map_err(|_| TextFault::Memory);
    let bytes = or_refuse!(encoded, text_row, fault);
    hand_out(&bytes, filter, needed);
    OK
}

/// The listing of a filter. It isn't checked.
#[unsafe(no_mangle)]
pub extern "C" fn scf_list(
    alloc: Global,
    filter: &[u8],
    text: &mut [u8],
    needed: &mut usize,
    fault: &mut Fault,
) -> u32
    ensures { Ends ((insns : List Insn) × ReadsFilter (Some filter.now) (Ok insns)
        × IsHandedOut (text_of insns) text.old text.new needed.new)
        (IsRefusal verify_row (IsListRefused filter.now)) (IsNothingHandedOut text.old text.new needed.new)
        result fault.new }
{
    *needed = 0;
    *fault = Fault::default();
    let read = read_program(alloc, &mut PartReader::new(filter)).map_err(VerifyFault::from);
    let insns = or_refuse!(read, verify_row, fault);
    let listed = listing_of(alloc, &insns).map_err(out_of_memory);
    let lines = or_refuse!(listed, verify_row, fault);
    hand_out(&lines, text, needed);
    OK
}
