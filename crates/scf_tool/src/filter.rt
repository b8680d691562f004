//! Reads filters.

ghost use Rattle.std.specs.Prelude.{IfOk, IfErr};
ghost use Rattle.scf_tool.specs.Verifying.{IsAcceptedFilter, IsNoFilter, LeavesFilterReader};

use crate::verify_fault::VerifyFault;
use scf_insn::{Source, read_program};
use scf_machine::{Program, check};
use std::alloc::Global;

/// Reads and checks a filter.
pub fn read_filter<R: Source>(alloc: Global, input: &mut R) -> Result<Program, VerifyFault>
    ensures filter { IfOk result (IsAcceptedFilter (R.remaining input.old)) }
    ensures refused { IfErr result (IsNoFilter (R.remaining input.old)) }
    ensures input { LeavesFilterReader R.remaining R.failures input.old result input.new }
{
    let insns = read_program(alloc, input)?;
    match check(alloc, insns) {
        Ok(program) => Ok(program),
        Err((fault, _)) => Err(VerifyFault::Check(fault)),
    }
}
