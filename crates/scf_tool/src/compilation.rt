//! The bytes of the filters of profiles.

ghost use Rattle.std.specs.Prelude.{◌≡◌, ◌<◌, ◌++◌, IfErr, IfOk};
ghost use Rattle.scf_compile.specs.SizeBound.{size_bound_of_each};
ghost use Rattle.scf_insn.specs.Kernel.{bpf_maxinsns};
ghost use Rattle.scf_tool.specs.Commands.{IsFilterOfEach};
ghost use Rattle.scf_tool.specs.Inputs.{left_out_of_each};
ghost use Rattle.scf_tool.specs.Reports.{left_out_front};

use crate::buffer::encoding_of;
use crate::left_out::LeftOutFront;
use scf_compile::{CallCount, CompileFault, compile_by_counts};
use scf_insn::Memory;
use scf_profile::{LoadedProfiles, Profiles};
use std::alloc::Global;

/// The bytes of the filter that answers as the profiles of several architectures do. The errors are those of
/// `compile_by_counts`.
pub fn filter_of_each(
    alloc: Global,
    profiles: &Profiles,
    counts: &[CallCount],
) -> Result<Vec<u8>, CompileFault>
    ensures filter { IfOk result (λ bytes. IsFilterOfEach profiles.now bytes.items) }
    ensures large { IfErr result
        (λ fault. fault ≡ CompileFault.TooLarge → bpf_maxinsns < size_bound_of_each profiles.now) }
{
    let program = compile_by_counts(alloc, profiles.as_slice(), counts)?;
    Ok(encoding_of(alloc, program.insns())?)
}

/// The bytes of a filter behind what was left out of its profile, if that is asked for.
pub(crate) fn behind_left_out(
    alloc: Global,
    has_left_out: bool,
    loaded: &LoadedProfiles,
    filter: Vec<u8>,
) -> Result<Vec<u8>, CompileFault>
    ensures text { IfOk result (λ text.
        text.items ≡ left_out_front has_left_out (left_out_of_each loaded.now) ++ filter.items) }
    ensures memory { IfErr result (λ fault. fault ≡ CompileFault.Memory) }
{
    if !has_left_out {
        return Ok(filter);
    }
    let front = format!(in alloc; "{}", LeftOutFront(loaded)).map_err(Memory::from)?;
    let mut text = front.into_bytes();
    text.extend_from_slice(&filter).map_err(Memory::from)?;
    Ok(text)
}
