//! A compiled filter, compared with its profile.

ghost use Rattle.std.specs.Prelude.{IfOk};
ghost use Rattle.scf_tool.specs.CompiledFilters.{IsSameAsItsProfile};

use scf_compare::{Verdict, compare};
use scf_compile::{CompileFault, compile};
use scf_facts::{WordSets, word_sets_start_exact};
use scf_machine::Program;
use scf_profile::Profile;
use std::alloc::Global;

/// The law that what `compile` makes of a plain profile is `Same` to `compare`, if the limit isn't below the effort: it
/// follows from the contracts of the two calls, which this makes. The errors are those of `compile`.
pub fn compiled_is_same(
    alloc: Global,
    profile: &Profile,
    limit: u64,
) -> Result<(Program, Verdict), CompileFault>
    ensures { IfOk result (λ compared. IsSameAsItsProfile profile.now limit compared.0 compared.1) }
{
    let program = compile(alloc, profile)?;
    word_sets_start_exact();
    let verdict = compare::<WordSets>(alloc, &program, profile, limit)?;
    Ok((program, verdict))
}
