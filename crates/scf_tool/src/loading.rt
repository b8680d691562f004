//! Loads profiles from bytes, however long they are.

ghost use Rattle.std.specs.Prelude.{◌≡◌, map, IfErr, IfOk};
ghost use Rattle.scf_request.specs.Contents.{rest_of_table};
ghost use Rattle.scf_tool.specs.Commands.{AreStated, CantLoadEach};

use crate::owned_table::{OwnedTable, load_under, read_tables};
use crate::verify_fault::VerifyFault;
use scf_compile::{CallCount, CompileFault};
use scf_insn::Memory;
use scf_profile::{CallTable, LoadedProfiles};
use scf_request::{Interpretation, PartReader, TableReader};
use std::alloc::Global;

/// Adds the counts of an architecture's calls whose names its table has.
fn add_counts(
    alloc: Global,
    calls: &mut Vec<CallCount>,
    table: &OwnedTable,
    counts: &CallTable,
) -> Result<(), Memory> {
    for counted in &counts.calls(alloc)? {
        for name in &counted.names {
            if let Some(number) = table.table.number_of(name) {
                calls.push(CallCount {
                    architecture: table.architecture,
                    nr: table.architecture.first() + number,
                    count: u64::from(counted.number),
                })?;
            }
        }
    }
    Ok(())
}

/// The counts of calls by syscall number, from those by name, of which each list has an architecture.
pub(crate) fn call_counts(
    alloc: Global,
    tables: &[OwnedTable],
    counts: &[OwnedTable],
) -> Result<Vec<CallCount>, CompileFault>
    ensures { IfErr result (λ fault. fault ≡ CompileFault.Memory) }
{
    let mut calls = Vec::new(alloc);
    for list in counts {
        for table in tables {
            if table.architecture.name() == list.architecture.name() {
                add_counts(alloc, &mut calls, table, &list.table)?;
            }
        }
    }
    Ok(calls)
}

/// Loads a profile for each architecture that has a table.
pub fn load_with_tables(
    alloc: Global,
    by: &Interpretation,
    profile: &[u8],
    tables: &[TableReader<PartReader<'_>>],
) -> Result<LoadedProfiles, VerifyFault>
    ensures stated { IfOk result (AreStated by.now profile.now (map rest_of_table tables.now)) }
    ensures fault { IfErr result (CantLoadEach by.now profile.now (map rest_of_table tables.now)) }
{
    let owned = read_tables(alloc, false, tables)?;
    Ok(load_under(alloc, by, profile, &owned)?)
}
