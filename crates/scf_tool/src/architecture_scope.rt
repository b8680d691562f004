//! Over which records of an architecture sides are compared, and whether there are some.

ghost use Rattle.std.specs.Prelude.{◌≡◌, ◌↔◌, ◌<◌, ℕ, IfErr, IfOk, IsTrue, List, length, map};
ghost use Rattle.std.specs.List.{AllZip};
ghost use Rattle.scf_profile.specs.NamedCalls.{HasItsNames};
ghost use Rattle.scf_request.specs.Contents.{rest_of_table};
ghost use Rattle.scf_tool.specs.ArchitectureScopes.{HasRecordAmong, NameNoCall};
ghost use Rattle.scf_tool.specs.ArchitectureScopes as spec;
ghost use Rattle.scf_tool.specs.Inputs.{SpellsTable, named_of};

use crate::owned_table::OwnedTable;
use scf_insn::Architecture;
use scf_profile::{NamedCall, Scope};
use scf_request::{BundleFault, PartReader, TableReader, has_record};
use std::alloc::Global;

/// The records of an architecture; if the scope is a range of numbers, those of them with a number in it.
pub fn scope_of(scope: Scope, architecture: Architecture) -> Scope
    ensures { result ≡ spec.scope_of scope architecture }
{
    let (first, last) = match scope {
        Scope::Numbers { first, last, .. } => (first, last),
        _ => (0, u32::MAX),
    };
    Scope::Numbers {
        architecture,
        first,
        last,
    }
}

/// The records of a call of an architecture's table. The table is asked for its number, which promises that it is below
/// 0x40000000.
pub(crate) fn scope_of_call(table: &OwnedTable, call: &NamedCall<'_>) -> Scope
    requires named { 0 < length call.now.names.items }
    requires names { HasItsNames table.now.table call.now }
    ensures { result ≡ spec.scope_of_call table.now.architecture call.now.number }
{
    let Some(number) = table.table.number_of(call.names[0]) else {
        unreachable!();
    };
    let nr = table.architecture.first() + number;
    Scope::Numbers {
        architecture: table.architecture,
        first: nr,
        last: nr,
    }
}

/// Whether a scope has a record of an architecture that has a table.
pub(crate) fn has_record_among(tables: &[TableReader<PartReader<'_>>], scope: Scope) -> bool
    ensures { IsTrue result ↔ HasRecordAmong (map rest_of_table tables.now) scope }
{
    tables
        .iter()
        .any(|table| has_record(scope_of(scope, table.architecture)))
}

/// Whether these are one table, and it is without a syscall. The error: out of memory.
pub(crate) fn name_no_call(alloc: Global, tables: &[OwnedTable]) -> Result<bool, BundleFault>
    ensures none { (texts : List (Architecture × List ℕ)) → AllZip SpellsTable texts (map named_of tables.now)
        → IfOk result (λ none. IsTrue none ↔ NameNoCall texts) }
    ensures fault { IfErr result (λ fault. fault ≡ BundleFault.Memory) }
{
    if tables.len() != 1 {
        return Ok(false);
    }
    match tables[0].table.calls(alloc) {
        Ok(calls) => Ok(calls.is_empty()),
        Err(_) => Err(BundleFault::Memory),
    }
}
