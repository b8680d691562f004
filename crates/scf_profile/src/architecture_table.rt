//! Syscall tables of architectures.

ghost use Rattle.std.specs.Prelude.{◌≡◌, option_map};
ghost use Rattle.std.specs.List.{find};
ghost use Rattle.scf_profile.specs.StatedProfile.{is_named as named, table_for as table_stated, tables_of};

use crate::object::is_named;
use crate::table::CallTable;
use scf_insn::Architecture;

/// A syscall table, and the architecture whose syscalls it names.
#[derive(Clone, Copy)]
pub struct ArchitectureTable<'t> {
    pub architecture: Architecture,
    pub table: &'t CallTable,
}

/// The first table with an architecture of this name.
pub(crate) fn table_named<'a, 't>(
    tables: &'a [ArchitectureTable<'t>],
    name: &str,
) -> Option<&'a ArchitectureTable<'t>>
    ensures { option_map (λ t. t.now) result ≡ find (λ t. named name.now t.architecture) tables.now }
{
    tables
        .iter()
        .find(|table| is_named(name, table.architecture))
}

/// The first table of an architecture.
pub(crate) fn table_for<'t>(
    tables: &[ArchitectureTable<'t>],
    architecture: Architecture,
) -> Option<&'t CallTable>
    ensures { option_map (λ t. t.now) result ≡ table_stated (tables_of tables.now) architecture }
{
    match table_named(tables, architecture.name()) {
        Some(first) => Some(first.table),
        None => None,
    }
}
