//! The syscall tables of architectures, and the stubs of their syscalls.

ghost use Rattle.std.specs.Prelude.{◌≡◌, ◌↔◌, IsTrue, map, string_bytes, IfOk};
ghost use Rattle.std.specs.List.{list_any};
ghost use Rattle.scf_profile.specs.StatedProfile.{is_named};
ghost use Rattle.scf_request.specs.Contents.{rest_of_table};
ghost use Rattle.scf_c.specs.Architectures.{AreMeant, IsMeant, architecture_of, count_for, texts_of};
ghost use Rattle.scf_c.specs.Architectures as spec;

use crate::layout::Table;
use scf_insn::{Architecture, Memory};
use scf_profile::{Profile, Reading};
use scf_tool::{PartReader, Stub, TableReader};
use std::alloc::Global;

/// The architecture with this number.
pub(crate) fn architecture_of(number: u32) -> Option<Architecture>
    ensures { result ≡ architecture_of number }
{
    Architecture::all().iter().copied().find(|architecture| architecture_number(*architecture)
        == number)
}

/// The number of an architecture: its position among all of them, counted from 1.
pub(crate) fn architecture_number(architecture: Architecture) -> u32
    ensures { result ≡ spec.architecture_number architecture }
{
    architecture as u32 + 1
}

/// Whether the numbers of a table have a meaning.
fn is_meant(table: &Table) -> bool
    ensures { IsTrue result ↔ IsMeant table.now }
{
    table.reserved == 0 && table.has_stub <= 1 && architecture_of(table.architecture).is_some()
}

/// How many tables have an architecture with this number.
fn count_for(tables: &[Table], number: u32) -> usize
    ensures { result ≡ count_for number tables.now }
{
    tables
        .iter()
        .filter(|table| table.architecture == number)
        .count()
}

/// Whether the numbers of all tables have a meaning, and no two are for one architecture.
pub(crate) fn are_meant(tables: &[Table]) -> bool
    ensures { IsTrue result ↔ AreMeant tables.now }
{
    for table in tables {
        if !is_meant(table) || count_for(tables, table.architecture) > 1 {
            return false;
        }
    }
    true
}

/// Readers of the tables whose numbers have a meaning, in their order.
pub(crate) fn table_readers_of<'a>(
    alloc: Global,
    tables: &[Table<'a>],
) -> Result<Vec<TableReader<PartReader<'a>>>, Memory>
    ensures { IfOk result (λ readers. map rest_of_table readers.items ≡ texts_of tables.now) }
{
    let mut readers = Vec::new(alloc);
    for table in tables {
        if let Some(architecture) = architecture_of(table.architecture) {
            let reader = PartReader::new(table.bytes);
            readers.push(TableReader {
                architecture,
                reader,
            })?;
        }
    }
    Ok(readers)
}

/// The stub of the syscalls that a table numbers.
fn stub_of(table: &Table) -> Option<Stub>
    ensures { result ≡ spec.stub_of table.now }
{
    if table.has_stub == 0 {
        return None;
    }
    let architecture = architecture_of(table.architecture)?;
    Some(Stub {
        architecture,
        first: table.stub,
    })
}

/// The stubs of tables, in their order.
pub(crate) fn stubs_of(alloc: Global, tables: &[Table]) -> Result<Vec<Stub>, Memory>
    ensures { IfOk result (λ stubs. stubs.items ≡ spec.stubs_of tables.now) }
{
    Ok(tables.iter().filter_map(stub_of).collect(alloc)?)
}

/// Whether an architecture has one of these names.
fn is_among(names: &[String], architecture: Architecture) -> bool
    ensures { result ≡ list_any (λ name. is_named name architecture) (map string_bytes names.now) }
{
    let Some((name, later)) = names.split_first() else {
        return false;
    };
    architecture.name() == name.as_str() || is_among(later, architecture)
}

/// Whether a table is that of an architecture with one of these names.
fn has_name(names: &[String], table: &Table) -> bool
    ensures { result ≡ spec.has_name (map string_bytes names.now) table.now }
{
    architecture_of(table.architecture).is_some_and(|architecture| is_among(names, architecture))
}

/// Whether a table is that of the machine's own architecture, which a runtime adds to the names, and for which no names
/// stand: x86-64 if it has a table, and else aarch64.
fn is_own(reading: Reading, names: &[String], tables: &[Table], table: &Table) -> bool
    ensures { result ≡ spec.is_own reading (map string_bytes names.now) tables.now table.now }
{
    match reading {
        Reading::Strict | Reading::Sandbox if !names.is_empty() => false,
        _ if count_for(tables, 1) == 0 => table.architecture == 4,
        _ => table.architecture == 1,
    }
}

/// The tables of the architectures that a profile with these names lists.
pub(crate) fn listed_of<'a>(
    alloc: Global,
    reading: Reading,
    names: &[String],
    tables: &[Table<'a>],
) -> Result<Vec<Table<'a>>, Memory>
    ensures { IfOk result (λ listed. listed.items ≡ spec.listed_of reading (map string_bytes names.now) tables.now) }
{
    let is_listed = |table: &Table<'_>| {
        is_own(reading, names, tables, table) || has_name(names, table)
    };
    Ok(tables.iter().copied().filter(is_listed).collect(alloc)?)
}

/// Whether a table is that of an architecture that has one of these profiles.
pub(crate) fn has_profile(profiles: &[Profile], table: &Table) -> bool
    ensures { result ≡ spec.has_profile profiles.now table.now }
{
    profiles.iter().any(|profile| architecture_number(profile.architecture()) == table.architecture)
}
