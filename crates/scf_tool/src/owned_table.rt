//! Syscall tables of several architectures, and the profiles that they give their numbers.

ghost use Rattle.std.specs.Prelude.{◌≡◌, ◌≢◌, All, IfErr, IfOk, IfSome, IsTrue, MatchOption, Ok, map, true};
ghost use Rattle.std.specs.List.{AllZip};
ghost use Rattle.scf_profile.specs.Loading.{RefusesEachAs};
ghost use Rattle.scf_profile.specs.Table.{table_of as names_of};
ghost use Rattle.scf_request.specs.Contents.{rest_of_table};
ghost use Rattle.scf_request.specs.Interpretations.{LoadsEachBy};
ghost use Rattle.scf_tool.specs.internal.Sides.{AreTables};
ghost use Rattle.scf_tool.specs.Inputs.{HasNoTable, IsNoTableOf, IsShort, IsTableOf, IsTooLong, SpellsTable, named_of};

use crate::verify_fault::VerifyFault;
use scf_insn::{Architecture, InputFault};
use scf_profile::{
    ArchitectureTable, CallTable, LoadFault, LoadedProfiles, MAX_TEXT_LEN, TableFault,
};
use scf_request::{BundleFault, Interpretation, PartReader, TableReader};
use std::alloc::Global;

/// A syscall table, and the architecture whose syscalls it names.
#[derive(Drop)]
pub struct OwnedTable {
    pub architecture: Architecture,
    pub table: CallTable,
}

/// Whether a text is too long, if texts are limited to `MAX_TEXT_LEN` bytes.
pub(crate) fn is_too_long(is_limited: bool, text: &[u8]) -> bool
    ensures long { result ≡ true → IsTooLong is_limited text.now InputFault.TooLong }
    ensures short { result ≢ true → IsShort is_limited text.now }
{
    is_limited && text.len() > MAX_TEXT_LEN
}

/// The syscall table that a text spells.
fn table_of(alloc: Global, is_limited: bool, text: &[u8]) -> Result<CallTable, VerifyFault>
    ensures short { IfOk result (λ _. IsShort is_limited text.now) }
    ensures table { IfOk result (λ table. names_of text.now ≡ Ok table) }
    ensures refused { IfErr result (IsNoTableOf is_limited text.now) }
{
    if is_too_long(is_limited, text) {
        return Err(VerifyFault::TableRead(InputFault::TooLong));
    }
    match CallTable::read(alloc, text) {
        Ok(table) => Ok(table),
        Err(fault) => Err(VerifyFault::Table(fault)),
    }
}

/// The tables of several architectures that texts spell, in order.
pub fn read_tables(
    alloc: Global,
    is_limited: bool,
    parts: &[TableReader<PartReader<'_>>],
) -> Result<Vec<OwnedTable>, VerifyFault>
    ensures tables { IfOk result (λ tables.
        AllZip (IsTableOf is_limited) (map rest_of_table parts.now) (map named_of tables.items)) }
    ensures refused { IfErr result (HasNoTable is_limited (map rest_of_table parts.now)) }
{
    let mut tables = Vec::new(alloc);
    for part in parts {
        let table = table_of(alloc, is_limited, part.reader.rest())?;
        let owned = OwnedTable {
            architecture: part.architecture,
            table,
        };
        match tables.push(owned) {
            Ok(()) => {}
            Err(_) => return Err(VerifyFault::Table(TableFault::Memory)),
        }
    }
    Ok(tables)
}

/// The tables that texts of any length spell. None if one of them spells none. The error: out of memory.
#[tactic(auto, using(crate::proofs::TableLemmas::not_counts))]
pub(crate) fn valid_tables(
    alloc: Global,
    parts: &[TableReader<PartReader<'_>>],
) -> Result<Option<Vec<OwnedTable>>, BundleFault>
    ensures tables { IfOk result (λ tables. MatchOption tables (AreTables (map rest_of_table parts.now) → ⊥)
        (λ tables. AllZip SpellsTable (map rest_of_table parts.now) (map named_of tables.items))) }
    ensures fault { IfErr result (λ fault. fault ≡ BundleFault.Memory) }
{
    match read_tables(alloc, false, parts) {
        Ok(tables) => Ok(Some(tables)),
        Err(VerifyFault::Table(TableFault::Memory)) => Err(BundleFault::Memory),
        Err(_) => Ok(None),
    }
}

/// Whether texts are short enough, if they are limited to `MAX_TEXT_LEN` bytes.
fn are_short(is_limited: bool, parts: &[TableReader<PartReader<'_>>]) -> bool
    ensures { IsTrue result → All (λ text. IsShort is_limited text.1) (map rest_of_table parts.now) }
{
    for part in parts {
        if is_too_long(is_limited, part.reader.rest()) {
            return false;
        }
    }
    true
}

/// The tables that texts spell, in order: those that are read of them, if there are some and no text is too long.
#[tactic(auto, using(crate::proofs::TableLemmas::limited))]
pub(crate) fn tables_once(
    alloc: Global,
    is_limited: bool,
    parts: &[TableReader<PartReader<'_>>],
    read: Option<Vec<OwnedTable>>,
) -> Result<Vec<OwnedTable>, VerifyFault>
    requires { IfSome read (λ tables. AllZip SpellsTable (map rest_of_table parts.now) (map named_of tables.items)) }
    ensures tables { IfOk result (λ tables.
        AllZip (IsTableOf is_limited) (map rest_of_table parts.now) (map named_of tables.items)) }
    ensures refused { IfErr result (HasNoTable is_limited (map rest_of_table parts.now)) }
{
    match read {
        Some(tables) if are_short(is_limited, parts) => Ok(tables),
        _ => read_tables(alloc, is_limited, parts),
    }
}

/// Loads the profile of each architecture that has a table.
pub(crate) fn load_under(
    alloc: Global,
    by: &Interpretation,
    text: &[u8],
    tables: &[OwnedTable],
) -> Result<LoadedProfiles, LoadFault>
    ensures ok { IfOk result (LoadsEachBy by.now text.now (map named_of tables.now)) }
    ensures err { IfErr result (RefusesEachAs by.now.reading text.now (map named_of tables.now)) }
{
    let mut under = Vec::new(alloc);
    for owned in tables {
        under.push(ArchitectureTable {
            architecture: owned.architecture,
            table: &owned.table,
        })?;
    }
    by.load_profiles(alloc, text, &under)
}
