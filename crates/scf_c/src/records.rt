//! Two sides over the records that are compared, taken apart as a question asks for.

ghost use Rattle.std.specs.Prelude.{◌≡◌, map, IfErr, IfOk};
ghost use Rattle.scf_tool.specs.Inputs.{named_of};
ghost use Rattle.scf_c.specs.Records.{AreOfCalls, AreOver, ArePaired, AreRecordsRefused, of_each, tables_in_scope};

use crate::layout::Table;
use crate::question::Over;
use crate::tables::{architecture_of, has_profile, table_readers_of};
use scf_compare::Side;
use scf_insn::Memory;
use scf_profile::Scope;
use scf_tool::{
    OwnedTable, Pairing, SideInput as ReadSide, VerifyFault, pairings_of_calls, read_tables,
    scope_of,
};
use std::alloc::Global;

/// The tables of the architectures that are compared: those of the only profile, if one side is one, and else all.
fn tables_in_scope<'a>(
    alloc: Global,
    left: &ReadSide,
    right: &ReadSide,
    tables: &[Table<'a>],
) -> Result<Vec<Table<'a>>, Memory>
    ensures { IfOk result (λ used. used.items ≡ tables_in_scope left.now right.now tables.now) }
{
    match (left, right) {
        (ReadSide::Profiles(only), ReadSide::Stack(_))
        | (ReadSide::Stack(_), ReadSide::Profiles(only)) => {
            let profiles = only.profiles.as_slice();
            let is_used = |table: &Table<'_>| has_profile(profiles, table);
            Ok(tables.iter().copied().filter(is_used).collect(alloc)?)
        }
        _ => Ok(Vec::from_slice(alloc, tables)?),
    }
}

/// Two sides over the records of each architecture that has a table.
fn of_each<'a>(
    alloc: Global,
    left: Side<'a>,
    right: Side<'a>,
    tables: &[Table],
) -> Result<Vec<Pairing<'a>>, Memory>
    ensures { IfOk result (λ pairings. pairings.items ≡ of_each left.entry right.entry tables.now) }
{
    let architectures = tables
        .iter()
        .filter_map(|table| architecture_of(table.architecture));
    let pairings = architectures.map(|architecture| Pairing {
        left,
        right,
        over: scope_of(Scope::All, architecture),
    });
    Ok(pairings.collect(alloc)?)
}

/// Two sides over the records of each syscall of each table.
fn of_calls<'a>(
    alloc: Global,
    left: Side<'a>,
    right: Side<'a>,
    tables: &[OwnedTable],
) -> Result<Vec<Pairing<'a>>, Memory>
    ensures { IfOk result (λ pairings.
        AreOfCalls left.entry right.entry (map named_of tables.now) pairings.items) }
{
    let mut pairings = Vec::new(alloc);
    for owned in tables {
        let calls = owned.table.calls(alloc)?;
        let added = pairings_of_calls(alloc, left, right, owned, &calls)?;
        pairings.extend_from_slice(&added)?;
    }
    Ok(pairings)
}

/// Two sides that are read, over each set of records that is asked for, in the order in which they are compared.
pub(crate) fn pairings_of<'a>(
    alloc: Global,
    over: Over,
    left: &'a ReadSide,
    right: &'a ReadSide,
    tables: &[Table],
) -> Result<Vec<Pairing<'a>>, VerifyFault>
    ensures paired { IfOk result (λ pairings. ArePaired over left.now right.now tables.now pairings.items) }
    ensures refused { IfErr result (AreRecordsRefused (tables_in_scope left.now right.now tables.now)) }
{
    let used = tables_in_scope(alloc, left, right, tables)?;
    let (left, right) = (left.side(), right.side());
    match over {
        Over::AtOnce(over) => {
            let pairing = Pairing { left, right, over };
            Ok(Vec::from_slice(alloc, &[pairing]).map_err(Memory::from)?)
        }
        Over::EachArchitecture => Ok(of_each(alloc, left, right, &used)?),
        Over::EachCall => {
            let readers = table_readers_of(alloc, &used)?;
            let owned = read_tables(alloc, false, &readers)?;
            Ok(of_calls(alloc, left, right, &owned)?)
        }
    }
}
