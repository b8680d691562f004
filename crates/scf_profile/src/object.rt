//! Parses the seccomp object.

ghost use Rattle.std.specs.Prelude.{◌≡◌, ◌&&◌, not, nat_lt, length};
ghost use Rattle.std.specs.Prelude.{None, is_some, ok_or, if◌then◌else◌};
ghost use Rattle.scf_insn.specs.declared.architecture.Architecture.TheVariants.{X8664, Aarch64};
ghost use Rattle.std.specs.List.{list_any};
ghost use Rattle.serde_json.specs.View.{view};
ghost use Rattle.scf_profile.specs.declared.load_fault.LoadFault.TheVariants as faults;
ghost use Rattle.scf_profile.specs.References.{texts_at};
ghost use Rattle.scf_profile.specs.StatedProfile.{object as object_stated, seccomp_of, is_named as named};
ghost use Rattle.scf_profile.specs.StatedProfile.{all_listed as all_are_listed, listed_names, table_for as table_stated, tables_of};
ghost use Rattle.scf_profile.specs.internal.Stated.{with_machine};
ghost use Rattle.scf_profile.specs.internal.Results.{result_map};

use crate::architecture_table::{ArchitectureTable, table_for};
use crate::json_members::{member_of, required};
use crate::load_fault::LoadFault;
use crate::reading::Reading;
use crate::texts::BorrowedTexts;
use scf_insn::Architecture;
use serde_json::Value;

/// A value that must be an object.
fn object_of(value: &Value) -> Result<&Value, LoadFault>
    ensures { result_map (λ v. view v.now) result ≡ ok_or (object_stated (view value.now)) (faults.Kind None) }
{
    if value.is_object() {
        Ok(value)
    } else {
        Err(LoadFault::Kind { entry: None })
    }
}

/// The seccomp object: the root itself, or its `linux.seccomp`.
#[tactic(auto, unfolding(crate::specs::StatedProfile::seccomp_of))]
pub(crate) fn find_seccomp(root: &Value) -> Result<&Value, LoadFault>
    ensures { result_map (λ v. view v.now) result ≡ seccomp_of (view root.now) }
{
    if member_of(root, "defaultAction").is_some() || member_of(root, "linux").is_none() {
        return object_of(root);
    }
    let linux = object_of(required(None, "linux", root)?)?;
    object_of(required(None, "seccomp", linux)?)
}

/// Whether an architecture has this name.
pub(crate) fn is_named(name: &str, architecture: Architecture) -> bool
    ensures { result ≡ named name.now architecture }
{
    architecture.name() == name
}

/// Whether an architecture is this one, if it is given, or among those of the names.
fn is_listed(machine: Option<Architecture>, names: &[&str], architecture: Architecture) -> bool
    ensures { result ≡ list_any (λ name. named name architecture) (with_machine machine (texts_at names.now)) }
{
    for name in names {
        if is_named(name, architecture) {
            return true;
        }
    }
    matches!(machine, Some(machine) if is_named(machine.name(), architecture))
}

/// Refuses the first table whose architecture is neither this one nor among the names.
fn all_listed(
    machine: Option<Architecture>,
    names: &[&str],
    tables: &[ArchitectureTable],
) -> Result<(), LoadFault>
    ensures { result ≡ all_are_listed 0 (with_machine machine (texts_at names.now)) (tables_of tables.now) }
{
    for (i, table) in tables.iter().enumerate() {
        if !is_listed(machine, names, table.architecture) {
            return Err(LoadFault::NotListed { table: i });
        }
    }
    Ok(())
}

/// The machine's own architecture: x86-64 if it has a table, else aarch64.
fn own_architecture(tables: &[ArchitectureTable]) -> Architecture
    ensures { result ≡ (if is_some (table_stated (tables_of tables.now) X8664) then X8664 else Aarch64) }
{
    if table_for(tables, Architecture::X8664).is_some() {
        Architecture::X8664
    } else {
        Architecture::Aarch64
    }
}

/// Refuses the first table whose architecture isn't listed. No names stand for the machine's own; a runtime adds that
/// to all names.
pub(crate) fn check_listed(
    reading: Reading,
    tables: &[ArchitectureTable],
    architectures: &BorrowedTexts,
) -> Result<(), LoadFault>
    ensures { result ≡ all_are_listed 0 (listed_names reading (tables_of tables.now) architectures.now)
        (tables_of tables.now) }
{
    let names = architectures.as_slice();
    if !reading.is_runtime() && names.len() > 0 {
        return all_listed(None, names, tables);
    }
    all_listed(Some(own_architecture(tables)), names, tables)
}
