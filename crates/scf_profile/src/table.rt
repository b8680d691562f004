//! The syscall table: syscall numbers by name, parsed from a text.

ghost use Rattle.std.specs.Prelude.{◌≡◌, ◌≢◌, ◌<◌, length, IfSome, IfOk, OnOk, OnErr, IfErr, Ok, Err};
ghost use Rattle.std.specs.FinMap.{get};
ghost use Rattle.std.specs.Str.Lines.{lines};
ghost use Rattle.scf_insn.specs.Kernel.{x32_syscall_bit};
ghost use Rattle.scf_profile.specs.declared.table_fault.TableFault.TheVariants as faults;
ghost use Rattle.scf_profile.specs.NamedCalls.{AreCallsOf};
ghost use Rattle.scf_profile.specs.Names.{AreSorted, names_of};
ghost use Rattle.scf_profile.specs.Steps.{◌>>=◌ as and_then, Gives};
ghost use Rattle.scf_profile.specs.Table.{AreCallNumbers, BeginWithCall, HasCall, table_of};
ghost use Rattle.scf_profile.specs.Table.{fields, entry_in, with_entry};

use crate::name::{Name, TableEntry};
use crate::named_call::{NamedCall, named_calls};
use crate::table_fault::TableFault;
use crate::table_line::{entry_on, first_line};
use scf_insn::Memory;
use std::alloc::{AllocError, Global};
use std::cmp::Ordering;
use std::collections::BTreeMap;
use std::marker::Model;

/// Syscall numbers by name. Each is below 0x40000000, where x32's numbers begin.
#[derive(Drop)]
pub struct CallTable {
    /// In the order of the names.
    entries: Vec<TableEntry>,
}

impl Model for CallTable {
    ghost use Rattle.std.specs.FinMap as map;
    ghost use Rattle.std.specs.Coded.{coded_ℕ, coded_list};
    ghost use Rattle.scf_profile.specs.Table.{Names, AreCallNumbers};

    ghost Value = { Names };

    ghost coded = { map.code (coded_list coded_ℕ) coded_ℕ };

    ghost use Rattle.scf_profile.specs.Names.{AreSorted, names_of};

    ghost view = { λ t. names_of t.entries.items };

    ghost invariant = { λ t. AreSorted t.entries.items × AreCallNumbers (names_of t.entries.items) };
}

impl CallTable {
    /// Parses a table: on each line a name and a decimal number, separated by blanks; blank lines and lines that begin
    /// with `#` are skipped. An error is the first fault of the first faulty line, or `Memory` if an allocation failed;
    /// nothing is allocated before the first name.
    #[tactic(auto, unfolding(crate::specs::Table::with_lines))]
    pub fn read(alloc: Global, text: &[u8]) -> Result<CallTable, TableFault>
        ensures table { Gives faults.Memory result (table_of text.now) }
        ensures memory { result ≡ Err faults.Memory → BeginWithCall (lines text.now) }
    {
        let mut numbers = BTreeMap::new(alloc);
        let mut remaining = text;
        let mut number: usize = 0;
        while !remaining.is_empty() {
            let (line, behind) = first_line(remaining);
            number += 1;
            add_line(&mut numbers, number, line)?;
            remaining = behind;
        }
        let Ok(entries) = entries_of(alloc, numbers) else {
            return Err(TableFault::Memory);
        };
        Ok(CallTable { entries })
    }

    /// The number of the syscall with this name, if the table has it.
    pub fn number_of(&self, name: &str) -> Option<u32>
        ensures value { result ≡ get self.now name.now }
        ensures range { IfSome result (λ n. n < x32_syscall_bit) }
    {
        number_in(&self.entries, Name::new(name))
    }

    /// The syscalls of the table in rising order of their numbers, each with all its names. `Err`: an allocation
    /// failed.
    pub fn calls(&self, alloc: Global) -> Result<Vec<NamedCall<'_>>, Memory>
        ensures { IfOk result (λ calls. AreCallsOf self.now calls.items) }
    {
        Ok(named_calls(alloc, &self.entries)?)
    }

    /// A law for proofs: its numbers are below 0x40000000. Does nothing.
    pub(crate) fn within_range(&self)
        ensures { AreCallNumbers self.now }
    {
        let _entries = &self.entries;
    }
}

/// The number of a name among entries, if they have it.
fn number_in(entries: &[TableEntry], name: Name) -> Option<u32>
    requires { AreSorted entries.now }
    ensures { result ≡ get (names_of entries.now) name.entry }
{
    let mut low = 0;
    let mut high = entries.len();
    while low < high {
        let middle = low + (high - low) / 2;
        let entry = &entries[middle];
        match entry.order_of(&name) {
            Ordering::Less => high = middle,
            Ordering::Greater => low = middle + 1,
            Ordering::Equal => return Some(entry.number()),
        }
    }
    None
}

/// Adds the name and number of a line to those of earlier lines.
#[tactic(auto, using(crate::proofs::NamesOf::get_named, crate::proofs::NamesOf::insert_named))]
fn add_line<'t>(
    numbers: &mut BTreeMap<Name<'t>, u32>,
    line: usize,
    text: &'t [u8],
) -> Result<(), TableFault>
    ensures ok { OnOk result (and_then (entry_in line (fields text.now))
        (with_entry line (names_of numbers.old.entries)) ≡ Ok (names_of numbers.new.entries)) }
    ensures err { IfErr result (λ e. e ≢ faults.Memory
        → and_then (entry_in line (fields text.now)) (with_entry line (names_of numbers.old.entries)) ≡ Err e) }
    ensures memory { IfErr result (λ e. e ≡ faults.Memory → HasCall text.now) }
    ensures range { AreCallNumbers (names_of numbers.old.entries)
        → OnOk result (AreCallNumbers (names_of numbers.new.entries)) }
{
    let Some((name, number)) = entry_on(line, text)? else {
        return Ok(());
    };
    match numbers.insert(Name::new(name), number) {
        Ok(None) => Ok(()),
        Ok(Some(_)) => Err(TableFault::Repeated { line }),
        Err(_) => Err(TableFault::Memory),
    }
}

/// The entries of a map from names to syscall numbers.
#[tactic(auto, using(std::proofs::lemmas::Grind::common_steps, scf_insn::proofs::Common::append_assoc))]
fn entries_of(
    alloc: Global,
    numbers: BTreeMap<Name<'_>, u32>,
) -> Result<Vec<TableEntry>, AllocError>
    ensures entries { IfOk result (λ entries. entries.items ≡ numbers.entry.entries) }
    ensures sorted { AreSorted numbers.entry.entries }
    ensures memory { OnErr result (0 < length numbers.entry.entries) }
{
    let mut entries = Vec::with_capacity(alloc, numbers.len())?;
    for (name, number) in numbers {
        entries.push(TableEntry::new(alloc, &name, number)?)?;
    }
    Ok(entries)
}
