//! From the names of entries to rules with syscall numbers.

ghost use Rattle.std.specs.Prelude.{◌≡◌, ◌≤◌, ◌^◌, ◌++◌, length, vec_len, IfOk, IfErr, OnOk};
ghost use Rattle.std.specs.List.{filter, flat_map, list_any};
ghost use Rattle.scf_profile.specs.internal.EntryRanges.{AddsRules, TellsTooMany, is_in_none as in_none, names_lacking};
ghost use Rattle.scf_profile.specs.Limits.{max_rules};
ghost use Rattle.scf_profile.specs.StatedProfile.{numbers_named, rules_numbered, rules_of_entry, rules_from, other_names, tables_of, is_named as named};

use crate::architecture_table::{ArchitectureTable, table_named};
use crate::args::has_repeated_index;
use crate::condition::{Condition, Conditions};
use crate::entry::Entry;
use crate::limits::MAX_RULES;
use crate::load_fault::LoadFault;
use crate::rule::Rule;
use crate::texts::{BorrowedTexts, Texts};
use scf_insn::Answer;
use std::alloc::{AllocError, Global};

/// The syscall numbers of the names that a table has, as its architecture's records have them. The other names are
/// added to those that tables lack.
fn numbers_of<'v>(
    alloc: Global,
    table: &ArchitectureTable,
    names: &BorrowedTexts<'v>,
    lacking: &mut BorrowedTexts<'v>,
) -> Result<Vec<u32>, AllocError>
    ensures numbers { IfOk result (λ numbers.
        numbers.items ≡ numbers_named table.now.architecture table.now.table.now names.now) }
    ensures lacking { OnOk result (lacking.new ≡ lacking.old ++ names_lacking table.now.table.now names.now) }
{
    let mut numbers = Vec::new(alloc);
    for name in names.as_slice() {
        match table.table.number_of(name) {
            Some(number) => numbers.push(table.architecture.first() + number)?,
            None => lacking.push(name)?,
        }
    }
    Ok(numbers)
}

/// Adds the rules by conditions for syscall numbers.
#[tactic(auto, using(std::proofs::lemmas::Grind::common_steps, scf_insn::proofs::Common::nat_tests))]
fn add_rules(
    rules: &mut Vec<Rule>,
    alloc: Global,
    index: u32,
    conditions: &[Condition],
    answer: Answer,
    numbers: &[u32],
) -> Result<(), LoadFault>
    requires { vec_len rules.old ≤ max_rules }
    ensures { AddsRules rules.old.items (rules_numbered index conditions.now answer numbers.now)
        result rules.new.items }
{
    for number in numbers {
        if rules.len() == MAX_RULES {
            return Err(LoadFault::TooMany);
        }
        let conditions = Conditions::from_vec(Vec::from_slice(alloc, conditions)?);
        rules.push(Rule {
            number: *number,
            conditions,
            answer,
            entry: index,
        })?;
    }
    Ok(())
}

/// Adds the rules of an entry, by each of its conditions alone if two are on one argument; none if entries with its
/// answer are left out. The names that the table lacks are added to others.
#[tactic(auto, using(std::proofs::lemmas::Grind::common_steps, crate::proofs::StatedRules::conditions_first))]
fn add_entry<'v>(
    rules: &mut Vec<Rule>,
    lacking: &mut BorrowedTexts<'v>,
    alloc: Global,
    table: &ArchitectureTable,
    left_out: Option<Answer>,
    index: u32,
    entry: &Entry<'v>,
) -> Result<(), LoadFault>
    requires { vec_len rules.old ≤ max_rules }
    ensures rules { AddsRules rules.old.items
        (rules_of_entry left_out table.now.architecture table.now.table.now index entry.now) result rules.new.items }
    ensures lacking { OnOk result (lacking.new ≡ lacking.old ++ names_lacking table.now.table.now entry.now.names) }
{
    let numbers = numbers_of(alloc, table, &entry.names, lacking)?;
    if matches!(left_out, Some(answer) if answer == entry.answer) {
        return Ok(());
    }
    let conditions = entry.conditions.as_slice();
    if !has_repeated_index(conditions) {
        return add_rules(rules, alloc, index, conditions, entry.answer, &numbers);
    }
    for condition in conditions {
        add_rules(rules, alloc, index, &[*condition], entry.answer, &numbers)?;
    }
    Ok(())
}

/// The rules of entries under the table of an architecture, at most `MAX_RULES`; none of entries with the answer that
/// is left out. The names that the table lacks are added to others.
#[tactic(auto, using(std::proofs::lemmas::Grind::common_steps, scf_insn::proofs::Common::append_assoc))]
pub(crate) fn rules_under<'v>(
    alloc: Global,
    table: &ArchitectureTable,
    left_out: Option<Answer>,
    entries: &[Entry<'v>],
    lacking: &mut BorrowedTexts<'v>,
) -> Result<Vec<Rule>, LoadFault>
    requires { length entries.now ≤ 2 ^ 32 }
    ensures rules { IfOk result (λ rules. rules.items
        ≡ rules_from left_out table.now.architecture table.now.table.now 0 entries.now) }
    ensures few { IfOk result (λ rules. vec_len rules ≤ max_rules) }
    ensures err { IfErr result (TellsTooMany
        (rules_from left_out table.now.architecture table.now.table.now 0 entries.now)) }
    ensures lacking { OnOk result (lacking.new
        ≡ lacking.old ++ names_lacking table.now.table.now (flat_map (λ e. e.names) entries.now)) }
{
    let mut rules = Vec::new(alloc);
    for (i, entry) in entries.iter().enumerate() {
        add_entry(&mut rules, lacking, alloc, table, left_out, i as u32, entry)?;
    }
    Ok(rules)
}

/// The names of entries, in order.
pub(crate) fn names_of<'v>(
    alloc: Global,
    entries: &[Entry<'v>],
) -> Result<BorrowedTexts<'v>, AllocError>
    ensures { IfOk result (λ names. names ≡ flat_map (λ e. e.names) entries.now) }
{
    let mut names = BorrowedTexts::new(alloc);
    for entry in entries {
        names.append(&entry.names)?;
    }
    Ok(names)
}

/// Whether no table has a name.
fn is_in_none(tables: &[ArchitectureTable], name: &str) -> bool
    ensures { result ≡ in_none (tables_of tables.now) name.now }
{
    for table in tables {
        if table.table.number_of(name).is_some() {
            return false;
        }
    }
    true
}

/// Those of names that no table has.
#[tactic(auto, using(std::proofs::lemmas::Grind::common_steps, crate::proofs::StatedRules::skipped_first))]
pub(crate) fn skipped_of(
    alloc: Global,
    tables: &[ArchitectureTable],
    names: &BorrowedTexts,
) -> Result<Texts, AllocError>
    ensures { IfOk result (λ skipped. skipped ≡ filter (in_none (tables_of tables.now)) names.now) }
{
    let mut skipped = Texts::new(alloc);
    for name in names.as_slice() {
        if is_in_none(tables, name) {
            skipped.push(alloc, name)?;
        }
    }
    Ok(skipped)
}

/// Whether an architecture of this name has a table.
fn has_table(tables: &[ArchitectureTable], name: &str) -> bool
    ensures { result ≡ list_any (λ t. named name.now t.0) (tables_of tables.now) }
{
    table_named(tables, name).is_some()
}

/// The architectures that have no table.
#[tactic(auto, using(std::proofs::lemmas::Grind::common_steps, crate::proofs::StatedRules::skipped_first))]
pub(crate) fn other_architectures(
    alloc: Global,
    tables: &[ArchitectureTable],
    architectures: &BorrowedTexts,
) -> Result<Texts, AllocError>
    ensures { IfOk result (λ others. others ≡ other_names (tables_of tables.now) architectures.now) }
{
    let mut others = Texts::new(alloc);
    for name in architectures.as_slice() {
        if !has_table(tables, name) {
            others.push(alloc, name)?;
        }
    }
    Ok(others)
}
