//! From a text and syscall tables to profiles.

ghost use Rattle.std.specs.Prelude.{◌≡◌, ◌<◌, ◌≤◌, ◌^◌, ◌∷◌, [], All, filter_map, length, map, option_map, vec_len, Err, IfOk, IfErr, IfSome, OnOk};
ghost use Rattle.serde_json.specs.View.{view};
ghost use Rattle.scf_insn.specs.declared.answer.Answer.{Answer};
ghost use Rattle.scf_profile.specs.declared.load_fault.LoadFault.TheVariants.{Memory, TooMany};
ghost use Rattle.scf_profile.specs.internal.EntryRanges.{AreStatedRules, HasSkipped, IsEntry, TellsOneTooMany};
ghost use Rattle.scf_profile.specs.Limits.{max_text_len};
ghost use Rattle.scf_profile.specs.Loading.{IsText, Loads, LoadsEachAs, Refuses, RefusesEachAs};
ghost use Rattle.scf_profile.specs.internal.Refusals.{NamesFirstConflict, NamesLeastConflict, ParseRefuses};
ghost use Rattle.scf_profile.specs.internal.Results.{result_map};
ghost use Rattle.scf_profile.specs.internal.Stated.{effective_of, loaded_profiles_of, stated_profile};
ghost use Rattle.scf_profile.specs.Profile.{AreOfApart, HaveNoConflict};
ghost use Rattle.scf_profile.specs.Readings.{effective_rules as effective_by};
ghost use Rattle.scf_profile.specs.Steps.{Gives};
ghost use Rattle.scf_profile.specs.StatedProfile.{entries_of as entries_stated, profile_for, profiles_from, profiles_of, tables_of};

use crate::action::find_answer;
use crate::architecture_table::{ArchitectureTable, table_for};
use crate::conflict::least_conflict;
use crate::effective::effective_rules;
use crate::entry::Entry;
use crate::expand::{names_of, other_architectures, rules_under, skipped_of};
use crate::forms::{check_no_engine_form, find_items, strings_of};
use crate::limits::MAX_TEXT_LEN;
use crate::load_fault::LoadFault;
use crate::loaded::{Loaded, LoadedProfiles};
use crate::number_rules::by_number;
use crate::object::{check_listed, find_seccomp};
use crate::profile::Profile;
use crate::profiles::Profiles;
use crate::reading::Reading;
use crate::rule::Rule;
use crate::table::CallTable;
use crate::texts::{BorrowedTexts, Texts};
use scf_insn::{Answer, Architecture};
use serde_json::Value;
use std::alloc::Global;

/// The JSON value of a text.
fn parse(alloc: Global, text: &[u8]) -> Result<Value, LoadFault>
    ensures ok { IfOk result (λ v. IsText text.now (view v)) }
    ensures err { IfErr result (λ e. ParseRefuses text.now e) }
    ensures long { max_text_len < length text.now → result ≡ Err TooMany }
{
    if text.len() > MAX_TEXT_LEN {
        return Err(LoadFault::TooMany);
    }
    match Value::from_slice(alloc, text) {
        Ok(value) => Ok(value),
        Err(error) if error.is_memory() => Err(LoadFault::Memory),
        Err(_) => Err(LoadFault::Json),
    }
}

/// Parses the entries, each with its index.
#[tactic(auto, using(crate::proofs::Loops::items_left), unfolding(crate::specs::JsonMembers::each, crate::specs::StatedProfile::entries_of))]
fn read_entries(
    alloc: Global,
    reading: Reading,
    object: &Value,
) -> Result<Vec<Entry<'_>>, LoadFault>
    ensures value { Gives Memory (result_map (λ v. v.items) result) (entries_stated reading (view object.now)) }
    ensures range { IfOk result (λ v. All IsEntry v.items) }
    ensures count { IfOk result (λ v. vec_len v ≤ 2 ^ 32) }
{
    check_no_engine_form(None, "archMap", object)?;
    let mut entries = Vec::new(alloc);
    for item in find_items(None, "syscalls", object)? {
        // A text of `MAX_TEXT_LEN` bytes has fewer entries than `u32` has values.
        let Ok(index) = u32::try_from(entries.len()) else {
            return Err(LoadFault::Memory);
        };
        let entry = Entry::read(alloc, reading, index, item)?;
        entries.push(entry)?;
    }
    Ok(entries)
}

/// Rules of an architecture before the test for conflicts.
#[derive(Drop)]
struct StatedRules {
    architecture: Architecture,
    rules: Vec<Rule>,
}

/// The profile of the rules that are effective by a reading, unless two of them conflict or an allocation fails.
#[tactic(auto, using(crate::proofs::StatedRules::effective_stated))]
fn effective_profile(
    alloc: Global,
    reading: Reading,
    default_answer: Answer,
    stated: StatedRules,
) -> Result<Profile, LoadFault>
    requires rules { AreStatedRules stated.architecture stated.rules.items }
    requires default_answer { default_answer.0 < 2 ^ 32 }
    ensures ok { IfOk result (λ profile. profile ≡ effective_of reading default_answer stated) }
    ensures no_conflict { IfOk result (λ profile. HaveNoConflict profile.architecture profile.rules) }
    ensures err { IfErr result (NamesLeastConflict stated.architecture
        (effective_by reading stated.architecture stated.rules.items)) }
{
    let architecture = stated.architecture;
    let rules = effective_rules(alloc, reading, architecture, stated.rules)?;
    let numbers = by_number(alloc, &rules)?;
    match least_conflict(architecture, &numbers) {
        Some(clash) => Err(LoadFault::Conflict {
            number: clash.number,
            first: clash.first,
            second: clash.second,
        }),
        None => Ok(Profile::new(architecture, default_answer, rules, numbers)),
    }
}

/// Profiles of several architectures before the test for conflicts.
#[derive(Drop)]
struct StatedProfiles {
    default_answer: Answer,
    rules: Vec<StatedRules>,
    skipped: Texts,
    other_architectures: Texts,
}

/// The rules of entries for an architecture, if it has a table; then those names of the entries that the table lacks
/// take the place of others.
#[tactic(auto, using(crate::proofs::StatedRules::stated_rules, crate::proofs::StatedRules::skipped_among))]
fn rules_for<'v>(
    alloc: Global,
    tables: &[ArchitectureTable],
    left_out: Option<Answer>,
    entries: &[Entry<'v>],
    architecture: Architecture,
    lacking: &mut BorrowedTexts<'v>,
) -> Result<Option<StatedRules>, LoadFault>
    requires count { length entries.now ≤ 2 ^ 32 }
    requires range { All IsEntry entries.now }
    ensures rules { IfOk result (λ rules. (default : Answer) → option_map (stated_profile default) rules
        ≡ profile_for left_out (tables_of tables.now) default entries.now architecture) }
    ensures range { IfOk result (λ rules. IfSome rules (λ s. AreStatedRules s.architecture s.rules.items)) }
    ensures err { IfErr result (λ fault. (default : Answer) → TellsOneTooMany
        (filter_map (profile_for left_out (tables_of tables.now) default entries.now) (architecture ∷ [])) fault) }
    ensures lacking { OnOk result (HasSkipped (tables_of tables.now) entries.now lacking.old
        → HasSkipped (tables_of tables.now) entries.now lacking.new) }
{
    let Some(table) = table_for(tables, architecture) else {
        return Ok(None);
    };
    let named_table = ArchitectureTable {
        architecture,
        table,
    };
    lacking.clear();
    let rules = rules_under(alloc, &named_table, left_out, entries, lacking)?;
    table.within_range();
    Ok(Some(StatedRules {
        architecture,
        rules,
    }))
}

/// The rules of entries for each architecture that has a table. Only those names are kept that some table lacks.
fn stated_for<'v>(
    alloc: Global,
    tables: &[ArchitectureTable],
    left_out: Option<Answer>,
    entries: &[Entry<'v>],
    names: &mut BorrowedTexts<'v>,
) -> Result<Vec<StatedRules>, LoadFault>
    requires count { length entries.now ≤ 2 ^ 32 }
    requires range { All IsEntry entries.now }
    ensures rules { IfOk result (λ stated. (default : Answer)
        → map (stated_profile default) stated.items
        ≡ profiles_from left_out (tables_of tables.now) default entries.now) }
    ensures range { IfOk result (λ stated. All (λ s. AreStatedRules s.architecture s.rules.items) stated.items) }
    ensures err { IfErr result (λ fault. (default : Answer)
        → TellsOneTooMany (profiles_from left_out (tables_of tables.now) default entries.now) fault) }
    ensures names { OnOk result (HasSkipped (tables_of tables.now) entries.now names.old
        → HasSkipped (tables_of tables.now) entries.now names.new) }
{
    let mut stated = Vec::new(alloc);
    let architectures = Architecture::all();
    for architecture in &architectures {
        if let Some(rules) = rules_for(alloc, tables, left_out, entries, *architecture, names)? {
            stated.push(rules)?;
        }
    }
    Ok(stated)
}

/// Parses the root under tables of several architectures, or the first test that fails.
#[tactic(auto, unfolding(crate::specs::JsonMembers::each, crate::specs::StatedProfile::profiles_of))]
fn read_root_for(
    alloc: Global,
    reading: Reading,
    tables: &[ArchitectureTable],
    root: &Value,
) -> Result<StatedProfiles, LoadFault>
    ensures value { Gives Memory (result_map (loaded_profiles_of reading) result)
        (profiles_of reading (tables_of tables.now) (view root.now)) }
    ensures range { IfOk result (λ s. All (λ r. AreStatedRules r.architecture r.rules.items) s.rules.items) }
    ensures default_range { IfOk result (λ s. s.default_answer.0 < 2 ^ 32) }
    ensures apart { IfOk result (λ s. AreOfApart (map (effective_of reading s.default_answer) s.rules.items)) }
{
    let object = find_seccomp(root)?;
    let default_answer = find_answer(reading, None, "defaultAction", "defaultErrnoRet", object)?;
    let architectures = strings_of(alloc, None, find_items(None, "architectures", object)?)?;
    check_listed(reading, tables, &architectures)?;
    let entries = read_entries(alloc, reading, object)?;
    let left_out = reading.left_out(default_answer);
    let mut names = names_of(alloc, &entries)?;
    let rules = stated_for(alloc, tables, left_out, &entries, &mut names)?;
    let skipped = skipped_of(alloc, tables, &names)?;
    let other_architectures = other_architectures(alloc, tables, &architectures)?;
    Ok(StatedProfiles {
        default_answer,
        rules,
        skipped,
        other_architectures,
    })
}

/// The profiles, unless two rules of one conflict or an allocation fails.
fn all_without_conflict(
    alloc: Global,
    reading: Reading,
    default_answer: Answer,
    stated: Vec<StatedRules>,
) -> Result<Profiles, LoadFault>
    requires rules { All (λ s. AreStatedRules s.architecture s.rules.items) stated.items }
    requires default_answer { default_answer.0 < 2 ^ 32 }
    requires apart { AreOfApart (map (effective_of reading default_answer) stated.items) }
    ensures ok { IfOk result (λ profiles. profiles ≡ map (effective_of reading default_answer) stated.items) }
    ensures no_conflict { IfOk result (λ profiles.
        All (λ p. HaveNoConflict p.architecture p.rules) profiles) }
    ensures err { IfErr result (NamesFirstConflict (map (effective_of reading default_answer) stated.items)) }
{
    let mut profiles = Vec::new(alloc);
    for rules in stated {
        profiles.push(effective_profile(alloc, reading, default_answer, rules)?)?;
    }
    Ok(Profiles::from_vec(profiles))
}

/// Loads the profile of each architecture that has a table, from JSON text (at most 4194304 bytes), by a reading. The
/// architecture of each table has to be listed; a container runtime adds the machine's own to those that are listed:
/// x86-64 if it has a table, else aarch64. An error is the first test that fails, the last being that no two rules of
/// one architecture conflict, or `Memory` if an allocation failed.
pub fn load_profiles_as(
    alloc: Global,
    reading: Reading,
    text: &[u8],
    tables: &[ArchitectureTable],
) -> Result<LoadedProfiles, LoadFault>
    ensures ok { IfOk result (λ loaded. LoadsEachAs reading text.now (tables_of tables.now) loaded) }
    ensures err { IfErr result (λ fault. RefusesEachAs reading text.now (tables_of tables.now) fault) }
    // A text that is too long is refused before anything is allocated.
    ensures long { max_text_len < length text.now → result ≡ Err TooMany }
{
    let stated = {
        let value = parse(alloc, text)?;
        read_root_for(alloc, reading, tables, &value)?
    };
    Ok(LoadedProfiles {
        profiles: all_without_conflict(alloc, reading, stated.default_answer, stated.rules)?,
        skipped: stated.skipped,
        other_architectures: stated.other_architectures,
    })
}

/// Loads a profile for x86-64 alone from JSON text (at most 4194304 bytes), by its words: `load_profiles_as` under one
/// table, which gives the names their numbers. An error is the first test that fails, the last being that no two rules
/// conflict, or `Memory` if an allocation failed. In place of `NotListed` comes `NoX8664`.
pub fn load(alloc: Global, text: &[u8], table: &CallTable) -> Result<Loaded, LoadFault>
    ensures ok { IfOk result (λ loaded. Loads text.now table.now loaded) }
    ensures err { IfErr result (λ fault. Refuses text.now table.now fault) }
    // A text that is too long is refused before anything is allocated.
    ensures long { max_text_len < length text.now → result ≡ Err TooMany }
{
    let tables = [ArchitectureTable {
        architecture: Architecture::X8664,
        table,
    }];
    match load_profiles_as(alloc, Reading::Strict, text, &tables) {
        Ok(loaded) => Ok(loaded.into_only()),
        Err(fault) => Err(fault.of_only()),
    }
}
