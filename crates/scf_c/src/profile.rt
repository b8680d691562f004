//! A profile by itself.

ghost use Rattle.std.specs.Prelude.{◌≡◌, ◌⊎◌, ℕ, List, IfErr, IfOk};
ghost use Rattle.scf_profile.specs.ProfileAnswers.{ProfilesAnswer};
ghost use Rattle.scf_profile.specs.Reasons.{IsReasonAmong};
ghost use Rattle.scf_profile.specs.declared.loaded.LoadedProfiles.{LoadedProfiles};
ghost use Rattle.scf_profile.specs.declared.reason.Reason.{Reason};
ghost use Rattle.scf_profile.specs.declared.table_fault.TableFault.TheVariants as tables;
ghost use Rattle.scf_tool.specs.declared.verify_fault.VerifyFault.TheVariants as verifies;
ghost use Rattle.scf_tool.specs.Commands.{AreStated, CantLoadEach, IsFilterOfEach};
ghost use Rattle.scf_tool.specs.Faults.{compile_row, verify_row};
ghost use Rattle.scf_c.specs.Architectures.{texts_of};
ghost use Rattle.scf_c.specs.Endings.{EndsAsked, IsHandedOut, IsNothingHandedOut, IsOneOrNone, IsRefusal};
ghost use Rattle.scf_c.specs.Layout.{record_of};
ghost use Rattle.scf_c.specs.Profiles.{
  IsCompilationRefused,
  IsLoaded,
  IsProfileRefused,
  IsReadUnder,
  answer_of,
  entry_of,
  left_out_of,
  no_answer,
  nothing_left_out,
  reading_number,
  reason_number,
};

use crate::ending::{OK, WRONG_ARGUMENT, hand_out, or_refuse};
use crate::layout::{Call, Fault, LeftOutCounts, ProfileAnswer, ProfileInput, Table};
use crate::tables::{are_meant, listed_of, stubs_of, table_readers_of};
use scf_insn::Memory;
use scf_profile::{LoadedProfiles, Reading, Reason, TableFault};
use scf_tool::{
    Interpretation, VerifyFault, compile_row, filter_of_each, load_with_tables, verify_row,
};
use std::alloc::Global;

/// The reading that the numbers of a profile ask for, if each has a meaning, and there are tables, and theirs have one.
pub(crate) fn reading_under(profile: &ProfileInput, tables: &[Table]) -> Option<Reading>
    ensures { IsOneOrNone (IsReadUnder profile.now tables.now) result }
{
    let [first, second] = profile.reserved;
    if profile.flags > 1 || first != 0 || second != 0 || tables.is_empty() || !are_meant(tables) {
        return None;
    }
    match profile.reading {
        0 => Some(Reading::Strict),
        1 => Some(Reading::Runc),
        2 => Some(Reading::Crun),
        3 => Some(Reading::Sandbox),
        _ => None,
    }
}

/// Memory ran out for the tables.
fn no_tables(_why: Memory) -> VerifyFault
    ensures { result ≡ verifies.Table tables.Memory }
{
    VerifyFault::Table(TableFault::Memory)
}

/// What a profile and tables state, all of which are used.
fn loaded_under(
    alloc: Global,
    by: &Interpretation,
    text: &[u8],
    tables: &[Table],
) -> Result<LoadedProfiles, VerifyFault>
    ensures stated { IfOk result (AreStated by.now text.now (texts_of tables.now)) }
    ensures refused { IfErr result (CantLoadEach by.now text.now (texts_of tables.now)) }
{
    let readers = table_readers_of(alloc, tables).map_err(no_tables)?;
    load_with_tables(alloc, by, text, &readers)
}

/// What a profile and the tables that are used state.
pub(crate) fn loaded(
    alloc: Global,
    profile: &ProfileInput,
    tables: &[Table],
    reading: Reading,
) -> Result<LoadedProfiles, VerifyFault>
    ensures stated { IfOk result (IsLoaded profile.now tables.now reading) }
    ensures refused { IfErr result (IsProfileRefused profile.now tables.now reading) }
{
    let stubs = stubs_of(alloc, tables).map_err(no_tables)?;
    let by = Interpretation::new(reading, stubs);
    if profile.flags == 0 {
        return loaded_under(alloc, &by, profile.text, tables);
    }
    let listed = loaded_under(alloc, &by, profile.text, &[])?;
    let names = listed.other_architectures.as_slice();
    let used = listed_of(alloc, reading, names, tables).map_err(no_tables)?;
    loaded_under(alloc, &by, profile.text, &used)
}

/// How much of a profile has no table.
pub(crate) fn left_out_of(loaded: &LoadedProfiles) -> LeftOutCounts
    ensures { result ≡ left_out_of loaded.now }
{
    LeftOutCounts {
        not_looked_at: loaded.other_architectures.as_slice().len() as u64,
        skipped: loaded.skipped.as_slice().len() as u64,
        reserved: [0; 4],
    }
}

/// The filter that answers as a profile does for each architecture that has a table.
#[unsafe(no_mangle)]
pub extern "C" fn scf_compile(
    alloc: Global,
    profile: &ProfileInput,
    tables: &[Table],
    filter: &mut [u8],
    needed: &mut usize,
    left_out: &mut LeftOutCounts,
    fault: &mut Fault,
) -> u32
    ensures { EndsAsked (IsReadUnder profile.now tables.now)
        (λ reading. (loaded : LoadedProfiles) × IsLoaded profile.now tables.now reading loaded
        × (bytes : List ℕ) × IsFilterOfEach loaded.profiles bytes
        × IsHandedOut bytes filter.old filter.new needed.new × (left_out.new ≡ left_out_of loaded)) (λ _. ⊥)
        (λ reading status fault. IsRefusal verify_row (IsProfileRefused profile.now tables.now reading) status fault
        ⊎ IsRefusal compile_row (IsCompilationRefused profile.now tables.now reading) status fault)
        (IsNothingHandedOut filter.old filter.new needed.new × (left_out.new ≡ nothing_left_out)) result fault.new }
{
    *needed = 0;
    *left_out = LeftOutCounts::default();
    *fault = Fault::default();
    let Some(reading) = reading_under(profile, tables) else {
        return WRONG_ARGUMENT;
    };
    let loaded = or_refuse!(loaded(alloc, profile, tables, reading), verify_row, fault);
    let bytes = or_refuse!(
        filter_of_each(alloc, &loaded.profiles, &[]),
        compile_row,
        fault
    );
    hand_out(&bytes, filter, needed);
    *left_out = left_out_of(&loaded);
    OK
}

/// A reason as a number, and the index of its entry.
pub(crate) fn numbers_of_reason(reason: Reason) -> (u32, u32)
    ensures { result ≡ (reason_number reason, entry_of reason) }
{
    match reason {
        Reason::Default => (1, 0),
        Reason::Entry(entry) => (2, entry),
        Reason::Foreign => (3, 0),
        Reason::Stub => (4, 0),
    }
}

/// What the profile of a call's architecture answers to it, and why. An architecture without a table counts as another
/// ABI.
#[unsafe(no_mangle)]
pub extern "C" fn scf_ask(
    alloc: Global,
    profile: &ProfileInput,
    tables: &[Table],
    call: &Call,
    answer: &mut ProfileAnswer,
    fault: &mut Fault,
) -> u32
    ensures { EndsAsked (IsReadUnder profile.now tables.now)
        (λ reading. (loaded : LoadedProfiles) × IsLoaded profile.now tables.now reading loaded
        × (value : ℕ) × ProfilesAnswer loaded.profiles (record_of call.now) value
        × (reason : Reason) × IsReasonAmong loaded.profiles (record_of call.now) reason
        × (answer.new ≡ answer_of value reason loaded)) (λ _. ⊥)
        (λ reading. IsRefusal verify_row (IsProfileRefused profile.now tables.now reading))
        (answer.new ≡ no_answer) result fault.new }
{
    *answer = ProfileAnswer::default();
    *fault = Fault::default();
    let Some(reading) = reading_under(profile, tables) else {
        return WRONG_ARGUMENT;
    };
    let loaded = or_refuse!(loaded(alloc, profile, tables, reading), verify_row, fault);
    let record = call.record();
    let (reason, entry) = numbers_of_reason(loaded.profiles.reason(&record));
    *answer = ProfileAnswer {
        answer: loaded.profiles.answer(&record).0,
        reason,
        entry,
        unused: 0,
        left_out: left_out_of(&loaded),
    };
    OK
}
