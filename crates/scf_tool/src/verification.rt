//! Compares a filter with a profile, from their bytes.

ghost use Rattle.std.specs.Prelude.{IfOk, IfErr};
ghost use Rattle.scf_tool.specs.Verifying.{
  IsLoaded,
  IsNoProfile,
  IsNoTable,
  IsTable,
  LeavesFilterReader,
  LeavesProfileReader,
  LeavesTableReader,
};
ghost use Rattle.scf_tool.specs.VerifyingFilters.{Verifies};

use crate::filter::read_filter;
use crate::verify_fault::VerifyFault;
use scf_compare::{Verdict, compare};
use scf_facts::WordSets;
use scf_insn::{Source, read_input};
use scf_profile::{CallTable, Loaded, MAX_TEXT_LEN, Texts, load};
use std::alloc::Global;

/// The verdict of a comparison, and what was left out of the profile.
#[derive(Drop)]
pub struct Outcome {
    pub verdict: Verdict,
    /// The names that the table lacks, each occurrence, in the order of the text.
    pub skipped: Texts,
    /// The architectures beside SCMP_ARCH_X86_64, each occurrence, in the order of the text.
    pub other_architectures: Texts,
}

/// Reads a syscall table.
pub(crate) fn read_table<R: Source>(alloc: Global, reader: &mut R) -> Result<CallTable, VerifyFault>
    ensures table { IfOk result (IsTable (R.remaining reader.old)) }
    ensures refused { IfErr result (IsNoTable (R.remaining reader.old)) }
    ensures reader { LeavesTableReader R.remaining R.failures reader.old result reader.new }
{
    let text = read_input(alloc, reader, MAX_TEXT_LEN).map_err(VerifyFault::TableRead)?;
    CallTable::read(alloc, &text).map_err(VerifyFault::Table)
}

/// Reads a profile under a syscall table.
pub(crate) fn read_profile<R: Source>(
    alloc: Global,
    reader: &mut R,
    names: &CallTable,
) -> Result<Loaded, VerifyFault>
    ensures loaded { IfOk result (IsLoaded (R.remaining reader.old) names.now) }
    ensures refused { IfErr result (IsNoProfile names.now (R.remaining reader.old)) }
    ensures reader { LeavesProfileReader R.remaining R.failures reader.old result reader.new }
{
    let text = read_input(alloc, reader, MAX_TEXT_LEN).map_err(VerifyFault::ProfileRead)?;
    Ok(load(alloc, &text, names)?)
}

/// Reads a filter, a syscall table and a profile, and compares the filter with the profile over every call record, in
/// at most `limit` steps. The table gives the profile's names their numbers.
///
/// The filter is read and checked, then the table is read, then the profile; the error is the first fault. Tables and
/// profiles have at most 4194304 bytes each.
///
/// `Same` is true of every call record, and `Differs` shows one that is answered differently: see `compare`. A filter
/// and a profile that are plain, or test under masks of at most 16 bits together, are never left undecided.
pub fn verify<F: Source, P: Source, T: Source>(
    alloc: Global,
    filter_reader: &mut F,
    profile_reader: &mut P,
    table_reader: &mut T,
    limit: u64,
) -> Result<Outcome, VerifyFault>
    ensures answer { Verifies
        (F.remaining filter_reader.old) (T.remaining table_reader.old) (P.remaining profile_reader.old)
        limit result }
    ensures filter_reader { LeavesFilterReader F.remaining F.failures filter_reader.old result filter_reader.new }
    ensures table_reader { LeavesTableReader T.remaining T.failures table_reader.old result table_reader.new }
    ensures profile_reader { LeavesProfileReader P.remaining P.failures profile_reader.old result profile_reader.new }
{
    let program = read_filter(alloc, filter_reader)?;
    let names = read_table(alloc, table_reader)?;
    let loaded = read_profile(alloc, profile_reader, &names)?;
    let verdict = compare::<WordSets>(alloc, &program, &loaded.profile, limit)?;
    Ok(Outcome {
        verdict,
        skipped: loaded.skipped,
        other_architectures: loaded.other_architectures,
    })
}
