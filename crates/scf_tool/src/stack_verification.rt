//! Compares a stack of filters with a profile, from their bytes.

ghost use Rattle.std.specs.Prelude.{map};
ghost use Rattle.scf_tool.specs.Verifying.{LeavesProfileReader, LeavesTableReader};
ghost use Rattle.scf_tool.specs.VerifyingStacks.{LeavesFilterReaders, VerifiesStack};

use crate::filter_stack::read_stack;
use crate::verification::{Outcome, read_profile, read_table};
use crate::verify_fault::VerifyFault;
use scf_compare::compare_stack;
use scf_facts::WordSets;
use scf_insn::Source;
use scf_profile::Scope;
use std::alloc::Global;

/// Reads a stack of filters, a syscall table and a profile, and compares the stack with the profile over the records of
/// a scope, in at most `limit` steps. The table gives the profile's names their numbers.
///
/// The filters' readers are in the order of the stack, the oldest first. Each filter is read, checked and pushed before
/// the next; then the table is read, then the profile; the error is the first fault. Tables and profiles have at most
/// 4194304 bytes each.
///
/// `Same` is true of every record of the scope, and `Differs` shows one that is answered differently: see
/// `compare_stack`. Filters and a profile that are plain, or test under masks of at most 16 bits together, are
/// never left undecided.
pub fn verify_stack<F: Source, P: Source, T: Source>(
    alloc: Global,
    filter_readers: &mut [F],
    profile_reader: &mut P,
    table_reader: &mut T,
    scope: Scope,
    limit: u64,
) -> Result<Outcome, VerifyFault>
    ensures answer { VerifiesStack (map F.remaining filter_readers.old)
        (T.remaining table_reader.old) (P.remaining profile_reader.old) scope limit result }
    ensures filter_readers { LeavesFilterReaders F.remaining F.failures filter_readers.old result filter_readers.new }
    ensures table_reader { LeavesTableReader T.remaining T.failures table_reader.old result table_reader.new }
    ensures profile_reader { LeavesProfileReader P.remaining P.failures profile_reader.old result profile_reader.new }
{
    let stack = read_stack(alloc, filter_readers)?;
    let names = read_table(alloc, table_reader)?;
    let loaded = read_profile(alloc, profile_reader, &names)?;
    let verdict = compare_stack::<WordSets>(alloc, &stack, &loaded.profile, scope, limit)?;
    Ok(Outcome {
        verdict,
        skipped: loaded.skipped,
        other_architectures: loaded.other_architectures,
    })
}
