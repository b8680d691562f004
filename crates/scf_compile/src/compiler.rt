//! From profiles to a filter.

ghost use Rattle.std.specs.Prelude.{◌≡◌, ◌+◌, ◌*◌, ◌^◌, ◌<◌, ◌≤◌, [], ◌∷◌, All, IfErr, IfOk, List, OnOk, length, max};
ghost use Rattle.scf_insn.specs.Architectures.{row_of};
ghost use Rattle.scf_machine.specs.Machine.{RunAnswers};
ghost use Rattle.scf_machine.specs.Plain.{IsPlainProgram};
ghost use Rattle.scf_profile.specs.PlainProfile.{IsPlainProfile};
ghost use Rattle.scf_insn.specs.Kernel.{bpf_maxinsns};
ghost use Rattle.scf_profile.specs.Profile.{AreOfApart, IsProfile, Profile};
ghost use Rattle.scf_profile.specs.SameAnswers.{SameAnswers, SameAnswersAsEach};
ghost use Rattle.scf_compile.specs.SearchBound.{AnswersWithin, search_bound_of, search_bound_of_each};
ghost use Rattle.scf_compile.specs.SizeBound.{size_bound_of, size_bound_of_each};
ghost use Rattle.scf_compile.specs.internal.Filters.{AreSearched, IsFilterOf, IsSearchPut, MayBePut, most_ranges};
ghost use Rattle.scf_compile.specs.internal.NrRanges.{AreAllRanges, AreRangesOf, IsStubStart};

use crate::dispatch::{Search, put_dispatch, put_only_gate};
use crate::fault::CompileFault;
use crate::insns::load_word;
use crate::placing::Position;
use crate::ranges::{NrRange, cut, fill, ranges_of};
use crate::rules::constant_rule;
use crate::search::{Leaves, put_search};
use crate::size::number_count;
use crate::weights::{CallCount, range_weights};
use scf_insn::kernel::BPF_MAXINSNS;
use scf_insn::{Insn, Memory};
use scf_machine::{CheckFault, Program, check};
use scf_profile::{FOREIGN_ANSWER, Profile, Rule, STUB_ANSWER};
use std::alloc::{AllocError, Global};
use std::collections::VecDeque;

/// The first number of a profile's architecture that its stub answers; without one, the number behind the last.
fn stub_start(profile: &Profile) -> u64
    ensures { IsStubStart profile.now result }
{
    let (first, last) = (
        profile.architecture().first(),
        profile.architecture().last(),
    );
    match profile.stub() {
        Some(stub) if stub <= last => u64::from(stub.max(first)),
        _ => u64::from(last) + 1,
    }
}

/// The ranges of a profile's syscall numbers: those of its rules, and from its stub on those of the stub's rules.
fn own_ranges<'a>(
    alloc: Global,
    profile: &'a Profile,
    stub: &'a [Rule],
) -> Result<Vec<NrRange<'a>>, AllocError>
    ensures profile { IsProfile profile.now }
    ensures ranges { IfOk result (λ ranges. AreRangesOf profile.now stub.now ranges.items) }
{
    let architecture = profile.architecture();
    let default = profile.default_answer();
    let mut ranges = ranges_of(alloc, architecture, profile.numbers(), default)?;
    let start = stub_start(profile);
    cut(&mut ranges, start);
    let end = u64::from(architecture.last()) + 1;
    fill(&mut ranges, start, end, stub)?;
    Ok(ranges)
}

/// Puts the binary search over ranges of a profile's rules, cut by the counts of calls, in front of the code.
fn put_ranges(
    alloc: Global,
    code: &mut VecDeque<Insn>,
    profile: &Profile,
    ranges: &[NrRange],
    counts: &[CallCount],
) -> Result<Position, Memory>
    requires ranges { MayBePut profile.now ranges.now }
    requires few { length code.now.items ≤ 2 ^ 31 }
    ensures { IfOk result (IsSearchPut profile.now.architecture profile.now.default_answer (most_ranges profile.now)
        ranges.now code.old.items code.new.items) }
{
    let weights = range_weights(alloc, profile, ranges, counts)?;
    // Two for each number with rules, its own and the gap in front of it, as many for the stub, and two behind them.
    let most = 2 * number_count(profile) + 2;
    let leaves = Leaves {
        architecture: profile.architecture(),
        default: profile.default_answer(),
        earlier: Position(code.len()),
    };
    let index = put_search(alloc, code, leaves, ranges, &weights, most)?;
    Ok(index)
}

/// Puts the binary search for a profile's rules in front of those of other profiles.
fn put_profile(
    alloc: Global,
    code: &mut VecDeque<Insn>,
    searches: &mut VecDeque<Search>,
    profile: &Profile,
    counts: &[CallCount],
) -> Result<(), Memory>
    requires { length code.now.items < 2 ^ 31 }
    ensures put { OnOk result ((ps : List Profile) → AreSearched ps code.old.items searches.old.items
        → AreSearched (profile.now ∷ ps) code.new.items searches.new.items) }
    ensures small { OnOk result (length code.new.items ≤ length code.old.items + 2 ^ 18) }
{
    let stub = constant_rule(alloc, profile.architecture(), STUB_ANSWER);
    let ranges = own_ranges(alloc, profile, std::slice::from_ref(&stub))?;
    let index = put_ranges(alloc, code, profile, &ranges, counts)?;
    searches.push_front(Search {
        architecture: profile.architecture(),
        index,
    })?;
    Ok(())
}

/// The binary searches for the rules of profiles, and where each begins.
fn searches_of(
    alloc: Global,
    profiles: &[Profile],
    counts: &[CallCount],
) -> Result<(VecDeque<Insn>, Vec<Search>), Memory>
    requires { length profiles.now ≤ bpf_maxinsns }
    ensures put { IfOk result (λ put. AreSearched profiles.now put.0.items put.1.items) }
    ensures small { IfOk result (λ put. length put.0.items ≤ 2 ^ 18 * length profiles.now) }
{
    let mut code = VecDeque::new(alloc);
    let mut searches = VecDeque::new(alloc);
    for i in (0..profiles.len()).rev() {
        put_profile(alloc, &mut code, &mut searches, &profiles[i], counts)?;
    }
    Ok((code, Vec::from(searches)))
}

/// The ranges of a profile's syscall numbers, and behind them one of other rules for the numbers above its
/// architecture's, if there are any.
fn all_ranges<'a>(
    alloc: Global,
    profile: &'a Profile,
    stub: &'a [Rule],
    others: &'a [Rule],
) -> Result<Vec<NrRange<'a>>, AllocError>
    ensures profile { IsProfile profile.now }
    ensures ranges { IfOk result (λ ranges. AreAllRanges profile.now stub.now others.now ranges.items) }
{
    let mut ranges = own_ranges(alloc, profile, stub)?;
    fill(
        &mut ranges,
        u64::from(profile.architecture().last()) + 1,
        1 << 32,
        others,
    )?;
    Ok(ranges)
}

/// The instructions of the filter of one profile, whose architecture's numbers begin at 0. The numbers behind them are
/// one more range of the search, in place of a test that each record would take.
fn filter_of_one(
    alloc: Global,
    profile: &Profile,
    counts: &[CallCount],
) -> Result<Vec<Insn>, Memory>
    requires { (row_of profile.now.architecture).first ≡ 0 }
    ensures { IfOk result (λ code. IsFilterOf (profile.now ∷ []) code.items) }
{
    let architecture = profile.architecture();
    let stub = constant_rule(alloc, architecture, STUB_ANSWER);
    let foreign = constant_rule(alloc, architecture, FOREIGN_ANSWER);
    let ranges = all_ranges(
        alloc,
        profile,
        std::slice::from_ref(&stub),
        std::slice::from_ref(&foreign),
    )?;
    let mut code = VecDeque::new(alloc);
    put_ranges(alloc, &mut code, profile, &ranges, counts)?;
    put_only_gate(&mut code, architecture.audit())?;
    Ok(Vec::from(code))
}

/// The instructions of the filter of profiles: a search for each, and what leads a record to its search.
fn filter_of(alloc: Global, profiles: &[Profile], counts: &[CallCount]) -> Result<Vec<Insn>, Memory>
    requires few { length profiles.now ≤ bpf_maxinsns }
    requires apart { AreOfApart profiles.now }
    ensures { IfOk result (λ code. IsFilterOf profiles.now code.items) }
{
    if profiles.len() == 1 && profiles[0].architecture().first() == 0 {
        return filter_of_one(alloc, &profiles[0], counts);
    }
    let (mut code, searches) = searches_of(alloc, profiles, counts)?;
    put_dispatch(alloc, &mut code, &searches)?;
    code.push_front(load_word(1))?;
    Ok(Vec::from(code))
}

/// Compiles profiles, of which no two are for one record, to a filter that answers every call record as the profile of
/// its architecture does, in all 32 bits, and with KILL_PROCESS if there is none: also if the text of the profiles
/// lists its architecture, but no table of it was handed in. Each run takes at most as many steps as `compile` states
/// for the profile that takes the most, plus 2 for each other profile. Plain profiles give a plain program. It has at
/// most as many instructions as the sum of their size bounds, or 2 if there is no profile. `TooLarge` comes only if
/// that sum exceeds `BPF_MAXINSNS`, and `Memory` only if an allocation failed. Searches are cut by how often each
/// syscall is called, so that frequent ones take few steps; what is promised doesn't depend on the counts.
#[tactic(auto, using(crate::proofs::Valid::answers_same, crate::proofs::Valid::is_plain))]
pub fn compile_by_counts(
    alloc: Global,
    profiles: &[Profile],
    counts: &[CallCount],
) -> Result<Program, CompileFault>
    requires { AreOfApart profiles.now }
    ensures same { IfOk result (λ program. SameAnswersAsEach (RunAnswers program) profiles.now) }
    ensures searched { IfOk result (λ program. AnswersWithin program (search_bound_of_each profiles.now)) }
    ensures plain { All IsPlainProfile profiles.now → IfOk result IsPlainProgram }
    ensures sized { IfOk result (λ program. length program ≤ max 2 (size_bound_of_each profiles.now)) }
    ensures large { IfErr result
        (λ fault. fault ≡ CompileFault.TooLarge → bpf_maxinsns < size_bound_of_each profiles.now) }
{
    // Each of them has a size bound of at least 8.
    if profiles.len() > BPF_MAXINSNS {
        return Err(CompileFault::TooLarge);
    }
    let code = filter_of(alloc, profiles, counts)?;
    if code.as_slice().len() > BPF_MAXINSNS {
        return Err(CompileFault::TooLarge);
    }
    match check(alloc, code) {
        Ok(program) => Ok(program),
        Err((fault, _code)) => match fault {
            CheckFault::Memory => Err(CompileFault::Memory),
            _ => unreachable!(),
        },
    }
}

/// Compiles a profile to a filter that answers every call record as the profile does, in all 32 bits; also those of
/// other architectures. Each run takes at most 8 steps, plus 2 for each binary digit of the count of distinct syscall
/// numbers, plus, for the rules of one number, 2 for each rule and 8 for each condition; a stub counts as one more
/// number, with one rule. A plain profile gives a plain program. It has at most `size_bound` instructions. `TooLarge`
/// comes only if that exceeds `BPF_MAXINSNS`, and `Memory` only if an allocation failed.
pub fn compile(alloc: Global, profile: &Profile) -> Result<Program, CompileFault>
    ensures same { IfOk result (λ program. SameAnswers (RunAnswers program) profile.now) }
    ensures searched { IfOk result (λ program. AnswersWithin program (search_bound_of profile.now)) }
    ensures plain { IsPlainProfile profile.now → IfOk result IsPlainProgram }
    ensures sized { IfOk result (λ program. length program ≤ size_bound_of profile.now) }
    ensures large { IfErr result (λ fault. fault ≡ CompileFault.TooLarge → bpf_maxinsns < size_bound_of profile.now) }
{
    compile_by_counts(alloc, std::slice::from_ref(profile), &[])
}
