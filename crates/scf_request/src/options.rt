//! Options that take a number, and flags.

ghost use Rattle.std.specs.Prelude.{◌≡◌, ◌≤◌, ◌∷◌, [], Some, None, IfOk, IfErr, is_some, length, map};
ghost use Rattle.std.specs.List.{AllByRecursion};
ghost use Rattle.clap.specs.Words.{first_of, found_of, rows_of};
ghost use Rattle.scf_request.specs.Options as table;
ghost use Rattle.scf_request.specs.Requests.{form_in, name_and_numbers};
ghost use Rattle.scf_request.specs.internal.Parsing.{flags_in, option_of, options_kept};

use crate::bundle::BundleForm;
use crate::request::{Command, Detail, Limits, Scopes};
use crate::request_fault::RequestFault;
use clap::ArgMatches;
use scf_insn::kernel::AUDIT_ARCH_X86_64;
use scf_insn::{CallRecord, parse_number};
use scf_profile::{Reading, Relation, Scope};
use thiserror::Error;

/// An option whose text isn't a number in its range.
#[derive(Clone, Copy, Debug, Error)]
#[error("the option {name} is no number in its range")]
pub struct NumberFault {
    pub name: &'static str,
}

/// An option that takes a number.
#[derive(Clone, Copy)]
pub(crate) struct NumberOption {
    pub name: &'static str,
    /// Its value if it isn't given.
    pub default: u64,
    /// Its greatest value.
    pub most: u64,
    /// Its help.
    pub help: &'static str,
}

/// The greatest 32-bit number.
const MAX_WORD: u64 = 0xffff_ffff;

/// A 32-bit option: its name, its value if it isn't given, and its help.
macro_rules! word {
    ($name:expr, $default:expr, $help:expr) => {
        NumberOption {
            name: $name,
            default: $default,
            most: MAX_WORD,
            help: $help,
        }
    };
}

/// A 64-bit option.
macro_rules! long {
    ($name:expr, $default:expr, $help:expr) => {
        NumberOption {
            name: $name,
            default: $default,
            most: u64::MAX,
            help: $help,
        }
    };
}

/// The options that describe a call record.
pub(crate) const CALL_OPTIONS: [NumberOption; 9] = [
    word!("nr", 0, "The number of the call [default: 0]"),
    word!(
        "arch",
        AUDIT_ARCH_X86_64 as u64,
        "The architecture [default: 0xc000003e, x86-64]"
    ),
    long!("ip", 0, "The instruction pointer [default: 0]"),
    long!("a0", 0, "Argument 0 [default: 0]"),
    long!("a1", 0, "Argument 1 [default: 0]"),
    long!("a2", 0, "Argument 2 [default: 0]"),
    long!("a3", 0, "Argument 3 [default: 0]"),
    long!("a4", 0, "Argument 4 [default: 0]"),
    long!("a5", 0, "Argument 5 [default: 0]"),
];

/// The option of the first number of a range.
const FIRST_NUMBER: &str = "nr-from";

/// The option of its last number.
const LAST_NUMBER: &str = "nr-to";

/// The options of a comparison: its most steps, those of all comparisons of `--calls` together, its most splits, and
/// the ends of a range of numbers.
pub(crate) const COMPARISON_OPTIONS: [NumberOption; 5] = [
    long!(
        "limit",
        1_000_000,
        "The most steps of a comparison [default: 1000000]"
    ),
    long!(
        "total-limit",
        10_000_000,
        "With --calls, the most steps of all its comparisons together [default: 10000000]"
    ),
    long!(
        "splits",
        10_000,
        "The most splits of a comparison that tests leave undecided; 2^64-1 for no limit [default: 10000]"
    ),
    word!(
        FIRST_NUMBER,
        0,
        "Only calls of x86-64, or of each of --architectures, with at least this number; not with --calls"
    ),
    word!(
        LAST_NUMBER,
        MAX_WORD,
        "Only calls of x86-64, or of each of --architectures, with at most this number; not with --calls"
    ),
];

/// The options of a walk over the records of a scope: its most steps, and the ends of a range of numbers.
pub(crate) const EXPLORATION_OPTIONS: [NumberOption; 3] = [
    long!("limit", 1_000_000, "The most steps [default: 1000000]"),
    word!(
        FIRST_NUMBER,
        0,
        "Only calls of x86-64, or of each of --architectures, with at least this number"
    ),
    word!(
        LAST_NUMBER,
        MAX_WORD,
        "Only calls of x86-64, or of each of --architectures, with at most this number"
    ),
];

/// The option of the reading of a profile.
pub(crate) const READING_OPTION: &str = "reading";

/// The reading with this name.
fn reading_named(name: &str) -> Option<Reading>
    ensures { result ≡ table.reading_named name.now }
{
    match name {
        "strict" => Some(Reading::Strict),
        "runc" => Some(Reading::Runc),
        "crun" => Some(Reading::Crun),
        "sandbox" => Some(Reading::Sandbox),
        _ => None,
    }
}

/// The reading that an option names, which is that by the words without it.
pub(crate) fn reading_in(matches: &ArgMatches<'_>) -> Option<Reading>
    ensures { result ≡ table.reading_in (rows_of (found_of matches.now)) }
{
    match matches.get_str(READING_OPTION) {
        Some(name) => reading_named(name),
        None => Some(Reading::Strict),
    }
}

/// The flag that leaves out all but x86-64's own syscalls.
pub(crate) const NATIVE_FLAG: &str = "native";

/// The flag that compares each syscall of the table by itself.
pub(crate) const CALLS_FLAG: &str = "calls";

/// The flag that asks whether the filters are no more permissive.
pub(crate) const NO_MORE_FLAG: &str = "no-more";

/// The flag that asks whether the filters are no less permissive.
pub(crate) const NO_LESS_FLAG: &str = "no-less";

/// The flag that asks whether the filters deny, delegate and allow alike.
pub(crate) const DISPOSITION_FLAG: &str = "disposition";

/// The flag by which other filters stand in place of a profile.
pub(crate) const BESIDE_FLAG: &str = "beside";

/// The flag by which a profile is taken for each architecture that has a table.
pub(crate) const ARCHITECTURES_FLAG: &str = "architectures";

/// The flag that has what is left out of a profile printed first.
pub(crate) const LEFT_OUT_FLAG: &str = "left-out";

/// The flag that walks two sides, and lists what isn't known to be answered alike.
pub(crate) const DIFFERENCES_FLAG: &str = "differences";

/// The flag that shows a record of each region.
pub(crate) const EXAMPLES_FLAG: &str = "examples";

/// The flag that prints which instruction gives an answer.
pub(crate) const AT_FLAG: &str = "at";

/// The flag that prints the paths of runs.
pub(crate) const PATH_FLAG: &str = "path";

/// Over which records a comparison goes, by flag.
pub(crate) const SCOPE_FLAGS: [(&str, Scopes); 2] = [
    (NATIVE_FLAG, Scopes::AtOnce(Scope::Native)),
    (CALLS_FLAG, Scopes::EachCall),
];

/// The relation of a comparison, by flag.
pub(crate) const RELATION_FLAGS: [(&str, Relation); 3] = [
    (NO_MORE_FLAG, Relation::NoMore),
    (NO_LESS_FLAG, Relation::NoLess),
    (DISPOSITION_FLAG, Relation::SameDisposition),
];

/// Whether a flag is given.
pub(crate) fn is_given(matches: &ArgMatches<'_>, name: &str) -> bool
    ensures { result ≡ table.is_given (rows_of (found_of matches.now)) name.now }
{
    match matches.get_str(name) {
        Some(text) => text == "true",
        None => false,
    }
}

/// What the given flag of a group stands for, or `without` if none is given. Two given flags are an error.
#[tactic(auto, using(std::proofs::lemmas::Grind::common_steps, crate::proofs::OptionLemmas::given_as_before, crate::proofs::OptionLemmas::given_first, crate::proofs::OptionLemmas::given_twice))]
pub(crate) fn chosen_flag<T: Copy>(
    matches: &ArgMatches<'_>,
    group: &[(&'static str, T)],
    without: T,
) -> Result<T, RequestFault>
    ensures choice { IfOk result (λ choice.
        table.choice_in (rows_of (found_of matches.now)) (without, flags_in group.now) ≡ Some choice) }
    ensures more { IfErr result (λ fault.
        table.choice_in (rows_of (found_of matches.now)) (without, flags_in group.now) ≡ None) }
    ensures flags { IfErr result (λ fault. fault ≡ RequestFault.Flags) }
{
    let mut chosen = None;
    for flag in group {
        if is_given(matches, flag.0) {
            if chosen.is_some() {
                return Err(RequestFault::Flags);
            }
            chosen = Some(flag.1);
        }
    }
    Ok(chosen.unwrap_or(without))
}

impl NumberOption {
    /// The option's value, or its default if it isn't given.
    #[tactic(auto, using(std::proofs::lemmas::Grind::common_steps, crate::proofs::OptionLemmas::by_value))]
    pub(crate) fn number_in(self, matches: &ArgMatches<'_>) -> Result<u64, NumberFault>
        requires { self.default ≤ self.most }
        ensures ok { IfOk result (λ n. table.number_in (rows_of (found_of matches.now)) (option_of self) ≡ Some n) }
        ensures within { IfOk result (λ n. n ≤ self.most) }
        ensures err { IfErr result (λ fault. table.number_in (rows_of (found_of matches.now)) (option_of self) ≡ None) }
        ensures named { IfErr result (λ fault. fault.name.now ≡ self.name.now) }
    {
        let Some(text) = matches.get_str(self.name) else {
            return Ok(self.default);
        };
        match parse_number(text.as_bytes()) {
            Ok(number) if number <= self.most => Ok(number),
            _ => Err(NumberFault { name: self.name }),
        }
    }
}

/// The values of some options, in order. The error names the first whose text isn't a number in its range.
fn numbers_in(
    matches: &ArgMatches<'_>,
    options: &[NumberOption],
    numbers: &mut [u64],
) -> Result<(), NumberFault>
    requires room { length numbers.old ≡ length options.now }
    requires fair { AllByRecursion (λ o. o.default ≤ o.most) options.now }
    ensures ok { IfOk result (λ _.
        map Some numbers.new ≡ map (table.number_in (rows_of (found_of matches.now))) (options_kept options.now)) }
    ensures err { IfErr result (λ fault.
        table.first_wrong (options_kept options.now) (rows_of (found_of matches.now)) ≡ Some fault.name.now) }
{
    let (Some((option, options)), Some((number, numbers))) = (
        options.split_first(),
        numbers.split_first_mut(),
    ) else {
        return Ok(());
    };
    *number = option.number_in(matches)?;
    numbers_in(matches, options, numbers)
}

/// The call record of the options `nr`, `arch`, `ip` and `a0` to `a5`. If not given, `arch` is x86-64's and the others
/// are 0. The error names the first option, in this order, whose text isn't a number in its range: decimal digits, or
/// `0x` or `0X` and hexadecimal digits, below 2^32 for `nr` and `arch` and below 2^64 for the others.
pub fn record_of(matches: &ArgMatches<'_>) -> Result<CallRecord, NumberFault>
    ensures { table.SpellsCall (rows_of (found_of matches.now)) result }
{
    let mut numbers = [0; 9];
    numbers_in(matches, &CALL_OPTIONS, &mut numbers)?;
    let [nr, arch, ip, a0, a1, a2, a3, a4, a5] = numbers;
    Ok(CallRecord {
        nr: nr as u32,
        arch: arch as u32,
        ip,
        args: [a0, a1, a2, a3, a4, a5],
    })
}

/// The limits and the ends of the range of a comparison. The error names the first option, in the order of
/// `COMPARISON_OPTIONS`, whose text isn't a number in its range.
pub(crate) fn comparison_numbers(
    matches: &ArgMatches<'_>,
) -> Result<(Limits, u32, u32), NumberFault>
    ensures ok { IfOk result (λ n. map Some (n.0.each ∷ n.0.total ∷ n.0.splits ∷ n.1 ∷ n.2 ∷ [])
        ≡ map (table.number_in (rows_of (found_of matches.now))) table.comparison_options) }
    ensures err { IfErr result (λ fault.
        table.first_wrong table.comparison_options (rows_of (found_of matches.now)) ≡ Some fault.name.now) }
{
    let mut numbers = [0; 5];
    numbers_in(matches, &COMPARISON_OPTIONS, &mut numbers)?;
    let [each, total, splits, first, last] = numbers;
    let limits = Limits {
        each,
        total,
        splits,
    };
    Ok((limits, first as u32, last as u32))
}

/// Whether an end of a range of numbers is given.
#[tactic(auto, using(std::proofs::lemmas::Grind::common_steps, crate::proofs::OptionLemmas::has_text))]
pub(crate) fn has_range(matches: &ArgMatches<'_>) -> bool
    ensures { result ≡ table.has_range (rows_of (found_of matches.now)) }
{
    matches.get_str(FIRST_NUMBER).is_some() || matches.get_str(LAST_NUMBER).is_some()
}

/// Whether flags exclude a walk: other filters without differences, or a range of the differences of several
/// architectures.
pub(crate) fn excludes_walk(matches: &ArgMatches<'_>) -> bool
    ensures { result ≡ table.excludes_walk (rows_of (found_of matches.now)) }
{
    let has_differences = is_given(matches, DIFFERENCES_FLAG);
    (is_given(matches, BESIDE_FLAG) && !has_differences)
        || (is_given(matches, ARCHITECTURES_FLAG) && has_differences && has_range(matches))
}

/// The form of the bundle of a profile alone.
fn form_of_profile(matches: &ArgMatches<'_>) -> BundleForm
    ensures { result ≡ table.form_of_profile (rows_of (found_of matches.now)) }
{
    if is_given(matches, ARCHITECTURES_FLAG) {
        BundleForm::Architectures
    } else {
        BundleForm::Profile
    }
}

/// The form of the bundle of two sides. None if the flag of architectures stands with that of other filters or of
/// native calls.
fn form_of_sides(matches: &ArgMatches<'_>) -> Option<BundleForm>
    ensures { result ≡ table.form_of_sides (rows_of (found_of matches.now)) }
{
    let has_beside = is_given(matches, BESIDE_FLAG);
    if is_given(matches, ARCHITECTURES_FLAG) {
        let is_excluded = has_beside || is_given(matches, NATIVE_FLAG);
        return (!is_excluded).then_some(BundleForm::Architectures);
    }
    if !has_beside {
        return Some(BundleForm::Profile);
    }
    let has_table = is_given(matches, CALLS_FLAG);
    Some(BundleForm::Beside { has_table })
}

/// The form of the bundle that a command takes by its flags. None if they exclude each other.
pub(crate) fn form_of(matches: &ArgMatches<'_>, command: &Command) -> Option<BundleForm>
    ensures { result ≡ form_in (name_and_numbers command.now).0 (rows_of (found_of matches.now)) }
{
    match command {
        Command::Answers { .. } | Command::Compare(_) => form_of_sides(matches),
        Command::Ask(_) | Command::Compile { .. } => Some(form_of_profile(matches)),
        _ => Some(BundleForm::Profile),
    }
}

/// What the flags ask `decide` to print.
pub(crate) fn detail_of(matches: &ArgMatches<'_>) -> Detail
    ensures { result ≡ table.detail_in (rows_of (found_of matches.now)) }
{
    if is_given(matches, PATH_FLAG) {
        Detail::Paths
    } else if is_given(matches, AT_FLAG) {
        Detail::Instruction
    } else {
        Detail::Answer
    }
}
