//! Requests: a command with the values of its options.

ghost use Rattle.std.specs.Prelude.{◌≡◌, ◌∷◌, [], IfErr, IfOk, Some, codes, map};
ghost use Rattle.clap.specs.Words.{found_of, rows_of, subcommand_rows_of};
ghost use Rattle.scf_request.specs.Options.{
  AsksToCompare,
  SelectsCalls,
  call_options,
  comparison_options,
  number_in,
  numbers_of_comparison,
  numbers_of_range,
  numbers_of_record,
  range_options,
};
ghost use Rattle.scf_request.specs.Requests as spec;
ghost use Rattle.scf_request.specs.Requests.{AreExclusiveOfComparison, AsksFor, CommandName, HaveRecord, SpellNone, SpellRequest, command_word, options_read};
ghost use Rattle.scf_request.specs.internal.Parsing.{SpellCommand};

use crate::bundle::BundleForm;
use crate::options::{
    DIFFERENCES_FLAG, EXAMPLES_FLAG, LEFT_OUT_FLAG, PATH_FLAG, RELATION_FLAGS, SCOPE_FLAGS,
    chosen_flag, comparison_numbers, detail_of, excludes_walk, form_of, has_range, is_given,
    reading_in, record_of,
};
use crate::records::have_record;
use crate::request_fault::RequestFault;
use clap::ArgMatches;
use scf_insn::{Architecture, CallRecord};
use scf_profile::{Reading, Relation, Scope};

/// Over which records a comparison goes.
#[derive(Clone, Copy)]
pub enum Scopes {
    /// A scope, in one comparison. With the tables of several architectures a range of numbers is one of each of them.
    AtOnce(Scope),
    /// Each syscall of the table, in a comparison of its own.
    EachCall,
}

/// How many steps and splits comparisons may take.
#[derive(Clone, Copy)]
pub struct Limits {
    /// The most steps of one comparison.
    pub each: u64,
    /// The most steps of the comparisons of single calls together. One comparison over many calls isn't bound by it.
    pub total: u64,
    /// The most splits of one comparison; 2^64-1 for no limit.
    pub splits: u64,
}

/// What a comparison is asked for.
#[derive(Clone, Copy)]
pub struct Comparison {
    pub limits: Limits,
    pub scopes: Scopes,
    pub relation: Relation,
}

/// What `decide` prints.
#[derive(Clone, Copy)]
pub enum Detail {
    /// The answer.
    Answer,
    /// Also which instruction of which filter gives it.
    Instruction,
    /// This, and the path of each filter's run.
    Paths,
}

/// A command with the values of its options.
#[derive(Clone, Copy)]
pub enum Command {
    /// Lists what a side answers to the records of a scope or, with `--differences`, what two sides aren't known to
    /// answer alike.
    Answers {
        comparison: Comparison,
        /// Whether a record of each region is shown.
        has_examples: bool,
        has_differences: bool,
    },
    Ask(CallRecord),
    Assemble,
    Check,
    Compare(Comparison),
    Compile {
        /// Whether what is left out of the profile is printed first.
        has_left_out: bool,
    },
    Decide {
        call: CallRecord,
        detail: Detail,
    },
    List,
    Run {
        call: CallRecord,
        /// Whether the path is printed.
        has_path: bool,
    },
}

impl Command {
    /// The records over which a command goes: those of a comparison, and all for another command.
    pub fn scopes(self) -> Scopes
        ensures { result ≡ spec.scopes_of self }
    {
        match self {
            Command::Answers { comparison, .. } | Command::Compare(comparison) => comparison.scopes,
            _ => Scopes::AtOnce(Scope::All),
        }
    }
}

/// What the program is asked for.
#[derive(Clone, Copy)]
pub struct Request {
    /// How a profile is read.
    pub reading: Reading,
    /// Which parts a bundle has.
    pub form: BundleForm,
    pub command: Command,
}

/// The records over which a comparison goes. If a range is given, its ends are these numbers.
#[tactic(auto, using(std::proofs::lemmas::Grind::common_steps, crate::proofs::OptionLemmas::by_flags, crate::proofs::OptionLemmas::range_of_flags))]
fn scopes_of(options: &ArgMatches<'_>, first: u32, last: u32) -> Result<Scopes, RequestFault>
    ensures given { IfOk result (SelectsCalls (rows_of (found_of options.now))) }
    ensures range { map Some (first ∷ last ∷ []) ≡ map (number_in (rows_of (found_of options.now))) range_options
        → IfOk result (λ over. map Some (numbers_of_range over)
        ≡ map (number_in (rows_of (found_of options.now))) range_options) }
    ensures flags { IfErr result (λ fault. fault ≡ RequestFault.Flags) }
    ensures exclusive { IfErr result (λ fault. AreExclusiveOfComparison (rows_of (found_of options.now))) }
{
    let scopes = chosen_flag(options, &SCOPE_FLAGS, Scopes::AtOnce(Scope::All))?;
    if !has_range(options) {
        return Ok(scopes);
    }
    match scopes {
        Scopes::AtOnce(_) => Ok(Scopes::AtOnce(Scope::Numbers {
            architecture: Architecture::X8664,
            first,
            last,
        })),
        Scopes::EachCall => Err(RequestFault::Flags),
    }
}

/// The comparison that these options ask for. Those that a command lacks have their defaults.
#[tactic(auto, using(std::proofs::lemmas::Grind::common_steps, crate::proofs::OptionLemmas::none_wrong, crate::proofs::OptionLemmas::with_range))]
fn comparison_of(options: &ArgMatches<'_>) -> Result<Comparison, RequestFault>
    ensures numbers { IfOk result (λ asked. map Some (numbers_of_comparison asked)
        ≡ map (number_in (rows_of (found_of options.now))) comparison_options) }
    ensures flags { IfOk result (AsksToCompare (rows_of (found_of options.now))) }
    ensures fault { IfErr result (λ fault. (name : CommandName) → options_read name ≡ comparison_options
        → SpellNone (command_word name) (rows_of (found_of options.now)) fault) }
{
    let (limits, first, last) = comparison_numbers(options).map_err(RequestFault::Number)?;
    let scopes = scopes_of(options, first, last)?;
    let relation = chosen_flag(options, &RELATION_FLAGS, Relation::Same)?;
    Ok(Comparison {
        limits,
        scopes,
        relation,
    })
}

/// `answers` with these options.
fn answers_of(options: &ArgMatches<'_>) -> Result<Command, RequestFault>
    ensures command { IfOk result (SpellCommand (codes "answers") (rows_of (found_of options.now))) }
    ensures fault { IfErr result (SpellNone (codes "answers") (rows_of (found_of options.now))) }
{
    let comparison = comparison_of(options)?;
    if excludes_walk(options) {
        return Err(RequestFault::Flags);
    }
    Ok(Command::Answers {
        comparison,
        has_examples: is_given(options, EXAMPLES_FLAG),
        has_differences: is_given(options, DIFFERENCES_FLAG),
    })
}

/// The call record that these options describe.
fn call_of(options: &ArgMatches<'_>) -> Result<CallRecord, RequestFault>
    ensures numbers { IfOk result (λ call. map Some (numbers_of_record call)
        ≡ map (number_in (rows_of (found_of options.now))) call_options) }
    ensures fault { IfErr result (λ fault. (name : CommandName) → options_read name ≡ call_options
        → SpellNone (command_word name) (rows_of (found_of options.now)) fault) }
{
    record_of(options).map_err(RequestFault::Number)
}

/// The command with this name and these options.
fn command_of(name: &str, options: &ArgMatches<'_>) -> Result<Command, RequestFault>
    ensures command { IfOk result (SpellCommand name.now (rows_of (found_of options.now))) }
    ensures fault { IfErr result (SpellNone name.now (rows_of (found_of options.now))) }
{
    match name {
        "answers" => answers_of(options),
        "ask" => Ok(Command::Ask(call_of(options)?)),
        "asm" => Ok(Command::Assemble),
        "check" => Ok(Command::Check),
        "compare" => Ok(Command::Compare(comparison_of(options)?)),
        "compile" => {
            let has_left_out = is_given(options, LEFT_OUT_FLAG);
            Ok(Command::Compile { has_left_out })
        }
        "decide" => {
            let call = call_of(options)?;
            let detail = detail_of(options);
            Ok(Command::Decide { call, detail })
        }
        "dis" => Ok(Command::List),
        "run" => {
            let call = call_of(options)?;
            let has_path = is_given(options, PATH_FLAG);
            Ok(Command::Run { call, has_path })
        }
        _ => Err(RequestFault::NoCommand),
    }
}

/// The request of the command with this name and these options, if it goes over a record at least.
fn request_named(name: &str, options: &ArgMatches<'_>) -> Result<Request, RequestFault>
    ensures request { IfOk result (λ request. SpellRequest name.now (rows_of (found_of options.now)) request
        × HaveRecord request.form (spec.scopes_of request.command)) }
    ensures fault { IfErr result (SpellNone name.now (rows_of (found_of options.now))) }
{
    let Some(reading) = reading_in(options) else {
        return Err(RequestFault::Reading);
    };
    let command = command_of(name, options)?;
    let Some(form) = form_of(options, &command) else {
        return Err(RequestFault::Flags);
    };
    if !have_record(form, command.scopes()) {
        return Err(RequestFault::Range);
    }
    Ok(Request {
        reading,
        form,
        command,
    })
}

/// The request of parsed arguments. The error: no command, a reading that none has, the first option whose text isn't a
/// number in its range, flags that exclude each other, or a range of numbers that no call has.
pub fn request_of(matches: &ArgMatches<'_>) -> Result<Request, RequestFault>
    ensures { AsksFor (subcommand_rows_of matches.now) result }
{
    match matches.subcommand() {
        Some((name, options)) => request_named(name, options),
        None => Err(RequestFault::NoCommand),
    }
}
