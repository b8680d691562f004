//! The command line, defined for `clap`.

ghost use Rattle.std.specs.Prelude.{◌≡◌, [], Contains, false, map, IfOk, IfSome};
ghost use Rattle.std.specs.List.{AllByRecursion};
ghost use Rattle.clap.specs.Words.{FailsBy, app_of, fault_of, rule_of, subcommand_of, subcommand_rows_of, with_subcommand};
ghost use Rattle.scf_request.specs.CommandLine.{flag_rule, scf, valued_rule};
ghost use Rattle.scf_request.specs.internal.Parsing.{IsNamed, ReadsAsProgram, bare, command_of, option_of, option_rule, options_kept, program_of, rules_of_options, shape_of};

use crate::options::{
    ARCHITECTURES_FLAG, AT_FLAG, BESIDE_FLAG, CALL_OPTIONS, CALLS_FLAG, COMPARISON_OPTIONS,
    DIFFERENCES_FLAG, DISPOSITION_FLAG, EXAMPLES_FLAG, EXPLORATION_OPTIONS, LEFT_OUT_FLAG,
    NATIVE_FLAG, NO_LESS_FLAG, NO_MORE_FLAG, NumberOption, PATH_FLAG, READING_OPTION,
};
use clap::{Arg, ArgAction, ArgMatches, Command, Error};
use std::alloc::{AllocError, Global};
use std::convert::AsStr;

/// The help of `--native`.
const NATIVE_HELP: &str = "Only calls of x86-64 with numbers below 0x40000000";

/// The help of `--architectures` beside a profile alone.
const TABLES_HELP: &str =
    "With the tables of several architectures: parts `table`, `table-x86`, `table-x32` ..";

/// An option that takes a value, for `clap`.
fn argument_of<'a>(alloc: Global, name: &'a str, value: &'a str, help: &'a str) -> Arg<'a>
    ensures rule { rule_of result ≡ valued_rule name.now }
    ensures local { result.global ≡ false }
{
    Arg::new(alloc, name)
        .long(name)
        .value_name(value)
        .help(help)
}

/// A flag, for `clap`.
fn flag_argument<'a>(alloc: Global, name: &'a str, help: &'a str) -> Arg<'a>
    ensures rule { rule_of result ≡ flag_rule name.now }
    ensures local { result.global ≡ false }
{
    Arg::new(alloc, name)
        .long(name)
        .action(ArgAction::SetTrue)
        .help(help)
}

/// What defines a command.
#[derive(Clone, Copy)]
struct Definition {
    name: &'static str,
    /// What the help says about it.
    about: &'static str,
    options: &'static [NumberOption],
    takes_reading: bool,
    /// Its flags, each with its name and its help.
    flags: &'static [(&'static str, &'static str)],
}

/// The flags of `run`, each with its help.
const RUN_FLAGS: [(&str, &str); 1] = [(
    PATH_FLAG,
    "Also the indices of the instructions on the way",
)];

/// The flags of `decide`, each with its help.
const DECIDE_FLAGS: [(&str, &str); 2] = [
    (
        AT_FLAG,
        "Also the filter that gives the answer, the oldest being 0, and its instruction",
    ),
    (
        PATH_FLAG,
        "This, and the answer of each filter and the instructions on its way",
    ),
];

/// The flags of `compile`, each with its help.
const COMPILE_FLAGS: [(&str, &str); 2] = [
    (ARCHITECTURES_FLAG, TABLES_HELP),
    (
        LEFT_OUT_FLAG,
        "First the skipped names and the other architectures, as `compare` prints them, and a line that ends them",
    ),
];

/// The flags of `compare`, each with its help.
const COMPARE_FLAGS: [(&str, &str); 7] = [
    (NATIVE_FLAG, NATIVE_HELP),
    (
        CALLS_FLAG,
        "Each named call by itself, and a line for each that isn't the same; not with --native",
    ),
    (
        NO_MORE_FLAG,
        "Whether the filters are nowhere more permissive than the profile",
    ),
    (
        NO_LESS_FLAG,
        "Whether they are nowhere less permissive; not with --no-more",
    ),
    (
        DISPOSITION_FLAG,
        "Whether both deny, delegate and allow alike; not with --no-more or --no-less",
    ),
    (
        BESIDE_FLAG,
        "With parts `beside`, other filters, in place of a profile",
    ),
    (
        ARCHITECTURES_FLAG,
        "Only calls of architectures with a table: parts `table`, `table-x86` ..; not with --native or --beside",
    ),
];

/// The flags of `ask`, each with its help.
const ASK_FLAGS: [(&str, &str); 1] = [(ARCHITECTURES_FLAG, TABLES_HELP)];

/// The flags of `answers`, each with its help.
const ANSWERS_FLAGS: [(&str, &str); 5] = [
    (NATIVE_FLAG, NATIVE_HELP),
    (
        DIFFERENCES_FLAG,
        "What two sides, as `compare` takes them, may answer differently; with --architectures of all calls",
    ),
    (
        BESIDE_FLAG,
        "With --differences, parts `beside`, other filters, in place of a profile",
    ),
    (
        ARCHITECTURES_FLAG,
        "Only calls of architectures with a table, of a profile: parts `table`, `table-x86` ..; not with --native",
    ),
    (EXAMPLES_FLAG, "Also a call of each region"),
];

/// The commands, in the order of the help.
static COMMANDS: [Definition; 9] = [
    Definition {
        name: "check",
        about: "Checks a filter",
        options: &[],
        takes_reading: false,
        flags: &[],
    },
    Definition {
        name: "run",
        about: "Runs a filter on a call",
        options: &CALL_OPTIONS,
        takes_reading: false,
        flags: &RUN_FLAGS,
    },
    Definition {
        name: "decide",
        about: "Runs a bundle of filters on a call",
        options: &CALL_OPTIONS,
        takes_reading: false,
        flags: &DECIDE_FLAGS,
    },
    Definition {
        name: "dis",
        about: "Lists a filter, which isn't checked",
        options: &[],
        takes_reading: false,
        flags: &[],
    },
    Definition {
        name: "asm",
        about: "Assembles a text, which isn't checked",
        options: &[],
        takes_reading: false,
        flags: &[],
    },
    Definition {
        name: "compile",
        about: "Compiles a bundle of a profile and a table",
        options: &[],
        takes_reading: true,
        flags: &COMPILE_FLAGS,
    },
    Definition {
        name: "compare",
        about: "Compares a bundle of filters, a profile and a table",
        options: &COMPARISON_OPTIONS,
        takes_reading: true,
        flags: &COMPARE_FLAGS,
    },
    Definition {
        name: "ask",
        about: "Says what a profile answers to a call, and why, of a bundle with a table",
        options: &CALL_OPTIONS,
        takes_reading: true,
        flags: &ASK_FLAGS,
    },
    Definition {
        name: "answers",
        about: "Lists what filters, or a profile with a table, answer to every call, by regions of calls",
        options: &EXPLORATION_OPTIONS,
        takes_reading: true,
        flags: &ANSWERS_FLAGS,
    },
];

/// A command with its options that take numbers.
fn command_with<'a>(alloc: Global, definition: &Definition) -> Result<Command<'a>, AllocError>
    ensures { IfOk result (λ command. app_of command
        ≡ command_of definition.now.name.now (map option_rule (options_kept definition.now.options.now))) }
{
    let mut command = Command::new(alloc, definition.name).about(definition.about);
    for option in definition.options {
        command = command.arg(argument_of(alloc, option.name, "NUMBER", option.help))?;
    }
    Ok(command)
}

/// A command with these, and that of a reading, if it takes one.
fn command_reading<'a>(alloc: Global, definition: &Definition) -> Result<Command<'a>, AllocError>
    ensures { IfOk result (λ command. app_of command ≡ command_of definition.now.name.now
        (rules_of_options (options_kept definition.now.options.now) definition.now.takes_reading)) }
{
    let command = command_with(alloc, definition)?;
    if definition.takes_reading {
        command.arg(argument_of(
            alloc,
            READING_OPTION,
            "READING",
            "How a profile is read: by its words (`strict`), as `runc` or `crun` does, or as a `sandbox` \
             [default: strict]",
        ))
    } else {
        Ok(command)
    }
}

/// A command with all its options and flags.
fn define<'a>(alloc: Global, definition: &Definition) -> Result<Command<'a>, AllocError>
    ensures { IfOk result (λ command. app_of command ≡ record { top = shape_of definition.now; subs = [] }) }
{
    let mut command = command_reading(alloc, definition)?;
    for flag in definition.flags {
        command = command.arg(flag_argument(alloc, flag.0, flag.1))?;
    }
    Ok(command)
}

/// The program without commands.
fn program_alone<'a>(alloc: Global) -> Command<'a>
    ensures { app_of result ≡ bare }
{
    Command::new(alloc, "scf")
        .version("0.1.0")
        .about(
            "Checks, runs, lists, assembles, compiles and compares seccomp filters for x86-64. \
             Input comes on standard input.",
        )
        .subcommand_required(true)
}

/// The program with these commands.
fn program<'a>(alloc: Global, definitions: &[Definition]) -> Result<Command<'a>, AllocError>
    ensures { IfOk result (λ program. app_of program ≡ program_of definitions.now) }
{
    let mut program = program_alone(alloc);
    for definition in definitions {
        program = program.subcommand(define(alloc, definition)?)?;
    }
    Ok(program)
}

/// The definitions of the commands.
fn commands() -> &'static [Definition]
    ensures whole { program_of result.now ≡ scf }
    ensures each { AllByRecursion (λ definition. IsNamed definition.name.now definition) result.now }
{
    &COMMANDS
}

/// The definition with this name.
fn definition_named(definitions: &[Definition], name: &str) -> Option<Definition>
    ensures { IfSome result (λ definition. Contains definitions.now definition × (name.now ≡ definition.name.now)) }
{
    definitions
        .iter()
        .copied()
        .find(|definition| name == definition.name)
}

/// The program with the command that the arguments name, or with all: defining a command costs more than running one.
fn program_for<'a, T: AsStr>(alloc: Global, words: &[T]) -> Result<Command<'a>, AllocError>
    ensures { IfOk result (λ command. ReadsAsProgram (app_of command) (map T.text words.now)) }
{
    let definitions = commands();
    if let Some(word) = words.get(1) {
        if let Some(definition) = definition_named(definitions, word.as_str()) {
            return program(alloc, &[definition]);
        }
    }
    program(alloc, definitions)
}

/// Parses the arguments, the first being the program's name. The error is help, the version, a usage error or out of
/// memory.
pub fn parse<'a, T: AsStr>(alloc: Global, words: &'a [T]) -> Result<ArgMatches<'a>, Error>
    ensures matches { IfOk result (λ m. subcommand_rows_of m ≡ subcommand_of scf (map T.text words.now)) }
    ensures kinds { FailsBy (fault_of scf (map T.text words.now)) result }
{
    program_for(alloc, words)?.try_get_matches_from(words)
}
