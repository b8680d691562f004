//! The message of each error.
//!
//! What a message says is in the name of its fault and the fields beside it; its limits are those of the formats: 32768
//! bytes and 4096 instructions of a filter, 4194304 bytes and 4096 rules of a profile, 127 levels of JSON.

use scf_compile::CompileFault;
use scf_insn::{Failed, InputFault, Memory, NumeralFault, ReadFault, WriteFault};
use scf_machine::{CheckFault, PushFault};
use scf_profile::{LoadFault, TableFault};
use scf_request::RequestFault;
use scf_text::TextFault;
use scf_tool::{BundleFault, NumberFault, VerifyFault};
use std::alloc::Global;
use std::fmt::Display;
use std::process::Abort;

/// Errors with their messages.
macro_rules! messages {
    ($($error:expr => $message:expr),* $(,)?) => {
        &[$(($error, $message)),*]
    };
}

/// That an error prints this.
fn print_one<E: Display>(rt: &impl Abort, alloc: Global, error: &E, wanted: &str) {
    let shown = format!(in alloc; "{error}").expect(rt, "no fault");
    assert!(rt; shown.as_str() == wanted, "{wanted}");
}

/// That each error prints what stands beside it.
fn print<E: Display>(rt: &impl Abort, alloc: Global, errors: &[(E, &'static str)]) {
    for (error, wanted) in errors {
        print_one(rt, alloc, error, wanted);
    }
}

const READS: &[(ReadFault, &str)] = messages![
    ReadFault::Read => "the input can't be read",
    ReadFault::Truncated { offset: 8 } => "the instruction at byte 8 is cut",
    ReadFault::TooLong => "the input has more than 32768 bytes",
    ReadFault::Memory => "out of memory",
];

const INPUTS: &[(InputFault, &str)] = messages![
    InputFault::Read => "the input can't be read",
    InputFault::TooLong => "the input is too long",
    InputFault::Memory => "out of memory",
];

const NUMBERS: &[(NumeralFault, &str)] = messages![
    NumeralFault::Malformed => "not a number",
    NumeralFault::TooLarge => "a number past 2^64-1",
];

const WRITES: &[(WriteFault, &str)] = messages![
    WriteFault::Write => "the output can't be written",
];

const STREAMS: &[(Failed, &str)] = messages![
    Failed => "a read or a write failed",
];

const MEMORY: &[(Memory, &str)] = messages![
    Memory => "out of memory",
];

#[test]
fn of_streams_and_numbers(rt: HostRuntime) {
    print(&rt, rt.alloc(), READS);
    print(&rt, rt.alloc(), INPUTS);
    print(&rt, rt.alloc(), NUMBERS);
    print(&rt, rt.alloc(), WRITES);
    print(&rt, rt.alloc(), STREAMS);
    print(&rt, rt.alloc(), MEMORY);
}

const CHECKS: &[(CheckFault, &str)] = messages![
    CheckFault::Empty => "the filter is empty",
    CheckFault::TooLong => "the filter has more than 4096 instructions",
    CheckFault::Code { at: 3 } => "unknown code at 3",
    CheckFault::Load { at: 0 } => "a load outside the record at 0",
    CheckFault::Scratch { at: 0 } => "no such scratch word at 0",
    CheckFault::Divisor { at: 0 } => "a division by zero at 0",
    CheckFault::Shift { at: 0 } => "a shift by more than 31 at 0",
    CheckFault::Jump { at: 0 } => "a jump out of the filter at 0",
    CheckFault::LastNotReturn => "the last instruction isn't a return",
    CheckFault::Unset { at: 5, word: 15 } => "scratch word 15 may be unset at 5",
    CheckFault::Memory => "out of memory",
];

const PUSHES: &[(PushFault, &str)] = messages![
    PushFault::TooMany { total: 32769 } => "the stack would count 32769 instructions",
    PushFault::Memory => "out of memory",
];

const TEXTS: &[(TextFault, &str)] = messages![
    TextFault::NotAscii { line: 2 } => "line 2: a byte that is not ASCII",
    TextFault::Mnemonic { line: 3 } => "line 3: not a mnemonic",
    TextFault::Operand { line: 4 } => "line 4: not the operands of this mnemonic",
    TextFault::NumberRange { line: 5 } => "line 5: a number that does not fit its field",
    TextFault::Label { line: 6 } => "line 6: a label given twice, or not at all",
    TextFault::JumpTooFar { line: 7 } => "line 7: a label that this jump does not reach",
    TextFault::TooLong { line: 4097 } => "line 4097: more than 4096 instructions",
    TextFault::Memory => "out of memory",
];

#[test]
fn of_filters_and_texts(rt: HostRuntime) {
    print(&rt, rt.alloc(), CHECKS);
    print(&rt, rt.alloc(), PUSHES);
    print(&rt, rt.alloc(), TEXTS);
}

const TABLES: &[(TableFault, &str)] = messages![
    TableFault::Form { line: 1 } => "line 1: not a name and a number",
    TableFault::Name { line: 2 } => "line 2: no name of a call",
    TableFault::Number { line: 3 } => "line 3: no number of a call",
    TableFault::Repeated { line: 4 } => "line 4: the name stands on an earlier line",
    TableFault::Memory => "out of memory",
];

/// An error in the first entry.
const ENTRY: Option<u32> = Some(0);

const PROFILES: &[(LoadFault, &str)] = messages![
    LoadFault::Json => "no JSON, or nested more than 127 deep",
    LoadFault::Missing { entry: ENTRY } => "entry 0: a member is missing",
    LoadFault::Missing { entry: Some(u32::MAX) } => "entry 4294967295: a member is missing",
    LoadFault::Kind { entry: ENTRY } => "entry 0: a value of the wrong kind",
    LoadFault::Kind { entry: None } => "a value of the wrong kind",
    LoadFault::Action { entry: ENTRY } => "entry 0: no name of an action",
    LoadFault::Operator { entry: ENTRY } => "entry 0: no name of an operator",
    LoadFault::EmptyNames { entry: ENTRY } => "entry 0: no names",
    LoadFault::Index { entry: ENTRY } => "entry 0: no index of an argument: they are 0 to 5",
    LoadFault::RepeatedIndex { entry: ENTRY } => "entry 0: two conditions on one argument",
    LoadFault::Errno { entry: ENTRY } => "entry 0: an errno beside an action that takes none",
    LoadFault::ErrnoRange { entry: ENTRY } => "entry 0: an errno outside 0 to 65535",
    LoadFault::NoX8664 { entry: None } => "x86-64 is not among the architectures",
    LoadFault::NotListed { table: 1 } => "table 1: its architecture is not among the architectures",
    LoadFault::EngineForm { entry: ENTRY } => "entry 0: a form of container engines",
    LoadFault::TooMany => "more than 4194304 bytes, or more than 4096 rules",
    LoadFault::Conflict { number: 3, first: 0, second: 2 } => "entries 0 and 2 conflict on call 3",
    LoadFault::Memory => "out of memory",
];

const COMPILATIONS: &[(CompileFault, &str)] = messages![
    CompileFault::TooLarge => "the filter would have more than 4096 instructions",
    CompileFault::Memory => "out of memory",
];

#[test]
fn of_tables_and_profiles(rt: HostRuntime) {
    print(&rt, rt.alloc(), TABLES);
    print(&rt, rt.alloc(), PROFILES);
    print(&rt, rt.alloc(), COMPILATIONS);
}

const BUNDLES: &[(BundleFault, &str)] = messages![
    BundleFault::Header { offset: 17 } => "no header stands at byte 17",
    BundleFault::Short { offset: 0 } => "fewer bytes follow than the header at byte 0 says",
    BundleFault::Memory => "out of memory",
];

const REQUESTS: &[(RequestFault, &str)] = messages![
    RequestFault::NoCommand => "no command is named",
    RequestFault::Number(NumberFault { name: "a5" }) => "the option a5 is no number in its range",
    RequestFault::Flags => "two flags exclude each other",
    RequestFault::Reading => "the option reading names no reading",
    RequestFault::Range => "no call has a number in the range",
];

/// Faults of a comparison from its readers: what was read, and that fault's message.
const COMPARISONS: &[(VerifyFault, &str)] = messages![
    VerifyFault::FilterRead(ReadFault::Truncated { offset: 8 }) =>
        "filter: the instruction at byte 8 is cut",
    VerifyFault::Check(CheckFault::Unset { at: 3, word: 1 }) =>
        "filter: scratch word 1 may be unset at 3",
    VerifyFault::Stack(PushFault::TooMany { total: 32796 }) =>
        "stack: the stack would count 32796 instructions",
    VerifyFault::TableRead(InputFault::TooLong) => "table: the input is too long",
    VerifyFault::Table(TableFault::Repeated { line: 2 }) =>
        "table: line 2: the name stands on an earlier line",
    VerifyFault::ProfileRead(InputFault::Read) => "profile: the input can't be read",
    VerifyFault::Profile(LoadFault::Json) => "profile: no JSON, or nested more than 127 deep",
    VerifyFault::Memory => "out of memory",
];

#[test]
fn of_the_program(rt: HostRuntime) {
    print(&rt, rt.alloc(), BUNDLES);
    print(&rt, rt.alloc(), REQUESTS);
    print(&rt, rt.alloc(), COMPARISONS);
}
