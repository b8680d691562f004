//! The row of each fault: its source and its kind, each by its name in the printed line and its number in scf.h, the
//! numbers that say where, and the exit status. Numbers of scf.h never change; a new kind comes behind the last.

ghost use Rattle.std.specs.Prelude.{◌≡◌, map};
ghost use Rattle.scf_tool.specs.Faults as table;

use crate::fault::Fault;
use crate::status::Status;
use crate::status::Status::{CommandLine, Failed, Refused};
use crate::verify_fault::{SideFault, VerifyFault};
use scf_compile::CompileFault;
use scf_insn::{InputFault, ReadFault};
use scf_machine::{CheckFault, PushFault};
use scf_profile::{LoadFault, TableFault};
use scf_request::{BundleFault, RequestFault};
use scf_text::TextFault;

/// A name in the printed line, and its number in scf.h; 0 if only the program has it.
pub type FaultName = (&'static str, u32);

/// One of a fault's numbers: its name in the line, which leaves out a number without one, and what libscf hands out.
pub type FaultNumber = (Option<&'static str>, u64);

/// Why something is refused: the exit status, the kind's name, and the numbers that say where.
type Kind = (Status, FaultName, [FaultNumber; 3]);

/// An input that is refused, and why.
#[derive(Clone, Copy)]
pub struct FaultRow {
    pub source: FaultName,
    pub(crate) status: Status,
    pub kind: FaultName,
    pub numbers: [FaultNumber; 3],
}

/// The kinds that more than one source has.
pub const MEMORY: FaultName = ("Memory", 1);

const READ: FaultName = ("Read", 2);

const TOO_LONG: FaultName = ("TooLong", 4);

const TOO_MANY: FaultName = ("TooMany", 36);

/// In place of a number that the kind hasn't.
const UNUSED: FaultNumber = (None, 0);

const NONE: [FaultNumber; 3] = [UNUSED, UNUSED, UNUSED];

/// The numbers of a kind with one number.
fn one(name: &'static str, value: usize) -> [FaultNumber; 3]
    ensures { map table.number_of result ≡ table.one name.now value }
{
    [(Some(name), value as u64), UNUSED, UNUSED]
}

/// Those of what is refused in an entry of a profile, or outside of them.
fn in_entry(entry: Option<u32>) -> [FaultNumber; 3]
    ensures { map table.number_of result ≡ table.in_entry entry }
{
    match entry {
        Some(entry) => one("entry", entry as usize),
        None => [(None, u64::MAX), UNUSED, UNUSED],
    }
}

fn input_kind(fault: InputFault) -> Kind
    ensures { table.kind_of result ≡ table.input_kind fault }
{
    match fault {
        InputFault::Read => (Failed, READ, NONE),
        InputFault::TooLong => (Failed, TOO_LONG, NONE),
        InputFault::Memory => (Failed, MEMORY, NONE),
    }
}

fn bundle_kind(fault: BundleFault) -> Kind
    ensures { table.kind_of result ≡ table.bundle_kind fault }
{
    match fault {
        BundleFault::Header { offset } => (Failed, ("Header", 0), one("offset", offset)),
        BundleFault::Short { offset } => (Failed, ("Short", 0), one("offset", offset)),
        BundleFault::Memory => (Failed, MEMORY, NONE),
    }
}

fn read_kind(fault: ReadFault) -> Kind
    ensures { table.kind_of result ≡ table.read_kind fault }
{
    match fault {
        ReadFault::Read => (Failed, READ, NONE),
        ReadFault::Truncated { offset } => (Failed, ("Truncated", 3), one("offset", offset)),
        ReadFault::TooLong => (Failed, TOO_LONG, NONE),
        ReadFault::Memory => (Failed, MEMORY, NONE),
    }
}

fn check_kind(fault: CheckFault) -> Kind
    ensures { table.kind_of result ≡ table.check_kind fault }
{
    match fault {
        CheckFault::Empty => (Refused, ("Empty", 5), NONE),
        CheckFault::TooLong => (Refused, TOO_LONG, NONE),
        CheckFault::Code { at } => (Refused, ("Code", 6), one("at", at)),
        CheckFault::Load { at } => (Refused, ("Load", 7), one("at", at)),
        CheckFault::Scratch { at } => (Refused, ("Scratch", 8), one("at", at)),
        CheckFault::Divisor { at } => (Refused, ("Divisor", 9), one("at", at)),
        CheckFault::Shift { at } => (Refused, ("Shift", 10), one("at", at)),
        CheckFault::Jump { at } => (Refused, ("Jump", 11), one("at", at)),
        CheckFault::LastNotReturn => (Refused, ("LastNotReturn", 12), NONE),
        CheckFault::Unset { at, word } => {
            let at = (Some("at"), at as u64);
            let word = (Some("word"), u64::from(word));
            (Refused, ("Unset", 13), [at, word, UNUSED])
        }
        CheckFault::Memory => (Failed, MEMORY, NONE),
    }
}

fn text_kind(fault: TextFault) -> Kind
    ensures { table.kind_of result ≡ table.text_kind fault }
{
    match fault {
        TextFault::NotAscii { line } => (Refused, ("NotAscii", 14), one("line", line)),
        TextFault::Mnemonic { line } => (Refused, ("Mnemonic", 15), one("line", line)),
        TextFault::Operand { line } => (Refused, ("Operand", 16), one("line", line)),
        TextFault::NumberRange { line } => (Refused, ("NumberRange", 17), one("line", line)),
        TextFault::Label { line } => (Refused, ("Label", 18), one("line", line)),
        TextFault::JumpTooFar { line } => (Refused, ("JumpTooFar", 19), one("line", line)),
        TextFault::TooLong { line } => (Refused, TOO_LONG, one("line", line)),
        TextFault::Memory => (Failed, MEMORY, NONE),
    }
}

fn table_kind(fault: TableFault) -> Kind
    ensures { table.kind_of result ≡ table.table_kind fault }
{
    match fault {
        TableFault::Form { line } => (Refused, ("Form", 20), one("line", line)),
        TableFault::Name { line } => (Refused, ("Name", 21), one("line", line)),
        TableFault::Number { line } => (Refused, ("Number", 22), one("line", line)),
        TableFault::Repeated { line } => (Refused, ("Repeated", 23), one("line", line)),
        TableFault::Memory => (Failed, MEMORY, NONE),
    }
}

fn load_kind(fault: LoadFault) -> Kind
    ensures { table.kind_of result ≡ table.load_kind fault }
{
    match fault {
        LoadFault::Json => (Refused, ("Json", 24), NONE),
        LoadFault::Missing { entry } => (Refused, ("Missing", 25), in_entry(entry)),
        LoadFault::Kind { entry } => (Refused, ("Kind", 26), in_entry(entry)),
        LoadFault::Action { entry } => (Refused, ("Action", 27), in_entry(entry)),
        LoadFault::Operator { entry } => (Refused, ("Operator", 28), in_entry(entry)),
        LoadFault::EmptyNames { entry } => (Refused, ("EmptyNames", 29), in_entry(entry)),
        LoadFault::Index { entry } => (Refused, ("Index", 30), in_entry(entry)),
        LoadFault::RepeatedIndex { entry } => (Refused, ("RepeatedIndex", 31), in_entry(entry)),
        LoadFault::Errno { entry } => (Refused, ("Errno", 32), in_entry(entry)),
        LoadFault::ErrnoRange { entry } => (Refused, ("ErrnoRange", 33), in_entry(entry)),
        LoadFault::NoX8664 { entry } => (Refused, ("NoX8664", 34), in_entry(entry)),
        LoadFault::NotListed { table } => (Refused, ("NotListed", 39), one("table", table)),
        LoadFault::EngineForm { entry } => (Refused, ("EngineForm", 35), in_entry(entry)),
        LoadFault::TooMany => (Refused, TOO_MANY, NONE),
        LoadFault::Conflict {
            number,
            first,
            second,
        } => {
            let number = (Some("number"), u64::from(number));
            let first = (Some("first"), u64::from(first));
            let second = (Some("second"), u64::from(second));
            (Refused, ("Conflict", 37), [number, first, second])
        }
        LoadFault::Memory => (Failed, MEMORY, NONE),
    }
}

fn row(source: FaultName, kind: Kind) -> FaultRow
    ensures { table.row_of result ≡ ((source.entry.0.now, source.entry.1), table.kind_of kind.entry) }
{
    let (status, kind, numbers) = kind;
    FaultRow {
        source,
        status,
        kind,
        numbers,
    }
}

pub fn text_row(fault: TextFault) -> FaultRow
    ensures { table.row_of result ≡ table.text_row fault }
{
    row(("text", 3), text_kind(fault))
}

pub fn compile_row(fault: CompileFault) -> FaultRow
    ensures { table.row_of result ≡ table.compile_row fault }
{
    let kind = match fault {
        CompileFault::TooLarge => (Refused, ("TooLarge", 38), NONE),
        CompileFault::Memory => (Failed, MEMORY, NONE),
    };
    row(("compile", 6), kind)
}

/// The row of what stops a comparison.
pub fn verify_row(fault: VerifyFault) -> FaultRow
    ensures { table.row_of result ≡ table.verify_row fault }
{
    let (source, kind) = match fault {
        VerifyFault::FilterRead(fault) => (("filter", 1), read_kind(fault)),
        VerifyFault::Check(fault) => (("filter", 1), check_kind(fault)),
        VerifyFault::Stack(PushFault::TooMany { total }) => {
            (("stack", 7), (Refused, TOO_MANY, one("total", total)))
        }
        VerifyFault::Stack(PushFault::Memory) => (("stack", 7), (Failed, MEMORY, NONE)),
        VerifyFault::TableRead(fault) => (("table", 4), input_kind(fault)),
        VerifyFault::Table(fault) => (("table", 4), table_kind(fault)),
        VerifyFault::ProfileRead(fault) => (("profile", 5), input_kind(fault)),
        VerifyFault::Profile(fault) => (("profile", 5), load_kind(fault)),
        VerifyFault::Memory => (("compare", 8), (Failed, MEMORY, NONE)),
    };
    row(source, kind)
}

/// The row of what stops a comparison of two sides.
pub fn side_row(fault: SideFault) -> FaultRow
    ensures { table.row_of result ≡ table.side_row fault }
{
    let mut row = verify_row(fault.why);
    if fault.beside {
        row.source = ("beside", 2);
    }
    row
}

fn request_row(fault: RequestFault) -> FaultRow
    ensures { table.row_of result ≡ table.fault_row (Fault.Request fault) }
{
    let (source, name) = match fault {
        RequestFault::NoCommand => ("command", "NoCommand"),
        RequestFault::Number(fault) => ("number", fault.name),
        RequestFault::Flags => ("command", "Flags"),
        RequestFault::Reading => ("command", "Reading"),
        RequestFault::Range => ("command", "Range"),
    };
    row((source, 0), (CommandLine, (name, 0), NONE))
}

impl Fault {
    pub(crate) fn row(self) -> FaultRow
        ensures { table.row_of result ≡ table.fault_row self }
    {
        let (source, kind) = match self {
            Fault::CommandLine => ("command", (Failed, MEMORY, NONE)),
            Fault::Request(fault) => return request_row(fault),
            Fault::Input(fault) => ("input", input_kind(fault)),
            Fault::Bundle(fault) => ("bundle", bundle_kind(fault)),
            Fault::Parts => ("bundle", (Failed, ("Parts", 0), NONE)),
            Fault::Text(fault) => return text_row(fault),
            Fault::Compile(fault) => return compile_row(fault),
            Fault::Sides(fault) => return side_row(fault),
            Fault::Answers => ("answers", (Failed, MEMORY, NONE)),
            Fault::Calls => ("command", (CommandLine, ("Calls", 0), NONE)),
        };
        row((source, 0), kind)
    }
}
