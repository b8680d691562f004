//! What crosses between C and scf: the structs of scf.h, field by field.

ghost use Rattle.std.specs.Prelude.{◌≡◌};
ghost use Rattle.scf_c.specs.Layout.{call_of, record_of};

use scf_insn::CallRecord;

/// Some bytes: where they are, and how many.
#[repr(C)]
pub struct Bytes<'a> {
    pub bytes: &'a [u8],
}

/// What a filter sees of a syscall: the kernel's struct seccomp_data.
#[repr(C)]
#[derive(Clone, Copy, Default)]
pub struct Call {
    pub nr: u32,
    pub arch: u32,
    pub ip: u64,
    pub args: [u64; 6],
}

impl Call {
    pub(crate) fn record(&self) -> CallRecord
        ensures { result ≡ record_of self.now }
    {
        CallRecord {
            nr: self.nr,
            arch: self.arch,
            ip: self.ip,
            args: self.args,
        }
    }

    pub(crate) fn of(call: &CallRecord) -> Call
        ensures { result ≡ call_of call.now }
    {
        Call {
            nr: call.nr,
            arch: call.arch,
            ip: call.ip,
            args: call.args,
        }
    }
}

/// What a stack of filters answers, and the instruction that gives the answer.
#[repr(C)]
#[derive(Clone, Copy, Default)]
pub struct DecisionNumbers {
    pub answer: u32,
    /// 1, or 0 if the stack has no filter.
    pub has_filter: u32,
    /// The index of the filter, 0 the oldest.
    pub filter: u64,
    /// The index of its instruction.
    pub index: u64,
    /// 0.
    pub reserved: [u64; 4],
}

/// Why an input is refused, or what memory ran out for.
#[repr(C)]
#[derive(Clone, Copy, Default)]
pub struct Fault {
    /// Which input is refused.
    pub source: u32,
    /// Why it is refused.
    pub kind: u32,
    /// The numbers of this kind, in the order of the printed line, and 0 behind them.
    pub numbers: [u64; 3],
    /// 0.
    pub reserved: [u64; 4],
}

/// A syscall table, and the architecture whose syscalls it numbers.
#[repr(C)]
#[derive(Clone, Copy)]
pub struct Table<'a> {
    /// x32's has its numbers without the bit 0x40000000.
    pub bytes: &'a [u8],
    /// Its position among all of them, counted from 1: 1 for x86-64.
    pub architecture: u32,
    /// 1 if profiles have a stub for these syscalls, else 0.
    pub has_stub: u32,
    /// The first syscall number, as a record has it, that the stub answers.
    pub stub: u32,
    /// 0, until it has a meaning.
    pub reserved: u32,
}

/// A profile, and how it is read.
#[repr(C)]
pub struct ProfileInput<'a> {
    pub text: &'a [u8],
    /// 0 by its words, 1 as runc reads it, 2 as crun does, 3 by its words with TRAP's data.
    pub reading: u32,
    /// 1 to skip the tables of architectures that the profile doesn't list, else 0.
    pub flags: u32,
    /// 0, until they have a meaning.
    pub reserved: [u64; 2],
}

/// What answers syscalls: filters or a profile.
#[repr(C)]
pub struct SideInput<'a> {
    /// 1 for the profile, 2 for the filters.
    pub kind: u32,
    /// 0, until it has a meaning.
    pub reserved: u32,
    /// A stack, the oldest filter first.
    pub filters: &'a [Bytes<'a>],
    pub profile: ProfileInput<'a>,
}

/// A question: over which records sides are compared, by which relation, and within which limits.
#[repr(C)]
pub struct Question {
    /// 0 for all records at once, 1 for those of an architecture with a number of a range, 2 for those of each
    /// architecture that has a table, 3 for those of each syscall of the tables.
    pub scope: u32,
    /// 0 for the same answers, 1 for no more permissive ones, 2 for no less permissive ones, 3 for one disposition.
    pub relation: u32,
    /// The architecture of a range.
    pub architecture: u32,
    /// The first number of the range, as a record has it.
    pub first: u32,
    /// The last one.
    pub last: u32,
    /// 0, until it has a meaning.
    pub unused: u32,
    /// The most steps of a comparison.
    pub limit: u64,
    /// The most steps of all comparisons together.
    pub total_limit: u64,
    /// 0, until they have a meaning.
    pub reserved: [u64; 2],
}

/// How much of a profile has no table.
#[repr(C)]
#[derive(Clone, Copy, Default)]
pub struct LeftOutCounts {
    /// The architectures that it lists without a table, each occurrence.
    pub not_looked_at: u64,
    /// The names that no table has, each occurrence.
    pub skipped: u64,
    /// 0.
    pub reserved: [u64; 4],
}

/// What a profile answers to a call, and why.
#[repr(C)]
#[derive(Clone, Copy, Default)]
pub struct ProfileAnswer {
    pub answer: u32,
    /// 1 its default, 2 an entry, 3 another ABI, 4 the stub.
    pub reason: u32,
    /// The index of the entry, and else 0.
    pub entry: u32,
    /// 0.
    pub unused: u32,
    pub left_out: LeftOutCounts,
}

/// What a comparison comes to.
#[repr(C)]
#[derive(Clone, Copy, Default)]
pub struct FindingNumbers {
    /// 1 the relation holds, 2 it fails, 3 undecided, 4 unfinished, 0 nothing is compared.
    pub verdict: u32,
    /// Where it fails: the answer of the left side to the call.
    pub left: u32,
    /// Where it fails: the answer of the right side.
    pub right: u32,
    /// Where it is undecided: 1 by the filters of the left side, 2 by those of the right side.
    pub side: u32,
    /// Where it is undecided: the index of an instruction.
    pub at: u64,
    /// Where it fails: a call that shows it.
    pub call: Call,
}

/// What comparisons come to together, and how much of the sides isn't compared.
#[repr(C)]
#[derive(Clone, Copy, Default)]
pub struct Comparison {
    pub finding: FindingNumbers,
    pub left_out_of_left: LeftOutCounts,
    pub left_out_of_right: LeftOutCounts,
}

/// What the comparison over some of the records comes to.
#[repr(C)]
#[derive(Clone, Copy)]
pub struct RecordsComparison {
    /// Their architecture, 0 for all records.
    pub architecture: u32,
    /// The number of their syscall, as a record has it, where it is the only one, and else 0.
    pub nr: u32,
    pub finding: FindingNumbers,
    /// 0.
    pub reserved: [u64; 4],
}

/// Records that a side answers alike, from one place.
#[repr(C)]
#[derive(Clone, Copy)]
pub struct RegionNumbers {
    /// The answer, if it is known.
    pub answer: u32,
    /// Whether it is.
    pub is_known: u32,
    /// Whether each record with these words is answered so, and is in no other exact region.
    pub is_exact: u32,
    /// Whether there is an example.
    pub has_example: u32,
    /// Of a profile: 1 its default, 2 an entry, 3 another ABI, 4 the stub. Of filters 0.
    pub reason: u32,
    /// Of an entry: its index.
    pub entry: u32,
    /// Of filters: the index of the one that answers.
    pub filter: u64,
    /// Of filters: the index of the instruction that answers.
    pub index: u64,
    /// How many of the facts are about this region.
    pub fact_count: u64,
    /// One of the records.
    pub example: Call,
    /// 0.
    pub reserved: [u64; 4],
}

/// A fact about a word of the records of a region.
#[repr(C)]
#[derive(Clone, Copy)]
pub struct WordFact {
    /// The index of the word.
    pub word: u32,
    /// 1 an interval that it may lie in, 2 the bits that it has, 3 bits that it doesn't have.
    pub kind: u32,
    /// The first number of the interval, or the mask of the bits.
    pub low: u32,
    /// The last number, or the value of the bits.
    pub high: u32,
}

/// What a walk over a side comes to.
#[repr(C)]
#[derive(Clone, Copy, Default)]
pub struct Listing {
    /// 1 if all regions are listed, 0 if the limit was reached: then none is.
    pub is_finished: u32,
    /// 0.
    pub unused: u32,
    pub left_out: LeftOutCounts,
}
