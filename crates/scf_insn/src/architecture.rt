//! The architectures that a profile can name (OCI runtime specification, config-linux.md, seccomp).

ghost use Rattle.std.specs.Prelude.{◌≡◌, ◌↔◌, ◌-◌, ◌^◌, IsTrue};
ghost use Rattle.scf_insn.specs.Architectures.{architectures, greatest_argument, row_of, taken_of, IsOf};

use crate::kernel::{AUDIT_ARCH_X86_64, X32_SYSCALL_BIT};
use crate::record::CallRecord;

/// How many bits of a register are an argument: all 64, or the low 32.
#[derive(Clone, Copy, PartialEq, Eq)]
pub enum ArgumentBits {
    Bits32,
    Bits64,
}

impl ArgumentBits {
    /// The greatest argument.
    pub fn greatest(self) -> u64
        ensures { result ≡ greatest_argument self }
    {
        match self {
            ArgumentBits::Bits32 => 0xffff_ffff,
            ArgumentBits::Bits64 => u64::MAX,
        }
    }

    /// The argument in a register.
    pub fn taken(self, register: u64) -> u64
        ensures { result ≡ taken_of self register }
    {
        match self {
            ArgumentBits::Bits32 => register & 0xffff_ffff,
            ArgumentBits::Bits64 => register,
        }
    }
}

/// An architecture whose syscalls a profile can speak of, in the order of `Architecture::all`.
#[derive(Clone, Copy)]
pub enum Architecture {
    X8664,
    X86,
    X32,
    Aarch64,
    Arm,
    Riscv64,
    Ppc64le,
    Mipsel,
    Mipsel64,
    Mipsel64n32,
    Loongarch64,
}

/// What sets an architecture apart, but for its numbers.
#[derive(Clone, Copy)]
struct Row {
    audit: u32,
    bits: ArgumentBits,
    name: &'static str,
    part: &'static str,
}

/// The row of an architecture, of those below: architecture, audit value (`AUDIT_ARCH_..` of linux/audit.h), bits of an
/// argument, name, part.
macro_rules! rows {
    ($of:expr; $($architecture:ident $audit:tt $bits:ident $name:literal $part:literal;)*) => {
        match $of {
            $(Architecture::$architecture => {
                Row { audit: $audit, bits: ArgumentBits::$bits, name: $name, part: $part }
            })*
        }
    };
}

/// How many architectures there are.
pub const ARCHITECTURES: usize = 11;

impl Architecture {
    /// All of them.
    pub fn all() -> [Architecture; ARCHITECTURES]
        ensures { result ≡ architectures }
    {
        [
            Architecture::X8664,
            Architecture::X86,
            Architecture::X32,
            Architecture::Aarch64,
            Architecture::Arm,
            Architecture::Riscv64,
            Architecture::Ppc64le,
            Architecture::Mipsel,
            Architecture::Mipsel64,
            Architecture::Mipsel64n32,
            Architecture::Loongarch64,
        ]
    }

    fn row(self) -> Row
        ensures audit { result.audit ≡ (row_of self).audit }
        ensures bits { result.bits ≡ (row_of self).bits }
        ensures name { result.name.now ≡ (row_of self).name }
        ensures part { result.part.now ≡ (row_of self).part }
    {
        rows! { self;
            X8664 AUDIT_ARCH_X86_64 Bits64 "SCMP_ARCH_X86_64" "table";
            X86 0x4000_0003 Bits32 "SCMP_ARCH_X86" "table-x86";
            X32 AUDIT_ARCH_X86_64 Bits32 "SCMP_ARCH_X32" "table-x32";
            Aarch64 0xc000_00b7 Bits64 "SCMP_ARCH_AARCH64" "table-aarch64";
            Arm 0x4000_0028 Bits32 "SCMP_ARCH_ARM" "table-arm";
            Riscv64 0xc000_00f3 Bits64 "SCMP_ARCH_RISCV64" "table-riscv64";
            Ppc64le 0xc000_0015 Bits64 "SCMP_ARCH_PPC64LE" "table-ppc64le";
            Mipsel 0x4000_0008 Bits32 "SCMP_ARCH_MIPSEL" "table-mipsel";
            Mipsel64 0xc000_0008 Bits64 "SCMP_ARCH_MIPSEL64" "table-mipsel64";
            Mipsel64n32 0xe000_0008 Bits32 "SCMP_ARCH_MIPSEL64N32" "table-mipsel64n32";
            Loongarch64 0xc000_0102 Bits64 "SCMP_ARCH_LOONGARCH64" "table-loongarch64";
        }
    }

    /// The value of `arch` in its records.
    pub fn audit(self) -> u32
        ensures { result ≡ (row_of self).audit }
    {
        self.row().audit
    }

    /// The first syscall number.
    pub fn first(self) -> u32
        ensures { result ≡ (row_of self).first }
    {
        match self {
            Architecture::X32 => X32_SYSCALL_BIT,
            _ => 0,
        }
    }

    /// The last number that its syscalls can have.
    pub fn last(self) -> u32
        ensures { result ≡ (row_of self).last }
    {
        match self {
            Architecture::X8664 => X32_SYSCALL_BIT - 1,
            _ => u32::MAX,
        }
    }

    /// How wide its arguments are.
    pub fn argument_bits(self) -> ArgumentBits
        ensures { result ≡ (row_of self).bits }
    {
        self.row().bits
    }

    /// The name in a profile.
    pub fn name(self) -> &'static str
        ensures { result.now ≡ (row_of self).name }
    {
        self.row().name
    }

    /// The kind of part that holds its syscall table in a bundle.
    pub fn part(self) -> &'static str
        ensures { result.now ≡ (row_of self).part }
    {
        self.row().part
    }

    /// Whether a record is of the architecture.
    pub fn has(self, call: &CallRecord) -> bool
        ensures { IsTrue result ↔ IsOf self call.now }
    {
        call.arch == self.audit() && self.first() <= call.nr && call.nr <= self.last()
    }
}
