//! The records over which sides are compared.

use scf_insn::Architecture;

/// A set of call records.
#[derive(Clone, Copy)]
pub enum Scope {
    /// Every call record.
    All,
    /// x86-64's own: arch is AUDIT_ARCH_X86_64, and nr is below 0x40000000, where x32's begin.
    Native,
    /// Those of an architecture with a syscall number, as a record has it, from `first` to `last`, both included; none
    /// if `first` is above `last`.
    Numbers {
        architecture: Architecture,
        first: u32,
        last: u32,
    },
}
