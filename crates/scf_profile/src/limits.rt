//! Limits of profiles.

use scf_insn::kernel::SECCOMP_DATA_ARGS;

/// The most bytes of a profile's text.
pub const MAX_TEXT_LEN: usize = 4_194_304;

/// The most rules of a profile.
pub const MAX_RULES: usize = 4096;

/// How many arguments a syscall has.
pub(crate) const ARGUMENTS: u8 = SECCOMP_DATA_ARGS as u8;

/// The greatest errno: the data of an answer have 16 bits.
pub(crate) const MAX_ERRNO: u64 = 65535;
