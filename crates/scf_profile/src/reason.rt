//! Why a profile answers a call as it does.

/// Why a profile answers a record as it does.
#[derive(Clone, Copy)]
pub enum Reason {
    /// The record is of another ABI (another architecture, or x32): KILL_PROCESS.
    Foreign,
    /// The record's syscall number is the stub's first one or a greater one: ENOSYS.
    Stub,
    /// The record meets a rule of the entry with this index in `syscalls`, and none of an earlier entry.
    Entry(u32),
    /// The record meets no rule: the default answer.
    Default,
}
