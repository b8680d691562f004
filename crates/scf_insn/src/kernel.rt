//! The kernel's constants, under the names of its headers.

/// `AUDIT_ARCH_X86_64` of linux/audit.h: the architecture of x86-64 syscalls, x32's among them.
pub const AUDIT_ARCH_X86_64: u32 = 0xc000_003e;

/// `__X32_SYSCALL_BIT` of asm/unistd.h: the bit of x32's syscall numbers.
pub const X32_SYSCALL_BIT: u32 = 0x4000_0000;

/// `SECCOMP_RET_KILL_PROCESS` of linux/seccomp.h: kill the process.
pub const SECCOMP_RET_KILL_PROCESS: u32 = 0x8000_0000;

/// `SECCOMP_RET_ERRNO` of linux/seccomp.h: the syscall returns an errno.
pub const SECCOMP_RET_ERRNO: u32 = 0x0005_0000;

/// `BPF_MAXINSNS` of linux/bpf_common.h: the most instructions of a filter.
pub const BPF_MAXINSNS: usize = 4096;

/// `BPF_MEMWORDS` of linux/filter.h: the scratch words of a filter.
pub const BPF_MEMWORDS: usize = 16;

/// `sizeof(struct sock_filter)` of linux/filter.h: the bytes of an instruction.
pub const SOCK_FILTER_LEN: usize = 8;

/// `sizeof(struct seccomp_data)` of linux/seccomp.h: the bytes of a call record.
pub const SECCOMP_DATA_LEN: usize = 64;

/// The length of `args` of struct seccomp_data of linux/seccomp.h: the arguments of a syscall.
pub const SECCOMP_DATA_ARGS: usize = 6;

/// `MAX_INSNS_PER_PATH` of kernel/seccomp.c: the most that the filters of a stack may count together.
pub const MAX_INSNS_PER_PATH: usize = 32768;

/// The most bytes of a filter file: those of `BPF_MAXINSNS` instructions.
pub const MAX_FILTER_LEN: usize = SOCK_FILTER_LEN * BPF_MAXINSNS;
