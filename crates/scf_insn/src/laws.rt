//! Laws of codes, instructions and their bytes. Each function does nothing: its contract is the law.

ghost use Rattle.std.specs.Prelude.{◌≡◌, ◌*◌, ◌<◌, ℕ, List, Some, length};
ghost use Rattle.std.specs.List.{AllByRecursion};
ghost use Rattle.scf_insn.specs.declared.insn.Insn.{Insn};
ghost use Rattle.scf_insn.specs.declared.operation.Operation.{Operation};
ghost use Rattle.scf_insn.specs.Codes.{code_of, operation_of};
ghost use Rattle.scf_insn.specs.Insn.{IsInsn, program_bytes};
ghost use Rattle.scf_insn.specs.Kernel.{audit_arch_x86_64, x32_syscall_bit, bpf_maxinsns, bpf_memwords};
ghost use Rattle.scf_insn.specs.Kernel.{sock_filter_len, seccomp_data_len, seccomp_data_args};
ghost use Rattle.scf_insn.specs.Kernel.{max_insns_per_path, max_filter_len};
ghost use Rattle.scf_insn.specs.Kernel.{seccomp_ret_kill_process, seccomp_ret_errno};

use crate::kernel::{
    AUDIT_ARCH_X86_64, BPF_MAXINSNS, BPF_MEMWORDS, MAX_FILTER_LEN, MAX_INSNS_PER_PATH,
    SECCOMP_DATA_ARGS, SECCOMP_DATA_LEN, SECCOMP_RET_ERRNO, SECCOMP_RET_KILL_PROCESS,
    SOCK_FILTER_LEN, X32_SYSCALL_BIT,
};

/// Bytes and lists of instructions are a bijection at multiples of 8: a list has 8 bytes for each instruction, two
/// lists within their widths never have the same bytes, and bytes whose count is a multiple of 8 are those of a list
/// within its widths.
pub fn one_encoding()
    ensures length { (insns : List Insn) → length (program_bytes insns) ≡ 8 * length insns }
    ensures one { (insns others : List Insn) → AllByRecursion IsInsn insns → AllByRecursion IsInsn others
        → program_bytes insns ≡ program_bytes others → insns ≡ others }
    ensures some { (n : ℕ) (bytes : List ℕ) → length bytes ≡ 8 * n → AllByRecursion (λ byte. byte < 256) bytes
        → (insns : List Insn) × AllByRecursion IsInsn insns × (program_bytes insns ≡ bytes) }
{}

/// Codes and operations correspond: the code of each operation has that operation, and no other code does.
pub fn one_code()
    ensures operation { (operation : Operation) → operation_of (code_of operation) ≡ Some operation }
    ensures code { (code : ℕ) (operation : Operation) → operation_of code ≡ Some operation → code_of operation ≡ code }
{}

/// The kernel's constants have the values of its headers.
pub fn kernel_constants()
    ensures arch { AUDIT_ARCH_X86_64 ≡ audit_arch_x86_64 }
    ensures x32 { X32_SYSCALL_BIT ≡ x32_syscall_bit }
    ensures kill_process { SECCOMP_RET_KILL_PROCESS ≡ seccomp_ret_kill_process }
    ensures errno { SECCOMP_RET_ERRNO ≡ seccomp_ret_errno }
    ensures insns { BPF_MAXINSNS ≡ bpf_maxinsns }
    ensures scratch { BPF_MEMWORDS ≡ bpf_memwords }
    ensures insn { SOCK_FILTER_LEN ≡ sock_filter_len }
    ensures call { SECCOMP_DATA_LEN ≡ seccomp_data_len }
    ensures arguments { SECCOMP_DATA_ARGS ≡ seccomp_data_args }
    ensures stack { MAX_INSNS_PER_PATH ≡ max_insns_per_path }
    ensures file { MAX_FILTER_LEN ≡ max_filter_len }
{}
