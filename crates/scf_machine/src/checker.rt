//! The checker.

ghost use Rattle.std.specs.Prelude.{◌≡◌, ◌≢◌, ◌<◌, ◌≤◌, ◌↔◌, ℕ, List, length, Some, if◌then◌else◌};
ghost use Rattle.std.specs.Prelude.{IsTrue, IfOk, IfErr, OnOk};
ghost use Rattle.std.specs.Int.{bit_at};
ghost use Rattle.std.specs.List.{AllByRecursion};
ghost use Rattle.scf_insn.specs.Insn.{IsInsn};
ghost use Rattle.scf_insn.specs.Kernel.{bpf_maxinsns, bpf_memwords};
ghost use Rattle.scf_insn.specs.declared.insn.Insn.{Insn};
ghost use Rattle.scf_machine.specs.Checks.{IsFirstFault, IsFineBelow};
ghost use Rattle.scf_machine.specs.Machine.{RunsSafely};
ghost use Rattle.scf_machine.specs.internal.Masks.{Joins, MasksAt};
ghost use Rattle.scf_machine.specs.Rules.{IsFine, IsFineAt, IsFilter, IsValidList, KeepsScratchRule};
ghost use Rattle.scf_machine.specs.Rules.{GoesTo, Stands, stores_word};

use crate::program::Program;
use scf_insn::kernel::{BPF_MAXINSNS, BPF_MEMWORDS, SECCOMP_DATA_LEN};
use scf_insn::{Arithmetic, Insn, Operand, Operation};
use std::alloc::Global;
use thiserror::Error;

/// Why a list of instructions is refused. `at` is an instruction index, from 0.
#[derive(Clone, Copy, Debug, Error)]
pub enum CheckFault {
    #[error("the filter is empty")]
    Empty,
    #[error("the filter has more than 4096 instructions")]
    TooLong,
    #[error("unknown code at {at}")]
    Code { at: usize },
    #[error("a load outside the record at {at}")]
    Load { at: usize },
    #[error("no such scratch word at {at}")]
    Scratch { at: usize },
    #[error("a division by zero at {at}")]
    Divisor { at: usize },
    #[error("a shift by more than 31 at {at}")]
    Shift { at: usize },
    #[error("a jump out of the filter at {at}")]
    Jump { at: usize },
    #[error("the last instruction isn't a return")]
    LastNotReturn,
    #[error("scratch word {word} may be unset at {at}")]
    Unset { at: usize, word: u8 },
    #[error("out of memory")]
    Memory,
}

/// Whether an instruction keeps its operation's rule.
fn is_fine(len: usize, at: usize, insn: Insn, operation: Operation) -> bool
    requires { at < bpf_maxinsns }
    ensures { IsTrue result ↔ IsFine len at insn operation }
{
    match operation {
        Operation::LoadWord => (insn.k as usize) < SECCOMP_DATA_LEN && insn.k % 4 == 0,
        Operation::LoadScratch(_) | Operation::StoreScratch(_) => (insn.k as usize) < BPF_MEMWORDS,
        Operation::Compute(Arithmetic::Div, Operand::Constant) => insn.k != 0,
        Operation::Compute(Arithmetic::Lsh | Arithmetic::Rsh, Operand::Constant) => insn.k < 32,
        Operation::Jump => at + 1 + (insn.k as usize) < len,
        Operation::JumpIf(_, _) => {
            at + 1 + (insn.jt as usize) < len && at + 1 + (insn.jf as usize) < len
        }
        _ => true,
    }
}

/// The fault of an instruction that breaks its operation's rule.
#[tactic(auto, using(crate::proofs::Runs::fine_of))]
fn fault_of(operation: Operation, at: usize) -> CheckFault
    ensures { (insns : List Insn) (i : Insn) → IsFineBelow insns at → Stands insns at i operation
        → (IsFine (length insns) at i operation → ⊥) → IsFirstFault insns result }
{
    match operation {
        Operation::LoadWord => CheckFault::Load { at },
        Operation::LoadScratch(_) | Operation::StoreScratch(_) => CheckFault::Scratch { at },
        Operation::Compute(Arithmetic::Div, _) => CheckFault::Divisor { at },
        Operation::Compute(_, _) => CheckFault::Shift { at },
        _ => CheckFault::Jump { at },
    }
}

fn check_pc(insns: &[Insn], at: usize) -> Result<(), CheckFault>
    requires inside { at < length insns.now }
    requires before { IsFineBelow insns.now at }
    ensures ok { OnOk result (IsFineAt insns.now at) }
    ensures err { IfErr result (IsFirstFault insns.now) }
{
    let insn = insns[at];
    let Some(operation) = insn.operation() else {
        return Err(CheckFault::Code { at });
    };
    if is_fine(insns.len(), at, insn, operation) {
        Ok(())
    } else {
        Err(fault_of(operation, at))
    }
}

fn check_insns(insns: &[Insn]) -> Result<(), CheckFault>
    requires some { 0 < length insns.now }
    requires few { length insns.now ≤ bpf_maxinsns }
    ensures ok { OnOk result (IsFineBelow insns.now (length insns.now)) }
    ensures err { IfErr result (IsFirstFault insns.now) }
{
    for at in 0..insns.len() {
        check_pc(insns, at)?;
    }
    Ok(())
}

fn check_last(insns: &[Insn]) -> Result<(), CheckFault>
    requires { IsFineBelow insns.now (length insns.now) }
    ensures ok { OnOk result (IsValidList insns.now) }
    ensures err { IfErr result (IsFirstFault insns.now) }
{
    let last = insns[insns.len() - 1];
    match last.operation() {
        Some(Operation::ReturnConstant) => Ok(()),
        Some(Operation::ReturnAccumulator) => Ok(()),
        _ => Err(CheckFault::LastNotReturn),
    }
}

/// Whether the scratch word is in the mask.
fn is_stored(mask: u16, word: u32) -> bool
    requires { word < bpf_memwords }
    ensures { IsTrue result ↔ (bit_at mask word ≡ 1) }
{
    (mask >> word) & 1 == 1
}

/// The mask, with the scratch word that the instruction stores.
#[tactic(auto, using(crate::proofs::Masks::bit_set))]
fn mask_after(mask: u16, insn: Insn, operation: Operation) -> u16
    requires { IsTrue (stores_word operation insn.k insn.k) → insn.k < bpf_memwords }
    ensures { (n : ℕ) → n < bpf_memwords
        → bit_at result n ≡ (if stores_word operation insn.k n then 1 else bit_at mask n) }
{
    match operation {
        Operation::StoreScratch(_) => mask | 1 << insn.k,
        _ => mask,
    }
}

/// Intersects the mask of one instruction with another mask.
fn join_at(masks: &mut [u16], target: usize, mask: u16)
    requires { target < length masks.old }
    ensures { Joins masks.old masks.new (λ p. p ≡ target) mask }
{
    masks[target] &= mask;
}

/// Intersects the masks of an instruction's successors with its own.
fn join(masks: &mut [u16], at: usize, insn: Insn, operation: Operation, mask: u16)
    requires inside { at < length masks.old }
    requires fine { IsFine (length masks.old) at insn operation }
    ensures { Joins masks.old masks.new (GoesTo (Some operation) insn at) mask }
{
    match operation {
        Operation::Jump => join_at(masks, at + 1 + insn.k as usize, mask),
        Operation::JumpIf(_, _) => {
            join_at(masks, at + 1 + insn.jt as usize, mask);
            join_at(masks, at + 1 + insn.jf as usize, mask);
        }
        _ => {
            if at + 1 < masks.len() {
                join_at(masks, at + 1, mask);
            }
        }
    }
}

/// The instruction at an index of a valid list, and its operation.
fn known_at(insns: &[Insn], at: usize) -> (Insn, Operation)
    requires valid { IsValidList insns.now }
    requires inside { at < length insns.now }
    ensures stands { Stands insns.now at result.0 result.1 }
    ensures fine { IsFine (length insns.now) at result.0 result.1 }
{
    let insn = insns[at];
    let Some(operation) = insn.operation() else {
        unreachable!();
    };
    (insn, operation)
}

/// Finds the first load of a scratch word that some path to it doesn't store.
fn find_unset(insns: &[Insn], masks: &mut [u16]) -> Result<(), CheckFault>
    requires valid { IsValidList insns.now }
    requires start { MasksAt insns.now masks.old 0 }
    ensures ok { OnOk result (KeepsScratchRule insns.now) }
    ensures err { IfErr result (IsFirstFault insns.now) }
{
    for at in 0..insns.len() {
        let (insn, operation) = known_at(insns, at);
        let mask = masks[at];
        if let Operation::LoadScratch(_) = operation {
            if !is_stored(mask, insn.k) {
                let word = insn.k as u8;
                return Err(CheckFault::Unset { at, word });
            }
        }
        join(
            masks,
            at,
            insn,
            operation,
            mask_after(mask, insn, operation),
        );
    }
    Ok(())
}

/// Checks each load of a scratch word. The mask of an instruction has the words that every path to it stores; at first
/// only the path to index 0 is known.
#[tactic(auto, using(crate::proofs::Masks::masks_made))]
fn check_scratch(alloc: Global, insns: &[Insn]) -> Result<(), CheckFault>
    requires { IsValidList insns.now }
    ensures ok { OnOk result (KeepsScratchRule insns.now) }
    ensures err { IfErr result (IsFirstFault insns.now) }
{
    let Ok(mut masks) = vec![in alloc; u16::MAX; insns.len()] else {
        return Err(CheckFault::Memory);
    };
    masks[0] = 0;
    find_unset(insns, &mut masks)
}

/// States that the fields of each instruction are within their widths.
fn note_widths(insns: &[Insn])
    ensures { AllByRecursion IsInsn insns.now }
{
    for insn in insns {
        insn.within_widths();
    }
}

fn find_fault(alloc: Global, insns: &[Insn]) -> Result<(), CheckFault>
    ensures ok { OnOk result (IsFilter insns.now) }
    ensures err { IfErr result (IsFirstFault insns.now) }
{
    note_widths(insns);
    if insns.is_empty() {
        return Err(CheckFault::Empty);
    }
    if insns.len() > BPF_MAXINSNS {
        return Err(CheckFault::TooLong);
    }
    check_insns(insns)?;
    check_last(insns)?;
    check_scratch(alloc, insns)
}

/// Accepts a list of instructions as a program, unchanged; else the first fault, and the list back.
///
/// The order of faults: `Empty`, `TooLong`; then at the lowest index one of `Code`, `Load`, `Scratch`, `Divisor`,
/// `Shift`, `Jump`; then `LastNotReturn`; then `Memory`, at the only allocation; then `Unset` at the lowest load whose
/// scratch word some path doesn't store. The rules are those of bpf_check_classic and check_load_and_stores
/// (net/core/filter.c) and seccomp_check_filter (kernel/seccomp.c).
pub fn check(alloc: Global, insns: Vec<Insn>) -> Result<Program, (CheckFault, Vec<Insn>)>
    ensures accepted { IfOk result (λ program.
        (program ≡ insns.items) × IsValidList program × KeepsScratchRule program) }
    // Each run of an accepted program ends in an answer within its length, and none faults.
    ensures safe { IfOk result (λ program. (words : List ℕ) → RunsSafely program words) }
    ensures refused { IfErr result (λ e. IsFirstFault insns.items e.0) }
    ensures only_where { IfErr result (λ e.
        e.0 ≢ CheckFault.Memory → IsValidList insns.items → KeepsScratchRule insns.items → ⊥) }
    ensures handed_back { IfErr result (λ e. e.1.items ≡ insns.items) }
{
    match find_fault(alloc, &insns) {
        Ok(()) => Ok(Program { list: insns }),
        Err(fault) => Err((fault, insns)),
    }
}
