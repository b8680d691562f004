//! What leads a record to the search of its architecture: tests of its `arch`, and then of its syscall number, which
//! architectures with one value of `arch` share.

ghost use Rattle.std.specs.Prelude.{◌≡◌, ◌+◌, ◌*◌, ◌==◌, ◌^◌, ◌<◌, [], ◌∷◌, IfOk, OnOk, length, not};
ghost use Rattle.std.specs.List.{filter};
ghost use Rattle.scf_insn.specs.Kernel.{seccomp_ret_kill_process};
ghost use Rattle.scf_compile.specs.internal.Dispatch.{audit_of, AllStand, AreTestsPut, IsDispatchPut, IsGated};
ghost use Rattle.scf_compile.specs.internal.Dispatch.{IsGatePut};
ghost use Rattle.scf_compile.specs.internal.Insns.{return_with};
ghost use Rattle.scf_compile.specs.internal.Placing.{IsPut};

use crate::insns::{load_word, return_with};
use crate::placing::{Position, put_block, put_branch, put_front, put_jump};
use scf_insn::{Architecture, Insn, Test};
use scf_profile::FOREIGN_ANSWER;
use std::alloc::{AllocError, Global};
use std::collections::VecDeque;

/// The search for the rules of an architecture's syscall numbers, and where it begins.
#[derive(Clone, Copy)]
pub(crate) struct Search {
    pub(crate) architecture: Architecture,
    pub(crate) index: Position,
}

/// Puts the answer to records of other architectures in front of the code, unless it is within reach.
fn put_foreign(code: &mut VecDeque<Insn>) -> Result<Position, AllocError>
    ensures { IfOk result (IsPut (return_with seccomp_ret_kill_process ∷ []) code.old.items code.new.items) }
{
    put_block(code, &[return_with(FOREIGN_ANSWER)])
}

/// Puts tests of a syscall number, which is at least `least`, in front of the searches for architectures with one value
/// of `arch`. An architecture's numbers begin at 0 or go on to the greatest one, so one test tells them from others.
fn put_tests(
    code: &mut VecDeque<Insn>,
    least: u32,
    searches: &[Search],
) -> Result<Position, AllocError>
    requires stand { AllStand searches.now code.now.items }
    requires few { length code.now.items + 2 * length searches.now + 1 < 2 ^ 32 }
    ensures { IfOk result (AreTestsPut least searches.now code.old.items code.new.items) }
{
    let Some((search, others)) = searches.split_first() else {
        return put_foreign(code);
    };
    let (first, last) = (search.architecture.first(), search.architecture.last());
    if last < u32::MAX {
        let above = put_tests(code, last + 1, others)?;
        return put_branch(code, Test::GreaterOrEqual, last + 1, above, search.index);
    }
    if least < first {
        let below = put_tests(code, least, others)?;
        let jump = put_jump(code, search.index)?;
        return put_branch(code, Test::GreaterOrEqual, first, jump, below);
    }
    put_jump(code, search.index)
}

/// Puts what loads the syscall number, and its tests, in front of the code.
fn put_gate(code: &mut VecDeque<Insn>, searches: &[Search]) -> Result<Position, AllocError>
    requires some { 0 < length searches.now }
    requires stand { AllStand searches.now code.now.items }
    requires few { length code.now.items + 2 * length searches.now + 1 < 2 ^ 32 }
    ensures { IfOk result (IsGatePut searches.now code.old.items code.new.items) }
{
    put_tests(code, 0, searches)?;
    code.push_front(load_word(0))?;
    Ok(Position(code.len()))
}

/// Puts what loads and tests `arch`, and loads the syscall number, in front of code for records with a value of `arch`.
/// Others get KILL_PROCESS.
pub(crate) fn put_only_gate(code: &mut VecDeque<Insn>, audit: u32) -> Result<(), AllocError>
    requires some { 0 < length code.now.items }
    requires few { length code.now.items + 2 < 2 ^ 32 }
    ensures { OnOk result (IsGated audit code.old.items code.new.items) }
{
    code.push_front(load_word(0))?;
    let hit = Position(code.len());
    let foreign = put_foreign(code)?;
    put_branch(code, Test::Equal, audit, hit, foreign)?;
    code.push_front(load_word(1))?;
    Ok(())
}

/// The searches for architectures with a value of `arch`, and the others.
fn split_by_audit(
    alloc: Global,
    searches: &[Search],
    audit: u32,
) -> Result<(Vec<Search>, Vec<Search>), AllocError>
    ensures matching { IfOk result (λ parts. parts.0.items ≡ filter (λ s. audit_of s == audit) searches.now) }
    ensures others { IfOk result (λ parts. parts.1.items ≡ filter (λ s. not (audit_of s == audit)) searches.now) }
{
    searches
        .iter()
        .copied()
        .partition(alloc, |search| search.architecture.audit() == audit)
}

/// Puts what leads a record to its search, with its `arch` in the accumulator, in front of the code. The first search's
/// value of `arch` is tested first, then those of the others. A record that has no search gets KILL_PROCESS.
pub(crate) fn put_dispatch(
    alloc: Global,
    code: &mut VecDeque<Insn>,
    searches: &[Search],
) -> Result<Position, AllocError>
    requires stand { AllStand searches.now code.now.items }
    requires few { length code.now.items + 6 * length searches.now + 1 < 2 ^ 32 }
    ensures { IfOk result (IsDispatchPut searches.now code.old.items code.new.items) }
{
    let Some((first, _later)) = searches.split_first() else {
        put_front(code, &[return_with(FOREIGN_ANSWER)])?;
        return Ok(Position(code.len()));
    };
    let audit = first.architecture.audit();
    let (matching, others) = split_by_audit(alloc, searches, audit)?;
    if others.is_empty() {
        let gate = put_gate(code, &matching)?;
        let foreign = put_foreign(code)?;
        return put_branch(code, Test::Equal, audit, gate, foreign);
    }
    let next = put_dispatch(alloc, code, &others)?;
    let gate = put_gate(code, &matching)?;
    put_branch(code, Test::Equal, audit, gate, next)
}
