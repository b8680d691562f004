//! Emits code from its last instruction to its first, so that the target of each jump is already there.

ghost use Rattle.std.specs.Prelude.{◌≡◌, ◌-◌, ◌^◌, ◌<◌, ◌≤◌, ◌++◌, IfOk, IfSome, IsTrue, OnOk, length};
ghost use Rattle.scf_compile.specs.internal.Placing.{branch_code, skip_code, IsFirst, IsNear, IsPut, StandsBehind};

use crate::insns::{jump_if, jump_over};
use scf_insn::{Insn, Test};
use std::alloc::AllocError;
use std::collections::VecDeque;

/// The most instructions that a conditional jump can skip.
const MAX_SKIP: usize = 255;

/// A position in such code: the count of instructions from it to the end, which stays when more is put in front.
#[derive(Clone, Copy)]
pub(crate) struct Position(pub(crate) usize);

/// Puts instructions in front of the code.
#[tactic(auto, using(crate::proofs::Common::drop_more))]
pub(crate) fn put_front(code: &mut VecDeque<Insn>, block: &[Insn]) -> Result<(), AllocError>
    ensures { OnOk result (code.new.items ≡ block.now ++ code.old.items) }
{
    for i in (0..block.len()).rev() {
        code.push_front(block[i])?;
    }
    Ok(())
}

/// Whether a block stands in the code behind `passed` instructions.
fn stands_behind(code: &VecDeque<Insn>, passed: usize, block: &[Insn]) -> bool
    requires { passed ≤ length code.now.items }
    ensures { IsTrue result → StandsBehind passed block.now code.now.items }
{
    if block.len() > code.len() - passed {
        return false;
    }
    for (i, insn) in block.iter().enumerate() {
        if code.get(passed + i) != Some(insn) {
            return false;
        }
    }
    true
}

/// The nearest position of a block, from `earlier` on, that a conditional jump, put in front of the code, can reach.
fn find_block(code: &VecDeque<Insn>, block: &[Insn], earlier: Position) -> Option<Position>
    ensures { IfSome result (IsPut block.now code.now.items code.now.items) }
{
    for passed in code.len().saturating_sub(earlier.0)..code.len().min(MAX_SKIP) {
        if code.get(passed) == block.first() && stands_behind(code, passed, block) {
            return Some(Position(code.len() - passed));
        }
    }
    None
}

/// Puts a block in front of the code, unless it is a single instruction that is there within a jump's reach already.
pub(crate) fn put_block(code: &mut VecDeque<Insn>, block: &[Insn]) -> Result<Position, AllocError>
    ensures { IfOk result (IsPut block.now code.old.items code.new.items) }
{
    if block.len() == 1 {
        if let Some(index) = find_block(code, block, Position(code.len())) {
            return Ok(index);
        }
    }
    put_front(code, block)?;
    Ok(Position(code.len()))
}

/// Puts a block in front of the code, unless it is there within a jump's reach: a single instruction anywhere, and a
/// longer block from `earlier` on.
pub(crate) fn put_shared(
    code: &mut VecDeque<Insn>,
    block: &[Insn],
    earlier: Position,
) -> Result<Position, AllocError>
    ensures { IfOk result (IsPut block.now code.old.items code.new.items) }
{
    match find_block(code, block, earlier) {
        Some(index) => Ok(index),
        None => put_block(code, block),
    }
}

/// Skips instructions, if there are any to skip.
pub(crate) fn put_skip(code: &mut VecDeque<Insn>, count: u32) -> Result<(), AllocError>
    ensures { OnOk result (code.new.items ≡ skip_code count ++ code.old.items) }
{
    if count > 0 {
        code.push_front(jump_over(count))?;
    }
    Ok(())
}

/// Goes on at an index: by a `ja` in front of the code, unless the code begins there.
pub(crate) fn put_jump(code: &mut VecDeque<Insn>, index: Position) -> Result<Position, AllocError>
    requires stands { index.0 ≤ length code.now.items }
    requires few { length code.now.items < 2 ^ 32 }
    ensures { IfOk result (IsFirst (skip_code (length code.old.items - index.0)) code.old.items code.new.items) }
{
    let count = code.len() - index.0;
    put_skip(code, count as u32)?;
    Ok(Position(code.len()))
}

/// Puts a test of the accumulator in front of the code: to `hit` if it holds, else to `miss`. If `miss` is more than
/// 255 instructions away, it is reached by a `ja` of its own.
pub(crate) fn put_branch(
    code: &mut VecDeque<Insn>,
    test: Test,
    constant: u32,
    hit: Position,
    miss: Position,
) -> Result<Position, AllocError>
    requires hit { IsNear hit code.now.items }
    requires miss { miss.0 ≤ length code.now.items }
    requires few { length code.now.items < 2 ^ 32 }
    ensures { IfOk result (IsFirst (branch_code test constant (length code.old.items - hit.0)
        (length code.old.items - miss.0)) code.old.items code.new.items) }
{
    let to_hit = (code.len() - hit.0) as u8;
    let to_miss = code.len() - miss.0;
    if to_miss <= MAX_SKIP {
        code.push_front(jump_if(test, constant, to_hit, to_miss as u8))?;
    } else {
        code.push_front(jump_over(to_miss as u32))?;
        code.push_front(jump_if(test, constant, 1 + to_hit, 0))?;
    }
    Ok(Position(code.len()))
}
