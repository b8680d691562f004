//! Code that tests a condition. A 64-bit argument is two words of the record, the low one first; a 32-bit one is the
//! low word alone. If the condition holds, the next instruction follows; if it fails, instructions are skipped.

ghost use Rattle.std.specs.Prelude.{◌≡◌, ◌++◌, ◌+◌, ◌<◌, ◌≤◌, OnOk, length};
ghost use Rattle.scf_insn.specs.Kernel.{seccomp_data_args};
ghost use Rattle.scf_compile.specs.internal.Blocks.{order_code, half_code, masked_code, narrow_code};
ghost use Rattle.scf_compile.specs.internal.Blocks.{value_of, test_code, condition_code};

use crate::insns::{and_with, jump_if, load_word};
use crate::placing::{put_front, put_skip};
use scf_insn::{Architecture, ArgumentBits, Insn, MaskKind, Test, high_half, low_half, mask_kind};
use scf_profile::{Condition, NumberTest};
use std::alloc::AllocError;
use std::collections::VecDeque;

/// Tests whether an argument is greater than a value or, as `test` says, at least it.
#[tactic(auto, unfolding(crate::specs::internal::Blocks::order_code))]
fn put_order(
    code: &mut VecDeque<Insn>,
    test: Test,
    word: u8,
    value: u64,
    hit: u8,
    miss: u8,
) -> Result<(), AllocError>
    requires word { word < 15 }
    requires hit { hit < 253 }
    requires miss { miss < 253 }
    ensures whole { OnOk result (code.new.items ≡ order_code test word value hit miss ++ code.old.items) }
    ensures few { OnOk result (length code.new.items ≤ 6 + length code.old.items) }
{
    put_front(
        code,
        &[
            load_word(word + 1),
            jump_if(Test::Equal, high_half(value), 1, 0),
            jump_if(Test::Greater, high_half(value), 2 + hit, 2 + miss),
            load_word(word),
            jump_if(test, low_half(value), hit, miss),
        ],
    )
}

/// Tests `word & mask == wanted`. `mask` has all bits of `wanted`.
#[tactic(auto, unfolding(crate::specs::internal::Blocks::half_code))]
fn put_half(
    code: &mut VecDeque<Insn>,
    word: u8,
    mask: u32,
    wanted: u32,
    hit: u8,
    miss: u8,
) -> Result<(), AllocError>
    requires { word < 16 }
    ensures whole { OnOk result (code.new.items ≡ half_code word mask wanted hit miss ++ code.old.items) }
    ensures few { OnOk result (length code.new.items ≤ 3 + length code.old.items) }
{
    let load = load_word(word);
    let equal = jump_if(Test::Equal, wanted, hit, miss);
    match mask_kind(mask) {
        MaskKind::Empty if hit == 0 => Ok(()),
        MaskKind::Empty | MaskKind::OneBit if wanted == 0 => {
            put_front(code, &[load, jump_if(Test::CommonBit, mask, miss, hit)])
        }
        MaskKind::Empty | MaskKind::OneBit => {
            put_front(code, &[load, jump_if(Test::CommonBit, mask, hit, miss)])
        }
        MaskKind::Full => put_front(code, &[load, equal]),
        MaskKind::Mixed => put_front(code, &[load, and_with(mask), equal]),
    }
}

/// Tests `argument & mask == wanted`. `mask` has all bits of `wanted`.
#[tactic(auto, unfolding(crate::specs::internal::Blocks::masked_code))]
fn put_masked(
    code: &mut VecDeque<Insn>,
    word: u8,
    mask: u64,
    wanted: u64,
    hit: u8,
    miss: u8,
) -> Result<(), AllocError>
    requires word { word < 15 }
    requires miss { miss < 253 }
    ensures whole { OnOk result (code.new.items ≡ masked_code word mask wanted hit miss ++ code.old.items) }
    ensures few { OnOk result (length code.new.items ≤ 6 + length code.old.items) }
{
    let behind = code.len();
    put_half(code, word, low_half(mask), low_half(wanted), hit, miss)?;
    let past_low = (code.len() - behind) as u8 + miss;
    put_half(
        code,
        word + 1,
        high_half(mask),
        high_half(wanted),
        0,
        past_low,
    )
}

/// Tests an argument of 32 bits, which is one word, against a value below 2^32.
fn put_narrow(
    code: &mut VecDeque<Insn>,
    test: NumberTest,
    word: u8,
    hit: u8,
    miss: u8,
) -> Result<(), AllocError>
    requires { word < 16 }
    ensures whole { OnOk result (code.new.items ≡ narrow_code test word hit miss ++ code.old.items) }
    ensures few { OnOk result (length code.new.items ≤ 3 + length code.old.items) }
{
    let (test, value) = match test {
        NumberTest::Masked { mask, value } => {
            return put_half(code, word, low_half(mask), low_half(value), hit, miss);
        }
        NumberTest::Greater(value) => (Test::Greater, value),
        NumberTest::GreaterOrEqual(value) => (Test::GreaterOrEqual, value),
    };
    let jump = jump_if(test, low_half(value), hit, miss);
    put_front(code, &[load_word(word), jump])
}

/// The value that a test compares with.
fn value_of(test: NumberTest) -> u64
    ensures { result ≡ value_of test }
{
    match test {
        NumberTest::Masked { value, .. }
        | NumberTest::Greater(value)
        | NumberTest::GreaterOrEqual(value) => value,
    }
}

/// Tests an argument of so many bits. One of 32 never reaches a value from 2^32 on.
fn put_test(
    code: &mut VecDeque<Insn>,
    bits: ArgumentBits,
    test: NumberTest,
    word: u8,
    hit: u8,
    miss: u8,
) -> Result<(), AllocError>
    requires word { word < 15 }
    requires hit { hit < 253 }
    requires miss { miss < 253 }
    ensures whole { OnOk result (code.new.items ≡ test_code bits test word hit miss ++ code.old.items) }
    ensures few { OnOk result (length code.new.items ≤ 6 + length code.old.items) }
{
    match (bits, test) {
        (ArgumentBits::Bits32, _) if high_half(value_of(test)) == 0 => {
            put_narrow(code, test, word, hit, miss)
        }
        (ArgumentBits::Bits32, _) => put_skip(code, u32::from(miss)),
        (_, NumberTest::Masked { mask, value }) => put_masked(code, word, mask, value, hit, miss),
        (_, NumberTest::Greater(value)) => put_order(code, Test::Greater, word, value, hit, miss),
        (_, NumberTest::GreaterOrEqual(value)) => {
            put_order(code, Test::GreaterOrEqual, word, value, hit, miss)
        }
    }
}

/// Puts the test of a condition in front of the code. If it fails, `out` instructions behind the test are skipped.
pub(crate) fn put_condition(
    code: &mut VecDeque<Insn>,
    architecture: Architecture,
    condition: &Condition,
    out: u8,
) -> Result<(), AllocError>
    requires index { condition.now.index < seccomp_data_args }
    requires out { out < 253 }
    ensures whole { OnOk result
        (code.new.items ≡ condition_code architecture condition.now out ++ code.old.items) }
    ensures few { OnOk result (length code.new.items ≤ 6 + length code.old.items) }
{
    let word = 2 * condition.index + 4;
    let (test, expected) = condition.test();
    let (hit, miss) = if expected { (0, out) } else { (out, 0) };
    put_test(code, architecture.argument_bits(), test, word, hit, miss)
}
