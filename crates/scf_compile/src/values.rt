//! Rules that compare one argument with a value each. The argument is searched for among the values by halves, in place
//! of a test for each.

ghost use Rattle.std.specs.Prelude.{◌≡◌, ◌==◌, ◌+◌, ◌-◌, ◌*◌, ◌^◌, ◌<◌, ◌≤◌, All};
ghost use Rattle.std.specs.Prelude.{IfOk, IfSome, IsTrue, OnOk, get_or, length, nat_lt, not, ℕ};
ghost use Rattle.std.specs.List.{filter};
ghost use Rattle.scf_insn.specs.Words.{high, low};
ghost use Rattle.scf_profile.specs.Rule.{IsRule};
ghost use Rattle.scf_compile.specs.internal.Values.{AreValuesBefore, AreValuesPut, IsArgumentValue};
ghost use Rattle.scf_compile.specs.internal.Values.{IsValueOf, IsValueSearchPut};

use crate::insns::{load_word, return_with};
use crate::placing::{Position, put_block, put_branch};
use scf_insn::{Answer, Architecture, ArgumentBits, Insn, Test, high_half, low_half};
use scf_profile::{Operator, Rule};
use std::alloc::{AllocError, Global};
use std::collections::VecDeque;

/// The most values that are tested one after another.
const MAX_CHAIN: usize = 8;

/// A value of the argument with index `index`, and the answer to it.
#[derive(Clone, Copy)]
pub(crate) struct ArgumentValue {
    index: u8,
    value: u64,
    answer: Answer,
}

/// The value that an argument must have for a rule to be met, if the rule has no other condition.
fn value_of(architecture: Architecture, rule: &Rule) -> Option<ArgumentValue>
    requires { IsRule architecture rule.now }
    ensures { IfSome result (λ v. IsValueOf architecture v rule.now) }
{
    let [condition] = rule.conditions.as_slice() else {
        return None;
    };
    let fits = condition.value <= architecture.argument_bits().greatest();
    if condition.op != Operator::Equal || !fits {
        return None;
    }
    Some(ArgumentValue {
        index: condition.index,
        value: condition.value,
        answer: rule.answer,
    })
}

/// Whether a value is of the same argument as values, if there are any.
fn is_of_same_argument(values: &VecDeque<ArgumentValue>, value: ArgumentValue) -> bool
    ensures { IsTrue result → 0 < length values.now.items → value.index ≡ (get_or values.now.items 0 value).index }
{
    match values.get(0) {
        Some(first) => first.index == value.index,
        None => true,
    }
}

/// The values of one argument for which the rules before `end` are, as far back as each is for one.
pub(crate) fn values_before(
    alloc: Global,
    architecture: Architecture,
    rules: &[Rule],
    end: usize,
) -> Result<Vec<ArgumentValue>, AllocError>
    requires rules { All (IsRule architecture) rules.now }
    requires end { end ≤ length rules.now }
    ensures { IfOk result (λ values. AreValuesBefore architecture rules.now end values.items) }
{
    let mut values: VecDeque<ArgumentValue> = VecDeque::new(alloc);
    for i in (0..end).rev() {
        let Some(value) = value_of(architecture, &rules[i]) else {
            break;
        };
        if !is_of_same_argument(&values, value) {
            break;
        }
        values.push_front(value)?;
    }
    Ok(Vec::from(values))
}

/// Tests the low half of an argument for values one after another. If none is equal, the code at `behind` follows.
fn put_chain(
    code: &mut VecDeque<Insn>,
    values: &[ArgumentValue],
    behind: Position,
) -> Result<Position, AllocError>
    requires some { 0 < behind.0 }
    requires stands { behind.0 ≤ length code.now.items }
    requires small { length code.now.items + 5 * length values.now < 2 ^ 32 }
    ensures { IfOk result (IsValueSearchPut values.now behind code.old.items code.new.items) }
{
    let mut next = behind;
    for i in (0..values.len()).rev() {
        let hit = put_block(code, &[return_with(values[i].answer)])?;
        next = put_branch(code, Test::Equal, low_half(values[i].value), hit, next)?;
    }
    Ok(next)
}

/// The values whose low half is below a bound, and the others.
fn split_by_low(
    alloc: Global,
    values: &[ArgumentValue],
    bound: u32,
) -> Result<(Vec<ArgumentValue>, Vec<ArgumentValue>), AllocError>
    ensures lower { IfOk result (λ parts. parts.0.items ≡ filter (λ v. nat_lt (low v.value) bound) values.now) }
    ensures upper { IfOk result (λ parts. parts.1.items ≡ filter (λ v. not (nat_lt (low v.value) bound)) values.now) }
{
    values
        .iter()
        .copied()
        .partition(alloc, |v| low_half(v.value) < bound)
}

/// The median of the low halves of values.
fn median(alloc: Global, values: &[ArgumentValue]) -> Result<u32, AllocError>
    requires { 0 < length values.now }
{
    let mut sorted = Vec::new(alloc);
    for value in values {
        sorted.push(low_half(value.value))?;
    }
    sorted.sort()?;
    Ok(sorted[values.len() / 2])
}

/// Puts a binary search for the low half of an argument among values in front of the code. If none is equal, the code
/// at `behind` follows.
fn put_value_search(
    alloc: Global,
    code: &mut VecDeque<Insn>,
    values: &[ArgumentValue],
    behind: Position,
) -> Result<Position, AllocError>
    requires some { 0 < behind.0 }
    requires stands { behind.0 ≤ length code.now.items }
    requires small { length code.now.items + 5 * length values.now < 2 ^ 32 }
    ensures { IfOk result (IsValueSearchPut values.now behind code.old.items code.new.items) }
{
    if values.len() <= MAX_CHAIN {
        return put_chain(code, values, behind);
    }
    let middle = median(alloc, values)?;
    let (lower, upper) = split_by_low(alloc, values, middle)?;
    // Values that are all equal have no halves.
    if lower.is_empty() || upper.is_empty() {
        return put_chain(code, values, behind);
    }
    let miss = put_value_search(alloc, code, &lower, behind)?;
    let hit = put_value_search(alloc, code, &upper, behind)?;
    put_branch(code, Test::GreaterOrEqual, middle, hit, miss)
}

/// Puts the search for an argument among values with one high half in front of the code, which follows if none is
/// equal. An argument of 64 bits is first tested for that half.
fn put_half_search(
    alloc: Global,
    code: &mut VecDeque<Insn>,
    architecture: Architecture,
    half: u32,
    values: &[ArgumentValue],
) -> Result<(), AllocError>
    requires code { 0 < length code.now.items }
    requires some { 0 < length values.now }
    requires fine { All (IsArgumentValue architecture) values.now }
    requires halves { All (λ v. high v.value ≡ half) values.now }
    requires small { length code.now.items + 8 * length values.now < 2 ^ 32 }
    ensures { OnOk result (AreValuesPut architecture values.now code.old.items code.new.items) }
{
    let behind = Position(code.len());
    put_value_search(alloc, code, values, behind)?;
    let word = 2 * values[0].index + 4;
    code.push_front(load_word(word))?;
    match architecture.argument_bits() {
        ArgumentBits::Bits32 => Ok(()),
        ArgumentBits::Bits64 => {
            let search = Position(code.len());
            put_branch(code, Test::Equal, half, search, behind)?;
            code.push_front(load_word(word + 1))?;
            Ok(())
        }
    }
}

/// The values with a high half, and the others.
fn split_by_high(
    alloc: Global,
    values: &[ArgumentValue],
    half: u32,
) -> Result<(Vec<ArgumentValue>, Vec<ArgumentValue>), AllocError>
    ensures group { IfOk result (λ parts. parts.0.items ≡ filter (λ v. high v.value == half) values.now) }
    ensures others { IfOk result (λ parts. parts.1.items ≡ filter (λ v. not (high v.value == half)) values.now) }
{
    values
        .iter()
        .copied()
        .partition(alloc, |v| high_half(v.value) == half)
}

/// Puts the search for an argument among its values in front of the code, which follows if none is equal: for one high
/// half of the values after another.
pub(crate) fn put_values(
    alloc: Global,
    code: &mut VecDeque<Insn>,
    architecture: Architecture,
    values: Vec<ArgumentValue>,
) -> Result<(), AllocError>
    requires some { 0 < length code.now.items }
    requires fine { All (IsArgumentValue architecture) values.items }
    requires small { length code.now.items + 8 * length values.items < 2 ^ 32 }
    ensures { OnOk result (AreValuesPut architecture values.items code.old.items code.new.items) }
{
    let mut remaining = values;
    while !remaining.is_empty() {
        let half = high_half(remaining[0].value);
        let (group, others) = split_by_high(alloc, &remaining, half)?;
        put_half_search(alloc, code, architecture, half, &group)?;
        remaining = others;
    }
    Ok(())
}
