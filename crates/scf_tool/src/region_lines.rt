//! The lines of regions.

ghost use Rattle.std.specs.Prelude.{◌≡◌, ◌++◌, ◌&&◌, false, not, string_bytes, IfOk, OnOk, Some};
ghost use Rattle.std.specs.Fmt.{decimal, digits};
ghost use Rattle.scf_tool.specs.Lines.{answer_text, insn_text};
ghost use Rattle.scf_tool.specs.RegionLines.{bits_text, interval_text, intervals_text, is_alike, leaf_text};
ghost use Rattle.scf_tool.specs.RegionLines.{listing_text, region_text, side_text, word_text, words_text};
ghost use Rattle.scf_tool.specs.RegionLines as spec;
ghost use Rattle.scf_tool.specs.Reports.{prefixed};

use crate::lines::{AnswerText, ReasonText, name_of};
use crate::reporting::CallLine;
use scf_compare::{Origin, PairLeaf, Region, Regions, SideLeaf};
use scf_facts::{Bits, Interval, Snapshot, WordSet};
use scf_insn::{Answer, digit_byte};
use std::alloc::{AllocError, Global};

/// Which regions are listed, and how.
#[derive(Clone, Copy)]
pub(crate) struct RegionFormat {
    /// Whether only those are that aren't known to be answered alike, with the answers of both sides.
    pub has_differences: bool,
    /// Whether a record of each region is printed.
    pub has_examples: bool,
}

/// Appends decimal digits.
#[tactic(auto, using(std::proofs::lemmas::Fmt::decimal_digit))]
fn push_decimal(text: &mut String, number: u64) -> Result<(), AllocError>
    ensures { OnOk result (string_bytes text.new ≡ string_bytes text.old ++ decimal number) }
{
    if number < 10 {
        return text.push((b'0' + number as u8) as char);
    }
    push_decimal(text, number / 10)?;
    text.push((b'0' + (number % 10) as u8) as char)
}

/// Appends hexadecimal digits, in lower case and without leading zeros: two at a time, which halves the calls.
#[tactic(auto, using(std::proofs::lemmas::Fmt::hex_one_digit))]
fn push_digits(text: &mut String, number: u32) -> Result<(), AllocError>
    ensures { OnOk result (string_bytes text.new ≡ string_bytes text.old ++ digits 16 false number) }
{
    if number < 16 {
        return text.push(digit_byte(number) as char);
    }
    if number < 256 {
        text.push(digit_byte(number / 16) as char)?;
        return text.push(digit_byte(number % 16) as char);
    }
    push_digits(text, number / 256)?;
    text.push(digit_byte(number / 16 % 16) as char)?;
    text.push(digit_byte(number % 16) as char)
}

/// Appends `0x` and the hexadecimal digits.
fn push_prefixed(text: &mut String, number: u32) -> Result<(), AllocError>
    ensures { OnOk result (string_bytes text.new ≡ string_bytes text.old ++ prefixed number) }
{
    text.push_str("0x")?;
    push_digits(text, number)
}

/// Appends an interval by its ends, or by its only number.
fn push_interval(text: &mut String, interval: Interval) -> Result<(), AllocError>
    ensures { OnOk result (string_bytes text.new ≡ string_bytes text.old ++ interval_text interval) }
{
    push_prefixed(text, interval.low)?;
    if interval.low == interval.high {
        return Ok(());
    }
    text.push('-')?;
    push_prefixed(text, interval.high)
}

/// Whether intervals are the whole word.
pub fn are_whole(intervals: &[Interval]) -> bool
    ensures { result ≡ spec.are_whole intervals.now }
{
    match intervals {
        [interval] => interval.low == 0 && interval.high == u32::MAX,
        _ => false,
    }
}

/// Appends intervals with commas between, unless they are the whole word.
fn push_intervals(text: &mut String, intervals: &[Interval]) -> Result<(), AllocError>
    ensures { OnOk result (string_bytes text.new ≡ string_bytes text.old ++ intervals_text intervals.now) }
{
    if are_whole(intervals) {
        return Ok(());
    }
    if let [first, later @ ..] = intervals {
        push_interval(text, *first)?;
        for interval in later {
            text.push(',')?;
            push_interval(text, *interval)?;
        }
    }
    Ok(())
}

/// Appends a mask and a value behind a sign.
fn push_bits(text: &mut String, sign: &str, bits: Bits) -> Result<(), AllocError>
    ensures { OnOk result (string_bytes text.new ≡ string_bytes text.old ++ bits_text sign.now bits) }
{
    text.push_str(sign)?;
    push_prefixed(text, bits.mask)?;
    text.push('=')?;
    push_prefixed(text, bits.value)
}

/// Appends a word by its index, if something is known of it: its intervals, its known bits and those that are refuted.
fn push_word(text: &mut String, index: u8, word: &WordSet) -> Result<(), AllocError>
    ensures { OnOk result (string_bytes text.new ≡ string_bytes text.old ++ word_text index word.now) }
{
    let known = word.known();
    if are_whole(word.intervals()) && known.mask == 0 && word.refuted().is_empty() {
        return Ok(());
    }
    text.push_str(" w")?;
    push_decimal(text, u64::from(index))?;
    text.push(' ')?;
    push_intervals(text, word.intervals())?;
    if known.mask != 0 {
        push_bits(text, "&", known)?;
    }
    for bits in word.refuted() {
        push_bits(text, "!", *bits)?;
    }
    Ok(())
}

/// Appends what is known of a record's words.
fn push_words(text: &mut String, words: &Snapshot) -> Result<(), AllocError>
    ensures { OnOk result (string_bytes text.new ≡ string_bytes text.old ++ words_text 16 words.now) }
{
    for index in 0..16u8 {
        push_word(text, index, words.word(index))?;
    }
    Ok(())
}

/// Appends an answer: its action and data; for an action without a name the whole number.
fn push_answer(text: &mut String, answer: Answer) -> Result<(), AllocError>
    ensures { OnOk result (string_bytes text.new ≡ string_bytes text.old ++ answer_text answer.0) }
{
    let Some(name) = name_of(answer.action()) else {
        return text.write(AnswerText(answer));
    };
    text.push_str(name)?;
    text.push(' ')?;
    push_decimal(text, u64::from(answer.detail()))
}

/// Appends an instruction of a filter.
fn push_insn(text: &mut String, filter: usize, index: usize) -> Result<(), AllocError>
    ensures { OnOk result (string_bytes text.new ≡ string_bytes text.old ++ insn_text filter index) }
{
    text.push_str(" at ")?;
    push_decimal(text, filter as u64)?;
    text.push(':')?;
    push_decimal(text, index as u64)
}

/// Appends what a side answers, if that is known, and where the answer comes from.
fn push_side(text: &mut String, side: SideLeaf) -> Result<(), AllocError>
    ensures { OnOk result (string_bytes text.new ≡ string_bytes text.old ++ side_text side) }
{
    match side.answer {
        Some(answer) => push_answer(text, answer)?,
        None => text.push_str("unknown")?,
    }
    match side.origin {
        Origin::Filter { filter, index } => push_insn(text, filter, index),
        Origin::Profile(reason) => text.write(ReasonText(reason)),
    }
}

/// Appends what the left side answers, or both sides.
fn push_leaf(text: &mut String, has_both: bool, leaf: PairLeaf) -> Result<(), AllocError>
    ensures { OnOk result (string_bytes text.new ≡ string_bytes text.old ++ leaf_text has_both leaf) }
{
    push_side(text, leaf.left)?;
    if !has_both {
        return Ok(());
    }
    text.push_str(" beside ")?;
    push_side(text, leaf.right)
}

/// Appends the line of a region, and that of a record in it, if examples are asked for and one is known.
fn push_region(text: &mut String, format: RegionFormat, region: &Region) -> Result<(), AllocError>
    ensures { OnOk result (string_bytes text.new ≡ string_bytes text.old ++ region_text format region.now) }
{
    push_leaf(text, format.has_differences, region.leaf)?;
    text.push_str(if region.is_exact { "" } else { " open" })?;
    push_words(text, &region.words)?;
    text.push('\n')?;
    match region.example {
        Some(call) if format.has_examples => text.write(CallLine(call)),
        _ => Ok(()),
    }
}

/// Whether a region with this leaf is listed: each is, or those are that aren't known to be answered alike.
fn is_listed(has_differences: bool, leaf: &PairLeaf) -> bool
    ensures { result ≡ not (has_differences && is_alike leaf.now) }
{
    match (leaf.left.answer, leaf.right.answer) {
        (Some(left), Some(right)) if has_differences => left != right,
        _ => true,
    }
}

/// The lines of the listed regions of walks, of how many they are, and of how many steps the walks took.
pub(crate) fn listing_of_regions(
    alloc: Global,
    format: RegionFormat,
    walks: &[Regions],
) -> Result<String, AllocError>
    ensures { IfOk result (λ text. string_bytes text ≡ listing_text format (Some walks.now)) }
{
    let mut text = String::new(alloc);
    let mut count: u64 = 0;
    let mut steps: u64 = 0;
    for walk in walks {
        for region in walk.list.as_slice() {
            if !is_listed(format.has_differences, &region.leaf) {
                continue;
            }
            push_region(&mut text, format, region)?;
            count = count.saturating_add(1);
        }
        steps = steps.saturating_add(walk.steps);
    }
    write!(text, "regions {count} steps {steps}\n")?;
    Ok(text)
}
