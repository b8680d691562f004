//! Labels, kept by the offsets where they begin.
ghost use Rattle.std.specs.Prelude.{◌≡◌, nat_eq, drop};
ghost use Rattle.std.specs.Cmp.Lexicographic.{slice_cmp};
ghost use Rattle.std.specs.List.{IsDistinct};
ghost use Rattle.std.specs.List.Sorted.{IsPermutation, IsSortedBy};
ghost use Rattle.std.specs.Ordering.{nat_cmp};
ghost use Rattle.scf_text.specs.internal.Labels.{compared, is_before, IsFirstRepeat, TellsRepeat};
ghost use Rattle.scf_text.specs.internal.Symbols.{name_at, line_at};

use crate::fault::TextFault;
use crate::token::{is_of_word, leading_word};
use std::cmp::Ordering;

/// The text from an offset on.
fn text_from(text: &[u8], index: usize) -> &[u8]
    ensures { result.now ≡ drop index text.now }
{
    text.get(index..).unwrap_or_default()
}

/// Compares the words at two offsets, byte by byte up to the first difference.
fn compare_words(text: &[u8], left: usize, right: usize) -> Ordering
    ensures { result ≡ slice_cmp nat_cmp (name_at text.now left) (name_at text.now right) }
{
    let left = text_from(text, left).iter();
    let right = text_from(text, right).iter();
    left.take_while(|byte| is_of_word(**byte))
        .cmp(right.take_while(|byte| is_of_word(**byte)))
}

/// Compares the word at an offset with another.
pub(crate) fn compare_with(text: &[u8], index: usize, name: &[u8]) -> Ordering
    ensures { result ≡ slice_cmp nat_cmp (name_at text.now index) name.now }
{
    leading_word(text_from(text, index)).cmp(name)
}

/// Compares labels by name, equal names by offset.
fn compare_labels(text: &[u8], left: usize, right: usize) -> Ordering
    ensures { result ≡ compared text.now left right }
{
    compare_words(text, left, right).then(left.cmp(&right))
}

/// The line that contains an offset, counted from 1.
fn line_at(text: &[u8], index: usize) -> usize
    ensures { result ≡ line_at text.now index }
{
    let before = text.get(..index).unwrap_or(text);
    1 + before.iter().filter(|byte| **byte == b'\n').count()
}

/// The first label, by offset, that repeats an earlier one, given sorted labels.
fn first_repeat(text: &[u8], labels: &[usize]) -> Option<usize>
    requires { IsSortedBy (is_before text.now) labels.now }
    // No label begins where another does.
    ensures { IsDistinct nat_eq labels.now → IsFirstRepeat text.now labels.now result }
{
    let mut first = None;
    for index in 1..labels.len() {
        let label = labels[index];
        if compare_words(text, labels[index - 1], label).is_eq() {
            first = Some(first.unwrap_or(label).min(label));
        }
    }
    first
}

/// Sorts labels by name, equal names by offset.
fn sort_labels(text: &[u8], labels: &mut [usize])
    ensures permutation { IsPermutation labels.old labels.new }
    ensures sorted { IsSortedBy (is_before text.now) labels.new }
{
    labels.sort_unstable_by(|left, right| compare_labels(text, *left, *right));
}

/// Sorts labels, and finds the first that repeats an earlier one.
pub(crate) fn check_labels(text: &[u8], labels: &mut [usize]) -> Result<(), TextFault>
    ensures permutation { IsPermutation labels.old labels.new }
    ensures sorted { IsSortedBy (is_before text.now) labels.new }
    // No label begins where another does.
    ensures tells { IsDistinct nat_eq labels.new → TellsRepeat text.now labels.new result }
{
    sort_labels(text, labels);
    match first_repeat(text, labels) {
        Some(label) => Err(TextFault::Label {
            line: line_at(text, label),
        }),
        None => Ok(()),
    }
}
