//! What a side answers, by regions of records.

ghost use Rattle.std.specs.Prelude.{◌≡◌, ◌++◌, ◌∷◌, [], flat_map, map, IfErr, IfOk, MatchOption};
ghost use Rattle.std.specs.Prelude.{OnOk, is_some, option_map};
ghost use Rattle.scf_tool.specs.Faults.{verify_row};
ghost use Rattle.scf_c.specs.Answers.{
  IsListed,
  IsListedOverNone,
  IsListingRefused,
  all_regions,
  bit_of,
  bits_fact,
  entry_of_origin,
  facts_to,
  facts_handed,
  facts_of,
  facts_of_set,
  filter_of_origin,
  index_of_origin,
  interval_fact,
  no_listing,
  numbers_of_region,
  reason_of_origin,
  regions_handed,
};
ghost use Rattle.scf_c.specs.Endings.{EndsAsked, IsHandedOut, IsNothingHandedOut, IsRefusal};
ghost use Rattle.scf_c.specs.Questions.{IsSideAsked};
ghost use Rattle.scf_c.specs.declared.question.Asked.{Asked};

use crate::ending::{OK, WRONG_ARGUMENT, hand_out, or_refuse};
use crate::layout::{
    Call, Fault, LeftOutCounts, Listing, Question, RegionNumbers, SideInput, Table, WordFact,
};
use crate::profile::numbers_of_reason;
use crate::question::{Asked, asked_of_side};
use crate::records::pairings_of;
use crate::side::{left_out_of_side, read_side};
use scf_compare::{Origin, Region, Regions};
use scf_facts::{Bits, Interval, Snapshot, WordSet};
use scf_insn::Memory;
use scf_machine::FilterStack;
use scf_tool::{SideInput as ReadSide, VerifyFault, are_whole, explore_each, verify_row};
use std::alloc::{AllocError, Global};

/// The regions of walks as numbers.
#[derive(Drop)]
pub(crate) struct Listed {
    pub listing: Listing,
    pub regions: Vec<RegionNumbers>,
    pub facts: Vec<WordFact>,
}

fn bits_fact(kind: u32, index: u8, bits: Bits) -> WordFact
    ensures { result ≡ bits_fact kind index bits }
{
    WordFact {
        word: u32::from(index),
        kind,
        low: bits.mask,
        high: bits.value,
    }
}

/// Adds intervals of a word.
fn add_intervals(
    facts: &mut Vec<WordFact>,
    index: u8,
    intervals: &[Interval],
) -> Result<(), AllocError>
    ensures { OnOk result (facts.new.items ≡ facts.old.items ++ map (interval_fact index) intervals.now) }
{
    for interval in intervals {
        facts.push(WordFact {
            word: u32::from(index),
            kind: 1,
            low: interval.low,
            high: interval.high,
        })?;
    }
    Ok(())
}

/// Adds what is known of a word: its intervals, unless they are the whole word, the bits that it has, if any, and those
/// that it doesn't have.
fn add_set(facts: &mut Vec<WordFact>, index: u8, word: &WordSet) -> Result<(), AllocError>
    ensures { OnOk result (facts.new.items ≡ facts.old.items ++ facts_of_set index word.now) }
{
    if !are_whole(word.intervals()) {
        add_intervals(facts, index, word.intervals())?;
    }
    if word.known().mask != 0 {
        facts.push(bits_fact(2, index, word.known()))?;
    }
    for bits in word.refuted() {
        facts.push(bits_fact(3, index, *bits))?;
    }
    Ok(())
}

/// Adds what is known of a record's words.
fn add_words(facts: &mut Vec<WordFact>, words: &Snapshot) -> Result<(), AllocError>
    ensures { OnOk result (facts.new.items ≡ facts.old.items ++ facts_to 16 words.now) }
{
    for index in 0..16 {
        add_set(facts, index, words.word(index))?;
    }
    Ok(())
}

/// A region with so many facts.
fn numbers_of_region(region: &Region, fact_count: usize) -> RegionNumbers
    ensures { result ≡ record (numbers_of_region region.now) { fact_count = fact_count } }
{
    let side = region.leaf.left;
    let (reason, entry, filter, index) = match side.origin {
        Origin::Filter { filter, index } => (0, 0, filter, index),
        Origin::Profile(reason) => {
            let (reason, entry) = numbers_of_reason(reason);
            (reason, entry, 0, 0)
        }
    };
    RegionNumbers {
        answer: side.answer.map_or(0, |answer| answer.0),
        is_known: u32::from(side.answer.is_some()),
        is_exact: u32::from(region.is_exact),
        has_example: u32::from(region.example.is_some()),
        reason,
        entry,
        filter: filter as u64,
        index: index as u64,
        fact_count: fact_count as u64,
        example: region
            .example
            .map_or(Call::default(), |call| Call::of(&call)),
        reserved: [0; 4],
    }
}

/// Adds a region and its facts.
fn add_region(
    regions: &mut Vec<RegionNumbers>,
    facts: &mut Vec<WordFact>,
    region: &Region,
) -> Result<(), AllocError>
    ensures regions { OnOk result (regions.new.items ≡ regions.old.items ++ numbers_of_region region.now ∷ []) }
    ensures facts { OnOk result (facts.new.items ≡ facts.old.items ++ facts_of region.now) }
{
    let before = facts.len();
    add_words(facts, &region.words)?;
    let count = facts.len() - before;
    regions.push(numbers_of_region(region, count))?;
    Ok(())
}

/// The regions of walks as numbers, and whether these are all.
fn listed_of(
    alloc: Global,
    walks: &[Regions],
    is_finished: bool,
    left_out: LeftOutCounts,
) -> Result<Listed, Memory>
    ensures listing { IfOk result (λ listed. listed.listing
        ≡ record { is_finished = bit_of is_finished; unused = 0; left_out = left_out }) }
    ensures regions { IfOk result (λ listed. listed.regions.items ≡ map numbers_of_region (all_regions walks.now)) }
    ensures facts { IfOk result (λ listed. listed.facts.items ≡ flat_map facts_of (all_regions walks.now)) }
{
    let mut regions = Vec::new(alloc);
    let mut facts = Vec::new(alloc);
    for walk in walks {
        for region in &walk.list {
            add_region(&mut regions, &mut facts, region)?;
        }
    }
    Ok(Listed {
        listing: Listing {
            is_finished: u32::from(is_finished),
            unused: 0,
            left_out,
        },
        regions,
        facts,
    })
}

/// What a side answers to the records that are asked for, if there is one.
fn list_answers(
    alloc: Global,
    side: &SideInput,
    tables: &[Table],
    question: &Question,
    asked: Asked,
) -> Result<Option<Listed>, VerifyFault>
    ensures listed { IfOk result (λ listed. MatchOption listed (IsListedOverNone side.now tables.now asked)
        (IsListed question.now side.now tables.now asked)) }
    ensures refused { IfErr result (IsListingRefused side.now tables.now asked) }
{
    let read = read_side(alloc, side, asked.left, tables)?;
    let none = ReadSide::Stack(FilterStack::new(alloc));
    let pairings = pairings_of(alloc, asked.over, &read, &none, tables)?;
    if pairings.is_empty() {
        return Ok(None);
    }
    let left_out = left_out_of_side(&read);
    match explore_each(alloc, &pairings, question.total_limit)? {
        Some(walks) => Ok(Some(listed_of(alloc, &walks, true, left_out)?)),
        None => Ok(Some(listed_of(alloc, &[], false, left_out)?)),
    }
}

/// Hands out what a side answers to each record that is asked for, by regions, and what is known of their words.
#[unsafe(no_mangle)]
pub extern "C" fn scf_answers(
    alloc: Global,
    side: &SideInput,
    tables: &[Table],
    question: &Question,
    listing: &mut Listing,
    regions: &mut [RegionNumbers],
    regions_needed: &mut usize,
    facts: &mut [WordFact],
    facts_needed: &mut usize,
    fault: &mut Fault,
) -> u32
    ensures { EndsAsked (IsSideAsked question.now side.now tables.now)
        (λ asked. (listed : Listed) × IsListed question.now side.now tables.now asked listed
        × (listing.new ≡ listed.listing)
        × IsHandedOut listed.regions.items regions.old regions.new regions_needed.new
        × IsHandedOut listed.facts.items facts.old facts.new facts_needed.new)
        (IsListedOverNone side.now tables.now)
        (λ asked. IsRefusal verify_row (IsListingRefused side.now tables.now asked))
        ((listing.new ≡ no_listing) × IsNothingHandedOut regions.old regions.new regions_needed.new
        × IsNothingHandedOut facts.old facts.new facts_needed.new) result fault.new }
{
    *listing = Listing::default();
    *regions_needed = 0;
    *facts_needed = 0;
    *fault = Fault::default();
    let Some(asked) = asked_of_side(question, side, tables) else {
        return WRONG_ARGUMENT;
    };
    let listed = list_answers(alloc, side, tables, question, asked);
    let Some(listed) = or_refuse!(listed, verify_row, fault) else {
        return WRONG_ARGUMENT;
    };
    *listing = listed.listing;
    hand_out(&listed.regions, regions, regions_needed);
    hand_out(&listed.facts, facts, facts_needed);
    OK
}
