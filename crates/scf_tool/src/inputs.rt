//! The inputs of a command: what it takes from a bundle.

ghost use Rattle.std.specs.Prelude.{◌≡◌, ◌<◌, ◌↔◌, ◌∷◌, [], All, Some, length, map, option_map, true, IfOk, IfErr, IsTrue, MatchOption};
ghost use Rattle.scf_insn.specs.Architectures.{architectures, row_of};
ghost use Rattle.scf_profile.specs.StatedProfile.{is_named};
ghost use Rattle.scf_request.specs.Bundle.{Held, IsBundle};
ghost use Rattle.scf_request.specs.Contents.{held_by, rest_of, rest_of_table, texts_for};
ghost use Rattle.scf_tool.specs.Commands as spec;
ghost use Rattle.scf_tool.specs.Commands.{
  AreInputs,
  ArePartsOfOne,
  HasNoInputs,
  HasTables,
  IsTableCount,
  TakesTables,
};
ghost use Rattle.scf_tool.specs.Inputs as spec_inputs;
ghost use Rattle.scf_tool.specs.internal.Sides.{inputs_of, side_bytes, sides_bytes};

use crate::fault::Fault;
use crate::owned_table::{OwnedTable, valid_tables};
use scf_insn::Architecture;
use scf_profile::Reading;
use scf_request::{
    BundleFault, BundleForm, Contents, Interpretation, PartReader, Scopes, TableReader,
};
use std::alloc::Global;

/// The sides that a command takes.
#[derive(Clone, Copy)]
pub(crate) enum Takes {
    Filters,
    Profile,
    /// Filters or a profile.
    Either,
    /// Two sides.
    Sides,
}

/// What a command takes from a bundle of a form, and over which records it goes.
#[derive(Clone, Copy)]
pub(crate) struct Shape {
    pub form: BundleForm,
    pub takes: Takes,
    pub over: Scopes,
}

/// A side, as the parts of a bundle have it.
#[derive(Drop)]
pub(crate) enum SideParts<'a> {
    /// Readers of filters, the oldest first.
    Filters(Vec<PartReader<'a>>),
    Profile(PartReader<'a>),
}

/// How tables and profiles are read.
#[derive(Drop)]
pub(crate) struct TextRules {
    pub by: Interpretation,
    /// Whether there may be tables of several architectures, or that of x86-64 alone.
    pub of_each: bool,
    /// Whether tables and profiles have at most `MAX_TEXT_LEN` bytes each.
    pub is_limited: bool,
}

/// Two sides, of which the right one has no filters if a command takes one, and what stands beside them.
#[derive(Drop)]
pub(crate) struct Inputs<'a> {
    pub left: SideParts<'a>,
    pub right: SideParts<'a>,
    pub tables: Vec<TableReader<PartReader<'a>>>,
    pub rules: TextRules,
    /// Counts of calls by name.
    pub counts: Vec<OwnedTable>,
}

/// How many of the parts are of an architecture.
#[tactic(auto, using(crate::proofs::TableLemmas::texts_counted))]
fn count_of(parts: &[TableReader<PartReader<'_>>], architecture: Architecture) -> usize
    ensures { result ≡ length (texts_for architecture (map rest_of_table parts.now)) }
{
    parts
        .iter()
        .filter(|part| part.architecture.name() == architecture.name())
        .count()
}

/// Whether no two tables are of one architecture, and no two stubs, each of which is of one that has a table.
fn are_distinct(
    tables: &[TableReader<PartReader<'_>>],
    stubs: &[TableReader<PartReader<'_>>],
) -> bool
    ensures { IsTrue result
        ↔ All (ArePartsOfOne (map rest_of_table tables.now) (map rest_of_table stubs.now)) architectures }
{
    let all = Architecture::all();
    for architecture in &all {
        let tables_of_this = count_of(tables, *architecture);
        if tables_of_this > 1 || count_of(stubs, *architecture) > tables_of_this {
            return false;
        }
    }
    true
}

/// Whether there are as many tables as a command takes with a profile: one or more, or just one for x86-64 alone, and
/// call by call.
fn is_table_count(form: BundleForm, over: Scopes, count: usize) -> bool
    ensures { IsTrue result ↔ IsTableCount form over count }
{
    match (form, over) {
        (BundleForm::Architectures, Scopes::AtOnce(_)) => count >= 1,
        _ => count == 1,
    }
}

/// Whether there are the tables that go with a profile, no two of one architecture, each with a stub or without one,
/// whatever text that has; or none without a profile.
fn has_tables(form: BundleForm, over: Scopes, contents: &Contents<'_>) -> bool
    ensures { IsTrue result ↔ HasTables (map rest_of contents.now.profiles.items) form over (held_by contents.now) }
{
    if contents.profiles.is_empty() {
        contents.tables.is_empty() && contents.stubs.is_empty() && contents.counts.is_empty()
    } else {
        is_table_count(form, over, contents.tables.len())
            && are_distinct(&contents.tables, &contents.stubs)
    }
}

/// Whether there are the tables that a command takes. Of filters beside others it takes one call by call, and else not
/// two empty stacks.
fn takes_tables(form: BundleForm, over: Scopes, contents: &Contents<'_>) -> bool
    ensures { IsTrue result ↔ TakesTables form over (held_by contents.now) }
{
    match (form, over) {
        (BundleForm::Beside { .. }, Scopes::AtOnce(_)) => {
            !contents.filters.is_empty() || !contents.beside.is_empty()
        }
        (BundleForm::Beside { .. }, Scopes::EachCall) => contents.tables.len() == 1,
        _ => has_tables(form, over, contents),
    }
}

/// The only reader, if there is one. None if there are more.
fn at_most_one(mut readers: Vec<PartReader<'_>>) -> Option<Option<PartReader<'_>>>
    ensures { MatchOption result (1 < length readers.entry.items)
        (λ only. MatchOption only (readers.entry.items ≡ []) (λ one. readers.entry.items ≡ one ∷ [])) }
{
    match readers.len() {
        0 => Some(None),
        1 => Some(readers.pop()),
        _ => None,
    }
}

/// The sides that filters, profiles and profiles beside the first are, if a command takes them.
fn sides_among<'a>(
    alloc: Global,
    takes: Takes,
    filters: Vec<PartReader<'a>>,
    profiles: Vec<PartReader<'a>>,
    beside: Vec<PartReader<'a>>,
) -> Option<(SideParts<'a>, SideParts<'a>)>
    ensures { option_map sides_bytes result
        ≡ spec.sides_among takes (map rest_of filters.entry.items) (map rest_of profiles.entry.items)
        (map rest_of beside.entry.items) }
{
    let none = SideParts::Filters(Vec::new(alloc));
    let has_filters = !filters.is_empty();
    let filters = SideParts::Filters(filters);
    let profile = at_most_one(profiles)?;
    let beside = at_most_one(beside)?;
    match (takes, has_filters, profile, beside) {
        (Takes::Filters | Takes::Either, _, None, None) => Some((filters, none)),
        (Takes::Profile | Takes::Either, false, Some(profile), None) => {
            Some((SideParts::Profile(profile), none))
        }
        (Takes::Sides, true, Some(profile), None) => Some((filters, SideParts::Profile(profile))),
        (Takes::Sides, false, Some(profile), Some(beside)) => {
            Some((SideParts::Profile(profile), SideParts::Profile(beside)))
        }
        _ => None,
    }
}

/// The inputs that parts are, if a command takes them.
fn inputs_among<'a>(
    alloc: Global,
    reading: Reading,
    shape: Shape,
    contents: Contents<'a>,
) -> Result<Option<Inputs<'a>>, BundleFault>
    ensures inputs { IfOk result (λ inputs. MatchOption inputs
        ((inputs : spec_inputs.Inputs) → AreInputs shape reading (held_by contents.entry) inputs → ⊥)
        (λ inputs. AreInputs shape reading (held_by contents.entry) (inputs_of inputs))) }
    ensures fault { IfErr result (λ fault. fault ≡ BundleFault.Memory) }
{
    if !takes_tables(shape.form, shape.over, &contents) {
        return Ok(None);
    }
    let by = Interpretation::of_parts(alloc, reading, &contents.stubs)?;
    if by.stub_count() != contents.stubs.len() {
        return Ok(None);
    }
    let Some(counts) = valid_tables(alloc, &contents.counts)? else {
        return Ok(None);
    };
    let filters = contents.filters;
    let profiles = contents.profiles;
    let beside = contents.beside;
    let beside_profiles = contents.beside_profiles;
    let sides = match shape.form {
        BundleForm::Beside { .. } => {
            Some((SideParts::Filters(filters), SideParts::Filters(beside)))
        }
        _ => sides_among(alloc, shape.takes, filters, profiles, beside_profiles),
    };
    let Some((left, right)) = sides else {
        return Ok(None);
    };
    Ok(Some(Inputs {
        left,
        right,
        tables: contents.tables,
        rules: TextRules {
            by,
            of_each: matches!(shape.form, BundleForm::Architectures),
            is_limited: matches!(shape.takes, Takes::Sides),
        },
        counts,
    }))
}

/// The inputs that a command takes from a bundle.
pub(crate) fn open<'a>(
    alloc: Global,
    reading: Reading,
    shape: Shape,
    bytes: &'a [u8],
) -> Result<Inputs<'a>, Fault>
    ensures inputs { IfOk result (λ inputs. (held : Held) × IsBundle shape.form bytes.now held
        × AreInputs shape reading held (inputs_of inputs)) }
    ensures fault { IfErr result (HasNoInputs shape reading bytes.now) }
{
    let contents = Contents::of(alloc, shape.form, bytes)?;
    match inputs_among(alloc, reading, shape, contents)? {
        Some(inputs) => Ok(inputs),
        None => Err(Fault::Parts),
    }
}
