//! The sides of a command: filters or a profile, read from its inputs.

ghost use Rattle.std.specs.Prelude.{◌≡◌, IfErr, IfOk, IfSome, Some, map};
ghost use Rattle.std.specs.List.{AllZip};
ghost use Rattle.scf_request.specs.Contents.{rest_of_table};
ghost use Rattle.scf_tool.specs.Inputs.{
  AreRead,
  AreRefused,
  IsSideOf,
  ReadsFilters,
  ReadsSide,
  SideBytes,
  SpellsTable,
  left_out_of_input,
  named_of,
};
ghost use Rattle.scf_tool.specs.Inputs as spec;
ghost use Rattle.scf_tool.specs.internal.Sides.{IsOpen, inputs_of, side_bytes};

use crate::filter_stack::stack_of;
use crate::inputs::{Inputs, SideParts, TextRules};
use crate::left_out::LeftOut;
use crate::owned_table::{OwnedTable, is_too_long, load_under, tables_once};
use crate::verify_fault::{SideFault, VerifyFault};
use scf_compare::Side;
use scf_insn::InputFault;
use scf_machine::FilterStack;
use scf_profile::LoadedProfiles;
use scf_request::PartReader;
use std::alloc::Global;

/// A side whose filters are read, and its profile isn't.
#[derive(Drop)]
pub(crate) enum OpenSide<'a> {
    Stack(FilterStack),
    Profile(PartReader<'a>),
}

/// A side that is read.
#[derive(Drop)]
pub enum SideInput {
    Stack(FilterStack),
    /// The profiles for the architectures that have a table.
    Profiles(LoadedProfiles),
}

/// Two sides that are read, and what stands beside them.
#[derive(Drop)]
pub(crate) struct SidesInput {
    pub left: SideInput,
    pub right: SideInput,
    /// Whether profiles are each compared and walked over the records of their architecture.
    pub of_each: bool,
    pub tables: Vec<OwnedTable>,
    /// Counts of calls by name.
    pub counts: Vec<OwnedTable>,
}

impl SideInput {
    /// This side for the comparer.
    pub fn side(&self) -> Side<'_>
        ensures { IsSideOf self.now result }
    {
        match self {
            SideInput::Stack(stack) => Side::Stack(stack.filters()),
            SideInput::Profiles(loaded) => Side::Profiles(loaded.profiles.as_slice()),
        }
    }

    /// What was left out of the profile, if it is one.
    pub fn left_out(self) -> Option<LeftOut>
        ensures { result ≡ left_out_of_input self }
    {
        match self {
            SideInput::Stack(_) => None,
            SideInput::Profiles(loaded) => Some(LeftOut {
                skipped: loaded.skipped,
                other_architectures: loaded.other_architectures,
            }),
        }
    }
}

/// Reads the filters of a side.
fn read_filters<'a>(alloc: Global, side: SideParts<'a>) -> Result<OpenSide<'a>, VerifyFault>
    ensures filters { IfOk result (IsOpen (side_bytes side.entry)) }
    ensures refused { IfErr result (λ fault. ReadsFilters (side_bytes side.entry) (Some fault)) }
{
    match side {
        SideParts::Filters(mut filters) => Ok(OpenSide::Stack(stack_of(alloc, &mut filters)?)),
        SideParts::Profile(profile) => Ok(OpenSide::Profile(profile)),
    }
}

/// Loads a profile for each architecture that has a table.
fn load(
    alloc: Global,
    rules: &TextRules,
    tables: &[OwnedTable],
    text: &[u8],
) -> Result<SideInput, VerifyFault>
    ensures { ReadsSide rules.now (map named_of tables.now) (SideBytes.OfProfile text.now) result }
{
    if is_too_long(rules.is_limited, text) {
        return Err(VerifyFault::ProfileRead(InputFault::TooLong));
    }
    match load_under(alloc, &rules.by, text, tables) {
        Ok(loaded) => Ok(SideInput::Profiles(loaded)),
        Err(fault) if rules.of_each => Err(VerifyFault::Profile(fault)),
        Err(fault) => Err(VerifyFault::Profile(fault.of_only())),
    }
}

/// Reads the profile of a side, if it is one.
fn read_side(
    alloc: Global,
    rules: &TextRules,
    tables: &[OwnedTable],
    side: OpenSide<'_>,
) -> Result<SideInput, VerifyFault>
    ensures { (bytes : SideBytes) → IsOpen bytes side.entry
        → ReadsSide rules.now (map named_of tables.now) bytes result }
{
    match side {
        OpenSide::Stack(stack) => Ok(SideInput::Stack(stack)),
        OpenSide::Profile(profile) => load(alloc, rules, tables, profile.rest()),
    }
}

/// Whether a side is a profile.
fn is_profile(side: &SideParts<'_>) -> bool
    ensures { result ≡ spec.is_profile (side_bytes side.now) }
{
    matches!(side, SideParts::Profile(_))
}

/// Reads inputs: the filters on the left, those on the right, the tables, the profile on the left, the one on the
/// right. The error is the first fault. Tables that are read of the inputs aren't read again.
pub(crate) fn read_sides(
    alloc: Global,
    inputs: Inputs<'_>,
    read: Option<Vec<OwnedTable>>,
) -> Result<SidesInput, SideFault>
    requires { IfSome read (λ read.
        AllZip SpellsTable (map rest_of_table inputs.tables.items) (map named_of read.items)) }
    ensures sides { IfOk result (AreRead (inputs_of inputs.entry)) }
    ensures refused { IfErr result (λ fault. AreRefused (inputs_of inputs.entry) fault.beside fault.why) }
{
    let beside = is_profile(&inputs.left);
    let rules = inputs.rules;
    let parts = inputs.tables;
    let counts = inputs.counts;
    let open_left = read_filters(alloc, inputs.left)?;
    let open_right = match read_filters(alloc, inputs.right) {
        Ok(side) => side,
        Err(why) => return Err(SideFault { beside: true, why }),
    };
    let tables = tables_once(alloc, rules.is_limited, &parts, read)?;
    let left = read_side(alloc, &rules, &tables, open_left)?;
    let right = match read_side(alloc, &rules, &tables, open_right) {
        Ok(side) => side,
        Err(why) => return Err(SideFault { beside, why }),
    };
    Ok(SidesInput {
        left,
        right,
        of_each: rules.of_each,
        tables,
        counts,
    })
}
