//! The sides of comparisons, from their bytes.

ghost use Rattle.std.specs.Prelude.{◌≡◌, IfErr, IfOk};
ghost use Rattle.scf_c.specs.Endings.{IsOneOrNone};
ghost use Rattle.scf_c.specs.Sides.{IsKind, IsRead, IsSideRefused, fault_of_right, left_out_of_side};

use crate::layout::{LeftOutCounts, SideInput, Table};
use crate::profile::{left_out_of, loaded, reading_under};
use crate::stack::stacked;
use scf_profile::Reading;
use scf_tool::{SideFault, SideInput as ReadSide, VerifyFault};
use std::alloc::Global;

/// Of which kind a side is, and how its profile is read.
#[derive(Clone, Copy)]
pub(crate) enum SideKind {
    Profile(Reading),
    Filters,
}

/// The kind that the numbers of a side ask for, if each has a meaning, and the tables that a profile has to have.
pub(crate) fn kind_of(side: &SideInput, tables: &[Table]) -> Option<SideKind>
    ensures { IsOneOrNone (IsKind side.now tables.now) result }
{
    if side.reserved != 0 {
        return None;
    }
    match side.kind {
        1 => Some(SideKind::Profile(reading_under(&side.profile, tables)?)),
        2 => Some(SideKind::Filters),
        _ => None,
    }
}

/// Reads a side.
pub(crate) fn read_side(
    alloc: Global,
    side: &SideInput,
    kind: SideKind,
    tables: &[Table],
) -> Result<ReadSide, VerifyFault>
    ensures read { IfOk result (IsRead side.now kind tables.now) }
    ensures refused { IfErr result (IsSideRefused side.now kind tables.now) }
{
    match kind {
        SideKind::Profile(reading) => {
            let loaded = loaded(alloc, &side.profile, tables, reading)?;
            Ok(ReadSide::Profiles(loaded))
        }
        SideKind::Filters => Ok(ReadSide::Stack(stacked(alloc, side.filters)?)),
    }
}

/// The fault of the right side: its own, if both sides are of the same kind.
pub(crate) fn fault_of_right(left: SideKind, right: SideKind, why: VerifyFault) -> SideFault
    ensures { result ≡ fault_of_right left right why }
{
    let beside = match left {
        SideKind::Profile(_) => matches!(right, SideKind::Profile(_)),
        SideKind::Filters => matches!(right, SideKind::Filters),
    };
    SideFault { beside, why }
}

/// How much of a side's profile has no table.
pub(crate) fn left_out_of_side(side: &ReadSide) -> LeftOutCounts
    ensures { result ≡ left_out_of_side side.now }
{
    match side {
        ReadSide::Profiles(loaded) => left_out_of(loaded),
        _ => LeftOutCounts::default(),
    }
}
