//! Several comparisons or walks, one after another.

ghost use Rattle.std.specs.Prelude.{◌<◌, IfOk, MatchOption, None, Some};
ghost use Rattle.scf_compare.specs.Sides.{behavior_of, effort_of_sides};
ghost use Rattle.scf_tool.specs.Comparisons.{AreFoundEach};
ghost use Rattle.scf_tool.specs.Explorations.{AreListed, Explores};
ghost use Rattle.scf_tool.specs.internal.Plans.{IsFoundNext};

use scf_compare::{Finding, Limit, Regions, Side, compare_sides, compare_sides_within, regions_of};
use scf_facts::{WordSets, word_sets_start_exact};
use scf_insn::Memory;
use scf_profile::{Relation, Scope};
use std::alloc::Global;

/// Two sides, and the records over which they are compared or walked.
#[derive(Clone, Copy)]
pub struct Pairing<'a> {
    pub left: Side<'a>,
    pub right: Side<'a>,
    pub over: Scope,
}

/// What is left of the steps that several comparisons share.
#[derive(Clone, Copy)]
pub(crate) struct Shared {
    /// Those of their walks.
    pub steps: u64,
    /// Those below splits.
    pub below: u64,
}

/// Compares the sides of a pairing by a relation, within a limit and in no more steps than are left of shared ones.
/// Those that it takes are subtracted.
fn compare_next(
    alloc: Global,
    pairing: &Pairing<'_>,
    relation: Relation,
    limit: Limit,
    shared: &mut Option<Shared>,
) -> Result<Finding, Memory>
    ensures { IfOk result (λ finding. IsFoundNext relation limit shared.old pairing.now finding shared.new) }
{
    word_sets_start_exact();
    let Pairing { left, right, over } = pairing;
    match shared {
        Some(shared) => compare_sides_within::<WordSets>(
            alloc,
            left,
            right,
            *over,
            relation,
            limit,
            &mut shared.steps,
            &mut shared.below,
        ),
        None => compare_sides::<WordSets>(alloc, left, right, *over, relation, limit),
    }
}

/// Compares the sides of each pairing by a relation, each within the limit. If they share a number of steps, all
/// together take at most as many, and as many below splits: those for which no step is left are `Unfinished`.
pub fn compare_each(
    alloc: Global,
    pairings: &[Pairing<'_>],
    relation: Relation,
    limit: Limit,
    shared: Option<u64>,
) -> Result<Vec<Finding>, Memory>
    ensures { IfOk result (λ findings. AreFoundEach relation limit shared pairings.now findings.items) }
{
    let mut findings = Vec::new(alloc);
    let mut left = shared.map(|steps| Shared {
        steps,
        below: steps,
    });
    for pairing in pairings {
        let finding = compare_next(alloc, pairing, relation, limit, &mut left)?;
        findings.push(finding)?;
    }
    Ok(findings)
}

/// The regions of the sides of a pairing. None if the walk takes more steps than the limit.
fn explore(alloc: Global, pairing: &Pairing<'_>, limit: u64) -> Result<Option<Regions>, Memory>
    ensures { IfOk result (λ explored. MatchOption explored
        (limit < effort_of_sides pairing.now.left pairing.now.right)
        (AreListed (behavior_of pairing.now.left) (behavior_of pairing.now.right) pairing.now.over limit)) }
{
    word_sets_start_exact();
    regions_of::<WordSets>(alloc, &pairing.left, &pairing.right, pairing.over, limit)
}

/// The regions of the sides of each pairing. None if the walks together take more steps than the limit.
pub fn explore_each(
    alloc: Global,
    pairings: &[Pairing<'_>],
    limit: u64,
) -> Result<Option<Vec<Regions>>, Memory>
    ensures { IfOk result (λ explored. MatchOption explored
        (Explores pairings.now limit None) (λ listed. Explores pairings.now limit (Some listed.items))) }
{
    let mut listed = Vec::new(alloc);
    let mut remaining = limit;
    for pairing in pairings {
        let Some(regions) = explore(alloc, pairing, remaining)? else {
            return Ok(None);
        };
        remaining -= regions.steps;
        listed.push(regions)?;
    }
    Ok(Some(listed))
}
