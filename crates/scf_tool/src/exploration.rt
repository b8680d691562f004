//! Walks over the records of a scope: what filters or profiles answer, by regions of records.

ghost use Rattle.std.specs.Prelude.{◌≡◌, ◌⊎◌, ◌&&◌, [], ℕ, All, IfOk, not, true};
ghost use Rattle.scf_compare.specs.Findings.{AllRelated, WordsRelated, compared_sides};
ghost use Rattle.scf_compare.specs.Regions.{IsCovered};
ghost use Rattle.scf_facts.specs.Masks.{AreFew};
ghost use Rattle.scf_compare.specs.Sides.{IsMaskedSide, behavior_of};
ghost use Rattle.scf_insn.specs.Words.{IsRecord, words_of};
ghost use Rattle.scf_insn.specs.declared.record.CallRecord.{CallRecord};
ghost use Rattle.scf_profile.specs.Scope.{IsInScope};
ghost use Rattle.scf_tool.specs.Explorations.{AreListed, HasDifference, IsListing, ListsAnswers};
ghost use Rattle.scf_tool.specs.Explorations as spec;
ghost use Rattle.scf_tool.specs.internal.Plans.{AreWalked, IsProfileBeside};
ghost use Rattle.scf_tool.specs.RegionLines.{listed_regions};
ghost use Rattle.std.specs.List.{AllZip};
ghost use Rattle.std.specs.Option.{option_map};

use crate::architecture_scope::scope_of;
use crate::plan::{Pairing, explore_each};
use crate::region_lines::{RegionFormat, listing_of_regions};
use crate::reply::Reply;
use crate::sides::{SideInput, SidesInput};
use crate::status::Status;
use scf_compare::{Regions, Side};
use scf_insn::Memory;
use scf_profile::{Profile, Relation, Scope};
use scf_request::{Comparison, Scopes};
use std::alloc::{AllocError, Global};
use std::slice;

/// Each profile by itself beside a side, over the records of its architecture; if the scope is a range of numbers, over
/// those with a number in it.
fn each_apart<'a>(
    alloc: Global,
    profiles: &'a [Profile],
    right: Side<'a>,
    scope: Scope,
) -> Result<Vec<Pairing<'a>>, AllocError>
    ensures { IfOk result (λ pairings. AllZip (IsProfileBeside right.entry scope) profiles.now pairings.items) }
{
    let mut pairings = Vec::new(alloc);
    for profile in profiles {
        pairings.push(Pairing {
            left: Side::Profiles(slice::from_ref(profile)),
            right,
            over: scope_of(scope, profile.architecture()),
        })?;
    }
    Ok(pairings)
}

/// Whether profiles of several architectures are walked each by itself.
fn is_apart(of_each: bool, has_differences: bool) -> bool
    ensures { result ≡ (of_each && not has_differences) }
{
    of_each && !has_differences
}

/// What is walked of two sides over the records of a scope: profiles of several architectures each by itself, over the
/// records of its own.
fn walks_of<'a>(
    alloc: Global,
    left: &'a SideInput,
    right: Side<'a>,
    of_each: bool,
    scope: Scope,
) -> Result<Vec<Pairing<'a>>, AllocError>
    ensures { IfOk result (λ pairings. AreWalked of_each left.now right.entry scope pairings.items) }
{
    match left {
        SideInput::Profiles(loaded) if of_each => {
            each_apart(alloc, loaded.profiles.as_slice(), right, scope)
        }
        _ => {
            let pairing = Pairing {
                left: left.side(),
                right,
                over: scope,
            };
            Vec::from_slice(alloc, &[pairing])
        }
    }
}

/// The law that two sides answer each record alike that lies in no listed region: each record of the scope where none
/// is listed.
pub fn none_differ()
    ensures alike { (left right : Side) (scope : Scope) (limit : ℕ) (regions : Regions) (call : CallRecord)
        → AreListed (behavior_of left) (behavior_of right) scope limit regions
        → IsRecord call → IsInScope scope call
        → WordsRelated (compared_sides Relation.Same scope left right) (words_of call)
        ⊎ IsCovered (behavior_of left) (behavior_of right) (listed_regions true regions) (words_of call) }
    ensures none { (left right : Side) (scope : Scope) (limit : ℕ) (regions : Regions)
        → AreListed (behavior_of left) (behavior_of right) scope limit regions
        → listed_regions true regions ≡ [] → AllRelated (compared_sides Relation.Same scope left right) }
{}

/// The law that of sides whose masks have few bits together each listed region has a record that they don't answer
/// alike.
pub fn each_differs()
    ensures { (left right : Side) (scope : Scope) (limit masks : ℕ) (regions : Regions)
        → AreFew masks → IsMaskedSide masks left → IsMaskedSide masks right
        → AreListed (behavior_of left) (behavior_of right) scope limit regions
        → All (HasDifference (behavior_of left) (behavior_of right) scope) (listed_regions true regions) }
{}

/// The reply of walks: the listing of their regions, or that they are unfinished.
fn reply_of(
    alloc: Global,
    format: RegionFormat,
    explored: Option<Vec<Regions>>,
) -> Result<Reply, Memory>
    ensures { IfOk result (IsListing format (option_map (λ walks. walks.items) explored)) }
{
    let (text, status) = match explored {
        Some(walks) => (listing_of_regions(alloc, format, &walks)?, Status::Success),
        None => (String::from_str(alloc, "unfinished\n")?, Status::Unknown),
    };
    Ok(Reply::Compared {
        text: text.into_bytes(),
        status,
    })
}

/// The records that are walked: single calls aren't walked by themselves.
fn scope_walked(scopes: Scopes) -> Scope
    ensures { result ≡ spec.scope_walked scopes }
{
    match scopes {
        Scopes::AtOnce(scope) => scope,
        Scopes::EachCall => Scope::All,
    }
}

/// `answers`: what sides answer to the records of a scope, profiles of several architectures each to those of its own;
/// or what two sides aren't known to answer alike.
pub(crate) fn list_answers(
    alloc: Global,
    sides: &SidesInput,
    comparison: &Comparison,
    has_examples: bool,
    has_differences: bool,
) -> Result<Reply, Memory>
    ensures { IfOk result (ListsAnswers comparison.now has_examples has_differences sides.now) }
{
    let scope = scope_walked(comparison.scopes);
    let right = sides.right.side();
    let of_each = is_apart(sides.of_each, has_differences);
    let pairings = walks_of(alloc, &sides.left, right, of_each, scope)?;
    let format = RegionFormat {
        has_differences,
        has_examples,
    };
    let explored = explore_each(alloc, &pairings, comparison.limits.each)?;
    reply_of(alloc, format, explored)
}
