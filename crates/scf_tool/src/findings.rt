//! What comparisons find: at once over a scope, or call by call of a syscall table.

ghost use Rattle.std.specs.Prelude.{◌≡◌, ◌∷◌, [], IfOk, length, map};
ghost use Rattle.std.specs.List.{AllZip};
ghost use Rattle.scf_profile.specs.NamedCalls.{AreCallsOf};
ghost use Rattle.scf_profile.specs.References.{texts_at};
ghost use Rattle.scf_tool.specs.ArchitectureScopes as spec;
ghost use Rattle.scf_tool.specs.Comparisons as comparisons;
ghost use Rattle.scf_tool.specs.Inputs.{behavior_of_input, named_of};
ghost use Rattle.scf_tool.specs.JointFindings.{AreFindings, IsNamedAs};
ghost use Rattle.scf_tool.specs.internal.Plans.{ArePaired, IsBesideProfile};

use crate::architecture_scope::{scope_of, scope_of_call};
use crate::joint_findings::joint_finding;
use crate::left_out::LeftOut;
use crate::owned_table::OwnedTable;
use crate::plan::{Pairing, compare_each};
use crate::sides::{SideInput, SidesInput};
use scf_compare::{Finding, Limit, Side, Splits};
use scf_insn::Memory;
use scf_profile::{NamedCall, Profile, Scope, Texts};
use scf_request::{Comparison, Limits, Scopes};
use std::alloc::{AllocError, Global};
use std::slice;

/// A call that a table names, and what the comparison over its records comes to.
#[derive(Drop)]
pub struct CallFinding {
    /// The number of the call.
    pub number: u32,
    /// All names that the table has for the number, in the order of their bytes.
    pub names: Texts,
    pub finding: Finding,
}

/// What comparisons find.
#[derive(Drop)]
pub struct Findings {
    /// The finding that speaks for all records that are asked for.
    pub joint: Finding,
    /// Call by call: the calls of a table, by number, each compared by itself.
    pub calls: Option<Vec<CallFinding>>,
}

/// What comparisons find, and what was left out of the profiles.
#[derive(Drop)]
pub struct ComparisonOutcome {
    pub findings: Findings,
    /// Of the one on the left, if that is one.
    pub left_out_of_left: Option<LeftOut>,
    /// Of the one on the right, if that is one.
    pub left_out: Option<LeftOut>,
}

/// A copy of these texts.
fn owned_texts(alloc: Global, words: &[&str]) -> Result<Texts, AllocError>
    ensures { IfOk result (λ texts. texts ≡ texts_at words.now) }
{
    let mut list = Vec::new(alloc);
    for word in words {
        list.push(String::from_str(alloc, word)?)?;
    }
    Ok(Texts::from_vec(list))
}

/// The limit of each comparison; 2^64-1 splits stand for no limit of them.
fn limit_of(limits: Limits) -> Limit
    ensures { result ≡ comparisons.limit_of limits }
{
    let splits = if limits.splits == u64::MAX {
        Splits::NoLimit
    } else {
        Splits::AtMost(limits.splits)
    };
    Limit {
        steps: limits.each,
        splits,
    }
}

/// A side beside each profile, over the records of its architecture; if the scope is a range of numbers, over those
/// with a number in it.
fn beside_each<'a>(
    alloc: Global,
    left: Side<'a>,
    profiles: &'a [Profile],
    scope: Scope,
) -> Result<Vec<Pairing<'a>>, AllocError>
    ensures { IfOk result (λ pairings. AllZip (IsBesideProfile left.entry scope) profiles.now pairings.items) }
{
    let mut pairings = Vec::new(alloc);
    for profile in profiles {
        pairings.push(Pairing {
            left,
            right: Side::Profiles(slice::from_ref(profile)),
            over: scope_of(scope, profile.architecture()),
        })?;
    }
    Ok(pairings)
}

/// A side beside one that is read, over the records of a scope; beside several profiles, each by itself.
fn pairings_of<'a>(
    alloc: Global,
    left: Side<'a>,
    right: &'a SideInput,
    of_each: bool,
    scope: Scope,
) -> Result<Vec<Pairing<'a>>, AllocError>
    ensures { IfOk result (λ pairings. ArePaired of_each left.entry right.now scope pairings.items) }
{
    match right {
        SideInput::Profiles(loaded) if of_each => {
            beside_each(alloc, left, loaded.profiles.as_slice(), scope)
        }
        _ => {
            let pairing = Pairing {
                left,
                right: right.side(),
                over: scope,
            };
            Vec::from_slice(alloc, &[pairing])
        }
    }
}

/// Two sides over the records of each call of an architecture's table.
pub fn pairings_of_calls<'a>(
    alloc: Global,
    left: Side<'a>,
    right: Side<'a>,
    table: &OwnedTable,
    calls: &[NamedCall<'_>],
) -> Result<Vec<Pairing<'a>>, AllocError>
    requires { AreCallsOf table.now.table calls.now }
    ensures { IfOk result (λ pairings.
        pairings.items ≡ map (λ call. record {
          left = left.entry;
          right = right.entry;
          over = spec.scope_of_call table.now.architecture call.number;
        }) calls.now) }
{
    let mut pairings = Vec::new(alloc);
    for call in calls {
        pairings.push(Pairing {
            left,
            right,
            over: scope_of_call(table, call),
        })?;
    }
    Ok(pairings)
}

/// The calls of a table with their findings.
fn named_findings(
    alloc: Global,
    calls: &[NamedCall<'_>],
    findings: &[Finding],
) -> Result<Vec<CallFinding>, AllocError>
    requires { length findings.now ≡ length calls.now }
    ensures named { IfOk result (λ named. AllZip IsNamedAs calls.now named.items) }
    ensures found { IfOk result (λ named. map (λ call. call.finding) named.items ≡ findings.now) }
{
    let mut named = Vec::new(alloc);
    for i in 0..calls.len() {
        let call = &calls[i];
        named.push(CallFinding {
            number: call.number,
            names: owned_texts(alloc, &call.names)?,
            finding: findings[i],
        })?;
    }
    Ok(named)
}

/// Compares two sides over the records of a scope.
fn compare_at_once(
    alloc: Global,
    sides: &SidesInput,
    scope: Scope,
    comparison: Comparison,
) -> Result<Findings, Memory>
    ensures { IfOk result (AreFindings comparison (Scopes.AtOnce scope) sides.now.of_each
        (behavior_of_input sides.now.left) sides.now.right (map named_of sides.now.tables.items)) }
{
    let pairings = pairings_of(alloc, sides.left.side(), &sides.right, sides.of_each, scope)?;
    let limit = limit_of(comparison.limits);
    let findings = compare_each(alloc, &pairings, comparison.relation, limit, None)?;
    Ok(Findings {
        joint: joint_finding(&findings),
        calls: None,
    })
}

/// Compares two sides over the records of each call of a table.
fn compare_calls(
    alloc: Global,
    sides: &SidesInput,
    table: &OwnedTable,
    comparison: Comparison,
) -> Result<Findings, Memory>
    ensures { IfOk result (AreFindings comparison Scopes.EachCall sides.now.of_each
        (behavior_of_input sides.now.left) sides.now.right (named_of table.now ∷ [])) }
{
    let calls = table.table.calls(alloc)?;
    let left = sides.left.side();
    let right = sides.right.side();
    let pairings = pairings_of_calls(alloc, left, right, table, &calls)?;
    let limit = limit_of(comparison.limits);
    let total = Some(comparison.limits.total);
    let findings = compare_each(alloc, &pairings, comparison.relation, limit, total)?;
    Ok(Findings {
        joint: joint_finding(&findings),
        calls: Some(named_findings(alloc, &calls, &findings)?),
    })
}

/// Compares two sides as is asked: by a relation, over the records of a scope, or call by call of the only table.
///
/// At once, `Holds` says that the relation holds of both answers to every record of the scope, and `Fails` shows one of
/// which it doesn't: see `compare_sides`. The steps and splits are at most `limits.each` and `limits.splits`. Beside
/// the profiles of several architectures these are the limits of each, over its own records; if the scope is a range of
/// numbers, over those with a number in it. The finding is the first that fails, in the order of `Architecture::all`,
/// else the first that doesn't hold, else `Holds`.
///
/// Call by call, each call that the table names is compared by itself, over the records of its architecture with its
/// number and within the same limits. All together take at most `limits.total` steps, and as many below splits: the
/// calls for which no step is left are `Unfinished`. A call's number is that of the table, also where records have
/// another one, as those of x32 do.
#[tactic(auto, using(crate::proofs::TableLemmas::of_others))]
pub(crate) fn findings_of(
    alloc: Global,
    sides: &SidesInput,
    comparison: Comparison,
) -> Result<Findings, Memory>
    ensures { IfOk result (AreFindings comparison comparison.scopes sides.now.of_each (behavior_of_input sides.now.left)
        sides.now.right (map named_of sides.now.tables.items)) }
{
    match comparison.scopes {
        Scopes::AtOnce(scope) => compare_at_once(alloc, sides, scope, comparison),
        Scopes::EachCall => {
            if sides.tables.len() != 1 {
                return Ok(Findings {
                    joint: Finding::Holds { steps: 0 },
                    calls: Some(Vec::new(alloc)),
                });
            }
            compare_calls(alloc, sides, &sides.tables[0], comparison)
        }
    }
}
