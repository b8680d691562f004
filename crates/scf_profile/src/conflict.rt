//! The first conflict among rules.

ghost use Rattle.std.specs.Prelude.{◌≡◌, ◌⊎◌, IfSome, List, All, Any, Some};
ghost use Rattle.scf_profile.specs.declared.conflict.Clash.{Clash};
ghost use Rattle.scf_profile.specs.declared.rule.Rule.{Rule};
ghost use Rattle.scf_profile.specs.internal.Clashes.{IsBoundedBy, IsClashBounded, IsClashOf, IsLeastClash};
ghost use Rattle.scf_profile.specs.Loading.{EntriesConflict};
ghost use Rattle.scf_profile.specs.NumberRules.{AreNumbersOf};
ghost use Rattle.scf_profile.specs.Rule.{IsRule};

use crate::number_rules::NumberRules;
use crate::rule::Rule;
use scf_insn::Architecture;

/// Two entries that conflict, and the syscall number on which they do.
///
/// Ordered by the second entry, then by the first, then by the number.
#[derive(Clone, Copy, PartialEq, PartialOrd)]
pub(crate) struct Clash {
    pub(crate) second: u32,
    pub(crate) first: u32,
    pub(crate) number: u32,
}

/// The lesser of two clashes, if there are any.
fn lesser(least: Option<Clash>, clash: Option<Clash>) -> Option<Clash>
    ensures one { (result ≡ least) ⊎ (result ≡ clash) }
    ensures bound { (c : Clash) → clash ≡ Some c → IsBoundedBy result c }
    ensures keeps { (c : Clash) → IsBoundedBy least c → IsBoundedBy result c }
{
    let Some(new) = clash else {
        return least;
    };
    match least {
        Some(old) if old <= new => Some(old),
        _ => Some(new),
    }
}

/// The clash of a rule and a later one, if they are of different entries and conflict.
fn clash_of(architecture: Architecture, rule: &Rule, later: &Rule) -> Option<Clash>
    requires rule { IsRule architecture rule.now }
    requires later { IsRule architecture later.now }
    ensures some { IfSome result (IsClashOf architecture rule.now later.now) }
    ensures all { (c : Clash) → IsClashOf architecture rule.now later.now c → result ≡ Some c }
{
    if rule.entry >= later.entry || !rule.conflicts_with(later, architecture) {
        return None;
    }
    Some(Clash {
        second: later.entry,
        first: rule.entry,
        number: rule.number,
    })
}

/// The least of a clash and those of the rules with a later one.
fn least_with(
    architecture: Architecture,
    rules: &[Rule],
    later: &Rule,
    clash: Option<Clash>,
) -> Option<Clash>
    requires rules { All (IsRule architecture) rules.now }
    requires later { IsRule architecture later.now }
    ensures one { IfSome result (λ c. (clash ≡ Some c) ⊎ Any (λ r. IsClashOf architecture r later.now c) rules.now) }
    ensures bounds { All (IsClashBounded architecture result later.now) rules.now }
    ensures keeps { (c : Clash) → IsBoundedBy clash c → IsBoundedBy result c }
{
    let mut least = clash;
    for rule in rules {
        least = lesser(least, clash_of(architecture, rule, later));
    }
    least
}

/// The least of a clash and those among rules. Rules with one answer have none.
fn least_among(architecture: Architecture, rules: &[Rule], clash: Option<Clash>) -> Option<Clash>
    requires { All (IsRule architecture) rules.now }
    ensures one { IfSome result (λ c. (clash ≡ Some c)
        ⊎ EntriesConflict architecture rules.now c.first c.second c.number) }
    ensures bounds { All (λ later. All (IsClashBounded architecture result later) rules.now) rules.now }
    ensures keeps { (c : Clash) → IsBoundedBy clash c → IsBoundedBy result c }
{
    let Some(first) = rules.first() else {
        return clash;
    };
    if rules.iter().all(|rule| rule.answer == first.answer) {
        return clash;
    }
    let mut least = clash;
    for later in rules {
        least = least_with(architecture, rules, later, least);
    }
    least
}

/// The least conflict among rules, each of which is tested with those of its number.
pub(crate) fn least_conflict(architecture: Architecture, numbers: &[NumberRules]) -> Option<Clash>
    requires { All (λ group. All (IsRule architecture) group.rules.items) numbers.now }
    ensures { (rules : List Rule) → AreNumbersOf numbers.now rules → IsLeastClash architecture rules result }
{
    let mut least = None;
    for group in numbers {
        least = least_among(architecture, &group.rules, least);
    }
    least
}
