//! The syscalls of a table by number.

ghost use Rattle.std.specs.Prelude.{◌≡◌, ◌≢◌, ℕ, ◌++◌, ◌∷◌, [], is_some, true, IfOk, OnOk};
ghost use Rattle.std.specs.BTreeMap.{get};
ghost use Rattle.std.specs.Ordering.{nat_cmp};
ghost use Rattle.scf_profile.specs.NamedCalls.{AreCallsOf};
ghost use Rattle.scf_profile.specs.Names.{AreSorted, names_of};
ghost use Rattle.scf_profile.specs.internal.NamesByNumber.{AreByNumber, names_under};

use crate::name::TableEntry;
use std::alloc::{AllocError, Global};
use std::collections::BTreeMap;

/// A syscall number of a table with its names, in byte order.
#[derive(Drop)]
pub struct NamedCall<'a> {
    pub number: u32,
    pub names: Vec<&'a str>,
}

/// Adds a name to those of its number.
#[tactic(auto, using(std::proofs::lemmas::List::map_push))]
fn add_name<'a>(
    named: &mut BTreeMap<u32, Vec<&'a str>>,
    number: u32,
    name: &'a str,
) -> Result<(), AllocError>
    ensures names { OnOk result (names_under named.new number ≡ names_under named.old number ++ name.now ∷ []) }
    ensures has { OnOk result (is_some (get nat_cmp named.new number) ≡ true) }
    ensures others { OnOk result ((n : ℕ) → n ≢ number → get nat_cmp named.new n ≡ get nat_cmp named.old n) }
{
    named.entry(number)?.or_default().push(name)?;
    Ok(())
}

/// The names of entries, by syscall number.
fn names_by_number(
    alloc: Global,
    entries: &[TableEntry],
) -> Result<BTreeMap<u32, Vec<&str>>, AllocError>
    ensures { IfOk result (AreByNumber entries.now) }
{
    let mut named = BTreeMap::new(alloc);
    for entry in entries {
        add_name(&mut named, entry.number(), entry.text())?;
    }
    Ok(named)
}

/// The entries of a table, by syscall number.
#[tactic(auto, using(std::proofs::lemmas::Grind::common_steps, crate::proofs::NamedCalls::are_calls))]
pub(crate) fn named_calls(
    alloc: Global,
    entries: &[TableEntry],
) -> Result<Vec<NamedCall<'_>>, AllocError>
    requires { AreSorted entries.now }
    ensures { IfOk result (λ calls. AreCallsOf (names_of entries.now) calls.items) }
{
    let named = names_by_number(alloc, entries)?;
    let mut calls = Vec::new(alloc);
    for (number, names) in named {
        calls.push(NamedCall { number, names })?;
    }
    Ok(calls)
}
