//! Arrays of texts, and members whose meaning depends on a container engine.

ghost use Rattle.std.specs.Prelude.{◌≡◌, ◌==◌, codes};
ghost use Rattle.serde_json.specs.Data.{no_items};
ghost use Rattle.serde_json.specs.Events.{items_len};
ghost use Rattle.serde_json.specs.Find.{as_array, as_str};
ghost use Rattle.serde_json.specs.View.{view, items_view};
ghost use Rattle.scf_profile.specs.declared.load_fault.LoadFault.TheVariants.{Memory, Kind, EmptyNames};
ghost use Rattle.scf_profile.specs.StatedProfile.{required as required_stated, optional, is_empty as empty_value, no_engine_form};
ghost use Rattle.scf_profile.specs.StatedProfile.{strings_of as strings_stated};
ghost use Rattle.scf_profile.specs.Steps.{◌>>=◌ as and_then, Gives, refused_if};
ghost use Rattle.scf_profile.specs.internal.Results.{result_map};

use crate::json_members::{member_of, required};
use crate::load_fault::LoadFault;
use crate::texts::BorrowedTexts;
use serde_json::Value;
use std::alloc::Global;

/// Whether a value is an empty array or an empty object.
#[tactic(auto, using(crate::proofs::Loops::lengths))]
fn is_empty(value: &Value) -> bool
    ensures { result ≡ empty_value (view value.now) }
{
    match value.as_array() {
        Some(items) => items.is_empty(),
        None => match value.as_object() {
            Some(members) => members.is_empty(),
            None => false,
        },
    }
}

/// Refuses a member that is present and not empty.
#[tactic(auto, unfolding(crate::specs::StatedProfile::no_engine_form))]
pub(crate) fn check_no_engine_form(
    entry: Option<u32>,
    name: &str,
    object: &Value,
) -> Result<(), LoadFault>
    ensures { result ≡ no_engine_form entry name.now (view object.now) }
{
    match member_of(object, name) {
        Some(member) if !is_empty(member) => Err(LoadFault::EngineForm { entry }),
        _ => Ok(()),
    }
}

/// The items of a member that must be an array; none if it is absent.
#[tactic(auto, using(crate::proofs::Loops::items_left))]
pub(crate) fn find_items<'v>(
    entry: Option<u32>,
    name: &str,
    object: &'v Value,
) -> Result<&'v [Value], LoadFault>
    ensures { result_map (λ items. items_view items.now) result
        ≡ optional no_items entry name.now as_array (view object.now) }
{
    match member_of(object, name) {
        None => Ok(&[]),
        Some(member) => match member.as_array() {
            Some(items) => Ok(items),
            None => Err(LoadFault::Kind { entry }),
        },
    }
}

/// The strings of an array.
pub(crate) fn strings_of<'v>(
    alloc: Global,
    entry: Option<u32>,
    items: &'v [Value],
) -> Result<BorrowedTexts<'v>, LoadFault>
    ensures { Gives Memory result (strings_stated entry (items_view items.now)) }
{
    let mut texts = BorrowedTexts::new(alloc);
    for item in items {
        let Some(text) = item.as_str() else {
            return Err(LoadFault::Kind { entry });
        };
        texts.push(text)?;
    }
    Ok(texts)
}

/// The names of an entry.
#[tactic(auto, using(crate::proofs::Loops::lengths))]
pub(crate) fn find_names<'v>(
    alloc: Global,
    entry: Option<u32>,
    object: &'v Value,
) -> Result<BorrowedTexts<'v>, LoadFault>
    ensures { Gives Memory result (and_then (required_stated entry (codes "names") as_array (view object.now)) (λ items.
        and_then (refused_if (items_len items == 0) (EmptyNames entry)) (λ _. strings_stated entry items))) }
{
    let Some(names) = required(entry, "names", object)?.as_array() else {
        return Err(LoadFault::Kind { entry });
    };
    if names.is_empty() {
        return Err(LoadFault::EmptyNames { entry });
    }
    strings_of(alloc, entry, names)
}
