//! Members of JSON objects.

ghost use Rattle.std.specs.Prelude.{◌≡◌, ok_or, option_map};
ghost use Rattle.serde_json.specs.Find.{as_str};
ghost use Rattle.serde_json.specs.View.{view};
ghost use Rattle.scf_profile.specs.declared.load_fault.LoadFault.TheVariants as faults;
ghost use Rattle.scf_profile.specs.JsonMembers.{member};
ghost use Rattle.scf_profile.specs.StatedProfile.{required as required_stated};
ghost use Rattle.scf_profile.specs.internal.Results.{result_map};

use crate::load_fault::LoadFault;
use serde_json::Value;

/// A member of an object. A null member counts as absent, as when Go decodes it.
pub(crate) fn member_of<'v>(object: &'v Value, name: &str) -> Option<&'v Value>
    ensures { option_map (λ v. view v.now) result ≡ member name.now (view object.now) }
{
    match object.get(name) {
        Some(value) if !value.is_null() => Some(value),
        _ => None,
    }
}

/// A member that must be present.
pub(crate) fn required<'v>(
    entry: Option<u32>,
    name: &str,
    object: &'v Value,
) -> Result<&'v Value, LoadFault>
    ensures { result_map (λ v. view v.now) result ≡ ok_or (member name.now (view object.now)) (faults.Missing entry) }
{
    member_of(object, name).ok_or(LoadFault::Missing { entry })
}

/// A member that must be present, and a string.
pub(crate) fn required_text<'v>(
    entry: Option<u32>,
    name: &str,
    object: &'v Value,
) -> Result<&'v str, LoadFault>
    ensures { result_map (λ text. text.now) result ≡ required_stated entry name.now as_str (view object.now) }
{
    let member = required(entry, name, object)?;
    member.as_str().ok_or(LoadFault::Kind { entry })
}
