//! Parses the `args` of an entry.

ghost use Rattle.std.specs.Prelude.{◌≡◌, ◌<◌, ◌==◌, [], All, ok_or, IfOk, Ok, codes};
ghost use Rattle.std.specs.List.{list_any};
ghost use Rattle.serde_json.specs.Data.{no_items};
ghost use Rattle.serde_json.specs.Find.{as_array};
ghost use Rattle.serde_json.specs.View.{view, items_view};
ghost use Rattle.scf_insn.specs.Kernel.{seccomp_data_args};
ghost use Rattle.scf_profile.specs.declared.load_fault.LoadFault.TheVariants as faults;
ghost use Rattle.scf_profile.specs.JsonMembers.{each, whole_number};
ghost use Rattle.scf_profile.specs.Limits.{number_below};
ghost use Rattle.scf_profile.specs.Readings.{conditions_read, has_repeated_index as has_repeated};
ghost use Rattle.scf_profile.specs.Rule.{IsCondition};
ghost use Rattle.scf_profile.specs.StatedProfile.{required, optional, operator_named};
ghost use Rattle.scf_profile.specs.StatedProfile.{condition_of as condition_stated};
ghost use Rattle.scf_profile.specs.Steps.{◌>>=◌ as and_then, Gives};
ghost use Rattle.scf_profile.specs.internal.Results.{result_map};

use crate::condition::{Condition, Conditions, Operator};
use crate::forms::find_items;
use crate::json_members::{member_of, required, required_text};
use crate::limits::ARGUMENTS;
use crate::load_fault::LoadFault;
use crate::overlap::condition_on;
use crate::reading::Reading;
use serde_json::Value;
use std::alloc::Global;

fn operator_of(name: &str) -> Option<Operator>
    ensures { result ≡ operator_named name.now }
{
    match name {
        "SCMP_CMP_NE" => Some(Operator::NotEqual),
        "SCMP_CMP_LT" => Some(Operator::Less),
        "SCMP_CMP_LE" => Some(Operator::LessOrEqual),
        "SCMP_CMP_EQ" => Some(Operator::Equal),
        "SCMP_CMP_GE" => Some(Operator::GreaterOrEqual),
        "SCMP_CMP_GT" => Some(Operator::Greater),
        "SCMP_CMP_MASKED_EQ" => Some(Operator::MaskedEqual),
        _ => None,
    }
}

fn find_index(entry: Option<u32>, object: &Value) -> Result<u8, LoadFault>
    ensures value { result ≡ and_then (required entry (codes "index") whole_number (view object.now))
        (λ number. ok_or (number_below seccomp_data_args number) (faults.Index entry)) }
    ensures range { IfOk result (λ index. index < seccomp_data_args) }
{
    let member = required(entry, "index", object)?;
    match member.as_u64() {
        Some(index) if index < u64::from(ARGUMENTS) => Ok(index as u8),
        None if !member.is_i64() => Err(LoadFault::Kind { entry }),
        _ => Err(LoadFault::Index { entry }),
    }
}

/// Whether two conditions are on one argument.
pub(crate) fn has_repeated_index(conditions: &[Condition]) -> bool
    ensures { result ≡ has_repeated conditions.now }
{
    for (i, condition) in conditions.iter().enumerate() {
        if has_index(condition.index, &conditions[i + 1..]) {
            return true;
        }
    }
    false
}

#[tactic(auto, using(crate::proofs::Loops::is_found))]
fn has_index(index: u8, conditions: &[Condition]) -> bool
    ensures { result ≡ list_any (λ c. c.index == index) conditions.now }
{
    condition_on(conditions, index).is_some()
}

/// Parses one condition of `args`, given those before it. A runtime takes several on one argument.
#[tactic(auto, unfolding(crate::specs::StatedProfile::condition_of))]
fn condition_of(
    reading: Reading,
    entry: Option<u32>,
    earlier: &[Condition],
    object: &Value,
) -> Result<Condition, LoadFault>
    ensures value { result ≡ condition_stated reading entry earlier.now (view object.now) }
    ensures range { IfOk result IsCondition }
{
    if !object.is_object() {
        return Err(LoadFault::Kind { entry });
    }
    let index = find_index(entry, object)?;
    let name = required_text(entry, "op", object)?;
    let op = operator_of(name).ok_or(LoadFault::Operator { entry })?;
    let value = required(entry, "value", object)?;
    let value = value.as_u64().ok_or(LoadFault::Kind { entry })?;
    let value_two = match member_of(object, "valueTwo") {
        None => 0,
        Some(member) => member.as_u64().ok_or(LoadFault::Kind { entry })?,
    };
    if !reading.is_runtime() && has_index(index, earlier) {
        return Err(LoadFault::RepeatedIndex { entry });
    }
    Ok(Condition {
        index,
        op,
        value,
        value_two,
    })
}

/// The conditions of an entry that are read; none without `args`.
#[tactic(auto, using(crate::proofs::Loops::items_left), unfolding(crate::specs::JsonMembers::each))]
pub(crate) fn find_conditions(
    alloc: Global,
    reading: Reading,
    entry: Option<u32>,
    object: &Value,
) -> Result<Conditions, LoadFault>
    ensures value { Gives faults.Memory result
        (and_then (and_then (optional no_items entry (codes "args") as_array (view object.now))
        (each (condition_stated reading entry) [])) (λ conditions. Ok (conditions_read reading conditions))) }
    ensures range { IfOk result (λ conditions. All IsCondition conditions) }
{
    let mut conditions = Vec::new(alloc);
    for member in find_items(entry, "args", object)? {
        let condition = condition_of(reading, entry, &conditions, member)?;
        conditions.push(condition)?;
    }
    if matches!(reading, Reading::Crun) {
        conditions.truncate(usize::from(ARGUMENTS));
    }
    Ok(Conditions::from_vec(conditions))
}
