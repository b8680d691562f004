//! Entries of `syscalls`.

ghost use Rattle.std.specs.Prelude.{IfOk, Some};
ghost use Rattle.serde_json.specs.View.{view};
ghost use Rattle.scf_profile.specs.declared.load_fault.LoadFault.TheVariants.{Memory};
ghost use Rattle.scf_profile.specs.Steps.{Gives};

use crate::action::find_answer;
use crate::args::find_conditions;
use crate::condition::Conditions;
use crate::forms::{check_no_engine_form, find_names};
use crate::load_fault::LoadFault;
use crate::reading::Reading;
use crate::texts::BorrowedTexts;
use scf_insn::Answer;
use serde_json::Value;
use std::alloc::Global;

/// A parsed entry: its names, conditions and answer.
#[derive(Drop)]
pub(crate) struct Entry<'v> {
    pub(crate) names: BorrowedTexts<'v>,
    pub(crate) conditions: Conditions,
    pub(crate) answer: Answer,
}

impl<'v> Entry<'v> {
    ghost use Rattle.scf_profile.specs.internal.EntryRanges.{IsEntry};
    ghost use Rattle.scf_profile.specs.StatedProfile.{entry_of as entry_stated};

    /// Parses the entry at an index.
    #[tactic(auto, unfolding(crate::specs::StatedProfile::entry_of))]
    pub(crate) fn read(
        alloc: Global,
        reading: Reading,
        index: u32,
        object: &'v Value,
    ) -> Result<Entry<'v>, LoadFault>
        ensures value { Gives Memory result (entry_stated reading (Some index) (view object.now)) }
        ensures range { IfOk result IsEntry }
    {
        let entry = Some(index);
        if !object.is_object() {
            return Err(LoadFault::Kind { entry });
        }
        check_no_engine_form(entry, "includes", object)?;
        check_no_engine_form(entry, "excludes", object)?;
        let names = find_names(alloc, entry, object)?;
        let answer = find_answer(reading, entry, "action", "errnoRet", object)?;
        let conditions = find_conditions(alloc, reading, entry, object)?;
        Ok(Entry {
            names,
            conditions,
            answer,
        })
    }
}
