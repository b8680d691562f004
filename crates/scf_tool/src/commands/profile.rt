//! Commands on a profile and its tables.

ghost use Rattle.scf_request.specs.declared.request.Command.TheVariants as commands;
ghost use Rattle.scf_tool.specs.Commands.{RepliesTo};

use crate::compilation::{behind_left_out, filter_of_each};
use crate::fault::Fault;
use crate::loading::call_counts;
use crate::reply::Reply;
use crate::sides::{SideInput, SidesInput};
use scf_insn::CallRecord;
use std::alloc::Global;

/// `compile`: the filter that answers as the profile does, or for each architecture that has a table, behind what is
/// left out of the profile, if that is asked for.
pub(super) fn compile_profile(
    alloc: Global,
    sides: &SidesInput,
    has_left_out: bool,
) -> Result<Reply, Fault>
    ensures { RepliesTo (commands.Compile has_left_out) sides.now result }
{
    let SideInput::Profiles(loaded) = &sides.left else {
        return Err(Fault::Parts);
    };
    let calls = call_counts(alloc, &sides.tables, &sides.counts).map_err(Fault::Compile)?;
    let filter = filter_of_each(alloc, &loaded.profiles, &calls).map_err(Fault::Compile)?;
    let bytes = behind_left_out(alloc, has_left_out, loaded, filter).map_err(Fault::Compile)?;
    Ok(Reply::Bytes(bytes))
}

/// `ask`: what a profile answers to a call, or that of its architecture, and why.
pub(super) fn ask_profile(sides: &SidesInput, call: &CallRecord) -> Result<Reply, Fault>
    ensures { RepliesTo (commands.Ask call.now) sides.now result }
{
    let SideInput::Profiles(loaded) = &sides.left else {
        return Err(Fault::Parts);
    };
    Ok(Reply::Asked {
        answer: loaded.profiles.answer(call),
        reason: loaded.profiles.reason(call),
    })
}
