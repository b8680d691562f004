//! Actions by name, and the answers that they make.

ghost use Rattle.std.specs.Prelude.{◌≡◌, ◌<◌, ◌^◌, IfOk};
ghost use Rattle.serde_json.specs.View.{view};
ghost use Rattle.scf_profile.specs.StatedProfile.{action_named, takes_errno as errno_taken, takes_data as data_taken};
ghost use Rattle.scf_profile.specs.StatedProfile.{errno_of as errno_stated, answer_in};

use crate::json_members::{member_of, required_text};
use crate::limits::MAX_ERRNO;
use crate::load_fault::LoadFault;
use crate::reading::Reading;
use scf_insn::{Action, Answer};
use serde_json::Value;

fn action_of(name: &str) -> Option<Action>
    ensures { result ≡ action_named name.now }
{
    match name {
        "SCMP_ACT_KILL" => Some(Action::KillThread),
        "SCMP_ACT_KILL_THREAD" => Some(Action::KillThread),
        "SCMP_ACT_KILL_PROCESS" => Some(Action::KillProcess),
        "SCMP_ACT_TRAP" => Some(Action::Trap),
        "SCMP_ACT_ERRNO" => Some(Action::Errno),
        "SCMP_ACT_NOTIFY" => Some(Action::UserNotif),
        "SCMP_ACT_TRACE" => Some(Action::Trace),
        "SCMP_ACT_LOG" => Some(Action::Log),
        "SCMP_ACT_ALLOW" => Some(Action::Allow),
        _ => None,
    }
}

/// Whether the action takes an errno as its data: ERRNO and TRACE do.
fn takes_errno(action: Action) -> bool
    ensures { result ≡ errno_taken action }
{
    matches!(action, Action::Errno | Action::Trace)
}

/// Whether an errno beside the action is its data: that of TRAP is in a sandbox's reading.
fn takes_data(reading: Reading, action: Action) -> bool
    ensures { result ≡ data_taken reading action }
{
    takes_errno(action) || matches!((reading, action), (Reading::Sandbox, Action::Trap))
}

/// The errno that a JSON value gives for an action, 0 to 65535; 0 if it is ignored.
#[tactic(auto, unfolding(crate::specs::StatedProfile::errno_of))]
fn errno_of(
    reading: Reading,
    entry: Option<u32>,
    action: Action,
    value: &Value,
) -> Result<u16, LoadFault>
    ensures { result ≡ errno_stated reading entry action (view value.now) }
{
    let number = value.as_u64();
    if number.is_none() && !value.is_i64() {
        return Err(LoadFault::Kind { entry });
    }
    if !takes_data(reading, action) && !reading.ignores_errno() {
        return Err(LoadFault::Errno { entry });
    }
    match number {
        Some(_) if !takes_data(reading, action) => Ok(0),
        Some(errno) if errno <= MAX_ERRNO => Ok(errno as u16),
        _ => Err(LoadFault::ErrnoRange { entry }),
    }
}

/// The answer of the action that a member names, with the errno of another member; EPERM if that is absent.
#[tactic(auto, unfolding(crate::specs::StatedProfile::answer_in))]
pub(crate) fn find_answer(
    reading: Reading,
    entry: Option<u32>,
    name: &str,
    errno_name: &str,
    object: &Value,
) -> Result<Answer, LoadFault>
    ensures value { result ≡ answer_in reading entry name.now errno_name.now (view object.now) }
    ensures range { IfOk result (λ answer. answer.0 < 2 ^ 32) }
{
    let text = required_text(entry, name, object)?;
    let action = action_of(text).ok_or(LoadFault::Action { entry })?;
    let errno = match member_of(object, errno_name) {
        None => u16::from(takes_errno(action)),
        Some(member) => errno_of(reading, entry, action, member)?,
    };
    Ok(Answer::new(action, errno))
}
