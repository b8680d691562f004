//! Replies of commands: what is printed, and the exit status.

ghost use Rattle.std.specs.Prelude.{◌≡◌, [], IfOk, string_bytes};
ghost use Rattle.scf_tool.specs.Replies as spec;

use crate::fault::Fault;
use crate::lines::{AnswerText, DecisionLine, ReasonText};
use crate::status::Status;
use scf_insn::Answer;
use scf_machine::{Decision, Ran};
use scf_profile::Reason;
use std::alloc::AllocError;

/// The result of a command. Printing it allocates nothing beyond one line.
#[derive(Drop)]
pub(crate) enum Reply {
    /// `clap`'s text: help, the version or a usage error.
    CommandLine { text: String, status: Status },
    /// The filter, with this many instructions, is accepted.
    Accepted(usize),
    /// The result of a run.
    Ran(Ran),
    /// The answer of a stack.
    Decided(Answer),
    /// The answer of a stack, and the instruction that gives it.
    DecidedBy(Decision),
    /// The answer of a profile.
    Asked { answer: Answer, reason: Reason },
    /// These bytes.
    Bytes(Vec<u8>),
    /// The report of a comparison, or the list of a walk.
    Compared { text: Vec<u8>, status: Status },
}

/// The size of the line that is allocated before a command reads its input. Each line of a fault, a check and an answer
/// is shorter.
pub(crate) const LINE_ROOM: usize = 256;

/// The exit status of a result or a fault, and what is printed of it; a line in place of an empty one.
pub(crate) fn printed(
    ending: Result<Reply, Fault>,
    mut line: String,
) -> Result<(Status, Vec<u8>), AllocError>
    requires { string_bytes line ≡ [] }
    ensures { IfOk result (λ printed. (printed.0, printed.1.items) ≡ spec.printed ending) }
{
    match ending {
        Ok(Reply::CommandLine { text, status }) => return Ok((status, text.into_bytes())),
        Ok(Reply::Accepted(count)) => line.write(format_args!("accepted {count}\n"))?,
        Ok(Reply::Ran(ran)) => {
            let answer = AnswerText(ran.answer);
            let steps = ran.steps;
            line.write(format_args!("{answer} steps {steps}\n"))?;
        }
        Ok(Reply::Decided(answer)) => line.write(format_args!("{}\n", AnswerText(answer)))?,
        Ok(Reply::DecidedBy(decision)) => line.write(DecisionLine(decision))?,
        Ok(Reply::Asked { answer, reason }) => {
            let answer = AnswerText(answer);
            let reason = ReasonText(reason);
            line.write(format_args!("{answer}{reason}\n"))?;
        }
        Ok(Reply::Bytes(bytes)) => return Ok((Status::Success, bytes)),
        Ok(Reply::Compared { text, status }) => return Ok((status, text)),
        Err(fault) => {
            let row = fault.row();
            line.write(row)?;
            return Ok((row.status, line.into_bytes()));
        }
    }
    Ok((Status::Success, line.into_bytes()))
}
