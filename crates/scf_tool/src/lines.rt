//! Lines about the answers of filters and profiles, as values that display.

ghost use Rattle.std.specs.Prelude.{◌≡◌, ◌++◌, ℕ, Some, codes, IfSome, IfNone};
ghost use Rattle.std.specs.Fmt.{decimal};
ghost use Rattle.scf_insn.specs.Answers.{data_half};
ghost use Rattle.scf_tool.specs.Lines.{answer_text, decision_text, insn_text, reason_words, text_by, traced_text};
ghost use Rattle.scf_tool.specs.Numerals.{eight_digits};

use scf_insn::{Action, Answer};
use scf_machine::{Decision, Trace};
use scf_profile::Reason;
use std::fmt;

/// The name of an action, if it has one.
pub(crate) fn name_of(action: Action) -> Option<&'static str>
    ensures named { IfSome result (λ name. (answer : ℕ)
        → text_by action answer ≡ name.now ++ codes " " ++ decimal (data_half answer)) }
    ensures unnamed { IfNone result ((answer : ℕ)
        → text_by action answer ≡ codes "UNNAMED 0x" ++ eight_digits answer) }
{
    match action {
        Action::KillProcess => Some("KILL_PROCESS"),
        Action::KillThread => Some("KILL_THREAD"),
        Action::Trap => Some("TRAP"),
        Action::Errno => Some("ERRNO"),
        Action::UserNotif => Some("USER_NOTIF"),
        Action::Trace => Some("TRACE"),
        Action::Log => Some("LOG"),
        Action::Allow => Some("ALLOW"),
        Action::Other(_) => None,
    }
}

/// An answer: its action and data; for an action without a name the whole number.
#[derive(Clone, Copy)]
pub(crate) struct AnswerText(pub Answer);

impl fmt::Display for AnswerText {
    ghost output = { λ text. Some (answer_text text.0.0) };

    #[tactic(auto, using(crate::proofs::NumeralLemmas::eight_by_bytes))]
    fn fmt<W: fmt::Write>(&self, f: &mut fmt::Formatter<W>) -> fmt::Result {
        match name_of(self.0.action()) {
            Some(name) => write!(f, "{name} {}", self.0.detail()),
            None => {
                let number = self.0.0;
                let first = number / 0x100_0000;
                let second = number / 0x1_0000 % 256;
                let third = number / 0x100 % 256;
                let fourth = number % 256;
                write!(
                    f,
                    "UNNAMED 0x{first:02x}{second:02x}{third:02x}{fourth:02x}"
                )
            }
        }
    }
}

/// An instruction of a filter, behind the answer that it gives.
#[derive(Clone, Copy)]
struct InsnText(usize, usize);

impl fmt::Display for InsnText {
    ghost output = { λ insn. Some (insn_text insn.0 insn.1) };

    fn fmt<W: fmt::Write>(&self, f: &mut fmt::Formatter<W>) -> fmt::Result {
        write!(f, " at {}:{}", self.0, self.1)
    }
}

/// The line of the answer of a stack and of what gives it.
#[derive(Clone, Copy)]
pub(crate) struct DecisionLine(pub Decision);

impl fmt::Display for DecisionLine {
    ghost output = { λ line. Some (decision_text line.0.by line.0.answer.0) };

    fn fmt<W: fmt::Write>(&self, f: &mut fmt::Formatter<W>) -> fmt::Result {
        let answer = AnswerText(self.0.answer);
        match self.0.by {
            Some(by) => write!(f, "{answer}{}\n", InsnText(by.filter, by.index)),
            None => write!(f, "{answer}\n"),
        }
    }
}

/// The answer of a run, its steps and its path.
#[derive(Clone, Copy)]
pub(crate) struct TraceLines<'a>(pub &'a Trace);

impl fmt::Display for TraceLines<'_> {
    ghost output = { λ lines. Some (traced_text lines.0.now.answer.0 lines.0.now.indices.items) };

    fn fmt<W: fmt::Write>(&self, f: &mut fmt::Formatter<W>) -> fmt::Result {
        let indices = self.0.indices.as_slice();
        let answer = AnswerText(self.0.answer);
        write!(f, "{answer} steps {}\npath", indices.len())?;
        for index in indices {
            write!(f, " {}", *index)?;
        }
        f.write_str("\n")
    }
}

/// The reason of a profile's answer, behind the answer.
#[derive(Clone, Copy)]
pub(crate) struct ReasonText(pub Reason);

impl fmt::Display for ReasonText {
    ghost output = { λ text. Some (reason_words text.0) };

    fn fmt<W: fmt::Write>(&self, f: &mut fmt::Formatter<W>) -> fmt::Result {
        match self.0 {
            Reason::Foreign => f.write_str(" foreign"),
            Reason::Stub => f.write_str(" stub"),
            Reason::Entry(index) => write!(f, " entry {index}"),
            Reason::Default => f.write_str(" default"),
        }
    }
}
