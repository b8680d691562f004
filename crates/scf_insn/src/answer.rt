//! The answers of filters (Linux uapi seccomp.h, seccomp(2)).

ghost use Rattle.std.specs.Prelude.{◌≡◌, ◌↔◌, IsTrue};
ghost use Rattle.scf_insn.specs.Answers.{action_half, data_half, rank_of, action_of, half_of, answer_of};
ghost use Rattle.scf_insn.specs.Answers.{disposition_of, IsNoMorePermissive};

/// A filter's answer, 32 bits: the action in the high half (`SECCOMP_RET_ACTION_FULL`), its data in the low half
/// (`SECCOMP_RET_DATA`).
#[derive(Clone, Copy, PartialEq, Eq)]
pub struct Answer(pub u32);

/// The action of an answer, in the order of precedence.
#[derive(Clone, Copy)]
pub enum Action {
    KillProcess,
    KillThread,
    Trap,
    Errno,
    UserNotif,
    Trace,
    Log,
    Allow,
    /// A high half without a name. The kernel kills the process.
    Other(u16),
}

/// Whether a syscall is executed, the least permissive first.
#[derive(Clone, Copy, PartialEq, Eq)]
pub enum Disposition {
    /// It isn't executed: the process or the thread ends, the thread gets SIGSYS, or the syscall fails.
    Denied,
    /// A supervisor (seccomp_unotify(2)) or a tracer (ptrace(2)) decides.
    Delegated,
    /// It is executed, and may be logged.
    Allowed,
}

impl Action {
    /// The high half of this action: that of its `SECCOMP_RET_..` of linux/seccomp.h.
    fn half(self) -> u16
        ensures { result ≡ half_of self }
    {
        match self {
            Action::KillProcess => 0x8000,
            Action::KillThread => 0x0000,
            Action::Trap => 0x0003,
            Action::Errno => 0x0005,
            Action::UserNotif => 0x7fc0,
            Action::Trace => 0x7ff0,
            Action::Log => 0x7ffc,
            Action::Allow => 0x7fff,
            Action::Other(half) => half,
        }
    }
}

impl Answer {
    /// The answer with this action and data.
    pub fn new(action: Action, detail: u16) -> Answer
        ensures { result.0 ≡ answer_of action detail }
    {
        Answer(u32::from(action.half()) * 0x1_0000 + u32::from(detail))
    }

    fn high_half(&self) -> u16
        ensures { result ≡ action_half self.now.0 }
    {
        (self.0 >> 16) as u16
    }

    /// The action of the high half.
    pub fn action(&self) -> Action
        ensures { result ≡ action_of (action_half self.now.0) }
    {
        match self.high_half() {
            0x8000 => Action::KillProcess,
            0x0000 => Action::KillThread,
            0x0003 => Action::Trap,
            0x0005 => Action::Errno,
            0x7fc0 => Action::UserNotif,
            0x7ff0 => Action::Trace,
            0x7ffc => Action::Log,
            0x7fff => Action::Allow,
            half => Action::Other(half),
        }
    }

    /// The data: the low half.
    pub fn detail(&self) -> u16
        ensures { result ≡ data_half self.now.0 }
    {
        (self.0 & 0xffff) as u16
    }

    /// The high half as a signed number. Among the answers of a stack the least rank takes precedence
    /// (kernel/seccomp.c, seccomp_run_filters).
    pub fn rank(&self) -> i16
        ensures { result ≡ rank_of self.now.0 }
    {
        self.high_half().cast_signed()
    }

    /// The disposition of a syscall with this answer, by the action alone: an action without a name kills the process
    /// (seccomp(2)), whatever its rank.
    pub fn disposition(&self) -> Disposition
        ensures { result ≡ disposition_of self.now.0 }
    {
        match self.action() {
            Action::UserNotif | Action::Trace => Disposition::Delegated,
            Action::Log | Action::Allow => Disposition::Allowed,
            _ => Disposition::Denied,
        }
    }

    /// Whether this answer is no more permissive than another: denied < delegated < allowed.
    pub fn is_no_more_permissive(&self, other: Answer) -> bool
        ensures { IsTrue result ↔ IsNoMorePermissive self.now.0 other.0 }
    {
        match (self.disposition(), other.disposition()) {
            (Disposition::Denied, _) | (_, Disposition::Allowed) => true,
            (Disposition::Delegated, disposition) => disposition == Disposition::Delegated,
            (Disposition::Allowed, _) => false,
        }
    }
}
