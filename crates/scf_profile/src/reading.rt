//! How a profile is read.

ghost use Rattle.std.specs.Prelude.{◌≡◌};
ghost use Rattle.scf_profile.specs.Readings.{ignores_errno as errno_ignored, is_runtime as runtime, left_out as left_out_by};

use scf_insn::Answer;

/// How a profile is read: by its words, as a container runtime reads it that hands it to libseccomp, or as what a
/// program's own sandbox answers.
#[derive(Clone, Copy)]
pub enum Reading {
    /// By its words (OCI runtime specification).
    Strict,
    /// As runc does.
    Runc,
    /// As crun does.
    Crun,
    /// By its words, with an errno beside SCMP_ACT_TRAP as its data.
    Sandbox,
}

impl Reading {
    /// Whether this is a container runtime's reading.
    pub(crate) fn is_runtime(self) -> bool
        ensures { result ≡ runtime self }
    {
        matches!(self, Reading::Runc | Reading::Crun)
    }

    /// Whether an errno beside an action that takes none is ignored.
    pub(crate) fn ignores_errno(self) -> bool
        ensures { result ≡ errno_ignored self }
    {
        matches!(self, Reading::Runc)
    }

    /// The answer whose entries are left out, if any: a runtime leaves out those with the default answer.
    pub(crate) fn left_out(self, default_answer: Answer) -> Option<Answer>
        ensures { result ≡ left_out_by self default_answer }
    {
        self.is_runtime().then_some(default_answer)
    }
}
