//! Findings: what the comparison of two sides comes to.

ghost use Rattle.std.specs.Prelude.{◌≡◌};
ghost use Rattle.scf_compare.specs.Verdicts.{finding_of};
ghost use Rattle.scf_compare.specs.internal.Leaves.{IsOnTheLeft};

use crate::verdict::Verdict;
use scf_insn::{Answer, CallRecord};

/// One of the two sides of a comparison.
#[derive(Clone, Copy)]
pub enum Which {
    Left,
    Right,
}

/// What a comparison of two sides comes to.
#[derive(Clone, Copy)]
pub enum Finding {
    /// The relation holds of the answers to every record of the scope. `steps` were taken.
    Holds {
        steps: u64,
    },
    /// The relation doesn't hold of the answers to this record: `left` and `right` are the true answers.
    Fails {
        call: CallRecord,
        left: Answer,
        right: Answer,
    },
    /// Runs of a filter of this side end at the instruction with index `at`, and the store doesn't decide the answers
    /// there. The right side is named only where its own answer isn't known.
    Undecided {
        side: Which,
        at: usize,
    },
    /// The limit of steps was reached.
    Unfinished,
}

impl Finding {
    /// The finding on a filter, which is on the left, and a profile as a verdict.
    pub(crate) fn verdict(self) -> Verdict
        requires { IsOnTheLeft self }
        ensures { finding_of result ≡ self }
    {
        match self {
            Finding::Holds { steps } => Verdict::Same { steps },
            Finding::Fails { call, left, right } => Verdict::Differs {
                call,
                filter: left,
                profile: right,
            },
            Finding::Undecided { at, .. } => Verdict::Undecided { at },
            Finding::Unfinished => Verdict::Unfinished,
        }
    }
}
