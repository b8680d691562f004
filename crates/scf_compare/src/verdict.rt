//! Verdicts.

use scf_insn::{Answer, CallRecord};

/// The verdict of a comparison of a filter (or a stack) with a profile.
#[derive(Clone, Copy)]
pub enum Verdict {
    /// The relation holds of the answers to every record of the scope. `steps` were taken.
    Same {
        steps: u64,
    },
    /// The relation doesn't hold of the answers to this record: `filter` and `profile` are the true answers.
    Differs {
        call: CallRecord,
        filter: Answer,
        profile: Answer,
    },
    /// Runs of a filter end at the instruction with index `at`, and the store doesn't decide the answer there.
    Undecided {
        at: usize,
    },
    /// The limit of steps was reached.
    Unfinished,
}
