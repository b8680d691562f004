//! The sides of a comparison.

use scf_machine::Program;
use scf_profile::Profile;

/// What answers calls in a comparison.
#[derive(Clone, Copy)]
pub enum Side<'a> {
    /// The filters of a stack, the oldest first.
    Stack(&'a [Program]),
    /// Profiles: the first of a record's architecture answers it, and KILL_PROCESS if there is none. One by itself is
    /// the only one (`std::slice::from_ref`).
    Profiles(&'a [Profile]),
}
