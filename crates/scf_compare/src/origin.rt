//! Where the answer of a side comes from.

ghost use Rattle.std.specs.Prelude.{◌≡◌};
ghost use Rattle.scf_compare.specs.Sides.{origin_index};

use scf_profile::Reason;

/// Where the answer of a side comes from.
#[derive(Clone, Copy)]
pub enum Origin {
    /// An instruction at which runs of a filter end, a return or a division by the index register: the filter's index
    /// in the stack, 0 being the oldest, and the instruction's. A stack without filters has 0 for both.
    Filter { filter: usize, index: usize },
    /// The reason of a profile.
    Profile(Reason),
}

impl Origin {
    /// The index of the instruction, 0 in a profile.
    pub(crate) fn index(self) -> usize
        ensures { result ≡ origin_index self }
    {
        match self {
            Origin::Filter { index, .. } => index,
            Origin::Profile(_) => 0,
        }
    }
}
