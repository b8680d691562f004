//! Steps in a tree of questions.

use scf_facts::Atom;

/// A step from a node of a tree of questions about words. `E` is the type of its leaves.
#[derive_where(Clone, Copy; N: Copy, E: Copy)]
pub(crate) enum Step<N, E> {
    /// To the only next node.
    Next(N),
    /// To the first node if the atom is true, else to the second. Without an atom it may be either.
    Branch(Option<Atom>, N, N),
    /// The tree ends here.
    Leaf(E),
}

/// What was passed on the way to a later node of a tree of questions.
#[derive(Clone, Copy)]
pub(crate) struct Passed {
    /// How many steps were taken.
    pub(crate) steps: u64,
    /// How many of them ask what the store knows.
    pub(crate) asked: u64,
}

impl Passed {
    pub(crate) const NOTHING: Passed = Passed { steps: 0, asked: 0 };
}
