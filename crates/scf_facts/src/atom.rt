//! Questions about one word of a call record, and what a store knows of the answer.

ghost use Rattle.std.specs.Prelude.{◌≡◌, ℕ, List, if◌then◌else◌, IfSome, slice_index};
ghost use Rattle.scf_facts.specs.Atoms.{answer_at, atom_answer, word_of};

/// A question about one of the sixteen 32-bit words of a call record. `word` is the word's index, 0 to 15 (the caller's
/// condition); comparisons are unsigned. The answer is true or false.
#[derive(Clone, Copy, PartialEq, Eq)]
pub enum Atom {
    /// `word & mask == value`.
    Eq { word: u8, mask: u32, value: u32 },
    /// `word > value`.
    Gt { word: u8, value: u32 },
    /// `word >= value`.
    Ge { word: u8, value: u32 },
    /// `low <= word && word <= high`.
    In { word: u8, low: u32, high: u32 },
}

impl Atom {
    /// The index of its word, 0 to 15.
    pub fn word(self) -> u8
        ensures { result ≡ word_of self }
    {
        match self {
            Atom::Eq { word, .. }
            | Atom::Gt { word, .. }
            | Atom::Ge { word, .. }
            | Atom::In { word, .. } => word,
        }
    }

    /// The answer if its word is this number.
    pub fn answer(self, number: u32) -> bool
        ensures { result ≡ answer_at self number }
    {
        match self {
            Atom::Eq { mask, value, .. } => number & mask == value,
            Atom::Gt { value, .. } => number > value,
            Atom::Ge { value, .. } => number >= value,
            Atom::In { low, high, .. } => low <= number && number <= high,
        }
    }
}

/// What a store knows of an atom.
#[derive(Clone, Copy, PartialEq, Eq)]
pub enum Tell {
    /// It is true of every allowed list of words.
    Always,
    /// It is false of every allowed list of words.
    Never,
    /// Unknown: it may be either.
    Maybe,
}

impl Tell {
    /// `Always` or `Never` for a known answer, else `Maybe`.
    pub(crate) fn of(answer: bool) -> Tell
        ensures { result ≡ (if answer then Tell.Always else Tell.Never) }
    {
        if answer { Tell::Always } else { Tell::Never }
    }
}
