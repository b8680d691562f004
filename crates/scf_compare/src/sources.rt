//! Sources: the bits of the record's words on which a computed value depends.

/// The bits of the record's words on which a value may depend: those of two words, each by a mask, and all bits of
/// further words. They only say which bits to split on, so no proof rests on them.
#[derive(Clone, Copy)]
pub(crate) struct Sources {
    /// The bits of the word `first`; 0 if there is no such word.
    first_bits: u32,
    /// The bits of the word `second`; 0 if there is no such word.
    second_bits: u32,
    first: u8,
    second: u8,
    /// Bit `i` is set if any bit of word `i` may matter.
    others: u16,
    /// How far bits may have been shifted to the right: bit `i` of a word changes no bit of the value below bit
    /// `i - lowered`.
    lowered: u8,
    /// Whether bits may have moved or been carried, so that a bit of a word may change other bits of the value.
    is_moved: bool,
}

/// The most bits of one value that are split before any of another one is.
const FEW: u32 = 8;

/// A test that nothing known decides.
#[derive(Clone, Copy)]
pub(crate) struct OpenTest {
    pub(crate) sources: Sources,
    /// Whether the highest undetermined bit is to be split first, since a range decides the test: it is `>` or `>=`, of
    /// a quotient or a shift to the right, or of high bits alone. For other tests it is the lowest.
    pub(crate) is_order: bool,
}

impl OpenTest {
    /// The test that wasn't sought in the known bits.
    pub(crate) const NONE: OpenTest = OpenTest {
        sources: Sources::NONE,
        is_order: false,
    };

    /// A test with these sources. That of a quotient or of a shift to the right is decided as an order is.
    pub(crate) fn of(sources: Sources, is_order: bool) -> OpenTest {
        OpenTest {
            sources,
            is_order: is_order || sources.lowered > 0,
        }
    }
}

impl Sources {
    /// No bits: those of a constant.
    pub(crate) const NONE: Sources = Sources {
        first_bits: 0,
        second_bits: 0,
        first: 0,
        second: 0,
        others: 0,
        lowered: 0,
        is_moved: false,
    };

    /// Bits of one word, shifted to the right and then to the left.
    pub(crate) fn of(word: u8, bits: u32, right: u32, left: u32) -> Sources {
        Sources {
            first_bits: bits,
            first: word,
            lowered: right.saturating_sub(left).min(u32::BITS) as u8,
            is_moved: right != left,
            ..Sources::NONE
        }
    }

    /// The bits of both.
    pub(crate) fn and(self, other: Sources) -> Sources {
        let joined = self
            .with(other.first, other.first_bits)
            .with(other.second, other.second_bits);
        Sources {
            others: joined.others | other.others,
            lowered: self.lowered.max(other.lowered),
            is_moved: self.is_moved || other.is_moved,
            ..joined
        }
    }

    /// The bits on which to split for an operation on two values that isn't followed bit by bit: those of one that
    /// depends on so few that each of its numbers can be tried, since with a constant the result is exact; else those
    /// of both.
    pub(crate) fn guiding(self, other: Sources) -> Sources {
        let (first, second) = (self.count(), other.count());
        if first.min(second) > 0 && first.min(second) <= FEW {
            return if first <= second { self } else { other };
        }
        self.and(other)
    }

    /// How many bits there are.
    fn count(self) -> u32 {
        let others = u32::from(self.others).count_ones() * u32::BITS;
        self.first_bits.count_ones() + self.second_bits.count_ones() + others
    }

    /// Those of a value whose bits may have moved, to the right by at most so many bits.
    pub(crate) fn moved(self, right: u32) -> Sources {
        let lowered = u32::from(self.lowered) + right.min(u32::BITS);
        Sources {
            lowered: lowered.min(u32::BITS) as u8,
            is_moved: true,
            ..self
        }
    }

    /// Without the bits of the first two words that change none of these bits of the value.
    pub(crate) fn changing(self, bits: u32) -> Sources {
        let mask = if self.is_moved {
            let highest = u32::BITS.saturating_sub(bits.leading_zeros());
            let count = highest + u32::from(self.lowered);
            !u32::MAX.checked_shl(count).unwrap_or(0)
        } else {
            bits
        };
        Sources {
            first_bits: self.first_bits & mask,
            second_bits: self.second_bits & mask,
            ..self
        }
    }

    /// These bits and further ones of one word. Of a third word all bits are taken.
    fn with(mut self, word: u8, bits: u32) -> Sources {
        if self.first_bits == 0 || self.first == word {
            self.first = word;
            self.first_bits |= bits;
        } else if self.second_bits == 0 || self.second == word {
            self.second = word;
            self.second_bits |= bits;
        } else if bits != 0 {
            self.others |= 1 << (word % 16);
        }
        self
    }

    /// The bits of a word that may matter.
    pub(crate) fn bits_of(self, word: u8) -> u32 {
        if self.others >> (word % 16) & 1 != 0 {
            return u32::MAX;
        }
        let of = |index: u8, bits: u32| if index == word { bits } else { 0 };
        of(self.first, self.first_bits) | of(self.second, self.second_bits)
    }
}
