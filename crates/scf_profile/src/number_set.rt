//! Sets of arguments: those for which a condition holds.

ghost use Rattle.std.specs.Prelude.{◌≡◌, ◌==◌, ◌≤◌, ◌↔◌, ℕ, bit_and, nat_le, IfSome, IsTrue};
ghost use Rattle.scf_insn.specs.Architectures.{greatest_argument};
ghost use Rattle.scf_profile.specs.declared.number_set.NumberSet.TheVariants.{AtMost, AtLeast, AllBut, Masked};
ghost use Rattle.scf_profile.specs.internal.NumberSets.{HaveCommonNumber, IsGreatestOf, IsLeastOf, IsNumberSet};
ghost use Rattle.scf_profile.specs.internal.NumberSets.{is_in_some};

use scf_insn::ArgumentBits;

/// A non-empty set of arguments.
#[derive(Clone, Copy)]
pub(crate) enum NumberSet {
    AtMost(u64),
    AtLeast(u64),
    AllBut(u64),
    /// The values `n` with `n & mask == value`. `value` has no bit outside the mask.
    Masked { mask: u64, value: u64 },
}

impl NumberSet {
    /// The arguments from `first` on, if there are any.
    pub(crate) fn at_least(bits: ArgumentBits, first: u64) -> Option<NumberSet>
        ensures same { (n : ℕ) → n ≤ greatest_argument bits → is_in_some result n ≡ nat_le first n }
        ensures set { IfSome result (IsNumberSet bits) }
    {
        (first <= bits.greatest()).then_some(NumberSet::AtLeast(first))
    }

    /// The arguments `n` with `n & mask == value`, if there are any.
    pub(crate) fn masked(bits: ArgumentBits, mask: u64, value: u64) -> Option<NumberSet>
        requires { bit_and value mask ≡ value }
        ensures same { (n : ℕ) → n ≤ greatest_argument bits → is_in_some result n ≡ (bit_and n mask == value) }
        ensures set { IfSome result (IsNumberSet bits) }
    {
        if value <= bits.greatest() {
            Some(NumberSet::Masked { mask, value })
        } else {
            None
        }
    }

    /// The least value.
    #[tactic(auto, using(crate::proofs::Masks::least_masked))]
    fn least(self, bits: ArgumentBits) -> u64
        requires { IsNumberSet bits self }
        ensures { IsLeastOf bits self result }
    {
        match self {
            NumberSet::AtMost(_) => 0,
            NumberSet::AtLeast(first) => first,
            NumberSet::AllBut(excluded) => u64::from(excluded == 0),
            NumberSet::Masked { mask: _, value } => value,
        }
    }

    /// The greatest value.
    #[tactic(auto, using(std::proofs::lemmas::Grind::common_steps, crate::proofs::Masks::greatest_masked))]
    fn greatest(self, bits: ArgumentBits) -> u64
        requires { IsNumberSet bits self }
        ensures { IsGreatestOf bits self result }
    {
        let greatest = bits.greatest();
        match self {
            NumberSet::AtMost(last) => last.min(greatest),
            NumberSet::AtLeast(_) => greatest,
            NumberSet::AllBut(excluded) => greatest - u64::from(excluded == greatest),
            NumberSet::Masked { mask, value } => value | (greatest & !mask),
        }
    }

    /// Whether it has a value up to `last`.
    fn has_at_most(self, bits: ArgumentBits, last: u64) -> bool
        requires { IsNumberSet bits self }
        ensures { IsTrue result ↔ HaveCommonNumber bits self (AtMost last) }
    {
        self.least(bits) <= last
    }

    /// Whether it has a value from `first` on.
    fn has_at_least(self, bits: ArgumentBits, first: u64) -> bool
        requires { IsNumberSet bits self }
        ensures { IsTrue result ↔ HaveCommonNumber bits self (AtLeast first) }
    {
        self.greatest(bits) >= first
    }

    /// Whether it has a value other than `excluded`.
    fn has_other_than(self, bits: ArgumentBits, excluded: u64) -> bool
        requires { IsNumberSet bits self }
        ensures { IsTrue result ↔ HaveCommonNumber bits self (AllBut excluded) }
    {
        self.least(bits) != excluded || self.greatest(bits) != excluded
    }

    /// Whether it has a value `n` with `n & mask == value`.
    fn has_masked(self, bits: ArgumentBits, mask: u64, value: u64) -> bool
        requires own { IsNumberSet bits self }
        requires masked { IsNumberSet bits (Masked mask value) }
        ensures { IsTrue result ↔ HaveCommonNumber bits self (Masked mask value) }
    {
        let masked = NumberSet::Masked { mask, value };
        match self {
            NumberSet::AtMost(last) => masked.has_at_most(bits, last),
            NumberSet::AtLeast(first) => masked.has_at_least(bits, first),
            NumberSet::AllBut(excluded) => masked.has_other_than(bits, excluded),
            NumberSet::Masked {
                mask: own_mask,
                value: own_value,
            } => own_value & mask == value & own_mask,
        }
    }

    /// Whether two sets intersect.
    pub(crate) fn has_common_with(self, bits: ArgumentBits, other: NumberSet) -> bool
        requires own { IsNumberSet bits self }
        requires other { IsNumberSet bits other }
        ensures { IsTrue result ↔ HaveCommonNumber bits self other }
    {
        match other {
            NumberSet::AtMost(last) => self.has_at_most(bits, last),
            NumberSet::AtLeast(first) => self.has_at_least(bits, first),
            NumberSet::AllBut(excluded) => self.has_other_than(bits, excluded),
            NumberSet::Masked { mask, value } => self.has_masked(bits, mask, value),
        }
    }
}
