//! The bits of a value under a mask.

ghost use Rattle.std.specs.Prelude.{◌≡◌, ◌+◌, ◌<◌, ◌≤◌, ◌↔◌, ◌⊎◌, ℕ, IsTrue, false, IfSome, IfNone, bit_and, bit_or};
ghost use Rattle.std.specs.Int.{IsPowerOfTwo};
ghost use Rattle.scf_facts.specs.Bits.{FixesNumber, HasBits, LacksBits};
ghost use Rattle.scf_facts.specs.internal.Bits.{SomeLack};

/// A mask and a value. A number `n` has these bits if `n & mask == value`.
#[derive(Clone, Copy)]
pub struct Bits {
    pub mask: u32,
    pub value: u32,
}

impl Bits {
    /// No bits: every number has them.
    pub const NONE: Bits = Bits { mask: 0, value: 0 };

    /// The bits of a number under a mask.
    pub fn of(number: u32, mask: u32) -> Bits
        ensures mask { result.mask ≡ mask }
        ensures value { result.value ≡ bit_and number mask }
    {
        Bits {
            mask,
            value: number & mask,
        }
    }

    /// The leading bits that the numbers `least..=greatest` have in common.
    #[tactic(auto, using(crate::proofs::CommonBits::between_laws))]
    pub fn between(least: u32, greatest: u32) -> Bits
        ensures within { bit_and result.value result.mask ≡ result.value }
        ensures common { (x : ℕ) → least ≤ x → x ≤ greatest → HasBits result x }
        ensures one { least ≡ greatest → FixesNumber result }
    {
        let count = u32::BITS - (least ^ greatest).leading_zeros();
        if count == u32::BITS {
            return Bits::NONE;
        }
        Bits::of(least, u32::MAX << count)
    }

    /// The bits of both, together.
    #[tactic(auto, using(crate::proofs::CommonBits::unions))]
    pub fn union(self, other: Bits) -> Bits
        ensures mask { result.mask ≡ bit_or self.mask other.mask }
        ensures value { result.value ≡ bit_or self.value other.value }
        ensures both { (x : ℕ) → HasBits self x → HasBits other x → HasBits result x }
        ensures within { bit_and self.value self.mask ≡ self.value → bit_and other.value other.mask ≡ other.value
            → bit_and result.value result.mask ≡ result.value }
    {
        Bits {
            mask: self.mask | other.mask,
            value: self.value | other.value,
        }
    }

    /// Whether the number has these bits.
    pub(crate) fn are_in(self, x: u32) -> bool
        ensures { IsTrue result ↔ HasBits self x }
    {
        x & self.mask == self.value
    }

    /// The bits of both, if some number has both.
    #[tactic(auto, using(crate::proofs::MaskLaws::joined, crate::proofs::MaskLaws::in_joined))]
    pub(crate) fn join(self, other: Bits) -> Option<Bits>
        ensures both { IfSome result (λ bits. (x : ℕ) → HasBits bits x ↔ (HasBits self x × HasBits other x)) }
        ensures shown { IfSome result (λ bits. HasBits self bits.value × HasBits other bits.value) }
        ensures none { IfNone result ((x : ℕ) → HasBits self x → HasBits other x → ⊥) }
        ensures mask { IfSome result (λ bits. bits.mask ≡ bit_or self.mask other.mask) }
    {
        let bits = self.union(other);
        (self.are_in(bits.value) && other.are_in(bits.value)).then_some(bits)
    }

    /// Whether every number with these bits has the others.
    #[tactic(auto, using(crate::proofs::MaskLaws::part_of, crate::proofs::MaskLaws::some_lack))]
    pub(crate) fn imply(self, others: Bits) -> bool
        ensures each { IsTrue result → (x : ℕ) → HasBits self x → HasBits others x }
        ensures some { result ≡ false → HasBits self self.value → SomeLack self others }
    {
        self.mask & others.mask == others.mask && others.are_in(self.value)
    }

    /// Those of these bits that `known` doesn't fix, if some number has both.
    #[tactic(auto, using(crate::proofs::MaskLaws::beyond_laws))]
    pub(crate) fn beyond(self, known: Bits) -> Bits
        ensures decides { (some x : ℕ) → HasBits known some → HasBits self some
            → HasBits known x → (HasBits self x ↔ HasBits result x) }
        ensures within { bit_and result.value result.mask ≡ result.value }
        ensures one { IsPowerOfTwo self.mask → (result.mask ≡ 0) ⊎ IsPowerOfTwo result.mask }
        ensures none { self.mask ≡ 0 → result.mask ≡ 0 }
        ensures rest { result.mask + bit_and self.mask known.mask ≡ self.mask }
        ensures among { bit_and self.mask result.mask ≡ result.mask }
        ensures apart { bit_and known.mask result.mask ≡ 0 }
    {
        let mask = self.mask ^ (self.mask & known.mask);
        Bits {
            mask,
            value: self.value & mask,
        }
    }

    /// The same bit with the other value.
    #[tactic(auto, using(crate::proofs::MaskLaws::flipped))]
    pub(crate) fn flipped(self) -> Bits
        requires one { IsPowerOfTwo self.mask }
        requires within { bit_and self.value self.mask ≡ self.value }
        ensures other { (x : ℕ) → HasBits result x ↔ LacksBits self x }
        ensures mask { result.mask ≡ self.mask }
    {
        Bits {
            mask: self.mask,
            value: self.value ^ self.mask,
        }
    }

    /// The lowest of these bits, alone.
    #[tactic(auto, using(crate::proofs::LowestBit::lowest))]
    pub(crate) fn lowest(self) -> Option<Bits>
        ensures none { IfNone result (self.mask ≡ 0) }
        ensures one { IfSome result (λ bit. IsPowerOfTwo bit.mask) }
        ensures some { IfSome result (λ bit. 0 < bit.mask) }
        ensures within { IfSome result (λ bit. bit_and bit.value bit.mask ≡ bit.value) }
        ensures part { IfSome result (λ bit. (x : ℕ) → HasBits self x → HasBits bit x) }
        ensures among { IfSome result (λ bit. bit_and self.mask bit.mask ≡ bit.mask) }
    {
        if self.mask == 0 {
            return None;
        }
        let mask = 1 << self.mask.trailing_zeros();
        Some(Bits {
            mask,
            value: self.value & mask,
        })
    }
}
