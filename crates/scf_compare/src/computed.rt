//! Computed values of which only single bits may be known.

ghost use Rattle.std.specs.Prelude.{◌≡◌, ◌+◌, ◌*◌, ◌/◌, ◌%◌, ◌<◌, ◌^◌, ℕ, List, IfSome};
ghost use Rattle.scf_machine.specs.Machine.{value_computed};
ghost use Rattle.scf_compare.specs.internal.Values.{Abstracts, IsComputedNumber, IsValue};

use crate::known_bits::known_result;
use crate::sources::Sources;
use crate::value::Value;
use scf_facts::Bits;
use scf_insn::Arithmetic;

/// The bits that are known of a value, and those of the record's words on which it depends.
#[derive(Clone, Copy)]
pub(crate) struct Computed {
    pub(crate) bits: Bits,
    pub(crate) sources: Sources,
}

impl Computed {
    /// A value of which nothing is known: that of a scratch word that isn't stored.
    pub(crate) const UNKNOWN: Computed = Computed {
        bits: Bits::NONE,
        sources: Sources::NONE,
    };

    /// A constant.
    #[tactic(auto, using(crate::proofs::Bits::whole_word))]
    pub(crate) fn constant(value: u32) -> Computed
        ensures { IsComputedNumber result value }
    {
        Computed {
            bits: Bits {
                mask: u32::MAX,
                value,
            },
            sources: Sources::NONE,
        }
    }

    /// The number, if all its bits are known.
    #[tactic(auto, using(crate::proofs::Bits::whole_word))]
    pub(crate) fn number(self) -> Option<u32>
        ensures { (x : ℕ) → IsComputedNumber self x → IfSome result (λ number. x ≡ number) }
    {
        (self.bits.mask == u32::MAX).then_some(self.bits.value)
    }

    /// As a value: a constant if all its bits are known.
    pub(crate) fn value(self) -> Value
        ensures value { IsValue result }
        ensures stands { (words : List ℕ) (x : ℕ) → IsComputedNumber self x → Abstracts result words x }
    {
        match self.number() {
            Some(number) => Value::Known(number),
            None => Value::Computed(self),
        }
    }

    /// Abstract `self + addend`. Nothing that is known of `self` is lost if 0 is added.
    #[tactic(auto, using(crate::proofs::Bits::sum_with_zero))]
    pub(crate) fn plus(self, addend: u32) -> Computed
        ensures { (a : ℕ) → IsComputedNumber self a → IsComputedNumber result ((a + addend) % 2 ^ 32) }
    {
        if addend == 0 {
            return self;
        }
        self.combined(Arithmetic::Add, Computed::constant(addend))
    }

    /// Abstract `self * factor`. Nothing that is known of `self` is lost if the factor is 1.
    #[tactic(auto, using(crate::proofs::Bits::product_with_one))]
    pub(crate) fn times(self, factor: u32) -> Computed
        ensures { (a : ℕ) → IsComputedNumber self a → IsComputedNumber result (a * factor % 2 ^ 32) }
    {
        if factor == 1 {
            return self;
        }
        self.combined(Arithmetic::Mul, Computed::constant(factor))
    }

    /// Abstract `self / divisor`. Nothing that is known of `self` is lost if the divisor is 1.
    #[tactic(auto, using(crate::proofs::Bits::quotient_by_one))]
    pub(crate) fn over(self, divisor: u32) -> Computed
        ensures { (a : ℕ) → IsComputedNumber self a → IsComputedNumber result (a / divisor) }
    {
        if divisor == 1 {
            return self;
        }
        self.combined(Arithmetic::Div, Computed::constant(divisor))
    }

    /// Abstract `self op other`.
    #[tactic(auto, using(crate::proofs::Bits::computed_fits))]
    pub(crate) fn combined(self, arithmetic: Arithmetic, other: Computed) -> Computed
        ensures { (a v : ℕ) → IsComputedNumber self a → IsComputedNumber other v
            → IsComputedNumber result (value_computed arithmetic a v) }
    {
        let bits = known_result(arithmetic, self.bits, other.bits);
        let guiding = self.sources.guiding(other.sources);
        let sources = match arithmetic {
            Arithmetic::Add | Arithmetic::Sub | Arithmetic::Mul => guiding.moved(0),
            Arithmetic::Lsh if other.number().is_some() => guiding.moved(0),
            Arithmetic::Lsh | Arithmetic::Div => guiding.moved(u32::BITS),
            Arithmetic::Rsh => guiding.moved(other.number().unwrap_or(u32::BITS)),
            Arithmetic::And | Arithmetic::Or | Arithmetic::Xor => self.sources.and(other.sources),
        };
        Computed {
            bits,
            sources: sources.changing(!bits.mask),
        }
    }
}
