//! The search for a value without refuted bits.

ghost use Rattle.std.specs.Prelude.{◌≡◌, ◌+◌, ◌<◌, ◌≤◌, ◌^◌, ℕ, All, IsTrue, false, IfSome, IfNone, bit_or, count_ones};
ghost use Rattle.scf_facts.specs.Bits.{HasBits, LacksBits};
ghost use Rattle.scf_facts.specs.Masks.{IsAmong};
ghost use Rattle.scf_facts.specs.internal.Searches.{IsSearchOf};
ghost use Rattle.scf_facts.specs.Intervals.{LiesInOne};
ghost use Rattle.scf_facts.specs.internal.Bits.{SomeLack};
ghost use Rattle.scf_facts.specs.internal.Intervals.{AreApart};

use crate::bits::Bits;
use crate::interval::Interval;
use crate::least::first_number;

/// The result of a search for a value.
#[derive(Clone, Copy)]
pub(crate) enum Searched {
    /// Found.
    Found(u32),
    /// There is none.
    Nothing,
    /// Unknown: the tries ran out.
    GaveUp,
}

/// Looks in intervals for a value with the known bits, the further bits, and none of the refuted ones.
///
/// If the least value with the bits has refuted ones, a value without them lacks one of their bits: the search goes on
/// without the lowest one that isn't fixed yet, and then with it. Each such choice uses one of the remaining tries.
pub(crate) fn free_number(
    intervals: &[Interval],
    refuted: &[Bits],
    known: Bits,
    more: Bits,
    tries: &mut u32,
) -> Searched
    requires { AreApart intervals.now }
    ensures found { (x : ℕ) → result ≡ Searched.Found x
        → LiesInOne intervals.now x × HasBits known x × HasBits more x × All (λ bits. LacksBits bits x) refuted.now }
    ensures nothing { result ≡ Searched.Nothing → (x : ℕ) → x < 2 ^ 32
        → LiesInOne intervals.now x → HasBits known x → HasBits more x → All (λ bits. LacksBits bits x) refuted.now
        → ⊥ }
    ensures gave_up { result ≡ Searched.GaveUp → tries.new ≡ 0 }
    ensures fewer { tries.new ≤ tries.old }
    ensures ends { (masks count : ℕ) → All (λ bits. IsAmong bits.mask masks) refuted.now
        → let fixed = bit_or known.mask more.mask in
        count_ones (bit_or masks fixed) ≤ count + count_ones fixed → IsSearchOf count tries.old result tries.new }
{
    let Some(bits) = known.join(more) else {
        return Searched::Nothing;
    };
    let Some(x) = first_number(intervals, Interval::ALL, bits) else {
        return Searched::Nothing;
    };
    let Some(had) = refuted_in(refuted, x) else {
        return Searched::Found(x);
    };
    let Some(bit) = had.beyond(bits).lowest() else {
        return Searched::Nothing;
    };
    if *tries == 0 {
        return Searched::GaveUp;
    }
    *tries -= 1;
    match free_number(intervals, refuted, bits, bit.flipped(), tries) {
        Searched::Nothing => free_number(intervals, refuted, bits, bit, tries),
        answer => answer,
    }
}

/// Whether every value with these bits has the same refuted ones.
pub(crate) fn refutes(refuted: &[Bits], bits: Bits) -> bool
    ensures each { IsTrue result → (x : ℕ) → HasBits bits x → All (λ other. LacksBits other x) refuted.now → ⊥ }
    ensures some { result ≡ false → HasBits bits bits.value → All (SomeLack bits) refuted.now }
{
    refuted.iter().any(|other| bits.imply(*other))
}

/// The first of the refuted bits that the value has.
pub(crate) fn refuted_in(refuted: &[Bits], x: u32) -> Option<Bits>
    ensures some { IfSome result (λ bits. HasBits bits x) }
    ensures one { IfSome result (λ bits. (y : ℕ) → All (λ other. LacksBits other y) refuted.now → LacksBits bits y) }
    ensures among { IfSome result (λ bits. (masks : ℕ)
        → All (λ other. IsAmong other.mask masks) refuted.now → IsAmong bits.mask masks) }
    ensures none { IfNone result (All (λ bits. LacksBits bits x) refuted.now) }
{
    refuted.iter().find(|bits| bits.are_in(x)).copied()
}
