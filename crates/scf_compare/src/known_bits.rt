//! Known bits: what is known bit by bit of the operands of a computation or a test, and of its outcome.

ghost use Rattle.std.specs.Prelude.{◌≡◌, ◌==◌, ◌<◌, ◌≤◌, ◌^◌, ◌-◌, ◌*◌, ◌/◌, ◌%◌, ◌+◌, ℕ, Bool, not, bit_and};
ghost use Rattle.std.specs.Prelude.{List, IfSome, IsSome, IsTrue, ◌↔◌, bit_or, bit_xor, nat_lt, slice_index};
ghost use Rattle.scf_facts.specs.Bits.{FixesNumber, HasBits};
ghost use Rattle.scf_machine.specs.Machine.{holds, value_computed};
ghost use Rattle.scf_compare.specs.internal.KnownBits.{HasResult, IsLowEnd};

use crate::fixed_bits::WordBit;
use scf_facts::{Bits, Tell, WordFacts};
use scf_insn::{Arithmetic, Test, low_half};
use scf_machine::{compute, holds_of};

/// The bits that a word has in every list that the store allows: those that the store knows at once, and those that it
/// tells one by one.
#[tactic(auto, using(crate::proofs::BitSets::power_at))]
pub(crate) fn told_bits<F: WordFacts>(facts: &F, word: u8) -> Bits
    requires { word < 16 }
    ensures { (words : List ℕ) → F.allows facts.now (F.level facts.now) words
        → HasBits result (slice_index words word) }
{
    let mut bits = facts.known_bits(word);
    for index in 0..u32::BITS {
        let mask = 1 << index;
        if bits.mask & mask == 0 {
            let bit = WordBit { word, mask };
            bits = match facts.tell(bit.is_set()) {
                Tell::Always => bits.union(bit.as_bits(true)),
                Tell::Never => bits.union(bit.as_bits(false)),
                Tell::Maybe => bits,
            };
        }
    }
    bits
}

/// The bits that `first op second` is known to have: all, if those of both are. Nothing is known of a division by what
/// may be 0 and of a shift by what may be 32 or more.
#[tactic(auto, using(crate::proofs::KnownBits::result_laws))]
pub(crate) fn known_result(arithmetic: Arithmetic, first: Bits, second: Bits) -> Bits
    ensures within { bit_and result.value result.mask ≡ result.value }
    ensures stands { (x y : ℕ) → x < 2 ^ 32 → y < 2 ^ 32 → HasBits first x → HasBits second y
        → HasBits result (value_computed arithmetic x y) }
    ensures folded { FixesNumber first → FixesNumber second → HasResult arithmetic second.value → FixesNumber result }
{
    if has_result(arithmetic, first, second) {
        return Bits {
            mask: u32::MAX,
            value: compute(arithmetic, first.value, second.value),
        };
    }
    result_by_bits(arithmetic, first, second)
}

/// The bits that `first op second` is known to have, bit by bit.
#[tactic(auto, using(crate::proofs::KnownBits::result_laws))]
fn result_by_bits(arithmetic: Arithmetic, first: Bits, second: Bits) -> Bits
    ensures within { bit_and result.value result.mask ≡ result.value }
    ensures stands { (x y : ℕ) → x < 2 ^ 32 → y < 2 ^ 32 → HasBits first x → HasBits second y
        → HasBits result (value_computed arithmetic x y) }
{
    match arithmetic {
        Arithmetic::Add => sum_bits(first, second),
        Arithmetic::Sub => inverted(sum_bits(inverted(first), second)),
        Arithmetic::Mul => product_bits(first, second),
        Arithmetic::Div => quotient_bits(first, second),
        Arithmetic::Or => or_bits(first, second),
        Arithmetic::And => and_bits(first, second),
        Arithmetic::Lsh if is_count(second) => left_bits(first, second.value),
        Arithmetic::Rsh if is_count(second) => right_bits(first, second.value),
        Arithmetic::Lsh | Arithmetic::Rsh => Bits::NONE,
        Arithmetic::Xor => xor_bits(first, second),
    }
}

/// Whether both operands are known, and it is no division by 0 and no shift by 32 or more.
fn has_result(arithmetic: Arithmetic, first: Bits, second: Bits) -> bool
    ensures { IsTrue result ↔ (FixesNumber first × FixesNumber second × HasResult arithmetic second.value) }
{
    are_numbers(first, second)
        && match arithmetic {
            Arithmetic::Div => second.value != 0,
            Arithmetic::Lsh | Arithmetic::Rsh => is_count(second),
            _ => true,
        }
}

/// Whether all bits of both are known.
fn are_numbers(first: Bits, second: Bits) -> bool
    ensures { IsTrue result ↔ (FixesNumber first × FixesNumber second) }
{
    first.mask == u32::MAX && second.mask == u32::MAX
}

/// Whether these are all bits of a number below 32.
fn is_count(bits: Bits) -> bool
    ensures { IsTrue result ↔ (FixesNumber bits × (bits.value < 32)) }
{
    bits.mask == u32::MAX && bits.value < u32::BITS
}

/// The outcome of the test of a value against another, if their known bits decide it: always, if all are known.
#[tactic(auto, using(crate::proofs::Bits::fixed, std::proofs::lemmas::Nat::and_le_l))]
pub(crate) fn known_outcome(test: Test, first: Bits, second: Bits) -> Option<bool>
    ensures stands { (x y : ℕ) → x < 2 ^ 32 → y < 2 ^ 32 → HasBits first x → HasBits second y
        → IfSome result (λ outcome. holds test x y ≡ outcome) }
    ensures folded { FixesNumber first → FixesNumber second → IsSome result }
{
    if are_numbers(first, second) {
        return Some(holds_of(test, first.value, second.value));
    }
    match test {
        Test::Equal => is_zero(xor_bits(first, second)),
        Test::CommonBit => is_zero(and_bits(first, second)).map(|is_zero| !is_zero),
        Test::Greater => is_above(first, second),
        Test::GreaterOrEqual => is_above(second, first).map(|is_above| !is_above),
    }
}

/// Whether a value with these bits is 0, if they show it.
fn is_zero(bits: Bits) -> Option<bool>
    ensures { (x : ℕ) → x < 2 ^ 32 → HasBits bits x → IfSome result (λ zero. (x == 0) ≡ zero) }
{
    if bits.value != 0 {
        Some(false)
    } else if bits.mask == u32::MAX {
        Some(true)
    } else {
        None
    }
}

/// Whether a value is above another, if their bits show it.
#[tactic(auto, using(crate::proofs::KnownBits::value_least))]
fn is_above(first: Bits, second: Bits) -> Option<bool>
    ensures { (x y : ℕ) → x < 2 ^ 32 → y < 2 ^ 32 → HasBits first x → HasBits second y
        → IfSome result (λ above. nat_lt y x ≡ above) }
{
    if first.value > greatest(second) {
        Some(true)
    } else if greatest(first) <= second.value {
        Some(false)
    } else {
        None
    }
}

/// The greatest value with these bits. The least one is `bits.value`.
#[tactic(auto, using(crate::proofs::KnownBits::within_greatest, std::proofs::lemmas::Nat::le_or_l))]
fn greatest(bits: Bits) -> u32
    ensures number { result ≡ bit_or bits.value (2 ^ 32 - 1 - bits.mask) }
    ensures least { bits.value ≤ result }
    ensures most { (x : ℕ) → x < 2 ^ 32 → HasBits bits x → x ≤ result }
{
    bits.value | !bits.mask
}

/// The known bits of `first & second`.
#[tactic(auto, using(crate::proofs::KnownBits::bit_laws))]
pub(crate) fn and_bits(first: Bits, second: Bits) -> Bits
    ensures within { bit_and result.value result.mask ≡ result.value }
    ensures stands { (x y : ℕ) → HasBits first x → HasBits second y → HasBits result (bit_and x y) }
{
    let zeros = (first.mask ^ first.value) | (second.mask ^ second.value);
    Bits::of(
        first.value & second.value,
        (first.mask & second.mask) | zeros,
    )
}

/// The known bits of `first | second`.
#[tactic(auto, using(crate::proofs::KnownBits::bit_laws))]
fn or_bits(first: Bits, second: Bits) -> Bits
    ensures within { bit_and result.value result.mask ≡ result.value }
    ensures stands { (x y : ℕ) → HasBits first x → HasBits second y → HasBits result (bit_or x y) }
{
    let ones = first.value | second.value;
    Bits::of(ones, (first.mask & second.mask) | ones)
}

/// The known bits of `first ^ second`.
#[tactic(auto, using(crate::proofs::KnownBits::bit_laws))]
fn xor_bits(first: Bits, second: Bits) -> Bits
    ensures within { bit_and result.value result.mask ≡ result.value }
    ensures stands { (x y : ℕ) → HasBits first x → HasBits second y → HasBits result (bit_xor x y) }
{
    Bits::of(first.value ^ second.value, first.mask & second.mask)
}

/// The known bits of `bits << count`.
#[tactic(auto, using(crate::proofs::KnownBits::bit_laws))]
pub(crate) fn left_bits(bits: Bits, count: u32) -> Bits
    requires { count < 32 }
    ensures within { bit_and result.value result.mask ≡ result.value }
    ensures stands { (x : ℕ) → HasBits bits x → HasBits result (x * 2 ^ count % 2 ^ 32) }
{
    let shifted = Bits::of(bits.value << count, bits.mask << count);
    shifted.union(Bits::of(0, (1 << count) - 1))
}

/// The known bits of `bits >> count`.
#[tactic(auto, using(crate::proofs::KnownBits::bit_laws))]
pub(crate) fn right_bits(bits: Bits, count: u32) -> Bits
    requires { count < 32 }
    ensures within { bit_and result.value result.mask ≡ result.value }
    ensures stands { (x : ℕ) → x < 2 ^ 32 → HasBits bits x → HasBits result (x / 2 ^ count) }
{
    let shifted = Bits::of(bits.value >> count, bits.mask >> count);
    shifted.union(Bits::between(0, u32::MAX >> count))
}

/// The known bits of `!x`, given those of `x`.
#[tactic(auto, using(crate::proofs::KnownBits::bit_laws))]
fn inverted(bits: Bits) -> Bits
    ensures within { bit_and result.value result.mask ≡ result.value }
    ensures stands { (x : ℕ) → x < 2 ^ 32 → HasBits bits x → HasBits result (2 ^ 32 - 1 - x) }
{
    Bits::of(!bits.value, bits.mask)
}

/// The known bits of `first + second` modulo 2^32: those of both into which the least numbers carry what the greatest
/// ones do, and the leading bits that all sums have.
#[tactic(auto, using(crate::proofs::KnownBits::sum_laws))]
fn sum_bits(first: Bits, second: Bits) -> Bits
    ensures within { bit_and result.value result.mask ≡ result.value }
    ensures stands { (x y : ℕ) → x < 2 ^ 32 → y < 2 ^ 32 → HasBits first x → HasBits second y
        → HasBits result ((x + y) % 2 ^ 32) }
{
    let least = u64::from(first.value) + u64::from(second.value);
    let most = u64::from(greatest(first)) + u64::from(greatest(second));
    let carried = !(low_half(least) ^ low_half(most));
    let both = Bits::of(low_half(least), first.mask & second.mask & carried);
    both.union(leading_bits(least, most))
}

/// The known bits of `first * second` modulo 2^32.
fn product_bits(first: Bits, second: Bits) -> Bits
    ensures within { bit_and result.value result.mask ≡ result.value }
    ensures stands { (x y : ℕ) → x < 2 ^ 32 → y < 2 ^ 32 → HasBits first x → HasBits second y
        → HasBits result (x * y % 2 ^ 32) }
{
    let least = u64::from(first.value) * u64::from(second.value);
    let most = u64::from(greatest(first)) * u64::from(greatest(second));
    both_ends(first.mask & second.mask, least, most)
}

/// The known bits of `first / second`: none if the divisor may be 0.
fn quotient_bits(first: Bits, second: Bits) -> Bits
    ensures within { bit_and result.value result.mask ≡ result.value }
    ensures stands { (x y : ℕ) → x < 2 ^ 32 → y < 2 ^ 32 → HasBits first x → HasBits second y
        → HasBits result (x / y) }
{
    if second.value == 0 {
        return Bits::NONE;
    }
    Bits::between(
        first.value / greatest(second),
        greatest(first) / second.value,
    )
}

/// The known bits modulo 2^32 of a number `least..=greatest` that has the low bits of `least`, from bit 0 up to the
/// first one that the mask lacks: these, and the leading bits that all such numbers have, unless only some wrap.
#[tactic(auto, using(crate::proofs::KnownBits::bit_laws))]
fn both_ends(mask: u32, least: u64, greatest: u64) -> Bits
    ensures within { bit_and result.value result.mask ≡ result.value }
    ensures stands { (n : ℕ) → least ≤ n → n ≤ greatest → IsLowEnd mask least n → HasBits result (n % 2 ^ 32) }
{
    let low = low_half((1 << mask.trailing_ones()) - 1);
    Bits::of(low_half(least), low).union(leading_bits(least, greatest))
}

/// The leading bits modulo 2^32 that all numbers `least..=greatest` have, unless only some of them wrap.
fn leading_bits(least: u64, greatest: u64) -> Bits
    ensures within { bit_and result.value result.mask ≡ result.value }
    ensures stands { (n : ℕ) → least ≤ n → n ≤ greatest → HasBits result (n % 2 ^ 32) }
{
    if least >> 32 != greatest >> 32 {
        return Bits::NONE;
    }
    Bits::between(low_half(least), low_half(greatest))
}
