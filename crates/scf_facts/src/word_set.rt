//! What is known of one word.

ghost use Rattle.std.specs.Prelude.{◌≡◌, ◌↔◌, ◌⊎◌, ◌<◌, ◌≤◌, ◌^◌, ℕ, All, IsTrue, true, false, bit_and, bit_or};
ghost use Rattle.std.specs.Prelude.{IsSome, IfSome, IfNone, IfOk};
ghost use Rattle.std.specs.Int.{IsPowerOfTwo};
ghost use Rattle.scf_facts.specs.Atoms.{answer_at};
ghost use Rattle.scf_facts.specs.Bits.{HasBits, LacksBits};
ghost use Rattle.scf_facts.specs.Exactness.{KeepsExact};
ghost use Rattle.scf_facts.specs.Intervals.{LiesIn, LiesInOne};
ghost use Rattle.scf_facts.specs.Masks.{AreFew, IsAmong, KeepsAmong, RefutesAmong};
ghost use Rattle.scf_facts.specs.WordSets.{AllowsNumber};
ghost use Rattle.scf_facts.specs.internal.Intervals.{AreApart};
ghost use Rattle.scf_facts.specs.internal.WordSets.{EachNumber, SomeNumber, is_exact_set, no_facts};

use crate::atom::{Atom, Tell};
use crate::bits::Bits;
use crate::free_number::{Searched, free_number, refuted_in, refutes};
use crate::interval::Interval;
use crate::intervals::{end_outside, hull, lies_in_one, parts_outside, parts_within};
use crate::least::first_number;
use crate::query::Query;
use scf_insn::Memory;
use std::alloc::Global;
use std::marker::Model;

/// A search for a value tries all values of the refuted bits, if these are at most so many.
const MOST_BITS: u32 = 16;

/// How many choices of a bit it makes at most, if they are more.
const MOST_TRIES: u32 = 256;

/// The values that a word may have: those in the intervals with the known bits and none of the refuted ones.
///
/// Refuted bits have at least two bits in their mask: refuting a single bit makes its other value known.
#[derive(Drop)]
pub struct WordSet {
    intervals: Vec<Interval>,
    known: Bits,
    refuted: Vec<Bits>,
}

impl Model for WordSet {
    ghost use Rattle.scf_facts.specs.internal.Intervals.{AreApart};
    ghost use Rattle.scf_facts.specs.WordSets.{NumberFacts};

    ghost Value = { NumberFacts };

    ghost view = { λ s. record { intervals = s.intervals.items; known = s.known; refuted = s.refuted.items } };

    ghost invariant = { λ s. AreApart s.intervals.items };
}

impl WordSet {
    /// Every value.
    pub(crate) fn new(alloc: Global) -> Result<WordSet, Memory>
        ensures { IfOk result (λ set. set ≡ no_facts) }
    {
        Ok(WordSet {
            intervals: Vec::from_slice(alloc, &[Interval::ALL])?,
            known: Bits::NONE,
            refuted: Vec::new(alloc),
        })
    }

    /// The values for which an atom that asks of them has this answer.
    pub(crate) fn learn(&self, alloc: Global, atom: Atom, holds: bool) -> Result<WordSet, Memory>
        ensures learned { IfOk result (λ kept. (x : ℕ) → x < 2 ^ 32
            → AllowsNumber kept x ↔ (AllowsNumber self.now x × (answer_at atom x ≡ holds))) }
        ensures exact { IfOk result (λ kept. KeepsExact atom holds
            → IsTrue (is_exact_set self.now) → IsTrue (is_exact_set kept)) }
        ensures among { IfOk result (λ kept. (masks : ℕ) → KeepsAmong masks atom holds
            → RefutesAmong masks self.now → RefutesAmong masks kept) }
    {
        match Query::of(atom) {
            Query::Within { range, answer } if answer == holds => {
                let kept = parts_within(alloc, &self.intervals, range)?;
                Ok(self.with_intervals(alloc, kept)?)
            }
            Query::Within { range, .. } => {
                let kept = parts_outside(alloc, &self.intervals, range)?;
                Ok(self.with_intervals(alloc, kept)?)
            }
            Query::Masked(bits) if holds => self.with_bits(alloc, bits),
            Query::Masked(bits) => self.without_bits(alloc, bits),
        }
    }

    /// What is known, with these intervals.
    fn with_intervals(&self, alloc: Global, intervals: Vec<Interval>) -> Result<WordSet, Memory>
        requires { AreApart intervals.items }
        ensures { IfOk result (λ set. set ≡ record self.now { intervals = intervals.items }) }
    {
        Ok(WordSet {
            intervals,
            known: self.known,
            refuted: Vec::from_slice(alloc, &self.refuted)?,
        })
    }

    /// A copy of what is known.
    fn copy(&self, alloc: Global) -> Result<WordSet, Memory>
        ensures { IfOk result (λ set. set ≡ self.now) }
    {
        self.with_intervals(alloc, Vec::from_slice(alloc, &self.intervals)?)
    }

    /// The values with the bits.
    fn with_bits(&self, alloc: Global, bits: Bits) -> Result<WordSet, Memory>
        ensures kept { IfOk result (λ kept. (x : ℕ)
            → AllowsNumber kept x ↔ (AllowsNumber self.now x × HasBits bits x)) }
        ensures refuted { IfOk result (λ kept. kept.refuted ≡ self.now.refuted) }
    {
        let Some(known) = self.known.join(bits) else {
            return self.with_intervals(alloc, Vec::new(alloc));
        };
        let mut kept = self.copy(alloc)?;
        kept.known = known;
        Ok(kept)
    }

    /// The values without the bits.
    #[tactic(auto, using(crate::proofs::MaskLaws::is_one))]
    fn without_bits(&self, alloc: Global, bits: Bits) -> Result<WordSet, Memory>
        ensures kept { IfOk result (λ kept. (x : ℕ)
            → AllowsNumber kept x ↔ (AllowsNumber self.now x × LacksBits bits x)) }
        ensures refuted { IfOk result (λ kept. (bits.mask ≡ 0) ⊎ IsPowerOfTwo bits.mask
            → kept.refuted ≡ self.now.refuted) }
        ensures among { IfOk result (λ kept. (masks : ℕ)
            → (bits.mask ≡ 0) ⊎ IsPowerOfTwo bits.mask ⊎ IsAmong bits.mask masks
            → RefutesAmong masks self.now → RefutesAmong masks kept) }
    {
        let Some(_) = self.known.join(bits) else {
            return self.copy(alloc);
        };
        let open = bits.beyond(self.known);
        if open.mask == 0 {
            return self.with_intervals(alloc, Vec::new(alloc));
        }
        if open.mask.is_power_of_two() {
            return self.with_bits(alloc, open.flipped());
        }
        let mut kept = self.copy(alloc)?;
        kept.refuted.push(bits)?;
        Ok(kept)
    }

    /// The atom's answer for every value, if it is known.
    pub(crate) fn tell(&self, atom: Atom) -> Tell
        ensures always { result ≡ Tell.Always → EachNumber self.now (λ x. answer_at atom x ≡ true) }
        ensures never { result ≡ Tell.Never → EachNumber self.now (λ x. answer_at atom x ≡ false) }
        ensures both { result ≡ Tell.Maybe → IsTrue (is_exact_set self.now)
            → SomeNumber self.now (λ x. answer_at atom x ≡ true) × SomeNumber self.now (λ x. answer_at atom x ≡ false) }
    {
        if let Some(only) = self.only_value() {
            return Tell::of(atom.answer(only));
        }
        match Query::of(atom) {
            Query::Within { range, answer } => {
                if self.has_none(range, self.known) {
                    Tell::of(!answer)
                } else if self.has_none_outside(range) {
                    Tell::of(answer)
                } else {
                    Tell::Maybe
                }
            }
            Query::Masked(bits) => {
                if self.has_none_with(bits) {
                    Tell::Never
                } else if self.has_none_without(bits) {
                    Tell::Always
                } else {
                    Tell::Maybe
                }
            }
        }
    }

    /// The only value that the intervals leave, if they leave just one.
    fn only_value(&self) -> Option<u32>
        ensures { IfSome result (λ only. EachNumber self.now (λ x. x ≡ only)) }
    {
        match self.intervals.as_slice() {
            [only] if only.low == only.high => Some(only.low),
            _ => None,
        }
    }

    /// The bits that every value is known to have. Refuted bits aren't used.
    #[tactic(auto, using(crate::proofs::CommonBits::kept_bits))]
    pub(crate) fn known_bits(&self) -> Bits
        ensures within { bit_and result.value result.mask ≡ result.value }
        ensures known { EachNumber self.now (HasBits result) }
    {
        if let Some(only) = self.only_value() {
            return Bits::of(only, u32::MAX);
        }
        let known = Bits::of(self.known.value, self.known.mask);
        match hull(&self.intervals) {
            Some(hull) => known.union(Bits::between(hull.low, hull.high)),
            None => known,
        }
    }

    /// The bits of all refuted masks.
    #[tactic(auto, using(crate::proofs::MaskLaws::join_among))]
    pub(crate) fn refuted_bits(&self) -> u32
        ensures { (masks : ℕ) → RefutesAmong masks self.now → IsAmong result masks }
    {
        let mut mask = 0;
        for bits in &self.refuted {
            mask |= bits.mask;
        }
        mask
    }

    /// Whether every value is known to have the bits.
    fn has_none_without(&self, bits: Bits) -> bool
        requires within { bit_and bits.value bits.mask ≡ bits.value }
        ensures all { IsTrue result → EachNumber self.now (HasBits bits) }
        ensures some { result ≡ false → IsTrue (is_exact_set self.now) → SomeNumber self.now (LacksBits bits) }
    {
        let Some(bit) = bits.lowest() else {
            return true;
        };
        self.has_none_with(bit.flipped()) && self.has_none_without(bits.beyond(bit))
    }

    /// Whether it is known that no value lies in the range and has the bits.
    fn has_none(&self, range: Interval, bits: Bits) -> bool
        ensures none { IsTrue result → EachNumber self.now (λ x. LiesIn range x → LacksBits bits x) }
        ensures some { result ≡ false → (x : ℕ) × LiesInOne self.now.intervals x × LiesIn range x × HasBits bits x }
    {
        refutes(&self.refuted, bits) || first_number(&self.intervals, range, bits).is_none()
    }

    /// Whether no value has these bits beside the known ones.
    fn has_none_with(&self, bits: Bits) -> bool
        ensures none { IsTrue result → EachNumber self.now (LacksBits bits) }
        ensures some { result ≡ false → IsTrue (is_exact_set self.now) → SomeNumber self.now (HasBits bits) }
    {
        match self.known.join(bits) {
            Some(joined) => self.has_none(Interval::ALL, joined),
            None => true,
        }
    }

    /// Whether no value lies outside the range.
    fn has_none_outside(&self, range: Interval) -> bool
        ensures all { IsTrue result → EachNumber self.now (LiesIn range) }
        ensures some { result ≡ false → IsTrue (is_exact_set self.now) → SomeNumber self.now (λ x. LiesIn range x → ⊥) }
    {
        if let Some(end) = end_outside(&self.intervals, range) {
            if self.known.are_in(end) {
                return false;
            }
        }
        (range.low == 0
            || self.has_none(
                Interval {
                    low: 0,
                    high: range.low - 1,
                },
                self.known,
            ))
            && (range.high == u32::MAX
                || self.has_none(
                    Interval {
                        low: range.high + 1,
                        high: u32::MAX,
                    },
                    self.known,
                ))
    }

    /// Whether the word is known to have no value.
    pub(crate) fn is_empty(&self) -> bool
        ensures empty { IsTrue result → EachNumber self.now (λ _. ⊥) }
        ensures some { IsTrue (is_exact_set self.now) → result ≡ false
            → (x : ℕ) × (x < 2 ^ 32) × AllowsNumber self.now x }
        ensures some_among { (masks : ℕ) → AreFew masks → RefutesAmong masks self.now → result ≡ false
            → (x : ℕ) × (x < 2 ^ 32) × AllowsNumber self.now x }
    {
        self.has_none(Interval::ALL, self.known) || matches!(self.free_number(), Searched::Nothing)
    }

    /// The intervals that the values lie in, in order and apart.
    pub fn intervals(&self) -> &[Interval]
        ensures { result.now ≡ self.now.intervals }
    {
        &self.intervals
    }

    /// The bits that every value has.
    pub fn known(&self) -> Bits
        ensures { result ≡ self.now.known }
    {
        self.known
    }

    /// Bits that no value has.
    pub fn refuted(&self) -> &[Bits]
        ensures { result.now ≡ self.now.refuted }
    {
        &self.refuted
    }

    /// Whether the word may have this value.
    pub(crate) fn allows(&self, x: u32) -> bool
        ensures { IsTrue result ↔ AllowsNumber self.now x }
    {
        self.known.are_in(x)
            && refuted_in(&self.refuted, x).is_none()
            && lies_in_one(&self.intervals, x)
    }

    /// A possible value, if one is found; the least one, if no bits are refuted.
    pub(crate) fn pick(&self) -> Option<u32>
        ensures allowed { IfSome result (λ x. AllowsNumber self.now x) }
        ensures found { IsTrue (is_exact_set self.now)
            → (x : ℕ) → x < 2 ^ 32 → AllowsNumber self.now x → IsSome result }
        ensures found_among { (masks : ℕ) → AreFew masks → RefutesAmong masks self.now
            → (x : ℕ) → x < 2 ^ 32 → AllowsNumber self.now x → IsSome result }
    {
        let first = first_number(&self.intervals, Interval::ALL, self.known)?;
        if refuted_in(&self.refuted, first).is_none() {
            return Some(first);
        }
        if let Some(end) = self.pick_end() {
            return Some(end);
        }
        if let Some(number) = self.pick_by_bits() {
            return Some(number);
        }
        match self.free_number() {
            Searched::Found(number) => Some(number),
            Searched::Nothing | Searched::GaveUp => None,
        }
    }

    /// A possible value at an end of an interval.
    fn pick_end(&self) -> Option<u32>
        ensures allowed { IfSome result (λ x. AllowsNumber self.now x) }
        ensures none { IfNone result (All (λ interval. (AllowsNumber self.now interval.low → ⊥)
            × (AllowsNumber self.now interval.high → ⊥)) self.now.intervals) }
    {
        for interval in &self.intervals {
            if self.allows(interval.low) {
                return Some(interval.low);
            }
            if self.allows(interval.high) {
                return Some(interval.high);
            }
        }
        None
    }

    /// A possible value among the known bits' value and that value with one further bit.
    fn pick_by_bits(&self) -> Option<u32>
        ensures allowed { IfSome result (λ x. AllowsNumber self.now x) }
        ensures none { IfNone result (AllowsNumber self.now self.now.known.value → ⊥) }
        ensures none_of_bits { IfNone result ((index : ℕ) → index < 32
            → AllowsNumber self.now (bit_or self.now.known.value (2 ^ index)) → ⊥) }
    {
        if self.allows(self.known.value) {
            return Some(self.known.value);
        }
        for index in 0..u32::BITS {
            let x = self.known.value | 1 << index;
            if self.allows(x) {
                return Some(x);
            }
        }
        None
    }

    /// How many choices of a bit a search for a value may make.
    #[tactic(auto, using(crate::proofs::Ones::fewer_ones))]
    fn most_tries(&self) -> u32
        ensures { (masks : ℕ) → AreFew masks → RefutesAmong masks self.now → 2 ^ 16 ≤ result }
    {
        if self.refuted_bits().count_ones() <= MOST_BITS {
            1 << MOST_BITS
        } else {
            MOST_TRIES
        }
    }

    /// Searches a possible value bit by bit.
    fn free_number(&self) -> Searched
        ensures found { (x : ℕ) → result ≡ Searched.Found x → AllowsNumber self.now x }
        ensures fits { (x : ℕ) → result ≡ Searched.Found x → x < 2 ^ 32 }
        ensures nothing { result ≡ Searched.Nothing → EachNumber self.now (λ _. ⊥) }
        ensures ends { (masks : ℕ) → AreFew masks → RefutesAmong masks self.now → result ≡ Searched.GaveUp → ⊥ }
    {
        let mut tries = self.most_tries();
        free_number(
            &self.intervals,
            &self.refuted,
            self.known,
            Bits::NONE,
            &mut tries,
        )
    }
}
