//! What is known of an argument, and which conditions that refutes.

ghost use Rattle.std.specs.Prelude.{◌≡◌, ◌+◌, ◌<◌, ◌≤◌, ℕ, List, IfSome, IsTrue, length};
ghost use Rattle.std.specs.List.{AllWithin};
ghost use Rattle.scf_facts.specs.Bits.{LacksBits};
ghost use Rattle.scf_insn.specs.Architectures.{taken_of};
ghost use Rattle.scf_insn.specs.Kernel.{seccomp_data_args};
ghost use Rattle.scf_insn.specs.Words.{IsWords, argument, call_of};
ghost use Rattle.scf_profile.specs.NumberRules.{AreRising, first_value};
ghost use Rattle.scf_compare.specs.internal.KnownArguments.{HasHalves, IsRefuted};

use scf_facts::{Bits, WordFacts};
use scf_insn::{ArgumentBits, high_half, low_half};
use scf_profile::{Operator, Rule};

/// What is known of the halves of an argument.
#[derive(Clone, Copy)]
pub(crate) struct KnownArgument {
    index: u8,
    high: Bits,
    low: Bits,
}

impl KnownArgument {
    /// What the store knows of an argument. The high half of one of 32 bits is 0.
    pub(crate) fn of<F: WordFacts>(facts: &F, bits: ArgumentBits, index: u8) -> KnownArgument
        requires { index < seccomp_data_args }
        ensures index { result.index ≡ index }
        ensures known { (words : List ℕ) → IsWords words → F.allows facts.now (F.level facts.now) words
            → HasHalves result (taken_of bits (argument (call_of words) index)) }
    {
        let low = 2 * index + 4;
        let high = match bits {
            ArgumentBits::Bits32 => Bits::of(0, u32::MAX),
            ArgumentBits::Bits64 => facts.known_bits(low + 1),
        };
        KnownArgument {
            index,
            high,
            low: facts.known_bits(low),
        }
    }

    /// Up to which value the argument has none, from this one on, and how many questions about halves tell that of
    /// each; if it isn't known to have this one.
    fn lacks(&self, value: u64) -> Option<(u64, u64)>
        ensures few { IfSome result (λ lacking. lacking.1 ≤ 2) }
        ensures from { IfSome result (λ lacking. value ≤ lacking.0) }
        ensures apart { IfSome result (λ lacking. (n : ℕ) → HasHalves self.now n
            → value ≤ n → n ≤ lacking.0 → ⊥) }
    {
        let (high, low) = (high_half(value), low_half(value));
        if high & self.high.mask != self.high.value {
            let last = last_lacking(self.high, high);
            Some((u64::from(last) * HALVES + u64::from(u32::MAX), 1))
        } else if self.high.mask == u32::MAX && low & self.low.mask != self.low.value {
            let last = last_lacking(self.low, low);
            Some((u64::from(high) * HALVES + u64::from(last), 2))
        } else {
            None
        }
    }

    /// How many rules from one on aren't met, since their first conditions want other values of this argument, and how
    /// many questions about halves tell that of each. Of rules whose values rise these are many at once.
    pub(crate) fn refutes(
        &self,
        rules: &[Rule],
        from: usize,
        are_rising: bool,
    ) -> Option<(usize, u64)>
        requires inside { from < length rules.now }
        requires rising { IsTrue are_rising → AreRising rules.now }
        ensures some { IfSome result (λ run. 0 < run.0) }
        ensures inside { IfSome result (λ run. from + run.0 ≤ length rules.now) }
        ensures few { IfSome result (λ run. run.1 ≤ 2) }
        ensures refuted { IfSome result (λ run.
            AllWithin (λ r. IsRefuted self.now r.conditions) rules.now from (from + run.0)) }
    {
        let (last, questions) = match rules[from].conditions.as_slice() {
            [first, ..] if first.index == self.index && matches!(first.op, Operator::Equal) => {
                self.lacks(first.value)?
            }
            _ => return None,
        };
        if !are_rising {
            return Some((1, questions));
        }
        Some((rules_up_to(rules, last) - from, questions))
    }
}

/// How many values a half has.
const HALVES: u64 = 1 << 32;

/// How many of the rules, whose values rise, want a value up to a last one.
fn rules_up_to(rules: &[Rule], last: u64) -> usize
    requires { AreRising rules.now }
    ensures bound { result ≤ length rules.now }
    ensures up_to { AllWithin (λ r. first_value r ≤ last) rules.now 0 result }
    ensures behind { AllWithin (λ r. last < first_value r) rules.now result (length rules.now) }
{
    rules.partition_point(|rule| rule.first_value() <= last)
}

/// The last half such that all from this one on lack some bits, as this one does, or one before it.
fn last_lacking(bits: Bits, half: u32) -> u32
    requires { LacksBits bits half }
    ensures from { half ≤ result }
    ensures lack { (x : ℕ) → half ≤ x → x ≤ result → LacksBits bits x }
{
    if half < bits.value {
        bits.value - 1
    } else if half - bits.value > !bits.mask {
        u32::MAX
    } else {
        half
    }
}
