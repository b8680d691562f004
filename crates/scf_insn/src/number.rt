//! Parses numbers.

ghost use Rattle.std.specs.Prelude.{◌+◌, ◌*◌, ◌≤◌, ℕ};
ghost use Rattle.scf_insn.specs.Numbers.{numeral, number_of, ReadsNumber};
ghost use Rattle.scf_insn.specs.internal.Numbers.{IsWithinRange};

use thiserror::Error;

/// Why a text isn't a number.
#[derive(Clone, Copy, Debug, Error)]
pub enum NumeralFault {
    #[error("not a number")]
    Malformed,
    #[error("a number past 2^64-1")]
    TooLarge,
}

/// The value with one more digit appended, if it is below 2^64.
fn with_digit(value: Option<u64>, radix: u32, digit: u32) -> Option<u64>
    requires { 2 ≤ radix }
    ensures { (n : ℕ) → IsWithinRange value n → IsWithinRange result (n * radix + digit) }
{
    value?
        .checked_mul(u64::from(radix))?
        .checked_add(u64::from(digit))
}

/// Parses digits of a radix: any length, leading zeros allowed.
#[tactic(auto, using(std::proofs::lemmas::Grind::common_steps, crate::proofs::Numerals::digits_more, crate::proofs::Numerals::value_more))]
pub fn parse_numeral(digits: &[u8], radix: u32) -> Result<u64, NumeralFault>
    requires low { 2 ≤ radix }
    requires high { radix ≤ 36 }
    ensures { ReadsNumber (numeral radix digits.now) result }
{
    if digits.is_empty() {
        return Err(NumeralFault::Malformed);
    }
    let mut value = Some(0u64);
    for byte in digits {
        let Some(digit) = char::from(*byte).to_digit(radix) else {
            return Err(NumeralFault::Malformed);
        };
        value = with_digit(value, radix, digit);
    }
    value.ok_or(NumeralFault::TooLarge)
}

/// Parses a number: decimal digits, or `0x` or `0X` and hexadecimal digits.
#[tactic(auto, unfolding(crate::specs::Numbers::number_of))]
pub fn parse_number(text: &[u8]) -> Result<u64, NumeralFault>
    ensures { ReadsNumber (number_of text.now) result }
{
    match text {
        [b'0', b'x' | b'X', digits @ ..] => parse_numeral(digits, 16),
        _ => parse_numeral(text, 10),
    }
}
