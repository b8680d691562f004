//! Writes numbers without allocating.

ghost use Rattle.std.specs.Prelude.{◌≡◌, ◌≤◌, ◌<◌, false, drop};
ghost use Rattle.std.specs.Fmt.{digits, digit_glyph};
ghost use Rattle.scf_insn.specs.Streams.{Writes};

use crate::stream::{Sink, WriteFault, write_whole};

/// The ASCII byte of a digit below 16, in lower case.
pub fn digit_byte(digit: u32) -> u8
    requires { digit < 16 }
    ensures { result ≡ digit_glyph false digit }
{
    if digit < 10 {
        b'0' + digit as u8
    } else {
        b'a' + (digit as u8 - 10)
    }
}

/// The most digits of a 64-bit number, those in decimal.
const MAX_DIGITS: usize = 20;

/// The digits of a number, at the end of the bytes.
#[derive(Drop)]
struct Digits {
    bytes: [u8; MAX_DIGITS],
    start: usize,
    ghost within: { start ≤ 20 },
}

impl Digits {
    fn of(number: u64, radix: u64) -> Digits
        requires low { 10 ≤ radix }
        requires high { radix ≤ 16 }
        ensures { drop result.start result.bytes ≡ digits radix false number }
    {
        let mut bytes = [0; MAX_DIGITS];
        let mut start = MAX_DIGITS - 1;
        bytes[start] = digit_byte((number % radix) as u32);
        let mut quotient = number / radix;
        while quotient > 0 {
            start -= 1;
            bytes[start] = digit_byte((quotient % radix) as u32);
            quotient /= radix;
        }
        Digits { bytes, start }
    }
}

/// Writes a number in a radix of 10 to 16, in lower case and without leading zeros; or a prefix of that, if writing
/// fails. Never allocates.
pub fn write_numeral<S: Sink>(sink: &mut S, number: u64, radix: u32) -> Result<(), WriteFault>
    requires low { 10 ≤ radix }
    requires high { radix ≤ 16 }
    ensures { Writes S.contents S.failures sink.old (digits radix false number) result sink.new }
{
    let digits = Digits::of(number, u64::from(radix));
    write_whole(sink, &digits.bytes[digits.start..])
}
