//! Bits in the form for C.

ghost use Rattle.std.specs.Prelude.{◌≡◌, MatchResult, IfOk};
ghost use Rattle.fixed_bits.specs.Ranges.{IsInRange, IsWide};
ghost use Rattle.fixed_c.specs.Numbers.{AreBits, AreBitsOf, flag_of, has_bits};

use crate::refusal::Refusal;
use fixed_bits::Format;

/// The bits of a number, `fixed_number` of the header. Bits of an unsigned format of 64 bits are the same 64 bits.
#[repr(C)]
#[derive(Clone, Copy)]
pub struct FixedNumber {
    /// The bits.
    pub bits: i64,
    /// 1 if a number on the way was out of its format's range, else 0.
    pub overflowed: u32,
}

/// The bits of the two numbers that enclose a value, `fixed_enclosure` of the header.
#[repr(C)]
#[derive(Clone, Copy)]
pub struct FixedEnclosure {
    /// The bits of the greatest number that is not above the value.
    pub lo: i64,
    /// The bits of the least number that is not below the value.
    pub hi: i64,
}

/// Returns the bits, in the form for C, of a number in its format's range.
pub fn bits_for_c(format: Format, number: i128) -> i64
    requires { IsInRange format.signed format.width number }
    ensures { has_bits format.signed result number }
{
    if format.signed() {
        number as i64
    } else {
        (number as u64).cast_signed()
    }
}

/// Returns the number that bits from C represent in a format, or the refusal `bad` if it is out of range.
pub fn number_in(bits: i64, format: Format, bad: Refusal) -> Result<i128, Refusal>
    ensures wide { IfOk result IsWide }
    ensures number { MatchResult result (λ n. AreBitsOf format bits n)
        (λ refusal. (¬ AreBits format bits) × (refusal ≡ bad)) }
{
    let number = if format.signed() {
        i128::from(bits)
    } else {
        i128::from(bits.cast_unsigned())
    };
    if format.contains(number) {
        Ok(number)
    } else {
        Err(bad)
    }
}

/// Returns 1 for true and 0 for false.
pub fn flag(is: bool) -> u32
    ensures { result ≡ flag_of is }
{
    if is { 1 } else { 0 }
}

/// Returns a number in its format's range, and a flag, in the form for C.
pub fn number_for_c(format: Format, number: i128, overflowed: bool) -> FixedNumber
    requires { IsInRange format.signed format.width number }
    ensures bits { has_bits format.signed result.bits number }
    ensures flag { result.overflowed ≡ flag_of overflowed }
{
    FixedNumber {
        bits: bits_for_c(format, number),
        overflowed: flag(overflowed),
    }
}
