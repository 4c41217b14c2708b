//! Rounding of bits to whole numbers.

ghost use Rattle.std.specs.Prelude.{◌≡◌, ◌≤◌, MatchResult};
ghost use Rattle.fixed_bits.specs.Ranges.{IsWide};
ghost use Rattle.fixed_c.specs.Numbers.{format_of, IsBrought, IsNotBrought};
ghost use Rattle.fixed_c.specs.Round.{IsRoundedTo, NamesRounding, RoundIsRefused, rounded_bits, rounding_code};
ghost use Rattle.fixed_c.specs.declared.refusal.Refusal.TheVariants.{BadRounding, Numeral};
ghost use Rattle.fixed_numeral.specs.declared.error.ParseErrorKind.TheVariants.{Overflow};

use crate::arguments::{FixedFormat, format_of, policy_of};
use crate::number::{FixedNumber, number_for_c, number_in};
use crate::refusal::Refusal;
use fixed_bits::{Format, Number, Policy};
use fixed_numeral::ParseErrorKind;
use fixed_round::{Rounding, towards_zero, whole_of};

/// The roundings to whole numbers that C names.
#[derive(Clone, Copy, Debug, PartialEq, Eq)]
pub enum WholeRounding {
    /// One of the four that may overflow.
    By(Rounding),
    /// To the nearest whole number that is not farther from zero.
    ToZero,
}

/// Returns the rounding of a code.
fn rounding_of(code: u32) -> Result<WholeRounding, Refusal>
    ensures { MatchResult result (λ r. code ≡ rounding_code r)
        (λ refusal. (¬ NamesRounding code) × (refusal ≡ BadRounding)) }
{
    match code {
        0 => Ok(WholeRounding::By(Rounding::Ceil)),
        1 => Ok(WholeRounding::By(Rounding::Floor)),
        2 => Ok(WholeRounding::By(Rounding::Round)),
        3 => Ok(WholeRounding::By(Rounding::RoundTiesEven)),
        4 => Ok(WholeRounding::ToZero),
        _ => Err(Refusal::BadRounding),
    }
}

/// Rounds a number to a whole number and returns its bits.
fn rounded(number: i128, frac: u32, rounding: WholeRounding) -> i128
    requires wide { IsWide number }
    requires frac { frac ≤ 64 }
    ensures { result ≡ rounded_bits rounding number frac }
{
    match rounding {
        WholeRounding::By(rounding) => whole_of(number, frac, rounding),
        WholeRounding::ToZero => towards_zero(number, frac),
    }
}

/// Brings a number into a format by a policy.
fn brought(format: Format, policy: Policy, number: i128) -> Result<FixedNumber, Refusal>
    ensures { MatchResult result
        (λ n. IsBrought format policy number n.bits n.overflowed)
        (λ refusal. (refusal ≡ Numeral Overflow) × IsNotBrought format policy number) }
{
    let is_out = Number::of(number).is_out_of_range_by(format, policy);
    match policy.image(format, number) {
        Some(image) => Ok(number_for_c(format, image, is_out)),
        None => Err(Refusal::Numeral(ParseErrorKind::Overflow)),
    }
}

/// Rounds bits to a whole number.
pub fn round(
    bits: i64,
    format: FixedFormat,
    rounding: u32,
    policy: u32,
) -> Result<FixedNumber, Refusal>
    ensures { MatchResult result
        (λ n. IsRoundedTo (format_of format.is_signed format.width format.frac) rounding policy bits n.bits
        n.overflowed)
        (RoundIsRefused (format_of format.is_signed format.width format.frac) rounding policy bits) }
{
    let format = format_of(format, Refusal::BadFormat)?;
    let policy = policy_of(policy)?;
    let number = number_in(bits, format, Refusal::BadBits)?;
    let rounding = rounding_of(rounding)?;
    brought(format, policy, rounded(number, format.frac(), rounding))
}
