//! The float nearest to a number of a format.

ghost use Rattle.std.specs.Prelude.{◌≡◌, ◌+◌, ◌^◌, ◌<◌, ◌≤◌, if◌then◌else◌};
ghost use Rattle.fixed_bits.specs.Ranges.{IsInRange};
ghost use Rattle.fixed_float.specs.Floats.{bits_of_float, exponent_bits, fraction_bits, precision};
ghost use Rattle.fixed_float.specs.Inner.Fields.{HasLength, IsMagnitudeFloat, IsSignificand};
ghost use Rattle.fixed_float.specs.Nearest.{IsExactFloat, IsNearestFloat};
ghost use Rattle.fixed_float.specs.declared.layout.FloatLayout.TheVariants.{Binary32, Binary64};

use crate::increment::mode_increment;
use crate::layout::FloatLayout;
use crate::reading::power_of_two;
use fixed_bits::{Format, ReadMode, sign_and_magnitude};

/// Counts the bits of a magnitude.
#[inline(always)]
fn length_of(magnitude: u64) -> u32
    requires { 0 < magnitude }
    ensures { HasLength magnitude result }
{
    64 - magnitude.leading_zeros()
}

/// Rounds a magnitude of more than `precision` bits to a significand. Two to the power of `precision` is possible.
#[inline(always)]
fn rounded_significand(magnitude: u64, length: u32, precision: u32) -> u64
    requires length { HasLength magnitude length }
    requires long { precision < length }
    requires precision { 2 ≤ precision }
    ensures { IsSignificand precision magnitude length result }
{
    let down = length - precision;
    let ulp = power_of_two(down);
    let whole = magnitude >> down;
    whole
        + mode_increment(
            ReadMode::NearestEven,
            false,
            magnitude % ulp,
            ulp,
            whole % 2,
        )
}

/// Shifts a magnitude of at most `precision` bits up to a significand.
#[inline(always)]
fn grown_significand(magnitude: u64, length: u32, precision: u32) -> u64
    requires length { HasLength magnitude length }
    requires short { length ≤ precision }
    requires precision { precision ≤ 53 }
    ensures { IsSignificand precision magnitude length result }
{
    magnitude << (precision - length)
}

/// Returns a magnitude in `precision` bits, rounded to the nearest, ties to even.
#[inline(always)]
fn significand_of(magnitude: u64, length: u32, precision: u32) -> u64
    requires length { HasLength magnitude length }
    requires some { 2 ≤ precision }
    requires most { precision ≤ 53 }
    ensures { IsSignificand precision magnitude length result }
{
    if length <= precision {
        grown_significand(magnitude, length, precision)
    } else {
        rounded_significand(magnitude, length, precision)
    }
}

/// Returns the bits of the float nearest to a magnitude over two to the power of `frac`. The highest bit of a
/// significand adds one to the exponent before it, and a significand of two to the power of the precision adds two.
#[inline(always)]
fn magnitude_bits(layout: FloatLayout, magnitude: u64, frac: u32) -> u64
    requires some { 0 < magnitude }
    requires frac { frac ≤ 64 }
    ensures { IsMagnitudeFloat layout magnitude frac result }
{
    let length = length_of(magnitude);
    match layout {
        FloatLayout::Binary32 => {
            u64::from(125 + length - frac) * (1 << 23) + significand_of(magnitude, length, 24)
        }
        FloatLayout::Binary64 => {
            u64::from(1021 + length - frac) * (1 << 52) + significand_of(magnitude, length, 53)
        }
    }
}

/// Returns the sign bit of a float, or 0 if the float is not negative.
#[inline(always)]
fn sign_bit(layout: FloatLayout, negative: bool) -> u64
    ensures { result ≡ (if negative then 2 ^ (fraction_bits layout + exponent_bits layout) else 0) }
{
    match layout {
        FloatLayout::Binary32 if negative => 1 << 31,
        FloatLayout::Binary64 if negative => 1 << 63,
        _ => 0,
    }
}

/// Returns the bits of the float nearest to the bits `number` of a format, ties to even.
#[inline(always)]
fn float_of(layout: FloatLayout, number: i128, format: Format) -> u64
    requires { IsInRange format.signed format.width number }
    ensures few { result < 2 ^ bits_of_float layout }
    ensures nearest { IsNearestFloat layout number format.frac result }
    ensures exact { format.width ≤ precision layout → IsExactFloat layout number format.frac result }
{
    let (negative, magnitude) = sign_and_magnitude(number);
    if magnitude == 0 {
        return 0;
    }
    sign_bit(layout, negative) + magnitude_bits(layout, magnitude, format.frac())
}

/// Returns the bits of the double nearest to the bits `number` of a format, ties to even. It is exact for a format of
/// at most 53 bits, and the double of 0 has no sign.
pub fn binary64_of(number: i128, format: Format) -> u64
    requires { IsInRange format.signed format.width number }
    ensures nearest { IsNearestFloat Binary64 number format.frac result }
    ensures exact { format.width ≤ 53 → IsExactFloat Binary64 number format.frac result }
{
    float_of(FloatLayout::Binary64, number, format)
}

/// Returns the bits of the single-precision float nearest to the bits `number` of a format, ties to even. It is exact
/// for a format of at most 24 bits, and the float of 0 has no sign.
pub fn binary32_of(number: i128, format: Format) -> u32
    requires { IsInRange format.signed format.width number }
    ensures nearest { IsNearestFloat Binary32 number format.frac result }
    ensures exact { format.width ≤ 24 → IsExactFloat Binary32 number format.frac result }
{
    float_of(FloatLayout::Binary32, number, format) as u32
}
