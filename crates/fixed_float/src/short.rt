//! Floats whose number in a format is short. They are read by one sum and one shift. No branch depends on the sign or
//! on what is rounded, since these change from float to float.

ghost use Rattle.std.specs.Prelude.{◌≡◌, ◌↔◌, ◌⊎◌, ◌+◌, ◌*◌, ◌%◌, ◌^◌, ◌<◌, ◌≤◌, ℕ, slice_index};
ghost use Rattle.std.specs.Prelude.{IfSome, IsNone, IsSome};
ghost use Rattle.fixed_bits.specs.Rounded.{IsRounded, magnitude_mode};
ghost use Rattle.fixed_float.specs.Inner.Bias.{bias, halves, less, of_odd};
ghost use Rattle.fixed_float.specs.Inner.Fields.{IsShortOf};
ghost use Rattle.fixed_float.specs.declared.short.TheConstants.{HALVES, LESS, ODD};
ghost use Rattle.fixed_float.specs.Short.{IsShort, IsShortReading};
ghost use Rattle.fixed_float.specs.declared.layout.FloatLayout.TheVariants.{Binary32, Binary64};

use crate::layout::{FloatFields, binary32_fields, binary64_fields};
use crate::reading::{BINARY32_UNIT, BINARY64_UNIT, power_of_two};
use fixed_bits::{Format, ReadMode};

/// The number that a float reads as, in ulps.
#[derive(Clone, Copy, Debug, PartialEq, Eq)]
pub struct ShortNumber {
    pub magnitude: u64,
    /// Whether the float has a minus, even if the magnitude is 0.
    pub negative: bool,
}

/// The number of halves of an ulp to add, for each mode: to numbers above zero, and to numbers below zero.
const HALVES: [u64; 18] = [1, 1, 0, 2, 2, 0, 0, 0, 1, 1, 1, 1, 1, 1, 1, 1, 2, 2];

/// 1 if one more is added to an odd count of whole ulps.
const ODD: [u64; 18] = [1, 1, 0, 0, 0, 0, 0, 0, 0, 0, 0, 0, 0, 0, 0, 0, 0, 0];

/// The number to subtract from the sum.
const LESS: [u64; 18] = [1, 1, 0, 1, 1, 0, 0, 0, 0, 0, 1, 1, 0, 1, 1, 0, 1, 1];

/// Returns the row of a mode in these tables, for a number's sign.
#[inline(always)]
fn row_of(mode: ReadMode, negative: bool) -> usize
    ensures halves { slice_index HALVES result ≡ halves (magnitude_mode mode negative) }
    ensures odd { slice_index ODD result ≡ of_odd (magnitude_mode mode negative) }
    ensures less { slice_index LESS result ≡ less (magnitude_mode mode negative) }
    ensures row { result < 18 }
{
    2 * (mode as usize) + usize::from(negative)
}

/// Returns what to add to a magnitude before it is rounded down. `half` is half of an ulp, and `whole` the count of
/// whole ulps.
#[inline(always)]
fn bias_of(mode: ReadMode, negative: bool, half: u64, whole: u64) -> u64
    requires some { 0 < half }
    requires most { half ≤ 2 ^ 61 }
    ensures { result ≡ bias (magnitude_mode mode negative) half (whole % 2) }
{
    let row = row_of(mode, negative);
    half * HALVES[row] + (whole & ODD[row]) - LESS[row]
}

/// Rounds a magnitude in parts of an ulp, each two to the power of `-down`, to ulps. A magnitude below half of an ulp
/// is rounded alike in any greater unit.
#[inline(always)]
fn rounded_ulps(parts: u64, down: u32, mode: ReadMode, negative: bool) -> u64
    requires few { parts < 2 ^ 61 }
    requires some { 0 < down }
    requires most { down ≤ 62 }
    ensures { (den : ℕ) → (2 ^ down ≡ den) ⊎ ((2 * parts < 2 ^ down) × (2 ^ down ≤ den))
        → IsRounded mode negative parts den result }
{
    let bias = bias_of(mode, negative, power_of_two(down - 1), parts >> down);
    (parts + bias) >> down
}

/// Returns the number of a significand times two to the power of its scale less `unit`, the scale of one. `None`
/// exactly if the significand must be shifted up by more than seven bits.
#[inline(always)]
fn short_number(
    fields: FloatFields,
    unit: u32,
    format: Format,
    mode: ReadMode,
) -> Option<ShortNumber>
    requires few_bits { fields.significand < 2 ^ 53 }
    requires few_scales { fields.scale < 2 ^ 11 }
    requires unit { unit ≤ 1075 }
    ensures some { IsSome result ↔ (fields.scale + format.frac ≤ unit + 7) }
    ensures number { IfSome result (IsShortOf mode fields unit format.frac) }
{
    let scale = fields.scale + format.frac();
    if scale > unit + 7 {
        return None;
    }
    let down = (unit + 8 - scale).min(62);
    Some(ShortNumber {
        magnitude: rounded_ulps(256 * fields.significand, down, mode, fields.negative),
        negative: fields.negative,
    })
}

/// Reads a double, given by its bits, into a format, as `read_binary64` does. `None` exactly if it is not short.
#[inline(always)]
pub fn short_binary64(bits: u64, format: Format, mode: ReadMode) -> Option<ShortNumber>
    ensures none { IsNone result ↔ (¬ IsShort Binary64 bits format.frac) }
    ensures number { IfSome result (IsShortReading mode Binary64 bits format.frac) }
{
    short_number(binary64_fields(bits)?, BINARY64_UNIT, format, mode)
}

/// Reads a single-precision float, given by its bits, into a format, as `read_binary32` does. `None` exactly if it is
/// not short.
#[inline(always)]
pub fn short_binary32(bits: u32, format: Format, mode: ReadMode) -> Option<ShortNumber>
    ensures none { IsNone result ↔ (¬ IsShort Binary32 bits format.frac) }
    ensures number { IfSome result (IsShortReading mode Binary32 bits format.frac) }
{
    short_number(binary32_fields(bits)?, BINARY32_UNIT, format, mode)
}
