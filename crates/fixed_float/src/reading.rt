//! Reading a float into a format: one shift and one rounding.

ghost use Rattle.std.specs.Prelude.{◌≡◌, ◌↔◌, ◌<◌, ◌≤◌, ◌^◌, ◌+◌, ◌*◌, ◌/◌, ℕ, IsTrue, IsOk, IfOk};
ghost use Rattle.fixed_bits.specs.declared.mode.ReadMode.{ReadMode};
ghost use Rattle.fixed_float.specs.Floats.{IsFinite, IsFloatReading};
ghost use Rattle.fixed_float.specs.Inner.Fields.{IsLowOf, IsScaledReading};
ghost use Rattle.fixed_float.specs.declared.layout.FloatLayout.TheVariants.{Binary32, Binary64};

use crate::increment::mode_increment;
use crate::layout::{FloatFields, binary32_fields, binary64_fields};
use fixed_bits::{Format, Number, ReadMode};
use fixed_read::ReadNumber;

/// Why a float is refused: it is an infinity or a NaN.
#[derive(Clone, Copy, Debug, PartialEq, Eq)]
pub struct NotFinite;

/// The scale at which a double is its significand.
pub const BINARY64_UNIT: u32 = 1075;

/// The scale at which a single-precision float is its significand.
pub const BINARY32_UNIT: u32 = 150;

/// Returns two to the power of `bits`.
#[inline(always)]
pub fn power_of_two(bits: u32) -> u64
    requires { bits ≤ 62 }
    ensures power { result ≡ 2 ^ bits }
    ensures least { 0 < result }
    ensures most { result < 2 ^ 63 }
{
    1 << bits
}

/// Returns a significand over two to the power of `bits`, rounded down.
#[inline(always)]
fn quotient(significand: u64, bits: u32) -> u64
    requires bits { bits ≤ 62 }
    requires few_bits { significand < 2 ^ 53 }
    ensures quotient { result ≡ significand / 2 ^ bits }
    ensures few_bits { result < 2 ^ 53 }
{
    significand >> bits
}

/// Returns a significand times two to the power of `bits`.
#[inline(always)]
fn multiple(significand: u64, bits: u32) -> u128
    requires bits { bits ≤ 64 }
    requires few_bits { significand < 2 ^ 53 }
    ensures multiple { result ≡ significand * 2 ^ bits }
    ensures few_bits { result < 2 ^ 117 }
{
    u128::from(significand) << bits
}

/// Returns the number with this sign and magnitude. The sign is kept even if the magnitude is 0.
#[inline(always)]
fn signed(negative: bool, magnitude: u128) -> Number
    ensures sign { result.negative ≡ negative }
    ensures low { IsLowOf result magnitude }
{
    Number {
        low: (magnitude % (1 << 64)) as u64,
        negative,
        has_high_bits: magnitude >= 1 << 64,
    }
}

/// Whether nothing is left.
#[inline(always)]
fn is_nothing(rest: u64) -> bool
    ensures { IsTrue result ↔ (rest ≡ 0) }
{
    rest == 0
}

/// Returns the read number of a significand of whole ulps, each two to the power of `-up`. A magnitude shifted by more
/// than 64 bits has the same low bits as one shifted by 64.
#[inline(always)]
fn read_whole(fields: FloatFields, up: u32, format: Format) -> ReadNumber
    requires few_bits { fields.significand < 2 ^ 53 }
    ensures reading { (mode : ReadMode) (unit : ℕ) → up + unit ≡ fields.scale + format.frac
        → IsScaledReading mode fields unit result }
    ensures format { result.format ≡ format }
{
    let magnitude = multiple(fields.significand, up.min(64));
    ReadNumber::new(signed(fields.negative, magnitude), format, true)
}

/// Returns the read number of a significand in parts of an ulp, each two to the power of `-down`. A significand shifted
/// by 62 bits or more is less than half of an ulp.
#[inline(always)]
fn read_part(fields: FloatFields, down: u32, format: Format, mode: ReadMode) -> ReadNumber
    requires few_bits { fields.significand < 2 ^ 53 }
    ensures reading { (unit : ℕ) → down + (fields.scale + format.frac) ≡ unit
        → IsScaledReading mode fields unit result }
    ensures format { result.format ≡ format }
{
    let down = down.min(62);
    let ulp = power_of_two(down);
    let rest = fields.significand % ulp;
    let whole = quotient(fields.significand, down);
    let more = mode_increment(mode, fields.negative, rest, ulp, whole % 2);
    let number = signed(fields.negative, u128::from(whole + more));
    ReadNumber::new(number, format, is_nothing(rest))
}

/// Returns the read number of a significand times two to the power of its scale less `unit`, the scale of one. Most
/// floats have parts of an ulp, for which 64 bits are enough.
#[inline(always)]
fn read_fields(fields: FloatFields, unit: u32, format: Format, mode: ReadMode) -> ReadNumber
    requires few_bits { fields.significand < 2 ^ 53 }
    requires few_scales { fields.scale < 2 ^ 11 }
    requires unit { unit ≤ 1075 }
    ensures reading { IsScaledReading mode fields unit result }
    ensures format { result.format ≡ format }
{
    let scale = fields.scale + format.frac();
    if scale < unit {
        read_part(fields, unit - scale, format, mode)
    } else {
        read_whole(fields, scale - unit, format)
    }
}

/// Reads a double, given by its bits, into a format: its exact value rounded to ulps in a mode.
///
/// # Errors
///
/// Refuses infinities and NaNs.
#[inline(always)]
pub fn read_binary64(bits: u64, format: Format, mode: ReadMode) -> Result<ReadNumber, NotFinite>
    ensures finite { IsOk result ↔ IsFinite Binary64 bits }
    ensures reading { IfOk result (IsFloatReading mode Binary64 bits) }
    ensures format { IfOk result (λ found. found.format ≡ format) }
{
    match binary64_fields(bits) {
        Some(fields) => Ok(read_fields(fields, BINARY64_UNIT, format, mode)),
        None => Err(NotFinite),
    }
}

/// Reads a single-precision float, given by its bits, into a format: its exact value rounded to ulps in a mode.
///
/// # Errors
///
/// Refuses infinities and NaNs.
#[inline(always)]
pub fn read_binary32(bits: u32, format: Format, mode: ReadMode) -> Result<ReadNumber, NotFinite>
    ensures finite { IsOk result ↔ IsFinite Binary32 bits }
    ensures reading { IfOk result (IsFloatReading mode Binary32 bits) }
    ensures format { IfOk result (λ found. found.format ≡ format) }
{
    match binary32_fields(bits) {
        Some(fields) => Ok(read_fields(fields, BINARY32_UNIT, format, mode)),
        None => Err(NotFinite),
    }
}
