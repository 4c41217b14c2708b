//! Reading a number from bytes: one function for each form, which the typed calls share.

ghost use Rattle.std.specs.Prelude.{◌≤◌};
ghost use Rattle.fixed_bits.specs.declared.format.Policy.TheVariants.{Saturating, Wrapping};
ghost use Rattle.fixed_bits.specs.declared.mode.ReadMode.TheVariants.{NearestEven};
ghost use Rattle.fixed_numeral.specs.Numeral.{Parts, HasNumeral};
ghost use Rattle.fixed_read.specs.Reading.{IsReadInRange, IsReadNumber};
ghost use Rattle.fixed_point.specs.Readings.{IsPlainReading, IsImageReading, IsOverflowingReading};

use crate::number::Fixed;
use fixed_bits::{Inner, ReadMode};
use fixed_numeral::{ParseFixedError, Radix};
use fixed_read::{
    from_str_radix_mode, overflowing_from_str_radix_mode, saturating_from_str_radix_mode,
    wrapping_from_str_radix_mode,
};

/// Reads the number itself; Overflow if it is out of range.
#[inline]
pub(crate) fn read<I: Inner, const FRAC: u32>(
    src: &[u8],
    radix: Radix,
    mode: ReadMode,
) -> Result<Fixed<I, FRAC>, ParseFixedError>
    requires { FRAC ≤ I.BITS }
    ensures { IsPlainReading I.number mode radix src.now FRAC I.SIGNED I.BITS result }
{
    match from_str_radix_mode(src, radix, FRAC, mode) {
        Ok(bits) => Ok(Fixed::from_bits(bits)),
        Err(error) => Err(error),
    }
}

/// Reads the Saturating image.
#[inline]
pub(crate) fn saturating_read<I: Inner, const FRAC: u32>(
    src: &[u8],
    radix: Radix,
    mode: ReadMode,
) -> Result<Fixed<I, FRAC>, ParseFixedError>
    requires { FRAC ≤ I.BITS }
    ensures { IsImageReading I.number Saturating mode radix src.now FRAC I.SIGNED I.BITS result }
{
    match saturating_from_str_radix_mode(src, radix, FRAC, mode) {
        Ok(bits) => Ok(Fixed::from_bits(bits)),
        Err(error) => Err(error),
    }
}

/// Reads the Wrapping image.
#[inline]
pub(crate) fn wrapping_read<I: Inner, const FRAC: u32>(
    src: &[u8],
    radix: Radix,
    mode: ReadMode,
) -> Result<Fixed<I, FRAC>, ParseFixedError>
    requires { FRAC ≤ I.BITS }
    ensures { IsImageReading I.number Wrapping mode radix src.now FRAC I.SIGNED I.BITS result }
{
    match wrapping_from_str_radix_mode(src, radix, FRAC, mode) {
        Ok(bits) => Ok(Fixed::from_bits(bits)),
        Err(error) => Err(error),
    }
}

/// Reads the Wrapping image, and whether the number is out of range.
#[inline]
pub(crate) fn overflowing_read<I: Inner, const FRAC: u32>(
    src: &[u8],
    radix: Radix,
    mode: ReadMode,
) -> Result<(Fixed<I, FRAC>, bool), ParseFixedError>
    requires { FRAC ≤ I.BITS }
    ensures { IsOverflowingReading I.number mode radix src.now FRAC I.SIGNED I.BITS result }
{
    match overflowing_from_str_radix_mode(src, radix, FRAC, mode) {
        Ok((bits, overflowed)) => Ok((Fixed::from_bits(bits), overflowed)),
        Err(error) => Err(error),
    }
}

/// Reads bytes that must be a numeral with a number in range.
#[inline]
pub(crate) fn strict_read<I: Inner, const FRAC: u32>(src: &[u8], radix: Radix) -> Fixed<I, FRAC>
    requires frac { FRAC ≤ I.BITS }
    requires fits { IsReadInRange NearestEven radix (HasNumeral radix src.now) FRAC I.SIGNED I.BITS }
    ensures { (p : Parts) → HasNumeral radix src.now p → IsReadNumber NearestEven radix p FRAC (I.number result) }
{
    match read(src, radix, ReadMode::NearestEven) {
        Ok(number) => number,
        Err(_) => Fixed::from_bits(I::ZERO),
    }
}
