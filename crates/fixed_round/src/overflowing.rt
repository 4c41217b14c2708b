//! Rounding with a verdict on overflow, one call for each rounding.

ghost use Rattle.std.specs.Prelude.{◌↔◌, ◌≤◌, IsTrue};
ghost use Rattle.fixed_bits.specs.Ranges.{IsOutOfRange};
ghost use Rattle.fixed_bits.specs.Images.{IsImage};
ghost use Rattle.fixed_bits.specs.declared.format.Policy.TheVariants.{Wrapping};
ghost use Rattle.fixed_round.specs.Whole.{whole_bits};
ghost use Rattle.fixed_round.specs.declared.rounding.Rounding.TheVariants.{Ceil, Floor, Round, RoundTiesEven};

use crate::forms::overflowing_whole;
use crate::rounding::Rounding;
use fixed_bits::Inner;

/// The bits of the least whole number that is not below the number: their Wrapping image, and whether they are out of
/// the range.
#[inline]
pub fn overflowing_ceil<I: Inner>(bits: I, frac_nbits: u32) -> (I, bool)
    requires { frac_nbits ≤ I.BITS }
    ensures image { IsImage Wrapping I.SIGNED I.BITS (whole_bits Ceil (I.number bits) frac_nbits) (I.number result.0) }
    ensures verdict { IsTrue result.1 ↔ IsOutOfRange I.SIGNED I.BITS (whole_bits Ceil (I.number bits) frac_nbits) }
{
    overflowing_whole(bits, frac_nbits, Rounding::Ceil)
}

/// The bits of the greatest whole number that is not above the number: their Wrapping image, and whether they are out
/// of the range.
#[inline]
pub fn overflowing_floor<I: Inner>(bits: I, frac_nbits: u32) -> (I, bool)
    requires { frac_nbits ≤ I.BITS }
    ensures image { IsImage Wrapping I.SIGNED I.BITS (whole_bits Floor (I.number bits) frac_nbits) (I.number result.0) }
    ensures verdict { IsTrue result.1 ↔ IsOutOfRange I.SIGNED I.BITS (whole_bits Floor (I.number bits) frac_nbits) }
{
    overflowing_whole(bits, frac_nbits, Rounding::Floor)
}

/// The bits of the nearest whole number, ties away from zero: their Wrapping image, and whether they are out of the
/// range.
#[inline]
pub fn overflowing_round<I: Inner>(bits: I, frac_nbits: u32) -> (I, bool)
    requires { frac_nbits ≤ I.BITS }
    ensures image { IsImage Wrapping I.SIGNED I.BITS (whole_bits Round (I.number bits) frac_nbits) (I.number result.0) }
    ensures verdict { IsTrue result.1 ↔ IsOutOfRange I.SIGNED I.BITS (whole_bits Round (I.number bits) frac_nbits) }
{
    overflowing_whole(bits, frac_nbits, Rounding::Round)
}

/// The bits of the nearest whole number, ties to even: their Wrapping image, and whether they are out of the range.
#[inline]
pub fn overflowing_round_ties_even<I: Inner>(bits: I, frac_nbits: u32) -> (I, bool)
    requires { frac_nbits ≤ I.BITS }
    ensures image { IsImage Wrapping I.SIGNED I.BITS (whole_bits RoundTiesEven (I.number bits) frac_nbits)
        (I.number result.0) }
    ensures verdict { IsTrue result.1 ↔ IsOutOfRange I.SIGNED I.BITS
        (whole_bits RoundTiesEven (I.number bits) frac_nbits) }
{
    overflowing_whole(bits, frac_nbits, Rounding::RoundTiesEven)
}
