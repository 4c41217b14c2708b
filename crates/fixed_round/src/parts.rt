//! The whole part and the fraction part of a number, and rounding towards zero. None of the three can overflow.

ghost use Rattle.std.specs.Prelude.{◌≡◌, ◌≤◌, ◌-ℤ◌};
ghost use Rattle.fixed_bits.specs.Ranges.{IsInRange, IsWide};
ghost use Rattle.fixed_round.specs.Parts.{int_bits, round_to_zero_bits};

use crate::rounding::Rounding;
use crate::whole::whole_of;
use fixed_bits::Inner;

/// Returns the bits of the greatest whole number that is not above the number; 0 if the format has no whole bits.
#[inline]
pub fn int<I: Inner>(bits: I, frac_nbits: u32) -> I
    requires { frac_nbits ≤ I.BITS }
    ensures { I.number result ≡ int_bits I.BITS (I.number bits) frac_nbits }
{
    in_range(whole_part(bits, frac_nbits))
}

/// Returns the bits less those of the whole part. They are never negative if the format has whole bits.
#[inline]
pub fn frac<I: Inner>(bits: I, frac_nbits: u32) -> I
    requires { frac_nbits ≤ I.BITS }
    ensures { I.number result ≡ I.number bits -ℤ int_bits I.BITS (I.number bits) frac_nbits }
{
    in_range(bits.value() - whole_part(bits, frac_nbits))
}

/// Returns the bits of the nearest whole number whose magnitude is not above that of the number.
#[inline]
pub fn round_to_zero<I: Inner>(bits: I, frac_nbits: u32) -> I
    requires { frac_nbits ≤ I.BITS }
    ensures { I.number result ≡ round_to_zero_bits (I.number bits) frac_nbits }
{
    in_range(towards_zero(bits.value(), frac_nbits))
}

/// Returns the number of the whole part, which leaves a fraction part in the type's range.
#[inline]
fn whole_part<I: Inner>(bits: I, frac_nbits: u32) -> i128
    requires { frac_nbits ≤ I.BITS }
    ensures number { result ≡ int_bits I.BITS (I.number bits) frac_nbits }
    ensures range { IsInRange I.SIGNED I.BITS result }
    ensures rest { IsInRange I.SIGNED I.BITS (I.number bits -ℤ result) }
    ensures wide { IsWide result }
{
    let b = bits.value();
    if frac_nbits == I::BITS {
        0
    } else {
        whole_of(b, frac_nbits, Rounding::Floor)
    }
}

/// Rounds the bits of `b` over two to the power of `f` towards zero: the ceil of a negative number, else the floor.
#[inline]
pub fn towards_zero(b: i128, f: u32) -> i128
    requires wide { IsWide b }
    requires frac { f ≤ 64 }
    ensures { result ≡ round_to_zero_bits b f }
{
    if b < 0 {
        whole_of(b, f, Rounding::Ceil)
    } else {
        whole_of(b, f, Rounding::Floor)
    }
}

/// Returns the value of a number in its type's range.
#[inline]
fn in_range<I: Inner>(v: i128) -> I
    requires { IsInRange I.SIGNED I.BITS v }
    ensures { I.number result ≡ v }
{
    I::saturate(v)
}
