//! The five forms of a rounding, which differ in what they return if the rounded number does not fit its type.

ghost use Rattle.std.specs.Prelude.{◌≡◌, ◌↔◌, ◌≤◌, IsTrue, IsSome, IfSome};
ghost use Rattle.fixed_bits.specs.Ranges.{IsInRange, IsOutOfRange};
ghost use Rattle.fixed_bits.specs.Images.{IsImage};
ghost use Rattle.fixed_bits.specs.declared.format.Policy.TheVariants.{Saturating, Wrapping};
ghost use Rattle.fixed_round.specs.Whole.{whole_bits};

use crate::rounding::Rounding;
use crate::whole::whole_of;
use fixed_bits::Inner;

/// Returns the bits of the rounded number, which must fit.
#[inline]
pub fn plain_whole<I: Inner>(bits: I, frac_nbits: u32, rounding: Rounding) -> I
    requires frac { frac_nbits ≤ I.BITS }
    requires fits { IsInRange I.SIGNED I.BITS (whole_bits rounding (I.number bits) frac_nbits) }
    ensures { I.number result ≡ whole_bits rounding (I.number bits) frac_nbits }
{
    saturating_whole(bits, frac_nbits, rounding)
}

/// Returns the bits of the rounded number; `None` exactly if it does not fit.
#[inline]
pub fn checked_whole<I: Inner>(bits: I, frac_nbits: u32, rounding: Rounding) -> Option<I>
    requires { frac_nbits ≤ I.BITS }
    ensures exists { IsSome result ↔ IsInRange I.SIGNED I.BITS (whole_bits rounding (I.number bits) frac_nbits) }
    ensures same { IfSome result (λ x. I.number x ≡ whole_bits rounding (I.number bits) frac_nbits) }
{
    let whole = whole_of(bits.value(), frac_nbits, rounding);
    if I::fits(whole) {
        Some(I::saturate(whole))
    } else {
        None
    }
}

/// Returns the Saturating image of the bits of the rounded number: the nearer end of the range if it does not fit.
#[inline]
pub fn saturating_whole<I: Inner>(bits: I, frac_nbits: u32, rounding: Rounding) -> I
    requires { frac_nbits ≤ I.BITS }
    ensures { IsImage Saturating I.SIGNED I.BITS (whole_bits rounding (I.number bits) frac_nbits) (I.number result) }
{
    I::saturate(whole_of(bits.value(), frac_nbits, rounding))
}

/// Returns the Wrapping image of the bits of the rounded number: reduced modulo two to the power of the width if it
/// does not fit.
#[inline]
pub fn wrapping_whole<I: Inner>(bits: I, frac_nbits: u32, rounding: Rounding) -> I
    requires { frac_nbits ≤ I.BITS }
    ensures { IsImage Wrapping I.SIGNED I.BITS (whole_bits rounding (I.number bits) frac_nbits) (I.number result) }
{
    wrapping_image(whole_of(bits.value(), frac_nbits, rounding))
}

/// Returns the Wrapping image of the bits of the rounded number, and whether it does not fit.
#[inline]
pub fn overflowing_whole<I: Inner>(bits: I, frac_nbits: u32, rounding: Rounding) -> (I, bool)
    requires { frac_nbits ≤ I.BITS }
    ensures image { IsImage Wrapping I.SIGNED I.BITS (whole_bits rounding (I.number bits) frac_nbits)
        (I.number result.0) }
    ensures verdict { IsTrue result.1 ↔ IsOutOfRange I.SIGNED I.BITS (whole_bits rounding (I.number bits) frac_nbits) }
{
    let whole = whole_of(bits.value(), frac_nbits, rounding);
    (wrapping_image(whole), !I::fits(whole))
}

/// The Wrapping image of a number.
#[inline]
fn wrapping_image<I: Inner>(v: i128) -> I
    ensures { IsImage Wrapping I.SIGNED I.BITS v (I.number result) }
{
    I::wrap(v)
}
