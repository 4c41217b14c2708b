//! Conversion from and to numbers of other types. The moved number is the source's bits moved down to the target's
//! fraction length: the greatest number of ulps of the target that is not above the value.

ghost use Rattle.std.specs.Prelude.{◌≡◌, ◌↔◌, ◌≤◌, ◌*ℤ◌, ◌^◌, pos, refl, IsTrue, IsSome, IfSome};
ghost use Rattle.std.proofs.Common.{inr};
ghost use Rattle.fixed_bits.specs.Ranges.{IsInRange, IsOutOfRange, IsWide};
ghost use Rattle.fixed_bits.specs.Images.{IsImage};
ghost use Rattle.fixed_bits.specs.Down.{down};
ghost use Rattle.fixed_convert.specs.Moved.{shifted};
ghost use Rattle.fixed_bits.specs.declared.format.Policy.TheVariants.{Saturating, Wrapping};

use crate::number::Fixed;
use fixed_bits::Inner;
use fixed_convert::{Floored, FromFixed, Num, NumTarget, ToFixed, floor_into};

impl<I: Inner, const FRAC: u32> Num for Fixed<I, FRAC> {
    const SIGNED: bool = I::SIGNED;

    const WIDTH: u32 = I::BITS;

    const FRAC: u32 = FRAC;

    ghost SIGNED = { I.SIGNED };

    ghost WIDTH = { I.BITS };

    ghost FRAC = { FRAC };

    ghost wide = { λ x. I.number x };

    #[inline]
    fn to_wide(self) -> i128 {
        self.to_bits().value()
    }

    ghost width_law = { inr I.width_law };
}

impl<I: Inner, const FRAC: u32> NumTarget for Fixed<I, FRAC> {
    type Holder = I;

    #[inline]
    fn from_holder(bits: I) -> Self {
        Fixed::from_bits(bits)
    }

    ghost signed_law = { refl };

    ghost bits_law = { refl };
}

/// From the integers, `bool` and every `Fixed`.
impl<I: Inner, const FRAC: u32> Fixed<I, FRAC> {
    /// The moved number, which must fit.
    #[inline]
    pub fn from_num<S: ToFixed>(src: S) -> Self
        requires source { S.FRAC ≤ S.WIDTH }
        requires target { FRAC ≤ I.BITS }
        requires fits { IsInRange I.SIGNED I.BITS (down (S.wide src) S.FRAC FRAC) }
        ensures { I.number result ≡ down (S.wide src) S.FRAC FRAC }
    {
        src.to_fixed()
    }

    /// The moved number; `None` exactly if it does not fit.
    #[inline]
    pub fn checked_from_num<S: ToFixed>(src: S) -> Option<Self>
        requires source { S.FRAC ≤ S.WIDTH }
        requires target { FRAC ≤ I.BITS }
        ensures exists { IsSome result ↔ IsInRange I.SIGNED I.BITS (down (S.wide src) S.FRAC FRAC) }
        ensures same { IfSome result (λ x. I.number x ≡ down (S.wide src) S.FRAC FRAC) }
    {
        src.checked_to_fixed()
    }

    /// The moved number; the nearer end of the range if it does not fit.
    #[inline]
    pub fn saturating_from_num<S: ToFixed>(src: S) -> Self
        requires source { S.FRAC ≤ S.WIDTH }
        requires target { FRAC ≤ I.BITS }
        ensures { IsImage Saturating I.SIGNED I.BITS (down (S.wide src) S.FRAC FRAC) (I.number result) }
    {
        src.saturating_to_fixed()
    }

    /// The moved number; its bits wrap around if it does not fit.
    #[inline]
    pub fn wrapping_from_num<S: ToFixed>(src: S) -> Self
        requires source { S.FRAC ≤ S.WIDTH }
        requires target { FRAC ≤ I.BITS }
        ensures { IsImage Wrapping I.SIGNED I.BITS (down (S.wide src) S.FRAC FRAC) (I.number result) }
    {
        src.wrapping_to_fixed()
    }

    /// The moved number, which must fit.
    #[inline]
    pub fn strict_from_num<S: ToFixed>(src: S) -> Self
        requires source { S.FRAC ≤ S.WIDTH }
        requires target { FRAC ≤ I.BITS }
        requires fits { IsInRange I.SIGNED I.BITS (down (S.wide src) S.FRAC FRAC) }
        ensures { I.number result ≡ down (S.wide src) S.FRAC FRAC }
    {
        src.strict_to_fixed()
    }

    /// The Wrapping image of the moved number, and whether it does not fit.
    #[inline]
    pub fn overflowing_from_num<S: ToFixed>(src: S) -> (Self, bool)
        requires source { S.FRAC ≤ S.WIDTH }
        requires target { FRAC ≤ I.BITS }
        ensures image { IsImage Wrapping I.SIGNED I.BITS (down (S.wide src) S.FRAC FRAC) (I.number result.0) }
        ensures verdict { IsTrue result.1 ↔ IsOutOfRange I.SIGNED I.BITS (down (S.wide src) S.FRAC FRAC) }
    {
        src.overflowing_to_fixed()
    }

    /// The moved number of another fraction length of the same integer type, which must fit.
    #[inline]
    pub fn const_from_fixed<const SRC: u32>(src: Fixed<I, SRC>) -> Self
        requires source { SRC ≤ I.BITS }
        requires target { FRAC ≤ I.BITS }
        requires fits { IsInRange I.SIGNED I.BITS (down (I.number src) SRC FRAC) }
        ensures { I.number result ≡ down (I.number src) SRC FRAC }
    {
        Self::from_num(src)
    }

    /// The whole number `src`, whose bits `src` · 2^`FRAC` must fit.
    #[inline]
    pub fn const_from_int(src: I) -> Self
        requires target { FRAC ≤ I.BITS }
        requires fits { IsInRange I.SIGNED I.BITS (I.number src *ℤ pos (2 ^ FRAC)) }
        ensures { I.number result ≡ I.number src *ℤ pos (2 ^ FRAC) }
    {
        Fixed::from_bits(fitting(ulps_of_whole(src.value(), FRAC)))
    }
}

/// To the integers and every `Fixed`.
impl<I: Inner, const FRAC: u32> Fixed<I, FRAC> {
    /// The moved number, which must fit.
    #[inline]
    pub fn to_num<D: FromFixed>(self) -> D
        requires source { FRAC ≤ I.BITS }
        requires target { D.FRAC ≤ D.WIDTH }
        requires fits { IsInRange D.SIGNED D.WIDTH (down (I.number self) FRAC D.FRAC) }
        ensures { D.wide result ≡ down (I.number self) FRAC D.FRAC }
    {
        D::from_fixed(self)
    }

    /// The moved number; `None` exactly if it does not fit.
    #[inline]
    pub fn checked_to_num<D: FromFixed>(self) -> Option<D>
        requires source { FRAC ≤ I.BITS }
        requires target { D.FRAC ≤ D.WIDTH }
        ensures exists { IsSome result ↔ IsInRange D.SIGNED D.WIDTH (down (I.number self) FRAC D.FRAC) }
        ensures same { IfSome result (λ x. D.wide x ≡ down (I.number self) FRAC D.FRAC) }
    {
        D::checked_from_fixed(self)
    }

    /// The moved number; the nearer end of the target's range if it does not fit.
    #[inline]
    pub fn saturating_to_num<D: FromFixed>(self) -> D
        requires source { FRAC ≤ I.BITS }
        requires target { D.FRAC ≤ D.WIDTH }
        ensures { IsImage Saturating D.SIGNED D.WIDTH (down (I.number self) FRAC D.FRAC) (D.wide result) }
    {
        D::saturating_from_fixed(self)
    }

    /// The moved number; its bits wrap around if it does not fit.
    #[inline]
    pub fn wrapping_to_num<D: FromFixed>(self) -> D
        requires source { FRAC ≤ I.BITS }
        requires target { D.FRAC ≤ D.WIDTH }
        ensures { IsImage Wrapping D.SIGNED D.WIDTH (down (I.number self) FRAC D.FRAC) (D.wide result) }
    {
        D::wrapping_from_fixed(self)
    }

    /// The moved number, which must fit.
    #[inline]
    pub fn strict_to_num<D: FromFixed>(self) -> D
        requires source { FRAC ≤ I.BITS }
        requires target { D.FRAC ≤ D.WIDTH }
        requires fits { IsInRange D.SIGNED D.WIDTH (down (I.number self) FRAC D.FRAC) }
        ensures { D.wide result ≡ down (I.number self) FRAC D.FRAC }
    {
        D::strict_from_fixed(self)
    }

    /// The Wrapping image of the moved number, and whether it does not fit.
    #[inline]
    pub fn overflowing_to_num<D: FromFixed>(self) -> (D, bool)
        requires source { FRAC ≤ I.BITS }
        requires target { D.FRAC ≤ D.WIDTH }
        ensures image { IsImage Wrapping D.SIGNED D.WIDTH (down (I.number self) FRAC D.FRAC) (D.wide result.0) }
        ensures verdict { IsTrue result.1 ↔ IsOutOfRange D.SIGNED D.WIDTH (down (I.number self) FRAC D.FRAC) }
    {
        D::overflowing_from_fixed(self)
    }
}

/// The ulps of 2^-`frac` of a whole number.
#[inline]
fn ulps_of_whole(value: i128, frac: u32) -> Floored
    requires wide { IsWide value }
    requires frac { frac ≤ 64 }
    ensures number { shifted result.bits result.shift ≡ value *ℤ pos (2 ^ frac) }
    ensures wide { IsWide result.bits }
    ensures shift { result.shift ≤ 64 }
{
    floor_into(value, 0, frac)
}

/// The bits of a moved number that fits.
#[inline]
fn fitting<I: Inner>(v: Floored) -> I
    requires wide { IsWide v.bits }
    requires shift { v.shift ≤ 64 }
    requires fits { IsInRange I.SIGNED I.BITS (shifted v.bits v.shift) }
    ensures { I.number result ≡ shifted v.bits v.shift }
{
    v.clamp()
}
