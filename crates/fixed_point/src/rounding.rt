//! Rounding a number to a whole number: the whole and the fraction part, and four roundings in six forms.

ghost use Rattle.std.specs.Prelude.{◌≡◌, ◌↔◌, ◌≤◌, ◌-ℤ◌, IsTrue, IsSome, IfSome};
ghost use Rattle.fixed_bits.specs.Ranges.{IsInRange, IsOutOfRange};
ghost use Rattle.fixed_bits.specs.Images.{IsImage};
ghost use Rattle.fixed_bits.specs.declared.format.Policy.TheVariants.{Saturating, Wrapping};
ghost use Rattle.fixed_round.specs.Whole.{whole_bits};
ghost use Rattle.fixed_round.specs.Parts.{int_bits, round_to_zero_bits};
ghost use Rattle.fixed_round.specs.declared.rounding.Rounding.TheVariants.{Ceil, Floor, Round, RoundTiesEven};

use crate::number::Fixed;
use fixed_bits::Inner;
use fixed_round::{
    Rounding, checked_whole, overflowing_whole, plain_whole, saturating_whole, wrapping_whole,
};

/// The whole part, the fraction part and rounding towards zero, which cannot overflow.
impl<I: Inner, const FRAC: u32> Fixed<I, FRAC> {
    /// The greatest whole number that is not above the number; zero if the format has no whole bits.
    #[inline]
    pub fn int(self) -> Self
        requires { FRAC ≤ I.BITS }
        ensures { I.number result ≡ int_bits I.BITS (I.number self) FRAC }
    {
        Fixed::from_bits(fixed_round::int(self.to_bits(), FRAC))
    }

    /// The number less its whole part. It is never negative if the format has whole bits.
    #[inline]
    pub fn frac(self) -> Self
        requires { FRAC ≤ I.BITS }
        ensures { I.number result ≡ I.number self -ℤ int_bits I.BITS (I.number self) FRAC }
    {
        Fixed::from_bits(fixed_round::frac(self.to_bits(), FRAC))
    }

    /// The nearest whole number whose magnitude is not above that of the number.
    #[inline]
    pub fn round_to_zero(self) -> Self
        requires { FRAC ≤ I.BITS }
        ensures { I.number result ≡ round_to_zero_bits (I.number self) FRAC }
    {
        Fixed::from_bits(fixed_round::round_to_zero(self.to_bits(), FRAC))
    }
}

/// The least whole number that is not below the number.
impl<I: Inner, const FRAC: u32> Fixed<I, FRAC> {
    /// The least whole number that is not below the number, which must fit.
    #[inline]
    pub fn ceil(self) -> Self
        requires frac { FRAC ≤ I.BITS }
        requires fits { IsInRange I.SIGNED I.BITS (whole_bits Ceil (I.number self) FRAC) }
        ensures { I.number result ≡ whole_bits Ceil (I.number self) FRAC }
    {
        Fixed::from_bits(plain_whole(self.to_bits(), FRAC, Rounding::Ceil))
    }

    /// The least whole number that is not below the number; `None` exactly if it does not fit.
    #[inline]
    pub fn checked_ceil(self) -> Option<Self>
        requires { FRAC ≤ I.BITS }
        ensures exists { IsSome result ↔ IsInRange I.SIGNED I.BITS (whole_bits Ceil (I.number self) FRAC) }
        ensures same { IfSome result (λ x. I.number x ≡ whole_bits Ceil (I.number self) FRAC) }
    {
        Self::from_some(checked_whole(self.to_bits(), FRAC, Rounding::Ceil))
    }

    /// The least whole number that is not below the number; the nearer end of the range if it does not fit.
    #[inline]
    pub fn saturating_ceil(self) -> Self
        requires { FRAC ≤ I.BITS }
        ensures { IsImage Saturating I.SIGNED I.BITS (whole_bits Ceil (I.number self) FRAC) (I.number result) }
    {
        Fixed::from_bits(saturating_whole(self.to_bits(), FRAC, Rounding::Ceil))
    }

    /// The least whole number that is not below the number; its bits wrap around if it does not fit.
    #[inline]
    pub fn wrapping_ceil(self) -> Self
        requires { FRAC ≤ I.BITS }
        ensures { IsImage Wrapping I.SIGNED I.BITS (whole_bits Ceil (I.number self) FRAC) (I.number result) }
    {
        Fixed::from_bits(wrapping_whole(self.to_bits(), FRAC, Rounding::Ceil))
    }

    /// The least whole number that is not below the number, which must fit.
    #[inline]
    pub fn strict_ceil(self) -> Self
        requires frac { FRAC ≤ I.BITS }
        requires fits { IsInRange I.SIGNED I.BITS (whole_bits Ceil (I.number self) FRAC) }
        ensures { I.number result ≡ whole_bits Ceil (I.number self) FRAC }
    {
        self.ceil()
    }

    /// The least whole number that is not below the number: its Wrapping image, and whether it does not fit.
    #[inline]
    pub fn overflowing_ceil(self) -> (Self, bool)
        requires { FRAC ≤ I.BITS }
        ensures image { IsImage Wrapping I.SIGNED I.BITS (whole_bits Ceil (I.number self) FRAC) (I.number result.0) }
        ensures verdict { IsTrue result.1 ↔ IsOutOfRange I.SIGNED I.BITS (whole_bits Ceil (I.number self) FRAC) }
    {
        let (bits, overflowed) = overflowing_whole(self.to_bits(), FRAC, Rounding::Ceil);
        (Fixed::from_bits(bits), overflowed)
    }
}

/// The greatest whole number that is not above the number.
impl<I: Inner, const FRAC: u32> Fixed<I, FRAC> {
    /// The greatest whole number that is not above the number, which must fit.
    #[inline]
    pub fn floor(self) -> Self
        requires frac { FRAC ≤ I.BITS }
        requires fits { IsInRange I.SIGNED I.BITS (whole_bits Floor (I.number self) FRAC) }
        ensures { I.number result ≡ whole_bits Floor (I.number self) FRAC }
    {
        Fixed::from_bits(plain_whole(self.to_bits(), FRAC, Rounding::Floor))
    }

    /// The greatest whole number that is not above the number; `None` exactly if it does not fit.
    #[inline]
    pub fn checked_floor(self) -> Option<Self>
        requires { FRAC ≤ I.BITS }
        ensures exists { IsSome result ↔ IsInRange I.SIGNED I.BITS (whole_bits Floor (I.number self) FRAC) }
        ensures same { IfSome result (λ x. I.number x ≡ whole_bits Floor (I.number self) FRAC) }
    {
        Self::from_some(checked_whole(self.to_bits(), FRAC, Rounding::Floor))
    }

    /// The greatest whole number that is not above the number; the nearer end of the range if it does not fit.
    #[inline]
    pub fn saturating_floor(self) -> Self
        requires { FRAC ≤ I.BITS }
        ensures { IsImage Saturating I.SIGNED I.BITS (whole_bits Floor (I.number self) FRAC) (I.number result) }
    {
        Fixed::from_bits(saturating_whole(self.to_bits(), FRAC, Rounding::Floor))
    }

    /// The greatest whole number that is not above the number; its bits wrap around if it does not fit.
    #[inline]
    pub fn wrapping_floor(self) -> Self
        requires { FRAC ≤ I.BITS }
        ensures { IsImage Wrapping I.SIGNED I.BITS (whole_bits Floor (I.number self) FRAC) (I.number result) }
    {
        Fixed::from_bits(wrapping_whole(self.to_bits(), FRAC, Rounding::Floor))
    }

    /// The greatest whole number that is not above the number, which must fit.
    #[inline]
    pub fn strict_floor(self) -> Self
        requires frac { FRAC ≤ I.BITS }
        requires fits { IsInRange I.SIGNED I.BITS (whole_bits Floor (I.number self) FRAC) }
        ensures { I.number result ≡ whole_bits Floor (I.number self) FRAC }
    {
        self.floor()
    }

    /// The greatest whole number that is not above the number: its Wrapping image, and whether it does not fit.
    #[inline]
    pub fn overflowing_floor(self) -> (Self, bool)
        requires { FRAC ≤ I.BITS }
        ensures image { IsImage Wrapping I.SIGNED I.BITS (whole_bits Floor (I.number self) FRAC) (I.number result.0) }
        ensures verdict { IsTrue result.1 ↔ IsOutOfRange I.SIGNED I.BITS (whole_bits Floor (I.number self) FRAC) }
    {
        let (bits, overflowed) = overflowing_whole(self.to_bits(), FRAC, Rounding::Floor);
        (Fixed::from_bits(bits), overflowed)
    }
}

/// The nearest whole number, ties away from zero.
impl<I: Inner, const FRAC: u32> Fixed<I, FRAC> {
    /// The nearest whole number, ties away from zero, which must fit.
    #[inline]
    pub fn round(self) -> Self
        requires frac { FRAC ≤ I.BITS }
        requires fits { IsInRange I.SIGNED I.BITS (whole_bits Round (I.number self) FRAC) }
        ensures { I.number result ≡ whole_bits Round (I.number self) FRAC }
    {
        Fixed::from_bits(plain_whole(self.to_bits(), FRAC, Rounding::Round))
    }

    /// The nearest whole number, ties away from zero; `None` exactly if it does not fit.
    #[inline]
    pub fn checked_round(self) -> Option<Self>
        requires { FRAC ≤ I.BITS }
        ensures exists { IsSome result ↔ IsInRange I.SIGNED I.BITS (whole_bits Round (I.number self) FRAC) }
        ensures same { IfSome result (λ x. I.number x ≡ whole_bits Round (I.number self) FRAC) }
    {
        Self::from_some(checked_whole(self.to_bits(), FRAC, Rounding::Round))
    }

    /// The nearest whole number, ties away from zero; the nearer end of the range if it does not fit.
    #[inline]
    pub fn saturating_round(self) -> Self
        requires { FRAC ≤ I.BITS }
        ensures { IsImage Saturating I.SIGNED I.BITS (whole_bits Round (I.number self) FRAC) (I.number result) }
    {
        Fixed::from_bits(saturating_whole(self.to_bits(), FRAC, Rounding::Round))
    }

    /// The nearest whole number, ties away from zero; its bits wrap around if it does not fit.
    #[inline]
    pub fn wrapping_round(self) -> Self
        requires { FRAC ≤ I.BITS }
        ensures { IsImage Wrapping I.SIGNED I.BITS (whole_bits Round (I.number self) FRAC) (I.number result) }
    {
        Fixed::from_bits(wrapping_whole(self.to_bits(), FRAC, Rounding::Round))
    }

    /// The nearest whole number, ties away from zero, which must fit.
    #[inline]
    pub fn strict_round(self) -> Self
        requires frac { FRAC ≤ I.BITS }
        requires fits { IsInRange I.SIGNED I.BITS (whole_bits Round (I.number self) FRAC) }
        ensures { I.number result ≡ whole_bits Round (I.number self) FRAC }
    {
        self.round()
    }

    /// The nearest whole number, ties away from zero: its Wrapping image, and whether it does not fit.
    #[inline]
    pub fn overflowing_round(self) -> (Self, bool)
        requires { FRAC ≤ I.BITS }
        ensures image { IsImage Wrapping I.SIGNED I.BITS (whole_bits Round (I.number self) FRAC) (I.number result.0) }
        ensures verdict { IsTrue result.1 ↔ IsOutOfRange I.SIGNED I.BITS (whole_bits Round (I.number self) FRAC) }
    {
        let (bits, overflowed) = overflowing_whole(self.to_bits(), FRAC, Rounding::Round);
        (Fixed::from_bits(bits), overflowed)
    }
}

/// The nearest whole number, ties to even.
impl<I: Inner, const FRAC: u32> Fixed<I, FRAC> {
    /// The nearest whole number, ties to even, which must fit.
    #[inline]
    pub fn round_ties_even(self) -> Self
        requires frac { FRAC ≤ I.BITS }
        requires fits { IsInRange I.SIGNED I.BITS (whole_bits RoundTiesEven (I.number self) FRAC) }
        ensures { I.number result ≡ whole_bits RoundTiesEven (I.number self) FRAC }
    {
        Fixed::from_bits(plain_whole(self.to_bits(), FRAC, Rounding::RoundTiesEven))
    }

    /// The nearest whole number, ties to even; `None` exactly if it does not fit.
    #[inline]
    pub fn checked_round_ties_even(self) -> Option<Self>
        requires { FRAC ≤ I.BITS }
        ensures exists { IsSome result ↔ IsInRange I.SIGNED I.BITS (whole_bits RoundTiesEven (I.number self) FRAC) }
        ensures same { IfSome result (λ x. I.number x ≡ whole_bits RoundTiesEven (I.number self) FRAC) }
    {
        Self::from_some(checked_whole(self.to_bits(), FRAC, Rounding::RoundTiesEven))
    }

    /// The nearest whole number, ties to even; the nearer end of the range if it does not fit.
    #[inline]
    pub fn saturating_round_ties_even(self) -> Self
        requires { FRAC ≤ I.BITS }
        ensures { IsImage Saturating I.SIGNED I.BITS (whole_bits RoundTiesEven (I.number self) FRAC) (I.number result) }
    {
        Fixed::from_bits(saturating_whole(self.to_bits(), FRAC, Rounding::RoundTiesEven))
    }

    /// The nearest whole number, ties to even; its bits wrap around if it does not fit.
    #[inline]
    pub fn wrapping_round_ties_even(self) -> Self
        requires { FRAC ≤ I.BITS }
        ensures { IsImage Wrapping I.SIGNED I.BITS (whole_bits RoundTiesEven (I.number self) FRAC) (I.number result) }
    {
        Fixed::from_bits(wrapping_whole(self.to_bits(), FRAC, Rounding::RoundTiesEven))
    }

    /// The nearest whole number, ties to even, which must fit.
    #[inline]
    pub fn strict_round_ties_even(self) -> Self
        requires frac { FRAC ≤ I.BITS }
        requires fits { IsInRange I.SIGNED I.BITS (whole_bits RoundTiesEven (I.number self) FRAC) }
        ensures { I.number result ≡ whole_bits RoundTiesEven (I.number self) FRAC }
    {
        self.round_ties_even()
    }

    /// The nearest whole number, ties to even: its Wrapping image, and whether it does not fit.
    #[inline]
    pub fn overflowing_round_ties_even(self) -> (Self, bool)
        requires { FRAC ≤ I.BITS }
        ensures image { IsImage Wrapping I.SIGNED I.BITS (whole_bits RoundTiesEven (I.number self) FRAC)
            (I.number result.0) }
        ensures verdict { IsTrue result.1 ↔ IsOutOfRange I.SIGNED I.BITS
            (whole_bits RoundTiesEven (I.number self) FRAC) }
    {
        let (bits, overflowed) = overflowing_whole(self.to_bits(), FRAC, Rounding::RoundTiesEven);
        (Fixed::from_bits(bits), overflowed)
    }
}
