//! Conversion to and from types of fixed-point numbers. The moved number is the bits of the source, moved down from its
//! fraction length to that of the target.

ghost use Rattle.std.specs.Prelude.{◌≡◌, ◌↔◌, ◌≤◌, IsTrue, IsSome, IfSome, Option};
ghost use Rattle.fixed_bits.specs.Ranges.{IsInRange, IsOutOfRange};
ghost use Rattle.fixed_bits.specs.Images.{IsImage};
ghost use Rattle.fixed_bits.specs.Down.{down};
ghost use Rattle.fixed_bits.specs.declared.format.Policy.TheVariants.{Saturating, Wrapping};

use crate::num::{Num, NumTarget};
use crate::to_bits::{checked_bits, overflowing_bits, plain_bits, saturating_bits, wrapping_bits};
use crate::to_number::{
    checked_number, overflowing_number, plain_number, saturating_number, wrapping_number,
};
use fixed_bits::{FixedBits, Inner};

/// A number that can be moved into a type of fixed-point numbers.
pub trait ToFixed: Num {
    /// Returns the moved number, which must fit.
    fn to_fixed<F: FixedBits>(self) -> F
        requires source { Self.FRAC ≤ Self.WIDTH }
        requires target { F.FRAC_NBITS ≤ F.Inner.BITS }
        requires fits { IsInRange F.Inner.SIGNED F.Inner.BITS (down (Self.wide self) Self.FRAC F.FRAC_NBITS) }
        ensures { F.Inner.number (F.bits_of result) ≡ down (Self.wide self) Self.FRAC F.FRAC_NBITS };

    /// Returns the moved number; `None` exactly if it does not fit.
    fn checked_to_fixed<F: FixedBits>(self) -> Option<F>
        requires source { Self.FRAC ≤ Self.WIDTH }
        requires target { F.FRAC_NBITS ≤ F.Inner.BITS }
        ensures exists { IsSome result ↔ IsInRange F.Inner.SIGNED F.Inner.BITS
            (down (Self.wide self) Self.FRAC F.FRAC_NBITS) }
        ensures same { IfSome result (λ x. F.Inner.number (F.bits_of x) ≡ down (Self.wide self) Self.FRAC F.FRAC_NBITS) };

    /// Returns the Saturating image of the moved number.
    fn saturating_to_fixed<F: FixedBits>(self) -> F
        requires source { Self.FRAC ≤ Self.WIDTH }
        requires target { F.FRAC_NBITS ≤ F.Inner.BITS }
        ensures { IsImage Saturating F.Inner.SIGNED F.Inner.BITS (down (Self.wide self) Self.FRAC F.FRAC_NBITS)
            (F.Inner.number (F.bits_of result)) };

    /// Returns the Wrapping image of the moved number.
    fn wrapping_to_fixed<F: FixedBits>(self) -> F
        requires source { Self.FRAC ≤ Self.WIDTH }
        requires target { F.FRAC_NBITS ≤ F.Inner.BITS }
        ensures { IsImage Wrapping F.Inner.SIGNED F.Inner.BITS (down (Self.wide self) Self.FRAC F.FRAC_NBITS)
            (F.Inner.number (F.bits_of result)) };

    /// Returns the Wrapping image of the moved number, and whether it does not fit.
    fn overflowing_to_fixed<F: FixedBits>(self) -> (F, bool)
        requires source { Self.FRAC ≤ Self.WIDTH }
        requires target { F.FRAC_NBITS ≤ F.Inner.BITS }
        ensures image { IsImage Wrapping F.Inner.SIGNED F.Inner.BITS (down (Self.wide self) Self.FRAC F.FRAC_NBITS)
            (F.Inner.number (F.bits_of result.0)) }
        ensures verdict { IsTrue result.1 ↔ IsOutOfRange F.Inner.SIGNED F.Inner.BITS
            (down (Self.wide self) Self.FRAC F.FRAC_NBITS) };

    /// Returns the moved number, which must fit.
    fn strict_to_fixed<F: FixedBits>(self) -> F
        requires source { Self.FRAC ≤ Self.WIDTH }
        requires target { F.FRAC_NBITS ≤ F.Inner.BITS }
        requires fits { IsInRange F.Inner.SIGNED F.Inner.BITS (down (Self.wide self) Self.FRAC F.FRAC_NBITS) }
        ensures { F.Inner.number (F.bits_of result) ≡ down (Self.wide self) Self.FRAC F.FRAC_NBITS };
}

impl<T: Num> ToFixed for T {
    fn to_fixed<F: FixedBits>(self) -> F {
        F::from_bits(plain_bits(self.to_wide(), T::FRAC, F::FRAC_NBITS))
    }

    fn checked_to_fixed<F: FixedBits>(self) -> Option<F> {
        match checked_bits(self.to_wide(), T::FRAC, F::FRAC_NBITS) {
            Some(bits) => Some(F::from_bits(bits)),
            None => None,
        }
    }

    fn saturating_to_fixed<F: FixedBits>(self) -> F {
        F::from_bits(saturating_bits(self.to_wide(), T::FRAC, F::FRAC_NBITS))
    }

    fn wrapping_to_fixed<F: FixedBits>(self) -> F {
        F::from_bits(wrapping_bits(self.to_wide(), T::FRAC, F::FRAC_NBITS))
    }

    fn overflowing_to_fixed<F: FixedBits>(self) -> (F, bool) {
        let (bits, overflowed) = overflowing_bits(self.to_wide(), T::FRAC, F::FRAC_NBITS);
        (F::from_bits(bits), overflowed)
    }

    fn strict_to_fixed<F: FixedBits>(self) -> F {
        F::from_bits(plain_bits(self.to_wide(), T::FRAC, F::FRAC_NBITS))
    }
}

/// A number that can be made from a fixed-point number.
pub trait FromFixed: NumTarget {
    /// Returns the moved number, which must fit.
    fn from_fixed<F: FixedBits>(src: F) -> Self
        requires source { F.FRAC_NBITS ≤ F.Inner.BITS }
        requires target { Self.FRAC ≤ Self.WIDTH }
        requires fits { IsInRange Self.SIGNED Self.WIDTH (down (F.Inner.number (F.bits_of src)) F.FRAC_NBITS Self.FRAC) }
        ensures { Self.wide result ≡ down (F.Inner.number (F.bits_of src)) F.FRAC_NBITS Self.FRAC };

    /// Returns the moved number; `None` exactly if it does not fit.
    fn checked_from_fixed<F: FixedBits>(src: F) -> Option<Self>
        requires source { F.FRAC_NBITS ≤ F.Inner.BITS }
        requires target { Self.FRAC ≤ Self.WIDTH }
        ensures exists { IsSome result ↔ IsInRange Self.SIGNED Self.WIDTH
            (down (F.Inner.number (F.bits_of src)) F.FRAC_NBITS Self.FRAC) }
        ensures same { IfSome result (λ x. Self.wide x ≡ down (F.Inner.number (F.bits_of src)) F.FRAC_NBITS Self.FRAC) };

    /// Returns the Saturating image of the moved number.
    fn saturating_from_fixed<F: FixedBits>(src: F) -> Self
        requires source { F.FRAC_NBITS ≤ F.Inner.BITS }
        requires target { Self.FRAC ≤ Self.WIDTH }
        ensures { IsImage Saturating Self.SIGNED Self.WIDTH (down
            (F.Inner.number (F.bits_of src)) F.FRAC_NBITS Self.FRAC) (Self.wide result) };

    /// Returns the Wrapping image of the moved number.
    fn wrapping_from_fixed<F: FixedBits>(src: F) -> Self
        requires source { F.FRAC_NBITS ≤ F.Inner.BITS }
        requires target { Self.FRAC ≤ Self.WIDTH }
        ensures { IsImage Wrapping Self.SIGNED Self.WIDTH (down (F.Inner.number (F.bits_of src)) F.FRAC_NBITS Self.FRAC)
            (Self.wide result) };

    /// Returns the Wrapping image of the moved number, and whether it does not fit.
    fn overflowing_from_fixed<F: FixedBits>(src: F) -> (Self, bool)
        requires source { F.FRAC_NBITS ≤ F.Inner.BITS }
        requires target { Self.FRAC ≤ Self.WIDTH }
        ensures image { IsImage Wrapping Self.SIGNED Self.WIDTH
            (down (F.Inner.number (F.bits_of src)) F.FRAC_NBITS Self.FRAC) (Self.wide result.0) }
        ensures verdict { IsTrue result.1 ↔ IsOutOfRange Self.SIGNED Self.WIDTH
            (down (F.Inner.number (F.bits_of src)) F.FRAC_NBITS Self.FRAC) };

    /// Returns the moved number, which must fit.
    fn strict_from_fixed<F: FixedBits>(src: F) -> Self
        requires source { F.FRAC_NBITS ≤ F.Inner.BITS }
        requires target { Self.FRAC ≤ Self.WIDTH }
        requires fits { IsInRange Self.SIGNED Self.WIDTH (down (F.Inner.number (F.bits_of src)) F.FRAC_NBITS Self.FRAC) }
        ensures { Self.wide result ≡ down (F.Inner.number (F.bits_of src)) F.FRAC_NBITS Self.FRAC };
}

impl<T: NumTarget> FromFixed for T {
    fn from_fixed<F: FixedBits>(src: F) -> T {
        plain_number(src.to_bits().value(), F::FRAC_NBITS)
    }

    fn checked_from_fixed<F: FixedBits>(src: F) -> Option<T> {
        checked_number(src.to_bits().value(), F::FRAC_NBITS)
    }

    fn saturating_from_fixed<F: FixedBits>(src: F) -> T {
        saturating_number(src.to_bits().value(), F::FRAC_NBITS)
    }

    fn wrapping_from_fixed<F: FixedBits>(src: F) -> T {
        wrapping_number(src.to_bits().value(), F::FRAC_NBITS)
    }

    fn overflowing_from_fixed<F: FixedBits>(src: F) -> (T, bool) {
        overflowing_number(src.to_bits().value(), F::FRAC_NBITS)
    }

    fn strict_from_fixed<F: FixedBits>(src: F) -> T {
        plain_number(src.to_bits().value(), F::FRAC_NBITS)
    }
}
