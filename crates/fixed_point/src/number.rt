//! The number type and its bits.

ghost use Rattle.std.specs.Prelude.{◌≡◌, refl};

use fixed_bits::{FixedBits, Inner};
use std::marker::Model;

/// A fixed-point number: `bits` ulps of 2^-`FRAC`. Equality, order and hash are those of the bits.
///
/// `FRAC` may be above the width of `I` unless a call requires otherwise; such a number has leading zeros after the
/// point and is shown as `(bits >> FRAC)`.
#[derive(Clone, Copy, PartialEq, Eq, PartialOrd, Ord, Hash)]
pub struct Fixed<I, const FRAC: u32> {
    pub(crate) bits: I,
}

impl<I, const FRAC: u32> Model for Fixed<I, FRAC> {
    ghost Value = { I };

    ghost view = { λ x. x.bits };

    ghost inverse = { λ b. record { bits = b } };
}

/// 8 bits with a sign, `FRAC` of them after the point.
pub type FixedI8<const FRAC: u32> = Fixed<i8, FRAC>;

/// 16 bits with a sign, `FRAC` of them after the point.
pub type FixedI16<const FRAC: u32> = Fixed<i16, FRAC>;

/// 32 bits with a sign, `FRAC` of them after the point.
pub type FixedI32<const FRAC: u32> = Fixed<i32, FRAC>;

/// 64 bits with a sign, `FRAC` of them after the point.
pub type FixedI64<const FRAC: u32> = Fixed<i64, FRAC>;

/// 8 bits without a sign, `FRAC` of them after the point.
pub type FixedU8<const FRAC: u32> = Fixed<u8, FRAC>;

/// 16 bits without a sign, `FRAC` of them after the point.
pub type FixedU16<const FRAC: u32> = Fixed<u16, FRAC>;

/// 32 bits without a sign, `FRAC` of them after the point.
pub type FixedU32<const FRAC: u32> = Fixed<u32, FRAC>;

/// 64 bits without a sign, `FRAC` of them after the point.
pub type FixedU64<const FRAC: u32> = Fixed<u64, FRAC>;

impl<I: Inner, const FRAC: u32> Fixed<I, FRAC> {
    /// The number with these bits.
    #[inline]
    pub fn from_bits(bits: I) -> Self
        ensures { result ≡ bits }
    {
        Fixed { bits }
    }

    /// The bits of the number.
    #[inline]
    pub fn to_bits(self) -> I
        ensures { result ≡ self }
    {
        self.bits
    }

    /// The number with these bits, if any.
    #[inline]
    pub(crate) fn from_some(bits: Option<I>) -> Option<Self>
        ensures { result ≡ bits }
    {
        match bits {
            Some(bits) => Some(Fixed { bits }),
            None => None,
        }
    }
}

impl<I: Inner, const FRAC: u32> Default for Fixed<I, FRAC> {
    ghost is_default = { λ x. x ≡ I.ZERO };

    #[inline]
    fn default() -> Self {
        Fixed { bits: I::ZERO }
    }
}

impl<I: Inner, const FRAC: u32> FixedBits for Fixed<I, FRAC> {
    type Inner = I;

    const FRAC_NBITS: u32 = FRAC;

    ghost FRAC_NBITS = { FRAC };

    ghost bits_of = { λ x. x };

    ghost of_bits = { λ b. b };

    #[inline]
    fn from_bits(bits: I) -> Self {
        Fixed { bits }
    }

    #[inline]
    fn to_bits(self) -> I {
        self.bits
    }

    ghost bits_law = { λ _. refl };

    ghost value_law = { λ _. refl };
}
