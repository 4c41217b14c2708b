//! Lossless conversions, as `From`: between integers and numbers without fraction bits, and to a wider type with the
//! same fraction length. `lossless_from` of fixed_convert serves every other pair of types.

ghost use Rattle.std.specs.Prelude.{◌≡◌, pos};

use crate::number::Fixed;
use fixed_bits::Inner;

/// An integer is a number without fraction bits.
impl<I: Inner> From<I> for Fixed<I, 0> {
    ghost from_gives = { λ bits x. x ≡ bits };

    #[inline]
    fn from(bits: I) -> Self {
        Fixed { bits }
    }
}

impl From<Fixed<i8, 0>> for i8 {
    ghost from_gives = { λ x bits. bits ≡ x };

    #[inline]
    fn from(x: Fixed<i8, 0>) -> i8 {
        x.bits
    }
}

impl From<Fixed<i16, 0>> for i16 {
    ghost from_gives = { λ x bits. bits ≡ x };

    #[inline]
    fn from(x: Fixed<i16, 0>) -> i16 {
        x.bits
    }
}

impl From<Fixed<i32, 0>> for i32 {
    ghost from_gives = { λ x bits. bits ≡ x };

    #[inline]
    fn from(x: Fixed<i32, 0>) -> i32 {
        x.bits
    }
}

impl From<Fixed<i64, 0>> for i64 {
    ghost from_gives = { λ x bits. bits ≡ x };

    #[inline]
    fn from(x: Fixed<i64, 0>) -> i64 {
        x.bits
    }
}

impl From<Fixed<u8, 0>> for u8 {
    ghost from_gives = { λ x bits. bits ≡ x };

    #[inline]
    fn from(x: Fixed<u8, 0>) -> u8 {
        x.bits
    }
}

impl From<Fixed<u16, 0>> for u16 {
    ghost from_gives = { λ x bits. bits ≡ x };

    #[inline]
    fn from(x: Fixed<u16, 0>) -> u16 {
        x.bits
    }
}

impl From<Fixed<u32, 0>> for u32 {
    ghost from_gives = { λ x bits. bits ≡ x };

    #[inline]
    fn from(x: Fixed<u32, 0>) -> u32 {
        x.bits
    }
}

impl From<Fixed<u64, 0>> for u64 {
    ghost from_gives = { λ x bits. bits ≡ x };

    #[inline]
    fn from(x: Fixed<u64, 0>) -> u64 {
        x.bits
    }
}

impl<const FRAC: u32> From<Fixed<i8, FRAC>> for Fixed<i16, FRAC> {
    ghost from_gives = { λ x y. y ≡ x };

    #[inline]
    fn from(x: Fixed<i8, FRAC>) -> Self {
        Fixed {
            bits: i16::from(x.bits),
        }
    }
}

impl<const FRAC: u32> From<Fixed<u8, FRAC>> for Fixed<u16, FRAC> {
    ghost from_gives = { λ x y. y ≡ x };

    #[inline]
    fn from(x: Fixed<u8, FRAC>) -> Self {
        Fixed {
            bits: u16::from(x.bits),
        }
    }
}

impl<const FRAC: u32> From<Fixed<u8, FRAC>> for Fixed<i16, FRAC> {
    ghost from_gives = { λ x y. y ≡ pos x };

    #[inline]
    fn from(x: Fixed<u8, FRAC>) -> Self {
        Fixed {
            bits: i16::from(x.bits),
        }
    }
}

impl<const FRAC: u32> From<Fixed<i8, FRAC>> for Fixed<i32, FRAC> {
    ghost from_gives = { λ x y. y ≡ x };

    #[inline]
    fn from(x: Fixed<i8, FRAC>) -> Self {
        Fixed {
            bits: i32::from(x.bits),
        }
    }
}

impl<const FRAC: u32> From<Fixed<u8, FRAC>> for Fixed<u32, FRAC> {
    ghost from_gives = { λ x y. y ≡ x };

    #[inline]
    fn from(x: Fixed<u8, FRAC>) -> Self {
        Fixed {
            bits: u32::from(x.bits),
        }
    }
}

impl<const FRAC: u32> From<Fixed<u8, FRAC>> for Fixed<i32, FRAC> {
    ghost from_gives = { λ x y. y ≡ pos x };

    #[inline]
    fn from(x: Fixed<u8, FRAC>) -> Self {
        Fixed {
            bits: i32::from(x.bits),
        }
    }
}

impl<const FRAC: u32> From<Fixed<i8, FRAC>> for Fixed<i64, FRAC> {
    ghost from_gives = { λ x y. y ≡ x };

    #[inline]
    fn from(x: Fixed<i8, FRAC>) -> Self {
        Fixed {
            bits: i64::from(x.bits),
        }
    }
}

impl<const FRAC: u32> From<Fixed<u8, FRAC>> for Fixed<u64, FRAC> {
    ghost from_gives = { λ x y. y ≡ x };

    #[inline]
    fn from(x: Fixed<u8, FRAC>) -> Self {
        Fixed {
            bits: u64::from(x.bits),
        }
    }
}

impl<const FRAC: u32> From<Fixed<u8, FRAC>> for Fixed<i64, FRAC> {
    ghost from_gives = { λ x y. y ≡ pos x };

    #[inline]
    fn from(x: Fixed<u8, FRAC>) -> Self {
        Fixed {
            bits: i64::from(x.bits),
        }
    }
}

impl<const FRAC: u32> From<Fixed<i16, FRAC>> for Fixed<i32, FRAC> {
    ghost from_gives = { λ x y. y ≡ x };

    #[inline]
    fn from(x: Fixed<i16, FRAC>) -> Self {
        Fixed {
            bits: i32::from(x.bits),
        }
    }
}

impl<const FRAC: u32> From<Fixed<u16, FRAC>> for Fixed<u32, FRAC> {
    ghost from_gives = { λ x y. y ≡ x };

    #[inline]
    fn from(x: Fixed<u16, FRAC>) -> Self {
        Fixed {
            bits: u32::from(x.bits),
        }
    }
}

impl<const FRAC: u32> From<Fixed<u16, FRAC>> for Fixed<i32, FRAC> {
    ghost from_gives = { λ x y. y ≡ pos x };

    #[inline]
    fn from(x: Fixed<u16, FRAC>) -> Self {
        Fixed {
            bits: i32::from(x.bits),
        }
    }
}

impl<const FRAC: u32> From<Fixed<i16, FRAC>> for Fixed<i64, FRAC> {
    ghost from_gives = { λ x y. y ≡ x };

    #[inline]
    fn from(x: Fixed<i16, FRAC>) -> Self {
        Fixed {
            bits: i64::from(x.bits),
        }
    }
}

impl<const FRAC: u32> From<Fixed<u16, FRAC>> for Fixed<u64, FRAC> {
    ghost from_gives = { λ x y. y ≡ x };

    #[inline]
    fn from(x: Fixed<u16, FRAC>) -> Self {
        Fixed {
            bits: u64::from(x.bits),
        }
    }
}

impl<const FRAC: u32> From<Fixed<u16, FRAC>> for Fixed<i64, FRAC> {
    ghost from_gives = { λ x y. y ≡ pos x };

    #[inline]
    fn from(x: Fixed<u16, FRAC>) -> Self {
        Fixed {
            bits: i64::from(x.bits),
        }
    }
}

impl<const FRAC: u32> From<Fixed<i32, FRAC>> for Fixed<i64, FRAC> {
    ghost from_gives = { λ x y. y ≡ x };

    #[inline]
    fn from(x: Fixed<i32, FRAC>) -> Self {
        Fixed {
            bits: i64::from(x.bits),
        }
    }
}

impl<const FRAC: u32> From<Fixed<u32, FRAC>> for Fixed<u64, FRAC> {
    ghost from_gives = { λ x y. y ≡ x };

    #[inline]
    fn from(x: Fixed<u32, FRAC>) -> Self {
        Fixed {
            bits: u64::from(x.bits),
        }
    }
}

impl<const FRAC: u32> From<Fixed<u32, FRAC>> for Fixed<i64, FRAC> {
    ghost from_gives = { λ x y. y ≡ pos x };

    #[inline]
    fn from(x: Fixed<u32, FRAC>) -> Self {
        Fixed {
            bits: i64::from(x.bits),
        }
    }
}
