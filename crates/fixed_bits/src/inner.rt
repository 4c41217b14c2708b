//! The operations of an integer type that holds the bits of a fixed-point number.

ghost use Rattle.std.specs.Prelude.{◌≡◌, ◌↔◌, ℕ, ℤ, pos, Bool, IsTrue};
ghost use Rattle.std.specs.Ordering.{int_cmp};
ghost use Rattle.fixed_bits.specs.Ranges.{IsWide, IsInRange, IsTypeWidth, lowest, greatest};
ghost use Rattle.fixed_bits.specs.Images.{IsWrapped, IsSaturated};
ghost use Rattle.fixed_bits.specs.Down.{IsDown};

use crate::masks::floor_quotient;
use std::hash::Hash;

/// An integer type that holds the bits of a fixed-point number. Its equality and order are those of its numbers.
pub trait Inner: Copy + Eq + Ord + Hash {
    /// How many bits a value has: 8, 16, 32 or 64.
    const BITS: u32;

    /// Whether a value may be negative.
    const SIGNED: bool;

    /// The value of the number 0.
    const ZERO: Self;

    /// The value of the lowest number.
    const MIN: Self;

    /// The value of the greatest number.
    const MAX: Self;

    ghost BITS: { ℕ };

    ghost SIGNED: { Bool };

    ghost ZERO: { Self };

    ghost MIN: { Self };

    ghost MAX: { Self };

    /// The number that a value stands for.
    ghost number: { Self → ℤ };

    /// The value whose number is in range and differs from a number by a multiple of two to the power of `BITS`.
    ghost wrapped: { ℤ → Self };

    /// Returns the number of the value, in the type's range.
    fn value(self) -> i128
        ensures number { result ≡ number self }
        ensures range { IsInRange SIGNED BITS (number self) }
        ensures wide { IsWide result }
        ensures back { wrapped (number self) ≡ self };

    /// Returns the Wrapping image of a number: in range, and different from it by a multiple of two to the power of
    /// `BITS`.
    fn wrap(v: i128) -> Self
        ensures { result ≡ wrapped v };

    ghost width_law: { IsTypeWidth BITS };

    ghost zero_law: { number ZERO ≡ pos 0 };

    ghost min_law: { number MIN ≡ lowest SIGNED BITS };

    ghost max_law: { number MAX ≡ greatest SIGNED BITS };

    ghost wrap_law: { (v : ℤ) → IsWrapped SIGNED BITS v (number (wrapped v)) };

    ghost back_law: { (x : Self) → IsInRange SIGNED BITS (number x) → wrapped (number x) ≡ x };

    ghost order_law: { (x y : Self) → Self.cmp x y ≡ int_cmp (number x) (number y) };

    ghost eq_law: { (x y : Self) → IsTrue (Self.eq x y) ↔ (number x ≡ number y) };

    /// Returns the Saturating image of a number: itself if it is in range, else the nearer end of the range.
    final fn saturate(v: i128) -> Self
        ensures { IsSaturated SIGNED BITS v (number result) }
    {
        let (low, high) = ends::<Self>();
        if v < low {
            Self::MIN
        } else if v > high {
            Self::MAX
        } else {
            Self::wrap(v)
        }
    }

    /// Whether a number is in the type's range.
    final fn fits(v: i128) -> bool
        ensures { IsTrue result ↔ IsInRange SIGNED BITS v }
    {
        let (low, high) = ends::<Self>();
        low <= v && v <= high
    }

    /// Returns the greatest whole number not above the value over two to the power of `k`, for any `k`.
    final fn floor_shift(self, k: u32) -> Self
        ensures { IsDown (number self) k 0 (number result) }
    {
        Self::wrap(floor_quotient(self.value(), k))
    }
}

/// Returns the lowest and the greatest number of the type's range.
fn ends<I: Inner>() -> (i128, i128)
    ensures low { result.0 ≡ lowest I.SIGNED I.BITS }
    ensures high { result.1 ≡ greatest I.SIGNED I.BITS }
{
    (I::MIN.value(), I::MAX.value())
}
