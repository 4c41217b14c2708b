//! Types whose values are the bits of a fixed-point number.

ghost use Rattle.std.specs.Prelude.{◌≡◌, ℕ};

use crate::inner::Inner;

/// A type whose values are bits over two to the power of `FRAC_NBITS`.
pub trait FixedBits: Copy {
    /// The integer type of the bits.
    type Inner: Inner;

    /// The fraction length: how many bits are after the point.
    const FRAC_NBITS: u32;

    ghost FRAC_NBITS: { ℕ };

    /// The bits of a value.
    ghost bits_of: { Self → Self.Inner };

    /// The value with these bits.
    ghost of_bits: { Self.Inner → Self };

    /// Returns the value with these bits; `to_bits` undoes it.
    fn from_bits(bits: Self::Inner) -> Self
        ensures value { result ≡ of_bits bits }
        ensures back { bits_of result ≡ bits };

    /// Returns the bits of the value; `from_bits` undoes it.
    fn to_bits(self) -> Self::Inner
        ensures bits { result ≡ bits_of self }
        ensures back { of_bits result ≡ self };

    ghost bits_law: { (b : Self.Inner) → bits_of (of_bits b) ≡ b };

    ghost value_law: { (x : Self) → of_bits (bits_of x) ≡ x };
}
