//! Numbers that can be moved between formats.

ghost use Rattle.std.specs.Prelude.{◌≡◌, ◌↔◌, ◌≤◌, ℕ, ℤ, Bool, IsTrue};
ghost use Rattle.fixed_bits.specs.Ranges.{IsInRange, IsWide};
ghost use Rattle.fixed_bits.specs.Images.{IsImage};
ghost use Rattle.fixed_bits.specs.declared.format.Policy.TheVariants.{Saturating, Wrapping};
ghost use Rattle.fixed_convert.specs.Moved.{IsNumWidth, shifted};

use crate::floored::Floored;
use fixed_bits::Inner;

/// A number with bits and a fraction length: its value is its bits over two to the power of the length.
pub trait Num: Copy {
    /// Whether the bits may be negative.
    const SIGNED: bool;

    /// How many bits there are: 1, 8, 16, 32 or 64.
    const WIDTH: u32;

    /// The fraction length: how many bits are after the point.
    const FRAC: u32;

    ghost SIGNED: { Bool };

    ghost WIDTH: { ℕ };

    ghost FRAC: { ℕ };

    /// The bits of a value.
    ghost wide: { Self → ℤ };

    /// The bits, as a number in the range of the sign rule and the width.
    fn to_wide(self) -> i128
        ensures number { result ≡ wide self }
        ensures range { IsInRange SIGNED WIDTH result }
        ensures wide { IsWide result };

    ghost width_law: { IsNumWidth WIDTH };
}

/// A number that a conversion can make.
pub trait NumTarget: Num {
    /// The integer type that holds the bits.
    type Holder: Inner;

    /// Returns the value with these bits.
    fn from_holder(bits: Self::Holder) -> Self
        ensures { Self.wide result ≡ Self.Holder.number bits };

    ghost signed_law: { Self.SIGNED ≡ Self.Holder.SIGNED };

    ghost bits_law: { Self.WIDTH ≡ Self.Holder.BITS };

    /// The Wrapping image of a moved number.
    final fn wrap_wide(v: Floored) -> Self
        requires wide { IsWide v.bits }
        requires shift { v.shift ≤ 64 }
        ensures { IsImage Wrapping Self.SIGNED Self.WIDTH (shifted v.bits v.shift) (Self.wide result) }
    {
        Self::from_holder(v.wrap())
    }

    /// The Saturating image of a moved number.
    final fn clamp_wide(v: Floored) -> Self
        requires wide { IsWide v.bits }
        requires shift { v.shift ≤ 64 }
        ensures { IsImage Saturating Self.SIGNED Self.WIDTH (shifted v.bits v.shift) (Self.wide result) }
    {
        Self::from_holder(v.clamp())
    }

    /// Whether a moved number is in the range of the type.
    final fn fits_wide(v: Floored) -> bool
        requires wide { IsWide v.bits }
        requires shift { v.shift ≤ 64 }
        ensures { IsTrue result ↔ IsInRange Self.SIGNED Self.WIDTH (shifted v.bits v.shift) }
    {
        v.fits::<Self::Holder>()
    }
}
