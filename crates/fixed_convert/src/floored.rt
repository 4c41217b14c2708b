//! A number moved down to another fraction length.

ghost use Rattle.std.specs.Prelude.{◌≡◌, ◌↔◌, ◌≤◌, ◌<◌, ◌-◌, IsTrue, IsNone, IfSome};
ghost use Rattle.fixed_bits.specs.Ranges.{IsInRange, IsOutOfRange, IsWide};
ghost use Rattle.fixed_bits.specs.Formats.{IsFormat};
ghost use Rattle.fixed_bits.specs.Images.{IsImage, IsOutOfRangeBy};
ghost use Rattle.fixed_bits.specs.Numbers.{IsImageUnlessRefused, number_of_image, with_sign};
ghost use Rattle.fixed_bits.specs.Down.{IsDown, down};
ghost use Rattle.fixed_bits.specs.declared.format.Policy.TheVariants.{Checked, Saturating, Wrapping};
ghost use Rattle.fixed_convert.specs.Moved.{shifted};
ghost use Rattle.fixed_convert.specs.Inner.Representative.{Represents};

use fixed_bits::{Format, Image, Inner, Policy, moved, sign_and_magnitude};

/// The whole number `bits` times two to the power of `shift`.
#[derive(Clone, Copy, Debug, PartialEq, Eq)]
pub struct Floored {
    /// A number from -2^63 to 2^64 - 1 if `floor_into` made it.
    pub bits: i128,
    /// How many zero bits follow, at most 64 if `floor_into` made it.
    pub shift: u32,
}

impl Floored {
    /// The Wrapping image of the number in the type's range.
    pub fn wrap<I: Inner>(self) -> I
        requires wide { IsWide self.bits }
        requires shift { self.shift ≤ 64 }
        ensures { IsImage Wrapping I.SIGNED I.BITS (shifted self.bits self.shift) (I.number result) }
    {
        I::wrap(self.representative())
    }

    /// The Saturating image of the number in the type's range.
    pub fn clamp<I: Inner>(self) -> I
        requires wide { IsWide self.bits }
        requires shift { self.shift ≤ 64 }
        ensures { IsImage Saturating I.SIGNED I.BITS (shifted self.bits self.shift) (I.number result) }
    {
        I::saturate(self.representative())
    }

    /// Whether the number is in the type's range.
    pub fn fits<I: Inner>(self) -> bool
        requires wide { IsWide self.bits }
        requires shift { self.shift ≤ 64 }
        ensures { IsTrue result ↔ IsInRange I.SIGNED I.BITS (shifted self.bits self.shift) }
    {
        I::fits(self.representative())
    }

    /// Returns the number itself or, if it may be longer than 127 bits, one with the same images.
    pub(crate) fn representative(self) -> i128
        requires { IsWide self.bits }
        ensures { Represents (shifted self.bits self.shift) result }
    {
        if self.shift < 64 {
            times_power(self.bits, self.shift)
        } else if self.bits > 0 {
            1 << 64
        } else if self.bits < 0 {
            -(1 << 64)
        } else {
            0
        }
    }
}

/// Returns a number times two to the power of `shift`.
fn times_power(b: i128, shift: u32) -> i128
    requires wide { IsWide b }
    requires shift { shift < 64 }
    ensures { result ≡ shifted b shift }
{
    b << shift
}

/// Moves the bits `b` down from fraction length `from` to fraction length `g`. Returns the greatest whole number that
/// is not above `b` · 2^`g` / 2^`from`.
pub fn floor_into(b: i128, from: u32, g: u32) -> Floored
    requires wide { IsWide b }
    requires from { from ≤ 64 }
    requires to { g ≤ 64 }
    ensures number { shifted result.bits result.shift ≡ down b from g }
    ensures relation { IsDown b from g (shifted result.bits result.shift) }
    ensures wide { IsWide result.bits }
    ensures shift { result.shift ≤ 64 }
{
    if from <= g {
        Floored {
            bits: b,
            shift: g - from,
        }
    } else {
        Floored {
            bits: shifted_out(b, from - g),
            shift: 0,
        }
    }
}

/// Returns the bits without the last `k`.
fn shifted_out(b: i128, k: u32) -> i128
    requires wide { IsWide b }
    requires shift { k ≤ 64 }
    ensures number { IsDown b k 0 result }
    ensures wide { IsWide result }
{
    b >> k
}

/// Returns the image of the number with this sign and magnitude, moved down from fraction length `from` to that of the
/// format, and whether the moved number was out of the policy's range. If it was, under `Checked`, there is no image,
/// and any number in range is returned for it.
#[inline(always)]
pub fn reformat_signed(
    format: Format,
    policy: Policy,
    negative: bool,
    magnitude: u64,
    from: u32,
) -> Image
    requires { from ≤ 64 }
    ensures image { IsImageUnlessRefused policy format (down (with_sign negative magnitude) from format.frac) result }
    ensures verdict { IsTrue result.is_out_of_range
        ↔ IsOutOfRangeBy policy format.signed format.width (down (with_sign negative magnitude) from format.frac) }
    ensures range { IsInRange format.signed format.width (number_of_image result) }
    ensures valid { IsFormat format.width format.frac }
{
    moved(negative, magnitude, from, format.frac()).image(format, policy)
}

/// Returns the image of the bits `b`, moved down from fraction length `from` to that of the format, and whether the
/// moved number was out of the policy's range. `None` exactly if it was, under `Checked`.
pub fn reformat(format: Format, policy: Policy, b: i128, from: u32) -> Option<(i128, bool)>
    requires wide { IsWide b }
    requires from { from ≤ 64 }
    ensures image { IfSome result (λ r. IsImage policy format.signed format.width (down b from format.frac) r.0) }
    ensures verdict { IfSome result (λ r. IsTrue r.1 ↔ IsOutOfRangeBy policy format.signed format.width
        (down b from format.frac)) }
    ensures none { IsNone result ↔ ((policy ≡ Checked) × IsOutOfRange format.signed format.width
        (down b from format.frac)) }
    ensures range { IfSome result (λ r. IsInRange format.signed format.width r.0) }
    ensures wide { IfSome result (λ r. IsWide r.0) }
{
    let (negative, magnitude) = sign_and_magnitude(b);
    let image = reformat_signed(format, policy, negative, magnitude, from);
    match image.admitted(policy) {
        Some(c) => Some((c, image.is_out_of_range)),
        None => None,
    }
}
