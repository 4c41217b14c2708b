//! The forms of a conversion whose target is an integer type and a fraction length.

ghost use Rattle.std.specs.Prelude.{◌≡◌, ◌↔◌, ◌≤◌, IsTrue, IsSome, IfSome};
ghost use Rattle.fixed_bits.specs.Ranges.{IsInRange, IsOutOfRange, IsWide};
ghost use Rattle.fixed_bits.specs.Images.{IsImage};
ghost use Rattle.fixed_bits.specs.Down.{down};
ghost use Rattle.fixed_bits.specs.declared.format.Policy.TheVariants.{Saturating, Wrapping};

use crate::floored::floor_into;
use fixed_bits::Inner;

/// Returns the moved number, which must fit.
pub(crate) fn plain_bits<I: Inner>(b: i128, from: u32, g: u32) -> I
    requires wide { IsWide b }
    requires from { from ≤ 64 }
    requires to { g ≤ 64 }
    requires fits { IsInRange I.SIGNED I.BITS (down b from g) }
    ensures { I.number result ≡ down b from g }
{
    floor_into(b, from, g).clamp()
}

/// Returns the moved number if it fits.
pub(crate) fn checked_bits<I: Inner>(b: i128, from: u32, g: u32) -> Option<I>
    requires wide { IsWide b }
    requires from { from ≤ 64 }
    requires to { g ≤ 64 }
    ensures exists { IsSome result ↔ IsInRange I.SIGNED I.BITS (down b from g) }
    ensures same { IfSome result (λ x. I.number x ≡ down b from g) }
{
    let moved = floor_into(b, from, g);
    if moved.fits::<I>() {
        Some(moved.clamp())
    } else {
        None
    }
}

/// The Saturating image of the moved number.
pub(crate) fn saturating_bits<I: Inner>(b: i128, from: u32, g: u32) -> I
    requires wide { IsWide b }
    requires from { from ≤ 64 }
    requires to { g ≤ 64 }
    ensures { IsImage Saturating I.SIGNED I.BITS (down b from g) (I.number result) }
{
    floor_into(b, from, g).clamp()
}

/// The Wrapping image of the moved number.
pub(crate) fn wrapping_bits<I: Inner>(b: i128, from: u32, g: u32) -> I
    requires wide { IsWide b }
    requires from { from ≤ 64 }
    requires to { g ≤ 64 }
    ensures { IsImage Wrapping I.SIGNED I.BITS (down b from g) (I.number result) }
{
    floor_into(b, from, g).wrap()
}

/// The Wrapping image of the moved number, and whether it does not fit.
pub(crate) fn overflowing_bits<I: Inner>(b: i128, from: u32, g: u32) -> (I, bool)
    requires wide { IsWide b }
    requires from { from ≤ 64 }
    requires to { g ≤ 64 }
    ensures image { IsImage Wrapping I.SIGNED I.BITS (down b from g) (I.number result.0) }
    ensures verdict { IsTrue result.1 ↔ IsOutOfRange I.SIGNED I.BITS (down b from g) }
{
    let moved = floor_into(b, from, g);
    (moved.wrap(), !moved.fits::<I>())
}
