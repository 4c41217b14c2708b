//! The forms of a conversion whose target is a number.

ghost use Rattle.std.specs.Prelude.{◌≡◌, ◌↔◌, ◌≤◌, IsTrue, IsSome, IfSome};
ghost use Rattle.fixed_bits.specs.Ranges.{IsInRange, IsOutOfRange, IsWide};
ghost use Rattle.fixed_bits.specs.Images.{IsImage};
ghost use Rattle.fixed_bits.specs.Down.{down};
ghost use Rattle.fixed_bits.specs.declared.format.Policy.TheVariants.{Saturating, Wrapping};

use crate::num::NumTarget;
use crate::to_bits::{checked_bits, overflowing_bits, plain_bits, saturating_bits, wrapping_bits};

/// Returns the moved number, which must fit.
pub(crate) fn plain_number<D: NumTarget>(b: i128, from: u32) -> D
    requires wide { IsWide b }
    requires from { from ≤ 64 }
    requires to { D.FRAC ≤ 64 }
    requires fits { IsInRange D.SIGNED D.WIDTH (down b from D.FRAC) }
    ensures { D.wide result ≡ down b from D.FRAC }
{
    D::from_holder(plain_bits(b, from, D::FRAC))
}

/// Returns the moved number if it fits.
pub(crate) fn checked_number<D: NumTarget>(b: i128, from: u32) -> Option<D>
    requires wide { IsWide b }
    requires from { from ≤ 64 }
    requires to { D.FRAC ≤ 64 }
    ensures exists { IsSome result ↔ IsInRange D.SIGNED D.WIDTH (down b from D.FRAC) }
    ensures same { IfSome result (λ x. D.wide x ≡ down b from D.FRAC) }
{
    match checked_bits(b, from, D::FRAC) {
        Some(bits) => Some(D::from_holder(bits)),
        None => None,
    }
}

/// The Saturating image of the moved number.
pub(crate) fn saturating_number<D: NumTarget>(b: i128, from: u32) -> D
    requires wide { IsWide b }
    requires from { from ≤ 64 }
    requires to { D.FRAC ≤ 64 }
    ensures { IsImage Saturating D.SIGNED D.WIDTH (down b from D.FRAC) (D.wide result) }
{
    D::from_holder(saturating_bits(b, from, D::FRAC))
}

/// The Wrapping image of the moved number.
pub(crate) fn wrapping_number<D: NumTarget>(b: i128, from: u32) -> D
    requires wide { IsWide b }
    requires from { from ≤ 64 }
    requires to { D.FRAC ≤ 64 }
    ensures { IsImage Wrapping D.SIGNED D.WIDTH (down b from D.FRAC) (D.wide result) }
{
    D::from_holder(wrapping_bits(b, from, D::FRAC))
}

/// The Wrapping image of the moved number, and whether it does not fit.
pub(crate) fn overflowing_number<D: NumTarget>(b: i128, from: u32) -> (D, bool)
    requires wide { IsWide b }
    requires from { from ≤ 64 }
    requires to { D.FRAC ≤ 64 }
    ensures image { IsImage Wrapping D.SIGNED D.WIDTH (down b from D.FRAC) (D.wide result.0) }
    ensures verdict { IsTrue result.1 ↔ IsOutOfRange D.SIGNED D.WIDTH (down b from D.FRAC) }
{
    let (bits, overflowed) = overflowing_bits(b, from, D::FRAC);
    (D::from_holder(bits), overflowed)
}
