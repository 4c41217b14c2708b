//! Casts between numbers. The moved number is the bits of the source, moved down from its fraction length to that of
//! the target.

ghost use Rattle.std.specs.Prelude.{◌≡◌, ◌↔◌, ◌≤◌, Bool, IsTrue, IsSome, IfSome, Option};
ghost use Rattle.fixed_bits.specs.Ranges.{IsInRange, IsOutOfRange};
ghost use Rattle.fixed_bits.specs.Images.{IsImage};
ghost use Rattle.fixed_bits.specs.Down.{down};
ghost use Rattle.fixed_bits.specs.declared.format.Policy.TheVariants.{Saturating, Wrapping};

use crate::num::{Num, NumTarget};
use crate::to_number::{
    checked_number, overflowing_number, plain_number, saturating_number, wrapping_number,
};

/// A cast that returns the moved number, which must fit.
pub trait Cast<D> {
    /// What must hold before the call.
    ghost can_cast: { Self → Type 0 };

    /// What the call returns.
    ghost cast_gives: { Self → D → Type 0 };

    /// Returns the moved number, which must fit.
    fn cast(self) -> D
        requires { can_cast self }
        ensures { cast_gives self result };
}

impl<S: Num, D: NumTarget> Cast<D> for S {
    ghost can_cast = { λ s. (S.FRAC ≤ S.WIDTH) × (D.FRAC ≤ D.WIDTH)
        × IsInRange D.SIGNED D.WIDTH (down (S.wide s) S.FRAC D.FRAC) };

    ghost cast_gives = { λ s d. D.wide d ≡ down (S.wide s) S.FRAC D.FRAC };

    fn cast(self) -> D {
        plain_number(self.to_wide(), S::FRAC)
    }
}

/// A cast that returns the moved number if it fits.
pub trait CheckedCast<D> {
    /// What must hold before the call.
    ghost can_checked_cast: { Self → Type 0 };

    /// What the call returns.
    ghost checked_cast_gives: { Self → Option D → Type 0 };

    /// Returns the moved number; `None` exactly if it does not fit.
    fn checked_cast(self) -> Option<D>
        requires { can_checked_cast self }
        ensures { checked_cast_gives self result };
}

impl<S: Num, D: NumTarget> CheckedCast<D> for S {
    ghost can_checked_cast = { λ s. (S.FRAC ≤ S.WIDTH) × (D.FRAC ≤ D.WIDTH) };

    ghost checked_cast_gives = { λ s r. (IsSome r ↔ IsInRange D.SIGNED D.WIDTH (down (S.wide s) S.FRAC D.FRAC))
        × IfSome r (λ d. D.wide d ≡ down (S.wide s) S.FRAC D.FRAC) };

    fn checked_cast(self) -> Option<D> {
        checked_number(self.to_wide(), S::FRAC)
    }
}

/// A cast that returns the Saturating image of the moved number.
pub trait SaturatingCast<D> {
    /// What must hold before the call.
    ghost can_saturating_cast: { Self → Type 0 };

    /// What the call returns.
    ghost saturating_cast_gives: { Self → D → Type 0 };

    /// Returns the Saturating image of the moved number.
    fn saturating_cast(self) -> D
        requires { can_saturating_cast self }
        ensures { saturating_cast_gives self result };
}

impl<S: Num, D: NumTarget> SaturatingCast<D> for S {
    ghost can_saturating_cast = { λ s. (S.FRAC ≤ S.WIDTH) × (D.FRAC ≤ D.WIDTH) };

    ghost saturating_cast_gives = { λ s d. IsImage Saturating D.SIGNED D.WIDTH (down (S.wide s) S.FRAC D.FRAC)
        (D.wide d) };

    fn saturating_cast(self) -> D {
        saturating_number(self.to_wide(), S::FRAC)
    }
}

/// A cast that returns the Wrapping image of the moved number.
pub trait WrappingCast<D> {
    /// What must hold before the call.
    ghost can_wrapping_cast: { Self → Type 0 };

    /// What the call returns.
    ghost wrapping_cast_gives: { Self → D → Type 0 };

    /// Returns the Wrapping image of the moved number.
    fn wrapping_cast(self) -> D
        requires { can_wrapping_cast self }
        ensures { wrapping_cast_gives self result };
}

impl<S: Num, D: NumTarget> WrappingCast<D> for S {
    ghost can_wrapping_cast = { λ s. (S.FRAC ≤ S.WIDTH) × (D.FRAC ≤ D.WIDTH) };

    ghost wrapping_cast_gives = { λ s d. IsImage Wrapping D.SIGNED D.WIDTH (down (S.wide s) S.FRAC D.FRAC) (D.wide d) };

    fn wrapping_cast(self) -> D {
        wrapping_number(self.to_wide(), S::FRAC)
    }
}

/// A cast that returns the Wrapping image of the moved number, and whether it does not fit.
pub trait OverflowingCast<D> {
    /// What must hold before the call.
    ghost can_overflowing_cast: { Self → Type 0 };

    /// What the call returns.
    ghost overflowing_cast_gives: { Self → D → Bool → Type 0 };

    /// Returns the Wrapping image of the moved number, and whether it does not fit.
    fn overflowing_cast(self) -> (D, bool)
        requires { can_overflowing_cast self }
        ensures { overflowing_cast_gives self result.0 result.1 };
}

impl<S: Num, D: NumTarget> OverflowingCast<D> for S {
    ghost can_overflowing_cast = { λ s. (S.FRAC ≤ S.WIDTH) × (D.FRAC ≤ D.WIDTH) };

    ghost overflowing_cast_gives = { λ s d o. IsImage Wrapping D.SIGNED D.WIDTH (down (S.wide s) S.FRAC D.FRAC)
        (D.wide d)
        × (IsTrue o ↔ IsOutOfRange D.SIGNED D.WIDTH (down (S.wide s) S.FRAC D.FRAC)) };

    fn overflowing_cast(self) -> (D, bool) {
        overflowing_number(self.to_wide(), S::FRAC)
    }
}

/// A cast that returns the moved number, which must fit.
pub trait StrictCast<D> {
    /// What must hold before the call.
    ghost can_strict_cast: { Self → Type 0 };

    /// What the call returns.
    ghost strict_cast_gives: { Self → D → Type 0 };

    /// Returns the moved number, which must fit.
    fn strict_cast(self) -> D
        requires { can_strict_cast self }
        ensures { strict_cast_gives self result };
}

impl<S: Num, D: NumTarget> StrictCast<D> for S {
    ghost can_strict_cast = { λ s. (S.FRAC ≤ S.WIDTH) × (D.FRAC ≤ D.WIDTH)
        × IsInRange D.SIGNED D.WIDTH (down (S.wide s) S.FRAC D.FRAC) };

    ghost strict_cast_gives = { λ s d. D.wide d ≡ down (S.wide s) S.FRAC D.FRAC };

    fn strict_cast(self) -> D {
        plain_number(self.to_wide(), S::FRAC)
    }
}

/// A cast that returns the moved number, which must fit.
pub trait UnwrappedCast<D> {
    /// What must hold before the call.
    ghost can_unwrapped_cast: { Self → Type 0 };

    /// What the call returns.
    ghost unwrapped_cast_gives: { Self → D → Type 0 };

    /// Returns the moved number, which must fit.
    fn unwrapped_cast(self) -> D
        requires { can_unwrapped_cast self }
        ensures { unwrapped_cast_gives self result };
}

impl<S: Num, D: NumTarget> UnwrappedCast<D> for S {
    ghost can_unwrapped_cast = { λ s. (S.FRAC ≤ S.WIDTH) × (D.FRAC ≤ D.WIDTH)
        × IsInRange D.SIGNED D.WIDTH (down (S.wide s) S.FRAC D.FRAC) };

    ghost unwrapped_cast_gives = { λ s d. D.wide d ≡ down (S.wide s) S.FRAC D.FRAC };

    fn unwrapped_cast(self) -> D {
        plain_number(self.to_wide(), S::FRAC)
    }
}
