//! Conversions that lose nothing, or only fraction bits.

ghost use Rattle.std.specs.Prelude.{◌≡◌, ◌↔◌, ◌≤◌, ◌-◌, ◌^◌, ℤ, pos, ◌*ℤ◌, IsSome, IfSome, Option};
ghost use Rattle.fixed_bits.specs.Ranges.{IsInRange};
ghost use Rattle.fixed_bits.specs.Down.{down};
ghost use Rattle.fixed_convert.specs.Moved.{HasRoom};

use crate::num::{Num, NumTarget};
use crate::to_number::{checked_number, plain_number};

/// A conversion that loses only fraction bits: the target has enough whole bits for every value of the source.
pub trait LossyFrom<S> {
    /// What must hold before the call: both fraction lengths are at most the widths, and there are enough whole bits.
    ghost can_lose: { Type 0 };

    /// What the call returns.
    ghost lossy_gives: { S → Self → Type 0 };

    /// Returns the moved number, which must fit.
    fn lossy_from(src: S) -> Self
        requires { can_lose }
        ensures { lossy_gives src result };
}

impl<S: Num, D: NumTarget> LossyFrom<S> for D {
    ghost can_lose = { (S.FRAC ≤ S.WIDTH) × (D.FRAC ≤ D.WIDTH)
        × HasRoom S.SIGNED D.SIGNED (S.WIDTH - S.FRAC) (D.WIDTH - D.FRAC) };

    ghost lossy_gives = { λ s d. D.wide d ≡ down (S.wide s) S.FRAC D.FRAC };

    fn lossy_from(src: S) -> D {
        moved_with_room(src)
    }
}

/// Returns the moved number. The target has enough whole bits.
fn moved_with_room<S: Num, D: NumTarget>(src: S) -> D
    requires source { S.FRAC ≤ S.WIDTH }
    requires target { D.FRAC ≤ D.WIDTH }
    requires room { HasRoom S.SIGNED D.SIGNED (S.WIDTH - S.FRAC) (D.WIDTH - D.FRAC) }
    ensures { D.wide result ≡ down (S.wide src) S.FRAC D.FRAC }
{
    plain_number(src.to_wide(), S::FRAC)
}

/// A conversion that loses nothing if the value fits: the target's fraction is not shorter than the source's.
pub trait LosslessTryFrom<S>: Sized {
    /// What must hold before the call: both fraction lengths are at most the widths, and the target's is not shorter.
    ghost can_try: { Type 0 };

    /// What the call returns.
    ghost try_gives: { S → Option Self → Type 0 };

    /// Returns the same value; `None` exactly if it does not fit.
    fn lossless_try_from(src: S) -> Option<Self>
        requires { can_try }
        ensures { try_gives src result };
}

impl<S: Num, D: NumTarget> LosslessTryFrom<S> for D {
    ghost can_try = { (S.FRAC ≤ S.WIDTH) × (D.FRAC ≤ D.WIDTH) × (S.FRAC ≤ D.FRAC) };

    ghost try_gives = { λ s r. (IsSome r ↔ IsInRange D.SIGNED D.WIDTH (S.wide s *ℤ pos (2 ^ (D.FRAC - S.FRAC))))
        × IfSome r (λ d. D.wide d ≡ S.wide s *ℤ pos (2 ^ (D.FRAC - S.FRAC))) };

    fn lossless_try_from(src: S) -> Option<D> {
        checked_number(src.to_wide(), S::FRAC)
    }
}

/// Returns the same value, exactly: the target has enough whole bits, and its fraction is not shorter.
pub fn lossless_from<S: Num, D: NumTarget>(src: S) -> D
    requires source { S.FRAC ≤ S.WIDTH }
    requires target { D.FRAC ≤ D.WIDTH }
    requires room { HasRoom S.SIGNED D.SIGNED (S.WIDTH - S.FRAC) (D.WIDTH - D.FRAC) }
    requires finer { S.FRAC ≤ D.FRAC }
    ensures { D.wide result ≡ S.wide src *ℤ pos (2 ^ (D.FRAC - S.FRAC)) }
{
    moved_with_room(src)
}
