//! The order of a number and a number of any type, by their exact values. Fraction lengths may be above the widths.

ghost use Rattle.std.specs.Prelude.{◌≡◌, ◌↔◌, ◌<ℤ◌, ◌≤ℤ◌, ◌*ℤ◌, ◌^◌, IsTrue};
ghost use Rattle.fixed_convert.specs.Order.{order_of};

use crate::number::Fixed;
use fixed_bits::Inner;
use fixed_convert::{NumTarget, compare};
use std::cmp::Ordering;

impl<I: Inner, const FRAC: u32> Fixed<I, FRAC> {
    /// Whether the number is less than, equal to or greater than another.
    #[inline]
    pub fn cmp_num<R: NumTarget>(self, rhs: R) -> Ordering
        ensures { result ≡ order_of (I.number self) FRAC (R.wide rhs) R.FRAC }
    {
        compare(self.to_bits().value(), FRAC, rhs.to_wide(), R::FRAC)
    }

    /// Whether the number equals another.
    #[inline]
    pub fn eq_num<R: NumTarget>(self, rhs: R) -> bool
        ensures { IsTrue result ↔ (order_of (I.number self) FRAC (R.wide rhs) R.FRAC ≡ Ordering.Equal) }
    {
        self.cmp_num(rhs).is_eq()
    }

    /// Whether the number is less than another.
    #[inline]
    pub fn lt_num<R: NumTarget>(self, rhs: R) -> bool
        ensures { IsTrue result ↔ (order_of (I.number self) FRAC (R.wide rhs) R.FRAC ≡ Ordering.Less) }
    {
        self.cmp_num(rhs).is_lt()
    }

    /// Whether the number is not greater than another.
    #[inline]
    pub fn le_num<R: NumTarget>(self, rhs: R) -> bool
        ensures { IsTrue result ↔ ((order_of (I.number self) FRAC (R.wide rhs) R.FRAC ≡ Ordering.Greater) → ⊥) }
    {
        self.cmp_num(rhs).is_le()
    }

    /// Whether the number is greater than another.
    #[inline]
    pub fn gt_num<R: NumTarget>(self, rhs: R) -> bool
        ensures { IsTrue result ↔ (order_of (I.number self) FRAC (R.wide rhs) R.FRAC ≡ Ordering.Greater) }
    {
        self.cmp_num(rhs).is_gt()
    }

    /// Whether the number is not less than another.
    #[inline]
    pub fn ge_num<R: NumTarget>(self, rhs: R) -> bool
        ensures { IsTrue result ↔ ((order_of (I.number self) FRAC (R.wide rhs) R.FRAC ≡ Ordering.Less) → ⊥) }
    {
        self.cmp_num(rhs).is_ge()
    }
}
