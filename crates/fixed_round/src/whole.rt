//! The core of all roundings: the bits of the whole number that a value is rounded to.
//!
//! The value lies between two neighbouring whole numbers, its floor and the next one. Their bits are `unit` apart,
//! which is the bits of the number one, and `rest` says how far the value's bits are above those of the floor. The four
//! roundings differ only in which of the two they choose.

ghost use Rattle.std.specs.Prelude.{◌≡◌, ◌*◌, ◌≤◌, ◌<◌, ◌^◌, pos, neg_ℤ, ◌*ℤ◌, ◌≤ℤ◌, if◌then◌else◌, nat_lt, nat_le};
ghost use Rattle.fixed_bits.specs.Ranges.{IsWide};
ghost use Rattle.fixed_bits.specs.Down.{IsDown};
ghost use Rattle.fixed_round.specs.Whole.{is_up, whole_bits};

use crate::rounding::Rounding;

/// Returns the bits of the whole number that `b` over two to the power of `f` is rounded to. They may be out of the
/// range of `b`.
#[inline]
pub fn whole_of(b: i128, f: u32, rounding: Rounding) -> i128
    requires wide { IsWide b }
    requires frac { f ≤ 64 }
    ensures { result ≡ whole_bits rounding b f }
{
    let floor = floor_of(b, f);
    let unit = unit(f);
    let low = bits_of_whole(floor, f);
    let rest = (b - low).unsigned_abs();
    if is_rounded_up(rounding, b < 0, floor, rest, unit.unsigned_abs()) {
        low + unit
    } else {
        low
    }
}

/// Returns the greatest whole number that is not above a value.
#[inline]
fn floor_of(b: i128, f: u32) -> i128
    requires wide { IsWide b }
    requires frac { f ≤ 64 }
    ensures relation { IsDown b f 0 result }
    ensures wide { IsWide result }
{
    b >> f
}

/// The bits of a whole number.
#[inline]
fn bits_of_whole(w: i128, f: u32) -> i128
    requires frac { f ≤ 64 }
    requires low { neg_ℤ (pos (2 ^ 66)) ≤ℤ (w *ℤ pos (2 ^ f)) }
    requires high { (w *ℤ pos (2 ^ f)) ≤ℤ pos (2 ^ 66) }
    ensures { result ≡ w *ℤ pos (2 ^ f) }
{
    w << f
}

/// The bits of the number one.
#[inline]
fn unit(f: u32) -> i128
    requires { f ≤ 64 }
    ensures { result ≡ pos (2 ^ f) }
{
    1 << f
}

/// Whether a value is rounded to the whole number above its floor, given how far its bits are above those of the floor.
#[inline]
fn is_rounded_up(rounding: Rounding, negative: bool, floor: i128, rest: u128, unit: u128) -> bool
    requires { rest < 2 ^ 66 }
    ensures { result ≡ is_up rounding negative floor rest unit }
{
    match rounding {
        Rounding::Ceil => 0 < rest,
        Rounding::Floor => false,
        Rounding::Round => is_past_half(rest, unit, negative),
        Rounding::RoundTiesEven => is_past_half(rest, unit, floor.unsigned_abs() % 2 == 0),
    }
}

/// Whether twice a rest is above the unit, or equal to it and a tie is not rounded down.
#[inline]
fn is_past_half(rest: u128, unit: u128, is_tie_down: bool) -> bool
    requires { rest < 2 ^ 66 }
    ensures { result ≡ (if is_tie_down then nat_lt unit (2 * rest) else nat_le unit (2 * rest)) }
{
    if is_tie_down {
        unit < 2 * rest
    } else {
        unit <= 2 * rest
    }
}
