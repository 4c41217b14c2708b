//! Short decimals that are decided only by the numbers of their parts.
//!
//! Most lines fit each length that is left. One comparison with the room that is left shows this: the greatest number
//! of parts of 10^-18 that surely fits.

ghost use Rattle.std.specs.Prelude.{◌≡◌, ◌≤◌, ◌<◌, ◌+◌, ◌*◌, ◌^◌, ◌↔◌, IfSome, IsTrue, true, ℕ};
ghost use Rattle.fixed_fit.specs.Inner.Lengths.{IsFlatDecimal, IsRoomOf, IsWholeFraction, magnitude_bits};
ghost use Rattle.fixed_fit.specs.Inner.Serving.{AreFew, HaveRoom};

use crate::lengths::Lengths;
use fixed_bits::Format;
use fixed_numeral::{ShortNumeral, power_of_ten};

/// The number of parts in a whole number.
const WHOLE: u64 = 1_000_000_000_000_000_000;

/// Returns a power of two, which may be 2^64.
fn wide_power_of_two(exponent: u32) -> u128
    requires { exponent ≤ 64 }
    ensures { result ≡ 2 ^ exponent }
{
    1u128 << exponent
}

/// Returns the most bits of a magnitude in a format.
fn magnitude_bits(kind: Format) -> u32
    ensures bits { result ≡ magnitude_bits kind.signed kind.width }
    ensures most { result ≤ 64 }
{
    let width = kind.width();
    if kind.signed() { width - 1 } else { width }
}

/// Counts the parts of 10^-18 in the fraction of a short decimal, or returns those of a whole number if it has more
/// places.
#[inline(always)]
fn fraction_parts(found: ShortNumeral) -> u64
    requires { found.fraction < 10 ^ found.places }
    ensures most { result ≤ 10 ^ 18 }
    ensures parts { found.fraction * 10 ^ 18 ≤ result * 10 ^ found.places }
    ensures same { found.places ≤ 18 → result * 10 ^ found.places ≡ found.fraction * 10 ^ 18 }
{
    if found.places > 18 {
        return WHOLE;
    }
    found.fraction as u64 * power_of_ten(18 - found.places)
}

/// 5^18.
const FIVE_TO_18: u64 = 3_814_697_265_625;

/// Returns the parts of 10^-18 in an ulp of 2^-`frac`, or of 2^-18 if `frac` is more than 18.
fn ulp_parts(frac: u32) -> u64
    ensures some { 0 < result }
    ensures ulps { (count : ℕ) × (result * 2 ^ frac ≡ count * 10 ^ 18) }
{
    FIVE_TO_18 << (18 - frac.min(18))
}

/// Whether the fraction of a short decimal is surely a whole number of ulps of 2^-`frac`.
#[inline(always)]
pub fn is_surely_whole(found: ShortNumeral, frac: u32) -> bool
    requires { found.fraction < 10 ^ found.places }
    ensures { result ≡ true → IsWholeFraction found frac }
{
    found.fraction == 0 || found.places <= 18 && fraction_parts(found) % ulp_parts(frac) == 0
}

/// A short decimal without an exponent.
#[derive(Clone, Copy)]
pub struct FlatDecimal {
    /// The numbers of its parts.
    pub decimal: ShortNumeral,
    /// The most parts of 10^-18 that the decimal has.
    pub parts: u128,
}

/// Returns a short decimal, if it has no exponent.
#[inline(always)]
pub fn flat_decimal(found: ShortNumeral) -> Option<FlatDecimal>
    requires whole { found.whole < 10 ^ 16 }
    requires fraction { found.fraction < 10 ^ found.places }
    ensures decimal { IfSome result (λ d. d.decimal ≡ found) }
    ensures flat { IfSome result IsFlatDecimal }
{
    if found.exponent != 0 {
        return None;
    }
    let parts = u128::from(found.whole) * u128::from(WHOLE) + u128::from(fraction_parts(found));
    Some(FlatDecimal {
        decimal: found,
        parts,
    })
}

/// Whether a number of this sign and this many parts of 10^-18 is surely in range, by the room that is left. A negative
/// number needs signed formats.
#[inline(always)]
pub fn is_within_room(room: u128, has_sign: bool, found: FlatDecimal) -> bool
    ensures sign { result ≡ true → found.decimal.negative ≡ true → has_sign ≡ true }
    ensures room { result ≡ true → found.parts ≤ room }
{
    (has_sign || !found.decimal.negative) && found.parts <= room
}

/// Returns the most parts of 10^-18 of a number that is an ulp or more below the end of the range with the longest
/// length left, or of any number if no length is left.
fn room_left(left: Lengths) -> u128
    requires { left.count ≤ 65 }
    ensures { IsRoomOf result left }
{
    if left.count == 0 {
        return u128::MAX;
    }
    let greatest = wide_power_of_two(magnitude_bits(left.kind)) - 1;
    (greatest * u128::from(WHOLE)) >> (left.count - 1)
}

/// Returns the room that is left for two kinds.
pub fn room_of_both(plain: &Lengths, signed: &Lengths) -> u128
    requires plain { plain.now.count ≤ 65 }
    requires signed { signed.now.count ≤ 65 }
    ensures plain { IsRoomOf result plain.now }
    ensures signed { IsRoomOf result signed.now }
{
    room_left(*plain).min(room_left(*signed))
}

/// Returns the least room that is left for some kinds.
pub fn least_room(lengths: &[Lengths]) -> u128
    requires { AreFew lengths.now }
    ensures { HaveRoom result lengths.now }
{
    let mut least = u128::MAX;
    for left in lengths {
        least = room_left(*left).min(least);
    }
    least
}

/// Whether a short decimal is below zero.
pub fn is_short_below(found: ShortNumeral) -> bool
    ensures { IsTrue result ↔ ((found.negative ≡ true) × (0 < found.whole + found.fraction)) }
{
    found.negative && (found.whole > 0 || found.fraction > 0)
}
