//! Prints the shortest decimal that reads back, without searching for the count of its digits.
//!
//! A value is a magnitude of ulps of 2^-`frac`. Its whole digits are printed first. After the point remains a `rest`
//! below one, in units of 2^-64: a power of ten times the rest is the next digits as one number, and the next rest. A
//! decimal reads back exactly if it is at most half an ulp away from the value, because no tie arises: a decimal with
//! at most `frac` digits is never halfway between two ulps.
//!
//! With as many digits as an ulp has, `frac` · log10(2) rounded down, neighbouring decimals are an ulp or more apart.
//! So at most one of them reads back: the digits so far, or the same with the last digit raised by one. If one does,
//! each shorter decimal that reads back is the same number, and it is the shortest one once its trailing zeros are
//! removed. If none does, one more digit is enough, and the nearer of the two is the last digit. It never carries,
//! because a ten would mean that one digit less had read back already.
//!
//! Both are computed, and one is chosen without a branch. It is printed with zeros up to a fixed count of places, all
//! at once, and the text ends after its last digit that is not zero.

ghost use Rattle.std.specs.Prelude.{◌≡◌, ◌+◌, ◌*◌, ◌/◌, ◌%◌, ◌-◌, ◌^◌, ◌<◌, ◌≤◌, ◌++◌, length, unsigned_abs};
ghost use Rattle.std.specs.Prelude.{◌⊎◌, ◌↔◌, ℕ, IsTrue};
ghost use Rattle.std.specs.Fmt.{sign_text};
ghost use Rattle.std.specs.Int.{is_negative};
ghost use Rattle.std.specs.Str.{IsAscii};
ghost use Rattle.fixed_bits.specs.Numbers.{with_sign};
ghost use Rattle.fixed_bits.specs.Ranges.{IsWide};
ghost use Rattle.fixed_bits.specs.Nearest.{IsNearest, IsEven};
ghost use Rattle.fixed_write.specs.Texts.{IsShortestText, shortest_text};
ghost use Rattle.fixed_write.specs.Inner.Fraction.{AppendsFraction, AppendsReduced, IsPaddedFraction};

use crate::digits::{moved_up, power_of_ten, push_long_reduced, push_reduced, push_whole};
use fixed_bits::sign_and_magnitude;
use fixed_steps::Steps;
use std::sync::ledger::Ledger;
use text_buffer::TextBuffer;

/// Appends the shortest decimal text of `value` ulps of 2^-`frac` that reads back as `value`.
///
/// It has the fewest digits after the point with which some decimal reads back. Of the decimals with this many digits
/// that read back, it is the nearest to the value, and of two equally near ones the even one. Takes one step for each
/// byte, at most 48. There must be room for 48 bytes.
#[inline]
pub fn push_shortest<const N: usize, L: Ledger>(
    out: &mut TextBuffer<N>,
    value: i128,
    frac: u32,
    steps: &mut Steps<L>,
)
    requires wide { IsWide value }
    requires frac { frac ≤ 64 }
    requires room { length out.old + 48 ≤ N }
    ensures appended { out.new ≡ out.old ++ shortest_text value frac }
    ensures shortest { IsShortestText value frac (shortest_text value frac) }
    ensures short { length (shortest_text value frac) ≤ 48 }
    ensures ascii { IsAscii (shortest_text value frac) }
    ensures cost { steps.new ≤ steps.old + 48 }
{
    let (negative, magnitude) = sign_and_magnitude(value);
    push_signed_shortest(out, negative, magnitude, frac, steps);
}

/// Appends the shortest decimal text of the number of ulps of 2^-`frac` with this sign and magnitude, as
/// `push_shortest` does.
#[inline]
pub fn push_signed_shortest<const N: usize, L: Ledger>(
    out: &mut TextBuffer<N>,
    negative: bool,
    magnitude: u64,
    frac: u32,
    steps: &mut Steps<L>,
)
    requires frac { frac ≤ 64 }
    requires room { length out.old + 48 ≤ N }
    ensures appended { out.new ≡ out.old ++ shortest_text (with_sign negative magnitude) frac }
    ensures shortest { IsShortestText (with_sign negative magnitude) frac
        (shortest_text (with_sign negative magnitude) frac) }
    ensures short { length (shortest_text (with_sign negative magnitude) frac) ≤ 48 }
    ensures ascii { IsAscii (shortest_text (with_sign negative magnitude) frac) }
    ensures cost { steps.new ≤ steps.old + 48 }
{
    let before = out.len();
    push_sign(out, is_below_zero(negative, magnitude));
    push_whole(out, whole_of(magnitude, frac));
    push_fraction(out, magnitude, frac);
    steps.advance((out.len() - before) as u64);
}

/// Whether the number with this sign and magnitude is negative. Zero is not.
#[inline]
pub(crate) fn is_below_zero(negative: bool, magnitude: u64) -> bool
    ensures { result ≡ is_negative (with_sign negative magnitude) }
{
    negative && magnitude > 0
}

/// Appends `-` if a number is negative.
#[inline]
pub(crate) fn push_sign<const N: usize>(out: &mut TextBuffer<N>, is_negative: bool)
    requires { length out.old < N }
    ensures { out.new ≡ out.old ++ sign_text is_negative }
{
    out.push_if(b'-', is_negative);
}

/// Returns the magnitude of a number.
#[inline]
pub(crate) fn magnitude_of(value: i128) -> u64
    requires { IsWide value }
    ensures { result ≡ unsigned_abs value }
{
    value.unsigned_abs() as u64
}

/// The whole part of a magnitude.
#[inline]
pub(crate) fn whole_of(magnitude: u64, frac: u32) -> u64
    requires { frac ≤ 64 }
    ensures { result ≡ magnitude / 2 ^ frac }
{
    if frac == 64 { 0 } else { magnitude >> frac }
}

/// Returns the fraction of a magnitude, in units of 2^-64.
#[inline]
pub(crate) fn rest_of(magnitude: u64, frac: u32) -> u64
    requires { frac ≤ 64 }
    ensures { result ≡ magnitude % 2 ^ frac * 2 ^ (64 - frac) }
{
    if frac == 0 {
        0
    } else {
        magnitude << (64 - frac)
    }
}

/// Multiplies a rest by a scale. Returns the whole number and the next rest.
#[inline]
pub(crate) fn scaled(rest: u64, scale: u64) -> (u64, u64)
    ensures whole { result.0 ≡ rest * scale / 2 ^ 64 }
    ensures rest { result.1 ≡ rest * scale % 2 ^ 64 }
{
    let product = rest as u128 * scale as u128;
    ((product >> 64) as u64, (product % (1 << 64)) as u64)
}

/// Returns the greatest count of places after the point at which decimals are an ulp of 2^-`frac` or more apart: `frac`
/// · log10(2), rounded down, with 1233 / 4096 for log10(2). With one more place they are an ulp or less apart.
#[inline]
fn places_of(frac: u32) -> u32
    requires { frac ≤ 64 }
    ensures within { result ≤ frac }
    ensures few { result ≤ 19 }
    ensures low { 10 ^ result ≤ 2 ^ frac }
    ensures high { 2 ^ frac ≤ 10 ^ (result + 1) }
    ensures long { frac ≡ 64 → result ≡ 19 }
{
    frac * 1233 / 4096
}

/// Returns half an ulp of 2^-`frac`, in units of 2^-64, times a scale.
#[inline]
fn half_ulp(scale: u64, frac: u32) -> u64
    requires frac { frac ≤ 64 }
    requires scale { scale ≤ 2 ^ frac }
    requires even { frac ≡ 64 → IsEven scale }
    ensures { 2 * result ≡ scale * 2 ^ (64 - frac) }
{
    if frac == 64 {
        scale / 2
    } else {
        scale << (63 - frac)
    }
}

/// Digits after the point: `places` digits that spell `number`, and then `digit`.
#[derive(Clone, Copy)]
pub(crate) struct Fraction {
    pub(crate) number: u64,
    pub(crate) places: u32,
    pub(crate) digit: u64,
}

/// Returns the digits after the point that are needed to read a magnitude back, with zeros after them.
#[inline]
pub(crate) fn padded_fraction(magnitude: u64, frac: u32) -> Fraction
    requires { frac ≤ 64 }
    ensures { IsPaddedFraction magnitude frac result.number result.places result.digit }
{
    let places = places_of(frac);
    let scale = power_of_ten(places);
    let (number, left) = scaled(rest_of(magnitude, frac), scale);
    let (digit, rest) = scaled(left, 10);
    let nearer = nearer_digit(digit, rest);
    let half = half_ulp(scale, frac);
    Fraction {
        number: number + is_near_next(left, half) as u64,
        places,
        digit: nearer * !is_close(left, half) as u64,
    }
}

/// Appends the point and as many digits after it as are needed to read the magnitude back.
#[inline]
fn push_fraction<const N: usize>(out: &mut TextBuffer<N>, magnitude: u64, frac: u32)
    requires frac { frac ≤ 64 }
    requires room { length out.old + 21 ≤ N }
    ensures { AppendsFraction magnitude frac out.old out.new }
{
    let fraction = padded_fraction(magnitude, frac);
    if fraction.places < 16 {
        let number = fraction.number * 10 + fraction.digit;
        push_reduced(out, moved_up(number, fraction.places + 1));
    } else {
        push_long_fraction(out, fraction);
    }
}

/// Appends the point and more than sixteen digits after it, without trailing zeros.
#[inline]
fn push_long_fraction<const N: usize>(out: &mut TextBuffer<N>, fraction: Fraction)
    requires long { 16 ≤ fraction.places }
    requires places { fraction.places ≤ 19 }
    requires fits { fraction.number < 10 ^ fraction.places }
    requires digit { fraction.digit < 10 }
    requires room { length out.old + 21 ≤ N }
    ensures { AppendsReduced (fraction.number * 10 + fraction.digit) (fraction.places + 1) out.old out.new }
{
    let scale = power_of_ten(19 - fraction.places);
    let digits = fraction.digit * scale;
    let number = fraction.number * scale + digits / 10;
    push_long_reduced(out, number / 1000, number % 1000 * 10 + digits % 10);
}

/// Whether a rest is at most `reach` away from the digits so far or from the next number.
#[inline]
fn is_close(rest: u64, reach: u64) -> bool
    ensures { IsTrue result ↔ ((rest ≤ reach) ⊎ (2 ^ 64 - 1 - rest < reach)) }
{
    rest <= reach || is_near_next(rest, reach)
}

/// Whether a rest is at most `reach` away from the next number.
#[inline]
fn is_near_next(rest: u64, reach: u64) -> bool
    ensures { IsTrue result ↔ (2 ^ 64 - 1 - rest < reach) }
{
    u64::MAX - rest < reach
}

/// Returns the digit or, if the rest is nearer to it, the next one; of two equally near, the even one.
#[inline]
fn nearer_digit(digit: u64, rest: u64) -> u64
    requires { digit < 10 }
    ensures near { (above : ℕ) → (2 * rest ≡ 2 ^ 64 → IsEven above)
        → IsNearest ((above + digit) * 2 ^ 64 + rest) (2 ^ 64) (above + result) }
    ensures below { result ≤ digit + 1 }
{
    if is_raised(rest, digit) {
        digit + 1
    } else {
        digit
    }
}

/// One half, in units of 2^-64.
pub(crate) const HALF: u64 = 1 << 63;

/// Whether a number is raised: more than one half is left, or one half and the number is odd.
#[inline]
pub(crate) fn is_raised(left: u64, number: u64) -> bool
    ensures { IsTrue result ↔ ((2 ^ 63 < left) ⊎ ((left ≡ 2 ^ 63) × (number % 2 ≡ 1))) }
{
    left > HALF - number % 2
}
