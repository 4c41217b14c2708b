//! The digits of a value in a base, to a count of places or exactly.

ghost use Rattle.std.specs.Prelude.{◌≡◌, ◌+◌, ◌*◌, ◌/◌, ◌%◌, ◌-◌, ◌^◌, ◌<◌, ◌≤◌, ◌++◌, ◌⊎◌, ◌==◌};
ghost use Rattle.std.specs.Prelude.{false, if◌then◌else◌, length};
ghost use Rattle.fixed_bits.specs.LostFractions.{IsLostFraction};
ghost use Rattle.fixed_bits.specs.Nearest.{IsEven};
ghost use Rattle.fixed_bits.specs.Rounded.{IsRounded};
ghost use Rattle.fixed_write.specs.Texts.{last_digits};
ghost use Rattle.fixed_write.specs.Inner.Digits.{IsBlock, AppendsRounded, AppendsExact};

use crate::base::{push_digit, push_last_in, push_whole_in};
use crate::digits::{power_of_ten, push_reduced, push_whole};
use crate::printer::{HALF, is_raised, rest_of, scaled, whole_of};
use fixed_bits::{LostFraction, ReadMode, rounding_increment};
use text_buffer::TextBuffer;

/// A value as a whole number and a rest in units of 2^-64.
#[derive(Clone, Copy)]
pub(crate) struct Split {
    pub(crate) whole: u64,
    pub(crate) rest: u64,
    pub ghost word: { whole < 2 ^ 64 },
    pub ghost below: { rest < 2 ^ 64 },
    pub ghost room: { 0 < rest → whole < 2 ^ 63 },
}

/// A whole number, and the digits after the point as one number.
#[derive(Clone, Copy)]
pub(crate) struct Places {
    pub(crate) whole: u64,
    pub(crate) part: u64,
    pub ghost word: { whole < 2 ^ 64 },
}

/// Splits a magnitude of ulps of 2^-`frac` in two parts.
pub(crate) fn split_of(magnitude: u64, frac: u32) -> Split
    requires { frac ≤ 64 }
    ensures whole { result.whole ≡ magnitude / 2 ^ frac }
    ensures rest { result.rest ≡ magnitude % 2 ^ frac * 2 ^ (64 - frac) }
{
    Split {
        whole: whole_of(magnitude, frac),
        rest: rest_of(magnitude, frac),
    }
}

/// Compares a rest in units of 2^-64 to one half.
#[inline]
fn lost_fraction_of(rest: u64) -> LostFraction
    ensures { IsLostFraction result rest (2 ^ 64) }
{
    if rest == 0 {
        LostFraction::Zero
    } else if rest < HALF {
        LostFraction::LessThanHalf
    } else if rest == HALF {
        LostFraction::Half
    } else {
        LostFraction::MoreThanHalf
    }
}

/// Rounds a rest times a scale to a whole number in a mode. It is the end of the number that starts with `above`.
pub(crate) fn rounded_part(rest: u64, scale: u64, above: u64, mode: ReadMode) -> u64
    requires scale { 1 ≤ scale }
    requires even { (scale ≡ 1) ⊎ IsEven scale }
    ensures to { IsRounded mode false ((above * 2 ^ 64 + rest) * scale) (2 ^ 64) (above * scale + result) }
    ensures most { result ≤ scale }
    ensures none { rest ≡ 0 → result ≡ 0 }
{
    let (number, left) = scaled(rest, scale);
    let last = if scale == 1 { above } else { number };
    // The usual mode takes one comparison.
    let up = match mode {
        ReadMode::NearestEven => is_raised(left, last) as u64,
        _ => rounding_increment(lost_fraction_of(left), last % 2, mode),
    };
    number + up
}

/// Rounds the value in a mode to the places of the scale.
pub(crate) fn rounded(value: Split, scale: u64, mode: ReadMode) -> Places
    requires scale { 1 ≤ scale }
    requires even { (scale ≡ 1) ⊎ IsEven scale }
    ensures to { IsRounded mode false ((value.whole * 2 ^ 64 + value.rest) * scale) (2 ^ 64)
        (result.whole * scale + result.part) }
    ensures part { result.part < scale }
{
    let part = rounded_part(value.rest, scale, value.whole, mode);
    if part == scale {
        Places {
            whole: value.whole + 1,
            part: 0,
        }
    } else {
        Places {
            whole: value.whole,
            part,
        }
    }
}

/// Appends the value to a count of places, at most 64, rounded in a mode.
///
/// Places that fit a word are one number, rounded by its rest. That may make it one whole, which raises the whole
/// number. A longer fraction has single digits before its last block, and then the block never becomes one whole.
#[inline]
pub(crate) fn push_rounded_in<const BASE: u64, const BLOCK: u32, const N: usize>(
    out: &mut TextBuffer<N>,
    value: Split,
    places: u32,
    upper: bool,
    mode: ReadMode,
)
    requires block { IsBlock BASE BLOCK }
    requires decimal { BASE ≡ 10 → BLOCK ≤ 19 }
    requires places { places ≤ 64 }
    requires room { length out.old + 129 ≤ N }
    ensures { AppendsRounded mode BASE upper (value.whole * 2 ^ 64 + value.rest) 64 places out.old out.new }
{
    if places <= BLOCK {
        let near = rounded(value, power::<BASE>(places), mode);
        push_whole_in::<BASE, N>(out, near.whole, upper);
        if places > 0 {
            out.push(b'.');
            push_last_in::<BASE, N>(out, near.part, places, upper);
        }
    } else {
        push_long::<BASE, BLOCK, N>(out, value, places, upper, mode);
    }
}

/// Appends the value to more places than fit a word.
fn push_long<const BASE: u64, const BLOCK: u32, const N: usize>(
    out: &mut TextBuffer<N>,
    value: Split,
    places: u32,
    upper: bool,
    mode: ReadMode,
)
    requires block { IsBlock BASE BLOCK }
    requires decimal { BASE ≡ 10 → BLOCK ≤ 19 }
    requires long { BLOCK < places }
    requires places { places ≤ 64 }
    requires room { length out.old + 129 ≤ N }
    ensures { AppendsRounded mode BASE upper (value.whole * 2 ^ 64 + value.rest) 64 places out.old out.new }
{
    push_whole_in::<BASE, N>(out, value.whole, upper);
    out.push(b'.');
    let rest = push_rest_digits::<BASE, N>(out, value.rest, places - BLOCK, upper);
    push_last_in::<BASE, N>(
        out,
        rounded_part(rest, power::<BASE>(BLOCK), 0, mode),
        BLOCK,
        upper,
    );
}

/// A power of the base that fits a word.
#[inline]
fn power<const BASE: u64>(places: u32) -> u64
    requires { BASE ^ places < 2 ^ 64 }
    ensures { result ≡ BASE ^ places }
{
    if BASE == 10 && places <= 19 {
        power_of_ten(places)
    } else {
        BASE.pow(places)
    }
}

/// Appends the first digits of a rest, and returns the remaining rest.
fn push_rest_digits<const BASE: u64, const N: usize>(
    out: &mut TextBuffer<N>,
    rest: u64,
    places: u32,
    upper: bool,
) -> u64
    requires low { 2 ≤ BASE }
    requires high { BASE ≤ 16 }
    requires room { length out.old + places ≤ N }
    ensures text { out.new ≡ out.old ++ last_digits BASE upper places (rest * BASE ^ places / 2 ^ 64) }
    ensures left { result ≡ rest * BASE ^ places % 2 ^ 64 }
{
    let mut left = rest;
    'digits: for count in 0..places {
        let (digit, next) = scaled(left, BASE);
        push_digit(out, digit as u8, upper);
        left = next;
    }
    left
}

/// Appends the value exactly.
pub(crate) fn push_exact_in<const BASE: u64, const N: usize>(
    out: &mut TextBuffer<N>,
    value: Split,
    upper: bool,
)
    requires low { 2 ≤ BASE }
    requires high { BASE ≤ 16 }
    requires even { IsEven BASE }
    requires room { length out.old + 129 ≤ N }
    ensures { AppendsExact BASE upper (value.whole * 2 ^ 64 + value.rest) 64 out.old out.new }
{
    push_whole_in::<BASE, N>(out, value.whole, upper);
    if value.rest != 0 {
        out.push(b'.');
        let mut left = value.rest;
        'digits: while left != 0 {
            let (digit, next) = scaled(left, BASE);
            push_digit(out, digit as u8, upper);
            left = next;
        }
    }
}

/// Five to the power of sixteen.
const FIVES: u64 = 152_587_890_625;

/// Appends the value exactly in decimal: up to sixteen digits after the point at once, as many as a fraction of sixteen
/// bits has at most.
#[inline]
pub(crate) fn push_exact_decimal<const N: usize>(out: &mut TextBuffer<N>, value: Split)
    requires { length out.old + 129 ≤ N }
    ensures { AppendsExact 10 false (value.whole * 2 ^ 64 + value.rest) 64 out.old out.new }
{
    if value.rest % (1 << 48) == 0 {
        push_whole(out, value.whole);
        push_reduced(out, (value.rest >> 48) * FIVES);
    } else {
        push_long_exact(out, value);
    }
}

/// Appends the value exactly in decimal, with one place for each binary digit of its rest.
fn push_long_exact<const N: usize>(out: &mut TextBuffer<N>, value: Split)
    requires some { 0 < value.rest }
    requires room { length out.old + 129 ≤ N }
    ensures { AppendsExact 10 false (value.whole * 2 ^ 64 + value.rest) 64 out.old out.new }
{
    let places = 64 - value.rest.trailing_zeros();
    push_rounded_in::<10, 19, N>(out, value, places, false, ReadMode::TowardsZero);
}
