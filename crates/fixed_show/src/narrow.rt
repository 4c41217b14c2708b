//! The error of a short decimal, by numbers of 128 bits.
//!
//! Nearly all errors are written here. Others are left to numbers of many limbs: those of a numeral with an exponent or
//! with more than 18 places, of one and more, and of more than 38 places.

ghost use Rattle.std.specs.Prelude.{◌≡◌, ◌+◌, ◌-◌, ◌*◌, ◌/◌, ◌^◌, ◌<◌, ◌≤◌, ◌++◌, ◌-ℤ◌, length, pos, IfSome};
ghost use Rattle.std.specs.Prelude.{IsTrue, false, true};
ghost use Rattle.std.specs.Int.{is_negative};
ghost use Rattle.fixed_bits.specs.Numbers.{with_sign};
ghost use Rattle.fixed_bits.specs.Ranges.{IsWide};
ghost use Rattle.fixed_numeral.specs.Numeral.{HasNumeral, Parts};
ghost use Rattle.fixed_numeral.specs.Value.{magnitude};
ghost use Rattle.fixed_numeral.specs.declared.radix.Radix.{Radix as RadixOf};
ghost use Rattle.fixed_show.specs.Blocks.{Appends};
ghost use Rattle.fixed_show.specs.ErrorText.{error_den, error_num};
ghost use Rattle.fixed_show.specs.Inner.Decimals.{AreTrailing, IsTrimmed};
ghost use Rattle.fixed_show.specs.Inner.Errors.{IsDecimalOf};
ghost use Rattle.fixed_show.specs.Inner.Measures.{IsDecimalNumeral};
ghost use Rattle.fixed_show.specs.ShortError.{IsErrorText, measured_den};
ghost use Rattle.fixed_show.specs.declared.form.Form.TheVariants.{Lines};
ghost use Rattle.fixed_write.specs.Texts.{fraction_part, last_digits};

use crate::decimals::push_sign;
use crate::errors::{is_less_than_zero, magnitude_of};
use crate::measure::Measure;
use fixed_numeral::{Radix, ShortNumeral, power_of_ten, short_decimal};
use fixed_steps::Steps;
use std::sync::ledger::Ledger;
use text_buffer::TextBuffer;

/// A number over a power of ten, and whether it is less than zero.
#[derive(Clone, Copy)]
pub(crate) struct Narrow {
    pub number: u128,
    pub places: u32,
    pub is_negative: bool,
}

/// Returns the number of a short decimal without an exponent, with at most 18 places. `None`: it is another.
#[inline(always)]
fn narrow_of(found: ShortNumeral) -> Option<Narrow>
    requires whole { found.whole < 10 ^ 16 }
    requires fraction { found.fraction < 10 ^ found.places }
    ensures number { IfSome result (λ n. n.number ≡ found.whole * 10 ^ found.places + found.fraction) }
    ensures places { IfSome result (λ n. n.places ≡ found.places) }
    ensures sign { IfSome result (λ n. n.is_negative ≡ found.negative) }
    ensures flat { IfSome result (λ _. found.exponent ≡ pos 0) }
    ensures few { IfSome result (λ n. n.places ≤ 18) }
{
    if found.exponent != 0 || found.places > 18 {
        return None;
    }
    let power = power_of_ten(found.places);
    Some(Narrow {
        number: u128::from(found.whole) * u128::from(power) + found.fraction,
        places: found.places,
        is_negative: found.negative,
    })
}

/// Returns a numeral as a number over a power of ten, if it is a short decimal without an exponent.
#[inline(always)]
pub(crate) fn narrow_numeral<L: Ledger>(
    text: &[u8],
    radix: Radix,
    steps: &mut Steps<L>,
) -> Option<Narrow>
    ensures value { IfSome result (λ n. (p : Parts) → HasNumeral radix text.now p
        → IsDecimalNumeral radix p n.number n.places n.is_negative) }
    ensures few { IfSome result (λ n. n.places ≤ 18) }
    ensures cost { steps.new ≤ steps.old + length text.now }
{
    match radix {
        Radix::Dec => match short_decimal(text, steps) {
            Some(found) => narrow_of(found),
            None => None,
        },
        _ => None,
    }
}

/// Returns a number times a power of `base`. `None`: it has more than 127 bits, or the exponent is more than 38.
fn times_power(number: u128, base: u32, exponent: u32) -> Option<u128>
    requires least { 2 ≤ base }
    requires most { base ≤ 10 }
    ensures value { IfSome result (λ n. n ≡ number * base ^ exponent) }
    ensures small { IfSome result (λ n. n < 2 ^ 127) }
{
    if exponent > 38 {
        return None;
    }
    let product = number.checked_mul(u128::from(base).pow(exponent))?;
    if product >> 127 == 0 {
        Some(product)
    } else {
        None
    }
}

/// Subtracts two numbers with signs.
fn difference(
    left: u128,
    is_left_negative: bool,
    right: u128,
    is_right_negative: bool,
) -> (u128, bool)
    requires left { left < 2 ^ 127 }
    requires right { right < 2 ^ 127 }
    ensures value { with_sign result.1 result.0 ≡ with_sign is_left_negative left -ℤ with_sign is_right_negative right }
    ensures sign { IsTrue result.1 → 0 < result.0 }
{
    if is_left_negative != is_right_negative {
        let sum = left + right;
        return (sum, is_left_negative && sum > 0);
    }
    if right <= left {
        let rest = left - right;
        return (rest, is_left_negative && rest > 0);
    }
    (right - left, !is_left_negative)
}

/// Returns the value of `bits` ulps of 2^-`frac` less a numeral. `None`: it is not found by few digits.
fn value_error(bits: i128, frac: u32, numeral: Narrow) -> Option<Narrow>
    requires wide { IsWide bits }
    ensures error { IfSome result (λ e. (r : RadixOf) (p : Parts)
        → IsDecimalNumeral r p numeral.number numeral.places numeral.is_negative
        → IsDecimalOf (error_num r p frac bits) (error_den r p frac) e.is_negative e.number e.places) }
{
    let places = numeral.places.max(frac);
    let fives = times_power(u128::from(magnitude_of(bits)), 5, frac)?;
    let value = times_power(fives, 10, places - frac)?;
    let other = times_power(numeral.number, 10, places - numeral.places)?;
    let (number, is_negative) = difference(
        value,
        is_less_than_zero(bits),
        other,
        numeral.is_negative,
    );
    Some(Narrow {
        number,
        places,
        is_negative,
    })
}

/// Returns `bits` less a numeral in ulps of 2^-`frac`. `None`: it is not found by few digits.
fn ulps_error(bits: i128, frac: u32, numeral: Narrow) -> Option<Narrow>
    requires wide { IsWide bits }
    ensures error { IfSome result (λ e. (r : RadixOf) (p : Parts)
        → IsDecimalNumeral r p numeral.number numeral.places numeral.is_negative
        → IsDecimalOf (error_num r p frac bits) (magnitude r p).den e.is_negative e.number e.places) }
{
    let value = times_power(u128::from(magnitude_of(bits)), 10, numeral.places)?;
    let other = times_power(numeral.number, 2, frac)?;
    let (number, is_negative) = difference(
        value,
        is_less_than_zero(bits),
        other,
        numeral.is_negative,
    );
    Some(Narrow {
        number,
        places: numeral.places,
        is_negative,
    })
}

/// Returns the error of `bits` ulps of 2^-`frac` against a numeral. `None`: it is not found by few digits.
fn narrow_error(measure: Measure, bits: i128, frac: u32, numeral: Narrow) -> Option<Narrow>
    requires wide { IsWide bits }
    ensures error { IfSome result (λ e. (r : RadixOf) (p : Parts)
        → IsDecimalNumeral r p numeral.number numeral.places numeral.is_negative
        → IsDecimalOf (error_num r p frac bits) (measured_den measure r p frac) e.is_negative e.number e.places) }
{
    match measure {
        Measure::Value => value_error(bits, frac, numeral),
        Measure::Ulps => ulps_error(bits, frac, numeral),
    }
}

/// Whether a number is less than one, and has at most 38 places.
fn is_below_one(error: Narrow) -> bool
    ensures below { IsTrue result → error.number < 10 ^ error.places }
    ensures few { IsTrue result → error.places ≤ 38 }
{
    error.places <= 38 && error.number < 10u128.pow(error.places)
}

/// Appends the last `count` digits of a number that fits a word.
fn push_low_digits<const N: usize>(out: &mut TextBuffer<N>, number: u64, count: u32)
    requires room { length out.old + count ≤ N }
    ensures { out.new ≡ out.old ++ last_digits 10 false count number }
{
    if count > 0 {
        push_low_digits(out, number / 10, count - 1);
        out.push(b'0' + (number % 10) as u8);
    }
}

/// Appends the last `count` digits of a number.
fn push_digits<const N: usize>(out: &mut TextBuffer<N>, number: u128, count: u32)
    requires room { length out.old + count ≤ N }
    ensures { out.new ≡ out.old ++ last_digits 10 false count number }
{
    if number >> 64 == 0 {
        push_low_digits(out, number as u64, count);
    } else if count > 0 {
        push_digits(out, number / 10, count - 1);
        out.push(b'0' + (number % 10) as u8);
    }
}

/// Returns a number without the zeros at the end of its last `places` digits, and how many of these digits are left.
fn trimmed(number: u128, places: u32) -> (u128, u32)
    ensures within { result.1 ≤ places }
    ensures zeros { AreTrailing number places (places - result.1) }
    ensures number { result.0 ≡ number / 10 ^ (places - result.1) }
{
    if places > 0 && number % 10 == 0 {
        trimmed(number / 10, places - 1)
    } else {
        (number, places)
    }
}

/// Appends a point and the last `count` digits of a number, or nothing if `count` is 0.
fn push_fraction<const N: usize>(out: &mut TextBuffer<N>, number: u128, count: u32)
    requires room { length out.old + count < N }
    ensures { out.new ≡ out.old ++ fraction_part 10 false count number }
{
    if count > 0 {
        out.push(b'.');
        push_digits(out, number, count);
    }
}

/// Appends a number below one, after `-` if negative, without zeros at the end.
fn push_below_one<const N: usize>(out: &mut TextBuffer<N>, error: Narrow)
    requires below { error.number < 10 ^ error.places }
    requires few { error.places ≤ 38 }
    requires room { length out.old + 1298 ≤ N }
    ensures text { Appends (IsTrimmed error.is_negative error.number error.places) 1298 out.old out.new }
    ensures short { length out.new ≤ length out.old + 1298 }
{
    let (number, places) = trimmed(error.number, error.places);
    push_sign(out, error.is_negative);
    out.push(b'0');
    push_fraction(out, number, places);
}

/// Appends the error of `bits` ulps of 2^-`frac` against a numeral, if few digits write it. Returns whether it did.
pub(crate) fn push_narrow_error<const N: usize>(
    out: &mut TextBuffer<N>,
    measure: Measure,
    bits: i128,
    frac: u32,
    numeral: Narrow,
) -> bool
    requires wide { IsWide bits }
    requires few { numeral.places ≤ 18 }
    requires room { length out.old + 1380 ≤ N }
    ensures error { result ≡ true → (r : RadixOf) (p : Parts)
        → IsDecimalNumeral r p numeral.number numeral.places numeral.is_negative
        → Appends (IsErrorText Lines measure r p frac bits) 1380 out.old out.new }
    ensures none { result ≡ false → out.new ≡ out.old }
    ensures short { length out.new ≤ length out.old + 1380 }
{
    match narrow_error(measure, bits, frac, numeral) {
        Some(error) if is_below_one(error) => {
            push_below_one(out, error);
            true
        }
        _ => false,
    }
}
