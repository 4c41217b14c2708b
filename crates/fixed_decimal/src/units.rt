//! How many units the magnitude of a numeral is, and what remains of one more.

ghost use Rattle.std.specs.Prelude.{◌≡◌, ◌+◌, ◌-◌, ◌*◌, ◌^◌, ◌<◌, ◌≤◌, ◌↔◌, ℕ, false, IsTrue, length};
ghost use Rattle.std.specs.Int.Digits.{number_from_digits, AllBelowBase};
ghost use Rattle.fixed_bits.specs.LostFractions.{IsLostFraction};
ghost use Rattle.fixed_decimal.specs.Inner.Units.{AreUnits, IsCounted};
ghost use Rattle.fixed_numeral.specs.Place.{NoLeadingZero, NoTrailingZero};
ghost use Rattle.fixed_numeral.specs.Spelled.{spelled};
ghost use Rattle.fixed_numeral.specs.Value.{Fraction};

use crate::count::{Count, Units};
use crate::whole::{either, low_word, raised, split_word};
use fixed_bits::{LostFraction, ReadMode, lost_fraction, rounding_increment};
use fixed_numeral::{DigitView, power_of_ten};
use fixed_steps::Steps;
use std::sync::ledger::Ledger;

/// Whether nothing is lost.
#[inline(always)]
fn is_nothing(lost: LostFraction) -> bool
    ensures { (s den : ℕ) → 0 < den → IsLostFraction lost s den → IsTrue result ↔ (s ≡ 0) }
{
    match lost {
        LostFraction::Zero => true,
        LostFraction::LessThanHalf => false,
        LostFraction::Half => false,
        LostFraction::MoreThanHalf => false,
    }
}

/// Rounds a magnitude to whole units. The mode is that of a magnitude.
#[inline(always)]
pub fn rounded(count: Count, mode: ReadMode) -> Units
    ensures { (number : Fraction) (n : ℕ) → 0 < number.den → IsCounted number n count
        → AreUnits mode number n result }
{
    let odd = (count.units % 2) as u64;
    let total = count.units + u128::from(rounding_increment(count.lost, odd, mode));
    let (low, is_above) = split_word(total);
    Units {
        low,
        has_high_bits: either(count.is_over, is_above),
        is_exact: is_nothing(count.lost),
    }
}

/// Returns ten to the power of a few places.
#[inline(always)]
pub fn power(places: u32) -> u64
    requires { places ≤ 18 }
    ensures power { result ≡ 10 ^ places }
    ensures least { 0 < result }
    ensures most { result ≤ 2 ^ 64 }
{
    power_of_ten(places)
}

/// Returns the quotient of two numbers, and the rest.
#[inline(always)]
fn divided(number: u64, unit: u64) -> (u64, u64)
    requires { 0 < unit }
    ensures split { number ≡ result.0 * unit + result.1 }
    ensures rest { result.1 < unit }
{
    (number / unit, number % unit)
}

/// Appends zeros to a number.
#[inline(always)]
fn with_zeros(number: u64, zeros: u32) -> u64
    requires few { zeros ≤ 18 }
    requires room { number * 10 ^ zeros < 2 ^ 64 }
    ensures { result ≡ number * 10 ^ zeros }
{
    number * power_of_ten(zeros)
}

/// Returns a fraction of few places in units of 10^-n, and the lost fraction.
#[inline(always)]
fn part_of_few_places(fraction: u64, places: u32, n: u32) -> (u64, LostFraction)
    requires fraction { fraction < 10 ^ places }
    requires places { places ≤ 18 }
    requires n { n ≤ 18 }
    ensures { (rest : ℕ) × (fraction * 10 ^ (n - places) ≡ result.0 * 10 ^ (places - n) + rest)
        × IsLostFraction result.1 rest (10 ^ (places - n)) }
{
    let unit = power(places.saturating_sub(n));
    let (part, rest) = divided(with_zeros(fraction, n.saturating_sub(places)), unit);
    (part, lost_fraction(u128::from(rest), u128::from(unit)))
}

/// Returns a decimal of few places in units of 10^-n.
#[inline(always)]
pub fn count_of_few_places(whole: u64, fraction: u64, places: u32, n: u32) -> Count
    requires fraction { fraction < 10 ^ places }
    requires places { places ≤ 18 }
    requires n { n ≤ 18 }
    ensures { IsCounted (record { num = whole * 10 ^ places + fraction; den = 10 ^ places }) n result }
{
    let (part, lost) = part_of_few_places(fraction, places, n);
    Count {
        units: raised(whole, n, part),
        is_over: false,
        lost,
    }
}

/// Returns the lost fraction by its first digit and whether this is the last.
fn lost_by_digit(first: u8, is_last: bool) -> LostFraction
    requires { first < 10 }
    ensures { (y d : ℕ) → y < d → (IsTrue is_last ↔ (y ≡ 0)) → 0 < first * d + y
        → IsLostFraction result (first * d + y) (10 * d) }
{
    if first < 5 {
        LostFraction::LessThanHalf
    } else if first > 5 {
        LostFraction::MoreThanHalf
    } else if is_last {
        LostFraction::Half
    } else {
        LostFraction::MoreThanHalf
    }
}

/// Returns the lost fraction by the digits that are not read.
fn lost_by_digits<'a, L: Ledger>(rest: &DigitView<'a>, steps: &mut Steps<L>) -> LostFraction
    requires digits { AllBelowBase 10 rest.now }
    requires trailing { NoTrailingZero rest.now }
    ensures lost { IsLostFraction result (number_from_digits 10 rest.now) (10 ^ length rest.now) }
    ensures cost { steps.new ≤ steps.old + 1 }
{
    match rest.take(steps) {
        Some((first, others)) => lost_by_digit(first, others.is_empty()),
        None => LostFraction::Zero,
    }
}

/// By how many digits a view is shorter than `count`.
fn missing_digits(view: &DigitView, count: u32) -> u32
    ensures { result ≡ count - length view.now }
{
    let length = view.len();
    if length >= u64::from(count) {
        0
    } else {
        count - length as u32
    }
}

/// Returns the digits of a numeral in units of 10^-n.
pub fn count_of_digits<'a, L: Ledger>(
    whole: &DigitView<'a>,
    fraction: &DigitView<'a>,
    n: u32,
    steps: &mut Steps<L>,
) -> Count
    requires whole_digits { AllBelowBase 10 whole.now }
    requires leading { NoLeadingZero whole.now }
    requires fraction_digits { AllBelowBase 10 fraction.now }
    requires trailing { NoTrailingZero fraction.now }
    requires n { n ≤ 18 }
    ensures counted { IsCounted (spelled 10 whole.now fraction.now 0) n result }
    ensures cost { steps.new ≤ steps.old + 64 + 18 + 1 }
{
    let (low, is_over) = low_word(whole, steps);
    let (number, rest) = fraction.take_number(10, n, steps);
    let part = with_zeros(number, missing_digits(fraction, n));
    let lost = lost_by_digits(&rest, steps);
    Count {
        units: raised(low, n, part),
        is_over,
        lost,
    }
}
