//! Numbers from the ends of a view.

ghost use Rattle.std.specs.Prelude.{◌≡◌, ◌+◌, ◌-◌, ◌*◌, ◌%◌, ◌^◌, ◌<◌, ◌≤◌, ◌↔◌, ◌⊎◌, IsTrue, drop, length};
ghost use Rattle.std.specs.Int.Digits.{number_from_digits, AllBelowBase};
ghost use Rattle.fixed_numeral.specs.Place.{NoLeadingZero, NoTrailingZero};
ghost use Rattle.fixed_read.specs.Inner.Blocks.{IsBlockOf};

use crate::shifts::{power_of_two, split_bits};
use fixed_numeral::{DigitView, power_of_ten};
use fixed_steps::Steps;
use std::sync::ledger::Ledger;

/// Returns base^n for a base whose digits have `bits` bits.
fn power_by_bits(base: u32, bits: u32, n: u32) -> u64
    requires base { base ≡ 2 ^ bits }
    requires room { base ^ n < 2 ^ 64 }
    ensures { result ≡ base ^ n }
{
    power_of_two(bits * n)
}

/// Returns base^n, by a table or a shift if the base is 8, 10 or 16.
#[tactic(auto, using(crate::proofs::NumberLemmas::ten_exponent))]
fn power_of(base: u32, n: u32) -> u64
    requires { base ^ n < 2 ^ 64 }
    ensures { result ≡ base ^ n }
{
    match base {
        8 => power_by_bits(base, 3, n),
        10 => power_of_ten(n),
        16 => power_by_bits(base, 4, n),
        _ => u64::from(base).pow(n),
    }
}

/// Returns number * base^count.
fn with_zeros(number: u64, base: u32, count: u32) -> u64
    requires least { 2 ≤ base }
    requires room { number * base ^ count < 2 ^ 64 }
    ensures { result ≡ number * base ^ count }
{
    if number == 0 {
        return 0;
    }
    number * power_of(base, count)
}

/// Returns how many digits a view is shorter than `count`.
fn missing_digits(view: &DigitView, count: u32) -> u32
    ensures { result ≡ count - length view.now }
{
    let length = view.len();
    if length >= u64::from(count) {
        0
    } else {
        count - length as u32
    }
}

/// Returns the number that the first `count` digits spell, padded with zeros if there are fewer.
#[inline(always)]
pub fn leading_number<'a, L: Ledger>(
    view: &DigitView<'a>,
    base: u32,
    count: u32,
    steps: &mut Steps<L>,
) -> u64
    requires digits { AllBelowBase base view.now }
    requires trailing { NoTrailingZero view.now }
    requires least { 2 ≤ base }
    requires most { base ≤ 16 }
    requires room { base ^ count ≤ 2 ^ 64 }
    ensures led { IsBlockOf base view.now (drop count view.now) result count }
    ensures cost { steps.new ≤ steps.old + count }
{
    if view.is_empty() {
        return 0;
    }
    let number = view.first_number(base, count, steps);
    with_zeros(number, base, missing_digits(view, count))
}

/// Returns high * power + low.
fn high_low(high: u64, power: u64, low: u64) -> u128
    ensures { result ≡ high * power + low }
{
    u128::from(high) * u128::from(power) + u128::from(low)
}

/// Whether a view has more than `count` digits.
pub fn is_longer(view: &DigitView, count: u32) -> bool
    ensures { IsTrue result ↔ (count < length view.now) }
{
    view.len() > u64::from(count)
}

/// Returns the number that the first `prefix + back` digits spell, padded with zeros if there are fewer, from two words
/// of digits. `power` is base^back.
pub fn leading_number_u128<'a, L: Ledger>(
    view: &DigitView<'a>,
    base: u32,
    prefix: u32,
    back: u32,
    power: u64,
    steps: &mut Steps<L>,
) -> u128
    requires digits { AllBelowBase base view.now }
    requires trailing { NoTrailingZero view.now }
    requires least { 2 ≤ base }
    requires most { base ≤ 16 }
    requires prefix { base ^ prefix ≤ 2 ^ 64 }
    requires back { base ^ back ≤ 2 ^ 64 }
    requires power { power ≡ base ^ back }
    ensures led { IsBlockOf base view.now (drop (prefix + back) view.now) result (prefix + back) }
    ensures cost { steps.new ≤ steps.old + prefix + back }
{
    let high = leading_number(view, base, prefix, steps);
    if is_longer(view, prefix) {
        let (_prefix, rest) = view.split_at(u64::from(prefix));
        let low = leading_number(&rest, base, back, steps);
        high_low(high, power, low)
    } else {
        high_low(high, power, 0)
    }
}

/// Whether a number had more bits before, or has them now.
pub fn is_over(over: bool, high: u128) -> bool
    ensures { IsTrue result ↔ (IsTrue over ⊎ (0 < high)) }
{
    over || high != 0
}

/// Counts the digits that are taken at once: 15, or all if there are fewer.
fn next_count(view: &DigitView) -> u32
    ensures most { result ≤ 15 }
    ensures within { result ≤ length view.now }
    ensures some { 0 < length view.now → 0 < result }
{
    view.len().min(15) as u32
}

/// Returns low * base^count + number.
#[tactic(auto, using(crate::proofs::NumberLemmas::chunk_room))]
fn with_digits(low: u64, base: u32, count: u32, number: u64) -> u128
    requires least { 2 ≤ base }
    requires most { base ≤ 16 }
    requires count { count ≤ 15 }
    ensures { result ≡ low * base ^ count + number }
{
    if low == 0 {
        return u128::from(number);
    }
    high_low(low, power_of(base, count), number)
}

/// Returns the number that the digits spell modulo 2^width, and whether the number is 2^width or more.
fn number_mod_power_long<'a, L: Ledger>(
    view: &DigitView<'a>,
    base: u32,
    width: u32,
    steps: &mut Steps<L>,
) -> (u64, bool)
    requires digits { AllBelowBase base view.now }
    requires leading { NoLeadingZero view.now }
    requires least { 2 ≤ base }
    requires most { base ≤ 16 }
    requires even { base % 2 ≡ 0 }
    requires width { width ≤ 64 }
    ensures number { result.0 ≡ number_from_digits base view.now % 2 ^ width }
    ensures over { IsTrue result.1 ↔ (2 ^ width ≤ number_from_digits base view.now) }
    ensures cost { steps.new ≤ steps.old + width }
{
    let mut over = is_longer(view, width);
    let mut rest = view.last_n(u64::from(width));
    let mut low: u64 = 0;
    while !rest.is_empty() {
        let count = next_count(&rest);
        let (number, others) = rest.take_number(base, count, steps);
        let (high, less) = split_bits(with_digits(low, base, count, number), width);
        over = is_over(over, high);
        low = less;
        rest = others;
    }
    (low, over)
}

/// Returns the lowest `width` bits of a word, and whether it has more.
pub fn low_bits_and_rest(value: u64, width: u32) -> (u64, bool)
    requires { width ≤ 64 }
    ensures low { result.0 ≡ value % 2 ^ width }
    ensures over { IsTrue result.1 ↔ (2 ^ width ≤ value) }
{
    if width == 64 {
        return (value, false);
    }
    let high = value >> width;
    (value - (high << width), value >= power_of_two(width))
}

/// Returns the number that at most 15 digits spell modulo 2^width, and whether the number is 2^width or more.
#[tactic(auto, using(crate::proofs::NumberLemmas::chunk_room))]
fn number_mod_power_short<'a, L: Ledger>(
    view: &DigitView<'a>,
    base: u32,
    width: u32,
    steps: &mut Steps<L>,
) -> (u64, bool)
    requires digits { AllBelowBase base view.now }
    requires least { 2 ≤ base }
    requires most { base ≤ 16 }
    requires width { width ≤ 64 }
    requires few { length view.now ≤ 15 }
    ensures number { result.0 ≡ number_from_digits base view.now % 2 ^ width }
    ensures over { IsTrue result.1 ↔ (2 ^ width ≤ number_from_digits base view.now) }
    ensures cost { steps.new ≤ steps.old + 15 }
{
    low_bits_and_rest(view.first_number(base, 15, steps), width)
}

/// Returns the number that the digits spell modulo 2^width, and whether the number is 2^width or more.
#[tactic(auto, using(crate::proofs::NumberLemmas::nothing_low, crate::proofs::NumberLemmas::nothing_over))]
pub fn number_mod_power<'a, L: Ledger>(
    view: &DigitView<'a>,
    base: u32,
    width: u32,
    steps: &mut Steps<L>,
) -> (u64, bool)
    requires digits { AllBelowBase base view.now }
    requires leading { NoLeadingZero view.now }
    requires least { 2 ≤ base }
    requires most { base ≤ 16 }
    requires even { base % 2 ≡ 0 }
    requires width { width ≤ 64 }
    ensures number { result.0 ≡ number_from_digits base view.now % 2 ^ width }
    ensures over { IsTrue result.1 ↔ (2 ^ width ≤ number_from_digits base view.now) }
    ensures cost { steps.new ≤ steps.old + width + 15 }
{
    if view.is_empty() {
        return (0, false);
    }
    if view.len() <= 15 {
        number_mod_power_short(view, base, width, steps)
    } else {
        number_mod_power_long(view, base, width, steps)
    }
}
