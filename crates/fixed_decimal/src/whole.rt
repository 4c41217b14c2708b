//! The number that the digits before a point spell, in a word.

ghost use Rattle.std.specs.Prelude.{◌≡◌, ◌+◌, ◌*◌, ◌%◌, ◌^◌, ◌<◌, ◌≤◌, ◌↔◌, ◌⊎◌, IsTrue, length};
ghost use Rattle.std.specs.Int.Digits.{number_from_digits, AllBelowBase};
ghost use Rattle.fixed_numeral.specs.Place.{NoLeadingZero};

use fixed_numeral::{DigitView, power_of_ten};
use fixed_steps::Steps;
use std::sync::ledger::Ledger;

/// The lowest 64 bits of a number, and whether it has more.
#[inline(always)]
pub fn split_word(number: u128) -> (u64, bool)
    ensures low { result.0 ≡ number % 2 ^ 64 }
    ensures over { IsTrue result.1 ↔ (2 ^ 64 ≤ number) }
{
    ((number % (1 << 64)) as u64, number >= 1 << 64)
}

/// Whether one of two conditions holds.
#[inline(always)]
pub fn either(one: bool, other: bool) -> bool
    ensures { IsTrue result ↔ (IsTrue one ⊎ IsTrue other) }
{
    one || other
}

/// How many digits are read at once: 16, or all if there are fewer.
fn next_count(view: &DigitView) -> u32
    ensures most { result ≤ 16 }
    ensures within { result ≤ length view.now }
    ensures some { 0 < length view.now → 0 < result }
{
    view.len().min(16) as u32
}

/// Whether a view has more than 64 digits.
fn is_long(view: &DigitView) -> bool
    ensures { IsTrue result ↔ (64 < length view.now) }
{
    view.len() > 64
}

/// Returns a number times ten to the power of `places`, plus `more`.
#[inline(always)]
pub fn raised(number: u64, places: u32, more: u64) -> u128
    requires { places ≤ 18 }
    ensures sum { result ≡ number * 10 ^ places + more }
    ensures room { result < 2 ^ 127 }
{
    u128::from(number) * u128::from(power_of_ten(places)) + u128::from(more)
}

/// Returns the lowest 64 bits of the number that decimal digits spell, and whether it has more. Of many digits only the
/// last 64 are read: ten to the power of 64 is a multiple of two to that power.
pub fn low_word<'a, L: Ledger>(view: &DigitView<'a>, steps: &mut Steps<L>) -> (u64, bool)
    requires digits { AllBelowBase 10 view.now }
    requires leading { NoLeadingZero view.now }
    ensures low { result.0 ≡ number_from_digits 10 view.now % 2 ^ 64 }
    ensures over { IsTrue result.1 ↔ (2 ^ 64 ≤ number_from_digits 10 view.now) }
    ensures cost { steps.new ≤ steps.old + 64 }
{
    let mut over = is_long(view);
    let mut rest = view.last_n(64);
    let mut low: u64 = 0;
    while !rest.is_empty() {
        let count = next_count(&rest);
        let (number, others) = rest.take_number(10, count, steps);
        let (less, more) = split_word(raised(low, count, number));
        over = either(over, more);
        low = less;
        rest = others;
    }
    (low, over)
}
