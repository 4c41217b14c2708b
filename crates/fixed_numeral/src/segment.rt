//! Signs and digits of a text, read straight into numbers.

ghost use Rattle.std.specs.Prelude.{◌≡◌, ◌+◌, ◌-◌, ◌<◌, ◌≤◌, IfSome, drop, length, take};
ghost use Rattle.std.specs.Char.{digit_value};
ghost use Rattle.std.specs.Str.Parse.{AllDigits};
ghost use Rattle.fixed_numeral.specs.Inner.Segments.{IsSignAt, IsDigitRun};

use crate::swar::{first_decimals, last_decimals, last_number, word_at};

/// Digits whose number fits a word.
#[derive(Clone, Copy)]
pub(crate) struct Few {
    /// The number that the digits spell.
    pub number: u64,
    /// The index after the digits.
    pub end: usize,
}

/// Returns whether the sign at `from`, if any, is a minus, and the index after the sign.
#[tactic(auto, using(crate::proofs::SegmentLemmas::sign_by_sums))]
#[inline(always)]
pub(crate) fn sign_at(bytes: &[u8], from: usize) -> (bool, usize)
    requires { from ≤ length bytes.now }
    ensures { IsSignAt bytes.now from result.1 result.0 }
{
    if from == bytes.len() {
        return (false, from);
    }
    // Sums instead of branches, which are hard to predict.
    let is_minus = bytes[from] == b'-';
    let is_plus = bytes[from] == b'+';
    (
        is_minus,
        from + usize::from(is_minus) + usize::from(is_plus),
    )
}

/// Returns the value of a decimal digit, or a number above 9 for any other byte.
#[inline(always)]
fn decimal_digit(b: u8) -> u64
    ensures { result < 10 → digit_value b ≡ result }
{
    u64::from(b.wrapping_sub(b'0'))
}

/// Reads the decimal digits from index `from` on, before index `limit`, which is at most 16.
#[inline(always)]
pub(crate) fn decimals_at(bytes: &[u8], from: usize, limit: usize) -> Few
    requires few { limit ≤ 16 }
    requires within { limit ≤ length bytes.now }
    requires place { from ≤ limit }
    ensures run { IsDigitRun 10 bytes.now from result.end result.number }
    ensures end { result.end ≤ limit }
{
    let mut number: u64 = 0;
    let mut at = from;
    while at < limit {
        let digit = decimal_digit(bytes[at]);
        if digit >= 10 {
            return Few { number, end: at };
        }
        number = number * 10 + digit;
        at += 1;
    }
    Few { number, end: at }
}

/// Returns the number that the bytes from `from` to `to`, at most 16, spell if they are decimal digits. `to` is at
/// least 8.
#[inline(always)]
pub(crate) fn decimals_between(bytes: &[u8], from: usize, to: usize) -> Option<u64>
    requires long { 8 ≤ to }
    requires place { from ≤ to }
    requires within { to ≤ length bytes.now }
    requires few { to ≤ from + 16 }
    ensures { IfSome result (λ n. IsDigitRun 10 bytes.now from to n) }
{
    let count = to - from;
    let last = word_at(bytes, to - 8);
    if count <= 8 {
        let number = last_decimals(last, count)?;
        return Some(number);
    }
    let high = first_decimals(word_at(bytes, from), count - 8)?;
    let low = last_decimals(last, 8)?;
    Some(high * 100_000_000 + low)
}

/// Returns the number that the bytes from `from` to `to`, at most 16, spell. Each is a digit. `to` is at least 16.
#[inline(always)]
pub(crate) fn number_between(bytes: &[u8], base: u64, from: usize, to: usize) -> u64
    requires long { 16 ≤ to }
    requires place { from ≤ to }
    requires within { to ≤ length bytes.now }
    requires few { to ≤ from + 16 }
    requires least { 2 ≤ base }
    requires most { base ≤ 16 }
    requires digits { AllDigits base (take (to - from) (drop from bytes.now)) }
    ensures { IsDigitRun base bytes.now from to result }
{
    let count = to - from;
    let last = word_at(bytes, to - 8);
    if count <= 8 {
        return last_number(last, count, base);
    }
    let high = last_number(word_at(bytes, to - 16), count - 8, base);
    let low = last_number(last, 8, base);
    let square = base * base;
    let fourth = square * square;
    high * (fourth * fourth) + low
}

/// Returns the number that the bytes from `from` to `to`, at most 16, spell if they are decimal digits.
#[inline(always)]
pub(crate) fn decimals_to(bytes: &[u8], from: usize, to: usize) -> Option<u64>
    requires place { from ≤ to }
    requires within { to ≤ length bytes.now }
    requires few { to ≤ from + 16 }
    ensures { IfSome result (λ n. IsDigitRun 10 bytes.now from to n) }
{
    if to >= 8 {
        let number = decimals_between(bytes, from, to)?;
        return Some(number);
    }
    let run = decimals_at(bytes, from, to);
    if run.end == to {
        Some(run.number)
    } else {
        None
    }
}
