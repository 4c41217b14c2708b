//! Compares the errors of two numerals.

ghost use Rattle.std.specs.Prelude.{◌≡◌, ◌<◌, ◌≤◌, ◌+◌, ◌*◌, true, false, ◌^◌, IfSome, length};
ghost use Rattle.fixed_numeral.specs.Numeral.{IsNumeral, base};
ghost use Rattle.fixed_numeral.specs.Scanned.{exponent_unit};
ghost use Rattle.fixed_error.specs.ErrorSize.{HasErrorAbove, HasErrorWithin, HasGreaterError, HasNoGreaterError};
ghost use Rattle.fixed_error.specs.ErrorSize.{IsReadWithin};
ghost use Rattle.fixed_error.specs.Inner.Gap.{greater_part, less_part, sum_of};
ghost use Rattle.fixed_error.specs.Inner.Rest.{IsNear};

use crate::gap::{Gap, gap_of, power_of_two};
use crate::half::word_in_ulps;
use crate::rest::{near_word, word_of_decimal};
use crate::short::read_short;
use crate::sums::{Sum, TextLengths, is_sum_greater};
use fixed_bits::ReadMode;
use fixed_numeral::{Radix, Scanned, scan};
use fixed_steps::Steps;
use std::sync::ledger::Ledger;

/// A whole number, and a factor of the digits.
#[derive(Clone, Copy, Debug, PartialEq, Eq)]
pub struct Part {
    /// The whole number.
    pub whole: u128,
    /// The factor of the digits.
    pub factor: u128,
}

/// Returns the greater of the two parts that a gap lies between.
fn greater_part(gap: Gap) -> Part
    ensures { result ≡ greater_part gap }
{
    if gap.is_rounded_up {
        Part {
            whole: gap.whole,
            factor: 0,
        }
    } else {
        Part {
            whole: 0,
            factor: gap.unit,
        }
    }
}

/// Returns the lesser of the two parts that a gap lies between.
fn less_part(gap: Gap) -> Part
    ensures { result ≡ less_part gap }
{
    if gap.is_rounded_up {
        Part {
            whole: 0,
            factor: gap.unit,
        }
    } else {
        Part {
            whole: gap.whole,
            factor: 0,
        }
    }
}

/// Returns the sum of a part of the first numeral's digits and a part of the second's.
fn sum_of(one: Part, other: Part) -> Sum
    requires one { one.whole ≤ 2 ^ 67 }
    requires other { other.whole ≤ 2 ^ 67 }
    ensures { result ≡ sum_of one other }
{
    Sum {
        whole: one.whole + other.whole,
        one: one.factor,
        other: other.factor,
    }
}

/// Returns the lengths of two numerals' texts.
fn lengths_of(one: &[u8], other: &[u8]) -> TextLengths
    ensures { result ≡ record { one = length one.now; other = length other.now } }
{
    TextLengths {
        one: one.len() as u64,
        other: other.len() as u64,
    }
}

/// Whether the error of a numeral, rounded in a mode to a whole number of ulps of 2^-`frac`, is greater in size than
/// that of another, by the gaps of both.
fn is_gap_greater<L: Ledger>(
    one: &[u8],
    other: &[u8],
    radix: Radix,
    frac: u32,
    mode: ReadMode,
    steps: &mut Steps<L>,
) -> bool
    requires frac { frac ≤ 64 }
    requires one { IsReadWithin mode radix frac one.now }
    requires other { IsReadWithin mode radix frac other.now }
    ensures greater { result ≡ true → HasGreaterError mode radix frac one.now other.now }
    ensures not { result ≡ false → HasNoGreaterError mode radix frac one.now other.now }
    ensures cost { steps.new ≤ steps.old + 12 * (length one.now + length other.now) + 756 }
{
    let one_scanned = scan(one, radix, steps);
    let other_scanned = scan(other, radix, steps);
    match (&one_scanned, &other_scanned) {
        (Ok(left), Ok(right)) => {
            let left_gap = gap_of(one, left, radix, frac, mode, steps);
            let right_gap = gap_of(other, right, radix, frac, mode, steps);
            is_sum_greater(
                sum_of(greater_part(left_gap), less_part(right_gap)),
                sum_of(less_part(left_gap), greater_part(right_gap)),
                left.fraction_view(),
                right.fraction_view(),
                lengths_of(one, other),
                radix.base(),
                steps,
            )
        }
        _ => unreachable!(),
    }
}

/// Returns how far a numeral is from the nearest whole number of ulps of 2^-`frac`, in parts of 10^-18, if it is a
/// short decimal of at most 18 places without an exponent. It takes at most a step for each byte.
#[inline(always)]
fn near_parts<L: Ledger>(text: &[u8], radix: Radix, frac: u32, steps: &mut Steps<L>) -> Option<u64>
    requires frac { frac ≤ 64 }
    ensures near { IfSome result (IsNear radix frac text.now) }
    ensures cost { steps.new ≤ steps.old + length text.now }
{
    let found = read_short(text, radix, steps)?;
    if found.exponent != 0 || found.places > 18 {
        return None;
    }
    Some(near_word(word_in_ulps(word_of_decimal(found), frac)))
}

/// Whether the error of a numeral, rounded in a mode to a whole number of ulps of 2^-`frac`, is greater in size than
/// that of another. The texts may have any length, and it takes no memory. It takes at most twenty steps for each byte
/// of both, and 792.
///
/// Two short decimals that are rounded to nearest are compared by words.
pub fn is_error_greater<L: Ledger>(
    one: &[u8],
    other: &[u8],
    radix: Radix,
    frac: u32,
    mode: ReadMode,
    steps: &mut Steps<L>,
) -> bool
    requires frac { frac ≤ 64 }
    requires one { IsReadWithin mode radix frac one.now }
    requires other { IsReadWithin mode radix frac other.now }
    ensures greater { result ≡ true → HasGreaterError mode radix frac one.now other.now }
    ensures not { result ≡ false → HasNoGreaterError mode radix frac one.now other.now }
    ensures cost { steps.new ≤ steps.old + 20 * (length one.now + length other.now) + 792 }
{
    if mode == ReadMode::NearestEven {
        if let Some(near) = near_parts(one, radix, frac, steps) {
            if let Some(other_near) = near_parts(other, radix, frac, steps) {
                return near > other_near;
            }
        }
    }
    is_gap_greater(one, other, radix, frac, mode, steps)
}

/// Returns the part 0: no whole number and no digits.
fn nothing() -> Part
    ensures { result ≡ record { whole = 0; factor = 0 } }
{
    Part {
        whole: 0,
        factor: 0,
    }
}

/// Returns a bound below 1 in ulps of 2^-`frac`, as a factor of its digits after the point.
fn bound_part<'a>(found: &Scanned<'a>, radix: Radix, frac: u32) -> Part
    requires frac { frac ≤ 64 }
    requires bits { found.now.bit_shift < exponent_unit radix }
    ensures { result ≡ record { whole = 0; factor = 2 ^ (frac + found.now.bit_shift) } }
{
    Part {
        whole: 0,
        factor: power_of_two(frac + found.bit_shift()),
    }
}

/// Whether the error of a numeral, rounded in a mode to a whole number of ulps of 2^-`frac`, is greater in size than a
/// bound, which is the magnitude of another numeral. It takes at most twenty steps for each byte of both, and 792.
pub fn is_error_above<L: Ledger>(
    text: &[u8],
    bound: &[u8],
    radix: Radix,
    frac: u32,
    mode: ReadMode,
    steps: &mut Steps<L>,
) -> bool
    requires frac { frac ≤ 64 }
    requires within { IsReadWithin mode radix frac text.now }
    requires bound { IsNumeral radix bound.now }
    ensures above { result ≡ true → HasErrorAbove mode radix frac text.now bound.now }
    ensures not { result ≡ false → HasErrorWithin mode radix frac text.now bound.now }
    ensures cost { steps.new ≤ steps.old + 20 * (length text.now + length bound.now) + 792 }
{
    let text_scanned = scan(text, radix, steps);
    let bound_scanned = scan(bound, radix, steps);
    match (&text_scanned, &bound_scanned) {
        (Ok(left), Ok(right)) => {
            if !right.whole_view().is_empty() {
                return false;
            }
            let gap = gap_of(text, left, radix, frac, mode, steps);
            is_sum_greater(
                sum_of(greater_part(gap), nothing()),
                sum_of(less_part(gap), bound_part(right, radix, frac)),
                left.fraction_view(),
                right.fraction_view(),
                lengths_of(text, bound),
                radix.base(),
                steps,
            )
        }
        _ => unreachable!(),
    }
}
