//! The error of a numeral in ulps, cut to whole parts of an ulp, so that errors can be added exactly.
//!
//! A part is 10^-18 of an ulp in radix 10 and 2^-60 in the others, so a part is a whole number of units of a digit's
//! place, and the digits before that place are a word. Those after it are multiplied by a power of two and then cut.
//! Numerals of any length and exponent are cut exactly, without memory.
//!
//! A short decimal of at most 18 places is a whole number of parts, so its error is a difference of two words.

ghost use Rattle.std.specs.Prelude.{◌≡◌, ◌+◌, ◌-◌, ◌*◌, ◌^◌, ◌<◌, ◌≤◌, length, IfSome, ◌↔◌, IsTrue, min};
ghost use Rattle.std.specs.Int.Digits.{AllBelowBase, number_from_digits};
ghost use Rattle.fixed_bits.specs.Nearest.{distance};
ghost use Rattle.fixed_bits.specs.declared.mode.ReadMode.{ReadMode as ReadModeOf};
ghost use Rattle.fixed_error.specs.Cut.{IsCutError, cut_parts};
ghost use Rattle.fixed_error.specs.ErrorSize.{HasSteps};
ghost use Rattle.fixed_error.specs.Errors.{block};
ghost use Rattle.fixed_error.specs.Inner.Cut.{IsCut, IsCutAbove, IsSigned};
ghost use Rattle.fixed_error.specs.Inner.Sums.{HasFewDigits};
ghost use Rattle.fixed_error.specs.Short.{IsShortRead};
ghost use Rattle.fixed_numeral.specs.Numeral.{HasNumeral, IsNumeral, Parts, base};
ghost use Rattle.fixed_numeral.specs.Scanned.{IsScanned, exponent_unit};

use crate::gap::{power_of_two, steps_in};
use crate::rest::{WORD_PARTS, block_of, power_of, take_block, word_of_decimal};
use crate::sums::{Sum, TextLengths, is_sum_greater};
use fixed_bits::ReadMode;
use fixed_numeral::{DigitView, Radix, Scanned, ShortNumeral, scan};
use fixed_steps::Steps;
use std::sync::ledger::Ledger;

/// The error of bits against a numeral, cut toward zero to whole parts of an ulp: 10^-18 in radix 10, else 2^-60.
#[derive(Clone, Copy, Debug, PartialEq, Eq)]
pub struct CutError {
    /// How many parts the bits are above the numeral. 0 if they are not above it.
    pub above: u64,
    /// How many parts the bits are below the numeral. 0 if they are not below it.
    pub below: u64,
}

/// A number cut to a whole one.
#[derive(Clone, Copy, Debug, PartialEq, Eq)]
struct Cut {
    /// The whole number.
    whole: u128,
    /// Whether something was cut off.
    is_more: bool,
}

/// A number divided by another and rounded up, and how much more than the number the product is.
#[derive(Clone, Copy, Debug, PartialEq, Eq)]
struct Ceiling {
    whole: u128,
    more: u128,
}

/// Divides `unit` times a number of two blocks, each below `one`, by `one * one`.
fn ceiling_of(unit: u128, high: u128, low: u128, one: u128) -> Ceiling
    requires unit { unit ≤ 2 ^ 67 }
    requires high { high < one }
    requires low { low < one }
    requires one { one ≤ 2 ^ 60 }
    ensures whole { result.whole * (one * one) ≡ unit * (high * one + low) + result.more }
    ensures more { result.more < one * one }
    ensures small { result.whole ≤ unit }
{
    let product = unit * high;
    let square = one * one;
    let inner = product % one * one + unit * low;
    let rest = inner % square;
    let whole = product / one + inner / square;
    if rest == 0 {
        return Ceiling { whole, more: 0 };
    }
    Ceiling {
        whole: whole + 1,
        more: square - rest,
    }
}

/// Returns a whole number as a sum. Any from 2^68 on are as good as that.
fn whole_sum(whole: u128) -> Sum
    ensures { result ≡ record { whole = min whole (2 ^ 68); one = 0; other = 0 } }
{
    Sum {
        whole: whole.min(1 << 68),
        one: 0,
        other: 0,
    }
}

/// Whether `unit` times the digits after a point is less than a whole number, and whether it is greater.
fn order_of<'a, L: Ledger>(
    digits: &DigitView<'a>,
    unit: u128,
    whole: u128,
    radix: Radix,
    bytes: u64,
    steps: &mut Steps<L>,
) -> (bool, bool)
    requires unit { unit ≤ 2 ^ 67 }
    requires digits { AllBelowBase (base radix) digits.now }
    requires few { HasFewDigits (base radix) bytes digits.now }
    ensures less { IsTrue result.0
        ↔ (unit * number_from_digits (base radix) digits.now < whole * base radix ^ length digits.now) }
    ensures greater { IsTrue result.1
        ↔ (whole * base radix ^ length digits.now < unit * number_from_digits (base radix) digits.now) }
    ensures cost { steps.new ≤ steps.old + 8 * bytes + 552 }
{
    let sum = Sum {
        whole: 0,
        one: unit,
        other: 0,
    };
    let bound = whole_sum(whole);
    let lengths = TextLengths {
        one: bytes,
        other: bytes,
    };
    let base = radix.base();
    let is_less = is_sum_greater(bound, sum, digits, digits, lengths, base, steps);
    let is_greater = is_sum_greater(sum, bound, digits, digits, lengths, base, steps);
    (is_less, is_greater)
}

/// Returns `unit` times the digits after a point, cut to a whole number. `bytes` is the length of the numeral's text.
fn cut_product<'a, L: Ledger>(
    digits: &DigitView<'a>,
    unit: u128,
    radix: Radix,
    bytes: u64,
    steps: &mut Steps<L>,
) -> Cut
    requires unit { unit ≤ 2 ^ 67 }
    requires digits { AllBelowBase (base radix) digits.now }
    requires few { HasFewDigits (base radix) bytes digits.now }
    ensures cut { IsCut (unit * number_from_digits (base radix) digits.now) (base radix ^ length digits.now)
        result.whole result.is_more }
    ensures small { result.whole ≤ unit }
    ensures cost { steps.new ≤ steps.old + 8 * bytes + 672 }
{
    let (high, later) = take_block(digits, radix, steps);
    let (low, last) = take_block(&later, radix, steps);
    let found = ceiling_of(unit, high, low, power_of(radix, block_of(radix)));
    let (is_less, is_greater) = order_of(&last, unit, found.more, radix, bytes, steps);
    Cut {
        whole: found.whole - u128::from(is_less),
        is_more: is_less | is_greater,
    }
}

/// Returns the number of parts of an ulp: 10^18 in radix 10, else 2^60.
pub fn parts_of_ulp(radix: Radix) -> u64
    ensures parts { result ≡ cut_parts radix }
    ensures least { 2 ^ 59 ≤ result }
    ensures most { result ≤ 2 ^ 60 }
{
    match radix {
        Radix::Dec => WORD_PARTS,
        _ => 1 << 60,
    }
}

/// Returns how far a scanned numeral is above a whole number of ulps of 2^-`frac`, cut to whole parts.
fn cut_rest<'a, L: Ledger>(
    found: &Scanned<'a>,
    radix: Radix,
    frac: u32,
    bytes: u64,
    steps: &mut Steps<L>,
) -> Cut
    requires frac { frac ≤ 64 }
    requires fraction { AllBelowBase (base radix) found.now.fraction }
    requires few { HasFewDigits (base radix) bytes found.now.fraction }
    requires bits { found.now.bit_shift < exponent_unit radix }
    ensures above { (p : Parts) → IsScanned radix p found.now.neg found.now.whole found.now.fraction found.now.bit_shift
        → IsCutAbove radix p frac result.whole result.is_more }
    ensures below { result.whole < base radix ^ block radix }
    ensures cost { steps.new ≤ steps.old + 8 * bytes + 732 }
{
    let one = power_of(radix, block_of(radix));
    let unit = power_of_two(frac + found.bit_shift());
    let (high, later) = take_block(found.fraction_view(), radix, steps);
    let cut = cut_product(&later, unit, radix, bytes, steps);
    Cut {
        whole: (unit * high + cut.whole) % one,
        is_more: cut.is_more,
    }
}

/// Returns how far ulps are above a magnitude, and how far below, with the sign of a numeral.
fn signed_cut(is_negative: bool, over: u64, under: u64) -> CutError
    ensures signed { IsSigned is_negative over under result }
{
    if is_negative {
        CutError {
            above: under,
            below: over,
        }
    } else {
        CutError {
            above: over,
            below: under,
        }
    }
}

/// Returns the cut error of a numeral that is rounded to `ulps` of 2^-`frac`, by its digits.
fn cut_by_digits<L: Ledger>(
    numeral: &[u8],
    ulps: u64,
    radix: Radix,
    frac: u32,
    steps: &mut Steps<L>,
) -> CutError
    requires frac { frac ≤ 64 }
    requires numeral { IsNumeral radix numeral.now }
    ensures cut { (mode : ReadModeOf) → HasSteps mode radix frac numeral.now ulps
        → IsCutError mode radix frac numeral.now result }
    ensures small { result.above + result.below ≤ 2 ^ 60 }
    ensures cost { steps.new ≤ steps.old + 14 * length numeral.now + 853 }
{
    let scanned = scan(numeral, radix, steps);
    match &scanned {
        Ok(found) => {
            let below = steps_in(numeral, radix, frac, ReadMode::TowardsZero, steps);
            let rest = cut_rest(found, radix, frac, numeral.len() as u64, steps);
            let one = power_of(radix, block_of(radix));
            if ulps == below {
                return signed_cut(found.neg(), 0, rest.whole as u64);
            }
            let over = one - rest.whole - u128::from(rest.is_more);
            signed_cut(found.neg(), over as u64, 0)
        }
        Err(_) => unreachable!(),
    }
}

/// Returns by how many parts `ulps` of 2^-`frac` are above `whole` and `word` parts of 10^-18, and by how many they are
/// below, at most 10^18 each.
fn word_error(whole: u64, word: u64, ulps: u64, frac: u32) -> (u64, u64)
    requires frac { frac ≤ 64 }
    requires whole { whole < 10 ^ 16 }
    requires word { word < 10 ^ 18 }
    ensures error { distance (ulps * 10 ^ 18) ((whole * 10 ^ 18 + word) * 2 ^ frac) < 10 ^ 18
        → (result.0 ≡ ulps * 10 ^ 18 - (whole * 10 ^ 18 + word) * 2 ^ frac)
        × (result.1 ≡ (whole * 10 ^ 18 + word) * 2 ^ frac - ulps * 10 ^ 18) }
    ensures small { result.0 + result.1 ≤ 10 ^ 18 }
{
    let parts = u128::from(WORD_PARTS);
    let rounded = u128::from(ulps) * parts;
    let exact = (u128::from(whole) * parts + u128::from(word)) << frac;
    let over = rounded.saturating_sub(exact).min(parts);
    let under = exact.saturating_sub(rounded).min(parts);
    (over as u64, under as u64)
}

/// Returns the error of a numeral that is rounded to `ulps` of 2^-`frac`, cut toward zero to whole parts. `short` has
/// the numbers of its parts if it was read as a short decimal. It takes at most 14 steps for each byte, and 853.
pub fn cut_error<L: Ledger>(
    numeral: &[u8],
    ulps: u64,
    short: Option<ShortNumeral>,
    radix: Radix,
    frac: u32,
    steps: &mut Steps<L>,
) -> CutError
    requires frac { frac ≤ 64 }
    requires numeral { IsNumeral radix numeral.now }
    requires short { IfSome short (IsShortRead radix numeral.now) }
    ensures cut { (mode : ReadModeOf) → HasSteps mode radix frac numeral.now ulps
        → IsCutError mode radix frac numeral.now result }
    ensures small { result.above + result.below ≤ 2 ^ 60 }
    ensures cost { steps.new ≤ steps.old + 14 * length numeral.now + 853 }
{
    if let Some(found) = short {
        if found.exponent == 0 && found.places <= 18 {
            let (over, under) = word_error(found.whole, word_of_decimal(found), ulps, frac);
            return signed_cut(found.negative, over, under);
        }
    }
    cut_by_digits(numeral, ulps, radix, frac, steps)
}
