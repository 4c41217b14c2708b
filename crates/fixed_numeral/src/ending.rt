//! Numerals in any radix at the end of a text.
//!
//! A numeral here has at most 16 bytes, and at least 16 bytes come before it. So the last 16 bytes of the text are
//! tested together: the first byte that is not a digit ends the digits, and whole words that reach back over the
//! numeral's start give their number. No branch depends on the number of digits or on which of them are letters.

ghost use Rattle.std.specs.Prelude.{◌≡◌, ◌+◌, ◌-◌, ◌<◌, ◌≤◌, ℕ, IfSome, drop, length, slice_index, take};
ghost use Rattle.std.specs.Prelude.{if◌then◌else◌};
ghost use Rattle.std.specs.Int.{bit_at};
ghost use Rattle.std.specs.Str.Parse.{AllDigits};
ghost use Rattle.fixed_numeral.specs.Numeral.{base};
ghost use Rattle.fixed_numeral.specs.PartNumbers.{HasFewDigits};
ghost use Rattle.fixed_numeral.specs.Inner.Segments.{IsMantissaAt, IsShortAt, HasMarks};

use crate::exponent::{Power, power_at};
use crate::radix::Radix;
use crate::segment::{number_between, sign_at};
use crate::short::{LANES, ShortNumeral};
use std::simd::prelude::*;

/// Marks each of the last 16 bytes that is below `least` or above `most`. The first byte has the lowest bit.
#[inline(always)]
fn marks_outside(text: &[u8], least: u8, most: u8) -> u64
    requires { LANES ≤ length text.now }
    ensures { (k : ℕ) → k < LANES → bit_at result k ≡ 0 → (least ≤ slice_index text.now (length text.now - LANES + k))
        × (slice_index text.now (length text.now - LANES + k) ≤ most) }
{
    let start = text.len() - LANES;
    let lanes = u8x16::from_slice(&text[start..]);
    let below = lanes.simd_lt(u8x16::splat(least)).to_bitmask();
    let above = lanes.simd_gt(u8x16::splat(most)).to_bitmask();
    below | above
}

/// Marks each of the last 16 bytes that is not a digit of a radix.
#[inline(always)]
fn other_marks(text: &[u8], radix: Radix) -> u64
    requires { LANES ≤ length text.now }
    ensures { HasMarks (base radix) text.now result }
{
    let base = radix.base() as u8;
    let digits = base.min(10);
    let letters = base - digits;
    let no_digit = marks_outside(text, b'0', b'/' + digits);
    let no_capital = marks_outside(text, b'A', b'@' + letters);
    let no_small = marks_outside(text, b'a', b'`' + letters);
    no_digit & no_capital & no_small
}

/// Returns the end of the unmarked bytes from index `from` on.
#[tactic(auto, using(crate::proofs::MarkLemmas::clear_digits))]
#[inline(always)]
fn unmarked_end(text: &[u8], marks: u64, from: usize) -> usize
    requires long { LANES ≤ length text.now }
    requires late { length text.now ≤ from + LANES }
    requires place { from ≤ length text.now }
    ensures least { from ≤ result }
    ensures within { result ≤ length text.now }
    ensures digits { (b : ℕ) → HasMarks b text.now marks → AllDigits b (take (result - from) (drop from text.now)) }
{
    let later = marks >> (from + LANES - text.len());
    let count = later.trailing_zeros() as usize;
    from + count.min(text.len() - from)
}

/// The digits of a mantissa.
#[derive(Clone, Copy)]
pub(crate) struct Mantissa {
    /// The number that the digits before the point spell.
    pub whole: u64,
    /// The number that the digits after the point spell.
    pub fraction: u128,
    /// The number of digits after the point.
    pub places: u32,
    /// The index after the mantissa.
    pub end: usize,
}

/// Reads the mantissa at index `from`. `None`: it has no digit.
#[inline(always)]
fn mantissa_at(text: &[u8], radix: Radix, from: usize) -> Option<Mantissa>
    requires least { LANES ≤ from }
    requires late { length text.now ≤ from + LANES }
    requires place { from ≤ length text.now }
    ensures { IfSome result (λ m. IsMantissaAt (base radix) text.now from m.end m.whole m.fraction m.places) }
{
    let base = u64::from(radix.base());
    let marks = other_marks(text, radix);
    let point = unmarked_end(text, marks, from);
    let whole = number_between(text, base, from, point);
    if point == text.len() || text[point] != b'.' {
        if point == from {
            return None;
        }
        return Some(Mantissa {
            whole,
            fraction: 0,
            places: 0,
            end: point,
        });
    }
    let end = unmarked_end(text, marks, point + 1);
    if end == from + 1 {
        return None;
    }
    Some(Mantissa {
        whole,
        fraction: u128::from(number_between(text, base, point + 1, end)),
        places: (end - point - 1) as u32,
        end,
    })
}

/// Returns the numeral with this sign, mantissa and exponent.
#[inline(always)]
pub(crate) fn numeral_of(negative: bool, mantissa: Mantissa, power: Power) -> ShortNumeral
    ensures negative { result.negative ≡ negative }
    ensures whole { result.whole ≡ mantissa.whole }
    ensures fraction { result.fraction ≡ mantissa.fraction }
    ensures places { result.places ≡ mantissa.places }
    ensures exponent { result.exponent ≡ power.exponent }
    ensures by_two { result.scales_by_two ≡ power.by_two }
{
    ShortNumeral {
        negative,
        whole: mantissa.whole,
        fraction: mantissa.fraction,
        places: mantissa.places,
        exponent: power.exponent,
        scales_by_two: power.by_two,
    }
}

/// Reads a numeral of at most 16 bytes at the end of a text, with at least 16 bytes before it. `None` otherwise.
#[inline(always)]
pub(crate) fn ending_numeral(text: &[u8], from: usize, radix: Radix) -> Option<ShortNumeral>
    requires least { LANES ≤ from }
    requires late { length text.now ≤ from + LANES }
    requires place { from ≤ length text.now }
    ensures short { IfSome result
        (λ n. IsShortAt radix (drop from text.now) n.negative n.whole n.fraction n.places n.exponent n.scales_by_two) }
    ensures few { IfSome result (λ n. HasFewDigits (base radix) n.whole n.fraction n.places) }
{
    let (negative, first) = sign_at(text, from);
    let mantissa = mantissa_at(text, radix, first)?;
    let power = power_at(text, radix, mantissa.end)?;
    Some(numeral_of(negative, mantissa, power))
}
