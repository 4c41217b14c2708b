//! Counts the ulps in a numeral's magnitude.

ghost use Rattle.std.specs.Prelude.{◌≡◌, ◌+◌, ◌-◌, ◌*◌, ◌/◌, ◌%◌, ◌^◌, ◌<◌, ◌≤◌, ℕ, List};
ghost use Rattle.std.specs.Int.Digits.{AllBelowBase};
ghost use Rattle.fixed_numeral.specs.Numeral.{base};
ghost use Rattle.fixed_numeral.specs.Scanned.{exponent_unit};
ghost use Rattle.fixed_numeral.specs.Spelled.{spelled};
ghost use Rattle.fixed_numeral.specs.Place.{NoLeadingZero, NoTrailingZero};
ghost use Rattle.fixed_read.specs.Inner.Rounding.{IsFractionUlps, IsMagnitude, IsShare, IsSplitNumeral, IsSplitUlps};

use crate::decimal::decimal_ulps;
use crate::digits::{is_over, number_mod_power};
use crate::lost_fraction::{is_nothing, is_zero, lost_increment};
use crate::power_of_two_radix::bit_fraction_ulps;
use crate::shifts::{is_some, shl, split_bits};
use fixed_bits::{LostFraction, ReadMode, share_increment};
use fixed_numeral::{DigitView, Radix, Scanned};
use fixed_steps::Steps;
use std::sync::ledger::Ledger;

/// A magnitude rounded to whole ulps.
#[derive(Clone, Copy)]
pub struct Ulps {
    /// The lowest 64 bits of the number of ulps.
    pub low: u64,
    /// Whether there are more bits.
    pub has_high_bits: bool,
    /// Whether the magnitude was a whole number of ulps before rounding.
    pub is_exact: bool,
}

/// Rounds the magnitude of `count` ulps and a lost fraction.
#[inline]
pub fn rounded_ulps(count: u128, lost: LostFraction, mode: ReadMode) -> Ulps
    requires { count + 1 < 2 ^ 128 }
    ensures { (num den frac : ℕ) → 0 < den → IsSplitUlps num den frac count lost
        → IsMagnitude mode (record { num = num; den = den }) frac result }
{
    let total = count + u128::from(lost_increment(lost, (count % 2) as u64, mode));
    let (high, low) = split_bits(total, 64);
    Ulps {
        low,
        has_high_bits: is_some(high),
        is_exact: is_zero(lost),
    }
}

/// Rounds the magnitude of `count` ulps and rest / unit of one.
#[inline(always)]
pub fn rounded_share(count: u128, rest: u64, unit: u64, mode: ReadMode) -> Ulps
    requires count { count + 1 < 2 ^ 128 }
    requires small { rest < unit }
    requires most { unit < 2 ^ 63 }
    ensures { (num den frac : ℕ) → 0 < den → IsShare num den frac count rest unit
        → IsMagnitude mode (record { num = num; den = den }) frac result }
{
    let total = count + u128::from(share_increment(rest, unit, (count % 2) as u64, mode));
    let (high, low) = split_bits(total, 64);
    Ulps {
        low,
        has_high_bits: is_some(high),
        is_exact: is_nothing(rest),
    }
}

/// Rounds the magnitude of whole digits and `more` ulps of 2^-fraction_bits, for each base.
fn rounded_magnitude<'a, L: Ledger>(
    whole: &DigitView<'a>,
    base: u32,
    more: u128,
    lost: LostFraction,
    fraction_bits: u32,
    mode: ReadMode,
    steps: &mut Steps<L>,
) -> Ulps
    requires digits { AllBelowBase base whole.now }
    requires leading { NoLeadingZero whole.now }
    requires least { 2 ≤ base }
    requires most { base ≤ 16 }
    requires even { base % 2 ≡ 0 }
    requires more { more < 2 ^ fraction_bits }
    requires fraction_bits { fraction_bits ≤ 68 }
    ensures magnitude { (f : List ℕ) (frac s : ℕ) → fraction_bits ≡ frac + s
        → IsFractionUlps base f fraction_bits more lost
        → IsMagnitude mode (spelled base whole.now f s) frac result }
    ensures cost { steps.new ≤ steps.old + (64 - fraction_bits) + 15 }
{
    let (low, over) = number_mod_power(whole, base, 64_u32.saturating_sub(fraction_bits), steps);
    let sum = shl(u128::from(low), fraction_bits) + more;
    let total = sum + u128::from(lost_increment(lost, (sum % 2) as u64, mode));
    let (high, bits) = split_bits(total, 64);
    Ulps {
        low: bits,
        has_high_bits: is_over(over, high),
        is_exact: is_zero(lost),
    }
}

/// Returns the ulps of 2^-(frac + bit_shift) in 0.DIGITS, and what is lost.
#[tactic(auto, using(crate::proofs::PartLemmas::part_none))]
fn fraction_ulps<'a, L: Ledger>(
    view: &DigitView<'a>,
    radix: Radix,
    bit_shift: u32,
    frac: u32,
    steps: &mut Steps<L>,
) -> (u128, LostFraction)
    requires digits { AllBelowBase (base radix) view.now }
    requires trailing { NoTrailingZero view.now }
    requires shift { bit_shift < exponent_unit radix }
    requires frac { frac ≤ 64 }
    ensures ulps { IsFractionUlps (base radix) view.now (frac + bit_shift) result.0 result.1 }
    ensures cost { steps.new ≤ steps.old + 38 + 2 * (frac - 32) }
{
    if view.is_empty() {
        return (0, LostFraction::Zero);
    }
    match radix {
        Radix::Bin => bit_fraction_ulps(view, 1, frac + bit_shift, steps),
        Radix::Oct => bit_fraction_ulps(view, 3, frac + bit_shift, steps),
        Radix::Dec => {
            let (more, lost) = decimal_ulps(view, frac, steps);
            (u128::from(more), lost)
        }
        Radix::Hex => bit_fraction_ulps(view, 4, frac + bit_shift, steps),
    }
}

/// Returns the magnitude of a scanned numeral in ulps of 2^-frac.
pub fn magnitude<'a, L: Ledger>(
    found: &Scanned<'a>,
    radix: Radix,
    frac: u32,
    mode: ReadMode,
    steps: &mut Steps<L>,
) -> Ulps
    requires split { IsSplitNumeral radix found.now.whole found.now.fraction found.now.bit_shift }
    requires frac { frac ≤ 64 }
    ensures magnitude { IsMagnitude mode
        (spelled (base radix) found.now.whole found.now.fraction found.now.bit_shift) frac result }
    ensures cost { steps.new ≤ steps.old + 117 }
{
    let bit_shift = found.bit_shift();
    let (more, lost) = fraction_ulps(found.fraction_view(), radix, bit_shift, frac, steps);
    rounded_magnitude(
        found.whole_view(),
        radix.base(),
        more,
        lost,
        frac + bit_shift,
        mode,
        steps,
    )
}
