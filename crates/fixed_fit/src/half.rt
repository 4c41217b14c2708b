//! Compares half an ulp, the error of a range, with a bound.

ghost use Rattle.std.specs.Prelude.{◌≡◌, ◌≤◌, ◌<◌, ◌↔◌, [], IsTrue, true, false, ℕ};
ghost use Rattle.fixed_bits.specs.declared.mode.ReadMode.TheVariants.{Ceil, Floor};
ghost use Rattle.fixed_numeral.specs.Numeral.{IsNumeral};
ghost use Rattle.fixed_fit.specs.Within.{IsErrorWithin, IsHalfWithin};

use fixed_bits::{Format, ReadMode};
use fixed_error::is_error_above;
use fixed_numeral::Radix;
use fixed_read::{ReadNumber, read_format};
use fixed_steps::Steps;
use std::sync::ledger::Ledger;

/// Returns the mode that rounds a number of this sign away from zero.
fn away_from_zero(is_negative: bool) -> ReadMode
    ensures below { is_negative ≡ true → result ≡ Floor }
    ensures above { is_negative ≡ false → result ≡ Ceil }
{
    if is_negative {
        ReadMode::Floor
    } else {
        ReadMode::Ceil
    }
}

/// Whether a number that was read is zero ulps.
fn is_no_ulp(found: &ReadNumber) -> bool
    ensures { IsTrue result ↔ ((found.now.low ≡ 0) × (found.now.has_high_bits ≡ false)) }
{
    found.magnitude() == 0 && !found.has_high_bits()
}

/// Whether half an ulp of 2^-`frac` is greater than a bound, the magnitude of a numeral.
///
/// A bound between zero and an ulp is rounded away from zero to one ulp. That rounding's error is greater than the
/// bound exactly if the bound is less than half an ulp.
fn is_half_above<L: Ledger>(bound: &[u8], radix: Radix, frac: u32, steps: &mut Steps<L>) -> bool
    requires frac { frac ≤ 64 }
    requires numeral { IsNumeral radix bound.now }
    ensures above { result ≡ true → ¬ IsHalfWithin radix frac bound.now }
    ensures within { result ≡ false → IsHalfWithin radix frac bound.now }
{
    match read_format(
        bound,
        radix,
        Format::of(true, 64, frac),
        ReadMode::TowardsZero,
        steps,
    ) {
        Ok(found) => {
            if !is_no_ulp(&found) {
                return false;
            }
            if found.is_exact() {
                return true;
            }
            let mode = away_from_zero(found.is_negative());
            is_error_above(bound, bound, radix, frac, mode, steps)
        }
        Err(_) => unreachable!(),
    }
}

/// Returns the least fraction length within a bound before the first line: 0 for a list; for a range the least at which
/// half an ulp is within the bound, or 65 if no length up to 64 is.
pub fn first_length<L: Ledger>(
    bound: &[u8],
    radix: Radix,
    is_range: bool,
    steps: &mut Steps<L>,
) -> u32
    requires { IsNumeral radix bound.now }
    ensures within { result < 65 → IsErrorWithin is_range radix result bound.now [] }
    ensures least { (f : ℕ) → f < result → ¬ IsErrorWithin is_range radix f bound.now [] }
{
    if !is_range {
        return 0;
    }
    let mut least = 0;
    while least < 65 {
        if !is_half_above(bound, radix, least, steps) {
            return least;
        }
        least += 1;
    }
    least
}
