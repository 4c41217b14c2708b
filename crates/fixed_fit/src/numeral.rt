//! Whether a numeral is below zero.
//!
//! A list is signed if one of its numerals is below zero, even if that numeral rounds to zero. `-0` is not below zero.

ghost use Rattle.std.specs.Prelude.{◌≡◌, ◌↔◌, IsTrue, true, false};
ghost use Rattle.fixed_numeral.specs.Answer.{IsReadOrRefused};
ghost use Rattle.fixed_fit.specs.Fitting.{IsBelowZero};

use fixed_bits::{Format, ReadMode};
use fixed_numeral::{ParseFixedError, Radix};
use fixed_read::{ReadNumber, read_format};
use fixed_steps::Steps;
use std::sync::ledger::Ledger;

/// Whether a numeral that was read is zero: exactly zero ulps.
fn is_zero(found: &ReadNumber) -> bool
    ensures { IsTrue result ↔ ((found.now.exact ≡ true) × (found.now.low ≡ 0)
        × (found.now.has_high_bits ≡ false)) }
{
    found.is_exact() && found.magnitude() == 0 && !found.has_high_bits()
}

/// Whether a numeral that was read is below zero.
fn is_below(found: &ReadNumber) -> bool
    ensures { IsTrue result ↔ ((found.now.negative ≡ true)
        × ¬ ((found.now.exact ≡ true) × (found.now.low ≡ 0) × (found.now.has_high_bits ≡ false))) }
{
    found.is_negative() && !is_zero(found)
}

/// Whether a numeral is below zero: it has a minus, and is not zero.
///
/// # Errors
///
/// Refuses bytes that are not a numeral of the radix with the kind of their cause.
pub fn is_below_zero<L: Ledger>(
    line: &[u8],
    radix: Radix,
    steps: &mut Steps<L>,
) -> Result<bool, ParseFixedError>
    ensures { IsReadOrRefused radix line.now (λ p below. IsTrue below ↔ IsBelowZero radix p) result }
{
    match read_format(
        line,
        radix,
        Format::of(true, 64, 0),
        ReadMode::TowardsZero,
        steps,
    ) {
        Ok(found) => Ok(is_below(&found)),
        Err(error) => Err(error),
    }
}
