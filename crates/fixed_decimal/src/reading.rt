//! Reading decimal numerals into decimal formats.
//!
//! A short numeral without an exponent is read from the numbers of its parts. Any other is scanned, and its digits are
//! read.

ghost use Rattle.std.specs.Prelude.{◌≡◌, ◌+◌, ◌*◌, ◌^◌, ◌<◌, ◌≤◌, IfOk, IfSome, length};
ghost use Rattle.fixed_bits.specs.Rounded.{magnitude_mode};
ghost use Rattle.fixed_bits.specs.declared.mode.ReadMode.{ReadMode};
ghost use Rattle.fixed_decimal.specs.Decimals.{IsDecimalReading};
ghost use Rattle.fixed_decimal.specs.Inner.Units.{AreUnits, IsSplitDecimal};
ghost use Rattle.fixed_numeral.specs.Answer.{IsReadOrRefused};
ghost use Rattle.fixed_numeral.specs.Numeral.{Parts, HasNumeral, IsNumeral, is_minus};
ghost use Rattle.fixed_numeral.specs.PartNumbers.{IsShortNumeral};
ghost use Rattle.fixed_numeral.specs.Scanned.{IsScanned};
ghost use Rattle.fixed_numeral.specs.Value.{magnitude};
ghost use Rattle.fixed_numeral.specs.declared.radix.Radix.TheVariants.{Dec};

use crate::count::Units;
use crate::format::DecimalFormat;
use crate::number::DecimalNumber;
use crate::units::{count_of_digits, count_of_few_places, rounded};
use fixed_bits::{Number, ReadMode, magnitude_mode_of};
use fixed_numeral::{ParseFixedError, Radix, Scanned, ShortNumeral, scan, short_decimal};
use fixed_steps::Steps;
use std::sync::ledger::Ledger;

/// Returns a magnitude in units as a number of the format.
#[inline(always)]
fn number_from(format: DecimalFormat, negative: bool, units: Units) -> DecimalNumber
    ensures reading { (mode : ReadMode) (p : Parts) → negative ≡ is_minus p.sign
        → AreUnits (magnitude_mode mode negative) (magnitude Dec p) format units → IsDecimalReading mode p result }
    ensures format { result.format ≡ format }
{
    let number = Number {
        low: units.low,
        negative,
        has_high_bits: units.has_high_bits,
    };
    DecimalNumber::new(number, format, units.is_exact)
}

/// Returns the number that a short numeral reads as. `None`: its digits must be read.
#[inline(always)]
fn number_of_short(
    found: ShortNumeral,
    format: DecimalFormat,
    mode: ReadMode,
) -> Option<DecimalNumber>
    requires { found.fraction < 10 ^ found.places }
    ensures reading { IfSome result (λ n. (p : Parts)
        → IsShortNumeral Dec p found.negative found.whole found.fraction found.places found.exponent
        found.scales_by_two → IsDecimalReading mode p n) }
    ensures format { IfSome result (λ n. n.format ≡ format) }
{
    if found.exponent != 0 {
        return None;
    }
    if found.places > 18 {
        return None;
    }
    let fraction = found.fraction as u64;
    let count = count_of_few_places(found.whole, fraction, found.places, format.places());
    let units = rounded(count, magnitude_mode_of(mode, found.negative));
    Some(number_from(format, found.negative, units))
}

/// Reads a short numeral. `None` only means that another way must be tried.
#[inline(always)]
fn read_short<L: Ledger>(
    s: &[u8],
    format: DecimalFormat,
    mode: ReadMode,
    steps: &mut Steps<L>,
) -> Option<DecimalNumber>
    ensures numeral { IfSome result (λ found. IsNumeral Dec s.now) }
    ensures reading { IfSome result (λ found. (p : Parts) → HasNumeral Dec s.now p → IsDecimalReading mode p found) }
    ensures format { IfSome result (λ found. found.format ≡ format) }
    ensures cost { steps.new ≤ steps.old + length s.now }
{
    let found = short_decimal(s, steps)?;
    number_of_short(found, format, mode)
}

/// Returns the number that a scanned numeral reads as.
fn number_of<'a, L: Ledger>(
    found: &Scanned<'a>,
    format: DecimalFormat,
    mode: ReadMode,
    steps: &mut Steps<L>,
) -> DecimalNumber
    requires split { IsSplitDecimal found.now.whole found.now.fraction }
    ensures reading { (p : Parts) → IsScanned Dec p found.now.neg found.now.whole found.now.fraction
        found.now.bit_shift → IsDecimalReading mode p result }
    ensures format { result.format ≡ format }
    ensures cost { steps.new ≤ steps.old + 83 }
{
    let negative = found.neg();
    let count = count_of_digits(
        found.whole_view(),
        found.fraction_view(),
        format.places(),
        steps,
    );
    let units = rounded(count, magnitude_mode_of(mode, negative));
    number_from(format, negative, units)
}

/// Reads any numeral, by its digits.
#[inline(never)]
fn read_scanned<L: Ledger>(
    s: &[u8],
    format: DecimalFormat,
    mode: ReadMode,
    steps: &mut Steps<L>,
) -> Result<DecimalNumber, ParseFixedError>
    ensures reading { IsReadOrRefused Dec s.now (IsDecimalReading mode) result }
    ensures format { IfOk result (λ found. found.format ≡ format) }
    ensures cost { steps.new ≤ steps.old + 2 * length s.now + 85 }
{
    // Matched by reference: moving the views out would copy them.
    let scanned = scan(s, Radix::Dec, steps);
    match &scanned {
        Ok(found) => Ok(number_of(found, format, mode, steps)),
        Err(error) => Err(*error),
    }
}

/// Reads a decimal numeral into a decimal format in a mode. Returns the numeral's magnitude in units of the format,
/// rounded in the mode, with the numeral's sign. It takes at most eight steps for each byte, and 128.
///
/// # Errors
///
/// Refuses bytes that are not a numeral in radix 10 with the kind of their cause.
#[inline]
pub fn read_decimal_format<L: Ledger>(
    s: &[u8],
    format: DecimalFormat,
    mode: ReadMode,
    steps: &mut Steps<L>,
) -> Result<DecimalNumber, ParseFixedError>
    ensures reading { IsReadOrRefused Dec s.now (IsDecimalReading mode) result }
    ensures format { IfOk result (λ found. found.format ≡ format) }
    ensures cost { steps.new ≤ steps.old + 8 * length s.now + 128 }
{
    if let Some(found) = read_short(s, format, mode, steps) {
        return Ok(found);
    }
    read_scanned(s, format, mode, steps)
}
