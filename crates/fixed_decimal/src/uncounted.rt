//! The reader with its own counter of steps.

ghost use Rattle.std.specs.Prelude.{◌≡◌, ◌<◌, IfOk};
ghost use Rattle.fixed_decimal.specs.Decimals.{IsDecimalReading};
ghost use Rattle.fixed_numeral.specs.Answer.{IsReadOrRefused};
ghost use Rattle.fixed_numeral.specs.declared.radix.Radix.TheVariants.{Dec};

use crate::format::DecimalFormat;
use crate::number::DecimalNumber;
use crate::reading::read_decimal_format;
use fixed_bits::ReadMode;
use fixed_numeral::ParseFixedError;
use fixed_steps::Steps;
use std::marker::Brand;
use std::sync::ledger::{Blank, Ledger};

/// `read_decimal_format` with a ledger that no other counter uses.
fn read_format_over<L: Ledger>(
    s: &[u8],
    format: DecimalFormat,
    mode: ReadMode,
    blank: Blank,
) -> Result<DecimalNumber, ParseFixedError>
    requires name { blank.name ≡ L.name }
    requires parts { blank.parts ≡ L.parts }
    requires backed { 0 < L.parts }
    ensures reading { IsReadOrRefused Dec s.now (IsDecimalReading mode) result }
    ensures format { IfOk result (λ found. found.format ≡ format) }
{
    let mut steps: Steps<L> = Steps::new(blank);
    read_decimal_format(s, format, mode, &mut steps)
}

/// `read_decimal_format` with its own counter.
///
/// # Errors
///
/// Refuses bytes that are not a numeral in radix 10 with the kind of their cause.
pub fn read_decimal_format_uncounted(
    s: &[u8],
    format: DecimalFormat,
    mode: ReadMode,
) -> Result<DecimalNumber, ParseFixedError>
    ensures reading { IsReadOrRefused Dec s.now (IsDecimalReading mode) result }
    ensures format { IfOk result (λ found. found.format ≡ format) }
{
    read_format_over::<Brand>(s, format, mode, Blank::new(1))
}
