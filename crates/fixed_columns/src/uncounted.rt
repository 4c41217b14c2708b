//! Reads numerals with its own counter: a column is an answer to a whole input, and no clause bounds its steps.

ghost use Rattle.std.specs.Prelude.{◌≡◌, ◌<◌, IfOk};
ghost use Rattle.fixed_bits.specs.declared.mode.ReadMode.TheVariants.{NearestEven};
ghost use Rattle.fixed_numeral.specs.Answer.{IsReadOrRefused};
ghost use Rattle.fixed_numeral.specs.declared.radix.Radix.TheVariants.{Dec};
ghost use Rattle.fixed_read.specs.Reading.{IsReading};

use fixed_bits::Format;
use fixed_numeral::{ParseFixedError, Radix};
use fixed_read::{ReadMode, ReadNumber, read_format};
use fixed_steps::Steps;
use std::marker::Brand;
use std::sync::ledger::{Blank, Ledger};

/// Reads a decimal numeral to the nearest ulp, ties to even, over a ledger that no other counter uses.
fn read_decimal_over<L: Ledger>(
    numeral: &[u8],
    format: Format,
    blank: Blank,
) -> Result<ReadNumber, ParseFixedError>
    requires name { blank.name ≡ L.name }
    requires parts { blank.parts ≡ L.parts }
    requires backed { 0 < L.parts }
    ensures reading { IsReadOrRefused Dec numeral.now (IsReading NearestEven Dec) result }
    ensures format { IfOk result (λ found. found.format ≡ format) }
{
    let mut steps: Steps<L> = Steps::new(blank);
    read_format(
        numeral,
        Radix::Dec,
        format,
        ReadMode::NearestEven,
        &mut steps,
    )
}

/// Reads a decimal numeral to the nearest ulp, ties to even.
pub(crate) fn read_decimal_uncounted(
    numeral: &[u8],
    format: Format,
) -> Result<ReadNumber, ParseFixedError>
    ensures reading { IsReadOrRefused Dec numeral.now (IsReading NearestEven Dec) result }
    ensures format { IfOk result (λ found. found.format ≡ format) }
{
    read_decimal_over::<Brand>(numeral, format, Blank::new(1))
}
