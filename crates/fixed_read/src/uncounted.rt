//! Readers with their own counters of steps.

ghost use Rattle.std.specs.Prelude.{◌≡◌, ◌<◌, ◌↔◌, IsOk, IfOk, IfErr};
ghost use Rattle.fixed_bits.specs.declared.mode.ReadMode.TheVariants.{NearestEven};
ghost use Rattle.fixed_numeral.specs.Answer.{IsReadOrRefused};
ghost use Rattle.fixed_numeral.specs.Literal.{HasLiteral, HasLiteralCause, IsLiteral, literal_radix};
ghost use Rattle.fixed_numeral.specs.Numeral.{Parts};
ghost use Rattle.fixed_read.specs.Reading.{IsReading};

use crate::read_number::{ReadNumber, read_format, read_literal_counted};
use fixed_bits::{Format, ReadMode};
use fixed_numeral::{ParseFixedError, Radix};
use fixed_steps::Steps;
use std::marker::Brand;
use std::sync::ledger::{Blank, Ledger};

/// `read_format` over a ledger that no other counter uses.
fn read_over<L: Ledger>(
    s: &[u8],
    radix: Radix,
    format: Format,
    mode: ReadMode,
    blank: Blank,
) -> Result<ReadNumber, ParseFixedError>
    requires name { blank.name ≡ L.name }
    requires parts { blank.parts ≡ L.parts }
    requires backed { 0 < L.parts }
    ensures reading { IsReadOrRefused radix s.now (IsReading mode radix) result }
    ensures format { IfOk result (λ found. found.format ≡ format) }
{
    let mut steps: Steps<L> = Steps::new(blank);
    read_format(s, radix, format, mode, &mut steps)
}

/// `read_format` with its own counter.
pub fn read_uncounted(
    s: &[u8],
    radix: Radix,
    format: Format,
    mode: ReadMode,
) -> Result<ReadNumber, ParseFixedError>
    ensures reading { IsReadOrRefused radix s.now (IsReading mode radix) result }
    ensures format { IfOk result (λ found. found.format ≡ format) }
{
    read_over::<Brand>(s, radix, format, mode, Blank::new(1))
}

/// `read_literal` over a ledger that no other counter uses.
fn read_literal_over<L: Ledger>(
    s: &[u8],
    format: Format,
    blank: Blank,
) -> Result<ReadNumber, ParseFixedError>
    requires name { blank.name ≡ L.name }
    requires parts { blank.parts ≡ L.parts }
    requires backed { 0 < L.parts }
    ensures literal { IsOk result ↔ IsLiteral format.signed s.now }
    ensures cause { IfErr result (λ kind. HasLiteralCause format.signed s.now kind) }
    ensures reading { IfOk result (λ found. (p : Parts) → HasLiteral format.signed s.now p
        → IsReading NearestEven (literal_radix format.signed s.now) p found) }
    ensures format { IfOk result (λ found. found.format ≡ format) }
{
    let mut steps: Steps<L> = Steps::new(blank);
    read_literal_counted(s, format, &mut steps)
}

/// Reads a literal into a format, rounded to the nearest ulp, ties to even.
///
/// One minus may come first for a signed format. A prefix `0b`, `0o` or `0x` names the radix, which is 10 without one.
/// Underscores may follow a prefix and a digit of their part.
///
/// # Errors
///
/// Refuses bytes that are not a literal with the kind of their cause.
pub fn read_literal(s: &[u8], format: Format) -> Result<ReadNumber, ParseFixedError>
    ensures literal { IsOk result ↔ IsLiteral format.signed s.now }
    ensures cause { IfErr result (λ kind. HasLiteralCause format.signed s.now kind) }
    ensures reading { IfOk result (λ found. (p : Parts) → HasLiteral format.signed s.now p
        → IsReading NearestEven (literal_radix format.signed s.now) p found) }
    ensures format { IfOk result (λ found. found.format ≡ format) }
{
    read_literal_over::<Brand>(s, format, Blank::new(1))
}
