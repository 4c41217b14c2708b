//! Rows of decimals, read as the single call reads them, and rows of texts of decimal numbers.

ghost use Rattle.std.specs.Prelude.{◌≡◌, ◌≢◌, ◌≤◌, ◌+◌, ◌*◌, ℕ, length};
ghost use Rattle.fixed_c.specs.DecimalRows.{AreDecimals, DecimalsEnd};
ghost use Rattle.fixed_c.specs.Decimals.{NamesDecimal, PrintsDecimal, ReadsDecimalRow};
ghost use Rattle.fixed_c.specs.Inner.Decimals.{ReadsDecimalAsked};
ghost use Rattle.fixed_c.specs.Rows.{AreRows, HaveRows, HaveTexts, RowsEnd, row_at};

use crate::decimals::{DecimalAsked, decimal_asked_of, decimal_text_of, read_decimal};
use crate::number::FixedNumber;
use crate::refusal::{OK, Refusal, hand_over};
use crate::rows::{
    NO_NUMBER, before_zero, bits_at, have_rows, have_texts, put_row, refuse_each, tally,
};

/// How the decimals of rows are read, in the codes of C.
#[derive(Clone, Copy)]
pub struct DecimalReading {
    pub places: u32,
    pub policy: u32,
    pub mode: u32,
}

/// Reads the text of row `i` as the single call does.
fn decimal_row(rows: &[u8], size: usize, i: usize, asked: &DecimalAsked) -> (FixedNumber, u32)
    requires row { i * size + size ≤ length rows.now }
    requires format { NamesDecimal asked.now.format }
    ensures { ReadsDecimalAsked rows.now size asked.now i result.0 result.1 }
{
    let start = i * size;
    let text = before_zero(&rows[start..start + size]);
    let mut number = NO_NUMBER;
    let code = hand_over(read_decimal(text, asked), &mut number);
    (number, code)
}

/// Reads each row with tested settings. Returns the number of refused rows.
fn asked_decimals(
    rows: &[u8],
    size: usize,
    asked: &DecimalAsked,
    out: &mut [FixedNumber],
    codes: &mut [u32],
) -> usize
    requires rows { HaveRows rows.now size out.old codes.old }
    requires format { NamesDecimal asked.now.format }
    ensures { AreRows (ReadsDecimalAsked rows.now size asked.now) out.new codes.new result }
{
    let mut refused = 0;
    for i in 0..codes.len() {
        let (number, code) = decimal_row(rows, size, i, asked);
        out[i] = number;
        codes[i] = code;
        refused += tally(code);
    }
    refused
}

/// Reads each row. Returns the number of refused rows. The settings are tested once.
fn each_decimal(
    rows: &[u8],
    size: usize,
    reading: DecimalReading,
    out: &mut [FixedNumber],
    codes: &mut [u32],
) -> usize
    requires { HaveRows rows.now size out.old codes.old }
    ensures { AreRows (ReadsDecimalRow rows.now size reading.places reading.policy reading.mode) out.new codes.new
        result }
{
    match decimal_asked_of(reading.places, reading.policy, reading.mode) {
        Ok(asked) => asked_decimals(rows, size, &asked, out, codes),
        Err(refusal) => refuse_each(refusal, out, codes),
    }
}

/// Reads rows if the lengths match.
pub fn read_decimal_rows(
    rows: &[u8],
    size: usize,
    reading: DecimalReading,
    out: &mut [FixedNumber],
    codes: &mut [u32],
    refused: &mut usize,
) -> u32
    ensures { RowsEnd (HaveRows rows.now size out.old codes.old)
        (ReadsDecimalRow rows.now size reading.places reading.policy reading.mode)
        out.old out.new codes.old codes.new refused.old refused.new result }
{
    if have_rows(rows, size, out, codes) {
        *refused = each_decimal(rows, size, reading, out, codes);
        OK
    } else {
        Refusal::BadRows.code()
    }
}

/// Prints bits into a row.
fn print_row(bits: i64, places: u32, row: &mut [u8]) -> u32
    ensures { PrintsDecimal places bits row.old row.new result }
{
    match decimal_text_of(bits, places) {
        Ok(text) => put_row(text.as_bytes(), row),
        Err(refusal) => refusal.code(),
    }
}

/// Prints bits into row `i`. Every other row is unchanged.
fn print_at(bits: i64, places: u32, rows: &mut [u8], size: usize, i: usize) -> u32
    requires { i * size + size ≤ length rows.old }
    ensures printed { PrintsDecimal places bits (row_at rows.old size i) (row_at rows.new size i) result }
    ensures others { (k : ℕ) → k ≢ i → row_at rows.new size k ≡ row_at rows.old size k }
{
    let start = i * size;
    print_row(bits, places, &mut rows[start..start + size])
}

/// Prints the bits of each row. Returns the number of refused rows.
fn print_each(bits: &[i64], places: u32, rows: &mut [u8], size: usize, codes: &mut [u32]) -> usize
    requires { HaveTexts bits.now rows.old size codes.old }
    ensures { AreDecimals places bits.now size rows.old rows.new codes.new result }
{
    let mut refused = 0;
    for i in 0..codes.len() {
        let given = bits_at(bits, i);
        let code = print_at(given, places, rows, size, i);
        codes[i] = code;
        refused += tally(code);
    }
    refused
}

/// Prints the bits of rows if the lengths match.
pub fn print_decimal_rows(
    bits: &[i64],
    places: u32,
    rows: &mut [u8],
    size: usize,
    codes: &mut [u32],
    refused: &mut usize,
) -> u32
    ensures { DecimalsEnd places bits.now size rows.old rows.new codes.old codes.new refused.old refused.new result }
{
    if have_texts(bits, rows, size, codes) {
        *refused = print_each(bits, places, rows, size, codes);
        OK
    } else {
        Refusal::BadRows.code()
    }
}
