//! Rows: the single call for each row, one after another.

ghost use Rattle.std.specs.Prelude.{◌≡◌, ◌≢◌, ℕ, ◌<◌, ◌≤◌, ◌+◌, ◌*◌, ◌==◌, if◌then◌else◌, pos, length, slice_index_or};
ghost use Rattle.std.specs.Prelude.{take, drop, IsTrue, ◌↔◌};
ghost use Rattle.fixed_c.specs.Numbers.{format_of};
ghost use Rattle.fixed_c.specs.Rows.{AreRows, ArePrinted, ConvertsRow, HaveBits, HaveRows, HaveTexts, PrintedEnd};
ghost use Rattle.fixed_c.specs.Inner.Asked.{ReadsAskedRow, RefusesRow};
ghost use Rattle.fixed_c.specs.Rows.{PrintsRow, PutsRow, ReadsRow, RowsEnd, before_zero, row_at};

use crate::arguments::FixedFormat;
use crate::asked::{Asked, asked_of, read_from};
use crate::exports::fixed_convert_bits_mode;
use crate::number::FixedNumber;
use crate::refusal::{OK, Refusal, hand_over};
use crate::texts::shortest_of;

/// The number written for a refused row.
pub const NO_NUMBER: FixedNumber = FixedNumber {
    bits: 0,
    overflowed: 0,
};

/// How the numerals of rows are read, in the codes of C.
#[derive(Clone, Copy)]
pub struct Reading {
    pub radix: u32,
    pub format: FixedFormat,
    pub policy: u32,
    pub mode: u32,
}

/// How the bits of rows are converted, in the codes of C.
#[derive(Clone, Copy)]
pub struct Conversion {
    pub source: FixedFormat,
    pub target: FixedFormat,
    pub policy: u32,
    pub mode: u32,
}

/// Returns the bytes before the first zero byte.
pub fn before_zero(row: &[u8]) -> &[u8]
    ensures { result.now ≡ before_zero row.now }
{
    for (k, b) in row.iter().enumerate() {
        if *b == 0 {
            return &row[..k];
        }
    }
    row
}

/// Returns the index after the text of the row that begins at `start`.
fn end_of_text(rows: &[u8], start: usize, size: usize) -> usize
    requires { start + size ≤ length rows.now }
    ensures end { result ≡ start + length (before_zero (take size (drop start rows.now))) }
    ensures within { result ≤ length rows.now }
    ensures text { drop start (take result rows.now) ≡ before_zero (take size (drop start rows.now)) }
{
    start + before_zero(&rows[start..start + size]).len()
}

/// Returns 1 if a code is not 0, else 0.
pub fn tally(code: u32) -> usize
    ensures value { result ≡ (if code == 0 then 0 else 1) }
    ensures most { result ≤ 1 }
{
    if code == OK { 0 } else { 1 }
}

/// Reads row `i` as the single call does. The text is read in place, since most rows have 16 bytes before them.
fn read_row(rows: &[u8], size: usize, i: usize, asked: &Asked) -> (FixedNumber, u32)
    requires { i * size + size ≤ length rows.now }
    ensures { ReadsAskedRow rows.now size asked.now i result.0 result.1 }
{
    let start = i * size;
    let end = end_of_text(rows, start, size);
    let mut number = NO_NUMBER;
    let code = hand_over(read_from(&rows[..end], start, asked), &mut number);
    (number, code)
}

/// Returns the bits of a row.
pub fn bits_at(bits: &[i64], i: usize) -> i64
    requires { i < length bits.now }
    ensures { result ≡ slice_index_or bits.now i (pos 0) }
{
    bits[i]
}

/// Converts the bits of row `i` by the single call.
fn convert_row(bits: &[i64], i: usize, conversion: Conversion) -> (FixedNumber, u32)
    requires { i < length bits.now }
    ensures { ConvertsRow bits.now (format_of conversion.source.is_signed conversion.source.width
        conversion.source.frac) (format_of conversion.target.is_signed conversion.target.width conversion.target.frac)
        conversion.policy conversion.mode i result.0 result.1 }
{
    let given = bits_at(bits, i);
    let mut number = NO_NUMBER;
    let code = fixed_convert_bits_mode(
        given,
        conversion.source,
        conversion.target,
        conversion.policy,
        conversion.mode,
        &mut number,
    );
    (number, code)
}

/// Whether there are equally many rows, numbers and codes.
pub fn have_rows(rows: &[u8], size: usize, out: &[FixedNumber], codes: &[u32]) -> bool
    ensures { IsTrue result ↔ HaveRows rows.now size out.now codes.now }
{
    rows.len() as u128 == size as u128 * codes.len() as u128 && out.len() == codes.len()
}

/// Whether there are equally many bits, numbers and codes.
fn have_bits(bits: &[i64], out: &[FixedNumber], codes: &[u32]) -> bool
    ensures { IsTrue result ↔ HaveBits bits.now out.now codes.now }
{
    bits.len() == codes.len() && out.len() == codes.len()
}

/// Reads each row with tested settings. Returns the number of refused rows.
fn read_asked(
    rows: &[u8],
    size: usize,
    asked: &Asked,
    out: &mut [FixedNumber],
    codes: &mut [u32],
) -> usize
    requires { HaveRows rows.now size out.old codes.old }
    ensures { AreRows (ReadsAskedRow rows.now size asked.now) out.new codes.new result }
{
    let mut refused = 0;
    for i in 0..codes.len() {
        let (number, code) = read_row(rows, size, i, asked);
        out[i] = number;
        codes[i] = code;
        refused += tally(code);
    }
    refused
}

/// Refuses each row. Returns the number of rows.
pub fn refuse_each(refusal: Refusal, out: &mut [FixedNumber], codes: &mut [u32]) -> usize
    requires { length out.old ≡ length codes.old }
    ensures { AreRows (RefusesRow refusal) out.new codes.new result }
{
    let mut refused = 0;
    for i in 0..codes.len() {
        let code = refusal.code();
        out[i] = NO_NUMBER;
        codes[i] = code;
        refused += tally(code);
    }
    refused
}

/// Reads each row. Returns the number of refused rows. The settings are tested once.
fn read_each(
    rows: &[u8],
    size: usize,
    reading: Reading,
    out: &mut [FixedNumber],
    codes: &mut [u32],
) -> usize
    requires { HaveRows rows.now size out.old codes.old }
    ensures { AreRows (ReadsRow rows.now size reading.radix (format_of reading.format.is_signed reading.format.width
        reading.format.frac) reading.policy reading.mode) out.new codes.new result }
{
    match asked_of(reading.radix, reading.format, reading.policy, reading.mode) {
        Ok(asked) => read_asked(rows, size, &asked, out, codes),
        Err(refusal) => refuse_each(refusal, out, codes),
    }
}

/// Converts the bits of each row. Returns the number of refused rows.
fn convert_each(
    bits: &[i64],
    conversion: Conversion,
    out: &mut [FixedNumber],
    codes: &mut [u32],
) -> usize
    requires { HaveBits bits.now out.old codes.old }
    ensures { AreRows (ConvertsRow bits.now (format_of conversion.source.is_signed conversion.source.width
        conversion.source.frac) (format_of conversion.target.is_signed conversion.target.width conversion.target.frac)
        conversion.policy conversion.mode) out.new codes.new result }
{
    let mut refused = 0;
    for i in 0..codes.len() {
        let (number, code) = convert_row(bits, i, conversion);
        out[i] = number;
        codes[i] = code;
        refused += tally(code);
    }
    refused
}

/// Reads rows if the lengths match.
pub fn read_rows(
    rows: &[u8],
    size: usize,
    reading: Reading,
    out: &mut [FixedNumber],
    codes: &mut [u32],
    refused: &mut usize,
) -> u32
    ensures { RowsEnd (HaveRows rows.now size out.old codes.old)
        (ReadsRow rows.now size reading.radix (format_of reading.format.is_signed reading.format.width
        reading.format.frac) reading.policy reading.mode)
        out.old out.new codes.old codes.new refused.old refused.new result }
{
    if have_rows(rows, size, out, codes) {
        *refused = read_each(rows, size, reading, out, codes);
        OK
    } else {
        Refusal::BadRows.code()
    }
}

/// Converts the bits of rows if the lengths match.
pub fn convert_rows(
    bits: &[i64],
    conversion: Conversion,
    out: &mut [FixedNumber],
    codes: &mut [u32],
    refused: &mut usize,
) -> u32
    ensures { RowsEnd (HaveBits bits.now out.old codes.old)
        (ConvertsRow bits.now (format_of conversion.source.is_signed conversion.source.width conversion.source.frac)
        (format_of conversion.target.is_signed conversion.target.width conversion.target.frac) conversion.policy
        conversion.mode)
        out.old out.new codes.old codes.new refused.old refused.new result }
{
    if have_bits(bits, out, codes) {
        *refused = convert_each(bits, conversion, out, codes);
        OK
    } else {
        Refusal::BadRows.code()
    }
}

/// Writes a text into a row, and zero bytes after it.
pub fn put_row(text: &[u8], row: &mut [u8]) -> u32
    ensures { PutsRow text.now row.old row.new result }
{
    let count = text.len();
    if count <= row.len() {
        row[..count].copy_from_slice(text);
        row[count..].fill(0);
        OK
    } else {
        Refusal::NoRoom.code()
    }
}

/// Prints bits into a row.
fn print_row(bits: i64, format: FixedFormat, row: &mut [u8]) -> u32
    ensures { PrintsRow (format_of format.is_signed format.width format.frac) bits row.old row.new result }
{
    match shortest_of(bits, format) {
        Ok(text) => put_row(text.as_bytes(), row),
        Err(refusal) => refusal.code(),
    }
}

/// Prints bits into row `i`. Every other row is unchanged.
fn print_at(bits: i64, format: FixedFormat, rows: &mut [u8], size: usize, i: usize) -> u32
    requires { i * size + size ≤ length rows.old }
    ensures printed { PrintsRow (format_of format.is_signed format.width format.frac) bits (row_at rows.old size i)
        (row_at rows.new size i) result }
    ensures others { (k : ℕ) → k ≢ i → row_at rows.new size k ≡ row_at rows.old size k }
{
    let start = i * size;
    print_row(bits, format, &mut rows[start..start + size])
}

/// Whether there are equally many bits, rows and codes.
pub fn have_texts(bits: &[i64], rows: &[u8], size: usize, codes: &[u32]) -> bool
    ensures { IsTrue result ↔ HaveTexts bits.now rows.now size codes.now }
{
    bits.len() == codes.len() && rows.len() as u128 == size as u128 * codes.len() as u128
}

/// Prints the bits of each row. Returns the number of refused rows.
fn print_each(
    bits: &[i64],
    format: FixedFormat,
    rows: &mut [u8],
    size: usize,
    codes: &mut [u32],
) -> usize
    requires { HaveTexts bits.now rows.old size codes.old }
    ensures { ArePrinted (format_of format.is_signed format.width format.frac) bits.now size rows.old rows.new codes.new
        result }
{
    let mut refused = 0;
    for i in 0..codes.len() {
        let given = bits_at(bits, i);
        let code = print_at(given, format, rows, size, i);
        codes[i] = code;
        refused += tally(code);
    }
    refused
}

/// Prints rows if the lengths match.
pub fn print_rows(
    bits: &[i64],
    format: FixedFormat,
    rows: &mut [u8],
    size: usize,
    codes: &mut [u32],
    refused: &mut usize,
) -> u32
    ensures { PrintedEnd (format_of format.is_signed format.width format.frac) bits.now size rows.old rows.new codes.old
        codes.new refused.old refused.new result }
{
    if have_texts(bits, rows, size, codes) {
        *refused = print_each(bits, format, rows, size, codes);
        OK
    } else {
        Refusal::BadRows.code()
    }
}
