//! Rows of floats, read as the single calls read them, and the doubles of rows of bits.

ghost use Rattle.std.specs.Prelude.{◌↔◌, ◌<◌, ℕ, IsTrue, length};
ghost use Rattle.fixed_c.specs.Floats.{DoubleRow, HaveDoubles, HaveFloats, ReadsFloatRow};
ghost use Rattle.fixed_c.specs.Inner.Floats.{ReadsFloatAsked};
ghost use Rattle.fixed_c.specs.Items.{AreItems, ItemsEnd};
ghost use Rattle.fixed_c.specs.Numbers.{format_of};
ghost use Rattle.fixed_c.specs.Rows.{AreRows, RowsEnd};
ghost use Rattle.fixed_float.specs.Kept.{IsGreatestKept};
ghost use Rattle.fixed_float.specs.declared.layout.FloatLayout.TheVariants.{Binary32, Binary64};

use crate::arguments::FixedFormat;
use crate::exports::fixed_double_of_bits;
use crate::floats::{FloatAsked, float_asked_of, read_double, read_float};
use crate::kept_range::{in_range, kept_bits};
use crate::number::FixedNumber;
use crate::refusal::{OK, Refusal, hand_over};
use crate::rows::{NO_NUMBER, bits_at, refuse_each, tally};
use fixed_float::{greatest_kept, short_binary32, short_binary64};

/// How the floats of rows are read, in the codes of C.
#[derive(Clone, Copy)]
pub struct FloatReading {
    pub format: FixedFormat,
    pub policy: u32,
    pub mode: u32,
}

/// Reads double `i` as the single call does. Most are short and in range.
#[inline(always)]
fn double_row(floats: &[u64], i: usize, asked: &FloatAsked, greatest: u64) -> (FixedNumber, u32)
    requires index { i < length floats.now }
    requires greatest { IsGreatestKept asked.now.format greatest }
    ensures { ReadsFloatAsked Binary64 floats.now asked.now i result.0 result.1 }
{
    let short = short_binary64(floats[i], asked.format, asked.mode);
    if let Some(bits) = kept_bits(short, asked.format, greatest) {
        return (in_range(bits), OK);
    }
    let mut number = NO_NUMBER;
    let code = hand_over(read_double(floats[i], asked), &mut number);
    (number, code)
}

/// Whether there are equally many doubles, numbers and codes.
fn have_doubles(floats: &[u64], out: &[FixedNumber], codes: &[u32]) -> bool
    ensures { IsTrue result ↔ HaveFloats floats.now out.now codes.now }
{
    floats.len() == codes.len() && out.len() == codes.len()
}

/// Reads each double with tested settings. Returns the number of refused doubles.
fn asked_doubles(
    floats: &[u64],
    asked: &FloatAsked,
    out: &mut [FixedNumber],
    codes: &mut [u32],
) -> usize
    requires { HaveFloats floats.now out.old codes.old }
    ensures { AreRows (ReadsFloatAsked Binary64 floats.now asked.now) out.new codes.new result }
{
    let greatest = greatest_kept(asked.format);
    let mut refused = 0;
    for i in 0..codes.len() {
        let (number, code) = double_row(floats, i, asked, greatest);
        out[i] = number;
        codes[i] = code;
        refused += tally(code);
    }
    refused
}

/// Reads each double. Returns the number of refused doubles. The settings are tested once.
fn each_double(
    floats: &[u64],
    reading: FloatReading,
    out: &mut [FixedNumber],
    codes: &mut [u32],
) -> usize
    requires { HaveFloats floats.now out.old codes.old }
    ensures { AreRows (ReadsFloatRow Binary64 floats.now (format_of reading.format.is_signed reading.format.width
        reading.format.frac) reading.policy reading.mode) out.new codes.new result }
{
    match float_asked_of(reading.format, reading.policy, reading.mode) {
        Ok(asked) => asked_doubles(floats, &asked, out, codes),
        Err(refusal) => refuse_each(refusal, out, codes),
    }
}

/// Reads doubles if the lengths match.
pub fn read_doubles(
    floats: &[u64],
    reading: FloatReading,
    out: &mut [FixedNumber],
    codes: &mut [u32],
    refused: &mut usize,
) -> u32
    ensures { RowsEnd (HaveFloats floats.now out.old codes.old)
        (ReadsFloatRow Binary64 floats.now (format_of reading.format.is_signed reading.format.width
        reading.format.frac) reading.policy reading.mode)
        out.old out.new codes.old codes.new refused.old refused.new result }
{
    if have_doubles(floats, out, codes) {
        *refused = each_double(floats, reading, out, codes);
        OK
    } else {
        Refusal::BadRows.code()
    }
}

/// Reads single-precision float `i` as the single call does. Most are short and in range.
#[inline(always)]
fn float_row(floats: &[u32], i: usize, asked: &FloatAsked, greatest: u64) -> (FixedNumber, u32)
    requires index { i < length floats.now }
    requires greatest { IsGreatestKept asked.now.format greatest }
    ensures { ReadsFloatAsked Binary32 floats.now asked.now i result.0 result.1 }
{
    let short = short_binary32(floats[i], asked.format, asked.mode);
    if let Some(bits) = kept_bits(short, asked.format, greatest) {
        return (in_range(bits), OK);
    }
    let mut number = NO_NUMBER;
    let code = hand_over(read_float(floats[i], asked), &mut number);
    (number, code)
}

/// Whether there are equally many floats, numbers and codes.
fn have_floats(floats: &[u32], out: &[FixedNumber], codes: &[u32]) -> bool
    ensures { IsTrue result ↔ HaveFloats floats.now out.now codes.now }
{
    floats.len() == codes.len() && out.len() == codes.len()
}

/// Reads each float with tested settings. Returns the number of refused floats.
fn asked_floats(
    floats: &[u32],
    asked: &FloatAsked,
    out: &mut [FixedNumber],
    codes: &mut [u32],
) -> usize
    requires { HaveFloats floats.now out.old codes.old }
    ensures { AreRows (ReadsFloatAsked Binary32 floats.now asked.now) out.new codes.new result }
{
    let greatest = greatest_kept(asked.format);
    let mut refused = 0;
    for i in 0..codes.len() {
        let (number, code) = float_row(floats, i, asked, greatest);
        out[i] = number;
        codes[i] = code;
        refused += tally(code);
    }
    refused
}

/// Reads each float. Returns the number of refused floats. The settings are tested once.
fn each_float(
    floats: &[u32],
    reading: FloatReading,
    out: &mut [FixedNumber],
    codes: &mut [u32],
) -> usize
    requires { HaveFloats floats.now out.old codes.old }
    ensures { AreRows (ReadsFloatRow Binary32 floats.now (format_of reading.format.is_signed reading.format.width
        reading.format.frac) reading.policy reading.mode) out.new codes.new result }
{
    match float_asked_of(reading.format, reading.policy, reading.mode) {
        Ok(asked) => asked_floats(floats, &asked, out, codes),
        Err(refusal) => refuse_each(refusal, out, codes),
    }
}

/// Reads floats if the lengths match.
pub fn read_floats(
    floats: &[u32],
    reading: FloatReading,
    out: &mut [FixedNumber],
    codes: &mut [u32],
    refused: &mut usize,
) -> u32
    ensures { RowsEnd (HaveFloats floats.now out.old codes.old)
        (ReadsFloatRow Binary32 floats.now (format_of reading.format.is_signed reading.format.width
        reading.format.frac) reading.policy reading.mode)
        out.old out.new codes.old codes.new refused.old refused.new result }
{
    if have_floats(floats, out, codes) {
        *refused = each_float(floats, reading, out, codes);
        OK
    } else {
        Refusal::BadRows.code()
    }
}

/// Returns the double of a row's bits and the code, by the single call.
fn double_of_row(bits: &[i64], i: usize, format: FixedFormat) -> (u64, u32)
    requires { i < length bits.now }
    ensures { DoubleRow bits.now (format_of format.is_signed format.width format.frac) i result.0 result.1 }
{
    let given = bits_at(bits, i);
    let mut double = 0;
    let code = fixed_double_of_bits(given, format, &mut double);
    (double, code)
}

/// Whether there are equally many bits, doubles and codes.
fn have_room(bits: &[i64], out: &[u64], codes: &[u32]) -> bool
    ensures { IsTrue result ↔ HaveDoubles bits.now out.now codes.now }
{
    bits.len() == codes.len() && out.len() == codes.len()
}

/// Writes the double of each row's bits. Returns the number of refused rows.
fn each_double_of(bits: &[i64], format: FixedFormat, out: &mut [u64], codes: &mut [u32]) -> usize
    requires { HaveDoubles bits.now out.old codes.old }
    ensures { AreItems ℕ (DoubleRow bits.now (format_of format.is_signed format.width format.frac)) out.new codes.new
        result }
{
    let mut refused = 0;
    for i in 0..codes.len() {
        let (double, code) = double_of_row(bits, i, format);
        out[i] = double;
        codes[i] = code;
        refused += tally(code);
    }
    refused
}

/// Writes the doubles of bits if the lengths match.
pub fn doubles_of(
    bits: &[i64],
    format: FixedFormat,
    out: &mut [u64],
    codes: &mut [u32],
    refused: &mut usize,
) -> u32
    ensures { ItemsEnd ℕ (HaveDoubles bits.now out.old codes.old)
        (DoubleRow bits.now (format_of format.is_signed format.width format.frac))
        out.old out.new codes.old codes.new refused.old refused.new result }
{
    if have_room(bits, out, codes) {
        *refused = each_double_of(bits, format, out, codes);
        OK
    } else {
        Refusal::BadRows.code()
    }
}
