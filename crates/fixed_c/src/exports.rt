//! The functions that C calls.

ghost use Rattle.std.specs.Prelude.{◌≡◌, ◌<◌, ℕ, ℤ, to_bits};
ghost use Rattle.fixed_c.specs.Answer.{IsAnswered};
ghost use Rattle.fixed_bits.specs.declared.mode.ReadMode.TheVariants.{NearestEven};
ghost use Rattle.fixed_c.specs.Arguments.{Names};
ghost use Rattle.fixed_c.specs.Codes.{IsMessage, mode_code};
ghost use Rattle.fixed_c.specs.Convert.{CompareIsRefused, ConvertInIsRefused, ConvertIsRefused, IsCompared};
ghost use Rattle.fixed_c.specs.Convert.{IsConverted, IsConvertedIn, IsPrinted, IsPrintedTo, PlacesIsRefused};
ghost use Rattle.fixed_c.specs.Convert.{PrintIsRefused};
ghost use Rattle.fixed_c.specs.DecimalRows.{DecimalsEnd};
ghost use Rattle.fixed_c.specs.Decimals.{DecimalIsRefused, DecimalTextIsRefused, IsDecimalPrinted, IsDecimalRead};
ghost use Rattle.fixed_c.specs.Decimals.{ReadsDecimalRow};
ghost use Rattle.fixed_c.specs.Enclose.{EncloseIsRefused, IsEnclosedBy};
ghost use Rattle.fixed_c.specs.Floats.{DoubleRow, FloatIsRefused, HaveDoubles, HaveFloats, IsDoubleOf, IsFloatRead};
ghost use Rattle.fixed_c.specs.Floats.{NamesBoth, ReadsFloatRow};
ghost use Rattle.fixed_c.specs.Items.{ComparesRow, HavePairs, ItemsEnd, PlacesEnd};
ghost use Rattle.fixed_c.specs.Literal.{IsLiteralReadAs, LiteralIsRefused};
ghost use Rattle.fixed_c.specs.Numbers.{format_of};
ghost use Rattle.fixed_c.specs.Outcome.{EndsWith, Never};
ghost use Rattle.fixed_c.specs.Read.{IsReadAs, ReadIsRefused};
ghost use Rattle.fixed_c.specs.Respell.{IsReachedAs, RespellIsRefused};
ghost use Rattle.fixed_c.specs.Round.{IsRoundedTo, RoundIsRefused};
ghost use Rattle.fixed_c.specs.Scan.{IsLeadingIn, ScanIsRefused};
ghost use Rattle.fixed_c.specs.Style.{IsPrintedIn, StyledIsRefused};
ghost use Rattle.fixed_c.specs.Rows.{ConvertsRow, HaveBits, HaveRows, PrintedEnd, ReadsRow, RowsEnd};
ghost use Rattle.fixed_c.specs.Texts.{TextEnds};
ghost use Rattle.fixed_c.specs.Words.{FormatIsRefused, IsFormatNamed, IsFormatText, WordIsRefused};
ghost use Rattle.fixed_float.specs.declared.layout.FloatLayout.TheVariants.{Binary32, Binary64};
ghost use Rattle.std.specs.Float.{binary64};

use crate::arguments::{FixedFormat, NEAREST_EVEN, given_text};
use crate::decimal_rows::{DecimalReading, print_decimal_rows, read_decimal_rows};
use crate::decimals::{decimal_read, print_decimal};
use crate::float_rows::{FloatReading, doubles_of, read_doubles, read_floats};
use crate::floats::{double_of, double_read};
use crate::number::{FixedEnclosure, FixedNumber};
use crate::numbers::{convert, convert_in, ends_around, literal, order_by_value, read, respelled};
use crate::order_rows::compare_rows;
use crate::place_rows::{PlacesPrinting, print_places_rows};
use crate::refusal::{hand_over, message_of};
use crate::rounding::round;
use crate::rows::{Conversion, Reading, convert_rows, print_rows, read_rows};
use crate::scanning::leading;
use crate::style::{FixedStyle, print_styled};
use crate::texts::{answer_line, print_bits, print_places, put_text};
use crate::words::{named_format, put_word};
use std::num::f64_to_bits_with_nan;

/// Reads a numeral in radix 2, 8, 10 or 16 as a number of a format: `fixed_read_text` of the header.
#[unsafe(no_mangle)]
pub extern "C" fn fixed_read_text(
    text: &[u8],
    radix: u32,
    format: FixedFormat,
    policy: u32,
    mode: u32,
    out: &mut FixedNumber,
) -> u32
    ensures { EndsWith
        (λ n. Names radix policy mode (IsReadAs text.now (format_of format.is_signed format.width format.frac) n.bits
        n.overflowed))
        (ReadIsRefused text.now radix (format_of format.is_signed format.width format.frac) policy mode) out.old out.new
        result }
{
    hand_over(read(given_text(text), radix, format, policy, mode), out)
}

/// Prints the shortest decimal that reads back as the bits: `fixed_print_bits` of the header.
#[unsafe(no_mangle)]
pub extern "C" fn fixed_print_bits(
    bits: i64,
    format: FixedFormat,
    out: &mut [u8],
    len: &mut usize,
) -> u32
    ensures { TextEnds
        (IsPrinted (format_of format.is_signed format.width format.frac) bits)
        (PrintIsRefused (format_of format.is_signed format.width format.frac) bits) out.old out.new len.old len.new
        result }
{
    print_bits(bits, format, out, len)
}

/// Converts bits to another format, rounding down: `fixed_convert_bits` of the header.
#[unsafe(no_mangle)]
pub extern "C" fn fixed_convert_bits(
    bits: i64,
    source: FixedFormat,
    target: FixedFormat,
    policy: u32,
    out: &mut FixedNumber,
) -> u32
    ensures { EndsWith
        (λ n. IsConverted (format_of source.is_signed source.width source.frac)
        (format_of target.is_signed target.width target.frac) policy bits n.bits n.overflowed)
        (ConvertIsRefused (format_of source.is_signed source.width source.frac)
        (format_of target.is_signed target.width target.frac) policy bits) out.old out.new result }
{
    hand_over(convert(bits, source, target, policy), out)
}

/// Reads a text into one format and rounds it down to another: `fixed_respell_text` of the header.
#[unsafe(no_mangle)]
pub extern "C" fn fixed_respell_text(
    text: &[u8],
    radix: u32,
    source: FixedFormat,
    target: FixedFormat,
    policy: u32,
    mode: u32,
    out: &mut FixedNumber,
) -> u32
    ensures { EndsWith
        (λ n. Names radix policy mode (IsReachedAs text.now (format_of source.is_signed source.width source.frac)
        (format_of target.is_signed target.width target.frac) n.bits n.overflowed))
        (RespellIsRefused text.now radix (format_of source.is_signed source.width source.frac)
        (format_of target.is_signed target.width target.frac) policy mode) out.old out.new result }
{
    hand_over(
        respelled(given_text(text), radix, source, target, policy, mode),
        out,
    )
}

/// Compares the values of bits of two formats: `fixed_compare_bits` of the header.
#[unsafe(no_mangle)]
pub extern "C" fn fixed_compare_bits(
    a: i64,
    a_format: FixedFormat,
    b: i64,
    b_format: FixedFormat,
    order: &mut i32,
) -> u32
    ensures { EndsWith
        (IsCompared (format_of a_format.is_signed a_format.width a_format.frac)
        (format_of b_format.is_signed b_format.width b_format.frac) a b)
        (CompareIsRefused (format_of a_format.is_signed a_format.width a_format.frac)
        (format_of b_format.is_signed b_format.width b_format.frac) a b) order.old order.new result }
{
    hand_over(order_by_value(a, a_format, b, b_format), order)
}

/// Finds the two numbers of a format that enclose the value of a text: `fixed_enclose_text` of the header.
#[unsafe(no_mangle)]
pub extern "C" fn fixed_enclose_text(
    text: &[u8],
    radix: u32,
    format: FixedFormat,
    out: &mut FixedEnclosure,
) -> u32
    ensures { EndsWith
        (λ ends. IsEnclosedBy text.now radix (format_of format.is_signed format.width format.frac) ends.lo ends.hi)
        (EncloseIsRefused text.now radix (format_of format.is_signed format.width format.frac)) out.old out.new result }
{
    hand_over(ends_around(given_text(text), radix, format), out)
}

/// Answers a line: `fixed_answer_line` of the header.
#[unsafe(no_mangle)]
pub extern "C" fn fixed_answer_line(
    line: &[u8],
    out: &mut [u8],
    len: &mut usize,
    is_fault: &mut u32,
) -> u32
    ensures { IsAnswered line.now out.old out.new len.new is_fault.new result }
{
    answer_line(given_text(line), out, len, is_fault)
}

/// Writes the message of a code: `fixed_message` of the header.
#[unsafe(no_mangle)]
pub extern "C" fn fixed_message(code: u32, out: &mut [u8], len: &mut usize) -> u32
    ensures { TextEnds (IsMessage code) Never out.old out.new len.old len.new result }
{
    put_text(message_of(code).as_bytes(), out, len)
}

/// Prints bits to `places` decimal places, ties to even: `fixed_print_places` of the header.
#[unsafe(no_mangle)]
pub extern "C" fn fixed_print_places(
    bits: i64,
    format: FixedFormat,
    places: u32,
    out: &mut [u8],
    len: &mut usize,
) -> u32
    ensures { TextEnds
        (IsPrintedTo (format_of format.is_signed format.width format.frac) bits places (mode_code NearestEven))
        (PlacesIsRefused (format_of format.is_signed format.width format.frac) bits places (mode_code NearestEven))
        out.old out.new len.old len.new result }
{
    print_places(bits, format, places, NEAREST_EVEN, out, len)
}

/// Prints bits to `places` decimal places in a mode: `fixed_print_places_mode` of the header.
#[unsafe(no_mangle)]
pub extern "C" fn fixed_print_places_mode(
    bits: i64,
    format: FixedFormat,
    places: u32,
    mode: u32,
    out: &mut [u8],
    len: &mut usize,
) -> u32
    ensures { TextEnds
        (IsPrintedTo (format_of format.is_signed format.width format.frac) bits places mode)
        (PlacesIsRefused (format_of format.is_signed format.width format.frac) bits places mode)
        out.old out.new len.old len.new result }
{
    print_places(bits, format, places, mode, out, len)
}

/// Rounds bits to a whole number: `fixed_round_bits` of the header.
#[unsafe(no_mangle)]
pub extern "C" fn fixed_round_bits(
    bits: i64,
    format: FixedFormat,
    rounding: u32,
    policy: u32,
    out: &mut FixedNumber,
) -> u32
    ensures { EndsWith
        (λ n. IsRoundedTo (format_of format.is_signed format.width format.frac) rounding policy bits n.bits
        n.overflowed)
        (RoundIsRefused (format_of format.is_signed format.width format.frac) rounding policy bits) out.old out.new
        result }
{
    hand_over(round(bits, format, rounding, policy), out)
}

/// Converts bits to another format in a mode: `fixed_convert_bits_mode` of the header.
#[unsafe(no_mangle)]
pub extern "C" fn fixed_convert_bits_mode(
    bits: i64,
    source: FixedFormat,
    target: FixedFormat,
    policy: u32,
    mode: u32,
    out: &mut FixedNumber,
) -> u32
    ensures { EndsWith
        (λ n. IsConvertedIn (format_of source.is_signed source.width source.frac)
        (format_of target.is_signed target.width target.frac) policy mode bits n.bits n.overflowed)
        (ConvertInIsRefused (format_of source.is_signed source.width source.frac)
        (format_of target.is_signed target.width target.frac) policy mode bits) out.old out.new result }
{
    hand_over(convert_in(bits, source, target, policy, mode), out)
}

/// Reads a literal as a number of a format: `fixed_read_literal` of the header.
#[unsafe(no_mangle)]
pub extern "C" fn fixed_read_literal(
    text: &[u8],
    format: FixedFormat,
    policy: u32,
    out: &mut FixedNumber,
) -> u32
    ensures { EndsWith
        (λ n. IsLiteralReadAs text.now (format_of format.is_signed format.width format.frac) policy n.bits n.overflowed)
        (LiteralIsRefused text.now (format_of format.is_signed format.width format.frac) policy) out.old out.new result }
{
    hand_over(literal(given_text(text), format, policy), out)
}

/// Finds the format that a word names: `fixed_format_of_word` of the header.
#[unsafe(no_mangle)]
pub extern "C" fn fixed_format_of_word(word: &[u8], out: &mut FixedFormat) -> u32
    ensures { EndsWith (IsFormatNamed word.now) (WordIsRefused word.now) out.old out.new result }
{
    hand_over(named_format(given_text(word)), out)
}

/// Writes the name of a format: `fixed_word_of_format` of the header.
#[unsafe(no_mangle)]
pub extern "C" fn fixed_word_of_format(format: FixedFormat, out: &mut [u8], len: &mut usize) -> u32
    ensures { TextEnds
        (λ word. IsFormatText word (format_of format.is_signed format.width format.frac))
        (FormatIsRefused (format_of format.is_signed format.width format.frac)) out.old out.new len.old len.new result }
{
    put_word(format, out, len)
}

/// Reads the numerals of rows as numbers of a format: `fixed_read_rows` of the header.
#[unsafe(no_mangle)]
pub extern "C" fn fixed_read_rows(
    rows: &[u8],
    size: usize,
    radix: u32,
    format: FixedFormat,
    policy: u32,
    mode: u32,
    out: &mut [FixedNumber],
    codes: &mut [u32],
    refused: &mut usize,
) -> u32
    ensures { RowsEnd (HaveRows rows.now size out.old codes.old)
        (ReadsRow rows.now size radix (format_of format.is_signed format.width format.frac) policy mode)
        out.old out.new codes.old codes.new refused.old refused.new result }
{
    let reading = Reading {
        radix,
        format,
        policy,
        mode,
    };
    read_rows(given_text(rows), size, reading, out, codes, refused)
}

/// Prints bits into rows of text: `fixed_print_rows` of the header.
#[unsafe(no_mangle)]
pub extern "C" fn fixed_print_rows(
    bits: &[i64],
    format: FixedFormat,
    rows: &mut [u8],
    size: usize,
    codes: &mut [u32],
    refused: &mut usize,
) -> u32
    ensures { PrintedEnd (format_of format.is_signed format.width format.frac) bits.now size rows.old rows.new codes.old
        codes.new refused.old refused.new result }
{
    print_rows(bits, format, rows, size, codes, refused)
}

/// Converts the bits of rows to another format in a mode: `fixed_convert_rows` of the header.
#[unsafe(no_mangle)]
pub extern "C" fn fixed_convert_rows(
    bits: &[i64],
    source: FixedFormat,
    target: FixedFormat,
    policy: u32,
    mode: u32,
    out: &mut [FixedNumber],
    codes: &mut [u32],
    refused: &mut usize,
) -> u32
    ensures { RowsEnd (HaveBits bits.now out.old codes.old)
        (ConvertsRow bits.now (format_of source.is_signed source.width source.frac)
        (format_of target.is_signed target.width target.frac) policy mode)
        out.old out.new codes.old codes.new refused.old refused.new result }
{
    let conversion = Conversion {
        source,
        target,
        policy,
        mode,
    };
    convert_rows(bits, conversion, out, codes, refused)
}

/// Reads a decimal numeral as a number of a decimal format: `fixed_read_decimal` of the header.
#[unsafe(no_mangle)]
pub extern "C" fn fixed_read_decimal(
    text: &[u8],
    places: u32,
    policy: u32,
    mode: u32,
    out: &mut FixedNumber,
) -> u32
    ensures { EndsWith (λ n. NamesBoth policy mode (IsDecimalRead text.now places n))
        (DecimalIsRefused text.now places policy mode) out.old out.new result }
{
    hand_over(decimal_read(given_text(text), places, policy, mode), out)
}

/// Prints a number of a decimal format with all of its places: `fixed_print_decimal` of the header.
#[unsafe(no_mangle)]
pub extern "C" fn fixed_print_decimal(
    bits: i64,
    places: u32,
    out: &mut [u8],
    len: &mut usize,
) -> u32
    ensures { TextEnds (IsDecimalPrinted bits places) (DecimalTextIsRefused places) out.old out.new len.old len.new
        result }
{
    print_decimal(bits, places, out, len)
}

/// Reads the numerals of rows as numbers of a decimal format: `fixed_read_decimal_rows` of the header.
#[unsafe(no_mangle)]
pub extern "C" fn fixed_read_decimal_rows(
    rows: &[u8],
    size: usize,
    places: u32,
    policy: u32,
    mode: u32,
    out: &mut [FixedNumber],
    codes: &mut [u32],
    refused: &mut usize,
) -> u32
    ensures { RowsEnd (HaveRows rows.now size out.old codes.old) (ReadsDecimalRow rows.now size places policy mode)
        out.old out.new codes.old codes.new refused.old refused.new result }
{
    let reading = DecimalReading {
        places,
        policy,
        mode,
    };
    read_decimal_rows(given_text(rows), size, reading, out, codes, refused)
}

/// Prints numbers of a decimal format into rows of text: `fixed_print_decimal_rows` of the header.
#[unsafe(no_mangle)]
pub extern "C" fn fixed_print_decimal_rows(
    bits: &[i64],
    places: u32,
    rows: &mut [u8],
    size: usize,
    codes: &mut [u32],
    refused: &mut usize,
) -> u32
    ensures { DecimalsEnd places bits.now size rows.old rows.new codes.old codes.new refused.old refused.new result }
{
    print_decimal_rows(bits, places, rows, size, codes, refused)
}

/// Reads the exact value of a double as a number of a format: `fixed_read_double` of the header. C passes the double.
#[unsafe(no_mangle)]
pub extern "C" fn fixed_read_double(
    value: f64,
    format: FixedFormat,
    policy: u32,
    mode: u32,
    out: &mut FixedNumber,
) -> u32
    ensures { EndsWith
        (λ n. NamesBoth policy mode (IsFloatRead Binary64 (to_bits binary64 value)
        (format_of format.is_signed format.width format.frac) n))
        (FloatIsRefused Binary64 (to_bits binary64 value) (format_of format.is_signed format.width format.frac)
        policy mode) out.old out.new result }
{
    let bits = f64_to_bits_with_nan(value);
    hand_over(double_read(bits, format, policy, mode), out)
}

/// Reads rows of doubles as numbers of a format: `fixed_read_doubles` of the header. In C the values are doubles.
#[unsafe(no_mangle)]
pub extern "C" fn fixed_read_doubles(
    values: &[u64],
    format: FixedFormat,
    policy: u32,
    mode: u32,
    out: &mut [FixedNumber],
    codes: &mut [u32],
    refused: &mut usize,
) -> u32
    ensures { RowsEnd (HaveFloats values.now out.old codes.old)
        (ReadsFloatRow Binary64 values.now (format_of format.is_signed format.width format.frac) policy mode)
        out.old out.new codes.old codes.new refused.old refused.new result }
{
    let reading = FloatReading {
        format,
        policy,
        mode,
    };
    read_doubles(values, reading, out, codes, refused)
}

/// Reads rows of floats as numbers of a format: `fixed_read_floats` of the header. In C the values are floats.
#[unsafe(no_mangle)]
pub extern "C" fn fixed_read_floats(
    values: &[u32],
    format: FixedFormat,
    policy: u32,
    mode: u32,
    out: &mut [FixedNumber],
    codes: &mut [u32],
    refused: &mut usize,
) -> u32
    ensures { RowsEnd (HaveFloats values.now out.old codes.old)
        (ReadsFloatRow Binary32 values.now (format_of format.is_signed format.width format.frac) policy mode)
        out.old out.new codes.old codes.new refused.old refused.new result }
{
    let reading = FloatReading {
        format,
        policy,
        mode,
    };
    read_floats(values, reading, out, codes, refused)
}

/// Finds the double nearest to the value of bits: `fixed_double_of_bits` of the header. In C `out` is a double.
#[unsafe(no_mangle)]
pub extern "C" fn fixed_double_of_bits(bits: i64, format: FixedFormat, out: &mut u64) -> u32
    ensures { EndsWith
        (IsDoubleOf (format_of format.is_signed format.width format.frac) bits)
        (PrintIsRefused (format_of format.is_signed format.width format.frac) bits) out.old out.new result }
{
    hand_over(double_of(bits, format), out)
}

/// Finds the doubles nearest to the values of rows of bits: `fixed_doubles_of_bits` of the header.
#[unsafe(no_mangle)]
pub extern "C" fn fixed_doubles_of_bits(
    bits: &[i64],
    format: FixedFormat,
    out: &mut [u64],
    codes: &mut [u32],
    refused: &mut usize,
) -> u32
    ensures { ItemsEnd ℕ (HaveDoubles bits.now out.old codes.old)
        (DoubleRow bits.now (format_of format.is_signed format.width format.frac))
        out.old out.new codes.old codes.new refused.old refused.new result }
{
    doubles_of(bits, format, out, codes, refused)
}

/// Prints the bits of rows to `places` decimal places in a mode: `fixed_print_places_rows` of the header.
#[unsafe(no_mangle)]
pub extern "C" fn fixed_print_places_rows(
    bits: &[i64],
    format: FixedFormat,
    places: u32,
    mode: u32,
    rows: &mut [u8],
    size: usize,
    codes: &mut [u32],
    refused: &mut usize,
) -> u32
    ensures { PlacesEnd (format_of format.is_signed format.width format.frac) places mode bits.now size rows.old
        rows.new codes.old codes.new refused.old refused.new result }
{
    let printing = PlacesPrinting {
        format,
        places,
        mode,
    };
    print_places_rows(bits, printing, rows, size, codes, refused)
}

/// Compares the values of the bits of rows: `fixed_compare_rows` of the header.
#[unsafe(no_mangle)]
pub extern "C" fn fixed_compare_rows(
    a: &[i64],
    a_format: FixedFormat,
    b: &[i64],
    b_format: FixedFormat,
    orders: &mut [i32],
    codes: &mut [u32],
    refused: &mut usize,
) -> u32
    ensures { ItemsEnd ℤ (HavePairs a.now b.now orders.old codes.old)
        (ComparesRow a.now (format_of a_format.is_signed a_format.width a_format.frac) b.now
        (format_of b_format.is_signed b_format.width b_format.frac))
        orders.old orders.new codes.old codes.new refused.old refused.new result }
{
    compare_rows(a, a_format, b, b_format, orders, codes, refused)
}

/// Prints bits in a style: `fixed_print_styled` of the header.
#[unsafe(no_mangle)]
pub extern "C" fn fixed_print_styled(
    bits: i64,
    format: FixedFormat,
    style: &FixedStyle,
    out: &mut [u8],
    len: &mut usize,
) -> u32
    ensures { TextEnds
        (IsPrintedIn (format_of format.is_signed format.width format.frac) bits style.now)
        (StyledIsRefused (format_of format.is_signed format.width format.frac) bits style.now)
        out.old out.new len.old len.new result }
{
    print_styled(bits, format, style, out, len)
}

/// Counts the bytes of the numeral at the start of a text: `fixed_scan_text` of the header.
#[unsafe(no_mangle)]
pub extern "C" fn fixed_scan_text(text: &[u8], radix: u32, count: &mut usize) -> u32
    ensures { EndsWith (IsLeadingIn text.now radix) (ScanIsRefused text.now radix) count.old count.new result }
{
    hand_over(leading(given_text(text), radix), count)
}

/// Returns the number of the binary interface that the header declares: `fixed_abi` of the header.
#[unsafe(no_mangle)]
pub extern "C" fn fixed_abi() -> u32
    ensures { result ≡ 1 }
{
    1
}

/// Returns the version of the library, 1.1.0: `fixed_version` of the header.
#[unsafe(no_mangle)]
pub extern "C" fn fixed_version() -> u32
    ensures { result ≡ 10100 }
{
    10_100
}
