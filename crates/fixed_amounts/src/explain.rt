//! Explains why the number of a numeral is out of range. A number of more than 64 bits is not written out.

ghost use Rattle.std.specs.Prelude.{◌≡◌, ◌+◌, ◌≤◌, ◌++◌, [], length};
ghost use Rattle.fixed_amounts.specs.Explained.{ExplainsOverflow, greatest_text, holds_text, least_text, reached_text};
ghost use Rattle.fixed_amounts.specs.Names.{name_text};
ghost use Rattle.fixed_numeral.specs.Numeral.{IsNumeral};
ghost use Rattle.fixed_numeral.specs.declared.radix.Radix.{Radix};

use fixed_bits::{Number, ReadMode};
use fixed_decimal::{
    DecimalFormat, push_decimal_format, push_decimal_magnitude, read_decimal_format,
};
use fixed_steps::Steps;
use fixed_write::push_integer;
use std::sync::ledger::Ledger;
use text_buffer::TextBuffer;

/// The length of the longest explanation, in bytes.
pub const MAX_OVERFLOW: usize = 192;

/// Appends the name of a decimal format.
pub(crate) fn push_name<const N: usize>(out: &mut TextBuffer<N>, format: DecimalFormat)
    requires room { length out.old + 22 ≤ N }
    ensures appended { out.new ≡ out.old ++ name_text format }
    ensures short { length out.new ≤ length out.old + 22 }
{
    out.push(b'D');
    push_integer(out, i128::from(format.places()));
}

/// Appends the least amount of a format.
pub(crate) fn push_least<const N: usize>(out: &mut TextBuffer<N>, format: DecimalFormat)
    requires room { length out.old + 41 ≤ N }
    ensures appended { out.new ≡ out.old ++ least_text format }
    ensures short { length out.new ≤ length out.old + 41 }
{
    push_decimal_format(out, i64::MIN, format);
}

/// Appends the greatest amount of a format.
pub(crate) fn push_greatest<const N: usize>(out: &mut TextBuffer<N>, format: DecimalFormat)
    requires room { length out.old + 41 ≤ N }
    ensures appended { out.new ≡ out.old ++ greatest_text format }
    ensures short { length out.new ≤ length out.old + 41 }
{
    push_decimal_format(out, i64::MAX, format);
}

/// Appends the range of a format.
fn push_range(out: &mut TextBuffer<MAX_OVERFLOW>, format: DecimalFormat)
    requires room { length out.old + 115 ≤ 192 }
    ensures appended { out.new ≡ out.old ++ holds_text format }
{
    push_name(out, format);
    out.push_bytes(b" holds ");
    push_least(out, format);
    out.push_bytes(b" to ");
    push_greatest(out, format);
}

/// Appends the number that was reached.
fn push_reached(out: &mut TextBuffer<MAX_OVERFLOW>, number: Number, format: DecimalFormat)
    requires room { length out.old + 41 ≤ 192 }
    ensures appended { out.new ≡ out.old ++ reached_text number format }
    ensures short { length out.new ≤ length out.old + 41 }
{
    if number.has_high_bits {
        out.push_bytes(b"a number of more than 64 bits");
    } else {
        push_decimal_magnitude(out, number.negative, number.low, format);
    }
}

/// Explains why a numeral is refused as an overflow: the number that was reached, and the range of the format. Empty
/// for other bytes.
pub fn overflow_explanation<L: Ledger>(
    bytes: &[u8],
    format: DecimalFormat,
    mode: ReadMode,
    steps: &mut Steps<L>,
) -> TextBuffer<MAX_OVERFLOW>
    ensures overflow { IsNumeral Radix.Dec bytes.now → ExplainsOverflow mode format bytes.now result }
    ensures other { ¬ IsNumeral Radix.Dec bytes.now → result ≡ [] }
{
    let mut out = TextBuffer::new();
    if let Ok(found) = read_decimal_format(bytes, format, mode, steps) {
        out.push_bytes(b", reached ");
        push_reached(&mut out, found.number(), format);
        out.push_bytes(b", ");
        push_range(&mut out, format);
    }
    out
}
