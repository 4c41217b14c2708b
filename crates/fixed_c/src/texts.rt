//! Texts that are written to a buffer of C.

ghost use Rattle.std.specs.Prelude.{MatchResult};
ghost use Rattle.fixed_c.specs.Answer.{IsAnswered};
ghost use Rattle.fixed_c.specs.Convert.{IsPrinted, IsPrintedTo, PlacesIsRefused, PrintIsRefused};
ghost use Rattle.fixed_c.specs.Numbers.{format_of};
ghost use Rattle.fixed_c.specs.Texts.{PutsText, TextEnds};

use crate::arguments::{FixedFormat, format_of, mode_of};
use crate::number::{flag, number_in};
use crate::refusal::{OK, Refusal};
use crate::uncounted::{answer_uncounted, shortest_uncounted};
use fixed_write::{ShortText, push_decimal};
use text_buffer::TextBuffer;

/// Writes a text and a zero byte if there is room for both, and its length in any case.
pub fn put_text(text: &[u8], out: &mut [u8], len: &mut usize) -> u32
    ensures { PutsText text.now out.old out.new len.new result }
{
    let count = text.len();
    *len = count;
    if count < out.len() {
        out[..count].copy_from_slice(text);
        out[count] = 0;
        OK
    } else {
        Refusal::NoRoom.code()
    }
}

/// Returns the shortest decimal that reads back as bits of a format.
pub fn shortest_of(bits: i64, format: FixedFormat) -> Result<ShortText, Refusal>
    ensures { MatchResult result
        (IsPrinted (format_of format.is_signed format.width format.frac) bits)
        (PrintIsRefused (format_of format.is_signed format.width format.frac) bits) }
{
    let format = format_of(format, Refusal::BadFormat)?;
    let number = number_in(bits, format, Refusal::BadBits)?;
    Ok(shortest_uncounted(number, format.frac()))
}

/// Writes the shortest decimal that reads back as bits of a format.
pub fn print_bits(bits: i64, format: FixedFormat, out: &mut [u8], len: &mut usize) -> u32
    ensures { TextEnds
        (IsPrinted (format_of format.is_signed format.width format.frac) bits)
        (PrintIsRefused (format_of format.is_signed format.width format.frac) bits) out.old out.new len.old len.new
        result }
{
    match shortest_of(bits, format) {
        Ok(text) => put_text(text.as_bytes(), out, len),
        Err(refusal) => refusal.code(),
    }
}

/// Prints bits to `places` decimal places, rounded in a mode: a text of at most 86 bytes.
pub fn rounded_to(
    bits: i64,
    format: FixedFormat,
    places: u32,
    mode: u32,
) -> Result<TextBuffer<130>, Refusal>
    ensures { MatchResult result
        (IsPrintedTo (format_of format.is_signed format.width format.frac) bits places mode)
        (PlacesIsRefused (format_of format.is_signed format.width format.frac) bits places mode) }
{
    let format = format_of(format, Refusal::BadFormat)?;
    let mode = mode_of(mode)?;
    let number = number_in(bits, format, Refusal::BadBits)?;
    if places > 64 {
        return Err(Refusal::BadPlaces);
    }
    let mut text = TextBuffer::new();
    push_decimal(&mut text, number, format.frac(), places, mode);
    Ok(text)
}

/// Writes bits to `places` decimal places, rounded in a mode.
pub fn print_places(
    bits: i64,
    format: FixedFormat,
    places: u32,
    mode: u32,
    out: &mut [u8],
    len: &mut usize,
) -> u32
    ensures { TextEnds
        (IsPrintedTo (format_of format.is_signed format.width format.frac) bits places mode)
        (PlacesIsRefused (format_of format.is_signed format.width format.frac) bits places mode) out.old out.new len.old
        len.new result }
{
    match rounded_to(bits, format, places, mode) {
        Ok(text) => put_text(text.as_bytes(), out, len),
        Err(refusal) => refusal.code(),
    }
}

/// Writes the answer to a line, and whether it names a fault.
pub fn answer_line(line: &[u8], out: &mut [u8], len: &mut usize, is_fault: &mut u32) -> u32
    ensures { IsAnswered line.now out.old out.new len.new is_fault.new result }
{
    let answer = answer_uncounted(line);
    *is_fault = flag(answer.is_fault());
    put_text(answer.as_bytes(), out, len)
}
