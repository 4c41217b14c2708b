//! Prints bits in a style.

ghost use Rattle.std.specs.Prelude.{◌≡◌, ◌<◌, ◌^◌, MatchResult};
ghost use Rattle.std.specs.Char.{IsScalar};
ghost use Rattle.fixed_c.specs.Numbers.{format_of};
ghost use Rattle.fixed_c.specs.Style.{NamesAlign, NamesNotation, NamesPrecision, NamesStyle, IsPrecision};
ghost use Rattle.fixed_c.specs.Style.{IsPrintedIn, StyleIsRefused, StyledIsRefused, align_code, fill_at};
ghost use Rattle.fixed_c.specs.Style.{notation_code};
ghost use Rattle.fixed_c.specs.Texts.{PutsText, TextEnds};
ghost use Rattle.fixed_c.specs.declared.refusal.Refusal.TheVariants.{BadAlign, BadFill, BadNotation};
ghost use Rattle.fixed_c.specs.declared.refusal.Refusal.TheVariants.{BadPlaces, BadWidth};

use crate::arguments::{FixedFormat, format_of};
use crate::number::number_in;
use crate::refusal::{OK, Refusal};
use fixed_write::{Align, Notation, Style, StyledText, text_in_style};

/// The precision that shows as many places as a number needs.
const NO_PRECISION: u32 = u32::MAX;

/// A style as C passes it, `fixed_style` of the header.
#[repr(C)]
#[derive(Clone, Copy)]
pub struct FixedStyle {
    /// The notation, 0 to 6.
    pub notation: u32,
    /// The number of digits after the point, at most 65,535, or 2^32 - 1 for as many as the number needs.
    pub precision: u32,
    /// The least number of characters, at most 65,535.
    pub width: u32,
    /// The Unicode scalar value of the character that fills the field up to the width, or 0 for a blank.
    pub fill: u32,
    /// The alignment of the text in the field, 0 to 2.
    pub align: u32,
    /// Whether to write `+` before a number that is not negative: 0 if not.
    pub plus: u32,
    /// Whether to write a prefix `0b`, `0o` or `0x`: 0 if not.
    pub prefix: u32,
    /// Whether to fill the field with zeros after sign and prefix: 0 if not.
    pub zero_pad: u32,
}

/// Returns the notation of a code.
fn notation_of(code: u32) -> Result<Notation, Refusal>
    ensures { MatchResult result
        (λ n. code ≡ notation_code n)
        (λ refusal. (¬ NamesNotation code) × (refusal ≡ BadNotation)) }
{
    match code {
        0 => Ok(Notation::Dec),
        1 => Ok(Notation::LowerExp),
        2 => Ok(Notation::UpperExp),
        3 => Ok(Notation::Bin),
        4 => Ok(Notation::Oct),
        5 => Ok(Notation::LowerHex),
        6 => Ok(Notation::UpperHex),
        _ => Err(Refusal::BadNotation),
    }
}

/// Returns the alignment of a code.
fn align_of(code: u32) -> Result<Align, Refusal>
    ensures { MatchResult result (λ a. code ≡ align_code a) (λ refusal. (¬ NamesAlign code) × (refusal ≡ BadAlign)) }
{
    match code {
        0 => Ok(Align::Left),
        1 => Ok(Align::Center),
        2 => Ok(Align::Right),
        _ => Err(Refusal::BadAlign),
    }
}

/// Returns the precision that C passes.
fn precision_of(code: u32) -> Result<Option<u16>, Refusal>
    ensures { MatchResult result
        (λ p. IsPrecision code p)
        (λ refusal. (¬ NamesPrecision code) × (refusal ≡ BadPlaces)) }
{
    if code == NO_PRECISION {
        Ok(None)
    } else if code < 65536 {
        Ok(Some(code as u16))
    } else {
        Err(Refusal::BadPlaces)
    }
}

/// Returns the width that C passes.
fn width_of(width: u32) -> Result<u16, Refusal>
    ensures { MatchResult result
        (λ w. (width ≡ w) × (width < 2 ^ 16))
        (λ refusal. (¬ (width < 2 ^ 16)) × (refusal ≡ BadWidth)) }
{
    if width < 65536 {
        Ok(width as u16)
    } else {
        Err(Refusal::BadWidth)
    }
}

/// Returns the character of a Unicode scalar value, or a blank for 0.
fn fill_of(code: u32) -> Result<char, Refusal>
    ensures { MatchResult result
        (λ c. (fill_at code ≡ c) × IsScalar code)
        (λ refusal. (¬ IsScalar code) × (refusal ≡ BadFill)) }
{
    if code == 0 {
        return Ok(' ');
    }
    match char::from_u32(code) {
        Some(fill) => Ok(fill),
        None => Err(Refusal::BadFill),
    }
}

/// Returns the style that C passes.
fn style_of(given: &FixedStyle) -> Result<Style, Refusal>
    ensures { MatchResult result (NamesStyle given.now) (StyleIsRefused given.now) }
{
    let precision = precision_of(given.precision)?;
    let notation = notation_of(given.notation)?;
    let width = width_of(given.width)?;
    let fill = fill_of(given.fill)?;
    let align = align_of(given.align)?;
    Ok(Style {
        notation,
        precision,
        width,
        fill,
        align,
        plus: given.plus != 0,
        prefix: given.prefix != 0,
        zero_pad: given.zero_pad != 0,
    })
}

/// Prints bits in a style.
fn in_style(bits: i64, format: FixedFormat, style: &FixedStyle) -> Result<StyledText, Refusal>
    ensures { MatchResult result
        (IsPrintedIn (format_of format.is_signed format.width format.frac) bits style.now)
        (StyledIsRefused (format_of format.is_signed format.width format.frac) bits style.now) }
{
    let format = format_of(format, Refusal::BadFormat)?;
    let number = number_in(bits, format, Refusal::BadBits)?;
    let style = style_of(style)?;
    Ok(text_in_style(number, format.frac(), &style))
}

/// Writes a text and a zero byte if there is room for both, and its length in any case.
fn put_styled(text: &StyledText, out: &mut [u8], len: &mut usize) -> u32
    ensures { PutsText text.now out.old out.new len.new result }
{
    let count = text.len();
    *len = count;
    if count < out.len() {
        text.write_to(out);
        out[count] = 0;
        OK
    } else {
        Refusal::NoRoom.code()
    }
}

/// Hands over the text of bits in a style.
pub fn print_styled(
    bits: i64,
    format: FixedFormat,
    style: &FixedStyle,
    out: &mut [u8],
    len: &mut usize,
) -> u32
    ensures { TextEnds
        (IsPrintedIn (format_of format.is_signed format.width format.frac) bits style.now)
        (StyledIsRefused (format_of format.is_signed format.width format.frac) bits style.now)
        out.old out.new len.old len.new result }
{
    match in_style(bits, format, style) {
        Ok(text) => put_styled(&text, out, len),
        Err(refusal) => refusal.code(),
    }
}
