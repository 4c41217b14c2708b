//! Tests of texts in a style, with and without allocation. The shortest texts are in the stored run of `fixed_vectors`.

ghost use Rattle.std.specs.Prelude.{◌≤◌, ◌^◌, ◌≤ℤ◌, ◌<ℤ◌, neg_ℤ, pos};

use fixed_write::{Align, NoMemory, Notation, Style, text_in_style, to_text};
use std::alloc::Global;

/// Whether a style shows a value as `wanted` if the text is written without allocation, and writes nothing after it.
fn writes(bits: i128, frac: u32, style: &Style, wanted: &[u8]) -> bool
    requires low { neg_ℤ (pos (2 ^ 63)) ≤ℤ bits }
    requires high { bits <ℤ pos (2 ^ 64) }
    requires frac { frac ≤ 64 }
{
    let text = text_in_style(bits, frac, style);
    let mut room = [b'?'; 80];
    let end = text.len();
    if end >= 80 {
        return false;
    }
    text.write_to(&mut room);
    &room[..end] == wanted && room[end] == b'?'
}

/// Whether a style shows a value as `wanted`, with and without allocation.
fn shows(
    alloc: Global,
    bits: i128,
    frac: u32,
    style: &Style,
    wanted: &str,
) -> Result<bool, NoMemory> {
    if frac > 64 || bits < i64::MIN as i128 || bits > u64::MAX as i128 {
        return Ok(false);
    }
    match to_text(alloc, bits, frac, style) {
        Ok(text) => Ok(
            text.as_bytes() == wanted.as_bytes() && writes(bits, frac, style, wanted.as_bytes()),
        ),
        Err(error) => Err(error),
    }
}

/// Returns a style of a notation with a precision.
fn places(notation: Notation, precision: u16) -> Style {
    let mut style = Style::plain(notation);
    style.precision = Some(precision);
    style
}

/// Returns a decimal style of a width, with a fill and an alignment.
fn field(width: u16, fill: char, align: Align) -> Style {
    let mut style = Style::plain(Notation::Dec);
    style.width = width;
    style.fill = fill;
    style.align = align;
    style
}

#[test]
fn plain_and_rounded_texts(rt: HostRuntime) {
    let rows = [
        (25, 8, Notation::Dec, Some(3), "0.098"),
        (77, 8, Notation::LowerExp, Some(0), "3e-1"),
        (-4, 4, Notation::Dec, Some(0), "-0"),
        (51, 4, Notation::Bin, None, "11.0011"),
        (51, 4, Notation::Oct, None, "3.14"),
        (51, 4, Notation::LowerHex, None, "3.3"),
        (51, 4, Notation::Bin, Some(2), "11.01"),
        (255, 8, Notation::UpperHex, Some(1), "1.0"),
        (255, 0, Notation::UpperHex, None, "FF"),
        (40, 4, Notation::Oct, Some(0), "2"),
        (1200, 0, Notation::LowerExp, None, "1.2e3"),
        (1250, 0, Notation::UpperExp, Some(1), "1.2E3"),
        (999, 0, Notation::LowerExp, Some(1), "1.0e3"),
        (0, 0, Notation::LowerExp, None, "0e0"),
        (0, 0, Notation::LowerExp, Some(2), "0.00e0"),
        (25, 8, Notation::LowerExp, None, "9.8e-2"),
    ];
    for (bits, frac, notation, precision, wanted) in &rows {
        let style = Style {
            precision: *precision,
            ..Style::plain(*notation)
        };
        assert_eq!(rt;
            shows(rt.alloc(), *bits, *frac, &style, wanted),
            Ok(true),
            "{wanted}"
        );
    }
}

#[test]
fn texts_padded_up_to_a_width(rt: HostRuntime) {
    let mut hexadecimal = Style::plain(Notation::LowerHex);
    hexadecimal.prefix = true;
    hexadecimal.width = 10;
    hexadecimal.zero_pad = true;
    let mut plus = Style::plain(Notation::Dec);
    plus.plus = true;
    let rows = [
        (-51, hexadecimal, "-0x00003.3"),
        (51, field(8, '*', Align::Center), "**3.2***"),
        (51, field(8, '*', Align::Left), "3.2*****"),
        (51, field(4, 'é', Align::Right), "é3.2"),
        (51, plus, "+3.2"),
    ];
    for (bits, style, wanted) in &rows {
        assert_eq!(rt;
            shows(rt.alloc(), *bits, 4, style, wanted),
            Ok(true),
            "{wanted}"
        );
    }
}

/// Each call allocates once. If an allocation fails, its call says so and the others are not affected.
#[test]
fn refused_memory_is_reported_by_its_call_alone(rt: HostRuntime) {
    let rows = [
        (Style::plain(Notation::Dec), "3.2"),
        (
            places(Notation::Dec, 66),
            "3.187500000000000000000000000000000000000000000000000000000000000000",
        ),
        (places(Notation::LowerExp, 3), "3.188e0"),
        (Style::plain(Notation::Bin), "11.0011"),
    ];
    let mut refused = 0u32;
    for (style, wanted) in &rows {
        match shows(rt.alloc(), 51, 4, style, wanted) {
            Ok(is_shown) => assert!(rt; is_shown, "{wanted}"),
            Err(NoMemory) => refused = refused.saturating_add(1),
        }
    }
    assert!(rt; refused <= 1);
}
