//! Numbers of a decimal format as texts.

ghost use Rattle.std.specs.Prelude.{◌≡◌, ◌+◌, ◌<◌, ◌≤◌, ◌++◌, false, length, unsigned_abs};
ghost use Rattle.std.specs.Fmt.{digit_glyph, sign_text};
ghost use Rattle.std.specs.Int.{is_negative};
ghost use Rattle.fixed_decimal.specs.Texts.{decimal_format_text};
ghost use Rattle.fixed_write.specs.Texts.{decimal_text, fraction_part, last_digits};

use crate::format::DecimalFormat;
use crate::units::power;
use fixed_write::push_signed_integer;
use text_buffer::TextBuffer;

/// Returns the character of a digit.
#[inline]
fn glyph(digit: u8) -> u8
    requires { digit < 10 }
    ensures { result ≡ digit_glyph false digit }
{
    b'0' + digit
}

/// Appends the last `places` digits of a number.
fn push_last<const N: usize>(out: &mut TextBuffer<N>, number: u64, places: u32)
    requires { length out.old + places ≤ N }
    ensures { out.new ≡ out.old ++ last_digits 10 false places number }
{
    if places > 0 {
        push_last::<N>(out, number / 10, places - 1);
        out.push(glyph((number % 10) as u8));
    }
}

/// Appends a point and the last `places` digits of a number, or nothing if there are no places.
fn push_fraction<const N: usize>(out: &mut TextBuffer<N>, number: u64, places: u32)
    requires { length out.old + places + 1 ≤ N }
    ensures { out.new ≡ out.old ++ fraction_part 10 false places number }
{
    if places > 0 {
        out.push(b'.');
        push_last(out, number, places);
    }
}

/// Appends `-` if a number is negative.
#[inline]
fn push_sign<const N: usize>(out: &mut TextBuffer<N>, is_negative: bool)
    requires { length out.old < N }
    ensures { out.new ≡ out.old ++ sign_text is_negative }
{
    out.push_if(b'-', is_negative);
}

/// Whether a number is below zero.
#[inline]
fn is_negative(units: i64) -> bool
    ensures { result ≡ is_negative units }
{
    units < 0
}

/// Returns the magnitude of a number.
#[inline]
fn magnitude_of(units: i64) -> u64
    ensures { result ≡ unsigned_abs units }
{
    units.unsigned_abs()
}

/// Appends a number of units of a decimal format by its sign and magnitude, exactly: `-` if it is negative, its whole
/// part, and, unless the format has no places, a point and exactly as many digits as the format has places. There must
/// be room for 41 bytes.
pub fn push_decimal_magnitude<const N: usize>(
    out: &mut TextBuffer<N>,
    negative: bool,
    magnitude: u64,
    format: DecimalFormat,
)
    requires room { length out.old + 41 ≤ N }
    ensures appended { out.new ≡ out.old ++ decimal_text negative magnitude format }
    ensures short { length (decimal_text negative magnitude format) ≤ 41 }
{
    let places = format.places();
    push_sign(out, negative);
    push_signed_integer(out, false, magnitude / power(places));
    push_fraction(out, magnitude, places);
}

/// Appends a number of a decimal format exactly, as `push_decimal_magnitude` does. There must be room for 41 bytes.
pub fn push_decimal_format<const N: usize>(
    out: &mut TextBuffer<N>,
    units: i64,
    format: DecimalFormat,
)
    requires room { length out.old + 41 ≤ N }
    ensures appended { out.new ≡ out.old ++ decimal_format_text units format }
    ensures short { length (decimal_format_text units format) ≤ 41 }
{
    push_decimal_magnitude(out, is_negative(units), magnitude_of(units), format);
}
