//! Digits in a base from 2 to 16. The base is a const parameter, so each base is compiled with its constants.

ghost use Rattle.std.specs.Prelude.{◌≡◌, ◌+◌, ◌^◌, ◌<◌, ◌≤◌, ◌++◌, [], ◌∷◌, length};
ghost use Rattle.std.specs.Fmt.{digit_glyph};
ghost use Rattle.fixed_write.specs.Texts.{whole_digits, last_digits};

use crate::digits::{push_places, push_whole};
use text_buffer::TextBuffer;

/// Returns the character of a digit below sixteen.
#[inline]
fn glyph(digit: u8, upper: bool) -> u8
    requires { digit < 16 }
    ensures { result ≡ digit_glyph upper digit }
{
    if digit < 10 {
        b'0' + digit
    } else if upper {
        b'A' - 10 + digit
    } else {
        b'a' - 10 + digit
    }
}

/// Appends a digit.
#[inline]
pub(crate) fn push_digit<const N: usize>(out: &mut TextBuffer<N>, digit: u8, upper: bool)
    requires digit { digit < 16 }
    requires room { length out.old < N }
    ensures { out.new ≡ out.old ++ digit_glyph upper digit ∷ [] }
{
    out.push(glyph(digit, upper));
}

/// Appends the last digits of a number one by one, with leading zeros if it has fewer.
fn push_each_last<const BASE: u64, const N: usize>(
    out: &mut TextBuffer<N>,
    number: u64,
    places: u32,
    upper: bool,
)
    requires low { 2 ≤ BASE }
    requires high { BASE ≤ 16 }
    requires room { length out.old + places ≤ N }
    ensures { out.new ≡ out.old ++ last_digits BASE upper places number }
{
    if places > 0 {
        push_each_last::<BASE, N>(out, number / BASE, places - 1, upper);
        push_digit(out, (number % BASE) as u8, upper);
    }
}

/// Appends the digits of a whole number one by one, at least one, without a leading zero.
fn push_each_digit<const BASE: u64, const N: usize>(
    out: &mut TextBuffer<N>,
    number: u64,
    upper: bool,
)
    requires low { 2 ≤ BASE }
    requires high { BASE ≤ 16 }
    requires room { length out.old + length (whole_digits BASE upper number) ≤ N }
    ensures { out.new ≡ out.old ++ whole_digits BASE upper number }
{
    let mut first = number;
    let mut others = 0;
    'digits: while first >= BASE {
        first /= BASE;
        others += 1;
    }
    push_digit(out, first as u8, upper);
    push_each_last::<BASE, N>(out, number, others, upper);
}

/// Appends a number of at most `places` digits, with leading zeros if it has fewer; decimal digits sixteen at a time.
#[inline]
pub(crate) fn push_last_in<const BASE: u64, const N: usize>(
    out: &mut TextBuffer<N>,
    number: u64,
    places: u32,
    upper: bool,
)
    requires low { 2 ≤ BASE }
    requires high { BASE ≤ 16 }
    requires decimal { BASE ≡ 10 → places ≤ 19 }
    requires number { number < BASE ^ places }
    requires room { length out.old + places ≤ N }
    ensures { out.new ≡ out.old ++ last_digits BASE upper places number }
{
    if BASE == 10 {
        push_places(out, number, places);
    } else {
        push_each_last::<BASE, N>(out, number, places, upper);
    }
}

/// Appends the digits of a whole number, at least one, without a leading zero; decimal digits sixteen at a time.
#[inline]
pub(crate) fn push_whole_in<const BASE: u64, const N: usize>(
    out: &mut TextBuffer<N>,
    number: u64,
    upper: bool,
)
    requires low { 2 ≤ BASE }
    requires high { BASE ≤ 16 }
    requires room { length out.old + length (whole_digits BASE upper number) ≤ N }
    ensures { out.new ≡ out.old ++ whole_digits BASE upper number }
{
    if BASE == 10 {
        push_whole(out, number);
    } else {
        push_each_digit::<BASE, N>(out, number, upper);
    }
}
