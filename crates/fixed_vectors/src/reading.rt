//! The reading calls.

ghost use Rattle.std.specs.Prelude.{◌≤◌};

use crate::answers;
use fixed_bits::{Inner, ReadMode};
use fixed_numeral::{ParseFixedError, Radix};
use fixed_point::Fixed;
use std::io;

/// Writes the number that a literal reads as.
pub fn literal<I: Inner, const FRAC: u32>(
    rt: &impl Print,
    _zero: Fixed<I, FRAC>,
    text: &str,
) -> io::Result<()>
    requires { FRAC ≤ I.BITS }
{
    write_number(rt, Fixed::<I, FRAC>::lit(text))
}

/// Writes the result of a reading call.
pub fn read<I: Inner, const FRAC: u32>(
    rt: &impl Print,
    zero: Fixed<I, FRAC>,
    form: &str,
    mode: &str,
    radix: &str,
    text: &str,
) -> io::Result<()>
    requires { FRAC ≤ I.BITS }
{
    match mode {
        "nearest" => read_nearest(rt, zero, form, radix, text),
        other => read_in_mode(rt, zero, form, mode_of(other), radix_of(radix), text),
    }
}

/// Returns the mode of a word, any of the nine.
pub fn mode_of(word: &str) -> ReadMode {
    match word {
        "ties-away" => ReadMode::NearestAway,
        "ties-zero" => ReadMode::NearestZero,
        "ties-up" => ReadMode::NearestUp,
        "ties-down" => ReadMode::NearestDown,
        "floor" => ReadMode::Floor,
        "ceil" => ReadMode::Ceil,
        "zero" => ReadMode::TowardsZero,
        "away" => ReadMode::AwayFromZero,
        _ => ReadMode::NearestEven,
    }
}

fn read_in_mode<I: Inner, const FRAC: u32>(
    rt: &impl Print,
    _zero: Fixed<I, FRAC>,
    form: &str,
    mode: ReadMode,
    radix: Radix,
    text: &str,
) -> io::Result<()>
    requires { FRAC ≤ I.BITS }
{
    let bytes = text.as_bytes();
    match form {
        "plain" => write_number(rt, Fixed::<I, FRAC>::from_ascii_mode(bytes, radix, mode)),
        "saturating" => {
            write_number(
                rt,
                Fixed::<I, FRAC>::saturating_from_ascii_mode(bytes, radix, mode),
            )
        }
        "wrapping" => {
            write_number(
                rt,
                Fixed::<I, FRAC>::wrapping_from_ascii_mode(bytes, radix, mode),
            )
        }
        _ => write_verdict(
            rt,
            Fixed::<I, FRAC>::overflowing_from_ascii_mode(bytes, radix, mode),
        ),
    }
}

/// Writes the result of the call on a text or, if its length is odd, of the call on its bytes.
macro_rules! both_calls {
    ($rt:expr, $form:expr, $text:expr, $plain:ident, $plain_bytes:ident, $saturating:ident, $saturating_bytes:ident,
        $wrapping:ident, $wrapping_bytes:ident, $overflowing:ident, $overflowing_bytes:ident) => {
        match ($form, $text.len() % 2 == 0) {
            ("plain", true) => write_number($rt, Fixed::<I, FRAC>::$plain($text)),
            ("plain", false) => {
                write_number($rt, Fixed::<I, FRAC>::$plain_bytes($text.as_bytes()))
            }
            ("saturating", true) => write_number($rt, Fixed::<I, FRAC>::$saturating($text)),
            ("saturating", false) => {
                write_number($rt, Fixed::<I, FRAC>::$saturating_bytes($text.as_bytes()))
            }
            ("wrapping", true) => write_number($rt, Fixed::<I, FRAC>::$wrapping($text)),
            ("wrapping", false) => {
                write_number($rt, Fixed::<I, FRAC>::$wrapping_bytes($text.as_bytes()))
            }
            (_, true) => write_verdict($rt, Fixed::<I, FRAC>::$overflowing($text)),
            (_, false) => {
                write_verdict($rt, Fixed::<I, FRAC>::$overflowing_bytes($text.as_bytes()))
            }
        }
    };
}

fn read_nearest<I: Inner, const FRAC: u32>(
    rt: &impl Print,
    zero: Fixed<I, FRAC>,
    form: &str,
    radix: &str,
    text: &str,
) -> io::Result<()>
    requires { FRAC ≤ I.BITS }
{
    match radix {
        "2" => read_binary(rt, zero, form, text),
        "8" => read_octal(rt, zero, form, text),
        "16" => read_hexadecimal(rt, zero, form, text),
        _ => read_decimal(rt, zero, form, text),
    }
}

fn read_decimal<I: Inner, const FRAC: u32>(
    rt: &impl Print,
    _zero: Fixed<I, FRAC>,
    form: &str,
    text: &str,
) -> io::Result<()>
    requires { FRAC ≤ I.BITS }
{
    both_calls!(
        rt,
        form,
        text,
        from_str,
        from_ascii,
        saturating_from_str,
        saturating_from_ascii,
        wrapping_from_str,
        wrapping_from_ascii,
        overflowing_from_str,
        overflowing_from_ascii
    )
}

fn read_binary<I: Inner, const FRAC: u32>(
    rt: &impl Print,
    _zero: Fixed<I, FRAC>,
    form: &str,
    text: &str,
) -> io::Result<()>
    requires { FRAC ≤ I.BITS }
{
    both_calls!(
        rt,
        form,
        text,
        from_str_binary,
        from_ascii_binary,
        saturating_from_str_binary,
        saturating_from_ascii_binary,
        wrapping_from_str_binary,
        wrapping_from_ascii_binary,
        overflowing_from_str_binary,
        overflowing_from_ascii_binary
    )
}

fn read_octal<I: Inner, const FRAC: u32>(
    rt: &impl Print,
    _zero: Fixed<I, FRAC>,
    form: &str,
    text: &str,
) -> io::Result<()>
    requires { FRAC ≤ I.BITS }
{
    both_calls!(
        rt,
        form,
        text,
        from_str_octal,
        from_ascii_octal,
        saturating_from_str_octal,
        saturating_from_ascii_octal,
        wrapping_from_str_octal,
        wrapping_from_ascii_octal,
        overflowing_from_str_octal,
        overflowing_from_ascii_octal
    )
}

fn read_hexadecimal<I: Inner, const FRAC: u32>(
    rt: &impl Print,
    _zero: Fixed<I, FRAC>,
    form: &str,
    text: &str,
) -> io::Result<()>
    requires { FRAC ≤ I.BITS }
{
    both_calls!(
        rt,
        form,
        text,
        from_str_hex,
        from_ascii_hex,
        saturating_from_str_hex,
        saturating_from_ascii_hex,
        wrapping_from_str_hex,
        wrapping_from_ascii_hex,
        overflowing_from_str_hex,
        overflowing_from_ascii_hex
    )
}

fn radix_of(word: &str) -> Radix {
    match word {
        "2" => Radix::Bin,
        "8" => Radix::Oct,
        "16" => Radix::Hex,
        _ => Radix::Dec,
    }
}

fn write_number<I: Inner, const FRAC: u32>(
    rt: &impl Print,
    answer: Result<Fixed<I, FRAC>, ParseFixedError>,
) -> io::Result<()> {
    match answer {
        Ok(number) => answers::write_number(rt, number.to_bits().value()),
        Err(error) => write_error(rt, error),
    }
}

fn write_verdict<I: Inner, const FRAC: u32>(
    rt: &impl Print,
    answer: Result<(Fixed<I, FRAC>, bool), ParseFixedError>,
) -> io::Result<()> {
    match answer {
        Ok((number, overflowed)) => {
            answers::write_flagged(rt, number.to_bits().value(), overflowed)
        }
        Err(error) => write_error(rt, error),
    }
}

fn write_error(rt: &impl Print, error: ParseFixedError) -> io::Result<()> {
    println!(rt; "error: {error}")
}
