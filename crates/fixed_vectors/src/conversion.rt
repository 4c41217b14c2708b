//! The conversion calls.

ghost use Rattle.std.specs.Prelude.{◌≤◌};

use crate::answers::{write_flagged, write_number, write_words};
use crate::words::at_pair_format;
use fixed_bits::Inner;
use fixed_convert::{Num, NumTarget};
use fixed_point::Fixed;
use std::io;

/// Writes the result of a conversion: `FORM SOURCE TARGET BITS`. Even bits go through `to_num` if the source is a
/// `Fixed`, all others through `from_num`.
pub fn answer(
    rt: &impl Print,
    form: &str,
    source: &str,
    target: &str,
    bits: i128,
) -> io::Result<()> {
    at_pair_format!(
        source,
        bits,
        from_fixed(form, target, bits % 2 == 0),
        rt,
        from_integer(rt, form, source, target, bits)
    )
}

fn from_fixed<I: Inner, const FRAC: u32>(
    rt: &impl Print,
    x: Fixed<I, FRAC>,
    form: &str,
    target: &str,
    by_to_num: bool,
) -> io::Result<()>
    requires { FRAC ≤ I.BITS }
{
    if by_to_num {
        to_each(rt, x, form, target)
    } else {
        from_each(rt, x, form, target)
    }
}

fn from_integer(
    rt: &impl Print,
    form: &str,
    source: &str,
    target: &str,
    bits: i128,
) -> io::Result<()> {
    match source {
        "i8" => from_each(rt, i8::wrap(bits), form, target),
        "u8" => from_each(rt, u8::wrap(bits), form, target),
        "i64" => from_each(rt, i64::wrap(bits), form, target),
        "u64" => from_each(rt, u64::wrap(bits), form, target),
        _ => write_words(rt, "unknown type"),
    }
}

fn to_each<I: Inner, const FRAC: u32>(
    rt: &impl Print,
    x: Fixed<I, FRAC>,
    form: &str,
    target: &str,
) -> io::Result<()>
    requires { FRAC ≤ I.BITS }
{
    match target {
        "i8" => to_num(rt, 0i8, x, form),
        "u8" => to_num(rt, 0u8, x, form),
        "i64" => to_num(rt, 0i64, x, form),
        "u64" => to_num(rt, 0u64, x, form),
        _ => to_format(rt, x, form, target),
    }
}

fn to_format<I: Inner, const FRAC: u32>(
    rt: &impl Print,
    x: Fixed<I, FRAC>,
    form: &str,
    target: &str,
) -> io::Result<()>
    requires { FRAC ≤ I.BITS }
{
    at_pair_format!(
        target,
        0,
        to_num(x, form),
        rt,
        write_words(rt, "unknown type")
    )
}

fn to_num<D: NumTarget, I: Inner, const FRAC: u32>(
    rt: &impl Print,
    _zero: D,
    x: Fixed<I, FRAC>,
    form: &str,
) -> io::Result<()>
    requires source { FRAC ≤ I.BITS }
    requires target { D.FRAC ≤ D.WIDTH }
{
    match form {
        "saturating" => write_wide(rt, x.saturating_to_num::<D>()),
        "wrapping" => write_wide(rt, x.wrapping_to_num::<D>()),
        "overflowing" => {
            let (number, overflowed) = x.overflowing_to_num::<D>();
            write_flagged(rt, number.to_wide(), overflowed)
        }
        _ => match x.checked_to_num::<D>() {
            None => write_words(rt, "none"),
            Some(number) => match form {
                "checked" => write_wide(rt, number),
                _ => write_wide(rt, x.to_num::<D>()),
            },
        },
    }
}

/// Converts a number of any type to each format with `from_num`. An integer target is a format without fraction bits.
fn from_each<S: NumTarget>(rt: &impl Print, src: S, form: &str, target: &str) -> io::Result<()>
    requires { S.FRAC ≤ S.WIDTH }
{
    at_pair_format!(
        target,
        0,
        from_num(src, form),
        rt,
        to_integer(rt, src, form, target)
    )
}

fn to_integer<S: NumTarget>(rt: &impl Print, src: S, form: &str, target: &str) -> io::Result<()>
    requires { S.FRAC ≤ S.WIDTH }
{
    match target {
        "i8" => from_num(rt, Fixed::<i8, 0>::from_bits(0), src, form),
        "u8" => from_num(rt, Fixed::<u8, 0>::from_bits(0), src, form),
        "i64" => from_num(rt, Fixed::<i64, 0>::from_bits(0), src, form),
        "u64" => from_num(rt, Fixed::<u64, 0>::from_bits(0), src, form),
        _ => write_words(rt, "unknown type"),
    }
}

fn from_num<S: Num, I: Inner, const FRAC: u32>(
    rt: &impl Print,
    _zero: Fixed<I, FRAC>,
    src: S,
    form: &str,
) -> io::Result<()>
    requires source { S.FRAC ≤ S.WIDTH }
    requires target { FRAC ≤ I.BITS }
{
    match form {
        "saturating" => write_wide(rt, Fixed::<I, FRAC>::saturating_from_num(src)),
        "wrapping" => write_wide(rt, Fixed::<I, FRAC>::wrapping_from_num(src)),
        "overflowing" => {
            let (number, overflowed) = Fixed::<I, FRAC>::overflowing_from_num(src);
            write_flagged(rt, number.to_wide(), overflowed)
        }
        _ => match Fixed::<I, FRAC>::checked_from_num(src) {
            None => write_words(rt, "none"),
            Some(number) => match form {
                "checked" => write_wide(rt, number),
                _ => write_wide(rt, Fixed::<I, FRAC>::from_num(src)),
            },
        },
    }
}

fn write_wide<N: Num>(rt: &impl Print, number: N) -> io::Result<()> {
    write_number(rt, number.to_wide())
}
