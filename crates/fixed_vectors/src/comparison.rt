//! The comparisons.

use crate::answers::{write_order, write_words};
use crate::words::at_pair_format;
use fixed_bits::Inner;
use fixed_convert::NumTarget;
use fixed_point::Fixed;
use std::io;

/// Writes the order of two numbers and the results of the five comparisons: `TYPE TYPE BITS BITS`.
pub fn answer(
    rt: &impl Print,
    one: &str,
    other: &str,
    bits: i128,
    against: i128,
) -> io::Result<()> {
    match one {
        "i8.100" => with_each(
            rt,
            Fixed::<i8, 100>::from_bits(Inner::wrap(bits)),
            other,
            against,
        ),
        "u8.100" => with_each(
            rt,
            Fixed::<u8, 100>::from_bits(Inner::wrap(bits)),
            other,
            against,
        ),
        "i64.64" => with_each(
            rt,
            Fixed::<i64, 64>::from_bits(Inner::wrap(bits)),
            other,
            against,
        ),
        "u64.3000" => with_each(
            rt,
            Fixed::<u64, 3000>::from_bits(Inner::wrap(bits)),
            other,
            against,
        ),
        _ => at_pair_format!(
            one,
            bits,
            with_each(other, against),
            rt,
            write_words(rt, "unknown type")
        ),
    }
}

fn with_each<I: Inner, const FRAC: u32>(
    rt: &impl Print,
    x: Fixed<I, FRAC>,
    other: &str,
    against: i128,
) -> io::Result<()> {
    match other {
        "i8" => compare(rt, i8::wrap(against), x),
        "u8" => compare(rt, u8::wrap(against), x),
        "i64" => compare(rt, i64::wrap(against), x),
        "u64" => compare(rt, u64::wrap(against), x),
        "i8.100" => compare(rt, Fixed::<i8, 100>::from_bits(Inner::wrap(against)), x),
        "u8.100" => compare(rt, Fixed::<u8, 100>::from_bits(Inner::wrap(against)), x),
        "i64.64" => compare(rt, Fixed::<i64, 64>::from_bits(Inner::wrap(against)), x),
        "u64.3000" => compare(rt, Fixed::<u64, 3000>::from_bits(Inner::wrap(against)), x),
        _ => with_format(rt, x, other, against),
    }
}

fn with_format<I: Inner, const FRAC: u32>(
    rt: &impl Print,
    x: Fixed<I, FRAC>,
    other: &str,
    against: i128,
) -> io::Result<()> {
    at_pair_format!(
        other,
        against,
        compare(x),
        rt,
        write_words(rt, "unknown type")
    )
}

fn compare<R: NumTarget, I: Inner, const FRAC: u32>(
    rt: &impl Print,
    rhs: R,
    x: Fixed<I, FRAC>,
) -> io::Result<()> {
    let answers = [
        x.eq_num(rhs),
        x.lt_num(rhs),
        x.le_num(rhs),
        x.gt_num(rhs),
        x.ge_num(rhs),
    ];
    write_order(rt, x.cmp_num(rhs), answers)
}
