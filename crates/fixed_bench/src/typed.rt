//! The number type: reading, printing, rounding, conversion and order. The measured cost of a loop of a few
//! instructions would depend on the code around it, so such a loop is a separate function.

ghost use Rattle.std.specs.Prelude.{◌≤◌};

use crate::printing::SignedBits;
use fixed_bits::Inner;
use fixed_point::{Fixed, FixedI32, FixedI64, FixedU16, FixedU32};
use std::alloc::{AllocError, Global};
use std::cmp::Ordering;
use std::fmt::Write;

/// The operation on each number.
#[derive(Clone, Copy)]
pub enum Work {
    Round,
    Convert,
    Compare,
}

/// Returns the work that a word names.
pub fn work_of(word: &str) -> Option<Work> {
    match word {
        "round" => Some(Work::Round),
        "convert" => Some(Work::Convert),
        "compare" => Some(Work::Compare),
        _ => None,
    }
}

/// Returns the sum of the bits that the decimal numerals read as, by the number type of the format that a word names.
pub fn read_as(format: &str, numerals: &[String], times: u32) -> i128 {
    match format {
        "U16F16" => read_u16f16(numerals, times),
        "I32F32" => read_i32f32(numerals, times),
        _ => -1,
    }
}

/// Returns the sum of the bits that the decimal numerals read as in U16F16.
fn read_u16f16(numerals: &[String], times: u32) -> i128 {
    let mut sum: i128 = 0;
    for _pass in 0..times {
        for numeral in numerals {
            let bits = match FixedU32::<16>::overflowing_from_str(numeral.as_str()) {
                Ok((number, _)) => number.to_bits(),
                Err(_) => 1,
            };
            sum = sum.wrapping_add(i128::from(bits));
        }
    }
    sum
}

/// Returns the sum of the bits that the decimal numerals read as in I32F32.
fn read_i32f32(numerals: &[String], times: u32) -> i128 {
    let mut sum: i128 = 0;
    for _pass in 0..times {
        for numeral in numerals {
            let bits = match FixedI64::<32>::overflowing_from_str(numeral.as_str()) {
                Ok((number, _)) => number.to_bits(),
                Err(_) => 1,
            };
            sum = sum.wrapping_add(i128::from(bits));
        }
    }
    sum
}

/// Returns the numbers with these bits.
fn numbers_of<I: Inner, const FRAC: u32>(
    alloc: Global,
    all: &[SignedBits],
) -> Result<Vec<Fixed<I, FRAC>>, AllocError> {
    let mut numbers = Vec::new(alloc);
    for bits in all {
        numbers.push(Fixed::from_bits(I::wrap(bits.value())))?;
    }
    Ok(numbers)
}

/// Returns the sum of the work's results for each number.
fn work_all<I: Inner, const FRAC: u32>(work: Work, numbers: &[Fixed<I, FRAC>], times: u32) -> i128
    requires { FRAC ≤ I.BITS }
{
    match work {
        Work::Round => round_all(numbers, times),
        Work::Convert => convert_all(numbers, times),
        Work::Compare => compare_all(numbers, times),
    }
}

/// Returns the sum of the bits of the nearest whole numbers.
#[inline(never)]
fn round_all<I: Inner, const FRAC: u32>(numbers: &[Fixed<I, FRAC>], times: u32) -> i128
    requires { FRAC ≤ I.BITS }
{
    let mut sum: i128 = 0;
    for _pass in 0..times {
        for number in numbers {
            let (rounded, _) = number.overflowing_round();
            sum = sum.wrapping_add(rounded.to_bits().value());
        }
    }
    sum
}

/// Returns the sum of the bits that the numbers have in I16F16.
#[inline(never)]
fn convert_all<I: Inner, const FRAC: u32>(numbers: &[Fixed<I, FRAC>], times: u32) -> i128
    requires { FRAC ≤ I.BITS }
{
    let mut sum: i128 = 0;
    for _pass in 0..times {
        for number in numbers {
            let (converted, _) = number.overflowing_to_num::<FixedI32<16>>();
            sum = sum.wrapping_add(i128::from(converted.to_bits()));
        }
    }
    sum
}

/// Counts the numbers that are greater than one of U8F8.
#[inline(never)]
fn compare_all<I: Inner, const FRAC: u32>(numbers: &[Fixed<I, FRAC>], times: u32) -> i128 {
    let limit = FixedU16::<8>::from_bits(3200);
    let mut sum: i128 = 0;
    for _pass in 0..times {
        for number in numbers {
            if number.cmp_num(limit) == Ordering::Greater {
                sum = sum.wrapping_add(1);
            }
        }
    }
    sum
}

/// `work_all` for the format that a word names.
pub fn work_as(
    work: Work,
    format: &str,
    alloc: Global,
    all: &[SignedBits],
    times: u32,
) -> Result<i128, AllocError> {
    let sum = match format {
        "I4F4" => work_all(work, &numbers_of::<i8, 4>(alloc, all)?, times),
        "U16F16" => work_all(work, &numbers_of::<u32, 16>(alloc, all)?, times),
        "I32F32" => work_all(work, &numbers_of::<i64, 32>(alloc, all)?, times),
        "U0F64" => work_all(work, &numbers_of::<u64, 64>(alloc, all)?, times),
        _ => -1,
    };
    Ok(sum)
}

/// Returns the sum of the lengths of the texts that Display writes.
fn display_all<I: Inner, const FRAC: u32>(
    alloc: Global,
    numbers: &[Fixed<I, FRAC>],
    times: u32,
) -> i128 {
    let mut text = String::new(alloc);
    let mut sum: i128 = 0;
    for _pass in 0..times {
        for number in numbers {
            text.clear();
            if write!(text, "{number}").is_err() {
                return -1;
            }
            sum = sum.wrapping_add(i128::from(text.len() as u64));
        }
    }
    sum
}

/// Returns the sum of the lengths of the texts that Display writes with two places.
fn display_places_all<I: Inner, const FRAC: u32>(
    alloc: Global,
    numbers: &[Fixed<I, FRAC>],
    times: u32,
) -> i128 {
    let mut text = String::new(alloc);
    let mut sum: i128 = 0;
    for _pass in 0..times {
        for number in numbers {
            text.clear();
            if write!(text, "{number:.2}").is_err() {
                return -1;
            }
            sum = sum.wrapping_add(i128::from(text.len() as u64));
        }
    }
    sum
}

/// `display_all` for the format that a word names.
pub fn display_as(
    format: &str,
    alloc: Global,
    all: &[SignedBits],
    times: u32,
) -> Result<i128, AllocError> {
    let sum = match format {
        "U16F16" => display_all(alloc, &numbers_of::<u32, 16>(alloc, all)?, times),
        "I32F32" => display_all(alloc, &numbers_of::<i64, 32>(alloc, all)?, times),
        _ => -1,
    };
    Ok(sum)
}

/// `display_places_all` for the format that a word names.
pub fn display_places_as(
    format: &str,
    alloc: Global,
    all: &[SignedBits],
    times: u32,
) -> Result<i128, AllocError> {
    let sum = match format {
        "U16F16" => display_places_all(alloc, &numbers_of::<u32, 16>(alloc, all)?, times),
        "I32F32" => display_places_all(alloc, &numbers_of::<i64, 32>(alloc, all)?, times),
        _ => -1,
    };
    Ok(sum)
}
