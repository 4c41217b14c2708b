//! Reading numerals.

use fixed_bits::{Format, Inner, Policy};
use fixed_numeral::{Radix, scan};
use fixed_read::{ReadMode, overflowing_from_str_radix_mode_counted, read_ending};
use fixed_steps::Steps;
use std::sync::ledger::Ledger;

/// Returns the radix that a word names, else 10.
pub fn radix_of(word: &str) -> Radix {
    match word {
        "2" => Radix::Bin,
        "8" => Radix::Oct,
        "16" => Radix::Hex,
        _ => Radix::Dec,
    }
}

/// Returns the sum of the counts of whole digits of the numerals.
pub fn scan_all<L: Ledger>(
    numerals: &[String],
    radix: Radix,
    times: u32,
    steps: &mut Steps<L>,
) -> i128 {
    let mut sum: i128 = 0;
    for _pass in 0..times {
        for numeral in numerals {
            let count = match scan(numeral.as_bytes(), radix, steps) {
                Ok(found) => i128::from(found.whole().len()),
                Err(_) => 1,
            };
            sum = sum.wrapping_add(count);
        }
    }
    sum
}

/// Returns the sum of the bits that the decimal numerals read as.
fn read_all<I: Inner, L: Ledger>(
    numerals: &[String],
    frac: u32,
    times: u32,
    steps: &mut Steps<L>,
) -> i128 {
    let mut sum: i128 = 0;
    if frac > I::BITS {
        return sum;
    }
    for _pass in 0..times {
        for numeral in numerals {
            let bits = match overflowing_from_str_radix_mode_counted::<I, L>(
                numeral.as_bytes(),
                Radix::Dec,
                frac,
                ReadMode::NearestEven,
                steps,
            ) {
                Ok((bits, _)) => bits.value(),
                Err(_) => 1,
            };
            sum = sum.wrapping_add(bits);
        }
    }
    sum
}

/// `read_all` for the format that a word names.
pub fn read_as<L: Ledger>(
    format: &str,
    numerals: &[String],
    times: u32,
    steps: &mut Steps<L>,
) -> i128 {
    match format {
        "I4F4" => read_all::<i8, L>(numerals, 4, times, steps),
        "U16F16" => read_all::<u32, L>(numerals, 16, times, steps),
        "I32F32" => read_all::<i64, L>(numerals, 32, times, steps),
        "U0F64" => read_all::<u64, L>(numerals, 64, times, steps),
        _ => -1,
    }
}

/// Returns the sum of the bits of I32F32 that the numerals at the ends of the lines read as, from byte `from` on.
pub fn read_endings<L: Ledger>(
    lines: &[String],
    from: usize,
    radix: Radix,
    times: u32,
    steps: &mut Steps<L>,
) -> i128 {
    let format = Format::of(true, 64, 32);
    let mut sum: i128 = 0;
    for _pass in 0..times {
        for line in lines {
            let text = line.as_bytes();
            let place = from.min(text.len());
            let bits = match read_ending(text, place, radix, format, ReadMode::NearestEven, steps) {
                Ok(found) => found.image(Policy::Wrapping).unwrap_or(1),
                Err(_) => 1,
            };
            sum = sum.wrapping_add(bits);
        }
    }
    sum
}
