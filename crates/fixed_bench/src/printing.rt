//! Printing bits.

ghost use Rattle.std.specs.Prelude.{◌≤◌};
ghost use Rattle.fixed_bits.specs.Ranges.{IsWide};

use fixed_bits::ReadMode;
use fixed_steps::Steps;
use fixed_write::{Notation, Style, push_decimal, push_shortest, shortest, to_text};
use std::alloc::{AllocError, Global};
use std::sync::ledger::Ledger;
use text_buffer::TextBuffer;

/// Bits of at most 64 bits, as a sign and a magnitude.
#[derive(Clone, Copy)]
pub struct SignedBits {
    negative: bool,
    magnitude: u64,
}

impl SignedBits {
    /// Returns the bits that a line spells in decimal, else 0.
    fn of(line: &str) -> SignedBits {
        let (negative, digits) = match line.strip_prefix('-') {
            Some(digits) => (true, digits),
            None => (false, line),
        };
        let magnitude = match digits.parse::<u64>() {
            Ok(magnitude) => magnitude,
            Err(_) => 0,
        };
        SignedBits {
            negative,
            magnitude,
        }
    }

    /// Returns the bits, 0 if they are below those of each signed type.
    #[inline]
    pub fn value(self) -> i128
        ensures { IsWide result }
    {
        if self.negative && self.magnitude > 1 << 63 {
            0
        } else if self.negative {
            -i128::from(self.magnitude)
        } else {
            i128::from(self.magnitude)
        }
    }
}

/// Returns the bits of each line.
pub fn bits_of(alloc: Global, inputs: &[String]) -> Result<Vec<SignedBits>, AllocError> {
    let mut all = Vec::new(alloc);
    for input in inputs {
        all.push(SignedBits::of(input.as_str()))?;
    }
    Ok(all)
}

/// Returns the fraction length of the format that a word names.
fn frac_of(format: &str) -> u32
    ensures { result ≤ 64 }
{
    match format {
        "I4F4" => 4,
        "U16F16" => 16,
        "I32F32" => 32,
        _ => 64,
    }
}

/// Returns the sum of the lengths and of the last bytes of the shortest texts, each a separate text.
pub fn write_as<L: Ledger>(
    format: &str,
    all: &[SignedBits],
    times: u32,
    steps: &mut Steps<L>,
) -> i128 {
    let frac = frac_of(format);
    let mut sum: i128 = 0;
    for _pass in 0..times {
        for bits in all {
            let text = shortest(bits.value(), frac, steps);
            sum = sum.wrapping_add(weight(text.as_bytes()));
        }
    }
    sum
}

/// Returns the sum of the lengths and of the last bytes of the shortest texts, written in place.
// It is not inlined, so that the registers of its loop do not depend on the other calls.
#[inline(never)]
pub fn append_as<L: Ledger>(
    format: &str,
    all: &[SignedBits],
    times: u32,
    steps: &mut Steps<L>,
) -> i128 {
    let frac = frac_of(format);
    let mut out: TextBuffer<256> = TextBuffer::new();
    let mut sum: i128 = 0;
    for _pass in 0..times {
        for bits in all {
            out.clear();
            push_shortest(&mut out, bits.value(), frac, steps);
            sum = sum.wrapping_add(weight(out.as_bytes()));
        }
    }
    sum
}

/// Returns the sum of the lengths and of the last bytes of the texts to a count of places, written in place.
// It is not inlined, as `append_as` is not.
#[inline(never)]
pub fn places_as(format: &str, all: &[SignedBits], places: u32, times: u32) -> i128 {
    let frac = frac_of(format);
    let mut out: TextBuffer<256> = TextBuffer::new();
    let mut sum: i128 = 0;
    if places > 64 {
        return sum;
    }
    for _pass in 0..times {
        for bits in all {
            out.clear();
            push_decimal(&mut out, bits.value(), frac, places, ReadMode::NearestEven);
            sum = sum.wrapping_add(weight(out.as_bytes()));
        }
    }
    sum
}

/// Returns the sum of the lengths and of the last bytes of the texts to a count of places, each allocated separately.
pub fn styled_as(format: &str, alloc: Global, all: &[SignedBits], places: u16, times: u32) -> i128 {
    let frac = frac_of(format);
    let mut style = Style::plain(Notation::Dec);
    style.precision = Some(places);
    let mut sum: i128 = 0;
    for _pass in 0..times {
        for bits in all {
            let part = match to_text(alloc, bits.value(), frac, &style) {
                Ok(text) => weight(text.as_bytes()),
                Err(_) => 1,
            };
            sum = sum.wrapping_add(part);
        }
    }
    sum
}

/// Returns the length of a text plus its last byte.
#[inline]
fn weight(text: &[u8]) -> i128 {
    let last = match text.last() {
        Some(last) => i128::from(*last),
        None => 0,
    };
    last + i128::from(text.len() as u64)
}
