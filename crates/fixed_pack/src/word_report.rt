//! A report of recoded words: their outcomes, and the word with the greatest error.

ghost use Rattle.std.specs.Prelude.{◌≤◌, length};

use crate::float_words::{FloatWords, WordRefusal};
use crate::recode::WordWatch;
use crate::repack::Repack;
use crate::unpack::frac_of;
use crate::word::{word_bits, word_number};
use fixed_bits::{Format, Policy, ReadMode};
use fixed_command::{Outcome, Spelling, Tally, has_error};
use fixed_float::FloatLayout;
use fixed_numeral::Radix;
use fixed_report::ErrorReport;
use fixed_show::push_hex_digits;
use fixed_steps::Steps;
use itoa::Buffer;
use std::alloc::Global;
use std::sync::ledger::Ledger;
use text_buffer::TextBuffer;

/// A rule of words whose numbers are rounded. Contracts do not describe its results.
pub trait Rounds {
    /// Returns the outcome of a word.
    fn outcome(&self, word: &[u8]) -> Outcome
        requires { length word.now ≤ 8 };

    /// Returns the exact value of a word that is not refused, as a numeral of radix 16.
    fn numeral(&self, word: &[u8]) -> TextBuffer<48>
        requires { length word.now ≤ 8 };

    /// Returns the format that a word's number is rounded to, and the mode.
    fn rounding(&self) -> (Format, ReadMode);
}

/// The outcomes of words and their counts, and the word with the greatest error. Contracts do not describe its
/// contents.
#[derive(Drop)]
pub struct WordReport<R> {
    rule: R,
    /// The outcomes and their counts.
    pub tally: Tally,
    /// The word with the greatest error.
    pub errors: ErrorReport,
}

impl<R: Rounds> WordReport<R> {
    /// Returns a report before the first word.
    pub fn new(alloc: Global, rule: R) -> WordReport<R> {
        let (format, mode) = rule.rounding();
        WordReport {
            rule,
            tally: Tally::new(),
            errors: ErrorReport::new(alloc, Radix::Hex, format, mode),
        }
    }
}

impl<R: Rounds, L: Ledger> WordWatch<WordRefusal, L> for WordReport<R> {
    ghost Saw = { λ report number word cause then. Unit {0} };

    fn see(
        &mut self,
        number: u64,
        word: &[u8],
        _cause: &Option<WordRefusal>,
        steps: &mut Steps<L>,
    ) {
        let outcome = self.rule.outcome(word);
        self.tally.note(number, outcome);
        if has_error(Spelling::Numeral, outcome) {
            let numeral = self.rule.numeral(word);
            self.errors.add(numeral.as_bytes(), number, steps);
        }
    }
}

/// Appends an exponent of two.
fn push_exponent(out: &mut TextBuffer<48>, scale: u64, unit: u64)
    requires { length out.old ≤ 24 }
{
    out.push(b'p');
    let mut digits = Buffer::new();
    if scale < unit {
        out.push(b'-');
        out.push_bytes(digits.format(unit - scale).as_bytes());
    } else {
        out.push_bytes(digits.format(scale - unit).as_bytes());
    }
}

/// Returns the number of fraction bits and of exponent bits of a float, and the exponent at which its significand is
/// the number itself.
fn layout_bits(layout: FloatLayout) -> (u32, u32, u64)
    ensures fraction { result.0 ≤ 52 }
    ensures exponent { result.1 ≤ 11 }
{
    match layout {
        FloatLayout::Binary32 => (23, 8, 150),
        FloatLayout::Binary64 => (52, 11, 1075),
    }
}

/// Returns the exact value of a finite float as a numeral of radix 16.
fn float_numeral(layout: FloatLayout, bits: u64) -> TextBuffer<48> {
    let (fraction_bits, exponent_bits, unit) = layout_bits(layout);
    let fraction = bits % (1 << fraction_bits);
    let above = bits >> fraction_bits;
    let exponent = above % (1 << exponent_bits);
    let mut text = TextBuffer::new();
    if (above >> exponent_bits) % 2 == 1 {
        text.push(b'-');
    }
    if exponent == 0 {
        push_hex_digits(&mut text, fraction, 14);
        push_exponent(&mut text, 1, unit);
    } else {
        push_hex_digits(&mut text, (1 << fraction_bits) + fraction, 14);
        push_exponent(&mut text, exponent, unit);
    }
    text
}

impl Rounds for FloatWords {
    fn outcome(&self, word: &[u8]) -> Outcome {
        match self.read(word_number(word, self.endian)) {
            Err(_) => Outcome::Refused,
            Ok(found) => {
                if found.is_out_of_range_by(self.policy) {
                    match self.policy {
                        Policy::Checked => Outcome::Refused,
                        _ => Outcome::Overflowed,
                    }
                } else if found.is_exact() {
                    Outcome::Exact
                } else {
                    Outcome::Rounded
                }
            }
        }
    }

    fn numeral(&self, word: &[u8]) -> TextBuffer<48> {
        float_numeral(self.layout, word_number(word, self.endian))
    }

    fn rounding(&self) -> (Format, ReadMode) {
        (self.format, self.mode)
    }
}

/// Returns the exact value of bits of a format as a numeral of radix 16.
fn bits_numeral(bits: i128, frac: u32) -> TextBuffer<48> {
    let mut text = TextBuffer::new();
    if bits < 0 {
        text.push(b'-');
    }
    push_hex_digits(&mut text, (bits.unsigned_abs() % (1 << 64)) as u64, 16);
    push_exponent(&mut text, 0, u64::from(frac));
    text
}

/// Whether bits lose no places between two fraction lengths.
fn keeps_places(bits: i128, from: u32, to: u32) -> bool
    requires { from ≤ 64 }
{
    from <= to || bits.unsigned_abs() % (1 << (from - to)) == 0
}

impl Rounds for Repack {
    fn outcome(&self, word: &[u8]) -> Outcome {
        let Some(bits) = word_bits(self.source, word_number(word, self.endian)) else {
            return Outcome::Refused;
        };
        match self.image(bits) {
            None => Outcome::Refused,
            Some((_, true)) => Outcome::Overflowed,
            Some((_, false)) => {
                if keeps_places(bits, frac_of(self.source), frac_of(self.target)) {
                    Outcome::Exact
                } else {
                    Outcome::Rounded
                }
            }
        }
    }

    fn numeral(&self, word: &[u8]) -> TextBuffer<48> {
        match word_bits(self.source, word_number(word, self.endian)) {
            Some(bits) => bits_numeral(bits, frac_of(self.source)),
            None => TextBuffer::new(),
        }
    }

    fn rounding(&self) -> (Format, ReadMode) {
        (self.target, self.target_mode)
    }
}
