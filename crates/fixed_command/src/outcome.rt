//! Outcomes of conversions (exact, rounded, overflowed, refused) and their counts.
//!
//! A report reads each numeral once more, so a conversion without a report costs nothing. After a failed write there is
//! no report, because some of the counted answers were not written.

ghost use Rattle.std.specs.Prelude.{◌≡◌, ◌↔◌, ◌<◌, ◌≤◌, ◌+◌, ◌*◌, ◌^◌, ◌++◌, [], IsTrue, length, unsigned_abs};
ghost use Rattle.std.specs.Fmt.{decimal};
ghost use Rattle.fixed_bits.specs.Ranges.{IsWide};
ghost use Rattle.fixed_command.specs.Outcome.{IsOutcome, IsWholeMoved, IsWholeSource, first_of, first_text, noted};
ghost use Rattle.fixed_command.specs.Outcome.{has_error, one_more, outcome_by, place_text, tally_text, total};
ghost use Rattle.fixed_command.specs.Convert.{IsSource};
ghost use Rattle.fixed_read.specs.Reading.{IsMultipleOf};
ghost use Rattle.fixed_report.specs.Report.{HasReport, HasSums};

use crate::convert::{Settings, frac_of, source_number};
use crate::spelling::Spelling;
use fixed_convert::reformat_mode;
use fixed_report::ErrorReport;
use fixed_show::Shown;
use fixed_steps::Steps;
use itoa::Buffer;
use std::alloc::Global;
use std::sync::ledger::Ledger;
use text_buffer::TextBuffer;

/// The outcome of a numeral's conversion.
#[derive(Clone, Copy, Debug, PartialEq, Eq)]
pub enum Outcome {
    /// It is a number of the target.
    Exact,
    /// It was rounded.
    Rounded,
    /// It was out of the range of a format, and the policy brought it back.
    Overflowed,
    /// It has no number.
    Refused,
}

/// Returns a power of two.
fn power(exponent: u32) -> u128
    requires { exponent ≤ 64 }
    ensures value { result ≡ 2 ^ exponent }
    ensures some { 0 < result }
    ensures most { result ≤ 2 ^ 64 }
{
    1 << exponent
}

/// Whether a number is a multiple of a power of two. A division of 128 bits is slow.
fn is_multiple(number: u128, exponent: u32) -> bool
    requires { exponent ≤ 64 }
    ensures { IsTrue result ↔ IsMultipleOf (2 ^ exponent) number }
{
    (number >> exponent) * power(exponent) == number
}

/// Returns the magnitude of a number of at most 64 bits.
fn magnitude_of(number: i128) -> u64
    requires { IsWide number }
    ensures { result ≡ unsigned_abs number }
{
    number.unsigned_abs() as u64
}

/// Returns a number of at most 64 bits times a power of two.
fn scaled(number: u64, exponent: u32) -> u128
    requires { exponent ≤ 64 }
    ensures { result ≡ number * 2 ^ exponent }
{
    u128::from(number) * power(exponent)
}

/// Whether a number of ulps of 2^-`from` is a whole number of ulps of 2^-`to`.
fn is_whole_moved(number: i128, from: u32, to: u32) -> bool
    requires wide { IsWide number }
    requires from { from ≤ 64 }
    requires to { to ≤ 64 }
    ensures { IsTrue result ↔ IsWholeMoved number from to }
{
    is_multiple(scaled(magnitude_of(number), to), from)
}

/// Whether nothing is rounded, neither into the source nor on the way to the target.
fn is_exact(settings: &Settings, numeral: &[u8], number: i128, is_whole: bool) -> bool
    requires wide { IsWide number }
    requires whole { IsTrue is_whole ↔ IsWholeSource settings.now.spelling settings.now numeral.now }
    ensures { IsTrue result ↔ (IsWholeSource settings.now.spelling settings.now numeral.now
        × IsWholeMoved number settings.now.source.frac settings.now.target.frac) }
{
    let from = frac_of(settings.source);
    let to = frac_of(settings.target);
    is_whole & is_whole_moved(number, from, to)
}

/// Returns the outcome, by whether a number was out of its format, and whether nothing was rounded.
fn outcome_by(is_overflowed: bool, is_exact: bool) -> Outcome
    ensures { result ≡ outcome_by is_overflowed is_exact }
{
    if is_overflowed {
        Outcome::Overflowed
    } else if is_exact {
        Outcome::Exact
    } else {
        Outcome::Rounded
    }
}

/// Returns the outcome of moving a number of the source to the target.
fn moved_outcome(settings: &Settings, numeral: &[u8], found: &Shown) -> Outcome
    requires wide { IsWide found.now.bits }
    requires source { IsSource settings.now.spelling settings.now numeral.now found.now.bits found.now.overflowed }
    requires whole { IsTrue found.now.is_exact ↔ IsWholeSource settings.now.spelling settings.now numeral.now }
    ensures { IsOutcome result settings.now numeral.now }
{
    let s = settings;
    let from = frac_of(s.source);
    match reformat_mode(s.target, s.policy, s.target_mode, found.bits, from) {
        None => Outcome::Refused,
        Some((_bits, target_overflowed)) => {
            let is_overflowed = found.overflowed | target_overflowed;
            outcome_by(
                is_overflowed,
                is_exact(s, numeral, found.bits, found.is_exact),
            )
        }
    }
}

/// Returns the outcome of the conversion of a numeral or a register word.
pub fn outcome_of<L: Ledger>(settings: &Settings, numeral: &[u8], steps: &mut Steps<L>) -> Outcome
    ensures outcome { IsOutcome result settings.now numeral.now }
    ensures cost { steps.new ≤ steps.old + 16 * length numeral.now + 704 }
{
    match source_number(settings, numeral, steps) {
        Err(_) => Outcome::Refused,
        Ok(found) => moved_outcome(settings, numeral, &found),
    }
}

/// Whether a numeral with this outcome has an error: it is in range of both formats, and not a register word.
pub fn has_error(spelling: Spelling, outcome: Outcome) -> bool
    ensures { result ≡ has_error spelling outcome }
{
    match spelling {
        Spelling::Numeral => match outcome {
            Outcome::Exact => true,
            Outcome::Rounded => true,
            Outcome::Overflowed => false,
            Outcome::Refused => false,
        },
        Spelling::Word => false,
    }
}

/// Returns an empty report of the greatest error of numerals that are read into the source.
pub fn error_report(alloc: Global, settings: &Settings) -> ErrorReport
    ensures radix { result.radix ≡ settings.now.radix }
    ensures format { result.format ≡ settings.now.source }
    ensures mode { result.mode ≡ settings.now.mode }
    ensures none { HasReport settings.now.mode settings.now.radix settings.now.source [] result.lost
        result.greatest }
    ensures no_sums { HasSums settings.now.mode settings.now.radix settings.now.source [] result.lost result.sums }
{
    ErrorReport::new(alloc, settings.radix, settings.source, settings.mode)
}

/// The counts of an input's numerals by outcome, and where the first one overflowed or was refused.
#[derive(Clone, Copy, Debug, PartialEq, Eq)]
pub struct Tally {
    /// How many are numbers of the target.
    pub exact: u64,
    /// How many were rounded.
    pub rounded: u64,
    /// How many were out of range and brought back.
    pub overflowed: u64,
    /// How many have no number.
    pub refused: u64,
    /// The line, or record, of the first that overflowed, from 1; 0 if there is none.
    pub first_overflowed: u64,
    /// The line, or record, of the first that was refused, from 1; 0 if there is none.
    pub first_refused: u64,
}

/// Adds one to a count, up to the greatest count.
pub(crate) fn one_more(count: u64) -> u64
    ensures { result ≡ one_more count }
{
    if count == u64::MAX { count } else { count + 1 }
}

/// Returns the first line or record: `first` unless it is 0, then `place`.
fn first_of(first: u64, place: u64) -> u64
    ensures { result ≡ first_of first place }
{
    if first == 0 { place } else { first }
}

impl Tally {
    /// Returns a tally of no numerals.
    pub fn new() -> Tally
        ensures { result ≡ record {
          exact = 0;
          rounded = 0;
          overflowed = 0;
          refused = 0;
          first_overflowed = 0;
          first_refused = 0;
        } }
    {
        Tally {
            exact: 0,
            rounded: 0,
            overflowed: 0,
            refused: 0,
            first_overflowed: 0,
            first_refused: 0,
        }
    }

    /// Counts all numerals, up to the greatest count.
    pub fn total(&self) -> u64
        ensures { result ≡ total self.now }
    {
        total_of(self)
    }

    /// Counts an outcome, in the line or record of this number.
    pub fn note(&mut self, place: u64, outcome: Outcome)
        ensures { self.new ≡ noted self.old place outcome }
    {
        match outcome {
            Outcome::Exact => self.exact = one_more(self.exact),
            Outcome::Rounded => self.rounded = one_more(self.rounded),
            Outcome::Overflowed => {
                self.overflowed = one_more(self.overflowed);
                self.first_overflowed = first_of(self.first_overflowed, place);
            }
            Outcome::Refused => {
                self.refused = one_more(self.refused);
                self.first_refused = first_of(self.first_refused, place);
            }
        }
    }
}

/// Where a numeral is: in a line, or in a record.
#[derive(Clone, Copy, Debug, PartialEq, Eq)]
pub enum Place {
    /// A line.
    Line,
    /// A record of CSV.
    Record,
}

/// The name of a place.
pub fn place_name(place: Place) -> &'static str
    ensures name { result.now ≡ place_text place }
    ensures short { length result.now ≤ 6 }
{
    match place {
        Place::Line => "line",
        Place::Record => "record",
    }
}

/// The length of the longest text of a tally, in bytes.
pub const MAX_TALLY: usize = 320;

/// Appends a count.
fn push_count(out: &mut TextBuffer<MAX_TALLY>, count: u64)
    requires { length out.old + 20 ≤ 320 }
    ensures appended { out.new ≡ out.old ++ decimal count }
    ensures short { length out.new ≤ length out.old + 20 }
{
    let mut digits = Buffer::new();
    out.push_bytes(digits.format(count).as_bytes());
}

/// Appends the place of the first one, or nothing if there is none.
fn push_first(out: &mut TextBuffer<MAX_TALLY>, first: u64, place: Place)
    requires room { length out.old + 45 ≤ 320 }
    ensures appended { out.new ≡ out.old ++ first_text place first }
    ensures short { length out.new ≤ length out.old + 45 }
{
    if first > 0 {
        out.push_bytes(b" (the first in ");
        out.push_bytes(place_name(place).as_bytes());
        out.push(b' ');
        push_count(out, first);
        out.push(b')');
    }
}

/// Counts all numerals, up to the greatest count.
fn total_of(tally: &Tally) -> u64
    ensures { result ≡ total tally.now }
{
    let through = tally.exact.saturating_add(tally.rounded);
    through
        .saturating_add(tally.overflowed)
        .saturating_add(tally.refused)
}

/// Returns the text of a tally of numerals in lines or in records.
pub fn tally_text(tally: &Tally, place: Place) -> TextBuffer<MAX_TALLY>
    ensures { result ≡ tally_text place tally.now }
{
    let mut text = TextBuffer::new();
    push_tally(&mut text, tally, place);
    text
}

/// Appends the text of a tally.
fn push_tally(out: &mut TextBuffer<MAX_TALLY>, tally: &Tally, place: Place)
    requires empty { out.old ≡ [] }
    ensures { out.new ≡ tally_text place tally.now }
{
    out.push_bytes(b"numerals: ");
    push_count(out, total_of(tally));
    out.push_bytes(b", exact: ");
    push_count(out, tally.exact);
    out.push_bytes(b", rounded: ");
    push_count(out, tally.rounded);
    out.push_bytes(b", overflowed: ");
    push_count(out, tally.overflowed);
    push_first(out, tally.first_overflowed, place);
    out.push_bytes(b", refused: ");
    push_count(out, tally.refused);
    push_first(out, tally.first_refused, place);
}
