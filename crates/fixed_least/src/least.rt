//! The least format that holds a list exactly, and for each lesser format a numeral that it does not hold.

ghost use Rattle.std.specs.Prelude.{◌≡◌, ◌≤◌, ◌<◌, ◌+◌, ◌++◌, ◌↔◌, ℕ, List, length, false, get_or, replicate};
ghost use Rattle.std.specs.Prelude.{IfOk, IfErr, MatchOption};
ghost use Rattle.fixed_bits.specs.Formats.{FormatParts, IsTypeFormat};
ghost use Rattle.fixed_bits.specs.Order.{rank};
ghost use Rattle.line_engine.specs.Lines.{lines};
ghost use Rattle.fixed_least.specs.Inner.Slots.{slot_of};
ghost use Rattle.fixed_least.specs.Least.{IsHeadText, IsLeast, IsLeastLine, IsNoNumeral, IsRefutedText};

use crate::exact::exact_of;
use crate::slots::{SLOTS, all_lengths, refute, slot_of};
use fixed_bits::{FORMAT_COUNT, Format, format_at};
use fixed_numeral::{ParseFixedError, Radix};
use fixed_respell::format_name;
use fixed_steps::Steps;
use itoa::Buffer;
use line_engine::{Answer, first_line};
use std::marker::Model;
use std::sync::ledger::Ledger;
use text_buffer::TextBuffer;

/// Why a text is not a list of numerals.
#[derive(Clone, Copy, Debug, PartialEq, Eq)]
pub enum LeastFault {
    /// The line with this number, from 1, is not a numeral.
    NotNumeral {
        /// The line number.
        place: u64,
        /// The reason.
        error: ParseFixedError,
    },
}

/// For each format before the least one, in the order of formats, the line number of a numeral that it does not hold.
#[derive(Drop)]
pub struct Least {
    places: [u64; FORMAT_COUNT],
    refuted: usize,
}

impl Model for Least {
    ghost use Rattle.std.specs.Prelude.{List, ℕ, take, ◌≤◌};
    ghost use Rattle.fixed_bits.specs.declared.order.TheConstants.{FORMAT_COUNT};

    ghost Value = { List ℕ };

    ghost view = { λ l. take l.refuted l.places };

    ghost invariant = { λ l. l.refuted ≤ FORMAT_COUNT };
}

/// Returns the format with a rank.
fn format_of_rank(i: usize) -> Format
    requires { i < FORMAT_COUNT }
    ensures format { IsTypeFormat result.width result.frac }
    ensures rank { rank result ≡ i }
{
    format_at(i).unwrap()
}

/// Returns the line number in the slot of the format with a rank.
fn place_of_rank(slots: &[u64; SLOTS], i: usize) -> u64
    requires { i < FORMAT_COUNT }
    ensures { (f : FormatParts) → IsTypeFormat f.width f.frac → rank f ≡ i → result ≡ get_or slots.now (slot_of f) 0 }
{
    slots[slot_of(format_of_rank(i))]
}

/// Returns the least format without a line number in its slot, and the line numbers of the formats before it.
fn least_of(slots: &[u64; SLOTS]) -> Least
    ensures short { length result ≤ FORMAT_COUNT }
    ensures places { (f : FormatParts) → IsTypeFormat f.width f.frac → rank f < length result
        → (get_or result (rank f) 0 ≡ get_or slots.now (slot_of f) 0) × ¬ (get_or slots.now (slot_of f) 0 ≡ 0) }
    ensures first { (f : FormatParts) → IsTypeFormat f.width f.frac → rank f ≡ length result
        → get_or slots.now (slot_of f) 0 ≡ 0 }
{
    let mut places = [0u64; FORMAT_COUNT];
    for i in 0..FORMAT_COUNT {
        let place = place_of_rank(slots, i);
        if place == 0 {
            return Least { places, refuted: i };
        }
        places[i] = place;
    }
    Least {
        places,
        refuted: FORMAT_COUNT,
    }
}

/// Returns slots without line numbers.
fn no_places() -> [u64; SLOTS]
    ensures { result ≡ replicate SLOTS 0 }
{
    [0u64; SLOTS]
}

/// Finds the least format that holds each line of a text exactly, as a numeral of the radix. It does not allocate, and
/// reads a line at most twice.
///
/// # Errors
///
/// Reports the first line that is not a numeral, with its number and the kind of its cause.
pub fn least_format<L: Ledger>(
    text: &[u8],
    radix: Radix,
    steps: &mut Steps<L>,
) -> Result<Least, LeastFault>
    ensures least { IfOk result (λ l. IsLeast radix (lines text.now) l) }
    ensures refused { IfErr result (λ fault. IsNoNumeral radix (lines text.now) fault) }
{
    let mut slots = no_places();
    let (mut lows, mut highs) = all_lengths();
    let mut place = 0u64;
    let mut rest = text;
    while !rest.is_empty() {
        let (line, after) = first_line(rest);
        place += 1;
        match exact_of(line, radix, steps) {
            Err(error) => return Err(LeastFault::NotNumeral { place, error }),
            Ok(value) => refute(&mut slots, &mut lows, &mut highs, value, place),
        }
        rest = after;
    }
    Ok(least_of(&slots))
}

impl Least {
    /// Returns the least format that holds each numeral; `None` if no format does.
    pub fn chosen(&self) -> Option<Format>
        ensures { MatchOption result (length self.now ≡ FORMAT_COUNT) (λ f. IsTypeFormat f.width f.frac
            × (rank f ≡ length self.now)) }
    {
        format_at(self.refuted)
    }

    /// How many formats come before the least one: 248 if there is none.
    pub fn refuted(&self) -> usize
        ensures count { result ≡ length self.now }
        ensures most { result ≤ FORMAT_COUNT }
    {
        self.refuted
    }

    /// Returns the number of the first line whose numeral the format with this number does not hold.
    pub fn place(&self, i: usize) -> u64
        requires { i < length self.now }
        ensures { result ≡ get_or self.now i 0 }
    {
        let _ = &self.places;
        self.places[i]
    }

    /// Returns the line that names the format.
    fn head_line(&self) -> Answer
        ensures text { IsHeadText self.now result.text }
        ensures fault { result.fault ≡ false }
    {
        let mut out: TextBuffer<64> = TextBuffer::new();
        match self.chosen() {
            Some(format) => {
                out.push_bytes(b"least ");
                out.push_bytes(format_name(format).as_bytes());
            }
            None => out.push_bytes(b"none"),
        }
        Answer::of(out.as_bytes(), false)
    }

    /// Returns the line that names a lesser format and the line number that refutes it.
    fn refuted_line(&self, k: usize) -> Answer
        requires low { k < length self.now }
        requires most { k < FORMAT_COUNT }
        ensures text { IsRefutedText self.now k result.text }
        ensures fault { result.fault ≡ false }
    {
        let mut digits = Buffer::new();
        let mut out: TextBuffer<64> = TextBuffer::new();
        out.push_bytes(format_name(format_of_rank(k)).as_bytes());
        out.push_bytes(b" line ");
        out.push_bytes(digits.format(self.place(k)).as_bytes());
        Answer::of(out.as_bytes(), false)
    }

    /// Returns a line about the outcome: line 0 names the format, and each further line a lesser format and the line
    /// number that refutes it.
    pub fn line(&self, i: usize) -> Answer
        requires { i ≤ length self.now }
        ensures { IsLeastLine self.now i result }
    {
        let _ = &self.places;
        if i == 0 {
            self.head_line()
        } else {
            self.refuted_line(i - 1)
        }
    }
}
