//! What is kept of the lines so far.

ghost use Rattle.std.specs.Prelude.{◌≡◌, ◌<◌, ◌≤◌, ◌||◌, ◌+◌, ◌^◌, ◌∷◌, ◌++◌, [], List, ℕ, None, false, true, max};
ghost use Rattle.std.specs.Prelude.{IfSome};
ghost use Rattle.fixed_bits.specs.Ranges.{IsWidth};
ghost use Rattle.fixed_fit.specs.Inner.Lengths.{IsFlatRead};
ghost use Rattle.fixed_fit.specs.Inner.Progress.{HasProgress, HasSomeProgress};

use crate::lengths::{Lengths, all_lengths, lowered};
use crate::numeral::is_below_zero;
use crate::question::Fractions;
use crate::short::{FlatDecimal, is_short_below, is_within_room, room_of_both};
use fixed_bits::Format;
use fixed_least::LeastFault;
use fixed_numeral::Radix;
use fixed_steps::Steps;
use std::sync::ledger::Ledger;

/// What is kept of the lines so far.
#[derive(Clone, Copy, Debug, PartialEq, Eq)]
pub struct Progress {
    /// The radix of the numerals.
    pub radix: Radix,
    /// The fraction lengths allowed before the first line.
    pub fractions: Fractions,
    /// The number of lines.
    pub lines: u64,
    /// The first line that is not a numeral.
    pub fault: Option<LeastFault>,
    /// Whether a numeral is below zero.
    pub is_below: bool,
    /// The fraction lengths left for unsigned formats.
    pub plain: Lengths,
    /// The fraction lengths left for signed formats.
    pub signed: Lengths,
    /// The most parts of 10^-18 of a number that surely fits the longest length of both.
    pub room: u128,
}

impl Progress {
    /// Returns the progress before the first line, with these lengths left.
    fn of_lengths(
        radix: Radix,
        fractions: Fractions,
        plain: Lengths,
        signed: Lengths,
        room: u128,
    ) -> Progress
        ensures { result ≡ record {
          radix = radix;
          fractions = fractions;
          lines = 0;
          fault = None;
          is_below = false;
          plain = plain;
          signed = signed;
          room = room;
        } }
    {
        Progress {
            radix,
            fractions,
            lines: 0,
            fault: None,
            is_below: false,
            plain,
            signed,
            room,
        }
    }

    /// Returns the progress before the first line.
    pub fn new(radix: Radix, width: u32, fractions: Fractions) -> Progress
        requires { IsWidth width }
        ensures radix { result.radix ≡ radix }
        ensures fractions { result.fractions ≡ fractions }
        ensures none { HasProgress width [] result }
    {
        let plain = all_lengths(Format::of(false, width, 0), fractions);
        let signed = all_lengths(Format::of(true, width, 0), fractions);
        let room = room_of_both(&plain, &signed);
        Progress::of_lengths(radix, fractions, plain, signed, room)
    }

    /// Returns the progress after a line that is not a numeral.
    fn with_fault(&self, lines: u64, fault: Option<LeastFault>) -> Progress
        ensures { result ≡ record {
          radix = self.now.radix;
          fractions = self.now.fractions;
          lines = lines;
          fault = fault;
          is_below = self.now.is_below;
          plain = self.now.plain;
          signed = self.now.signed;
          room = self.now.room;
        } }
    {
        Progress {
            radix: self.radix,
            fractions: self.fractions,
            lines,
            fault,
            is_below: self.is_below,
            plain: self.plain,
            signed: self.signed,
            room: self.room,
        }
    }

    /// Returns the progress after a numeral that leaves these lengths.
    fn with_numeral(
        &self,
        lines: u64,
        below: bool,
        plain: Lengths,
        signed: Lengths,
        room: u128,
    ) -> Progress
        ensures { result ≡ record {
          radix = self.now.radix;
          fractions = self.now.fractions;
          lines = lines;
          fault = None;
          is_below = self.now.is_below || below;
          plain = plain;
          signed = signed;
          room = room;
        } }
    {
        Progress {
            radix: self.radix,
            fractions: self.fractions,
            lines,
            fault: None,
            is_below: self.is_below | below,
            plain,
            signed,
            room,
        }
    }

    /// Returns the number of fraction lengths left for the sign rule that leaves more.
    pub fn count(&self) -> u32
        ensures { result ≡ max self.now.plain.count self.now.signed.count }
    {
        self.plain.count.max(self.signed.count)
    }

    /// Returns the progress after one more line. Each line before it is a numeral.
    fn after<L: Ledger>(&self, line: &[u8], steps: &mut Steps<L>) -> Progress
        requires room { self.now.lines < 2 ^ 63 }
        requires known { HasSomeProgress self.now }
        requires none { self.now.fault ≡ None }
        ensures radix { result.radix ≡ self.now.radix }
        ensures fractions { result.fractions ≡ self.now.fractions }
        ensures lines { result.lines ≡ self.now.lines + 1 }
        ensures one_more { (n : ℕ) (lines : List (List ℕ)) → HasProgress n lines self.now
            → HasProgress n (lines ++ line.now ∷ []) result }
        ensures plain { result.plain.count ≤ self.now.plain.count }
        ensures signed { result.signed.count ≤ self.now.signed.count }
    {
        let place = self.lines + 1;
        match is_below_zero(line, self.radix, steps) {
            Err(error) => self.with_fault(place, Some(LeastFault::NotNumeral { place, error })),
            Ok(below) => {
                let plain = lowered(&self.plain, line, self.radix, place, steps);
                let signed = lowered(&self.signed, line, self.radix, place, steps);
                let room = room_of_both(&plain, &signed);
                self.with_numeral(place, below, plain, signed, room)
            }
        }
    }

    /// Takes one more line. A short decimal that surely takes away no length is decided by the numbers of its parts,
    /// and the lengths are not written again.
    pub fn push<L: Ledger>(&mut self, line: &[u8], flat: Option<FlatDecimal>, steps: &mut Steps<L>)
        requires room { self.old.lines < 2 ^ 63 }
        requires known { HasSomeProgress self.old }
        requires flat { IfSome flat (IsFlatRead self.old.radix line.now) }
        ensures radix { self.new.radix ≡ self.old.radix }
        ensures fractions { self.new.fractions ≡ self.old.fractions }
        ensures lines { self.new.lines ≡ self.old.lines + 1 }
        ensures one_more { (n : ℕ) (lines : List (List ℕ)) → HasProgress n lines self.old
            → HasProgress n (lines ++ line.now ∷ []) self.new }
        ensures plain { self.new.plain.count ≤ self.old.plain.count }
        ensures signed { self.new.signed.count ≤ self.old.signed.count }
        ensures sound { self.new.fault ≡ None → self.old.fault ≡ None }
    {
        if self.fault.is_some() {
            self.lines += 1;
            return;
        }
        if let Some(found) = flat {
            if is_within_room(self.room, self.plain.count == 0, found) {
                self.lines += 1;
                self.is_below |= is_short_below(found.decimal);
                return;
            }
        }
        *self = self.after(line, steps);
    }
}
