//! What is kept of a sequence of numerals.
//!
//! The error is that of reading into the source format, as `show` writes it. Only the numeral with the greatest error
//! is kept, and it may have 1,048,577 bytes, the most that a rule gets. So with a report the bound on the steps for a
//! line is that much higher.

ghost use Rattle.std.specs.Prelude.{◌≡◌, ◌⊎◌, ◌<◌, ◌≤◌, ◌+◌, ◌-◌, ◌*◌, ◌^◌, ◌++◌, ◌∷◌, [], List, None, length};
ghost use Rattle.std.specs.Prelude.{IfNone, IfSome, IsSome};
ghost use Rattle.fixed_bits.specs.declared.format.Policy.TheVariants.{Checked};
ghost use Rattle.fixed_error.specs.Cut.{cut_parts};
ghost use Rattle.fixed_error.specs.ErrorSize.{HasSteps, IsReadWithin};
ghost use Rattle.fixed_error.specs.Greatest.{Entry};
ghost use Rattle.fixed_report.specs.Report.{HasReport, HasSums, IsIn, IsLostBy, add_extra, add_per_byte};
ghost use Rattle.fixed_report.specs.Sums.{IsMean, IsRootMean};
ghost use Rattle.fixed_show.specs.ShowBlock.{HasNoBits};

use crate::means::{Mean, SixDigits};
use crate::sums::ErrorSums;
use fixed_bits::{Format, Policy, ReadMode};
use fixed_error::{GreatestError, cut_error, parts_of_ulp, read_short};
use fixed_numeral::Radix;
use fixed_show::read_image;
use fixed_steps::Steps;
use std::alloc::Global;
use std::marker::Model;
use std::sync::ledger::Ledger;

/// The longest numeral kept, in bytes.
const LONGEST: usize = 1_048_577;

/// Returns the number of ulps that a numeral is rounded to. `None`: it is refused or not in the format's range.
fn ulps_in<L: Ledger>(
    numeral: &[u8],
    radix: Radix,
    format: Format,
    mode: ReadMode,
    steps: &mut Steps<L>,
) -> Option<u64>
    ensures in_range { IfSome result (λ _. IsIn mode radix format numeral.now) }
    ensures within { IfSome result (λ _. IsReadWithin mode radix format.frac numeral.now) }
    ensures ulps { IfSome result (λ n. HasSteps mode radix format.frac numeral.now n) }
    ensures out { IfNone result (HasNoBits mode radix numeral.now format Checked) }
    ensures cost { steps.new ≤ steps.old + 8 * length numeral.now + 128 }
{
    let _width = format.width();
    match read_image(numeral, radix, format, Policy::Checked, mode, steps) {
        Ok(image) => Some(image.magnitude),
        Err(_) => None,
    }
}

/// The reason why the errors of numerals are not known.
#[derive(Clone, Copy, Debug, PartialEq, Eq)]
pub enum Lost {
    /// There was no memory for a numeral.
    NoMemory,
    /// A numeral in range has more than 1,048,577 bytes.
    TooLong,
}

/// Of the numerals so far in a format's range, the first with the greatest error, and the sums of their errors.
/// Contracts see it as what is kept.
#[derive(Drop)]
pub struct ErrorReport {
    pub(crate) radix: Radix,
    pub(crate) format: Format,
    pub(crate) mode: ReadMode,
    pub(crate) greatest: GreatestError,
    pub(crate) sums: ErrorSums,
    pub(crate) lost: Option<Lost>,
}

impl Model for ErrorReport {
    ghost use Rattle.fixed_report.specs.Report.{IsSound, Kept};

    ghost Value = { Kept };

    ghost view = { λ u. record {
      radix = u.radix;
      format = u.format;
      mode = u.mode;
      greatest = u.greatest;
      sums = u.sums;
      lost = u.lost;
    } };

    ghost invariant = { λ u. IsSound (record {
      radix = u.radix;
      format = u.format;
      mode = u.mode;
      greatest = u.greatest;
      sums = u.sums;
      lost = u.lost;
    }) };
}

impl ErrorReport {
    /// Returns a report before the first numeral.
    pub fn new(alloc: Global, radix: Radix, format: Format, mode: ReadMode) -> ErrorReport
        ensures radix { result.radix ≡ radix }
        ensures format { result.format ≡ format }
        ensures mode { result.mode ≡ mode }
        ensures known { result.lost ≡ None }
        ensures none { HasReport mode radix format [] result.lost result.greatest }
        ensures no_sums { HasSums mode radix format [] result.lost result.sums }
    {
        let _width = format.width();
        ErrorReport {
            radix,
            format,
            mode,
            greatest: GreatestError::new(alloc, radix, format.frac(), mode),
            sums: ErrorSums::new(),
            lost: None,
        }
    }

    /// Returns the reason why nothing is known, if there is one.
    pub fn lost(&self) -> Option<Lost>
        ensures { result ≡ self.now.lost }
    {
        self.lost
    }

    /// Takes one more numeral and its place. A numeral that is refused or out of range is passed over. Memory is taken
    /// only for the numeral with the greatest error. Without memory, or after a numeral in range of more than 1,048,577
    /// bytes, nothing is known from then on.
    pub fn add<L: Ledger>(&mut self, numeral: &[u8], place: u64, steps: &mut Steps<L>)
        ensures radix { self.new.radix ≡ self.old.radix }
        ensures format { self.new.format ≡ self.old.format }
        ensures mode { self.new.mode ≡ self.old.mode }
        ensures one_more { (entries : List Entry)
            → HasReport self.old.mode self.old.radix self.old.format entries self.old.lost self.old.greatest
            → HasReport self.old.mode self.old.radix self.old.format
            (entries ++ record { place = place; numeral = numeral.now } ∷ []) self.new.lost self.new.greatest }
        ensures sums { (entries : List Entry)
            → HasSums self.old.mode self.old.radix self.old.format entries self.old.lost self.old.sums
            → HasSums self.old.mode self.old.radix self.old.format
            (entries ++ record { place = place; numeral = numeral.now } ∷ []) self.new.lost self.new.sums }
        ensures lost { IsLostBy self.old numeral.now self.new.lost }
        ensures cost { steps.new ≤ steps.old + add_per_byte * length numeral.now + add_extra }
    {
        if self.lost.is_some() {
            return;
        }
        let ulps = match ulps_in(numeral, self.radix, self.format, self.mode, steps) {
            Some(ulps) => ulps,
            None => return,
        };
        if numeral.len() > LONGEST {
            self.lost = Some(Lost::TooLong);
            return;
        }
        let short = read_short(numeral, self.radix, steps);
        let frac = self.format.frac();
        let error = cut_error(numeral, ulps, short, self.radix, frac, steps);
        match self.greatest.add(numeral, place, steps) {
            Ok(()) => self.sums.add(error),
            Err(_) => self.lost = Some(Lost::NoMemory),
        }
    }

    /// Returns the mean of the errors in ulps and the root of the mean of their squares, each rounded to six digits.
    /// `None`: no numeral was in range, there were 2^64 - 1, or one was lost.
    pub fn means(&self) -> Option<(Mean, SixDigits)>
        ensures known { IfSome result (λ _. self.now.lost ≡ None) }
        ensures mean { IfSome result (λ found. IsMean self.now.sums (cut_parts self.now.radix) found.0) }
        ensures root { IfSome result (λ found. IsRootMean self.now.sums (cut_parts self.now.radix) found.1) }
        ensures few { IfSome result (λ _. self.now.sums.count < 2 ^ 64 - 1) }
        ensures mean_places { IfSome result (λ found. found.0.size.places ≤ 90) }
        ensures root_places { IfSome result (λ found. found.1.places ≤ 90) }
        ensures none { IfNone result (IsSome self.now.lost
            ⊎ ((self.now.sums.count ≡ 0) ⊎ (self.now.sums.count ≡ 2 ^ 64 - 1))) }
    {
        if self.lost.is_some() {
            return None;
        }
        self.sums.means(parts_of_ulp(self.radix))
    }
}
