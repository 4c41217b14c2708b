//! The fraction lengths of a sign rule and a width with which every numeral so far is in range.
//!
//! A numeral that is in range with a fraction length is in range with each shorter one. So the lengths that are left
//! are those below a count, and a numeral only lowers the count.

ghost use Rattle.std.specs.Prelude.{◌≡◌, ◌≤◌, ◌<◌, ◌+◌, ◌↔◌, true, false, ℕ};
ghost use Rattle.fixed_numeral.specs.Numeral.{IsNumeral};
ghost use Rattle.fixed_fit.specs.Fitting.{Exceeds, Fits, frac_lengths};
ghost use Rattle.fixed_fit.specs.Inner.Lengths.{AreLowered};

use crate::question::Fractions;
use fixed_bits::{Format, ReadMode};
use fixed_numeral::Radix;
use fixed_read::read_format;
use fixed_steps::Steps;
use std::sync::ledger::Ledger;

/// The fraction lengths that are left: those below a count.
#[derive(Clone, Copy, Debug, PartialEq, Eq)]
pub struct Lengths {
    /// A format of the sign rule and the width.
    pub kind: Format,
    /// The number of lengths left, including 0.
    pub count: u32,
    /// The number of the line that last took a length away; 0 if none did.
    pub place: u64,
}

/// Whether a numeral is in range in a format, after rounding to nearest.
fn is_in_range<L: Ledger>(line: &[u8], radix: Radix, format: Format, steps: &mut Steps<L>) -> bool
    requires { IsNumeral radix line.now }
    ensures fits { result ≡ true → Fits radix format.signed format.width format.frac line.now }
    ensures exceeds { result ≡ false → Exceeds radix format.signed format.width format.frac line.now }
{
    match read_format(line, radix, format, ReadMode::NearestEven, steps) {
        Ok(found) => !found.is_out_of_range(),
        Err(_) => unreachable!(),
    }
}

/// Returns the format of the same sign rule and width with `frac` fraction bits.
pub fn with_frac(kind: Format, frac: u32) -> Format
    requires { frac ≤ 64 }
    ensures { result ≡ record { signed = kind.signed; width = kind.width; frac = frac } }
{
    Format::of(kind.signed(), kind.width(), frac)
}

/// Counts the fraction lengths, including 0, that a format of a width may have.
pub fn frac_lengths(fractions: Fractions, width: u32) -> u32
    requires { width ≤ 64 }
    ensures count { result ≡ frac_lengths fractions width }
    ensures few { result ≤ 65 }
{
    match fractions {
        Fractions::Whole(least) => (width + 1).saturating_sub(least),
        Fractions::Beyond => 65,
    }
}

/// Returns all fraction lengths that a format of a width may have.
pub fn all_lengths(kind: Format, fractions: Fractions) -> Lengths
    ensures kind { result.kind ≡ kind }
    ensures all { result.count ≡ frac_lengths fractions kind.width }
    ensures few { result.count ≤ 65 }
    ensures place { result.place ≡ 0 }
{
    Lengths {
        kind,
        count: frac_lengths(fractions, kind.width()),
        place: 0,
    }
}

/// Counts the fraction lengths below `count` that a numeral leaves.
fn count_left<L: Ledger>(
    kind: Format,
    count: u32,
    line: &[u8],
    radix: Radix,
    steps: &mut Steps<L>,
) -> u32
    requires numeral { IsNumeral radix line.now }
    requires most { count ≤ 65 }
    ensures fewer { result ≤ count }
    ensures fits { (f : ℕ) → f + 1 ≡ result → Fits radix kind.signed kind.width f line.now }
    ensures exceeds { result < count → Exceeds radix kind.signed kind.width result line.now }
{
    let mut left = count;
    while left > 0 {
        if is_in_range(line, radix, with_frac(kind, left - 1), steps) {
            return left;
        }
        left -= 1;
    }
    0
}

/// Returns the fraction lengths that the numeral of line `place` leaves.
pub fn lowered<L: Ledger>(
    lengths: &Lengths,
    line: &[u8],
    radix: Radix,
    place: u64,
    steps: &mut Steps<L>,
) -> Lengths
    requires numeral { IsNumeral radix line.now }
    requires most { lengths.now.count ≤ 65 }
    ensures { AreLowered radix line.now place lengths.now result }
{
    let old = *lengths;
    let before = old.count;
    let count = count_left(old.kind, before, line, radix, steps);
    if count == before {
        return old;
    }
    Lengths {
        kind: old.kind,
        count,
        place,
    }
}
