//! The gap between a numeral and the whole number of ulps that it is rounded to.

ghost use Rattle.std.specs.Prelude.{IsTrue, ◌↔◌, ◌≡◌, ◌+◌, ◌*◌, ◌%◌, ◌<◌, ◌≤◌, ◌^◌, length};
ghost use Rattle.fixed_numeral.specs.Numeral.{HasNumeral, Parts};
ghost use Rattle.fixed_numeral.specs.Scanned.{IsScanned, exponent_unit};
ghost use Rattle.fixed_error.specs.ErrorSize.{HasSteps, IsReadWithin};
ghost use Rattle.fixed_error.specs.Inner.Gap.{IsGap};

use fixed_bits::{Format, ReadMode};
use fixed_numeral::{Radix, Scanned};
use fixed_read::read_format;
use fixed_steps::Steps;
use std::sync::ledger::Ledger;

/// The gap between a numeral and the whole number of ulps that it is rounded to, in ulps: the difference of a multiple
/// of the digits after the numeral's point and a whole number.
#[derive(Clone, Copy, Debug, PartialEq, Eq)]
pub struct Gap {
    /// The factor of the digits.
    pub unit: u128,
    /// The whole number.
    pub whole: u128,
    /// Whether the whole number is the greater.
    pub is_rounded_up: bool,
}

/// Returns the whole number of ulps that a numeral is rounded to in a mode, in at most four steps for each byte, and
/// 119.
pub fn steps_in<L: Ledger>(
    text: &[u8],
    radix: Radix,
    frac: u32,
    mode: ReadMode,
    steps: &mut Steps<L>,
) -> u64
    requires { frac ≤ 64 }
    ensures rounded { IsReadWithin mode radix frac text.now → HasSteps mode radix frac text.now result }
    ensures cost { steps.new ≤ steps.old + 4 * length text.now + 119 }
{
    match read_format(text, radix, Format::of(false, 64, frac), mode, steps) {
        Ok(found) => found.magnitude(),
        Err(_) => 0,
    }
}

/// Returns two to a power.
pub fn power_of_two(exponent: u32) -> u128
    requires { exponent ≤ 67 }
    ensures { result ≡ 2 ^ exponent }
{
    1u128 << exponent
}

/// Returns the remainder of a number of 64 bits by a power of two, plus `more`.
fn whole_of(below: u64, unit: u128, more: u64) -> u128
    requires some { 0 < unit }
    requires more { more ≤ 1 }
    ensures { result ≡ below % unit + more }
{
    u128::from(below) % unit + u128::from(more)
}

/// Returns the gap between a scanned numeral and the whole number of ulps of 2^-`frac` that it is rounded to in a mode.
/// It takes at most eight steps for each byte, and 238.
pub fn gap_of<'a, L: Ledger>(
    text: &[u8],
    found: &Scanned<'a>,
    radix: Radix,
    frac: u32,
    mode: ReadMode,
    steps: &mut Steps<L>,
) -> Gap
    requires frac { frac ≤ 64 }
    requires within { IsReadWithin mode radix frac text.now }
    requires scanned { (p : Parts) → HasNumeral radix text.now p → IsScanned radix p found.now.neg found.now.whole
        found.now.fraction found.now.bit_shift }
    requires bits { found.now.bit_shift < exponent_unit radix }
    ensures gap { IsGap mode radix frac text.now found.now.fraction result }
    ensures cost { steps.new ≤ steps.old + 8 * length text.now + 238 }
{
    let below = steps_in(text, radix, frac, ReadMode::TowardsZero, steps);
    let rounded = steps_in(text, radix, frac, mode, steps);
    let unit = power_of_two(frac + found.bit_shift());
    Gap {
        unit,
        whole: whole_of(below, unit, rounded - below),
        is_rounded_up: rounded != below,
    }
}

/// Whether a text is a numeral that is rounded in a mode to fewer than 2^64 ulps of 2^-`frac`. This holds for each
/// numeral in range of a format of that fraction length. It takes at most eight steps for each byte, and 128.
pub fn is_read_within<L: Ledger>(
    text: &[u8],
    radix: Radix,
    frac: u32,
    mode: ReadMode,
    steps: &mut Steps<L>,
) -> bool
    requires { frac ≤ 64 }
    ensures within { IsTrue result ↔ IsReadWithin mode radix frac text.now }
    ensures cost { steps.new ≤ steps.old + 8 * length text.now + 128 }
{
    match read_format(text, radix, Format::of(false, 64, frac), mode, steps) {
        Ok(found) => {
            let _low = found.magnitude();
            !found.has_high_bits()
        }
        Err(_) => false,
    }
}
