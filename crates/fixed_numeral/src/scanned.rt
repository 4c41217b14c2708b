//! The views of a numeral's parts.

ghost use Rattle.std.specs.Prelude.{◌≡◌, ◌+◌, ◌*◌, ◌<◌, ◌≤◌, ◌^◌, length};
ghost use Rattle.fixed_numeral.specs.Numeral.{Parts, IsPartsOf, is_minus, fractional_digits};
ghost use Rattle.fixed_numeral.specs.Digits.{digits_in};
ghost use Rattle.fixed_numeral.specs.Scanned.{IsScanned};
ghost use Rattle.fixed_numeral.specs.Inner.Shift.{unit_of, IsShift, AgreesWithExponent};

use crate::digit_slice::DigitSlice;
use crate::digit_view::{DigitView, views_at_moved_point, views_at_point};
use crate::radix::Radix;
use fixed_steps::Steps;
use std::sync::ledger::Ledger;

/// A numeral's sign, its digits before and after the point as the exponent moved it, and the power of two, 0 to 3, that
/// is left of the exponent.
#[derive(Drop)]
pub struct Scanned<'a> {
    neg: bool,
    whole: DigitView<'a>,
    fraction: DigitView<'a>,
    bit_shift: u32,
}

/// How far the point moves, and the bits that are left.
#[derive(Clone, Copy)]
struct Shift {
    up: u64,
    down: u64,
    bits: u32,
}

fn unit_of(radix: Radix, two: bool) -> u64
    ensures { result ≡ unit_of radix two }
{
    if !two {
        return 1;
    }
    match radix {
        Radix::Bin => 1,
        Radix::Oct => 3,
        Radix::Dec => 1,
        Radix::Hex => 4,
    }
}

fn shift_of(unit: u64, minus: bool, magnitude: u64) -> Shift
    requires unit { 0 < unit }
    requires small { unit ≤ 4 }
    requires magnitude { magnitude ≤ 2 ^ 31 }
    ensures shift { IsShift minus unit magnitude result.up result.down result.bits }
    ensures up { result.up ≤ 2 ^ 31 }
    ensures down { result.down ≤ 2 ^ 31 }
    ensures bits { result.bits < unit }
{
    if minus {
        let down = (magnitude + unit - 1) / unit;
        Shift {
            up: 0,
            down,
            bits: (down * unit - magnitude) as u32,
        }
    } else {
        Shift {
            up: magnitude / unit,
            down: 0,
            bits: (magnitude % unit) as u32,
        }
    }
}

impl<'a> Scanned<'a> {
    /// Returns the views of a numeral with these parts.
    #[inline(always)]
    pub(crate) fn of<L: Ledger>(
        radix: Radix,
        neg: bool,
        whole: DigitSlice<'a>,
        fraction: DigitSlice<'a>,
        two: bool,
        minus: bool,
        magnitude: u64,
        steps: &mut Steps<L>,
    ) -> Scanned<'a>
        requires digits { length whole + length fraction < 2 ^ 63 }
        requires room { magnitude ≤ 2 ^ 31 }
        ensures value { (p : Parts) → IsPartsOf radix p → neg ≡ is_minus p.sign → whole.entry ≡ digits_in p.whole
            → fraction.entry ≡ digits_in (fractional_digits p.fraction)
            → AgreesWithExponent radix two minus magnitude p.exponent
            → IsScanned radix p result.neg result.whole result.fraction result.bit_shift }
        ensures counted { steps.old ≤ steps.new }
        ensures cost { steps.new ≤ steps.old + (length whole.entry + length fraction.entry) + 2 }
    {
        if magnitude == 0 {
            let (left, right) = views_at_point(&whole, &fraction, steps);
            return Scanned {
                neg,
                whole: left,
                fraction: right,
                bit_shift: 0,
            };
        }
        let shift = shift_of(unit_of(radix, two), minus, magnitude);
        let (whole, fraction) = views_at_moved_point(
            &whole, &fraction, shift.up, shift.down, steps,
        );
        Scanned {
            neg,
            whole,
            fraction,
            bit_shift: shift.bits,
        }
    }

    /// Whether the sign is a minus.
    #[inline]
    pub fn neg(&self) -> bool
        ensures { result ≡ self.now.neg }
    {
        self.neg
    }

    /// Returns the digits before the point.
    #[inline]
    pub fn whole(&self) -> DigitView<'a>
        ensures { result ≡ self.now.whole }
    {
        self.whole.same()
    }

    /// Returns the digits after the point.
    #[inline]
    pub fn fraction(&self) -> DigitView<'a>
        ensures { result ≡ self.now.fraction }
    {
        self.fraction.same()
    }

    /// Returns the digits before the point, without a copy.
    #[inline]
    pub fn whole_view(&self) -> &DigitView<'a>
        ensures { result.now ≡ self.now.whole }
    {
        &self.whole
    }

    /// Returns the digits after the point, without a copy.
    #[inline]
    pub fn fraction_view(&self) -> &DigitView<'a>
        ensures { result.now ≡ self.now.fraction }
    {
        &self.fraction
    }

    /// Returns the exponent s, 0 to 3. The digits must be multiplied by 2^s.
    #[inline]
    pub fn bit_shift(&self) -> u32
        ensures { result ≡ self.now.bit_shift }
    {
        self.bit_shift
    }
}
