//! Counts the ulps in a fraction of any length in radix 2, 8 or 16, and finds what is lost.
//!
//! A block of digits with at least one bit more than the fraction decides: its lowest bits, and whether a digit comes
//! after it, say what is lost.

ghost use Rattle.std.specs.Prelude.{◌≡◌, ◌+◌, ◌*◌, ◌/◌, ◌^◌, ◌<◌, ◌≤◌, drop};
ghost use Rattle.std.specs.Int.Digits.{AllBelowBase};
ghost use Rattle.fixed_numeral.specs.Place.{NoTrailingZero};
ghost use Rattle.fixed_read.specs.Inner.Blocks.{IsBlockOf};
ghost use Rattle.fixed_read.specs.Inner.Rounding.{IsFractionUlps};

use crate::digits::{is_longer, leading_number, leading_number_u128};
use crate::lost_fraction::lost_fraction_of;
use crate::shifts::{power_of_two, split_bits};
use fixed_bits::LostFraction;
use fixed_numeral::DigitView;
use fixed_steps::Steps;
use std::sync::ledger::Ledger;

/// Returns the base whose digits have n bits.
fn base_of_bits(n: u32) -> u32
    requires { n ≤ 4 }
    ensures { result ≡ 2 ^ n }
{
    1 << n
}

/// Returns the number that the first `count` digits spell, padded with zeros if there are fewer. `count` is one more
/// than the fraction bits fill. Up to 60 fraction bits the number fits 64 bits.
fn leading_block<'a, L: Ledger>(
    view: &DigitView<'a>,
    bits: u32,
    fraction_bits: u32,
    count: u32,
    steps: &mut Steps<L>,
) -> u128
    requires digits { AllBelowBase (2 ^ bits) view.now }
    requires trailing { NoTrailingZero view.now }
    requires some { 0 < bits }
    requires few { bits ≤ 4 }
    requires fraction_bits { fraction_bits ≤ 68 }
    requires count { count ≡ fraction_bits / bits + 1 }
    ensures led { IsBlockOf (2 ^ bits) view.now (drop count view.now) result count }
    ensures cost { steps.new ≤ steps.old + count }
{
    if fraction_bits <= 60 {
        return u128::from(leading_number(view, base_of_bits(bits), count, steps));
    }
    let back = (count + 1) / 2;
    leading_number_u128(
        view,
        base_of_bits(bits),
        count - back,
        back,
        power_of_two(back * bits),
        steps,
    )
}

/// Returns the ulps of 2^-fraction_bits in 0.DIGITS, whose digits have `bits` bits each, and what is lost.
pub fn bit_fraction_ulps<'a, L: Ledger>(
    view: &DigitView<'a>,
    bits: u32,
    fraction_bits: u32,
    steps: &mut Steps<L>,
) -> (u128, LostFraction)
    requires digits { AllBelowBase (2 ^ bits) view.now }
    requires trailing { NoTrailingZero view.now }
    requires some { 0 < bits }
    requires few { bits ≤ 4 }
    requires fraction_bits { fraction_bits ≤ 68 }
    ensures ulps { IsFractionUlps (2 ^ bits) view.now fraction_bits result.0 result.1 }
    ensures cost { steps.new ≤ steps.old + fraction_bits + 1 }
{
    let count = fraction_bits / bits + 1;
    let spare = count * bits - fraction_bits;
    let block = leading_block(view, bits, fraction_bits, count, steps);
    let (whole, left) = split_bits(block, spare);
    (
        whole,
        lost_fraction_of(left, power_of_two(spare - 1), is_longer(view, count)),
    )
}
