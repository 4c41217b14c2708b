//! The error of a numeral alone, in the words of its block: as a value, or in ulps.
//!
//! It is appended to a text in place. The error of a short decimal is found by numbers of 128 bits (`narrow`), without
//! a number of many limbs.

ghost use Rattle.std.specs.Prelude.{◌≡◌, ◌+◌, ◌*◌, ◌≤◌, length, IfErr, IfOk};
ghost use Rattle.fixed_bits.specs.Ranges.{IsWide};
ghost use Rattle.fixed_numeral.specs.Numeral.{HasNumeral, Parts};
ghost use Rattle.fixed_show.specs.Blocks.{Appends};
ghost use Rattle.fixed_show.specs.Measured.{IsMeasuredError};
ghost use Rattle.fixed_show.specs.ShortError.{IsErrorText};
ghost use Rattle.fixed_show.specs.ShowBlock.{IsUnread};
ghost use Rattle.fixed_show.specs.declared.form.Form.TheVariants.{Lines};

use crate::errors::brief_decimal;
use crate::form::Form;
use crate::lines::frac_of;
use crate::narrow::{narrow_numeral, push_narrow_error};
use crate::show::read_shown;
use crate::ulps::push_error;
use fixed_bits::{Format, Policy, ReadMode};
use fixed_numeral::{ParseFixedError, Radix};
use fixed_steps::Steps;
use std::sync::ledger::Ledger;
use text_buffer::TextBuffer;

/// How an error is measured.
#[derive(Clone, Copy, Debug, PartialEq, Eq)]
pub enum Measure {
    /// The value of the bits less that of the numeral.
    Value,
    /// The same in ulps of the format.
    Ulps,
}

/// Appends the error of `bits`, which a numeral was read as, by numbers of many limbs.
#[inline(never)]
fn push_long<const N: usize, L: Ledger>(
    out: &mut TextBuffer<N>,
    measure: Measure,
    bits: i128,
    frac: u32,
    text: &[u8],
    radix: Radix,
    steps: &mut Steps<L>,
)
    requires wide { IsWide bits }
    requires frac { frac ≤ 64 }
    requires room { length out.old + 1380 ≤ N }
    ensures error { (p : Parts) → HasNumeral radix text.now p
        → Appends (IsErrorText Lines measure radix p frac bits) 1380 out.old out.new }
    ensures short { length out.new ≤ length out.old + 1380 }
    ensures cost { steps.new ≤ steps.old + 2 * length text.now + 1437 }
{
    let numeral = brief_decimal(text, radix, steps);
    push_error(out, Form::Lines, measure, bits, frac, &numeral);
}

/// Appends the error of `bits`, which a numeral was read as, a number of ulps of 2^-`frac`.
fn push_error_by<const N: usize, L: Ledger>(
    out: &mut TextBuffer<N>,
    measure: Measure,
    bits: i128,
    frac: u32,
    text: &[u8],
    radix: Radix,
    steps: &mut Steps<L>,
)
    requires wide { IsWide bits }
    requires frac { frac ≤ 64 }
    requires room { length out.old + 1380 ≤ N }
    ensures error { (p : Parts) → HasNumeral radix text.now p
        → Appends (IsErrorText Lines measure radix p frac bits) 1380 out.old out.new }
    ensures short { length out.new ≤ length out.old + 1380 }
    ensures cost { steps.new ≤ steps.old + 3 * length text.now + 1437 }
{
    if let Some(numeral) = narrow_numeral(text, radix, steps) {
        if push_narrow_error(out, measure, bits, frac, numeral) {
            return;
        }
    }
    push_long(out, measure, bits, frac, text, radix, steps);
}

/// Appends the error of the bits that a numeral is read as, by a measure, in the words of its block. There must be room
/// for 1,380 bytes.
///
/// # Errors
///
/// Appends nothing and refuses other bytes with the kind of their cause, and under `Checked` a number out of range as
/// `Overflow`.
pub fn push_measured<const N: usize, L: Ledger>(
    text: &[u8],
    radix: Radix,
    format: Format,
    policy: Policy,
    mode: ReadMode,
    measure: Measure,
    out: &mut TextBuffer<N>,
    steps: &mut Steps<L>,
) -> Result<(), ParseFixedError>
    requires room { length out.old + 1380 ≤ N }
    ensures error { IfOk result (λ _. Appends (IsMeasuredError measure mode radix text.now format policy) 1380 out.old
        out.new) }
    ensures refused { IfErr result (λ kind. IsUnread mode radix text.now format policy kind × (out.new ≡ out.old)) }
    ensures cost { steps.new ≤ steps.old + 11 * length text.now + 1565 }
{
    match read_shown(text, radix, format, policy, mode, steps) {
        Ok(shown) => {
            push_error_by(
                out,
                measure,
                shown.bits,
                frac_of(format),
                text,
                radix,
                steps,
            );
            Ok(())
        }
        Err(error) => Err(error),
    }
}
