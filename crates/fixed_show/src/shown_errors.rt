//! The error of a numeral, also in ulps: the two texts in a block of lines.

ghost use Rattle.std.specs.Prelude.{MatchOption};
ghost use Rattle.fixed_show.specs.ShowBlock.{HasNoBits};
ghost use Rattle.fixed_show.specs.ShownErrors.{AreShownErrors};

use crate::errors::brief_decimal;
use crate::form::Form;
use crate::lines::frac_of;
use crate::measure::Measure;
use crate::show::read_shown;
use crate::ulps::push_error;
use fixed_bits::{Format, Policy, ReadMode};
use fixed_numeral::Radix;
use fixed_steps::Steps;
use std::sync::ledger::Ledger;
use text_buffer::TextBuffer;

/// The length of the longest such text, in bytes.
pub const MAX_ERROR: usize = 1380;

/// The texts of an error.
#[derive(Drop)]
pub struct ErrorTexts {
    /// The error.
    pub error: TextBuffer<MAX_ERROR>,
    /// The error in ulps.
    pub ulps: TextBuffer<MAX_ERROR>,
}

/// Returns the error of the bits that a numeral is read as, also in ulps, as in its block. `None`: the numeral is
/// refused.
pub fn error_texts<L: Ledger>(
    text: &[u8],
    radix: Radix,
    format: Format,
    policy: Policy,
    mode: ReadMode,
    steps: &mut Steps<L>,
) -> Option<ErrorTexts>
    ensures { MatchOption result (HasNoBits mode radix text.now format policy)
        (λ texts. AreShownErrors mode radix text.now format policy texts.error texts.ulps) }
{
    let shown = match read_shown(text, radix, format, policy, mode, steps) {
        Ok(shown) => shown,
        Err(_) => return None,
    };
    let frac = frac_of(format);
    let numeral = brief_decimal(text, radix, steps);
    let mut error: TextBuffer<MAX_ERROR> = TextBuffer::new();
    push_error(
        &mut error,
        Form::Lines,
        Measure::Value,
        shown.bits,
        frac,
        &numeral,
    );
    let mut ulps: TextBuffer<MAX_ERROR> = TextBuffer::new();
    push_error(
        &mut ulps,
        Form::Lines,
        Measure::Ulps,
        shown.bits,
        frac,
        &numeral,
    );
    Some(ErrorTexts { error, ulps })
}
