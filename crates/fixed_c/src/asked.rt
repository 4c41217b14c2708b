//! The settings of a reading, tested once for one text or for many.

ghost use Rattle.std.specs.Prelude.{◌≡◌, ◌≤◌, MatchResult, drop, length};
ghost use Rattle.fixed_c.specs.Inner.Asked.{AreNamed, IsNotReadAsAsked, IsReadAsAsked, IsUnnamed};
ghost use Rattle.fixed_c.specs.Numbers.{format_of};

use crate::arguments::{FixedFormat, format_of, mode_of, policy_of, radix_of};
use crate::number::{FixedNumber, number_for_c};
use crate::refusal::Refusal;
use crate::uncounted::ending_uncounted;
use fixed_bits::{Format, Policy, ReadMode};
use fixed_numeral::{ParseErrorKind, Radix};

/// How a text is read.
#[derive(Clone, Copy)]
pub struct Asked {
    pub radix: Radix,
    pub format: Format,
    pub policy: Policy,
    pub mode: ReadMode,
}

/// Returns the settings that the codes of C name.
pub fn asked_of(radix: u32, format: FixedFormat, policy: u32, mode: u32) -> Result<Asked, Refusal>
    ensures { MatchResult result
        (λ a. AreNamed radix (format_of format.is_signed format.width format.frac) policy mode a)
        (IsUnnamed radix (format_of format.is_signed format.width format.frac) policy mode) }
{
    let radix = radix_of(radix)?;
    let format = format_of(format, Refusal::BadFormat)?;
    let policy = policy_of(policy)?;
    let mode = mode_of(mode)?;
    Ok(Asked {
        radix,
        format,
        policy,
        mode,
    })
}

/// Reads the numeral from index `from` to the end of a text. It is quickest if at least 16 bytes come before the
/// numeral.
pub fn read_from(text: &[u8], from: usize, asked: &Asked) -> Result<FixedNumber, Refusal>
    requires place { from ≤ length text.now }
    ensures { MatchResult result (λ n. IsReadAsAsked (drop from text.now) asked.now n)
        (IsNotReadAsAsked (drop from text.now) asked.now) }
{
    let found = match ending_uncounted(text, from, asked.radix, asked.format, asked.mode) {
        Ok(found) => found,
        Err(error) => return Err(Refusal::Numeral(error.kind())),
    };
    match found.image(asked.policy) {
        Some(number) => Ok(number_for_c(
            asked.format,
            number,
            found.is_out_of_range_by(asked.policy),
        )),
        None => Err(Refusal::Numeral(ParseErrorKind::Overflow)),
    }
}
