//! Reading the amount of a line.

ghost use Rattle.std.specs.Prelude.{◌≡◌, ◌+◌, ◌*◌, ◌≤◌, IfErr, IfOk, length, MatchResult};
ghost use Rattle.fixed_amounts.specs.Reading.{IsAmount, IsNoAmount, IsReadAs, IsUnread, words};
ghost use Rattle.fixed_amounts.specs.Reply.{fault_text};
ghost use Rattle.fixed_amounts.specs.declared.settings.AmountSpelling.{AmountSpelling as SpellingOf};
ghost use Rattle.fixed_numeral.specs.declared.radix.Radix.{Radix as RadixOf};
ghost use Rattle.fixed_respell.specs.Refusal.{refusal_message};
ghost use Rattle.fixed_show.specs.WordText.{HasWordFault, IsWord};

use crate::fault::AmountFault;
use crate::settings::{AmountSettings, AmountSpelling};
use fixed_bits::{Format, Policy, ReadMode};
use fixed_decimal::{DecimalFormat, read_decimal_format};
use fixed_numeral::{ParseErrorKind, ParseFixedError, Radix};
use fixed_respell::Refusal;
use fixed_show::{WordFault, read_word};
use fixed_steps::Steps;
use std::sync::ledger::Ledger;

/// Why a line is refused.
pub type AmountRefusal = Refusal<AmountFault>;

/// An amount.
#[derive(Clone, Copy, Debug, PartialEq, Eq)]
pub struct Amount {
    /// The count of units.
    pub units: i64,
    /// Whether the read number is out of the policy's range.
    pub overflowed: bool,
}

/// Reads a decimal numeral into a decimal format.
///
/// # Errors
///
/// Refuses other bytes with the kind of their cause, and under `Checked` a number out of range as `Overflow`.
pub fn read_decimal<L: Ledger>(
    bytes: &[u8],
    format: DecimalFormat,
    policy: Policy,
    mode: ReadMode,
    steps: &mut Steps<L>,
) -> Result<Amount, ParseFixedError>
    ensures read { IfOk result (λ a. IsReadAs mode bytes.now format policy a.units a.overflowed) }
    ensures unread { IfErr result (λ kind. IsUnread mode bytes.now format policy kind) }
    ensures cost { steps.new ≤ steps.old + 8 * length bytes.now + 128 }
{
    let found = match read_decimal_format(bytes, format, mode, steps) {
        Ok(found) => found,
        Err(error) => return Err(error),
    };
    match found.image(policy) {
        Some(units) => Ok(Amount {
            units,
            overflowed: found.is_out_of_range_by(policy),
        }),
        None => Err(ParseFixedError::new(ParseErrorKind::Overflow)),
    }
}

/// Reads a word as a count of units: a number with a sign, or a word of 64 bits in two's complement.
pub(crate) fn read_units(word: &[u8]) -> Result<i64, WordFault>
    ensures { MatchResult result (λ units. IsWord RadixOf.Dec words word.now units)
        (λ fault. HasWordFault RadixOf.Dec words word.now fault) }
{
    match read_word(word, Radix::Dec, Format::of(true, 64, 0)) {
        Ok(units) => Ok(units as i64),
        Err(fault) => Err(fault),
    }
}

/// Reads bytes as an amount.
///
/// # Errors
///
/// Refuses a numeral with the kind of its cause, and under `Checked` as `Overflow` if its number is out of range;
/// refuses a count of units for its fault.
pub fn read_amount<L: Ledger>(
    settings: &AmountSettings,
    bytes: &[u8],
    steps: &mut Steps<L>,
) -> Result<Amount, AmountRefusal>
    ensures amount { MatchResult result
        (λ a. IsAmount settings.now.spelling settings.now bytes.now a.units a.overflowed)
        (λ r. IsNoAmount settings.now.spelling settings.now bytes.now (refusal_message fault_text r)) }
    ensures cost { steps.new ≤ steps.old + 8 * length bytes.now + 128 }
{
    let s = settings;
    match s.spelling {
        AmountSpelling::Numeral => match read_decimal(bytes, s.format, s.policy, s.mode, steps) {
            Ok(amount) => Ok(amount),
            Err(error) => Err(Refusal::Numeral(error)),
        },
        AmountSpelling::Units => match read_units(bytes) {
            Ok(units) => Ok(Amount {
                units,
                overflowed: false,
            }),
            Err(fault) => Err(Refusal::Line(AmountFault::NoUnits(fault))),
        },
    }
}
