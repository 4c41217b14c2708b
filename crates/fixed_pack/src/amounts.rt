//! Amounts packed into words of 64 bits, and such words unpacked into lines.

ghost use Rattle.std.specs.Prelude.{◌≡◌, ◌+◌, ◌≤◌, ◌++◌, length};
ghost use Rattle.fixed_amounts.specs.Reading.{words};
ghost use Rattle.fixed_pack.specs.Word.{IsBitsOf, word_bytes};

use crate::Endian;
use crate::float_words::WordRefusal;
use crate::pack_rule::Pack;
use crate::recode::Recode;
use crate::word::{push_word, word_bits, word_length, word_number};
use fixed_amounts::{Amount, AmountPrint, push_part, read_decimal};
use fixed_bits::{Format, Policy, ReadMode};
use fixed_command::{without_return, word_of};
use fixed_decimal::DecimalFormat;
use fixed_numeral::ParseFixedError;
use fixed_steps::Steps;
use line_engine::Output;
use std::sync::ledger::Ledger;

/// How lines of amounts are packed: each into its count of units in two's complement, 8 bytes. A carriage return at the
/// end of a line is not part of it.
#[derive(Clone, Copy, Debug, PartialEq, Eq)]
pub struct PackAmounts {
    /// The decimal format that a numeral is read into.
    pub format: DecimalFormat,
    /// What to do with a number that is out of range.
    pub policy: Policy,
    /// How a numeral is rounded.
    pub mode: ReadMode,
    /// The order of a word's bytes.
    pub endian: Endian,
}

/// How words of 64 bits, each a count of units, are unpacked: each into a line with a part of the amount.
#[derive(Clone, Copy, Debug, PartialEq, Eq)]
pub struct UnpackAmounts {
    /// The decimal format of an amount.
    pub format: DecimalFormat,
    /// The part of an amount that is written.
    pub print: AmountPrint,
    /// The order of a word's bytes.
    pub endian: Endian,
}

/// Returns the format whose numbers are the counts of units: 64 bits with a sign.
fn unit_words() -> Format
    ensures { result ≡ words }
{
    Format::of(true, 64, 0)
}

/// Appends the word of a count of units.
#[inline(always)]
fn push_units(out: &mut Output, endian: Endian, units: i64)
    requires room { length out.old + 8 ≤ 8192 }
    ensures { out.new ≡ out.old ++ word_bytes endian words units }
{
    let format = unit_words();
    push_word(
        out,
        endian,
        word_length(format),
        word_of(format, i128::from(units)),
    );
}

/// Returns the count of units of a word.
#[inline(always)]
fn units_of(number: u64) -> i64
    ensures { IsBitsOf words number result }
{
    word_bits(unit_words(), number).unwrap() as i64
}

impl Pack for PackAmounts {
    ghost use Rattle.fixed_pack.specs.Amounts.{IsAmountPacked, IsAmountRefused};
    ghost use Rattle.fixed_pack.specs.Lemmas.AmountLaws.{amount_never, amount_one, cause_one};

    type Cause = ParseFixedError;

    ghost Packs = { IsAmountPacked };

    ghost Refuses = { IsAmountRefused };

    #[inline(always)]
    fn pack<L: Ledger>(
        &self,
        line: &[u8],
        out: &mut Output,
        steps: &mut Steps<L>,
    ) -> Result<(), ParseFixedError> {
        let s = self;
        match read_decimal(without_return(line), s.format, s.policy, s.mode, steps) {
            Ok(amount) => {
                push_units(out, s.endian, amount.units);
                Ok(())
            }
            Err(error) => Err(error),
        }
    }

    ghost one_law = { amount_one };

    ghost cause_law = { cause_one };

    ghost never_law = { amount_never };
}

impl Recode for UnpackAmounts {
    ghost use Rattle.fixed_pack.specs.Amounts.{IsAmountLine};
    ghost use Rattle.fixed_pack.specs.Lemmas.AmountLaws.{amount_line_one};

    type Cause = WordRefusal;

    ghost size = { λ rule. 8 };

    ghost Recodes = { IsAmountLine };

    ghost Refuses = { λ rule word why. ⊥ };

    fn count(&self) -> usize {
        8
    }

    #[inline(always)]
    fn recode<L: Ledger>(
        &self,
        word: &[u8],
        out: &mut Output,
        _steps: &mut Steps<L>,
    ) -> Result<Option<WordRefusal>, WordRefusal> {
        let amount = Amount {
            units: units_of(word_number(word, self.endian)),
            overflowed: false,
        };
        push_part(out, self.print, &amount, self.format);
        out.push(b'\n');
        Ok(None)
    }

    ghost one_law = { amount_line_one };

    ghost cause_law = { λ rule word a b p q. absurd p };

    ghost never_law = { λ rule word made cause why p q. q };
}
