//! The replies to lines with amounts.

ghost use Rattle.std.specs.Prelude.{◌≡◌, ◌+◌, ◌*◌, ◌≤◌, ◌++◌, false, length};
ghost use Rattle.fixed_amounts.specs.Reply.{IsReply, fault_text, printed, unit_word};
ghost use Rattle.fixed_respell.specs.Answer.{respelled_answer};
ghost use Rattle.fixed_decimal.specs.Texts.{decimal_format_text};
ghost use Rattle.fixed_respell.specs.Refusal.{refusal_text};
ghost use Rattle.fixed_show.specs.Blocks.{hex_text};
ghost use Rattle.fixed_write.specs.Texts.{last_digits};
ghost use Rattle.run_engine.specs.Reply.{Replies};

use crate::reading::{Amount, AmountRefusal, read_amount};
use crate::settings::{AmountPrint, AmountSettings};
use fixed_bits::Inner;
use fixed_decimal::{DecimalFormat, push_decimal_format};
use fixed_respell::push_verdict;
use fixed_show::push_hex_digits;
use fixed_steps::Steps;
use fixed_write::push_integer;
use line_engine::MAX_ANSWER;
use std::sync::ledger::Ledger;
use text_buffer::TextBuffer;

/// Returns the word of 64 bits for a count of units.
fn word_of(units: i64) -> u64
    ensures { result ≡ unit_word units }
{
    <u64 as Inner>::wrap(i128::from(units))
}

/// Appends the 16 digits of the word of a count of units in hexadecimal.
fn push_digits<const N: usize>(out: &mut TextBuffer<N>, units: i64)
    requires room { length out.old + 16 ≤ N }
    ensures appended { out.new ≡ out.old ++ last_digits 16 false 16 (unit_word units) }
    ensures short { length out.new ≤ length out.old + 16 }
{
    push_hex_digits(out, word_of(units), 16);
}

/// Appends the word of a count of units in hexadecimal, after `0x`.
#[tactic(auto, unfolding(fixed_show::specs::Blocks::hex_text))]
pub(crate) fn push_hex<const N: usize>(out: &mut TextBuffer<N>, units: i64)
    requires room { length out.old + 18 ≤ N }
    ensures appended { out.new ≡ out.old ++ hex_text 64 (unit_word units) }
    ensures short { length out.new ≤ length out.old + 18 }
{
    out.push_bytes(b"0x");
    push_digits(out, units);
}

/// Appends text, count and verdict of an amount.
fn push_all<const N: usize>(out: &mut TextBuffer<N>, amount: &Amount, format: DecimalFormat)
    requires room { length out.old + 81 ≤ N }
    ensures appended { out.new ≡ out.old ++ (respelled_answer (decimal_format_text amount.now.units format)
        amount.now.units amount.now.overflowed).text }
    ensures short { length out.new ≤ length out.old + 81 }
{
    push_decimal_format(out, amount.units, format);
    out.push(b' ');
    push_integer(out, i128::from(amount.units));
    push_verdict(out, amount.overflowed);
}

/// Appends the requested part of an amount, at most 81 bytes.
pub fn push_part<const N: usize>(
    out: &mut TextBuffer<N>,
    print: AmountPrint,
    amount: &Amount,
    format: DecimalFormat,
)
    requires room { length out.old + 81 ≤ N }
    ensures appended { out.new ≡ out.old ++ printed print format amount.now.units amount.now.overflowed }
    ensures short { length out.new ≤ length out.old + 81 }
{
    match print {
        AmountPrint::Text => push_decimal_format(out, amount.units, format),
        AmountPrint::Units => push_integer(out, i128::from(amount.units)),
        AmountPrint::Hex => push_hex(out, amount.units),
        AmountPrint::HexDigits => push_digits(out, amount.units),
        AmountPrint::All => push_all(out, amount, format),
    }
}

/// Appends the reply to a numeral or a count of units, without a newline, or appends nothing and returns why it is
/// refused.
pub fn push_reply<const N: usize, L: Ledger>(
    settings: &AmountSettings,
    bytes: &[u8],
    out: &mut TextBuffer<N>,
    steps: &mut Steps<L>,
) -> Result<(), AmountRefusal>
    requires room { length out.old + MAX_ANSWER ≤ N }
    ensures reply { Replies (IsReply settings.now) (refusal_text fault_text) MAX_ANSWER bytes.now out.old out.new
        result }
    ensures cost { steps.new ≤ steps.old + 8 * length bytes.now + 128 }
{
    match read_amount(settings, bytes, steps) {
        Ok(amount) => {
            push_part(out, settings.print, &amount, settings.format);
            Ok(())
        }
        Err(refusal) => Err(refusal),
    }
}
