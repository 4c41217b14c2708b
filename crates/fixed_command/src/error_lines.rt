//! Numerals one a line, each answered with its error, in the words of its block.
//!
//! A numeral is read into one format and not moved, and an error may be longer than a conversion. So these lines have a
//! rule of their own.

ghost use Rattle.std.specs.Prelude.{◌+◌, ◌*◌, ◌≤◌, length};
ghost use Rattle.fixed_command.specs.Errors.{IsErrorReply};
ghost use Rattle.fixed_command.specs.Message.{message_text};
ghost use Rattle.run_engine.specs.Reply.{Replies};

use crate::convert::frac_of;
use crate::layout::{Layout, too_long};
use crate::message::Message;
use fixed_bits::{Format, Policy, ReadMode};
use fixed_numeral::Radix;
use fixed_show::{MAX_ERROR, Measure, push_measured};
use fixed_steps::Steps;
use line_engine::{MAX_LINE, Output};
use run_engine::{LineRule, Rule, push_error};
use std::sync::ledger::Ledger;
use text_buffer::TextBuffer;

/// How numerals are read, and how their errors are measured.
#[derive(Clone, Copy, Debug, PartialEq, Eq)]
pub struct ErrorSettings {
    /// The radix of the numerals.
    pub radix: Radix,
    /// The format that a numeral is read into.
    pub format: Format,
    /// What is done with a number that is out of range.
    pub policy: Policy,
    /// How a numeral is rounded.
    pub mode: ReadMode,
    /// How the error is measured.
    pub measure: Measure,
}

/// Appends the error of a numeral, or appends nothing and returns why the numeral is refused.
fn push_reply<const N: usize, L: Ledger>(
    settings: &ErrorSettings,
    numeral: &[u8],
    out: &mut TextBuffer<N>,
    steps: &mut Steps<L>,
) -> Result<(), Message>
    requires room { length out.old + MAX_ERROR ≤ N }
    ensures reply { Replies (IsErrorReply settings.now) message_text MAX_ERROR numeral.now out.old out.new result }
    ensures cost { steps.new ≤ steps.old + 11 * length numeral.now + 1565 }
{
    let s = settings;
    let _frac = frac_of(s.format);
    match push_measured(
        numeral, s.radix, s.format, s.policy, s.mode, s.measure, out, steps,
    ) {
        Ok(()) => Ok(()),
        Err(error) => Err(Message {
            text: error.message(),
        }),
    }
}

/// The rule that answers a line with the error of its numeral, and a skipped line with an empty one.
#[derive(Drop)]
pub struct ErrorLines {
    /// How a numeral is read, and how its error is measured.
    pub settings: ErrorSettings,
    /// What a line has besides its numeral.
    pub layout: Layout,
}

impl<L: Ledger> Rule<L> for ErrorLines {
    ghost use Rattle.std.proofs.Common.{lit<};
    ghost use Rattle.fixed_command.specs.Errors.{IsErrorLine, IsErrorReply};
    ghost use Rattle.fixed_command.specs.Lemmas.ErrorLemmas.{error_reply_one};
    ghost use Rattle.fixed_command.specs.Lemmas.LayoutLemmas.{laid_out_one};
    ghost use Rattle.fixed_command.specs.Message.{message_text};

    type Note = ();

    type Cause = Message;

    const PER_BYTE: u64 = 11;

    const EXTRA: u64 = 1565;

    const MAX_ANSWER: usize = MAX_ERROR;

    ghost PER_BYTE = { 11 };

    ghost EXTRA = { 1565 };

    ghost MAX_ANSWER = { 1380 };

    ghost Answers = { λ lines. IsErrorLine lines };

    ghost Notes = { λ lines line note. Unit {0} };

    ghost refusal = { λ lines. message_text };

    fn answer(&self, line: &[u8], out: &mut Output, steps: &mut Steps<L>) -> Result<(), Message> {
        if line.len() > MAX_LINE {
            return Err(too_long());
        }
        if self.layout.is_skipped(line) {
            return Ok(());
        }
        push_reply(&self.settings, self.layout.numeral_of(line), out, steps)
    }

    fn push_refusal(&self, _line: &[u8], cause: &Message, out: &mut Output) {
        push_error(cause, out);
    }

    ghost room_law = { lit< tt };

    ghost one_law = { λ lines. laid_out_one lines.layout (IsErrorReply lines.settings)
        (error_reply_one lines.settings) };
}

impl<L: Ledger> LineRule<L> for ErrorLines {
    ghost use Rattle.fixed_command.specs.Errors.{IsErrorReply};
    ghost use Rattle.fixed_command.specs.Lemmas.ErrorLemmas.{error_reply_one};
    ghost use Rattle.fixed_command.specs.Lemmas.LayoutLemmas.{long_by_its_prefix};

    ghost kept_law = { λ lines. long_by_its_prefix lines.layout (IsErrorReply lines.settings)
        (error_reply_one lines.settings) };
}
