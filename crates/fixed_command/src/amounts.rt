//! Lines with amounts, answered over any source and any sink.

ghost use Rattle.std.specs.Prelude.{◌≡◌, [], codes};
ghost use Rattle.fixed_amounts.specs.Explained.{ExplainsOverflow};
ghost use Rattle.fixed_command.specs.Convert.{without_return};
ghost use Rattle.fixed_command.specs.Explained.{looked_at};
ghost use Rattle.fixed_numeral.specs.Numeral.{IsNumeral};
ghost use Rattle.fixed_numeral.specs.declared.radix.Radix.{Radix};
ghost use Rattle.fixed_amounts.specs.Reply.{fault_text};
ghost use Rattle.fixed_command.specs.Amounts.{HasAmountsRun, IsAmountLine};
ghost use Rattle.fixed_command.specs.Limits.{limit_of};
ghost use Rattle.fixed_command.specs.Rejects.{RejectsRun};
ghost use Rattle.fixed_command.specs.Reports.{NoNote};
ghost use Rattle.fixed_respell.specs.Refusal.{refusal_message, refusal_text};
ghost use Rattle.line_engine.specs.Program.{outside};
ghost use Rattle.line_engine.specs.declared.status.Status.{Status};

use crate::convert::without_return;
use crate::explain_field::numeral_of;
use crate::field::{FieldForm, FieldReply};
use crate::layout::Layout;
use crate::task::{Limit, run_rule};
use fixed_amounts::{
    AmountFault, AmountRefusal, AmountSettings, MAX_OVERFLOW, overflow_explanation, push_reply,
};
use fixed_respell::{Refusal, push_fault};
use fixed_steps::Steps;
use line_engine::{MAX_ANSWER, MAX_LINE, Output, Sink, Source, Status};
use line_rejects::Rejects;
use run_engine::{LineRule, LinesEnd, Refusals, Rule, push_error};
use std::alloc::Global;
use std::sync::ledger::Ledger;
use text_buffer::TextBuffer;

/// The rule that answers a line with its amount, and a skipped line with an empty one.
#[derive(Drop)]
pub struct AmountLines {
    /// How an amount is read, and what is written of it.
    pub settings: AmountSettings,
    /// What a line has besides it.
    pub layout: Layout,
}

impl<L: Ledger> Rule<L> for AmountLines {
    ghost use Rattle.std.proofs.Common.{lit<};
    ghost use Rattle.fixed_amounts.specs.Lemmas.ReplyLemmas.{amount_reply_one};
    ghost use Rattle.fixed_amounts.specs.Reply.{IsReply, fault_text};
    ghost use Rattle.fixed_respell.specs.Refusal.{refusal_text};
    ghost use Rattle.fixed_command.specs.Amounts.{IsAmountLine};
    ghost use Rattle.fixed_command.specs.Lemmas.LayoutLemmas.{laid_out_one};

    type Note = ();

    type Cause = AmountRefusal;

    const PER_BYTE: u64 = 8;

    const EXTRA: u64 = 128;

    const MAX_ANSWER: usize = MAX_ANSWER;

    ghost PER_BYTE = { 8 };

    ghost EXTRA = { 128 };

    ghost MAX_ANSWER = { 192 };

    ghost Answers = { λ lines. IsAmountLine lines };

    ghost Notes = { λ lines line note. Unit {0} };

    ghost refusal = { λ lines. refusal_text fault_text };

    fn answer(
        &self,
        line: &[u8],
        out: &mut Output,
        steps: &mut Steps<L>,
    ) -> Result<(), AmountRefusal> {
        if line.len() > MAX_LINE {
            return Err(Refusal::Line(AmountFault::TooLong));
        }
        if self.layout.is_skipped(line) {
            return Ok(());
        }
        push_reply(&self.settings, self.layout.numeral_of(line), out, steps)
    }

    fn push_refusal(&self, _line: &[u8], cause: &AmountRefusal, out: &mut Output) {
        push_error(cause, out);
    }

    ghost room_law = { lit< tt };

    ghost one_law = { λ lines. laid_out_one lines.layout (IsReply lines.settings)
        (amount_reply_one lines.settings) };
}

impl<L: Ledger> LineRule<L> for AmountLines {
    ghost use Rattle.fixed_amounts.specs.Lemmas.ReplyLemmas.{amount_reply_one};
    ghost use Rattle.fixed_amounts.specs.Reply.{IsReply};
    ghost use Rattle.fixed_command.specs.Lemmas.LayoutLemmas.{long_by_its_prefix};

    ghost kept_law = { λ lines. long_by_its_prefix lines.layout (IsReply lines.settings)
        (amount_reply_one lines.settings) };
}

impl<L: Ledger> FieldReply<L> for AmountSettings {
    ghost use Rattle.fixed_amounts.specs.Lemmas.ReplyLemmas.{amount_reply_one};
    ghost use Rattle.fixed_amounts.specs.Reply.{IsReply};
    ghost use Rattle.fixed_command.specs.Convert.{without_return};

    ghost Replies = { λ settings line. IsReply settings (without_return line) };

    fn reply_to(&self, line: &[u8], out: &mut Output, steps: &mut Steps<L>) -> bool {
        match push_reply(self, without_return(line), out, steps) {
            Ok(()) => false,
            Err(refusal) => {
                push_fault(out, refusal.words());
                true
            }
        }
    }

    ghost one_law = { λ settings line. amount_reply_one settings (without_return line) };
}

/// Explains a field that is refused for this cause: for an overflow, gives the number that was reached and the range of
/// the format. Empty for other causes. It reads up to 640 bytes of the field's numeral.
pub fn amount_field_explanation<L: Ledger>(
    settings: &AmountSettings,
    form: &FieldForm<'_>,
    field: &[u8],
    cause: &[u8],
    steps: &mut Steps<L>,
) -> TextBuffer<MAX_OVERFLOW>
    ensures overflow { cause.now ≡ codes "overflow"
        → IsNumeral Radix.Dec (without_return (looked_at form.now field.now))
        → ExplainsOverflow settings.now.mode settings.now.format (without_return (looked_at form.now field.now))
        result }
    ensures other { ¬ (cause.now ≡ codes "overflow") → result ≡ [] }
{
    if cause != b"overflow".as_slice() {
        return TextBuffer::new();
    }
    let numeral = numeral_of(form, field);
    overflow_explanation(
        without_return(numeral.as_bytes()),
        settings.format,
        settings.mode,
        steps,
    )
}

/// Answers each line of an input within the limit with its amount. It allocates one line buffer before the first read.
/// `NoMemory`: there was no memory for it. Returns how that ended, with the count of the refused lines and the first.
pub fn run_amounts<S: Source, K: Sink, J: Sink + Drop, L: Ledger>(
    alloc: Global,
    limit: &Option<Limit>,
    lines: &AmountLines,
    rejects: &mut Rejects<'_, J>,
    source: &mut S,
    sink: &mut K,
    steps: &mut Steps<L>,
) -> LinesEnd<Refusals<AmountRefusal>>
    // What was read, made and written, by status; which count of failures rose; and which refused lines are kept.
    ensures run { ¬ (result.status ≡ Status.NoMemory) → HasAmountsRun (limit_of limit.now) lines.now
        (outside (S.left source.old) (S.asked source.old) (S.failures source.old) (K.written sink.old)
        (K.failures sink.old) steps.old)
        (outside (S.left source.new) (S.asked source.new) (S.failures source.new) (K.written sink.new)
        (K.failures sink.new) steps.new) result.status result.watch }

    // Which lines of rejects it puts.
    ensures rejects { ¬ (result.status ≡ Status.NoMemory) → RejectsRun lines.now (IsAmountLine lines.now) NoNote
        (refusal_text fault_text) without_return (refusal_message fault_text) 8 128 (limit_of limit.now) J.written
        J.failures
        (outside (S.left source.old) (S.asked source.old) (S.failures source.old) (K.written sink.old)
        (K.failures sink.old) steps.old)
        (outside (S.left source.new) (S.asked source.new) (S.failures source.new) (K.written sink.new)
        (K.failures sink.new) steps.new) result.status rejects.old rejects.new }

    // Nothing was read or written.
    ensures memory { result.status ≡ Status.NoMemory
        → (source.new ≡ source.old) × (sink.new ≡ sink.old) × (steps.new ≡ steps.old) }
{
    let refusals = Refusals::new();
    run_rule(alloc, limit, lines, refusals, rejects, source, sink, steps)
}
