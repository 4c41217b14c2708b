//! Observers of the lines of a task, and the rule that also tells them the outcome of each numeral.

ghost use Rattle.std.specs.Prelude.{◌≡◌, ◌≤◌, ◌+◌, ◌*◌, [], None, length};
ghost use Rattle.fixed_command.specs.Observed.{ErrorAdded, IsLineOutcome, reported_of};
ghost use Rattle.fixed_command.specs.Reports.{no_tally};
ghost use Rattle.fixed_report.specs.Report.{HasReport, HasSums, add_extra, add_per_byte};

use crate::convert::without_return;
use crate::layout::LaidOutRule;
use crate::message::Message;
use crate::outcome::{Outcome, Tally, error_report, has_error, outcome_of};
use crate::watch::{Refusals as ReportedRefusals, RefusedLine};
use fixed_report::ErrorReport;
use fixed_respell::{Fault, Refusal};
use fixed_steps::Steps;
use line_engine::{MAX_ANSWER, Output};
use run_engine::{Cause, LineRule, Refusals, Rule, Watch, push_error};
use std::alloc::Global;
use std::sync::ledger::Ledger;

/// A cause whose message is known as a text.
pub trait Worded: Cause {
    /// Returns the message.
    fn words(&self) -> &'static str
        ensures { result.now ≡ Self.message self.now };
}

impl Worded for Message {
    fn words(&self) -> &'static str {
        self.text
    }
}

impl<F: Fault> Worded for Refusal<F> {
    fn words(&self) -> &'static str {
        Refusal::words(self)
    }
}

/// Returns what a report says of refused lines.
pub fn reported<C: Worded>(refusals: &Refusals<C>) -> ReportedRefusals
    ensures count { result.count ≡ refusals.now.count }
    ensures first { result.first ≡ reported_of C.message refusals.now.first }
{
    let first = match &refusals.first {
        None => None,
        Some(line) => Some(RefusedLine::new(
            line.number,
            line.line.as_bytes(),
            line.cause.words().as_bytes(),
        )),
    };
    ReportedRefusals {
        count: refusals.count,
        first,
    }
}

/// The refused lines, each without one carriage return at its end: their count, and the first.
#[derive(Drop)]
pub struct RefusedLines {
    pub refusals: Refusals<Message>,
}

impl RefusedLines {
    /// The state before the first line.
    pub fn new() -> RefusedLines
        ensures count { result.refusals.count ≡ 0 }
        ensures first { result.refusals.first ≡ None }
    {
        RefusedLines {
            refusals: Refusals::new(),
        }
    }
}

impl<R: Rule<L, Cause = Message>, L: Ledger> Watch<R, L> for RefusedLines {
    ghost use Rattle.fixed_command.specs.Observed.{SawReturned};

    ghost PER_BYTE = { 0 };

    ghost EXTRA = { 0 };

    ghost Saw = { λ rule watch number line result then. SawReturned watch.refusals number line result then.refusals };

    #[inline]
    fn see(
        &mut self,
        _rule: &R,
        number: u64,
        line: &[u8],
        returned: &Result<R::Note, Message>,
        _steps: &mut Steps<L>,
    ) {
        if let Err(cause) = returned {
            self.refusals.refuse(number, without_return(line), *cause);
        }
    }
}

/// The rule of a report: the rule of a conversion of lines as people write them, which also tells the outcome of the
/// numeral of each answered line.
#[derive(Drop)]
pub struct CountedRule {
    /// The rule.
    pub laid: LaidOutRule,
}

impl CountedRule {
    /// Returns the outcome of the numeral of an answered line, if it has one.
    fn outcome<L: Ledger>(&self, line: &[u8], steps: &mut Steps<L>) -> Option<Outcome>
        ensures outcome { IsLineOutcome self.now.laid line.now result }
        ensures cost { steps.new ≤ steps.old + 16 * length line.now + 704 }
    {
        let layout = &self.laid.layout;
        if layout.is_skipped(line) {
            return None;
        }
        Some(outcome_of(self.laid.rule.settings(), layout.numeral_of(line), steps))
    }
}

impl<L: Ledger> Rule<L> for CountedRule {
    ghost use Rattle.std.proofs.Common.{lit<};
    ghost use Rattle.fixed_command.specs.Convert.{IsReply};
    ghost use Rattle.fixed_command.specs.Layout.{IsLaidOut};
    ghost use Rattle.fixed_command.specs.Lemmas.LayoutLemmas.{laid_out_one};
    ghost use Rattle.fixed_command.specs.Lemmas.ReplyLemmas.{reply_one};
    ghost use Rattle.fixed_command.specs.Message.{message_text};

    type Note = Option<Outcome>;

    type Cause = Message;

    const PER_BYTE: u64 = 24;

    const EXTRA: u64 = 1328;

    const MAX_ANSWER: usize = MAX_ANSWER;

    ghost PER_BYTE = { 24 };

    ghost EXTRA = { 1328 };

    ghost MAX_ANSWER = { 192 };

    ghost Answers = { λ counted. IsLaidOut counted.laid.layout (IsReply counted.laid.rule) };

    ghost Notes = { λ counted line note. IsLineOutcome counted.laid line note };

    ghost refusal = { λ counted. message_text };

    fn answer(
        &self,
        line: &[u8],
        out: &mut Output,
        steps: &mut Steps<L>,
    ) -> Result<Option<Outcome>, Message> {
        match self.laid.answer(line, out, steps) {
            Ok(()) => Ok(self.outcome(line, steps)),
            Err(message) => Err(message),
        }
    }

    fn push_refusal(&self, _line: &[u8], cause: &Message, out: &mut Output) {
        push_error(cause, out);
    }

    ghost room_law = { lit< tt };

    ghost one_law = { λ counted. laid_out_one counted.laid.layout (IsReply counted.laid.rule)
        (reply_one counted.laid.rule) };
}

impl<L: Ledger> LineRule<L> for CountedRule {
    ghost use Rattle.fixed_command.specs.Convert.{IsReply};
    ghost use Rattle.fixed_command.specs.Lemmas.LayoutLemmas.{long_by_its_prefix};
    ghost use Rattle.fixed_command.specs.Lemmas.ReplyLemmas.{reply_one};

    ghost kept_law = { λ counted. long_by_its_prefix counted.laid.layout (IsReply counted.laid.rule)
        (reply_one counted.laid.rule) };
}

/// The report of the lines of an input: the refused lines, the outcomes of the numerals, and the greatest error.
#[derive(Drop)]
pub struct LineReport {
    pub refusals: Refusals<Message>,
    pub tally: Tally,
    pub errors: ErrorReport,
}

impl LineReport {
    /// The state before the first line.
    pub fn new(alloc: Global, laid: &LaidOutRule) -> LineReport
        ensures count { result.refusals.count ≡ 0 }
        ensures first { result.refusals.first ≡ None }
        ensures tally { result.tally ≡ no_tally }
        ensures errors { HasReport laid.now.rule.mode laid.now.rule.radix laid.now.rule.source [] result.errors.lost
            result.errors.greatest }
        ensures sums { HasSums laid.now.rule.mode laid.now.rule.radix laid.now.rule.source [] result.errors.lost
            result.errors.sums }
    {
        LineReport {
            refusals: Refusals::new(),
            tally: Tally::new(),
            errors: error_report(alloc, laid.rule.settings()),
        }
    }

    /// Records the error of the numeral of a line with this outcome, if it has one.
    fn add_error<L: Ledger>(
        &mut self,
        laid: &LaidOutRule,
        number: u64,
        line: &[u8],
        outcome: Outcome,
        steps: &mut Steps<L>,
    )
        ensures refusals { self.new.refusals ≡ self.old.refusals }
        ensures tally { self.new.tally ≡ self.old.tally }
        ensures errors { ErrorAdded laid.now self.old.errors number line.now outcome self.new.errors }
        ensures cost { steps.new ≤ steps.old + add_per_byte * length line.now + add_extra }
    {
        if has_error(laid.rule.settings().spelling, outcome) {
            self.errors.add(laid.layout.numeral_of(line), number, steps);
        }
    }
}

impl<L: Ledger> Watch<CountedRule, L> for LineReport {
    ghost use Rattle.fixed_command.specs.Observed.{SawCounted};

    ghost PER_BYTE = { add_per_byte };

    ghost EXTRA = { add_extra };

    ghost Saw = { λ counted watch number line result then. SawCounted counted.laid watch number line result then };

    fn see(
        &mut self,
        rule: &CountedRule,
        number: u64,
        line: &[u8],
        returned: &Result<Option<Outcome>, Message>,
        steps: &mut Steps<L>,
    ) {
        match returned {
            Err(cause) => {
                self.refusals.refuse(number, without_return(line), *cause);
                self.tally.note(number, Outcome::Refused);
            }
            Ok(None) => (),
            Ok(Some(outcome)) => {
                self.tally.note(number, *outcome);
                self.add_error(&rule.laid, number, line, *outcome, steps);
            }
        }
    }
}
