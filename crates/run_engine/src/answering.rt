//! Answers a line by a rule and tells an observer.

ghost use Rattle.std.specs.Prelude.{◌≡◌, ◌≤◌, ◌+◌, ◌*◌, ◌++◌, length};
ghost use Rattle.run_engine.specs.LineRun.{AnswersLine};
ghost use Rattle.run_engine.specs.Reply.{Returns, error_text};

use crate::rule::{Cause, Rule};
use crate::watch::Watch;
use fixed_steps::Steps;
use line_engine::Output;
use std::sync::ledger::Ledger;

/// Appends `error: ` and the message of a cause.
#[cold]
pub fn push_error<C: Cause>(cause: &C, out: &mut Output)
    requires { length out.old + length (error_text (C.message cause.now)) ≤ 8192 }
    ensures { out.new ≡ out.old ++ error_text (C.message cause.now) }
{
    out.push_bytes(b"error: ");
    cause.push_message(out);
}

/// Appends a rule's answer to a line, or the text for the cause for which it is refused, without a newline, and tells
/// the observer. Returns whether the line is refused.
#[inline]
pub fn answer_one<R: Rule<L>, W: Watch<R, L>, L: Ledger>(
    rule: &R,
    line: &[u8],
    number: u64,
    watch: &mut W,
    out: &mut Output,
    steps: &mut Steps<L>,
) -> bool
    requires room { length out.old + R.MAX_ANSWER ≤ 8192 }
    ensures answers { AnswersLine (R.Answers rule.now) (Returns (R.Notes rule.now) (R.refusal rule.now))
        (W.Saw rule.now) line.now number watch.old watch.new out.old out.new result }
    ensures room { length out.new ≤ length out.old + R.MAX_ANSWER }
    ensures cost { steps.new ≤ steps.old + (R.PER_BYTE + W.PER_BYTE) * length line.now + (R.EXTRA + W.EXTRA) }
{
    let returned = rule.answer(line, out, steps);
    match &returned {
        Ok(_) => (),
        Err(cause) => rule.push_refusal(line, cause, out),
    }
    watch.see(rule, number, line, &returned, steps);
    returned.is_err()
}
