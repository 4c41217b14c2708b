//! Lines as people write them, answered by another rule.

ghost use Rattle.std.specs.Prelude.{◌≡◌, ◌+◌, ◌*◌, ◌<◌, List, ℕ, None};

use crate::convert::without_return;
use crate::layout::Layout;
use crate::line_blocks::BlockRule;
use fixed_enclose::EncloseRule;
use fixed_respell::RespellRule;
use fixed_steps::Steps;
use line_engine::{MAX_LINE, Output};
use run_engine::{LineRule, Refusals, Rule, Watch};
use std::sync::ledger::Ledger;

/// The rule that answers a line without blanks by another rule, and a skipped line with an empty one.
#[derive(Drop)]
pub struct LaidOutLines<R> {
    /// The rule for a line without blanks.
    pub rule: R,
    /// What a line has besides its numeral or its word.
    pub layout: Layout,
}

impl<R: Rule<L>, L: Ledger> Rule<L> for LaidOutLines<R> {
    ghost use Rattle.fixed_command.specs.Layout.{AnswersLaidOut, NotesLaidOut, answered_line};
    ghost use Rattle.fixed_command.specs.Lemmas.LaidLineLemmas.{laid_answer_one};

    type Note = Option<R::Note>;

    type Cause = R::Cause;

    const PER_BYTE: u64 = R::PER_BYTE;

    const EXTRA: u64 = R::EXTRA;

    const MAX_ANSWER: usize = R::MAX_ANSWER;

    ghost PER_BYTE = { R.PER_BYTE };

    ghost EXTRA = { R.EXTRA };

    ghost MAX_ANSWER = { R.MAX_ANSWER };

    ghost Answers = { λ laid. AnswersLaidOut laid.layout (R.Answers laid.rule) };

    ghost Notes = { λ laid. NotesLaidOut laid.layout (R.Notes laid.rule) };

    ghost refusal = { λ laid line. R.refusal laid.rule (answered_line laid.layout line) };

    fn answer(
        &self,
        line: &[u8],
        out: &mut Output,
        steps: &mut Steps<L>,
    ) -> Result<Option<R::Note>, R::Cause> {
        if line.len() <= MAX_LINE && self.layout.is_skipped(line) {
            return Ok(None);
        }
        match self.rule.answer(self.layout.answered(line), out, steps) {
            Ok(note) => Ok(Some(note)),
            Err(cause) => Err(cause),
        }
    }

    fn push_refusal(&self, line: &[u8], cause: &R::Cause, out: &mut Output) {
        self.rule
            .push_refusal(self.layout.answered(line), cause, out);
    }

    ghost room_law = { R.room_law };

    ghost one_law = { λ laid. laid_answer_one laid.layout (R.Answers laid.rule)
        (R.one_law laid.rule) };
}

impl<R: LineRule<L>, L: Ledger> LineRule<L> for LaidOutLines<R> {
    ghost use Rattle.fixed_command.specs.Lemmas.LaidLineLemmas.{laid_answer_kept};

    ghost kept_law = { λ laid. laid_answer_kept laid.layout (R.Answers laid.rule)
        (R.kept_law laid.rule) };
}

/// A rule with a part of each refused line that a report shows.
pub trait Recorded {
    ghost recorded: { List ℕ → List ℕ };

    /// Returns the part of a line that a report shows.
    fn recorded_line(line: &[u8]) -> &[u8]
        ensures { result.now ≡ recorded line.now };
}

impl Recorded for RespellRule {
    ghost recorded = { λ line. line };

    fn recorded_line(line: &[u8]) -> &[u8] {
        line
    }
}

impl Recorded for EncloseRule {
    ghost recorded = { λ line. line };

    fn recorded_line(line: &[u8]) -> &[u8] {
        line
    }
}

impl Recorded for BlockRule {
    ghost use Rattle.fixed_command.specs.Convert.{without_return};

    ghost recorded = { without_return };

    fn recorded_line(line: &[u8]) -> &[u8] {
        without_return(line)
    }
}

/// The refused lines, each by its recorded part as it was answered: their count, and the first.
#[derive(Drop)]
pub struct LaidRefusals<C> {
    pub refusals: Refusals<C>,
}

impl<C> LaidRefusals<C> {
    /// The state before the first line.
    pub fn new() -> LaidRefusals<C>
        ensures count { result.refusals.count ≡ 0 }
        ensures first { result.refusals.first ≡ None }
    {
        LaidRefusals {
            refusals: Refusals::new(),
        }
    }
}

impl<C: Copy, R: Rule<L, Cause = C> + Recorded, L: Ledger> Watch<LaidOutLines<R>, L>
    for LaidRefusals<C> {
    ghost use Rattle.fixed_command.specs.Observed.{SawLaid};

    ghost PER_BYTE = { 0 };

    ghost EXTRA = { 0 };

    ghost Saw = { λ laid watch number line result then. SawLaid R.recorded laid.layout watch.refusals number line result
        then.refusals };

    #[inline]
    fn see(
        &mut self,
        rule: &LaidOutLines<R>,
        number: u64,
        line: &[u8],
        returned: &Result<Option<R::Note>, C>,
        _steps: &mut Steps<L>,
    ) {
        if let Err(cause) = returned {
            let answered = rule.layout.answered(line);
            self.refusals
                .refuse(number, R::recorded_line(answered), *cause);
        }
    }
}
