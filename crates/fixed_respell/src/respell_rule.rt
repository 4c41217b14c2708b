//! The rule of the program.

ghost use Rattle.std.proofs.Common.{lit<};
ghost use Rattle.fixed_respell.specs.Answer.{IsAnswer, fault_message};
ghost use Rattle.fixed_respell.specs.Lemmas.AnswerLemmas.{answer_one, long_by_its_prefix};
ghost use Rattle.fixed_respell.specs.Refusal.{refusal_text};

use crate::answering::answer_or_refuse;
use crate::fault::LineFault;
use crate::refusal::Refusal;
use fixed_steps::Steps;
use line_engine::{MAX_ANSWER, Output};
use run_engine::{LineRule, Rule, push_error};
use std::sync::ledger::Ledger;

/// The rule that answers a line as `answer` does.
#[derive(Clone, Copy, Debug, PartialEq, Eq)]
pub struct RespellRule;

impl<L: Ledger> Rule<L> for RespellRule {
    type Note = ();

    type Cause = Refusal<LineFault>;

    const PER_BYTE: u64 = 8;

    const EXTRA: u64 = 624;

    const MAX_ANSWER: usize = MAX_ANSWER;

    ghost PER_BYTE = { 8 };

    ghost EXTRA = { 624 };

    ghost MAX_ANSWER = { 192 };

    ghost Answers = { λ rule. IsAnswer };

    ghost Notes = { λ rule line note. Unit {0} };

    ghost refusal = { λ rule. refusal_text fault_message };

    fn answer(
        &self,
        line: &[u8],
        out: &mut Output,
        steps: &mut Steps<L>,
    ) -> Result<(), Refusal<LineFault>> {
        answer_or_refuse(line, out, steps)
    }

    fn push_refusal(&self, _line: &[u8], cause: &Refusal<LineFault>, out: &mut Output) {
        push_error(cause, out);
    }

    ghost room_law = { lit< tt };

    ghost one_law = { λ rule. answer_one };
}

impl<L: Ledger> LineRule<L> for RespellRule {
    ghost kept_law = { λ rule. long_by_its_prefix };
}
