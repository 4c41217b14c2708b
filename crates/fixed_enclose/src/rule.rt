//! The rule of the program. It answers each line with the two values of its format that enclose its numeral.

ghost use Rattle.std.proofs.Common.{lit<};
ghost use Rattle.fixed_enclose.specs.Answer.{IsAnswer, fault_message};
ghost use Rattle.fixed_enclose.specs.Lemmas.AnswerLemmas.{answer_one, long_by_its_prefix};
ghost use Rattle.fixed_respell.specs.Refusal.{refusal_text};

use crate::answering::answer_or_refuse;
use crate::fault::EncloseFault;
use fixed_respell::Refusal;
use fixed_steps::Steps;
use line_engine::{MAX_ANSWER, Output};
use run_engine::{LineRule, Rule, push_error};
use std::sync::ledger::Ledger;

/// The rule that answers a line `RADIX FORMAT NUMERAL`: with the line's first fault; else with the fault for which its
/// numeral is refused; else with the shortest decimal and the bits of the greatest value of the format that is not
/// above the numeral's, those of the least that is not below it, and `exact` if they are equal, else `wide`.
#[derive(Clone, Copy, Debug, PartialEq, Eq)]
pub struct EncloseRule;

impl<L: Ledger> Rule<L> for EncloseRule {
    type Note = ();

    type Cause = Refusal<EncloseFault>;

    const PER_BYTE: u64 = 16;

    const EXTRA: u64 = 1248;

    const MAX_ANSWER: usize = MAX_ANSWER;

    ghost PER_BYTE = { 16 };

    ghost EXTRA = { 1248 };

    ghost MAX_ANSWER = { 192 };

    ghost Answers = { λ rule. IsAnswer };

    ghost Notes = { λ rule line note. Unit {0} };

    ghost refusal = { λ rule. refusal_text fault_message };

    fn answer(
        &self,
        line: &[u8],
        out: &mut Output,
        steps: &mut Steps<L>,
    ) -> Result<(), Refusal<EncloseFault>> {
        answer_or_refuse(line, out, steps)
    }

    fn push_refusal(&self, _line: &[u8], cause: &Refusal<EncloseFault>, out: &mut Output) {
        push_error(cause, out);
    }

    ghost room_law = { lit< tt };

    ghost one_law = { λ rule. answer_one };
}

impl<L: Ledger> LineRule<L> for EncloseRule {
    ghost kept_law = { λ rule. long_by_its_prefix };
}
