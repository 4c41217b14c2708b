//! The least format that holds a list, for people: 248 lines that rule out as many formats come only if requested.

ghost use Rattle.std.specs.Prelude.{◌≡◌, IfOk, IsTrue, false};
ghost use Rattle.fixed_command.specs.LeastLines.{none_line, says_none};
ghost use Rattle.line_engine.specs.Refusals.{reply_of};

use fixed_least::LeastRule;
use fixed_numeral::Radix;
use fixed_steps::Steps;
use line_engine::{NoMemory, WholeAnswer, WholeRule};
use std::alloc::{AllocError, Global};
use std::sync::ledger::Ledger;

/// The rule that answers an input as `least_tool` does. If no format is left, it says which lines rule them out only if
/// requested.
#[derive(Clone, Copy, Debug, PartialEq, Eq)]
pub struct LeastLines {
    /// The radix of the numerals.
    pub radix: Radix,
    /// Whether the reasons are requested for which no format is left.
    pub is_reason_asked: bool,
}

/// Whether an answer says that no format is left.
fn says_none(answer: &WholeAnswer) -> bool
    ensures none { result ≡ says_none (reply_of answer.now).text }
    ensures text { IsTrue result → (reply_of answer.now).fault ≡ false }
{
    match answer {
        WholeAnswer::Text(text) => text.starts_with(b"none\n"),
        WholeAnswer::Refused { .. } => false,
    }
}

/// Returns the answer that no format is left, without reasons.
fn none_text(alloc: Global) -> Result<Vec<u8>, AllocError>
    ensures { IfOk result (λ text. text.items ≡ none_line) }
{
    let mut text = Vec::new(alloc);
    text.extend_from_slice(b"none\n")?;
    Ok(text)
}

impl<L: Ledger> WholeRule<L> for LeastLines {
    ghost use Rattle.fixed_command.specs.LeastLines.{IsLeastWritten};
    ghost use Rattle.fixed_command.specs.Lemmas.LeastLemmas.{least_written_one};

    ghost Answers = { λ rule. IsLeastWritten rule };

    fn answer(
        &self,
        alloc: Global,
        input: &[u8],
        steps: &mut Steps<L>,
    ) -> Result<WholeAnswer, NoMemory> {
        let rule = LeastRule { radix: self.radix };
        let answer = rule.answer(alloc, input, steps)?;
        if self.is_reason_asked || !says_none(&answer) {
            return Ok(answer);
        }
        match none_text(alloc) {
            Ok(text) => Ok(WholeAnswer::Text(text)),
            Err(_) => Err(NoMemory),
        }
    }

    ghost one_law = { λ rule. least_written_one rule };
}
