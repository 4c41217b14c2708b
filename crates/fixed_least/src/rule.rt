//! The rule of the program. It answers an input with the least format of its lines, and the lines that refute lesser
//! ones.

ghost use Rattle.std.specs.Prelude.{◌≡◌, ◌++◌, IfOk, OnOk, true};
ghost use Rattle.line_engine.specs.Output.{reply_line};
ghost use Rattle.line_engine.specs.Refusals.{reply_of};
ghost use Rattle.fixed_least.specs.Least.{IsLeastText, IsWholeAnswer, fault_line};
ghost use Rattle.fixed_least.specs.Lemmas.LeastLemmas.{answer_one};

use crate::least::{Least, LeastFault, least_format};
use fixed_numeral::Radix;
use fixed_steps::Steps;
use line_engine::{Answer, WholeAnswer, WholeRule};
use std::alloc::{AllocError, Global};
use std::sync::ledger::Ledger;
use text_buffer::NoMemory;

/// The rule that answers an input as a list of numerals of a radix.
#[derive(Clone, Copy, Debug, PartialEq, Eq)]
pub struct LeastRule {
    /// The radix of the numerals.
    pub radix: Radix,
}

/// Appends an answer and a newline.
fn push_line(text: &mut Vec<u8>, answer: &Answer) -> Result<(), AllocError>
    ensures { OnOk result (text.new.items ≡ text.old.items ++ reply_line answer.now) }
{
    text.extend_from_slice(answer.as_bytes())?;
    text.push(b'\n')?;
    Ok(())
}

/// Returns the lines about the outcome, each with a newline.
fn least_text(alloc: Global, least: &Least) -> Result<Vec<u8>, AllocError>
    ensures { IfOk result (λ text. IsLeastText least.now text.items) }
{
    let mut text = Vec::new(alloc);
    let count = least.refuted();
    let mut i = 0;
    while i <= count {
        push_line(&mut text, &least.line(i))?;
        i += 1;
    }
    Ok(text)
}

/// Returns the refusal of an input with a line that is not a numeral.
fn refusal(alloc: Global, fault: LeastFault) -> Result<WholeAnswer, NoMemory>
    ensures { IfOk result (λ answer. reply_of answer ≡ record { text = fault_line fault; fault = true }) }
{
    let LeastFault::NotNumeral { place, error } = fault;
    WholeAnswer::refused(alloc, place, error.message().as_bytes())
}

impl<L: Ledger> WholeRule<L> for LeastRule {
    ghost Answers = { λ rule. IsWholeAnswer rule.radix };

    fn answer(
        &self,
        alloc: Global,
        input: &[u8],
        steps: &mut Steps<L>,
    ) -> Result<WholeAnswer, NoMemory> {
        match least_format(input, self.radix, steps) {
            Ok(least) => match least_text(alloc, &least) {
                Ok(text) => Ok(WholeAnswer::Text(text)),
                Err(_) => Err(NoMemory),
            },
            Err(fault) => refusal(alloc, fault),
        }
    }

    ghost one_law = { λ rule. answer_one rule.radix };
}
