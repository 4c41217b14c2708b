//! The rule of the program: it answers a constants file with its canonical text.

ghost use Rattle.std.specs.Prelude.{◌≡◌, ◌++◌, IfOk, OnOk, true};
ghost use Rattle.fixed_constants.specs.Answer.{IsWholeAnswer, fault_line, fault_message};
ghost use Rattle.fixed_constants.specs.Lemmas.ConstantsLemmas.{answer_one};
ghost use Rattle.line_engine.specs.Refusals.{reply_of};

use crate::canonical::write_constants;
use crate::constants::read_constants;
use crate::fault::{ConstantFault, ConstantsError};
use fixed_steps::Steps;
use itoa::Buffer;
use line_engine::{WholeAnswer, WholeRule};
use std::alloc::{AllocError, Global};
use std::sync::ledger::Ledger;
use text_buffer::NoMemory;

/// The rule that answers a constants file.
#[derive(Clone, Copy, Debug, PartialEq, Eq)]
pub struct ConstantsRule;

/// Appends the message of a fault.
fn push_message(text: &mut Vec<u8>, fault: ConstantFault) -> Result<(), AllocError>
    ensures { OnOk result (text.new.items ≡ text.old.items ++ fault_message fault) }
{
    match fault {
        ConstantFault::MissingField => text.extend_from_slice(b"missing field")?,
        ConstantFault::BadName => text.extend_from_slice(b"bad name")?,
        ConstantFault::MissingEquals => text.extend_from_slice(b"missing equals sign")?,
        ConstantFault::BadFormat => text.extend_from_slice(b"bad format")?,
        ConstantFault::BadLiteral(error) => text.extend_from_slice(error.message().as_bytes())?,
        ConstantFault::Duplicate { first } => {
            let mut digits = Buffer::new();
            text.extend_from_slice(b"duplicate of line ")?;
            text.extend_from_slice(digits.format(first).as_bytes())?;
        }
    }
    Ok(())
}

/// Returns the refusal of a file for a line with a fault.
pub fn refusal(alloc: Global, line: u64, fault: ConstantFault) -> Result<WholeAnswer, NoMemory>
    ensures { IfOk result (λ answer. reply_of answer ≡ record { text = fault_line line fault; fault = true }) }
{
    let mut cause = Vec::new(alloc);
    match push_message(&mut cause, fault) {
        Ok(()) => Ok(WholeAnswer::Refused {
            number: line,
            cause,
        }),
        Err(_) => Err(NoMemory),
    }
}

impl<L: Ledger> WholeRule<L> for ConstantsRule {
    ghost Answers = { λ rule. IsWholeAnswer };

    fn answer(
        &self,
        alloc: Global,
        input: &[u8],
        steps: &mut Steps<L>,
    ) -> Result<WholeAnswer, NoMemory> {
        match read_constants(alloc, input) {
            Ok(constants) => match write_constants(alloc, &constants) {
                Ok(text) => Ok(WholeAnswer::Text(text.into_bytes())),
                Err(NoMemory) => Err(NoMemory),
            },
            Err(ConstantsError::Refused { line, fault }) => refusal(alloc, line, fault),
            Err(ConstantsError::NoMemory) => Err(NoMemory),
        }
    }

    ghost one_law = { λ rule. answer_one };
}
