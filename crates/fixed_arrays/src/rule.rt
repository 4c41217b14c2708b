//! The rule that answers a list of numerals with an array.

ghost use Rattle.std.specs.Prelude.{◌≡◌, IfOk, true};
ghost use Rattle.fixed_arrays.specs.Answer.{IsArrayAnswer, fault_line};
ghost use Rattle.fixed_arrays.specs.Lemmas.AnswerLemmas.{array_answer_one};
ghost use Rattle.line_engine.specs.Refusals.{reply_of};

use crate::elements::read_elements;
use crate::fault::ArrayFault;
use crate::form::ArrayForm;
use crate::text::{array_text, frame_of};
use fixed_bits::{Format, Policy, ReadMode};
use fixed_command::Layout;
use fixed_numeral::Radix;
use fixed_steps::Steps;
use line_engine::{NoMemory, WholeAnswer, WholeRule};
use std::alloc::Global;
use std::sync::ledger::Ledger;

/// How the numerals of a list are read.
#[derive(Clone, Copy, Debug, PartialEq, Eq)]
pub struct Numerals {
    /// Their radix.
    pub radix: Radix,
    /// The format that they are read into.
    pub format: Format,
    /// What to do with a number out of range.
    pub policy: Policy,
    /// How a numeral is rounded.
    pub mode: ReadMode,
}

/// The rule that answers a list of numerals, one a line, with the array of its numbers.
#[derive(Clone, Copy)]
pub struct ArrayRule<'a> {
    /// The form of the array.
    pub form: ArrayForm,
    /// How the numerals are read.
    pub numerals: Numerals,
    /// The name of the array.
    pub name: &'a [u8],
    /// The name that guards a C header; empty without a guard.
    pub guard: &'a [u8],
    /// What a line has besides its numeral, if anything. A skipped line has no number.
    pub layout: &'a Option<Layout>,
}

/// Returns the refusal of a list for a fault.
fn refusal(alloc: Global, fault: ArrayFault) -> Result<WholeAnswer, NoMemory>
    ensures text { IfOk result (λ answer. (reply_of answer).text ≡ fault_line fault) }
    ensures fault { IfOk result (λ answer. (reply_of answer).fault ≡ true) }
{
    match fault {
        ArrayFault::Empty => WholeAnswer::refused(alloc, 1, b"no numeral"),
        ArrayFault::Refused { place, error } => {
            WholeAnswer::refused(alloc, place, error.message().as_bytes())
        }
        ArrayFault::NoMemory => Err(NoMemory),
    }
}

impl<'a, L: Ledger> WholeRule<L> for ArrayRule<'a> {
    ghost Answers = { λ rule. IsArrayAnswer rule };

    fn answer(
        &self,
        alloc: Global,
        input: &[u8],
        steps: &mut Steps<L>,
    ) -> Result<WholeAnswer, NoMemory> {
        match read_elements(alloc, self, input, steps) {
            Ok(elements) => match array_text(alloc, &frame_of(self), &elements, steps) {
                Ok(text) => Ok(WholeAnswer::Text(text)),
                Err(_) => Err(NoMemory),
            },
            Err(ArrayFault::NoMemory) => Err(NoMemory),
            Err(fault) => refusal(alloc, fault),
        }
    }

    ghost one_law = { λ rule. array_answer_one rule };
}
