//! The rule that answers a file of named literals with an array.

ghost use Rattle.std.specs.Prelude.{◌≡◌, IfOk, true};
ghost use Rattle.fixed_arrays.specs.Literals.{IsLiteralArrayAnswer, frame_for, literals_fault_line};
ghost use Rattle.fixed_arrays.specs.Literals.{other_format_line};
ghost use Rattle.fixed_arrays.specs.Inner.Literals.{AreInRange};
ghost use Rattle.fixed_arrays.specs.Table.{literals_text};
ghost use Rattle.fixed_arrays.specs.Lemmas.LiteralLemmas.{literal_answer_one};
ghost use Rattle.line_engine.specs.Refusals.{reply_of};

use crate::fault::LiteralsFault;
use crate::form::ArrayForm;
use crate::literals::{
    fault_without_format, first_format, literal_elements, other_format_cause, read_of_format,
};
use crate::text::{Frame, array_text};
use fixed_bits::Format;
use fixed_constants::Constants;
use fixed_steps::Steps;
use line_engine::{NoMemory, WholeAnswer, WholeRule};
use std::alloc::{AllocError, Global};
use std::sync::ledger::Ledger;

/// The rule that answers a file of named literals of one format with the array of their numbers, in order.
#[derive(Clone, Copy, Debug, PartialEq, Eq)]
pub struct LiteralArrayRule<'a> {
    /// The form of the array.
    pub form: ArrayForm,
    /// The name of the array.
    pub name: &'a [u8],
    /// The name that guards a C header; empty without a guard.
    pub guard: &'a [u8],
}

/// Returns the frame of an array by a rule, with numbers of a format.
fn frame_for<'a>(rule: &LiteralArrayRule<'a>, format: Format) -> Frame<'a>
    ensures { result ≡ frame_for rule.now format }
{
    Frame {
        form: rule.form,
        name: rule.name,
        guard: rule.guard,
        format,
    }
}

/// Returns the array of named literals.
fn array_of<L: Ledger>(
    alloc: Global,
    frame: &Frame<'_>,
    constants: &Constants,
    steps: &mut Steps<L>,
) -> Result<Vec<u8>, AllocError>
    requires { AreInRange frame.now.format constants.now }
    ensures { IfOk result (λ text. text.items ≡ literals_text frame.now constants.now) }
{
    let elements = literal_elements(alloc, frame, constants, steps)?;
    array_text(alloc, frame, &elements, steps)
}

/// Returns the refusal of a file for a literal of another format than the first.
fn other_format(alloc: Global, line: u64, first: Format) -> Result<WholeAnswer, NoMemory>
    ensures text { IfOk result (λ answer. (reply_of answer).text ≡ other_format_line line first) }
    ensures fault { IfOk result (λ answer. (reply_of answer).fault ≡ true) }
{
    match other_format_cause(alloc, first) {
        Ok(cause) => Ok(WholeAnswer::Refused {
            number: line,
            cause,
        }),
        Err(_) => Err(NoMemory),
    }
}

/// Returns the refusal of a file for a fault.
fn refusal(alloc: Global, fault: LiteralsFault) -> Result<WholeAnswer, NoMemory>
    ensures memory { IfOk result (λ answer. ¬ (fault ≡ LiteralsFault.NoMemory)) }
    ensures text { IfOk result (λ answer. (reply_of answer).text ≡ literals_fault_line fault) }
    ensures fault { IfOk result (λ answer. (reply_of answer).fault ≡ true) }
{
    match fault {
        LiteralsFault::Empty => WholeAnswer::refused(alloc, 1, b"no literal"),
        LiteralsFault::Refused { line, fault } => fixed_constants::refusal(alloc, line, fault),
        LiteralsFault::OtherFormat { line, first } => other_format(alloc, line, first),
        LiteralsFault::NoMemory => Err(NoMemory),
    }
}

impl<'a, L: Ledger> WholeRule<L> for LiteralArrayRule<'a> {
    ghost Answers = { λ rule. IsLiteralArrayAnswer rule };

    fn answer(
        &self,
        alloc: Global,
        input: &[u8],
        steps: &mut Steps<L>,
    ) -> Result<WholeAnswer, NoMemory> {
        let Some(format) = first_format(input) else {
            return refusal(alloc, fault_without_format(alloc, input));
        };
        match read_of_format(alloc, input, format) {
            Ok(constants) => match array_of(alloc, &frame_for(self, format), &constants, steps) {
                Ok(text) => Ok(WholeAnswer::Text(text)),
                Err(_) => Err(NoMemory),
            },
            Err(fault) => refusal(alloc, fault),
        }
    }

    ghost one_law = { λ rule. literal_answer_one rule };
}
