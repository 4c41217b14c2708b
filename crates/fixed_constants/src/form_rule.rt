//! The rule of the program with all its forms.

ghost use Rattle.std.specs.Prelude.{◌≡◌, ℕ, IfOk, IfErr};
ghost use Rattle.fixed_constants.specs.Constants.{IsConstantsOf};
ghost use Rattle.fixed_constants.specs.Forms.{IsFormAnswer, IsFormError, IsReservedOn, IsSourceAnswer};
ghost use Rattle.fixed_constants.specs.Lemmas.FormLemmas.{form_answer_one};
ghost use Rattle.line_engine.specs.Refusals.{reply_of};

use crate::constant::Constants;
use crate::constants::read_constants;
use crate::fault::{ConstantFault, ConstantsError};
use crate::form::{Form, first_reserved};
use crate::rule::{ConstantsRule, refusal};
use crate::sources::source_text;
use fixed_steps::Steps;
use line_engine::{WholeAnswer, WholeRule};
use std::alloc::Global;
use std::sync::ledger::Ledger;
use text_buffer::NoMemory;

/// The rule that answers a constants file in a form.
#[derive(Clone, Copy, Debug, PartialEq, Eq)]
pub struct FormRule<'a> {
    /// The form.
    pub form: Form,
    /// The name that guards a C header; empty without a guard.
    pub guard: &'a [u8],
}

/// Returns the constants of a text, unless one has a name that the form reserves.
///
/// # Errors
///
/// The first line with a fault or a reserved name is reported; if one line has both, the name. There may be no memory.
fn constants_for(
    alloc: Global,
    form: Form,
    guard: &[u8],
    text: &[u8],
) -> Result<Constants, ConstantsError>
    ensures constants { IfOk result (λ t. IsConstantsOf text.now t) }
    ensures free { IfOk result (λ t. (p : ℕ) → ¬ IsReservedOn form guard.now text.now p) }
    ensures refused { IfErr result (λ error. IsFormError form guard.now text.now error) }
{
    let reserved = first_reserved(form, guard, text);
    match read_constants(alloc, text) {
        Ok(constants) => match reserved {
            None => Ok(constants),
            Some(line) => Err(ConstantsError::Refused {
                line,
                fault: ConstantFault::BadName,
            }),
        },
        Err(ConstantsError::Refused { line, fault }) => match reserved {
            None => Err(ConstantsError::Refused { line, fault }),
            Some(first) => {
                if first <= line {
                    Err(ConstantsError::Refused {
                        line: first,
                        fault: ConstantFault::BadName,
                    })
                } else {
                    Err(ConstantsError::Refused { line, fault })
                }
            }
        },
        Err(ConstantsError::NoMemory) => Err(ConstantsError::NoMemory),
    }
}

/// Returns the answer to a constants file in the form of a language.
fn answer<L: Ledger>(
    alloc: Global,
    form: Form,
    guard: &[u8],
    input: &[u8],
    steps: &mut Steps<L>,
) -> Result<WholeAnswer, NoMemory>
    ensures { IfOk result (λ answer. IsSourceAnswer form guard.now input.now (reply_of answer)) }
{
    match constants_for(alloc, form, guard, input) {
        Ok(constants) => match source_text(alloc, form, guard, &constants, steps) {
            Ok(text) => Ok(WholeAnswer::Text(text)),
            Err(_) => Err(NoMemory),
        },
        Err(ConstantsError::Refused { line, fault }) => refusal(alloc, line, fault),
        Err(ConstantsError::NoMemory) => Err(NoMemory),
    }
}

impl<'a, L: Ledger> WholeRule<L> for FormRule<'a> {
    ghost Answers = { λ rule. IsFormAnswer rule.form rule.guard.now };

    fn answer(
        &self,
        alloc: Global,
        input: &[u8],
        steps: &mut Steps<L>,
    ) -> Result<WholeAnswer, NoMemory> {
        match self.form {
            Form::Canonical => ConstantsRule.answer(alloc, input, steps),
            Form::C => answer(alloc, Form::C, self.guard, input, steps),
            Form::Rust => answer(alloc, Form::Rust, self.guard, input, steps),
        }
    }

    ghost one_law = { λ rule. form_answer_one rule.form rule.guard.now };
}
