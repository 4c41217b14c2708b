//! `fixed show`: shows all there is to know of a number in a format.

ghost use Rattle.std.specs.Prelude.{IfErr, IfOk};
ghost use Rattle.fixed.specs.Questions.{IsBinaryNumeralAsked, IsShowAsked};
ghost use Rattle.fixed_command.specs.declared.blocks.Question.{Question};

use crate::commands::amounts;
use crate::options::{COMMENTS, JSON, LIMIT, MODE, OUTPUT, POLICY, RADIX, SKIP_BLANK, TRIM};
use crate::questions::{FILE, run_question};
use crate::settings::{format_at, mode_of, policy_of, radix_of};
use command_line::given::{Asked, Given};
use command_line::page::{Operand, Page};
use fixed_command::Question;
use fixed_steps::Steps;
use line_engine::Status;
use std::sync::ledger::Ledger;

const FORMAT: Operand = Operand {
    name: "FORMAT",
    help: "The format",
};

const NUMERALS: Operand = Operand {
    name: "NUMERAL",
    help: "The numerals",
};

pub fn page() -> Page {
    Page {
        name: "show",
        hidden_name: "",
        about: "Show all there is to know of a number in a format",
        usage: "fixed show [OPTIONS] FORMAT [NUMERAL]...",
        operands: &[FORMAT, NUMERALS],
        has_numerals: true,
        options: &[
            RADIX, POLICY, MODE, JSON, FILE, TRIM, SKIP_BLANK, COMMENTS, LIMIT, OUTPUT,
        ],
        end: "A format is I (signed) or U (unsigned), its whole bits, F and its fraction bits,\n\
              as in I16F16 or I-9F25, 1 to 64 in all; or as in Q15 and UQ8.8. D0 to D18\n\
              are decimal formats, for money: D2 counts cents. Their radix is 10.\n\
              \n\
              Example: fixed show I16F16 3.14159 -1e-3",
    }
}

/// Returns the question about a numeral in a binary format.
fn binary_question<'a>(given: &Given<'_, 'a>) -> Asked<'a, Question>
    ensures value { IfOk result (λ q. IsBinaryNumeralAsked given.now q) }
    ensures refused { IfErr result (λ _. (q : Question) → ¬ IsBinaryNumeralAsked given.now q) }
{
    let format = match format_at(given, 0, "FORMAT") {
        Ok(format) => format,
        Err(refusal) => return Err(refusal),
    };
    Ok(Question::Show {
        radix: radix_of(given)?,
        format,
        policy: policy_of(given)?,
        mode: mode_of(given)?,
    })
}

/// Returns the question about a numeral.
fn question_of<'a>(given: &Given<'_, 'a>) -> Asked<'a, Question>
    ensures value { IfOk result (λ q. IsShowAsked given.now q) }
    ensures refused { IfErr result (λ _. (q : Question) → ¬ IsShowAsked given.now q) }
{
    match amounts::decimal_at(given, 0) {
        Some(format) => match amounts::numeral_question(given, format) {
            Ok(asked) => Ok(Question::Amount(asked)),
            Err(refusal) => Err(refusal),
        },
        None => match binary_question(given) {
            Ok(question) => Ok(question),
            Err(refusal) => Err(refusal),
        },
    }
}

/// Shows each numeral.
pub fn run<'a, L: Ledger>(
    rt: &HostRuntime,
    given: &Given<'_, 'a>,
    steps: &mut Steps<L>,
) -> Asked<'a, Status> {
    match question_of(given) {
        Ok(question) => run_question(rt, &question, given, 1, steps),
        Err(refusal) => Err(refusal),
    }
}
