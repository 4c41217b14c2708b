//! `fixed bits`: shows the number of a register word.

ghost use Rattle.std.specs.Prelude.{ℕ, IfErr, IfOk};
ghost use Rattle.fixed.specs.Questions.{IsBinaryWordAsked, IsBitsAsked, IsWordAsked};
ghost use Rattle.fixed_command.specs.declared.blocks.Question.{Question};

use crate::commands::{amounts, fields};
use crate::options::{COMMENTS, FIELD, JSON, LIMIT, OUTPUT, RADIX, SKIP_BLANK, SWAP, TRIM};
use crate::questions::{FILE, run_question};
use crate::settings::{format_at, part_of, radix_of};
use command_line::given::{Asked, Given};
use command_line::page::{Operand, Page};
use fixed_command::Question;
use fixed_steps::Steps;
use line_engine::Status;
use std::sync::ledger::Ledger;

const FORMAT: Operand = Operand {
    name: "FORMAT",
    help: "The format",
};

const WORDS: Operand = Operand {
    name: "WORD",
    help: "Decimal, or after 0x, 0o or 0b; with a sign the number itself",
};

pub fn page() -> Page {
    Page {
        name: "bits",
        hidden_name: "",
        about: "Show what number the word of a register is",
        usage: "fixed bits [OPTIONS] FORMAT [WORD]...\n       \
                fixed bits [OPTIONS] --field HI:LO:FORMAT... [WORD]...",
        operands: &[FORMAT, WORDS],
        has_numerals: true,
        options: &[
            RADIX, FIELD, SWAP, JSON, FILE, TRIM, SKIP_BLANK, COMMENTS, LIMIT, OUTPUT,
        ],
        end: "A format is I (signed) or U (unsigned), its whole bits, F and its fraction bits,\n\
              as in I16F16 or I-9F25, 1 to 64 in all; or as in Q15 and UQ8.8. D0 to D18\n\
              are decimal formats, for money: a word is 64 bits, which count cents of D2.\n\
              \n\
              --field HI:LO takes as many bits of a longer word as FORMAT has. With a format\n\
              of its own, as in HI:LO:FORMAT, it may occur up to 32 times: each word is\n\
              answered by a line for each field, or with --json an object.\n\
              \n\
              Example: fixed bits I16F16 0xfffc0000\n\
              Example: fixed bits --field 15:8:I4F4 --field 7:0:U8F0 0xe82a",
    }
}

/// Returns the question about a word of a binary format.
fn binary_question<'a>(given: &Given<'_, 'a>) -> Asked<'a, Question>
    ensures value { IfOk result (λ q. IsBinaryWordAsked given.now q) }
    ensures refused { IfErr result (λ _. (q : Question) → ¬ IsBinaryWordAsked given.now q) }
{
    let format = match format_at(given, 0, "FORMAT") {
        Ok(format) => format,
        Err(refusal) => return Err(refusal),
    };
    let radix = radix_of(given)?;
    let part = match part_of(given, format) {
        Ok(part) => part,
        Err(refusal) => return Err(refusal),
    };
    Ok(match part {
        Some(part) => Question::Part {
            radix,
            part,
            format,
        },
        None => Question::Bits { radix, format },
    })
}

/// Returns the question about a word in the format that the first operand names.
fn format_question<'a>(given: &Given<'_, 'a>) -> Asked<'a, Question>
    ensures value { IfOk result (λ q. IsWordAsked given.now q) }
    ensures refused { IfErr result (λ _. (q : Question) → ¬ IsWordAsked given.now q) }
{
    match amounts::decimal_at(given, 0) {
        Some(format) => match amounts::units_question(given, format) {
            Ok(asked) => Ok(Question::Amount(asked)),
            Err(refusal) => Err(refusal),
        },
        None => match binary_question(given) {
            Ok(question) => Ok(question),
            Err(refusal) => Err(refusal),
        },
    }
}

/// Returns the question about a word, and the index of the first word.
fn question_of<'a>(given: &Given<'_, 'a>) -> Asked<'a, (Question, usize)>
    ensures value { IfOk result (λ asked. IsBitsAsked given.now asked.0 asked.1) }
    ensures refused { IfErr result (λ _. (q : Question) (place : ℕ) → ¬ IsBitsAsked given.now q place) }
{
    if fields::has_fields(given) {
        return match fields::fields_question(given) {
            Ok(asked) => Ok((Question::Fields(asked), 0)),
            Err(refusal) => Err(refusal),
        };
    }
    match format_question(given) {
        Ok(question) => Ok((question, 1)),
        Err(refusal) => Err(refusal),
    }
}

/// Shows each word.
pub fn run<'a, L: Ledger>(
    rt: &HostRuntime,
    given: &Given<'_, 'a>,
    steps: &mut Steps<L>,
) -> Asked<'a, Status> {
    match question_of(given) {
        Ok((question, place)) => run_question(rt, &question, given, place, steps),
        Err(refusal) => Err(refusal),
    }
}
