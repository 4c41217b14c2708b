//! `fixed sort`: sorts lines `NUMERAL FORMAT` by value.

ghost use Rattle.std.specs.Prelude.{IfErr, IfOk, List, ℕ};
ghost use Rattle.fixed.specs.Lines.{IsSortLimitAsked};

use crate::inputs::{Job, run_inputs_within};
use crate::options::{LIMIT, OUTPUT};
use crate::settings::limit_of;
use command_line::given::{Asked, Given, Refusal};
use command_line::page::{Operand, Page};
use fixed_command::Task;
use fixed_steps::Steps;
use line_engine::Status;
use std::sync::ledger::Ledger;

const WORDS: Operand = Operand {
    name: "LIMIT",
    help: "limit and a number, as the option; and files",
};

pub fn page() -> Page {
    Page {
        name: "sort",
        hidden_name: "columns",
        about: "Sort lines `NUMERAL FORMAT` by value, in one aligned column",
        usage: "fixed sort [limit N | --limit N] [FILE]...",
        operands: &[WORDS],
        has_numerals: false,
        options: &[LIMIT, OUTPUT],
        end: "Example: printf '0.5 U7F1\\n-1 I8F0\\n' | fixed sort",
    }
}

/// Returns the limit as text, and the index of the first file. If the first operand is `limit`, a number follows it; a
/// file with this name is written `./limit`, or after `--`.
fn limit_and_files<'a>(given: &Given<'_, 'a>) -> Asked<'a, (&'a str, usize)>
    ensures value { IfOk result (λ a. IsSortLimitAsked given.now a.0.now a.1) }
    ensures refused { IfErr result (λ _. (word : List ℕ) (files : ℕ) → ¬ IsSortLimitAsked given.now word files) }
{
    let option = given.value(&LIMIT);
    match given.keyword(0) {
        Some("limit") if option.is_some() => Err(Refusal::Word(
            "limit",
            "and the option '--limit' exclude each other",
        )),
        Some("limit") => match given.keyword(1) {
            Some(number) => Ok((number, 2)),
            None => Err(Refusal::Word("limit", "has no number after it")),
        },
        _ => Ok((option.unwrap_or("1048576"), 0)),
    }
}

/// Sorts the lines of each file.
pub fn run<'a, L: Ledger>(
    rt: &HostRuntime,
    given: &Given<'_, 'a>,
    steps: &mut Steps<L>,
) -> Asked<'a, Status> {
    let (word, files) = limit_and_files(given)?;
    let limit = Some(limit_of(word)?);
    let job = Job::Task(Task::Columns);
    run_inputs_within(rt, &job, &limit, "", given, files, steps)
}
