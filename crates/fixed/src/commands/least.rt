//! `fixed least`: finds the least format that holds each numeral of an input exactly.

ghost use Rattle.std.specs.Prelude.{IfErr, IfOk};
ghost use Rattle.command_line.specs.Words.{keyword_at};
ghost use Rattle.fixed.specs.Lines.{IsLeastRadix};
ghost use Rattle.fixed.specs.Tasks.{IsTaskByLayout};
ghost use Rattle.fixed_command.specs.declared.task.Task.{Task};

use crate::inputs::{Job, run_inputs};
use crate::line_layout::layout_asked;
use crate::options::{LIMIT, OUTPUT, PASS_BLANK, PASS_COMMENTS, TRIM};
use command_line::given::{Asked, Given};
use command_line::page::{Operand, Page, Row};
use fixed_command::{LeastLines, Task};
use fixed_numeral::Radix;
use fixed_respell::radix_word;
use fixed_steps::Steps;
use line_engine::Status;
use std::sync::ledger::Ledger;

const WORDS: Operand = Operand {
    name: "RADIX",
    help: "2, 8, 10 (if left out) or 16, and files",
};

const WHY: Row = Row {
    name: "why",
    letter: None,
    value: "",
    choices: &[],
    help: "If none is left, also the line that rules out each",
};

pub fn page() -> Page {
    Page {
        name: "least",
        hidden_name: "",
        about: "Find the least format that holds each numeral of an input exactly",
        usage: "fixed least [OPTIONS] [RADIX] [FILE]...",
        operands: &[WORDS],
        has_numerals: false,
        options: &[WHY, TRIM, PASS_BLANK, PASS_COMMENTS, LIMIT, OUTPUT],
        end: "Example: printf '0.5\\n3\\n' | fixed least",
    }
}

/// Returns the radix that the first operand names, and the index of the first file. A file with such a name is written
/// `./10`, or after `--`.
fn radix_and_files(given: &Given<'_, '_>) -> (Radix, usize)
    ensures { IsLeastRadix (keyword_at given.now 0) result.0 result.1 }
{
    match given.keyword(0) {
        Some(word) => match radix_word(word.as_bytes()) {
            Some(radix) => (radix, 1),
            None => (Radix::Dec, 0),
        },
        None => (Radix::Dec, 0),
    }
}

/// Returns the task for each input, by a rule.
fn task_of<'a>(given: &Given<'_, 'a>, rule: LeastLines) -> Asked<'a, Task<'a>>
    ensures value { IfOk result (λ task. IsTaskByLayout (Task.Least rule) (Task.LaidOutLeast rule) given.now task) }
    ensures refused { IfErr result (λ _. (task : Task)
        → ¬ IsTaskByLayout (Task.Least rule) (Task.LaidOutLeast rule) given.now task) }
{
    match layout_asked(given) {
        Ok(None) => Ok(Task::Least(rule)),
        Ok(Some(layout)) => Ok(Task::LaidOutLeast(rule, layout)),
        Err(refusal) => Err(refusal),
    }
}

/// Answers each file.
pub fn run<'a, L: Ledger>(
    rt: &HostRuntime,
    given: &Given<'_, 'a>,
    steps: &mut Steps<L>,
) -> Asked<'a, Status> {
    let (radix, files) = radix_and_files(given);
    let rule = LeastLines {
        radix,
        is_reason_asked: given.has(&WHY),
    };
    match task_of(given, rule) {
        Ok(task) => run_inputs(rt, &Job::Task(task), "", given, files, steps),
        Err(refusal) => Err(refusal),
    }
}
