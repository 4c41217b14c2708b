//! `fixed lines`: answers the lines of `fixed_tool`.

ghost use Rattle.std.specs.Prelude.{IfErr, IfOk};
ghost use Rattle.fixed.specs.Tasks.{IsTaskByLayout};
ghost use Rattle.fixed_command.specs.declared.task.Task.{Task};

use crate::inputs::{Job, run_inputs};
use crate::line_layout::layout_asked;
use crate::options::{COMMENTS, LIMIT, OUTPUT, REJECTS, SKIP_BLANK, TRIM};
use command_line::given::{Asked, Given};
use command_line::page::{FILES, Page};
use fixed_command::Task;
use fixed_steps::Steps;
use line_engine::Status;
use std::sync::ledger::Ledger;

pub fn page() -> Page {
    Page {
        name: "lines",
        hidden_name: "",
        about: "Answer lines `RADIX SOURCE TARGET POLICY NUMERAL`",
        usage: "fixed lines [OPTIONS] [FILE]...",
        operands: &[FILES],
        has_numerals: false,
        options: &[TRIM, SKIP_BLANK, COMMENTS, LIMIT, REJECTS, OUTPUT],
        end: "Example: echo '10 I16F16 I8F8 checked 3.14159' | fixed lines",
    }
}

/// Returns the task for each input.
fn task_of<'a>(given: &Given<'_, 'a>) -> Asked<'a, Task<'a>>
    ensures value { IfOk result (λ task. IsTaskByLayout Task.Lines Task.LaidOutLines given.now task) }
    ensures refused { IfErr result (λ _. (task : Task) → ¬ IsTaskByLayout Task.Lines Task.LaidOutLines given.now task) }
{
    match layout_asked(given) {
        Ok(None) => Ok(Task::Lines),
        Ok(Some(layout)) => Ok(Task::LaidOutLines(layout)),
        Err(refusal) => Err(refusal),
    }
}

/// Answers the lines of each file.
pub fn run<'a, L: Ledger>(
    rt: &HostRuntime,
    given: &Given<'_, 'a>,
    steps: &mut Steps<L>,
) -> Asked<'a, Status> {
    match task_of(given) {
        Ok(task) => run_inputs(rt, &Job::Task(task), "", given, 0, steps),
        Err(refusal) => Err(refusal),
    }
}
