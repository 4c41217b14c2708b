//! Questions about operands, or about the lines of an input.
//!
//! An answer does not say which operand it refuses, so standard error names the first one. To find it, the question is
//! asked again for the operands up to it.

ghost use Rattle.std.specs.Prelude.{◌≡◌, IfErr, IfOk, codes, if◌then◌else◌};
ghost use Rattle.command_line.specs.Words.{has_flag};
ghost use Rattle.fixed.specs.Tasks.{IsTaskByLayout};
ghost use Rattle.fixed_command.specs.declared.task.Task.{Task};

use crate::explained::push_question_explanation;
use crate::inputs::{Job, run_inputs_to};
use crate::line_layout::{layout_asked, refuse_layout};
use crate::options::{JSON, LIMIT};
use crate::output::{open_answers, open_output};
use crate::rejects::RejectFile;
use crate::settings::{limit_asked, refuse_value};
use command_line::device::{Failure, Output, Writer};
use command_line::given::{Asked, Given, Refusal};
use command_line::page::Row;
use command_line::report::{Report, report_end};
use fixed_command::{Form, Question, Task, first_refused, run_blocks};
use fixed_io::StdSink;
use fixed_steps::Steps;
use line_engine::Status;
use std::sync::ledger::Ledger;

pub const FILE: Row = Row {
    name: "file",
    letter: None,
    value: "FILE",
    choices: &[],
    help: "Each line of FILE is a word; `-` is standard input",
};

/// Why an option for an input is refused beside operands.
const FOR_FILES: &str = "is for the lines of a file: there are words on the command line";

/// Returns the form of the answers.
pub fn form_of(given: &Given<'_, '_>) -> Form
    ensures { result ≡ (if has_flag given.now (codes "json") then Form.Members else Form.Lines) }
{
    if given.has(&JSON) {
        Form::Members
    } else {
        Form::Lines
    }
}

/// Returns the task that answers a question about each line of an input.
fn task_of<'a>(given: &Given<'_, 'a>, form: Form, question: &Question) -> Asked<'a, Task<'a>>
    ensures value { IfOk result (λ task.
        IsTaskByLayout (Task.Ask form question.now) (Task.LaidOutAsk form question.now) given.now task) }
    ensures refused { IfErr result (λ _. (task : Task)
        → ¬ IsTaskByLayout (Task.Ask form question.now) (Task.LaidOutAsk form question.now) given.now task) }
{
    match layout_asked(given) {
        Ok(None) => Ok(Task::Ask(form, *question)),
        Ok(Some(layout)) => Ok(Task::LaidOutAsk(form, *question, layout)),
        Err(refusal) => Err(refusal),
    }
}

/// Reports on standard error the first refused operand and the cause.
fn report_word<L: Ledger>(
    rt: &HostRuntime,
    question: &Question,
    words: &[&str],
    steps: &mut Steps<L>,
) {
    if let Some(refused) = first_refused(question, words, steps) {
        let word = words.get(refused.place).copied();
        let cause = refused.cause.as_bytes();
        let mut report = Report::of(word);
        report.bytes(cause, 200);
        let word = word.unwrap_or("").as_bytes();
        push_question_explanation(&mut report, question, false, (word, 0), cause, steps);
        report.send(rt);
    }
}

/// Answers a question about each operand. If one is refused, standard error names the first refused operand.
pub fn run_words<L: Ledger>(
    rt: &HostRuntime,
    form: Form,
    question: &Question,
    words: &[&str],
    output: &mut Output,
    steps: &mut Steps<L>,
) -> Status {
    let failure = Failure::new(None);
    let mut sink = StdSink::new(Writer {
        writer: output,
        failure: &failure,
    });
    let status = run_blocks(form, question, words, &mut sink, steps);
    report_end(rt, None, status, sink.lines(), &failure);
    if status == Status::Faults {
        report_word(rt, question, words, steps);
    }
    status
}

/// Answers a question about each operand from an index on; if there are none, about each line of the file that the
/// option names, or of standard input.
pub fn run_question<'a, L: Ledger>(
    rt: &HostRuntime,
    question: &Question,
    given: &Given<'_, 'a>,
    place: usize,
    steps: &mut Steps<L>,
) -> Asked<'a, Status> {
    let words = given.from(place);
    if !words.is_empty() {
        refuse_layout(given, FOR_FILES)?;
        refuse_value(given, &LIMIT, FOR_FILES)?;
    }
    let file = match given.value(&FILE) {
        Some(file) if !words.is_empty() => {
            return Err(Refusal::Word(file, "is not read: there are words on the command line"));
        }
        file => file.unwrap_or("-"),
    };
    let form = form_of(given);
    let task = match task_of(given, form, question) {
        Ok(task) => task,
        Err(refusal) => return Err(refusal),
    };
    let limit = match limit_asked(given) {
        Ok(limit) => limit,
        Err(refusal) => return Err(refusal),
    };
    let opened = if words.is_empty() {
        open_output(rt, given, &[file])?
    } else {
        open_answers(rt, given)
    };
    let mut output = match opened {
        Ok(output) => output,
        Err(status) => return Ok(status),
    };
    if words.is_empty() {
        let job = Job::Task(task);
        let failure = Failure::new(None);
        let mut rejects = RejectFile::none(&failure);
        let files = [file];
        Ok(run_inputs_to(
            rt,
            &job,
            &limit,
            "",
            &files,
            &mut output,
            &mut rejects,
            steps,
        ))
    } else {
        Ok(run_words(rt, form, question, words, &mut output, steps))
    }
}
