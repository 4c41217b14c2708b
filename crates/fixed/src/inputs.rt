//! Runs a job over each input, one after another.

ghost use Rattle.std.specs.Prelude.{◌≡◌, ◌≤◌, ◌&&◌, length};
ghost use Rattle.command_line.specs.Device.{written_to};
ghost use Rattle.fixed.specs.Ends.{is_last};
ghost use Rattle.fixed.specs.Inputs.{TaskEndsBetween, WordsEndBetween};
ghost use Rattle.fixed.specs.Jobs.{JobEndsBetween};

use crate::commands::column_run::{run_amounts_on, run_column_on};
use crate::commands::{amounts, convert, fit, floats, json, pack, repack, unpack};
use crate::explained::{
    NO_OFFERS, TRIM_OFFERS, enclosure_rule, line_rule, list_rule, push_explanation,
    push_question_explanation,
};
use crate::output::open_output;
use crate::rejects::{Guarded, RejectFile, open_rejects, refuse_rejects};
use crate::reports::{ReportForm, report_lines};
use crate::settings::limit_asked;
use command_line::device::{Failure, Output, Unmarked, Writer};
use command_line::given::{Asked, Given};
use command_line::report::{Report, push_words, report_end};
use fixed_amounts::AmountSettings;
use fixed_command::{
    AmountLines, ColumnConversion, ConvertRule, CountedRule, FieldReport, Limit, MAX_TALLY, Place,
    Refusals, RefusedLine, Spelling, Tally, Task, error_report, greater_end, run_task, tally_text,
    without_return,
};
use fixed_io::{StdSink, StdSource};
use fixed_numeral::{Radix, scan};
use fixed_pack::{FloatWords, Repack};
use fixed_report::{ErrorReport, Lost, MAX_GREATEST, MAX_MEAN};
use fixed_steps::Steps;
use fixed_words::{WordRefusal, WordRule, WordsEnd, convert_words};
use line_engine::Status;
use std::fs::File;
use std::io::{self, Error, ErrorKind, Read, Stdin, Stdout, Write};
use std::mem;
use std::sync::ledger::Ledger;

/// How many characters of a refused line a report shows.
const MAX_TEXT: usize = 40;

/// What to do with an input.
#[derive(Drop)]
pub enum Job<'a> {
    /// Run a task over it.
    Task(Task<'a>),
    /// Run a task over it that keeps outcomes, and report these.
    Reported {
        /// The task.
        task: Task<'a>,
        /// How the report is written.
        form: ReportForm,
    },
    /// Convert each of its words in place.
    Words {
        /// How a word is converted.
        rule: WordRule<'a>,
        /// How the report is written, if there is one.
        report: Option<ReportForm>,
    },
    /// Answer its lines, each of which spells an amount.
    Amounts(AmountLines),
    /// Convert columns of it.
    Column {
        /// The conversion.
        conversion: ColumnConversion<'a, ConvertRule>,
        /// How the report is written, if there is one.
        report: Option<ReportForm>,
    },
    /// Convert columns of it into amounts.
    AmountColumns(ColumnConversion<'a, AmountSettings>),
    /// Convert values of its lines, which are JSON.
    Json(json::JsonJob<'a>),
    /// Find a format that its numerals fit.
    Fit(fit::FitTask),
    /// Pack its lines into words.
    Pack(pack::PackTask),
    /// Read its floats into words.
    PackFloats {
        /// How a float is read.
        floats: FloatWords,
        /// How the report is written, if there is one.
        report: Option<ReportForm>,
    },
    /// Unpack words of it.
    Unpack(unpack::Unpacking),
    /// Write its words as words of another format.
    Repack {
        /// How a word is written.
        words: Repack,
        /// How the report is written, if there is one.
        report: Option<ReportForm>,
    },
}

/// Returns a report of how many lines of an input were refused, with the number, text and cause of the first.
pub fn refusal_report(
    file: Option<&str>,
    count: u64,
    number: u64,
    text: &[u8],
    cause: &[u8],
) -> Report {
    let mut report = Report::of(file);
    report.text("lines refused: ");
    report.number(count);
    report.text(", the first in line ");
    report.number(number);
    report.text(", '");
    report.bytes(text, MAX_TEXT);
    report.text("': ");
    report.bytes(cause, 160);
    report
}

/// Reports on standard error how many lines of an input were refused, with the text and the cause of the first.
fn report_refused<L: Ledger>(
    rt: &HostRuntime,
    task: &Task<'_>,
    file: Option<&str>,
    refusals: &Refusals,
    steps: &mut Steps<L>,
) {
    if let Some(line) = &refusals.first {
        let (text, cause) = (line.text.as_bytes(), line.cause.as_bytes());
        let mut report = refusal_report(file, refusals.count, line.number, text, cause);
        if !line.is_cut() {
            push_line_explanation(&mut report, task, line, steps);
        }
        report.send(rt);
    }
}

/// Appends an explanation of a line that a task refuses, which is kept whole.
fn push_line_explanation<L: Ledger>(
    report: &mut Report,
    task: &Task<'_>,
    line: &RefusedLine,
    steps: &mut Steps<L>,
) {
    let (text, cause) = (line.text.as_bytes(), line.cause.as_bytes());
    match task {
        Task::Convert(rule) => {
            let numeral = (without_return(text), 0);
            push_explanation(report, rule, convert::OFFERS, numeral, cause, steps);
        }
        Task::LaidOut(laid) | Task::Reported(CountedRule { laid }) => {
            let numeral = (
                laid.layout.numeral_of(text),
                laid.layout.blanks_before(text),
            );
            push_explanation(report, &laid.rule, convert::OFFERS, numeral, cause, steps);
        }
        Task::Errors(lines) => {
            let s = &lines.settings;
            let rule = ConvertRule::reading(Spelling::Numeral, s.radix, s.format, s.policy, s.mode);
            let numeral = (
                lines.layout.numeral_of(text),
                lines.layout.blanks_before(text),
            );
            push_explanation(report, &rule, convert::OFFERS, numeral, cause, steps);
        }
        Task::Ask(_, question) => {
            let word = (without_return(text), 0);
            push_question_explanation(report, question, true, word, cause, steps);
        }
        Task::LaidOutAsk(_, question, layout) => {
            let word = (layout.numeral_of(text), layout.blanks_before(text));
            push_question_explanation(report, question, true, word, cause, steps);
        }
        Task::Least(least) => {
            let rule = list_rule(least.radix);
            push_explanation(report, &rule, TRIM_OFFERS, (text, 0), cause, steps);
        }
        Task::LaidOutLeast(least, layout) => {
            let rule = list_rule(least.radix);
            let numeral = (layout.numeral_of(text), layout.blanks_before(text));
            push_explanation(report, &rule, TRIM_OFFERS, numeral, cause, steps);
        }
        Task::Lines | Task::LaidOutLines(_) => {
            push_last_explanation(report, line_rule(text), text, cause, steps);
        }
        Task::Enclose | Task::LaidOutEnclose(_) if cause != b"overflow".as_slice() => {
            push_last_explanation(report, enclosure_rule(text), text, cause, steps);
        }
        Task::Enclose | Task::LaidOutEnclose(_) | Task::Constants(_) | Task::Columns => (),
    }
}

/// Appends an explanation of a line whose last word is a numeral, if the words before it give the rule.
fn push_last_explanation<L: Ledger>(
    report: &mut Report,
    found: Option<(ConvertRule, &[u8])>,
    line: &[u8],
    cause: &[u8],
    steps: &mut Steps<L>,
) {
    if let Some((rule, numeral)) = found {
        let before = line.len().saturating_sub(numeral.len());
        // Blanks before the numeral are not at the end of the line.
        let offers = if numeral.trim_ascii_start().len() == numeral.len() {
            TRIM_OFFERS
        } else {
            NO_OFFERS
        };
        push_explanation(report, &rule, offers, (numeral, before), cause, steps);
    }
}

/// Reports the outcomes of the numerals of an input on standard error.
pub fn report_tally(rt: &HostRuntime, file: Option<&str>, tally: &Tally, place: Place) {
    let text = tally_text(tally, place);
    let mut report = Report::of(file);
    report.bytes(text.as_bytes(), MAX_TALLY);
    report.send(rt);
}

/// Reports on standard error which numeral of an input has the greatest error, if any has an error: its place after
/// `name`, which names such places, the error and the same in ulps; or why that is not known. Then the means of errors.
pub fn report_greatest<L: Ledger>(
    rt: &HostRuntime,
    file: Option<&str>,
    errors: &ErrorReport,
    name: &[u8],
    steps: &mut Steps<L>,
)
    requires name { length name.now ≤ 8 }
{
    let mut report = Report::of(file);
    match errors.lost() {
        Some(Lost::NoMemory) => report.text("greatest error: there is no memory for it"),
        Some(Lost::TooLong) => report.text("greatest error: a numeral is too long for it"),
        None => match errors.text(name, steps) {
            Some(text) => report.bytes(text.as_bytes(), MAX_GREATEST),
            None => return,
        },
    }
    report.send(rt);
    report_means(rt, file, errors);
}

/// Reports on standard error the mean of the errors of an input's numerals and the root of the mean of their squares,
/// in ulps, if they are known.
fn report_means(rt: &HostRuntime, file: Option<&str>, errors: &ErrorReport) {
    if let Some(texts) = errors.mean_texts() {
        let mut report = Report::of(file);
        report.text("mean error in ulps: ");
        report.bytes(texts.mean.as_bytes(), MAX_MEAN);
        report.text(", RMS: ");
        report.bytes(texts.root.as_bytes(), MAX_MEAN);
        report.text(" (rounded to six digits)");
        report.send(rt);
    }
}

/// Runs a task over one input, and reports on standard error why it did not end well. Like the function of each kind of
/// job it is not inlined, so that its buffers take no room on the stack of another.
#[inline(never)]
fn run_task_on<R: Read + Drop, S: Write + Drop, F: Write + Drop, L: Ledger>(
    rt: &HostRuntime,
    task: &Task<'_>,
    limit: &Option<Limit>,
    form: ReportForm,
    file: Option<&str>,
    reader: R,
    output: &mut Output<S, F>,
    rejects: &mut RejectFile<'_, '_>,
    steps: &mut Steps<L>,
) -> Status
    ensures { TaskEndsBetween (rejects.old.has_file && rejects.new.rejects.has_failed) limit.now task.now result
        (R.remaining reader) (written_to S.contents F.contents output.old)
        (written_to S.contents F.contents output.new) }
{
    let failure = Failure::new(None);
    let mut source = StdSource::new(Unmarked::new(reader));
    // The sink owns the writer meanwhile, so that contracts know what it contains.
    let writer = mem::replace(output, Output::Nowhere);
    let mut sink = StdSink::new(Writer {
        writer: Guarded {
            writer,
            failure: rejects.failure,
        },
        failure: &failure,
    });
    let told = &mut rejects.rejects;
    let end = run_task(rt.alloc(), limit, task, told, &mut source, &mut sink, steps);
    let status = rejects.end(end.status);
    // After a failed write, not all counted answers were written.
    if !is_last(status) {
        report_refused(rt, task, file, &end.refusals, steps);
        if let Some(errors) = &end.errors {
            report_lines(rt, form, file, &end.tally, errors, steps);
        }
    }
    report_end(rt, file, status, sink.lines(), rejects.failure_or(&failure));
    *output = sink.into_writer().writer.writer;
    status
}

/// Returns a report of no fields, if one is requested.
pub fn asked_report(
    rt: &HostRuntime,
    rule: &ConvertRule,
    form: Option<ReportForm>,
) -> Option<FieldReport> {
    match form {
        Some(_) => Some(FieldReport::new(error_report(rt.alloc(), rule.settings()))),
        None => None,
    }
}

/// Returns a report of how many words of an input were refused, with the text and the cause of the first.
fn word_report(file: Option<&str>, count: u64, word: &WordRefusal) -> Report {
    let mut report = Report::of(file);
    report.text("words refused: ");
    report.number(count);
    report.text(", the first in line ");
    report.number(word.line.number);
    report.text(", byte ");
    report.number(word.byte);
    report.text(", '");
    report.bytes(word.line.text.as_bytes(), MAX_TEXT);
    report.text("': ");
    report.bytes(word.line.cause.as_bytes(), 160);
    report
}

/// Reports on standard error the first refused word of an input and, if a report is requested, the outcomes.
fn report_words<L: Ledger>(
    rt: &HostRuntime,
    rule: &WordRule<'_>,
    form: Option<ReportForm>,
    file: Option<&str>,
    end: &WordsEnd,
    steps: &mut Steps<L>,
) {
    if let Some(word) = &end.first {
        let mut report = word_report(file, end.refused, word);
        let before = word.byte.saturating_sub(1) as usize;
        let text = (word.line.text.as_bytes(), before);
        let cause = word.line.cause.as_bytes();
        if !word.line.is_cut() {
            push_explanation(&mut report, &rule.rule, convert::OFFERS, text, cause, steps);
        }
        report.send(rt);
    }
    if let (Some(form), Some(errors)) = (form, &end.errors) {
        report_lines(rt, form, file, &end.tally, errors, steps);
    }
}

/// Converts the words of one input, and reports on standard error why it did not end well.
#[inline(never)]
fn run_words_on<R: Read + Drop, S: Write + Drop, F: Write + Drop, L: Ledger>(
    rt: &HostRuntime,
    rule: &WordRule<'_>,
    limit: &Option<Limit>,
    form: Option<ReportForm>,
    file: Option<&str>,
    reader: R,
    output: &mut Output<S, F>,
    rejects: &mut RejectFile<'_, '_>,
    steps: &mut Steps<L>,
) -> Status
    ensures { WordsEndBetween (rejects.old.has_file && rejects.new.rejects.has_failed) limit.now rule.now result
        (R.remaining reader) (written_to S.contents F.contents output.old)
        (written_to S.contents F.contents output.new) }
{
    let failure = Failure::new(None);
    let mut source = StdSource::new(Unmarked::new(reader));
    let writer = mem::replace(output, Output::Nowhere);
    let mut sink = StdSink::new(Writer {
        writer: Guarded {
            writer,
            failure: rejects.failure,
        },
        failure: &failure,
    });
    let end = convert_words(
        rt.alloc(),
        limit,
        rule,
        form.is_some(),
        &mut rejects.rejects,
        &mut source,
        &mut sink,
        steps,
    );
    let status = rejects.end(end.status);
    if !is_last(status) {
        report_words(rt, rule, form, file, &end, steps);
    }
    report_end(rt, file, status, sink.lines(), rejects.failure_or(&failure));
    *output = sink.into_writer().writer.writer;
    status
}

/// Runs a job over one input.
fn run_reader<R: Read + Drop, L: Ledger>(
    rt: &HostRuntime,
    job: &Job<'_>,
    limit: &Option<Limit>,
    file: Option<&str>,
    reader: R,
    output: &mut Output,
    rejects: &mut RejectFile<'_, '_>,
    steps: &mut Steps<L>,
) -> Status
    ensures { JobEndsBetween job.now (rejects.old.has_file && rejects.new.rejects.has_failed) limit.now
        rejects.old.rejects result (R.remaining reader)
        (written_to ⟦<Stdout as Write>⟧.contents ⟦<File as Write>⟧.contents output.old)
        (written_to ⟦<Stdout as Write>⟧.contents ⟦<File as Write>⟧.contents output.new) }
{
    match job {
        Job::Task(task) => {
            let form = ReportForm::Text;
            run_task_on(rt, task, limit, form, file, reader, output, rejects, steps)
        }
        Job::Reported { task, form } => {
            run_task_on(rt, task, limit, *form, file, reader, output, rejects, steps)
        }
        Job::Words { rule, report } => {
            run_words_on(
                rt, rule, limit, *report, file, reader, output, rejects, steps,
            )
        }
        Job::Amounts(lines) => {
            amounts::run_on(rt, lines, limit, file, reader, output, rejects, steps)
        }
        Job::Column { conversion, report } => run_column_on(
            rt, conversion, limit, *report, file, reader, output, rejects, steps,
        ),
        Job::AmountColumns(conversion) => {
            run_amounts_on(rt, conversion, limit, file, reader, output, rejects, steps)
        }
        Job::Json(job) => json::run_on(rt, job, limit, file, reader, output, rejects, steps),
        Job::Fit(task) => {
            let mut source = StdSource::new(Unmarked::new(reader));
            fit::run_on(rt, task, limit, file, &mut source, output, steps)
        }
        Job::Pack(task) => pack::run_on(rt, task, limit, file, reader, output, steps),
        Job::PackFloats { floats, report } => {
            floats::pack_on(rt, floats, limit, *report, file, reader, output, steps)
        }
        Job::Unpack(unpacking) => unpack::run_on(rt, unpacking, limit, file, reader, output, steps),
        Job::Repack { words, report } => {
            repack::run_on(rt, words, limit, *report, file, reader, output, steps)
        }
    }
}

/// Reports on standard error why a file could not be opened, and more.
fn refuse_with(rt: &HostRuntime, file: &str, error: &Error, more: &[&str]) -> Status {
    let mut report = Report::of(Some(file));
    push_words(&mut report, rt.alloc(), error);
    for text in more {
        report.text(text);
    }
    report.send(rt);
    Status::ReadFault
}

/// Reports on standard error why a file could not be opened.
pub fn refuse_file(rt: &HostRuntime, file: &str, error: &Error) -> Status {
    refuse_with(rt, file, error, &[])
}

/// Reports on standard error why an input could not be opened. If there is no such file and its name is a numeral, the
/// report names the command that shows it in the format.
fn refuse_input<L: Ledger>(
    rt: &HostRuntime,
    format: &str,
    file: &str,
    error: &Error,
    steps: &mut Steps<L>,
) -> Status {
    let is_missing = error.kind() == ErrorKind::NotFound && !format.is_empty();
    if !is_missing || scan(file.as_bytes(), Radix::Dec, steps).is_err() {
        return refuse_file(rt, file, error);
    }
    let more = [" (a numeral? 'fixed show ", format, " ", file, "')"];
    refuse_with(rt, file, error, &more)
}

/// Opens a file. A folder is refused, as a read of no bytes tells.
fn open_file(rt: &HostRuntime, file: &str) -> io::Result<File> {
    let mut reader = File::open(rt, file)?;
    reader.read(&mut [])?;
    Ok(reader)
}

/// Opens standard input. A folder is refused, as a read of no bytes tells.
fn open_standard(rt: &HostRuntime) -> io::Result<Stdin> {
    let mut reader = rt.stdin();
    reader.read(&mut [])?;
    Ok(reader)
}

/// Runs a job over a file, or over standard input if its name is `-`.
fn run_file<'a, L: Ledger>(
    rt: &HostRuntime,
    job: &Job<'_>,
    limit: &Option<Limit>,
    format: &str,
    file: &'a str,
    output: &mut Output,
    rejects: &mut RejectFile<'_, 'a>,
    steps: &mut Steps<L>,
) -> Status {
    rejects.begin(file);
    if file == "-" {
        return match open_standard(rt) {
            Ok(reader) => run_reader(rt, job, limit, None, reader, output, rejects, steps),
            Err(error) => refuse_file(rt, file, &error),
        };
    }
    match open_file(rt, file) {
        Ok(reader) => run_reader(rt, job, limit, Some(file), reader, output, rejects, steps),
        Err(error) => refuse_input(rt, format, file, &error, steps),
    }
}

/// Whether nothing more can be written after a run with this status.
pub fn is_last(status: Status) -> bool
    ensures { result ≡ is_last status }
{
    matches!(status, Status::WriteFault | Status::NoMemory)
}

/// Runs a job over each file in order, each as its own input within the limit, or over standard input if there are
/// none. Returns the greatest code, and stops at once if a write failed or memory is missing. `format` is the operand
/// that names the format of the numerals in the files, and is empty if there is none.
pub fn run_inputs_to<'a, L: Ledger>(
    rt: &HostRuntime,
    job: &Job<'_>,
    limit: &Option<Limit>,
    format: &str,
    files: &[&'a str],
    output: &mut Output,
    rejects: &mut RejectFile<'_, 'a>,
    steps: &mut Steps<L>,
) -> Status {
    if files.is_empty() {
        return run_file(rt, job, limit, format, "-", output, rejects, steps);
    }
    let mut end = Status::Done;
    for file in files {
        let status = run_file(rt, job, limit, format, file, output, rejects, steps);
        end = greater_end(end, status);
        if is_last(status) {
            return end;
        }
    }
    end
}

/// Runs a job over the files from an index on, each within the limit, and writes to the output that the option names.
/// `format` is the operand that names the format of the numerals in the files, and is empty if there is none.
pub fn run_inputs_within<'a, L: Ledger>(
    rt: &HostRuntime,
    job: &Job<'_>,
    limit: &Option<Limit>,
    format: &str,
    given: &Given<'_, 'a>,
    place: usize,
    steps: &mut Steps<L>,
) -> Asked<'a, Status> {
    let files = given.from(place);
    refuse_rejects(rt, given, files)?;
    let mut output = match open_output(rt, given, files)? {
        Ok(output) => output,
        Err(status) => return Ok(status),
    };
    let failure = Failure::new(None);
    match open_rejects(rt, given, files, &failure)? {
        Ok(mut rejects) => {
            let told = &mut rejects;
            Ok(run_inputs_to(rt, job, limit, format, files, &mut output, told, steps))
        }
        Err(status) => Ok(status),
    }
}

/// Runs a job over the files from an index on, each within the limit that the option names, if any.
pub fn run_inputs<'a, L: Ledger>(
    rt: &HostRuntime,
    job: &Job<'_>,
    format: &str,
    given: &Given<'_, 'a>,
    place: usize,
    steps: &mut Steps<L>,
) -> Asked<'a, Status> {
    match limit_asked(given) {
        Ok(limit) => run_inputs_within(rt, job, &limit, format, given, place, steps),
        Err(refusal) => Err(refusal),
    }
}
