//! `fixed json`: converts the values at a path of lines of JSON.

ghost use Rattle.std.specs.Prelude.{◌≡◌, ◌⊎◌, ◌&&◌, Bool, List, ℕ, IfErr, IfOk, map};
ghost use Rattle.command_line.specs.Device.{written_to};
ghost use Rattle.command_line.specs.declared.given.Refusal.{Refusal};
ghost use Rattle.fixed.specs.Json.{IsAmountRuleAsked, IsBinaryRuleAsked, IsFormOf, IsJsonJobAsked, IsPathAsked};
ghost use Rattle.fixed.specs.Json.{IsRuleAsked, JsonEndsBetween, RunsJson, is_quoted, is_quoted_amount};
ghost use Rattle.fixed.specs.Inputs.{EndsBetween, RunsBetween};
ghost use Rattle.fixed_command.specs.Limits.{limit_of};
ghost use Rattle.fixed.specs.declared.commands.json.JsonJob.{JsonJob};
ghost use Rattle.fixed.specs.declared.commands.json.ValueRule.{ValueRule};
ghost use Rattle.json_lines.specs.Path.{PathStep, step_of};

use crate::commands::amounts;
use crate::commands::column_words::form_of;
use crate::explained::push_explanation;
use crate::inputs::{Job, asked_report, is_last, run_inputs};
use crate::line_layout::layout_of;
use crate::options::{
    FROM, LIMIT, MODE, OUTPUT, PLACES, PLACES_MODE, POLICY, PRINT, RADIX, REJECTS, REPORT, SOURCE,
    TARGET, TARGET_MODE,
};
use crate::rejects::{Guarded, RejectFile};
use crate::reports::{ReportForm, report_asked, report_lines};
use crate::settings::{conversion, note_target_mode};
use column_engine::{FieldRule, FieldWatch, FirstRefused};
use command_line::device::{Failure, Output, Unmarked, Writer};
use command_line::given::{Asked, Given, Refusal};
use command_line::page::{Operand, Page, Row};
use command_line::report::{Report, report_end};
use fixed_amounts::{AmountPrint, AmountSettings};
use fixed_command::{
    ConvertRule, FieldForm, FieldNumerals, FieldReport, Layout, Limit, Offers, Print, RefusedFields,
};
use fixed_decimal::DecimalFormat;
use fixed_io::{StdSink, StdSource};
use fixed_numeral::Radix;
use fixed_steps::Steps;
use json_lines::{Form, JsonRefusal, JsonTask, PathFault, Step, path_named, run_json};
use line_engine::Status;
use std::alloc::Global;
use std::io::{Read, Write};
use std::mem;
use std::sync::ledger::Ledger;

/// How many characters of a refused text a report shows.
const MAX_TEXT: usize = 40;

const PATH: Operand = Operand {
    name: "PATH",
    help: ".name, .[3], .[] for every element, or several in a row",
};

const TRIM: Row = Row {
    name: "trim",
    letter: None,
    value: "",
    choices: &[],
    help: "Blanks around a numeral in a string are left out",
};

const SKIP_BLANK: Row = Row {
    name: "skip-blank",
    letter: None,
    value: "",
    choices: &[],
    help: "A blank line stays as it was",
};

const COMMENTS: Row = Row {
    name: "comments",
    letter: None,
    value: "PREFIX",
    choices: &[],
    help: "A line that begins with PREFIX stays as it was",
};

const KEEP: Row = Row {
    name: "keep",
    letter: None,
    value: "",
    choices: &[],
    help: "A line that is refused stays as it was",
};

/// The options for other spellings of numerals.
const OFFERS: Offers = Offers {
    decimal: false,
    trim: true,
    radix: true,
};

/// How a value is converted.
#[derive(Drop)]
pub enum ValueRule {
    /// Into a binary format.
    Binary(ConvertRule),
    /// Into a decimal one.
    Amount(AmountSettings),
}

/// How lines of JSON are converted.
#[derive(Drop)]
pub struct JsonJob<'a> {
    /// How a value is converted.
    rule: ValueRule,
    /// Whether every reply is written as a string. Otherwise only the reply to a string is.
    quotes: bool,
    /// How a value spells a numeral.
    spelling: FieldForm<'a>,
    /// The path to the values.
    steps: Vec<Step<'a>>,
    /// Whether a refused line stays as it was.
    keeps: bool,
    /// Which lines stay, as blank ones or comments.
    layout: Layout,
    /// The report of the values that is requested, if any.
    report: Option<ReportForm>,
}

pub fn page() -> Page {
    Page {
        name: "json",
        hidden_name: "",
        about: "Convert values of lines of JSON, every other byte as it was",
        usage: "fixed json [OPTIONS] PATH SOURCE [TARGET] [FILE]...",
        operands: &[PATH, SOURCE, TARGET],
        has_numerals: false,
        options: &[
            FROM,
            RADIX,
            POLICY,
            MODE,
            TARGET_MODE,
            PRINT,
            PLACES,
            PLACES_MODE,
            TRIM,
            SKIP_BLANK,
            COMMENTS,
            KEEP,
            LIMIT,
            REPORT,
            REJECTS,
            OUTPUT,
        ],
        end: "Each line is a JSON value. PATH leads from there to numbers, or strings that are\n\
              numerals: .sensor.celsius, .samples[] (every element), .[0] (the first one), or\n\
              a point alone. A name with a point or a bracket stands in quotes: .\"a.b\". Names\n\
              are compared as they are written, escapes too. A line that is not JSON, or has\n\
              no value at PATH, is refused.\n\
              \n\
              A string stays one, and a number is written as a string with --print hex,\n\
              readmemh or all. D0 to D18 are decimal SOURCEs, for money.\n\
              \n\
              Example: fixed json .celsius I8F8 <log.jsonl",
    }
}

/// Returns the path.
fn path_of<'a>(alloc: Global, given: &Given<'_, 'a>) -> Asked<'a, Vec<Step<'a>>>
    ensures value { IfOk result (λ steps. IsPathAsked given.now (map step_of steps.items)) }
    ensures refused { IfErr result (λ e. (e ≡ Refusal.NoMemory)
        ⊎ ((steps : List PathStep) → ¬ IsPathAsked given.now steps)) }
{
    let word = given.needed(0, "PATH")?;
    match path_named(alloc, word.as_bytes()) {
        Ok(steps) => Ok(steps),
        Err(PathFault::NoMemory) => Err(Refusal::NoMemory),
        Err(PathFault::NoPath) => Err(Refusal::Word(
            word,
            "is not a path: such as '.name', '.list[]', '.list[3]', '.\"a.b\"' or '.'",
        )),
    }
}

/// Whether a part of an answer is written as a string.
fn is_quoted(print: Print) -> bool
    ensures { result ≡ is_quoted print }
{
    match print {
        Print::Text | Print::Places(..) | Print::Value | Print::Bits => false,
        Print::Hex | Print::Readmemh | Print::All => true,
    }
}

/// Whether a part of an amount is written as a string.
fn is_quoted_amount(print: AmountPrint) -> bool
    ensures { result ≡ is_quoted_amount print }
{
    match print {
        AmountPrint::Text | AmountPrint::Units => false,
        AmountPrint::Hex | AmountPrint::HexDigits | AmountPrint::All => true,
    }
}

/// Returns how the values of a job are exchanged and which lines stay.
fn json_form<'l>(job: &'l JsonJob<'_>) -> Form<'l>
    ensures { IsFormOf job.now result }
{
    Form {
        quotes: job.quotes,
        keeps: job.keeps,
        layout: &job.layout,
    }
}

/// Appends how many lines of an input were refused, with the first of them.
fn push_refusal(report: &mut Report, count: u64, first: &JsonRefusal) {
    report.text("lines refused: ");
    report.number(count);
    report.text(", the first in line ");
    report.number(first.number);
    if first.byte > 0 {
        report.text(", byte ");
        report.number(first.byte);
    }
    report.text(", '");
    report.bytes(first.text.as_bytes(), MAX_TEXT);
    report.text("': ");
    report.bytes(first.cause.as_bytes(), 160);
    push_stop(report, first);
}

/// Appends where a line stops being JSON, with the byte there if it is kept.
fn push_stop(report: &mut Report, first: &JsonRefusal) {
    if first.stop == 0 {
        return;
    }
    report.text(", byte ");
    report.number(first.stop);
    let text = first.text.as_bytes();
    let index = (first.stop - 1) as usize;
    if index < text.len() {
        report.text(", '");
        report.bytes(&text[index..=index], 1);
        report.text("'");
    } else if first.is_whole {
        report.text(", where it ends");
    }
}

/// Reports on standard error how many lines of an input were refused, with the first of them.
fn report_refused<L: Ledger>(
    rt: &HostRuntime,
    job: &JsonJob<'_>,
    file: Option<&str>,
    count: u64,
    first: &JsonRefusal,
    steps: &mut Steps<L>,
) {
    let mut report = Report::of(file);
    push_refusal(&mut report, count, first);
    if first.byte > 0 && first.is_whole {
        if let ValueRule::Binary(rule) = &job.rule {
            let before = first.byte.saturating_sub(1) as usize;
            let value = (first.text.as_bytes(), before);
            let cause = first.cause.as_bytes();
            push_explanation(&mut report, rule, OFFERS, value, cause, steps);
        }
    }
    report.send(rt);
}

/// How the conversion of the values of an input ended.
#[derive(Drop)]
struct ValuesEnd<W> {
    /// Its status, which also tells of a failed write of rejects.
    status: Status,
    /// How many lines were answered.
    lines: u64,
    /// How many of them were refused.
    refused: u64,
    /// The first refused one.
    first: Option<JsonRefusal>,
    /// The observer of the values.
    watch: W,
}

/// Converts the values of one input by a rule, and tells an observer of each. Each refused value or line has a line of
/// rejects.
#[inline(never)]
fn run_rule<
    A: FieldRule<L>,
    W: FieldWatch<A, L> + Drop,
    R: Read + Drop,
    S: Write + Drop,
    F: Write + Drop,
    L: Ledger,
>(
    rt: &HostRuntime,
    job: &JsonJob<'_>,
    rule: &A,
    limit: &Option<Limit>,
    watch: W,
    reader: R,
    output: &mut Output<S, F>,
    rejects: &mut RejectFile<'_, '_>,
    failure: &Failure,
    steps: &mut Steps<L>,
) -> ValuesEnd<W>
    ensures { EndsBetween (λ status. RunsBetween (RunsJson (λ rule. A.Answers rule) (λ rule. W.Saw rule)
        (limit_of limit.now) job.now rule.now rejects.old.rejects status))
        (rejects.old.has_file && rejects.new.rejects.has_failed) result.status (R.remaining reader)
        (written_to S.contents F.contents output.old)
        (written_to S.contents F.contents output.new) }
{
    let task = JsonTask {
        rule,
        steps: &job.steps,
        form: json_form(job),
    };
    let mut source = StdSource::new(Unmarked::new(reader));
    let writer = mem::replace(output, Output::Nowhere);
    let mut sink = StdSink::new(Writer {
        writer: Guarded {
            writer,
            failure: rejects.failure,
        },
        failure,
    });
    let observer = RefusedFields {
        first: FirstRefused::new(),
        rejects: rejects.take(),
        watch,
    };
    let end = run_json(
        rt.alloc(),
        limit,
        &task,
        observer,
        &mut source,
        &mut sink,
        steps,
    );
    let fields = end.observer;
    let lines = sink.lines();
    *output = sink.into_writer().writer.writer;
    ValuesEnd {
        status: rejects.end_with(fields.rejects, end.status),
        lines,
        refused: end.refused,
        first: end.first,
        watch: fields.watch,
    }
}

/// Reports on standard error the first refused line and the outcomes of an input, if these are kept, and why it did not
/// end well.
fn report<W, L: Ledger>(
    rt: &HostRuntime,
    job: &JsonJob<'_>,
    file: Option<&str>,
    end: &ValuesEnd<W>,
    outcomes: Option<&FieldReport>,
    failure: &Failure,
    steps: &mut Steps<L>,
) {
    if !is_last(end.status) {
        if let Some(first) = &end.first {
            report_refused(rt, job, file, end.refused, first, steps);
        }
        if let (Some(form), Some(fields)) = (job.report, outcomes) {
            report_lines(rt, form, file, &fields.tally, &fields.errors, steps);
        }
    }
    report_end(rt, file, end.status, end.lines, failure);
}

/// Converts the values of one input, and reports on standard error why it did not end well.
pub fn run_on<R: Read + Drop, S: Write + Drop, F: Write + Drop, L: Ledger>(
    rt: &HostRuntime,
    job: &JsonJob<'_>,
    limit: &Option<Limit>,
    file: Option<&str>,
    reader: R,
    output: &mut Output<S, F>,
    rejects: &mut RejectFile<'_, '_>,
    steps: &mut Steps<L>,
) -> Status
    ensures { JsonEndsBetween (rejects.old.has_file && rejects.new.rejects.has_failed) limit.now job.now
        rejects.old.rejects result (R.remaining reader) (written_to S.contents F.contents output.old)
        (written_to S.contents F.contents output.new) }
{
    let failure = Failure::new(None);
    match &job.rule {
        ValueRule::Binary(rule) => {
            let numerals = FieldNumerals {
                rule,
                radix: rule.settings().radix,
                form: &job.spelling,
            };
            let watch = asked_report(rt, rule, job.report);
            let end = run_rule(
                rt, job, &numerals, limit, watch, reader, output, rejects, &failure, steps,
            );
            let failure = rejects.failure_or(&failure);
            report(rt, job, file, &end, end.watch.as_ref(), failure, steps);
            end.status
        }
        ValueRule::Amount(rule) => {
            let numerals = FieldNumerals {
                rule,
                radix: Radix::Dec,
                form: &job.spelling,
            };
            let end = run_rule(
                rt,
                job,
                &numerals,
                limit,
                (),
                reader,
                output,
                rejects,
                &failure,
                steps,
            );
            let failure = rejects.failure_or(&failure);
            report(rt, job, file, &end, None, failure, steps);
            end.status
        }
    }
}

/// Returns how a value is converted into an amount of a decimal format, whether every reply is written as a string, and
/// the index of the first file.
fn amount_rule_of<'a>(
    given: &Given<'_, 'a>,
    format: DecimalFormat,
) -> Asked<'a, (ValueRule, bool, usize)>
    ensures value { IfOk result (λ found. IsAmountRuleAsked given.now format found.0 found.1 found.2) }
    ensures refused { IfErr result (λ _. (rule : ValueRule) (quotes : Bool) (files : ℕ)
        → ¬ IsAmountRuleAsked given.now format rule quotes files) }
{
    amounts::refuse_target(given, 2)?;
    match amounts::amount_settings(given, format) {
        Ok(settings) => {
            let quotes = is_quoted_amount(settings.print);
            Ok((ValueRule::Amount(settings), quotes, 2))
        }
        Err(refusal) => Err(refusal),
    }
}

/// Returns how a value is converted into a binary format, whether every reply is written as a string, and the index of
/// the first file.
fn binary_rule_of<'a>(given: &Given<'_, 'a>) -> Asked<'a, (ValueRule, bool, usize)>
    ensures value { IfOk result (λ found. IsBinaryRuleAsked given.now found.0 found.1 found.2) }
    ensures refused { IfErr result (λ _. (rule : ValueRule) (quotes : Bool) (files : ℕ)
        → ¬ IsBinaryRuleAsked given.now rule quotes files) }
{
    amounts::refuse_decimal_target(given, 2)?;
    match conversion(given, 1) {
        Ok((rule, files)) => {
            let quotes = is_quoted(rule.settings().print);
            Ok((ValueRule::Binary(rule), quotes, files))
        }
        Err(refusal) => Err(refusal),
    }
}

/// Returns how a value is converted, whether every reply is written as a string, and the index of the first file.
fn rule_of<'a>(given: &Given<'_, 'a>) -> Asked<'a, (ValueRule, bool, usize)>
    ensures value { IfOk result (λ found. IsRuleAsked given.now found.0 found.1 found.2) }
    ensures refused { IfErr result (λ _. (rule : ValueRule) (quotes : Bool) (files : ℕ)
        → ¬ IsRuleAsked given.now rule quotes files) }
{
    match amounts::decimal_at(given, 1) {
        Some(format) => match amount_rule_of(given, format) {
            Ok(found) => Ok(found),
            Err(refusal) => Err(refusal),
        },
        None => match binary_rule_of(given) {
            Ok(found) => Ok(found),
            Err(refusal) => Err(refusal),
        },
    }
}

/// Returns the job for each input, and the index of the first file.
fn job_of<'a>(alloc: Global, given: &Given<'_, 'a>) -> Asked<'a, (JsonJob<'a>, usize)>
    ensures value { IfOk result (λ asked. IsJsonJobAsked given.now asked.0 asked.1) }
    ensures refused { IfErr result (λ e. (e ≡ Refusal.NoMemory) ⊎ ((job : JsonJob) (files : ℕ)
        → ¬ IsJsonJobAsked given.now job files)) }
{
    let steps = match path_of(alloc, given) {
        Ok(steps) => steps,
        Err(refusal) => return Err(refusal),
    };
    let layout = match layout_of(given) {
        Ok(layout) => layout,
        Err(refusal) => return Err(refusal),
    };
    let spelling = match form_of(given) {
        Ok(spelling) => spelling,
        Err(refusal) => return Err(refusal),
    };
    match rule_of(given) {
        Ok((rule, quotes, files)) => {
            let job = JsonJob {
                rule,
                quotes,
                spelling,
                steps,
                keeps: given.has(&KEEP),
                layout,
                report: report_asked(given),
            };
            Ok((job, files))
        }
        Err(refusal) => Err(refusal),
    }
}

/// Converts the values of each file.
pub fn run<'a, L: Ledger>(
    rt: &HostRuntime,
    given: &Given<'_, 'a>,
    steps: &mut Steps<L>,
) -> Asked<'a, Status> {
    let (job, files) = match job_of(rt.alloc(), given) {
        Ok(found) => found,
        Err(refusal) => return Err(refusal),
    };
    note_target_mode(rt, given, 1, files);
    let format = given.needed(1, "SOURCE")?;
    run_inputs(rt, &Job::Json(job), format, given, files, steps)
}
