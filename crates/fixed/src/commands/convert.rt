//! `fixed convert`: converts numerals, one a line.

ghost use Rattle.std.specs.Prelude.{◌≡◌, IfErr, IfOk, None};
ghost use Rattle.command_line.specs.Words.{value_of};
ghost use Rattle.fixed.specs.Convert.{HasNoWordOption, IsJobAsked, IsLinesAsked, IsTaskAsked, IsWordsAsked};
ghost use Rattle.fixed.specs.Errors.{IsErrorTaskAsked};
ghost use Rattle.fixed.specs.declared.inputs.Job.{Job};
ghost use Rattle.fixed_command.specs.declared.task.Task.{Task};

use crate::commands::amounts;
use crate::commands::convert_errors::{error_settings, measure_of, refuse_beside_errors};
use crate::commands::convert_words::word_rule;
use crate::inputs::{Job, run_inputs};
use crate::line_layout::{has_layout, layout_of};
use crate::options::{
    COMMENTS, FROM, KEEP_WORDS, LIMIT, MODE, OUTPUT, PLACES, PLACES_MODE, POLICY, PRINT_OR_ERROR,
    RADIX, REFUSED, REJECTS, REPORT, SEPARATORS, SKIP_BLANK, SOURCE, TARGET, TARGET_MODE, TRIM,
    WORDS,
};
use crate::reports::report_asked;
use crate::settings::{conversion, note_target_mode};
use command_line::given::{Asked, Given, Refusal};
use command_line::page::{Page, Row};
use fixed_command::{ConvertRule, CountedRule, ErrorLines, LaidOutRule, Measure, Offers, Task};
use fixed_steps::Steps;
use line_engine::Status;
use std::sync::ledger::Ledger;

/// The options for other spellings of numerals.
pub const OFFERS: Offers = Offers {
    decimal: false,
    trim: true,
    radix: true,
};

pub fn page() -> Page {
    Page {
        name: "convert",
        hidden_name: "",
        about: "Convert numerals or words of bits, one a line",
        usage: "fixed convert [OPTIONS] SOURCE [TARGET] [FILE]...",
        operands: &[SOURCE, TARGET],
        has_numerals: false,
        options: &[
            FROM,
            RADIX,
            POLICY,
            MODE,
            TARGET_MODE,
            PRINT_OR_ERROR,
            PLACES,
            PLACES_MODE,
            TRIM,
            SKIP_BLANK,
            COMMENTS,
            LIMIT,
            WORDS,
            SEPARATORS,
            REFUSED,
            KEEP_WORDS,
            REPORT,
            REJECTS,
            OUTPUT,
        ],
        end: "A format is I (signed) or U (unsigned), its whole bits, F and its fraction bits,\n\
              as in I16F16 or I-9F25, 1 to 64 bits in all; or as in Q15 and UQ8.8. D0 to D18\n\
              are decimal SOURCEs, for money: D2 counts cents, and has two places. A\n\
              number is rounded down from SOURCE to TARGET, or by --target-mode. A text reads\n\
              back in its own format only: in another it may round to another number.\n\
              \n\
              A word is decimal, or after 0x, 0o or 0b, or bare in the radix, of at most the\n\
              bits of SOURCE in two's complement; with a sign it is the number itself.\n\
              \n\
              --print error has the error of each number read into SOURCE: its value less that\n\
              of the numeral, and --print ulps the same in ulps, as 'fixed show' has them.\n\
              \n\
              With --words a refused word becomes one word, or text stays (--keep);\n\
              CHARS may be ',[]{}():=;' for C, TOML and dumps.\n\
              \n\
              Example: echo 3.14159 | fixed convert I16F16 I8F8 --print all",
    }
}

/// Returns the task for each input. Lines of only numerals are converted at less cost.
fn task_of<'a>(given: &Given<'_, 'a>, rule: ConvertRule) -> Asked<'a, Task<'a>>
    ensures value { IfOk result (λ task. IsTaskAsked given.now rule task) }
    ensures refused { IfErr result (λ _. (task : Task) → ¬ IsTaskAsked given.now rule task) }
{
    let has_report = given.value(&REPORT).is_some();
    if !has_report && !has_layout(given) {
        return Ok(Task::Convert(rule));
    }
    match layout_of(given) {
        Ok(layout) => {
            let laid = LaidOutRule { rule, layout };
            Ok(if has_report {
                Task::Reported(CountedRule { laid })
            } else {
                Task::LaidOut(laid)
            })
        }
        Err(refusal) => Err(refusal),
    }
}

/// Returns the job that converts lines.
fn lines_of<'a>(given: &Given<'_, 'a>, rule: ConvertRule) -> Asked<'a, Job<'a>>
    ensures value { IfOk result (λ job. IsLinesAsked given.now rule job) }
    ensures refused { IfErr result (λ _. (job : Job) → ¬ IsLinesAsked given.now rule job) }
{
    refuse_words(given)?;
    match task_of(given, rule) {
        Ok(task) => Ok(match report_asked(given) {
            Some(form) => Job::Reported { task, form },
            None => Job::Task(task),
        }),
        Err(refusal) => Err(refusal),
    }
}

/// Returns the job for each input, by lines or by words.
fn job_of<'a>(given: &Given<'_, 'a>, rule: ConvertRule) -> Asked<'a, Job<'a>>
    ensures value { IfOk result (λ job. IsJobAsked given.now rule job) }
    ensures refused { IfErr result (λ _. (job : Job) → ¬ IsJobAsked given.now rule job) }
{
    if given.has(&WORDS) {
        words_of(given, rule)
    } else {
        lines_of(given, rule)
    }
}

/// Refuses an option that has a meaning only for words. `word` is the option as it is given.
fn refuse_of_words<'a>(given: &Given<'_, 'a>, row: &Row, word: &'static str) -> Asked<'a, ()>
    ensures value { IfOk result (λ _. value_of given.now row.now.name.now ≡ None) }
    ensures refused { IfErr result (λ _. ¬ (value_of given.now row.now.name.now ≡ None)) }
{
    match given.value(row) {
        None => Ok(()),
        Some(_) => Err(Refusal::Word(word, "goes with '--words' alone")),
    }
}

/// Refuses options that have a meaning only for words.
pub fn refuse_words<'a>(given: &Given<'_, 'a>) -> Asked<'a, ()>
    ensures value { IfOk result (λ _. HasNoWordOption given.now) }
    ensures refused { IfErr result (λ _. ¬ HasNoWordOption given.now) }
{
    refuse_of_words(given, &SEPARATORS, "--separators")?;
    refuse_of_words(given, &REFUSED, "--refused")?;
    refuse_of_words(given, &KEEP_WORDS, "--keep")
}

/// Returns the job that converts words in place. Separators stay, so comments are refused.
fn words_of<'a>(given: &Given<'_, 'a>, rule: ConvertRule) -> Asked<'a, Job<'a>>
    ensures value { IfOk result (λ job. IsWordsAsked given.now rule job) }
    ensures refused { IfErr result (λ _. (job : Job) → ¬ IsWordsAsked given.now rule job) }
{
    match given.value(&COMMENTS) {
        None => (),
        Some(_) => return Err(Refusal::Word("--comments", "does not go with '--words'")),
    }
    match word_rule(given, rule) {
        Ok(rule) => Ok(Job::Words {
            rule,
            report: report_asked(given),
        }),
        Err(refusal) => Err(refusal),
    }
}

/// Returns the task that writes the error of each numeral.
fn error_task<'a>(given: &Given<'_, 'a>, measure: Measure) -> Asked<'a, Task<'a>>
    ensures value { IfOk result (λ task. IsErrorTaskAsked given.now measure task) }
    ensures refused { IfErr result (λ _. (task : Task) → ¬ IsErrorTaskAsked given.now measure task) }
{
    if let Some(_) = amounts::decimal_at(given, 0) {
        return Err(Refusal::Option(
            "print",
            "has no errors of a decimal format: 'fixed show' has the error of an amount",
        ));
    }
    refuse_beside_errors(given)?;
    let settings = match error_settings(given, measure) {
        Ok(settings) => settings,
        Err(refusal) => return Err(refusal),
    };
    let layout = match layout_of(given) {
        Ok(layout) => layout,
        Err(refusal) => return Err(refusal),
    };
    Ok(Task::Errors(ErrorLines { settings, layout }))
}

/// Writes the error of each numeral of each file.
fn run_errors<'a, L: Ledger>(
    rt: &HostRuntime,
    given: &Given<'_, 'a>,
    measure: Measure,
    steps: &mut Steps<L>,
) -> Asked<'a, Status> {
    let job = match error_task(given, measure) {
        Ok(task) => Job::Task(task),
        Err(refusal) => return Err(refusal),
    };
    let format = given.needed(0, "SOURCE")?;
    run_inputs(rt, &job, format, given, 1, steps)
}

/// Converts the numerals of each file.
pub fn run<'a, L: Ledger>(
    rt: &HostRuntime,
    given: &Given<'_, 'a>,
    steps: &mut Steps<L>,
) -> Asked<'a, Status> {
    if let Some(measure) = measure_of(given) {
        return run_errors(rt, given, measure, steps);
    }
    if let Some(format) = amounts::decimal_at(given, 0) {
        return amounts::convert(rt, given, format, steps);
    }
    amounts::refuse_decimal_target(given, 1)?;
    let (rule, place) = conversion(given, 0)?;
    let job = match job_of(given, rule) {
        Ok(job) => job,
        Err(refusal) => return Err(refusal),
    };
    note_target_mode(rt, given, 0, place);
    let format = given.needed(0, "SOURCE")?;
    run_inputs(rt, &job, format, given, place, steps)
}
