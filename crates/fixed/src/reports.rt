//! Reports of outcomes on standard error: in lines of text, or as an object of JSON on a line for each input.

ghost use Rattle.std.specs.Prelude.{◌≡◌, ◌≤◌, codes, length};
ghost use Rattle.command_line.specs.Words.{value_of};
ghost use Rattle.fixed.specs.Reports.{form_named};

use crate::inputs::{report_greatest, report_tally};
use crate::options::REPORT;
use command_line::given::Given;
use command_line::json_line::JsonLine;
use fixed_command::{Place, Tally, place_name};
use fixed_report::{ErrorReport, Lost, MAX_GREATEST, MAX_MEAN};
use fixed_steps::Steps;
use std::sync::ledger::Ledger;

/// How a report is written.
#[derive(Clone, Copy, Debug, PartialEq, Eq)]
pub enum ReportForm {
    /// In lines of text.
    Text,
    /// As an object of JSON on a line.
    Json,
}

/// Returns how the report is written that the option requests. `None`: none is requested.
pub fn report_asked(given: &Given<'_, '_>) -> Option<ReportForm>
    ensures { result ≡ form_named (value_of given.now (codes "report")) }
{
    match given.value(&REPORT) {
        None => None,
        Some("json") => Some(ReportForm::Json),
        Some(_) => Some(ReportForm::Text),
    }
}

/// Begins the object of an input, with the counts of its numerals by outcome.
pub fn counts(file: Option<&str>, tally: &Tally) -> JsonLine {
    let mut line = JsonLine::of(file);
    line.number("count", tally.total());
    line.number("exact", tally.exact);
    line.number("rounded", tally.rounded);
    line.number("overflowed", tally.overflowed);
    line.number("refused", tally.refused);
    line
}

/// Appends where the first numeral of an outcome is. `name` is what such places are called.
fn push_first(line: &mut JsonLine, key: &str, name: &str, first: u64) {
    if first == 0 {
        line.null(key);
    } else {
        line.open(key);
        line.number(name, first);
        line.close();
    }
}

/// Appends that there are no means of errors.
fn push_no_means(line: &mut JsonLine) {
    line.null("mean_ulps");
    line.null("rms_ulps");
}

/// Appends the mean of errors and the root of the mean of their squares, in ulps and rounded to six digits, if known.
fn push_means(line: &mut JsonLine, errors: &ErrorReport) {
    match errors.mean_texts() {
        Some(texts) => {
            line.string("mean_ulps", texts.mean.as_bytes(), MAX_MEAN);
            line.string("rms_ulps", texts.root.as_bytes(), MAX_MEAN);
        }
        None => push_no_means(line),
    }
}

/// Appends which numeral has the greatest error, with the error and the same in ulps, or why that is not known; and the
/// means of errors.
pub fn push_errors<L: Ledger>(
    line: &mut JsonLine,
    errors: &ErrorReport,
    name: &'static str,
    steps: &mut Steps<L>,
)
    requires name { length name.now ≤ 8 }
{
    let why = match errors.lost() {
        Some(Lost::NoMemory) => "there is no memory for it",
        Some(Lost::TooLong) => "a numeral is too long for it",
        None => "",
    };
    match errors.greatest(steps) {
        Some((place, texts)) => {
            line.open("greatest_error");
            line.number(name, place);
            line.string("error", texts.error.as_bytes(), MAX_GREATEST);
            line.string("ulps", texts.ulps.as_bytes(), MAX_GREATEST);
            line.close();
        }
        None if why.is_empty() => line.null("greatest_error"),
        None => {
            line.open("greatest_error");
            line.string("unknown", why.as_bytes(), MAX_GREATEST);
            line.close();
        }
    }
    push_means(line, errors);
}

/// Reports the outcomes of numerals and the greatest error as an object of JSON. `name` is what their places are
/// called.
pub fn send_object<L: Ledger>(
    rt: &HostRuntime,
    file: Option<&str>,
    tally: &Tally,
    errors: &ErrorReport,
    name: &'static str,
    steps: &mut Steps<L>,
)
    requires name { length name.now ≤ 8 }
{
    let mut line = counts(file, tally);
    push_first(&mut line, "first_overflowed", name, tally.first_overflowed);
    push_first(&mut line, "first_refused", name, tally.first_refused);
    push_errors(&mut line, errors, name, steps);
    line.send(rt);
}

/// Reports the outcomes of the numerals of the lines of an input, and the greatest error.
pub fn report_lines<L: Ledger>(
    rt: &HostRuntime,
    form: ReportForm,
    file: Option<&str>,
    tally: &Tally,
    errors: &ErrorReport,
    steps: &mut Steps<L>,
) {
    let name = place_name(Place::Line);
    match form {
        ReportForm::Text => {
            report_tally(rt, file, tally, Place::Line);
            report_greatest(rt, file, errors, name.as_bytes(), steps);
        }
        ReportForm::Json => send_object(rt, file, tally, errors, name, steps),
    }
}
