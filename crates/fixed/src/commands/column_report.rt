//! The reports of `fixed column` on standard error.

ghost use Rattle.std.specs.Prelude.{◌≡◌, ◌&&◌};
ghost use Rattle.fixed.specs.Columns.{columns_status, is_read_fault};

use crate::commands::amounts::COLUMN_OFFERS;
use crate::commands::column::OFFERS;
use crate::explained::amount_rule;
use crate::inputs::report_greatest;
use crate::reports::{ReportForm, counts, push_errors};
use column_engine::name::write_name;
use column_engine::place::field_end;
use column_engine::{Column, ColumnEnd, FieldPlace, RefusedField, Stop};
use command_line::device::Failure;
use command_line::json_line::JsonLine;
use command_line::report::{Report, is_broken_pipe, push_words};
use fixed_amounts::AmountSettings;
use fixed_command::{
    ColumnConversion, ConvertRule, FieldForm, FieldReport, MAX_TALLY, Place,
    amount_field_explanation, field_explanation, place_name, tally_text,
};
use fixed_steps::Steps;
use line_engine::Status;
use std::sync::ledger::Ledger;
use text_buffer::TextBuffer;

/// How many characters of a field or a name a report shows.
const MAX_TEXT: usize = 40;

/// How many characters of a column's name an object of JSON shows.
const MAX_NAME: usize = 256;

/// The most bytes of a field that are known.
const MAX_KEPT: usize = 160;

/// The most bytes of a header that are known: the last of them may be within a name.
const MAX_HEADER: usize = 4096;

/// The delimiters that are tried for a header that lacks a name.
const DELIMITERS: &[u8] = b";\t,|: ";

/// A rule that converts fields and can explain why it refuses one.
pub trait Explains {
    /// Appends an explanation of a field that is refused for this cause.
    fn explain<L: Ledger>(
        &self,
        form: &FieldForm<'_>,
        field: &[u8],
        cause: &[u8],
        report: &mut Report,
        steps: &mut Steps<L>,
    );
}

impl Explains for ConvertRule {
    fn explain<L: Ledger>(
        &self,
        form: &FieldForm<'_>,
        field: &[u8],
        cause: &[u8],
        report: &mut Report,
        steps: &mut Steps<L>,
    ) {
        let more = field_explanation(self, OFFERS, form, field, cause, steps);
        report.bytes(more.as_bytes(), 640);
    }
}

impl Explains for AmountSettings {
    fn explain<L: Ledger>(
        &self,
        form: &FieldForm<'_>,
        field: &[u8],
        cause: &[u8],
        report: &mut Report,
        steps: &mut Steps<L>,
    ) {
        if cause == b"overflow".as_slice() {
            let more = amount_field_explanation(self, form, field, cause, steps);
            report.bytes(more.as_bytes(), 640);
        } else {
            let rule = amount_rule(self.spelling);
            let more = field_explanation(&rule, COLUMN_OFFERS, form, field, cause, steps);
            report.bytes(more.as_bytes(), 640);
        }
    }
}

/// A name of a header.
pub type Name = TextBuffer<MAX_HEADER>;

/// The known names of a header.
#[derive(Drop)]
struct Names<'h> {
    delimiter: u8,
    rest: Option<&'h [u8]>,
    is_cut: bool,
}

impl<'h> Names<'h> {
    /// The names in these bytes of a header.
    fn new(delimiter: u8, header: &'h [u8]) -> Names<'h> {
        Names {
            delimiter,
            rest: Some(header),
            is_cut: header.len() >= MAX_HEADER,
        }
    }

    /// Writes the next name, as COLUMNS names it. Returns false if no more is known.
    fn next_name(&mut self, name: &mut Name) -> bool {
        let rest = match self.rest {
            Some(rest) => rest,
            None => return false,
        };
        let end = field_end(self.delimiter, rest);
        self.rest = rest.get(end.saturating_add(1)..);
        if self.rest.is_none() && self.is_cut {
            return false;
        }
        write_name(rest.get(..end).unwrap_or(&[]), name);
        true
    }

    /// Whether one of the names is `wanted`.
    fn has(mut self, wanted: &[u8]) -> bool {
        let mut name = Name::new();
        for _ in 0..MAX_HEADER {
            if !self.next_name(&mut name) {
                return false;
            }
            if name.as_bytes() == wanted {
                return true;
            }
        }
        false
    }

    /// Whether there is only one name, as far as is known.
    fn is_one(&self) -> bool {
        match self.rest {
            Some(rest) => field_end(self.delimiter, rest) == rest.len(),
            None => false,
        }
    }
}

/// Appends a text between quotes, cut if it is long.
fn push_quoted(report: &mut Report, text: &[u8]) {
    report.text("'");
    report.name(text, MAX_TEXT);
    report.text("'");
}

/// Writes the name of a column. Returns false if it is not known.
fn write_column(column: usize, delimiter: u8, header: Option<&[u8]>, name: &mut Name) -> bool {
    match header {
        Some(header) => {
            let mut names = Names::new(delimiter, header);
            for _ in 0..column {
                if !names.next_name(name) {
                    break;
                }
            }
            names.next_name(name)
        }
        None => false,
    }
}

/// Appends a column: its name if it is known, else its number.
fn push_column(report: &mut Report, column: usize, delimiter: u8, header: Option<&[u8]>) {
    let mut name = Name::new();
    if write_column(column, delimiter, header, &mut name) {
        push_quoted(report, name.as_bytes());
    } else {
        report.number((column as u64).saturating_add(1));
    }
}

/// Appends the position, the text and the cause of the first refused field.
fn push_first<R: Explains, L: Ledger>(
    report: &mut Report,
    conversion: &ColumnConversion<'_, R>,
    field: &RefusedField,
    header: Option<&[u8]>,
    steps: &mut Steps<L>,
) {
    let text = field.text.as_bytes();
    let reply = field.reply.as_bytes();
    let cause = reply.strip_prefix(b"error: ").unwrap_or(reply);
    report.text(", line ");
    report.number(field.place.line);
    report.text(", column ");
    push_column(report, field.place.column, conversion.delimiter, header);
    report.text(", ");
    push_quoted(report, text);
    report.text(": ");
    report.bytes(cause, 160);
    // A text that may be cut is not explained.
    if text.len() < MAX_KEPT {
        conversion
            .rule
            .explain(&conversion.form, text, cause, report, steps);
    }
}

/// Appends the name that a header lacks.
fn push_missing(report: &mut Report, columns: &[Column], word: usize) {
    report.text("the header has no column ");
    match columns.get(word) {
        Some(Column::Named(name, _)) => push_quoted(report, name.as_bytes()),
        _ => report.number(word as u64),
    }
}

/// Appends the names in a header.
fn push_names(report: &mut Report, delimiter: u8, header: &[u8]) {
    let mut names = Names::new(delimiter, header);
    let mut name = Name::new();
    report.text("; it has");
    let mut mark = " ";
    for _ in 0..MAX_HEADER {
        if !names.next_name(&mut name) {
            break;
        }
        report.text(mark);
        push_quoted(report, name.as_bytes());
        mark = ", ";
    }
    if names.is_cut {
        report.text(" and more");
    }
}

/// Appends the delimiter that gives a header of one field the missing name, if any.
fn push_delimiter(report: &mut Report, delimiter: u8, header: &[u8], wanted: &[u8]) {
    if !Names::new(delimiter, header).is_one() {
        return;
    }
    for other in DELIMITERS {
        if *other != delimiter && Names::new(*other, header).has(wanted) {
            match *other {
                b'\t' => report.text(" (is a tab the delimiter? -d tab)"),
                _ => {
                    report.text(" (is '");
                    report.bytes(&[*other], 1);
                    report.text("' the delimiter? -d '");
                    report.bytes(&[*other], 1);
                    report.text("')");
                }
            }
            return;
        }
    }
}

/// Appends the names in a header that lacks one, and the delimiter that would give it, if any.
fn push_header<R>(report: &mut Report, known: &Known<'_, R>, header: &[u8]) {
    let delimiter = known.conversion.delimiter;
    push_names(report, delimiter, header);
    if let Some(Column::Named(name, _)) = known.conversion.columns.get(known.word) {
        push_delimiter(report, delimiter, header, name.as_bytes());
    }
}

/// Appends why a run stopped before the end of a text.
fn push_stop(report: &mut Report, columns: &[Column], word: usize, end: &ColumnEnd) {
    match end.stop {
        Stop::Done => (),
        Stop::ReadFault => report.text("a read failed"),
        Stop::WriteFault => report.text("a write failed"),
        Stop::NoMemory => report.text("there is no memory"),
        Stop::NoName => push_missing(report, columns, word),
        Stop::TooLong | Stop::Unclosed | Stop::NoColumn(_) => {
            report.text("record ");
            report.number(end.answered.saturating_add(1));
            push_record_fault(report, end);
        }
    }
}

/// Appends the fault of the record at which a run stopped.
fn push_record_fault(report: &mut Report, end: &ColumnEnd) {
    match end.stop {
        Stop::TooLong => report.text(" is longer than 1048576 bytes"),
        Stop::Unclosed => report.text(" has a quote that is never closed"),
        Stop::NoColumn(count) => {
            report.text(" has no such column, its fields: ");
            report.number(count as u64);
        }
        _ => (),
    }
}

/// Reports on standard error how many fields of a file were refused, and the first. After a failed write it reports
/// nothing, since not all answers were written.
fn report_refused<R: Explains, L: Ledger>(
    rt: &HostRuntime,
    file: Option<&str>,
    known: &Known<'_, R>,
    header: Option<&[u8]>,
    steps: &mut Steps<L>,
) {
    let end = &known.end;
    if end.refused == 0 || end.stop == Stop::WriteFault {
        return;
    }
    let mut report = Report::of(file);
    report.text("fields refused: ");
    report.number(end.refused);
    report.text(", the first in record ");
    report.number(end.first);
    if let Some(field) = &known.first {
        push_first(&mut report, known.conversion, field, header, steps);
    }
    report.send(rt);
}

/// Appends the line and the column of a first field, if any.
fn push_place<R>(
    report: &mut Report,
    what: &str,
    place: Option<FieldPlace>,
    known: &Known<'_, R>,
    header: Option<&[u8]>,
) {
    if let Some(place) = place {
        report.text(what);
        report.number(place.line);
        report.text(", column ");
        push_column(report, place.column, known.conversion.delimiter, header);
    }
}

/// Reports on standard error the outcomes of the fields of a file, if requested. After a failed write it reports
/// nothing, since not all answers were written.
fn report_fields<R, L: Ledger>(
    rt: &HostRuntime,
    file: Option<&str>,
    known: &Known<'_, R>,
    header: Option<&[u8]>,
    steps: &mut Steps<L>,
) {
    let fields = match &known.report {
        Some(fields) if !matches!(known.end.stop, Stop::WriteFault | Stop::NoMemory) => fields,
        _ => return,
    };
    match known.form {
        ReportForm::Text => report_text(rt, file, fields, known, header, steps),
        ReportForm::Json => report_object(rt, file, fields, known, header, steps),
    }
}

/// Appends where the first field of an outcome is: its record, its line and its column, by number and, if it is known,
/// by name.
fn push_member<R>(
    line: &mut JsonLine,
    key: &str,
    place: Option<FieldPlace>,
    known: &Known<'_, R>,
    header: Option<&[u8]>,
) {
    let Some(place) = place else {
        line.null(key);
        return;
    };
    line.open(key);
    line.number(place_name(Place::Record), place.record);
    line.number(place_name(Place::Line), place.line);
    line.number("column", (place.column as u64).saturating_add(1));
    let mut name = Name::new();
    if write_column(place.column, known.conversion.delimiter, header, &mut name) {
        line.string("name", name.as_bytes(), MAX_NAME);
    }
    line.close();
}

/// Reports the outcomes of the fields of a file as an object of JSON.
fn report_object<R, L: Ledger>(
    rt: &HostRuntime,
    file: Option<&str>,
    fields: &FieldReport,
    known: &Known<'_, R>,
    header: Option<&[u8]>,
    steps: &mut Steps<L>,
) {
    let mut line = counts(file, &fields.tally);
    let overflowed = fields.first_overflowed;
    push_member(&mut line, "first_overflowed", overflowed, known, header);
    push_member(
        &mut line,
        "first_refused",
        fields.first_refused,
        known,
        header,
    );
    push_errors(&mut line, &fields.errors, place_name(Place::Record), steps);
    line.send(rt);
}

/// Reports the outcomes of the fields of a file in lines.
fn report_text<R, L: Ledger>(
    rt: &HostRuntime,
    file: Option<&str>,
    fields: &FieldReport,
    known: &Known<'_, R>,
    header: Option<&[u8]>,
    steps: &mut Steps<L>,
) {
    let mut report = Report::of(file);
    let text = tally_text(&fields.tally, Place::Record);
    report.bytes(text.as_bytes(), MAX_TALLY);
    let overflowed = fields.first_overflowed;
    push_place(
        &mut report,
        "; the first overflowed in line ",
        overflowed,
        known,
        header,
    );
    let refused = fields.first_refused;
    push_place(
        &mut report,
        "; the first refused in line ",
        refused,
        known,
        header,
    );
    report.send(rt);
    report_greatest(
        rt,
        file,
        &fields.errors,
        place_name(Place::Record).as_bytes(),
        steps,
    );
}

/// What is known of the converted columns of a file.
#[derive(Drop)]
pub struct Known<'a, R> {
    /// The conversion.
    pub conversion: &'a ColumnConversion<'a, R>,
    /// The first bytes of its header, if it was read.
    pub header: Option<Name>,
    /// The index of the operand that was last looked up in the header.
    pub word: usize,
    /// The first refused field.
    pub first: Option<RefusedField>,
    /// The outcomes of its fields, if requested.
    pub report: Option<FieldReport>,
    /// How these are reported.
    pub form: ReportForm,
    /// How its records ended.
    pub end: ColumnEnd,
    /// Whether the read that failed was past the limit.
    pub is_exceeded: bool,
}

impl<'a, R> Known<'a, R> {
    /// Whether the records ended at the limit of the file.
    fn is_too_long(&self) -> bool
        ensures { result ≡ (self.now.is_exceeded && is_read_fault self.now.end.stop) }
    {
        self.is_exceeded && matches!(self.end.stop, Stop::ReadFault)
    }

    /// Returns the status of the conversion.
    pub fn status(&self) -> Status
        ensures { result ≡ columns_status self.now.is_exceeded self.now.end }
    {
        if self.is_too_long() {
            Status::TooLong
        } else {
            self.end.status()
        }
    }
}

/// Reports on standard error how many fields of a file were refused, and the first; their outcomes, if requested; and
/// why its records ended early, with the count of lines written if a write failed.
pub fn report_end<R: Explains, L: Ledger>(
    rt: &HostRuntime,
    file: Option<&str>,
    known: &Known<'_, R>,
    written: u64,
    failure: &Failure,
    steps: &mut Steps<L>,
) {
    let error = failure.take();
    let header = match &known.header {
        Some(header) => Some(header.as_bytes()),
        None => None,
    };
    report_refused(rt, file, known, header, steps);
    report_fields(rt, file, known, header, steps);
    let end = &known.end;
    if end.stop == Stop::Done || is_broken_pipe(&error) {
        return;
    }
    let mut report = Report::of(file);
    if known.is_too_long() {
        report.text("the input is longer than the limit");
    } else {
        push_stop(&mut report, &known.conversion.columns, known.word, end);
    }
    if let Some(error) = &error {
        report.text(": ");
        push_words(&mut report, rt.alloc(), error);
    }
    // After a failed write, not all answered records were written.
    match end.stop {
        Stop::WriteFault => {
            report.text(", lines answered: ");
            report.number(written);
        }
        _ => {
            report.text(", records answered: ");
            report.number(end.answered);
        }
    }
    if let (Stop::NoName, Some(header)) = (end.stop, header) {
        push_header(&mut report, known, header);
    }
    report.send(rt);
}
