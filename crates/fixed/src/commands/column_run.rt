//! Runs a conversion of columns over one input.

ghost use Rattle.std.specs.Prelude.{◌≡◌, ◌&&◌};
ghost use Rattle.column_engine.specs.declared.end.ColumnEnd.{ColumnEnd as End};
ghost use Rattle.command_line.specs.Device.{written_to};
ghost use Rattle.fixed.specs.Columns.{AmountColumnsEnd, BinaryColumnsEnd, FieldsBetween, columns_status, stopped_if};

use crate::commands::column_report::{Explains, Known, Name, report_end};
use crate::inputs::asked_report;
use crate::rejects::{Guarded, RejectFile};
use crate::reports::ReportForm;
use column_engine::{ColumnEnd, ColumnRun, FieldRule, FieldWatch, RefusedField};
use command_line::device::{Failure, Limited, Output, Writer};
use fixed_amounts::AmountSettings;
use fixed_command::{
    ColumnConversion, ConvertRule, FieldNumerals, FieldReport, Limit, RefusedFields, bytes_within,
    convert_fields, has_amount_point, has_point,
};
use fixed_io::{StdSink, StdSource};
use fixed_numeral::Radix;
use fixed_steps::Steps;
use line_engine::Status;
use std::io::{Read, Write};
use std::mem;
use std::sync::ledger::Ledger;

/// How the conversion of the columns of an input ended.
#[derive(Drop)]
struct FieldsEnd<W> {
    /// How its records ended, also if a write of rejects failed.
    end: ColumnEnd,
    /// How many lines were answered.
    lines: u64,
    /// The first bytes of its header, if it was read.
    header: Option<Name>,
    /// The index of the operand that was last looked up in the header.
    word: usize,
    /// The first refused field.
    first: Option<RefusedField>,
    /// The observer of its fields.
    watch: W,
    /// Whether the read that failed was past the limit.
    is_exceeded: bool,
}

/// Converts columns of one input by a rule for their fields, and tells an observer. Each refused field has a line of
/// rejects.
#[inline(never)]
fn run_fields<
    R,
    A: FieldRule<L>,
    W: FieldWatch<A, L> + Drop,
    I: Read + Drop,
    S: Write + Drop,
    F: Write + Drop,
    L: Ledger,
>(
    rt: &HostRuntime,
    conversion: &ColumnConversion<'_, R>,
    has_point: bool,
    rule: &A,
    watch: W,
    limit: &Option<Limit>,
    reader: I,
    output: &mut Output<S, F>,
    rejects: &mut RejectFile<'_, '_>,
    failure: &Failure,
    steps: &mut Steps<L>,
) -> FieldsEnd<W>
    ensures { (end : End)
        × (result.end ≡ stopped_if (rejects.old.has_file && rejects.new.rejects.has_failed) end)
        × FieldsBetween (A.Answers rule.now) conversion.now has_point end (I.remaining reader)
        (written_to S.contents F.contents output.old) (written_to S.contents F.contents output.new) }
{
    let mut limited = Limited::new(reader, bytes_within(limit));
    let mut source = StdSource::new(&mut limited);
    let observer = RefusedFields::new(rejects.take(), watch);
    let writer = mem::replace(output, Output::Nowhere);
    let mut sink = StdSink::new(Writer {
        writer: Guarded {
            writer,
            failure: rejects.failure,
        },
        failure,
    });
    let ColumnRun { end, records } = convert_fields(
        rt.alloc(),
        conversion,
        has_point,
        rule,
        observer,
        &mut source,
        &mut sink,
        steps,
    );
    let fields = records.observer;
    let lines = sink.lines();
    *output = sink.into_writer().writer.writer;
    FieldsEnd {
        end: rejects.end_columns(fields.rejects, end),
        lines,
        header: records.header,
        word: records.word,
        first: fields.first.field,
        watch: fields.watch,
        is_exceeded: limited.is_exceeded(),
    }
}

/// Reports on standard error why the columns of an input did not end well, and what is known of their fields. Returns
/// the status of the input.
fn report<R: Explains, L: Ledger>(
    rt: &HostRuntime,
    file: Option<&str>,
    known: &Known<'_, R>,
    lines: u64,
    rejects: &RejectFile<'_, '_>,
    failure: &Failure,
    steps: &mut Steps<L>,
) -> Status
    ensures { result ≡ columns_status known.now.is_exceeded known.now.end }
{
    report_end(rt, file, known, lines, rejects.failure_or(failure), steps);
    known.status()
}

/// Converts columns of one input, and reports on standard error why it did not end well.
pub fn run_column_on<I: Read + Drop, S: Write + Drop, F: Write + Drop, L: Ledger>(
    rt: &HostRuntime,
    conversion: &ColumnConversion<'_, ConvertRule>,
    limit: &Option<Limit>,
    form: Option<ReportForm>,
    file: Option<&str>,
    reader: I,
    output: &mut Output<S, F>,
    rejects: &mut RejectFile<'_, '_>,
    steps: &mut Steps<L>,
) -> Status
    ensures { BinaryColumnsEnd (rejects.old.has_file && rejects.new.rejects.has_failed) conversion.now result
        (I.remaining reader) (written_to S.contents F.contents output.old)
        (written_to S.contents F.contents output.new) }
{
    let settings = conversion.rule.settings();
    let rule = FieldNumerals {
        rule: &conversion.rule,
        radix: settings.radix,
        form: &conversion.form,
    };
    let failure = Failure::new(None);
    let watch: Option<FieldReport> = asked_report(rt, &conversion.rule, form);
    let is_decimal = has_point(settings.print);
    let ended = run_fields(
        rt, conversion, is_decimal, &rule, watch, limit, reader, output, rejects, &failure, steps,
    );
    let known = Known {
        conversion,
        header: ended.header,
        word: ended.word,
        first: ended.first,
        report: ended.watch,
        form: form.unwrap_or(ReportForm::Text),
        end: ended.end,
        is_exceeded: ended.is_exceeded,
    };
    report(rt, file, &known, ended.lines, rejects, &failure, steps)
}

/// Converts columns of one input into amounts, and reports on standard error why it did not end well.
pub fn run_amounts_on<I: Read + Drop, S: Write + Drop, F: Write + Drop, L: Ledger>(
    rt: &HostRuntime,
    conversion: &ColumnConversion<'_, AmountSettings>,
    limit: &Option<Limit>,
    file: Option<&str>,
    reader: I,
    output: &mut Output<S, F>,
    rejects: &mut RejectFile<'_, '_>,
    steps: &mut Steps<L>,
) -> Status
    ensures { AmountColumnsEnd (rejects.old.has_file && rejects.new.rejects.has_failed) conversion.now result
        (I.remaining reader) (written_to S.contents F.contents output.old)
        (written_to S.contents F.contents output.new) }
{
    let rule = FieldNumerals {
        rule: &conversion.rule,
        radix: Radix::Dec,
        form: &conversion.form,
    };
    let failure = Failure::new(None);
    let is_decimal = has_amount_point(conversion.rule.print);
    let ended = run_fields(
        rt,
        conversion,
        is_decimal,
        &rule,
        (),
        limit,
        reader,
        output,
        rejects,
        &failure,
        steps,
    );
    let known = Known {
        conversion,
        header: ended.header,
        word: ended.word,
        first: ended.first,
        report: None,
        form: ReportForm::Text,
        end: ended.end,
        is_exceeded: ended.is_exceeded,
    };
    report(rt, file, &known, ended.lines, rejects, &failure, steps)
}
