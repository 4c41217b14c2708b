//! Converts columns of a CSV text, also into amounts; every other byte stays unchanged.

ghost use Rattle.std.specs.Prelude.{◌≡◌, ◌⊎◌};
ghost use Rattle.column_engine.specs.Run.{HasFailures, counts_of, first_state};
ghost use Rattle.column_engine.specs.Skip.{HasRunAfter};
ghost use Rattle.column_engine.specs.declared.end.Stop.{Stop};
ghost use Rattle.fixed_command.specs.Fields.{has_amount_point, has_point, kept_of};

use crate::field::FieldForm;
use crate::print::Print;
use column_engine::{
    Column, ColumnRun, ColumnTask, Destination, FieldRule, FieldWatch, Keeping, Stop, run_column,
};
use fixed_amounts::AmountPrint;
use fixed_steps::Steps;
use line_engine::{Sink, Source};
use std::alloc::Global;
use std::sync::ledger::Ledger;

/// The conversion of columns of a text.
#[derive(Drop)]
pub struct ColumnConversion<'a, R> {
    /// How the numeral of a field is converted.
    pub rule: R,
    /// How a field spells the numeral.
    pub form: FieldForm<'a>,
    /// How many lines come before the records; they are passed through.
    pub skipped: u64,
    /// Which fields of a record are converted.
    pub columns: Vec<Column>,
    /// Where the answers go.
    pub destination: Destination,
    /// Whether the first record is a header, which is passed through.
    pub has_header: bool,
    /// Whether a refused field stays unchanged.
    pub is_kept: bool,
    /// The byte between fields: an ASCII character that is not a quote or a line end.
    pub delimiter: u8,
}

/// Whether a part of an answer has a number that may have a point.
pub fn has_point(print: Print) -> bool
    ensures { result ≡ has_point print }
{
    match print {
        Print::Text | Print::Places(..) | Print::Value | Print::All => true,
        Print::Bits | Print::Hex | Print::Readmemh => false,
    }
}

/// Whether a part of an amount may have a point.
pub fn has_amount_point(print: AmountPrint) -> bool
    ensures { result ≡ has_amount_point print }
{
    match print {
        AmountPrint::Text | AmountPrint::All => true,
        AmountPrint::Units | AmountPrint::Hex | AmountPrint::HexDigits => false,
    }
}

/// Returns what is kept of a field, by whether the written part has a point.
fn kept_of<R>(conversion: &ColumnConversion<'_, R>, has_point: bool) -> Keeping
    ensures { result ≡ kept_of conversion.now.is_kept conversion.now.form.mark has_point }
{
    Keeping {
        refused: conversion.is_kept,
        quotes: conversion.form.mark != b'.' && has_point,
    }
}

/// Converts columns of the records of a text by a rule for their fields, such as `FieldNumerals`. Returns how the run
/// ended, with the observer, which is told of each field. `has_point`: whether what is written for a numeral may have a
/// point. Every other byte of the text is written unchanged.
pub fn convert_fields<R, A: FieldRule<L>, W: FieldWatch<A, L>, S: Source, K: Sink, L: Ledger>(
    alloc: Global,
    conversion: &ColumnConversion<'_, R>,
    has_point: bool,
    rule: &A,
    observer: W,
    source: &mut S,
    sink: &mut K,
    steps: &mut Steps<L>,
) -> ColumnRun<W>
    // What was read and written, by how the run ended.
    ensures run { (result.end.stop ≡ Stop.NoMemory)
        ⊎ HasRunAfter conversion.now.skipped result.end.stop (A.Answers rule.now)
        (kept_of conversion.now.is_kept conversion.now.form.mark has_point)
        conversion.now.delimiter conversion.now.columns.items
        (first_state conversion.now.has_header conversion.now.destination conversion.now.columns.items)
        (counts_of result.end)
        (S.left source.old) (S.left source.new) (K.written sink.old) (K.written sink.new) }

    // Which count of failures rose.
    ensures failures { HasFailures (S.failures source.old) (S.failures source.new) (K.failures sink.old)
        (K.failures sink.new) result.end.stop }

    // If there was no memory, nothing was read or written.
    ensures memory { result.end.stop ≡ Stop.NoMemory → (source.new ≡ source.old) × (sink.new ≡ sink.old) }
{
    let task = ColumnTask {
        rule,
        skipped: conversion.skipped,
        columns: &conversion.columns,
        destination: &conversion.destination,
        has_header: conversion.has_header,
        keeps: kept_of(conversion, has_point),
        delimiter: conversion.delimiter,
    };
    run_column(alloc, &task, observer, source, sink, steps)
}
