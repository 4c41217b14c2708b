//! `fixed column`: converts columns of CSV.

ghost use Rattle.std.specs.Prelude.{◌≡◌, ◌⊎◌, IfErr, IfOk, List, ℕ};
ghost use Rattle.column_engine.specs.declared.columns.Column.{Column};
ghost use Rattle.command_line.specs.declared.given.Refusal.{Refusal};
ghost use Rattle.fixed.specs.Columns.{AreBinaryColumnsAsked, IsColumnJobAsked};
ghost use Rattle.fixed.specs.declared.inputs.Job.{Job};

use crate::commands::amounts;
use crate::commands::column_words::{columns_of, table_of};
use crate::inputs::{Job, run_inputs};
use crate::options::{
    FROM, LIMIT, MODE, OUTPUT, PLACES, PLACES_MODE, POLICY, PRINT, RADIX, REJECTS, REPORT, SOURCE,
    TARGET, TARGET_MODE,
};
use crate::reports::report_asked;
use crate::settings::{conversion, note_target_mode};
use column_engine::Column;
use command_line::given::{Asked, Given};
use command_line::page::{Operand, Page, Row};
use fixed_command::{ColumnConversion, Offers};
use fixed_steps::Steps;
use line_engine::Status;
use std::alloc::Global;
use std::sync::ledger::Ledger;

const COLUMN: Operand = Operand {
    name: "COLUMNS",
    help: "Numbers from 1, ranges 2-5, names of the header, with commas",
};

pub const DELIMITER: Row = Row {
    name: "delimiter",
    letter: Some('d'),
    value: "C",
    choices: &[],
    help: "The byte between fields: a comma (default); tab",
};

pub const ALL: Row = Row {
    name: "all",
    letter: None,
    value: "",
    choices: &[],
    help: "Every column, in place of COLUMNS",
};

pub const HEADER: Row = Row {
    name: "header",
    letter: Some('H'),
    value: "",
    choices: &[],
    help: "The first record is a header with names",
};

pub const KEEP: Row = Row {
    name: "keep",
    letter: None,
    value: "",
    choices: &[],
    help: "A field that is refused stays as it was",
};

pub const INTO: Row = Row {
    name: "into",
    letter: None,
    value: "NAME",
    choices: &[],
    help: "One column's answers go into a new one, the last",
};

pub const SKIP: Row = Row {
    name: "skip",
    letter: None,
    value: "N",
    choices: &[],
    help: "The first N lines are no records, and stay",
};

pub const TRIM: Row = Row {
    name: "trim",
    letter: None,
    value: "",
    choices: &[],
    help: "Blanks around a field are left out",
};

pub const DECIMAL: Row = Row {
    name: "decimal",
    letter: None,
    value: "C",
    choices: &[],
    help: "The byte before a fraction: a point (default)",
};

pub const DECIMAL_OUT: Row = Row {
    name: "decimal-out",
    letter: None,
    value: "C",
    choices: &[],
    help: "In answers: as --decimal (default)",
};

pub const THOUSANDS: Row = Row {
    name: "thousands",
    letter: None,
    value: "C",
    choices: &[],
    help: "Between groups of three digits; not written",
};

pub const THOUSANDS_ANYWHERE: Row = Row {
    name: "thousands-anywhere",
    letter: None,
    value: "C",
    choices: &[],
    help: "C is left out wherever it stands",
};

pub const EMPTY: Row = Row {
    name: "empty",
    letter: None,
    value: "WHAT",
    choices: &["fault", "keep", "0"],
    help: "An empty field: fault (default), keep, or 0",
};

/// The options for other spellings of numerals.
pub const OFFERS: Offers = Offers {
    decimal: true,
    trim: true,
    radix: true,
};

pub fn page() -> Page {
    Page {
        name: "column",
        hidden_name: "",
        about: "Convert columns of CSV, every other byte as it was",
        usage: "fixed column [OPTIONS] COLUMNS SOURCE [TARGET] [FILE]...",
        operands: &[COLUMN, SOURCE, TARGET],
        has_numerals: false,
        options: &[
            FROM,
            RADIX,
            POLICY,
            MODE,
            TARGET_MODE,
            PRINT,
            PLACES,
            PLACES_MODE,
            DELIMITER,
            ALL,
            HEADER,
            SKIP,
            TRIM,
            DECIMAL,
            DECIMAL_OUT,
            THOUSANDS,
            THOUSANDS_ANYWHERE,
            EMPTY,
            INTO,
            KEEP,
            LIMIT,
            REPORT,
            REJECTS,
            OUTPUT,
        ],
        end: "A format is I (signed) or U (unsigned), its whole bits, F and its fraction bits,\n\
              as in I16F16 or I-9F25, 1 to 64 bits in all; or as in Q15 and UQ8.8. D0 to D18\n\
              are decimal SOURCEs, for money: D2 counts cents, and has two places. A\n\
              number is rounded down from SOURCE to TARGET, or by --target-mode.\n\
              \n\
              Example: fixed column celsius I16F16 --header <sensor.csv",
    }
}

/// Returns the job that converts columns into a binary format, and the index of the first file. `source` is the index
/// of the format.
fn binary_of<'a>(
    given: &Given<'_, 'a>,
    columns: Vec<Column>,
    source: usize,
) -> Asked<'a, (Job<'a>, usize)>
    ensures value { IfOk result (λ asked. AreBinaryColumnsAsked given.now columns.items source asked.0 asked.1) }
    ensures refused { IfErr result (λ _. (list : List Column) (job : Job) (files : ℕ)
        → ¬ AreBinaryColumnsAsked given.now list source job files) }
{
    amounts::refuse_decimal_target(given, source.saturating_add(1))?;
    let (rule, files) = match conversion(given, source) {
        Ok(found) => found,
        Err(refusal) => return Err(refusal),
    };
    match table_of(given) {
        Ok(table) => {
            let conversion = ColumnConversion {
                rule,
                form: table.form,
                skipped: table.skipped,
                columns,
                destination: table.destination,
                has_header: table.has_header,
                is_kept: table.is_kept,
                delimiter: table.delimiter,
            };
            let report = report_asked(given);
            Ok((Job::Column { conversion, report }, files))
        }
        Err(refusal) => Err(refusal),
    }
}

/// Returns the job for each input, the index of the format, and that of the first file.
fn job_of<'a>(alloc: Global, given: &Given<'_, 'a>) -> Asked<'a, (Job<'a>, usize, usize)>
    ensures value { IfOk result (λ asked. IsColumnJobAsked given.now asked.0 asked.1 asked.2) }
    ensures refused { IfErr result (λ e. (e ≡ Refusal.NoMemory) ⊎ ((job : Job) (source files : ℕ)
        → ¬ IsColumnJobAsked given.now job source files)) }
{
    let (columns, source) = match columns_of(alloc, given) {
        Ok(found) => found,
        Err(refusal) => return Err(refusal),
    };
    match amounts::decimal_at(given, source) {
        Some(format) => match amounts::amounts_of(given, columns, source, format) {
            Ok((job, files)) => Ok((job, source, files)),
            Err(refusal) => Err(refusal),
        },
        None => match binary_of(given, columns, source) {
            Ok((job, files)) => Ok((job, source, files)),
            Err(refusal) => Err(refusal),
        },
    }
}

/// Converts the columns of each file.
pub fn run<'a, L: Ledger>(
    rt: &HostRuntime,
    given: &Given<'_, 'a>,
    steps: &mut Steps<L>,
) -> Asked<'a, Status> {
    let (job, source, files) = match job_of(rt.alloc(), given) {
        Ok(found) => found,
        Err(refusal) => return Err(refusal),
    };
    note_target_mode(rt, given, source, files);
    let format = given.needed(source, "SOURCE")?;
    run_inputs(rt, &job, format, given, files, steps)
}
