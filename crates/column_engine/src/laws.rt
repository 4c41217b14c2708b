//! Laws of the records of a text, each the contract of a function that does nothing.

ghost use Rattle.column_engine.specs.Laws.{AnswersAreTheOne, FieldsAreReplaced, LinesAreTheOnes, OutputIsTheOne};
ghost use Rattle.column_engine.specs.Laws.{RecordsAreTheKits, RowsAreTheOnes, RunEndIsTheOne};

use crate::rule::FieldRule;
use std::sync::ledger::Ledger;

/// Cutting a text by indices gives the records and fields that the kit's reader of CSV reads.
pub fn records_are_the_kits()
    ensures { RecordsAreTheKits }
{}

/// The records written have the same fields, except that requested fields are the replies.
pub fn fields_are_replaced<A: FieldRule<L>, L: Ledger>(_rule: &A)
    ensures { FieldsAreReplaced (A.Answers _rule.now) }
{}

/// A text has only one division into complete records and a rest.
pub fn rows_are_the_ones()
    ensures { RowsAreTheOnes }
{}

/// The lines that a run passes through, and the bytes after them, are unique.
pub fn lines_are_the_ones()
    ensures { LinesAreTheOnes }
{}

/// For given records, at most one text is written and one state follows.
pub fn answers_are_the_one<A: FieldRule<L>, L: Ledger>(_rule: &A)
    ensures { AnswersAreTheOne (A.Answers _rule.now) }
{}

/// A run to the end of a text has at most one output, one count of records and of refused fields, and one first record
/// with a refused field.
pub fn output_is_the_one<A: FieldRule<L>, L: Ledger>(_rule: &A)
    ensures { OutputIsTheOne (A.Answers _rule.now) }
{}

/// The bytes read and the counts of failures determine how a run ended, if it found memory.
pub fn run_end_is_the_one<A: FieldRule<L>, L: Ledger>(_rule: &A)
    ensures { RunEndIsTheOne (A.Answers _rule.now) }
{}
