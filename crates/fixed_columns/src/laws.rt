//! Laws of cells and columns, each the contract of a function that does nothing but call the laws that it follows from.

ghost use Rattle.fixed_columns.specs.Laws.{
  AnswerIsTheOne,
  AnswerReadsBack,
  AskedLimitIsTheOne,
  CellsAreTheOnes,
  ColumnIsTheOne,
  ColumnReadsBack,
  EqualIsSame,
  FaultIsTheOne,
  FormatOrderIsBefore,
  NeverBoth,
  OrderIsOfValues,
  OrderIsTotal,
  SortedIsTheOne,
  TiesAreOfFormats,
};

use fixed_laws::laws::default_text_reads_back;
use line_engine::laws::line_comes_first;

/// The order of cells is total, transitive, and reversed when its sides are swapped.
pub fn order_is_total()
    ensures { OrderIsTotal }
{}

/// Cells that the order does not distinguish are one: they have one format and the same bits.
pub fn equal_is_same()
    ensures { EqualIsSame }
{}

/// Cells of different values are in the order of `compare` on the values.
pub fn order_is_of_values()
    ensures { OrderIsOfValues }
{}

/// Cells of equal values are in the order of their formats.
pub fn ties_are_of_formats()
    ensures { TiesAreOfFormats }
{}

/// The order of formats is the one in which the least format of a list is chosen.
pub fn format_order_is_before()
    ensures { FormatOrderIsBefore }
{}

/// A list in order is determined by how often it holds each cell.
pub fn sorted_is_the_one()
    ensures { SortedIsTheOne }
{}

/// A text has at most one list of cells.
pub fn cells_are_the_ones()
    ensures { CellsAreTheOnes }
{}

/// A text has at most one first fault, on one line.
pub fn fault_is_the_one()
    ensures { FaultIsTheOne }
{}

/// A text that has cells has no fault. So a text is refused exactly if it has a fault.
pub fn never_both()
    ensures { NeverBoth }
{}

/// Cells have at most one text in a style.
pub fn column_is_the_one()
    ensures { ColumnIsTheOne }
{}

/// The column of cells in decimal, aligned to the right in a field of any width, reads back as the cells.
pub fn column_reads_back()
    ensures { ColumnReadsBack }
{
    default_text_reads_back();
    line_comes_first();
}

/// An input has one answer.
pub fn answer_is_the_one()
    ensures { AnswerIsTheOne }
{}

/// Arguments name at most one limit.
pub fn asked_limit_is_the_one()
    ensures { AskedLimitIsTheOne }
{}

/// An answer without a fault reads back as a list in order that has each cell of the input as often as the input.
pub fn answer_reads_back()
    ensures { AnswerReadsBack }
{
    column_reads_back();
}
