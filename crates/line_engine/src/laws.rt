//! Laws of the lines of an input and of runs, each the contract of a function that does nothing.

ghost use Rattle.line_engine.specs.LineLaws.{
  CutAnywhere,
  LastLineNeedsNoNewline,
  LineComesFirst,
  LinesAreTheInput,
  NoLineHoldsNewline,
};
ghost use Rattle.line_engine.specs.RunLaws.{
  FillIsTheOne,
  TextEndIsTheOne,
  WholeOutputIsTheOne,
  WholeRunEndIsTheOne,
};

use crate::WholeRule;
use std::sync::ledger::Ledger;

/// The ended lines, each followed by a newline, and the bytes after the last newline make up the input.
pub fn lines_are_the_input()
    ensures { LinesAreTheInput }
{}

/// No line contains a newline.
pub fn no_line_holds_newline()
    ensures { NoLineHoldsNewline }
{}

/// If an input is cut in two anywhere, its lines are those of both parts, with the unended line of the first part
/// before the second.
pub fn cut_anywhere()
    ensures { CutAnywhere }
{}

/// The lines of a line, a newline and a rest are that line and the lines of the rest.
pub fn line_comes_first()
    ensures { LineComesFirst }
{}

/// A text without a newline that is not empty is its only line.
pub fn last_line_needs_no_newline()
    ensures { LastLineNeedsNoNewline }
{}

/// With a rule over whole inputs, an input has at most one output, and its run at most one status.
pub fn whole_output_is_the_one<R: WholeRule<L>, L: Ledger>(_rule: &R)
    ensures { WholeOutputIsTheOne (R.Answers _rule.now) }
{}

/// The bytes read and the counts of failures determine how a run over a whole input ended, if it found memory.
pub fn whole_run_end_is_the_one<R: WholeRule<L>, L: Ledger>(_rule: &R)
    ensures { WholeRunEndIsTheOne (R.Answers _rule.now) }
{}

/// The count of failures determines how the writing of a text ended.
pub fn text_end_is_the_one()
    ensures { TextEndIsTheOne }
{}

/// The bytes read and the count of failures determine how the reading of a whole input ended.
pub fn fill_is_the_one()
    ensures { FillIsTheOne }
{}
