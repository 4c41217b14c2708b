//! Laws of lines of JSON, each the contract of a function that does nothing.

ghost use Rattle.json_lines.specs.Laws.{JsonAnswerIsTheOne};

use column_engine::FieldRule;
use std::sync::ledger::Ledger;

/// A line has at most one answer.
pub fn json_answer_is_the_one<A: FieldRule<L>, L: Ledger>(_rule: &A)
    ensures { JsonAnswerIsTheOne (A.Answers _rule.now) }
{}
