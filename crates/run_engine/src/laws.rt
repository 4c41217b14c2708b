//! Laws of runs, as contracts of functions that do nothing.

ghost use Rattle.line_engine.specs.RunLaws.{OutputIsTheOne, RunEndIsTheOne};
ghost use Rattle.run_engine.specs.Refused.{KeepsTheFirst};
ghost use Rattle.run_engine.specs.RunLaws.{RunIsTheOne};

use crate::machine::Machine;
use crate::refusals::Refusals;
use crate::rule::Rule;
use std::sync::ledger::Ledger;

/// The bytes taken and the counts of failures determine how a run with enough memory ended and, unless a write failed,
/// what it wrote.
pub fn run_is_the_one<M: Machine<L>, L: Ledger>(_machine: &M)
    ensures { RunIsTheOne (M.Makes _machine.now) }
{}

/// With a rule over lines, an input has at most one output, and its run at most one status.
pub fn output_is_the_one<R: Rule<L>, L: Ledger>(_rule: &R)
    ensures { OutputIsTheOne (R.Answers _rule.now) }
{}

/// The bytes read and the counts of failures determine how a run over lines ended, if it found memory.
pub fn run_end_is_the_one<R: Rule<L>, L: Ledger>(_rule: &R)
    ensures { RunEndIsTheOne (R.Answers _rule.now) }
{}

/// `Refusals` that have seen lines keep the count of the refused lines and the first of them.
pub fn first_refusal_is_kept<N, C>(_refusals: &Refusals<C>, _note: &N)
    ensures { KeepsTheFirst N _refusals.now }
{}
