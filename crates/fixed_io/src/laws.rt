//! Laws, each the contract of a function that does nothing.

ghost use Rattle.std.specs.Prelude.{List, String};
ghost use Rattle.std.specs.declared.alloc.Global.{Global};
ghost use Rattle.fixed_io.specs.Laws.{ReportIsTheOne, RunBetweenIsTheOne, WhyIsTheOne};

use line_engine::Program;
use std::sync::ledger::Ledger;

/// An error determines why there are no arguments.
pub fn why_is_the_one()
    ensures { WhyIsTheOne }
{}

/// A run has one report if no write of the report fails.
pub fn report_is_the_one()
    ensures { ReportIsTheOne }
{}

/// A process has one exit code if what is outside determines how a run of its program ends.
pub fn run_between_is_the_one<P: Program<L>, L: Ledger>(_program: &P)
    ensures { (args : List (String Global)) → RunBetweenIsTheOne (P.Runs _program.now args) }
{}
