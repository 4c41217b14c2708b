//! The program.

use fixed_columns::run_columns;
use fixed_steps::Steps;
use line_engine::{Program, Sink, Source, Status};
use std::alloc::Global;
use std::sync::ledger::Ledger;

/// The program. Its run is that of fixed_columns.
#[derive(Clone, Copy)]
pub struct ColumnsTool;

impl<L: Ledger> Program<L> for ColumnsTool {
    ghost use Rattle.fixed_columns.specs.Program.{usage_line};
    ghost use Rattle.fixed_columns.specs.Lemmas.ProgramLemmas.{empty_argument};
    ghost use Rattle.fixed_columns.specs.Program.{HasColumnsRun, IsUsageFault};

    ghost IsUsageFault = { λ tool args. IsUsageFault args };

    ghost usage_line = { λ tool. usage_line };

    ghost Runs = { λ tool args before after status. HasColumnsRun args before after status };

    fn run<S: Source, K: Sink>(
        &self,
        alloc: Global,
        args: &[String],
        source: &mut S,
        sink: &mut K,
        steps: &mut Steps<L>,
    ) -> Status {
        run_columns(alloc, args, source, sink, steps)
    }

    ghost empty_law = { λ tool word empty. empty_argument word empty };
}
