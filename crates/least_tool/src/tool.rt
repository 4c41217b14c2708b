//! The program.

use fixed_least::run_least;
use fixed_steps::Steps;
use line_engine::{Program, Sink, Source, Status};
use std::alloc::Global;
use std::sync::ledger::Ledger;

/// The program. Its run is that of fixed_least.
#[derive(Clone, Copy)]
pub struct LeastTool;

impl<L: Ledger> Program<L> for LeastTool {
    ghost use Rattle.fixed_least.specs.Program.{usage_line};
    ghost use Rattle.fixed_least.specs.Lemmas.ProgramLemmas.{empty_argument};
    ghost use Rattle.fixed_least.specs.Program.{HasLeastRun, IsUsageFault};

    ghost IsUsageFault = { λ tool args. IsUsageFault args };

    ghost usage_line = { λ tool. usage_line };

    ghost Runs = { λ tool args before after status. HasLeastRun args before after status };

    fn run<S: Source, K: Sink>(
        &self,
        alloc: Global,
        args: &[String],
        source: &mut S,
        sink: &mut K,
        steps: &mut Steps<L>,
    ) -> Status {
        run_least(alloc, args, source, sink, steps)
    }

    ghost empty_law = { λ tool word empty. empty_argument word empty };
}
