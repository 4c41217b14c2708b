//! The program.

use fixed_respell::run;
use fixed_steps::Steps;
use line_engine::{Program, Sink, Source, Status};
use std::alloc::Global;
use std::sync::ledger::Ledger;

/// The program. Its run is that of fixed_respell.
#[derive(Clone, Copy)]
pub struct FixedTool;

impl<L: Ledger> Program<L> for FixedTool {
    ghost use Rattle.fixed_respell.specs.Command.{IsUsageFault, usage_line};
    ghost use Rattle.fixed_respell.specs.ProgramRun.{HasProgramRun};

    ghost IsUsageFault = { λ tool args. IsUsageFault args };

    ghost usage_line = { λ tool. usage_line };

    ghost Runs = { λ tool args before after status. HasProgramRun args before after status };

    fn run<S: Source, K: Sink>(
        &self,
        alloc: Global,
        args: &[String],
        source: &mut S,
        sink: &mut K,
        steps: &mut Steps<L>,
    ) -> Status {
        run(alloc, args, source, sink, steps)
    }

    ghost empty_law = { λ tool word empty command asks. asks };
}
