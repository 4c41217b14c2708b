//! The program.

use fixed_constants::run_constants;
use fixed_steps::Steps;
use line_engine::{Program, Sink, Source, Status};
use std::alloc::Global;
use std::sync::ledger::Ledger;

/// The program. Its run is that of fixed_constants.
#[derive(Clone, Copy)]
pub struct ConstantsTool;

impl<L: Ledger> Program<L> for ConstantsTool {
    ghost use Rattle.fixed_constants.specs.Lemmas.ProgramLemmas.{empty_word};
    ghost use Rattle.fixed_constants.specs.Program.{HasFormRun, IsUsageFault, usage_line};

    ghost IsUsageFault = { λ tool args. IsUsageFault args };

    ghost usage_line = { λ tool. usage_line };

    ghost Runs = { λ tool args before after status. HasFormRun args before after status };

    fn run<S: Source, K: Sink>(
        &self,
        alloc: Global,
        args: &[String],
        source: &mut S,
        sink: &mut K,
        steps: &mut Steps<L>,
    ) -> Status {
        run_constants(alloc, args, source, sink, steps)
    }

    ghost empty_law = { λ tool word empty. empty_word word empty };
}
