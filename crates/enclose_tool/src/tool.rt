//! The program.

use fixed_enclose::run_enclose;
use fixed_steps::Steps;
use line_engine::{Program, Sink, Source, Status};
use std::alloc::Global;
use std::sync::ledger::Ledger;

/// The program. Its run is that of fixed_enclose.
#[derive(Clone, Copy)]
pub struct EncloseTool;

impl<L: Ledger> Program<L> for EncloseTool {
    ghost use Rattle.fixed_enclose.specs.Answer.{usage_line};
    ghost use Rattle.fixed_enclose.specs.Lemmas.ProgramLemmas.{one_argument};
    ghost use Rattle.fixed_enclose.specs.ProgramRun.{HasEncloseRun, IsUsageFault};

    ghost IsUsageFault = { λ tool args. IsUsageFault args };

    ghost usage_line = { λ tool. usage_line };

    ghost Runs = { λ tool args before after status. HasEncloseRun args before after status };

    fn run<S: Source, K: Sink>(
        &self,
        alloc: Global,
        args: &[String],
        source: &mut S,
        sink: &mut K,
        steps: &mut Steps<L>,
    ) -> Status {
        run_enclose(alloc, args, source, sink, steps)
    }

    ghost empty_law = { λ tool word empty. one_argument word };
}
