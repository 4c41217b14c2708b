//! The line engine alone.

use fixed_io::{StdSink, StdSource};
use fixed_steps::Steps;
use line_engine::{MAX_LIMIT, Output, Status};
use run_engine::{LineRule, Rule, run_lines};
use std::alloc::Global;
use std::sync::ledger::Ledger;

/// Answers each line with one text, and refuses none.
#[derive(Clone, Copy)]
pub struct ConstantRule;

impl<L: Ledger> Rule<L> for ConstantRule {
    ghost use Rattle.fixed_bench.specs.Constant.{IsConstant, constant_one, constant_room};
    ghost use Rattle.std.specs.Prelude.{[]};

    type Note = ();

    type Cause = ();

    const PER_BYTE: u64 = 0;

    const EXTRA: u64 = 0;

    const MAX_ANSWER: usize = 8;

    ghost PER_BYTE = { 0 };

    ghost EXTRA = { 0 };

    ghost MAX_ANSWER = { 8 };

    ghost Answers = { λ rule. IsConstant };

    ghost Notes = { λ rule line note. Unit {0} };

    ghost refusal = { λ rule line cause. [] };

    fn answer(&self, _line: &[u8], out: &mut Output, _steps: &mut Steps<L>) -> Result<(), ()> {
        out.push_bytes(b"0 0 fits");
        Ok(())
    }

    fn push_refusal(&self, _line: &[u8], _cause: &(), _out: &mut Output) {}

    ghost room_law = { constant_room };

    ghost one_law = { λ rule. constant_one };
}

impl<L: Ledger> LineRule<L> for ConstantRule {
    ghost use Rattle.fixed_bench.specs.Constant.{constant_kept};

    ghost kept_law = { λ rule. constant_kept };
}

/// Answers the lines of standard input.
pub fn run_constant<L: Ledger>(rt: &HostRuntime, alloc: Global, steps: &mut Steps<L>) -> Status {
    let mut source = StdSource::new(rt.stdin());
    let mut sink = StdSink::new(rt.stdout());
    run_lines(
        alloc,
        MAX_LIMIT,
        &ConstantRule,
        &mut source,
        &mut sink,
        steps,
    )
}
