//! The parts that the tests of runs share.

use fixed_columns::run_columns;
use fixed_constants::run_constants;
use fixed_enclose::run_enclose;
use fixed_least::run_least;
use fixed_steps::Steps;
use line_engine::{MemoryProgram, MemoryRun, MemorySink, MemorySource, Status};
use std::alloc::{AllocError, Global};
use std::process::Abort;
use std::sync::ledger::Ledger;

/// The program to run.
#[derive(Clone, Copy)]
pub enum Program {
    Enclose,
    Least,
    Constants,
    Columns,
}

impl MemoryProgram for Program {
    fn run<L: Ledger>(
        &self,
        alloc: Global,
        args: &[String],
        source: &mut MemorySource,
        sink: &mut MemorySink,
        steps: &mut Steps<L>,
    ) -> Status {
        match self {
            Program::Enclose => run_enclose(alloc, args, source, sink, steps),
            Program::Least => run_least(alloc, args, source, sink, steps),
            Program::Constants => run_constants(alloc, args, source, sink, steps),
            Program::Columns => run_columns(alloc, args, source, sink, steps),
        }
    }
}

/// Asserts that a run writes the output of the case and ends with its status.
pub fn assert_run(
    rt: &impl Abort,
    alloc: Global,
    program: Program,
    case: &MemoryRun,
) -> Result<(), AllocError> {
    let input = case.input.as_bytes().to_vec(alloc)?;
    let (status, written) = case.of(alloc, &program, input)?;
    assert_eq!(rt; status, case.status, "at {}", case.input);
    assert_eq!(rt;
        written.as_slice(),
        case.written.as_bytes(),
        "at {}",
        case.input
    );
    Ok(())
}
