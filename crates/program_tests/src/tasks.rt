//! Runs of the tasks of `fixed` in which a read or a write fails, and calls that no command makes.

use fixed_bits::{Format, Policy, ReadMode};
use fixed_command::{
    ConvertRule, Form, Print, Question, Settings, Spelling, Task, greater_end, run_blocks, run_task,
};
use fixed_constants::FormRule;
use fixed_numeral::Radix;
use fixed_steps::Steps;
use line_engine::{MemoryProgram, MemoryRun, MemorySink, MemorySource, NEVER, Status};
use line_rejects::Rejects;
use std::alloc::{AllocError, Global};
use std::process::Abort;
use std::sync::ledger::Ledger;
use std::test::Fail;

/// A task, and a run of it.
#[derive(Drop)]
struct Case<'a> {
    task: Task<'a>,
    run: MemoryRun,
}

impl<'a> MemoryProgram for Case<'a> {
    fn run<L: Ledger>(
        &self,
        alloc: Global,
        _args: &[String],
        source: &mut MemorySource,
        sink: &mut MemorySink,
        steps: &mut Steps<L>,
    ) -> Status {
        let mut rejects = Rejects::<MemorySink>::none();
        run_task(alloc, &None, &self.task, &mut rejects, source, sink, steps).status
    }
}

/// A run in which one read and one write fail.
fn failing<'a>(
    task: Task<'a>,
    input: &'static str,
    failing_read: u64,
    failing_write: u64,
    written: &'static str,
    status: Status,
) -> Case<'a> {
    let run = MemoryRun {
        args: &[],
        input,
        most: 4096,
        failing_read,
        failing_write,
        written,
        status,
    };
    Case { task, run }
}

/// Stops at the first run that writes something else, or ends otherwise.
fn expect_runs(rt: &impl Abort, alloc: Global, cases: &[Case<'_>]) -> Result<(), AllocError> {
    for case in cases {
        let run = &case.run;
        let input = run.input.as_bytes().to_vec(alloc)?;
        let (status, written) = run.of(alloc, case, input)?;
        assert!(rt; status == run.status, "the status of {}", run.written);
        assert!(rt;
            written.as_slice() == run.written.as_bytes(),
            "not {}",
            run.written
        );
    }
    Ok(())
}

/// The task of a conversion from I16F16 to I8F8.
fn converting() -> Task<'static> {
    Task::Convert(ConvertRule::new(Settings {
        spelling: Spelling::Numeral,
        radix: Radix::Dec,
        source: Format::of(true, 32, 16),
        target: Format::of(true, 16, 8),
        policy: Policy::Checked,
        mode: ReadMode::NearestEven,
        target_mode: ReadMode::Floor,
        print: Print::Text,
    }))
}

/// The task of words of U8F0.
fn asking() -> Task<'static> {
    Task::Ask(
        Form::Lines,
        Question::Bits {
            radix: Radix::Dec,
            format: Format::of(false, 8, 0),
        },
    )
}

/// The task of a file of constants in Rust.
fn rust() -> Task<'static> {
    Task::Constants(FormRule {
        form: fixed_constants::Form::Rust,
        guard: b"",
    })
}

/// The output for a line that is the word 7.
const SEVEN: &str = "given     7\ntext      7\nbits      7\nhex       0x07\nvalue     7\n\n";

#[test]
fn a_failing_read_and_a_failing_write_end_a_task(rt: HostRuntime) -> Result<(), Fail> {
    let entry = "A = 1 U8F0\n";
    let cases = [
        failing(converting(), "7\n8", 1, NEVER, "7\n", Status::ReadFault),
        failing(converting(), "7\n8\n", NEVER, 0, "", Status::WriteFault),
        failing(asking(), "7\n8", 1, NEVER, SEVEN, Status::ReadFault),
        failing(asking(), "7\n8\n", NEVER, 0, "", Status::WriteFault),
        failing(rust(), entry, 0, NEVER, "", Status::ReadFault),
        failing(rust(), entry, NEVER, 0, "", Status::WriteFault),
    ];
    expect_runs(&rt, rt.alloc(), &cases)?;
    Ok(())
}

/// Asks what the formats that two words name can hold; the first names none.
#[derive(Drop)]
struct Formats;

impl MemoryProgram for Formats {
    fn run<L: Ledger>(
        &self,
        _alloc: Global,
        _args: &[String],
        _source: &mut MemorySource,
        sink: &mut MemorySink,
        steps: &mut Steps<L>,
    ) -> Status {
        run_blocks(
            Form::Lines,
            &Question::Format,
            &["I65F0", "I0F8"],
            sink,
            steps,
        )
    }
}

#[test]
fn a_failing_write_keeps_the_blocks_before_it(rt: HostRuntime) -> Result<(), Fail> {
    let run = MemoryRun {
        args: &[],
        input: "",
        most: 4096,
        failing_read: NEVER,
        failing_write: 1,
        written: "given     I65F0\nerror: bad format\n",
        status: Status::WriteFault,
    };
    let (status, written) = run.of(rt.alloc(), &Formats, Vec::new(rt.alloc()))?;
    assert!(rt; status == run.status && written.as_slice() == run.written.as_bytes());
    Ok(())
}

#[test]
fn of_two_ends_the_greater_code_counts(rt: HostRuntime) {
    assert!(rt; greater_end(Status::Faults, Status::Done) == Status::Faults);
    assert!(rt; greater_end(Status::Faults, Status::ReadFault) == Status::ReadFault);
    assert!(rt; greater_end(Status::TooLong, Status::NoMemory) == Status::TooLong);
}
