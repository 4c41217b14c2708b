//! Runs of the program of lines over a source and a sink in memory, in which a call fails.

use fixed_respell::{MemorySink, MemorySource, Status, run};
use fixed_steps::Steps;
use line_engine::{MemoryProgram, MemoryRun, NEVER};
use std::alloc::{AllocError, Global};
use std::process::Abort;
use std::sync::ledger::Ledger;
use std::test::Fail;

/// The program of lines.
#[derive(Drop)]
struct Respell;

impl MemoryProgram for Respell {
    fn run<L: Ledger>(
        &self,
        alloc: Global,
        args: &[String],
        source: &mut MemorySource,
        sink: &mut MemorySink,
        steps: &mut Steps<L>,
    ) -> Status {
        run(alloc, args, source, sink, steps)
    }
}

/// Stops if a run writes something else than the case says, or ends otherwise.
fn expect_end(rt: &impl Abort, alloc: Global, case: &MemoryRun) -> Result<(), AllocError> {
    let input = case.input.as_bytes().to_vec(alloc)?;
    let (status, written) = case.of(alloc, &Respell, input)?;
    assert!(rt; status == case.status, "the status of {}", case.written);
    assert!(rt;
        written.as_slice() == case.written.as_bytes(),
        "not {}",
        case.written
    );
    Ok(())
}

/// Two lines that are answered and one that is refused.
pub const LINES: &str =
    "10 I4F4 I4F4 checked 3.1875\n10 U4F4 U8F0 checked 2.99\n9 U8F0 U8F0 checked 1\n";

/// The output for none of them, for one, for two and for all.
pub const ANSWERS: [&str; 4] = [
    "",
    "3.2 51 fits\n",
    "3.2 51 fits\n3 3 fits\n",
    "3.2 51 fits\n3 3 fits\nerror: bad radix\n",
];

/// With pieces of one byte, read call k meets byte k, and the lines that ended before it are answered.
#[test]
fn each_read_fails_in_turn(rt: HostRuntime) -> Result<(), Fail> {
    let mut ended = 0usize;
    for (call, byte) in LINES.as_bytes().iter().enumerate() {
        let case = MemoryRun {
            args: &[],
            input: LINES,
            most: 1,
            failing_read: call as u64,
            failing_write: NEVER,
            written: ANSWERS[ended.min(3)],
            status: Status::ReadFault,
        };
        expect_end(&rt, rt.alloc(), &case)?;
        if *byte == b'\n' {
            ended = ended.saturating_add(1);
        }
    }
    Ok(())
}

/// With pieces of one byte, write call k writes byte k of the output, and the bytes before it are written.
#[test]
fn each_write_fails_in_turn(rt: HostRuntime) -> Result<(), Fail> {
    let alloc = rt.alloc();
    for call in 0..ANSWERS[3].len() {
        let case = MemoryRun {
            args: &[],
            input: LINES,
            most: 1,
            failing_read: NEVER,
            failing_write: call as u64,
            written: "",
            status: Status::WriteFault,
        };
        let (status, written) = case.of(alloc, &Respell, LINES.as_bytes().to_vec(alloc)?)?;
        assert!(rt; status == Status::WriteFault, "at {call}");
        assert!(rt;
            written.as_slice() == &ANSWERS[3].as_bytes()[..call],
            "at {call}"
        );
    }
    Ok(())
}

/// How many bytes move at a time, which read and which write fail, the first argument and the second, the output, and
/// how the run ends.
type Row = (
    usize,
    u64,
    u64,
    &'static [&'static str],
    &'static str,
    Status,
);

#[test]
fn runs_end_at_the_call_that_fails(rt: HostRuntime) -> Result<(), Fail> {
    let five = "5 lines, 4 fit, 1 overflowed, 0 faults, 51 bytes\n";
    let rows: [Row; 9] = [
        (4096, 0, NEVER, &[], "", Status::ReadFault),
        (4096, NEVER, 0, &[], "", Status::WriteFault),
        (4096, 1, NEVER, &[], ANSWERS[3], Status::ReadFault),
        (28, 1, NEVER, &[], ANSWERS[1], Status::ReadFault),
        (1, NEVER, NEVER, &[], ANSWERS[3], Status::Faults),
        (4096, NEVER, 0, &["limit", "0"], "", Status::WriteFault),
        (1, NEVER, NEVER, &["self", "5"], five, Status::Done),
        (4096, NEVER, 0, &["self", "5"], "", Status::WriteFault),
        (2, NEVER, 3, &["self", "5"], "5 line", Status::WriteFault),
    ];
    for (most, failing_read, failing_write, args, written, status) in &rows {
        let case = MemoryRun {
            args: *args,
            input: LINES,
            most: *most,
            failing_read: *failing_read,
            failing_write: *failing_write,
            written: *written,
            status: *status,
        };
        expect_end(&rt, rt.alloc(), &case)?;
    }
    Ok(())
}

/// One line of 23 bytes, and its answer.
const ONE_LINE: (&str, &str) = ("10 U8F0 U8F0 checked 7\n", "7 7 fits\n");

#[test]
fn a_failing_call_after_one_line_keeps_its_answer(rt: HostRuntime) -> Result<(), Fail> {
    let (input, answer) = ONE_LINE;
    let rows: [Row; 3] = [
        (23, 1, NEVER, &[], answer, Status::ReadFault),
        (1, NEVER, 3, &[], "7 7", Status::WriteFault),
        (23, NEVER, NEVER, &["limit", "23"], answer, Status::Done),
    ];
    for (most, failing_read, failing_write, args, written, status) in &rows {
        let case = MemoryRun {
            args: *args,
            input,
            most: *most,
            failing_read: *failing_read,
            failing_write: *failing_write,
            written: *written,
            status: *status,
        };
        expect_end(&rt, rt.alloc(), &case)?;
    }
    Ok(())
}
