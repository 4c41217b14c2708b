//! Reads, writes and allocations that fail.

use crate::runs::{Program, assert_run};
use line_engine::{MemoryRun, NEVER, Status};
use std::alloc::Global;
use std::process::Abort;
use std::test::Fail;

/// A program, an input, and its output.
const WHOLE: [(Program, &str, &str); 3] = [
    (Program::Least, "0.5\n3\n", "least U7F1\nU8F0 line 1\n"),
    (Program::Constants, "A = -1 I8F0\n", "A = -0x1 I8F0\n"),
    (
        Program::Columns,
        "1 U8F0\n",
        "                       1 U8F0\n",
    ),
];

/// With pieces of one byte, read call k meets byte k, or the end: nothing is written before the whole input is read.
#[test]
fn each_read_of_a_whole_input_fails_in_turn(rt: HostRuntime) -> Result<(), Fail> {
    for (program, input, _) in &WHOLE {
        for call in 0..=input.len() {
            let case = MemoryRun {
                most: 1,
                failing_read: call as u64,
                ..MemoryRun::unfailing(&[], input, "", Status::ReadFault)
            };
            assert_run(&rt, rt.alloc(), *program, &case)?;
        }
    }
    Ok(())
}

/// With pieces of one byte, write call k writes byte k, and the bytes before it are written.
#[test]
fn each_write_of_a_whole_answer_fails_in_turn(rt: HostRuntime) -> Result<(), Fail> {
    for (program, input, output) in &WHOLE {
        for call in 0..output.len() {
            let case = MemoryRun {
                most: 1,
                failing_write: call as u64,
                ..MemoryRun::unfailing(&[], input, "", Status::WriteFault)
            };
            let given = input.as_bytes().to_vec(rt.alloc())?;
            let (status, written) = case.of(rt.alloc(), program, given)?;
            assert!(rt; status == Status::WriteFault, "at {call} of {input}");
            assert!(rt;
                written.as_slice() == &output.as_bytes()[..call],
                "at {call} of {input}"
            );
        }
    }
    Ok(())
}

#[test]
fn a_failing_read_and_a_failing_write_end_a_run_over_lines(rt: HostRuntime) -> Result<(), Fail> {
    for (failing_read, failing_write, status) in &[
        (0, NEVER, Status::ReadFault),
        (NEVER, 0, Status::WriteFault),
    ] {
        let case = MemoryRun {
            failing_read: *failing_read,
            failing_write: *failing_write,
            ..MemoryRun::unfailing(&[], "10 U7F1 0.5\n", "", *status)
        };
        assert_run(&rt, rt.alloc(), Program::Enclose, &case)?;
    }
    Ok(())
}

/// Asserts that a run in which an allocation fails ends as `NoMemory` and has written nothing, and that the output of
/// any other run is complete.
fn assert_whole_or_nothing(rt: &impl Abort, alloc: Global, program: Program, case: &MemoryRun) {
    let Ok(input) = case.input.as_bytes().to_vec(alloc) else {
        return;
    };
    match case.of(alloc, &program, input) {
        Ok((Status::NoMemory, written)) => assert!(rt; written.is_empty()),
        Ok((status, written)) => {
            assert_eq!(rt; status, Status::Done);
            assert_eq!(rt; written.as_slice(), case.written.as_bytes());
        }
        Err(_) => {}
    }
}

#[test]
fn refused_memory_writes_nothing(rt: HostRuntime) {
    let least = MemoryRun::unfailing(
        &["10"],
        "0.5\n3\n",
        "least U7F1\nU8F0 line 1\n",
        Status::Done,
    );
    assert_whole_or_nothing(&rt, rt.alloc(), Program::Least, &least);
    let constants = MemoryRun::unfailing(
        &["rust"],
        "A = 1.75 I4F4\n",
        "pub const A: fixed::types::I4F4 = fixed::types::I4F4::from_bits(0x1c);\n",
        Status::Done,
    );
    assert_whole_or_nothing(&rt, rt.alloc(), Program::Constants, &constants);
    let columns = MemoryRun::unfailing(
        &[],
        "2 U8F0\n1 U8F0\n",
        "                       1 U8F0\n                       2 U8F0\n",
        Status::Done,
    );
    assert_whole_or_nothing(&rt, rt.alloc(), Program::Columns, &columns);
}
