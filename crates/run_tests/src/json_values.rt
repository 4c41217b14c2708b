//! Whole runs over lines of JSON in memory, by a rule that refuses some values and leaves others unchanged.

ghost use Rattle.std.specs.Prelude.{◌≡◌, ◌<◌};

use crate::columns::NoX;
use fixed_command::Layout;
use fixed_steps::Steps;
use json_lines::{Form, JsonEnd, JsonTask, path_named, run_json};
use line_engine::{MemorySink, MemorySource, NEVER, Status};
use std::alloc::{AllocError, Global};
use std::marker::Brand;
use std::process::Abort;
use std::sync::ledger::{Blank, Ledger};
use std::test::Fail;

/// A run: the path, whether replies are quoted while refused lines, blank ones and comments stay, the input, which read
/// and which write fails, the output, the status, how many lines are refused, and the line and byte of the first.
#[derive(Drop)]
struct Case {
    path: &'static [u8],
    stays: bool,
    input: &'static [u8],
    failing_read: u64,
    failing_write: u64,
    written: &'static [u8],
    status: Status,
    refused: u64,
    place: (u64, u64),
}

/// Runs a case. Returns how it ends and what it writes.
fn run_case<L: Ledger>(
    alloc: Global,
    case: &Case,
    most: usize,
    blank: Blank,
) -> Result<(JsonEnd<()>, Vec<u8>), AllocError>
    requires name { blank.name ≡ L.name }
    requires parts { blank.parts ≡ L.parts }
    requires some { 0 < blank.parts }
{
    let mut steps = Steps::<L>::new(blank);
    let path = match path_named(alloc, case.path) {
        Ok(path) => path,
        Err(_) => Vec::new(alloc),
    };
    // The prefix is not too long.
    let Some(layout) = Layout::new(false, case.stays, b"//") else {
        return Err(AllocError);
    };
    let form = Form {
        quotes: case.stays,
        keeps: case.stays,
        layout: &layout,
    };
    let task = JsonTask {
        rule: &NoX,
        steps: &path,
        form,
    };
    let most = most.max(1);
    let mut source = MemorySource::new(
        case.input.to_vec(alloc)?,
        most,
        vec![in alloc; case.failing_read]?,
    );
    let mut sink = MemorySink::new(
        vec![in alloc; 0u8; 4_096]?,
        most,
        vec![in alloc; case.failing_write]?,
    );
    let end = run_json(alloc, &None, &task, (), &mut source, &mut sink, &mut steps);
    Ok((end, sink.written().to_vec(alloc)?))
}

/// Asserts what a run writes and how it ends, however many bytes move at a time.
fn assert_runs(rt: &impl Abort, alloc: Global, cases: &[Case]) -> Result<(), AllocError> {
    for case in cases {
        for most in &[1, 2, 3, 5, 4096] {
            let (end, written) = run_case::<Brand>(alloc, case, *most, Blank::new(1))?;
            assert_eq!(rt; written.as_slice(), case.written);
            assert_eq!(rt; end.status, case.status);
            assert_eq!(rt; end.refused, case.refused);
            let place = match &end.first {
                Some(first) => (first.number, first.byte),
                None => (0, 0),
            };
            assert_eq!(rt; place.0, case.place.0);
            assert_eq!(rt; place.1, case.place.1);
        }
    }
    Ok(())
}

/// A run in which no line is refused.
fn exchanged(path: &'static [u8], input: &'static [u8], written: &'static [u8]) -> Case {
    Case {
        path,
        stays: false,
        input,
        failing_read: NEVER,
        failing_write: NEVER,
        written,
        status: Status::Done,
        refused: 0,
        place: (0, 0),
    }
}

/// A run in which one line is refused, with the line and the byte.
fn refused(
    path: &'static [u8],
    input: &'static [u8],
    written: &'static [u8],
    place: (u64, u64),
) -> Case {
    Case {
        status: Status::Faults,
        refused: 1,
        place,
        ..exchanged(path, input, written)
    }
}

#[test]
fn members_are_found(rt: HostRuntime) -> Result<(), Fail> {
    let cases = [
        exchanged(b".a", b"{\"a\":1}\n", b"{\"a\":yes}\n"),
        exchanged(
            b".a",
            b" { \"a\" : 1 , \"b\" : 2 } ",
            b" { \"a\" : yes , \"b\" : 2 } \n",
        ),
        exchanged(
            b".b",
            b"{\"a\":{\"b\":0},\"b\":-1.5e+2}\n",
            b"{\"a\":{\"b\":0},\"b\":yes}\n",
        ),
        exchanged(b".a", b"{\"a\":\"1\"}\n", b"{\"a\":\"yes\"}\n"),
        exchanged(
            b".a",
            b"{\"b\":\"a\",\"a\":1}\n",
            b"{\"b\":\"a\",\"a\":yes}\n",
        ),
        exchanged(
            b".a.b",
            b"{\"a\":{\"a\":1,\"b\":2},\"b\":3}\n",
            b"{\"a\":{\"a\":1,\"b\":yes},\"b\":3}\n",
        ),
    ];
    assert_runs(&rt, rt.alloc(), &cases)?;
    Ok(())
}

#[test]
fn elements_are_found(rt: HostRuntime) -> Result<(), Fail> {
    let cases = [
        exchanged(
            b".a[]",
            b"{\"a\":[1,2, 3],\"b\":[4]}\n",
            b"{\"a\":[yes,yes, yes],\"b\":[4]}\n",
        ),
        exchanged(b".a[1]", b"{\"a\":[1,2,3]}\n", b"{\"a\":[1,yes,3]}\n"),
        exchanged(b".[0]", b"[1,[2],3]\n", b"[yes,[2],3]\n"),
        exchanged(b".[1][0]", b"[[1],[2,3],[4]]\n", b"[[1],[yes,3],[4]]\n"),
        exchanged(
            b".[2]",
            b"[{\"a\":[0,0,0]},[7,8,9],3]\n",
            b"[{\"a\":[0,0,0]},[7,8,9],yes]\n",
        ),
        exchanged(b".[][1]", b"[[1,2],[3,4]]\n", b"[[1,yes],[3,yes]]\n"),
        exchanged(
            b".[].a",
            b"[{\"a\":1},{\"b\":2},{\"a\":3}]\n",
            b"[{\"a\":yes},{\"b\":2},{\"a\":yes}]\n",
        ),
        exchanged(b".", b"1\n\"2\"\n", b"yes\n\"yes\"\n"),
    ];
    assert_runs(&rt, rt.alloc(), &cases)?;
    Ok(())
}

#[test]
fn names_are_compared_as_they_are_written(rt: HostRuntime) -> Result<(), Fail> {
    let cases = [
        exchanged(b".a", b"{\"a\":1,\"a\":2}\n", b"{\"a\":yes,\"a\":yes}\n"),
        exchanged(b".\"a.b\"", b"{\"a.b\":1}\n", b"{\"a.b\":yes}\n"),
        exchanged(
            b".a\\u0062",
            b"{\"ab\":1,\"a\\u0062\":2}\n",
            b"{\"ab\":1,\"a\\u0062\":yes}\n",
        ),
        exchanged(
            b".a",
            b"{\"b\":\"}\\\",\\\\\",\"a\":1}\n",
            b"{\"b\":\"}\\\",\\\\\",\"a\":yes}\n",
        ),
        exchanged(
            b".a",
            b"{\"a\":\"=1\",\"b\":[],\"c\":{}}\r\n",
            b"{\"a\":\"=1\",\"b\":[],\"c\":{}}\r\n",
        ),
    ];
    assert_runs(&rt, rt.alloc(), &cases)?;
    Ok(())
}

#[test]
fn a_line_is_refused_for_its_first_cause(rt: HostRuntime) -> Result<(), Fail> {
    let cases = [
        refused(
            b".a",
            b"{\"a\":1}\n{\"a\":1\n",
            b"{\"a\":yes}\nerror: not JSON\n",
            (2, 0),
        ),
        refused(b".a", b"\n", b"error: not JSON\n", (1, 0)),
        refused(b".a", b"{\"a\":\"\xff\"}\n", b"error: not JSON\n", (1, 0)),
        refused(
            b".a",
            b"{\"b\":1}\n",
            b"error: no value at the path\n",
            (1, 0),
        ),
        refused(
            b".a",
            b"{\"a\":{\"b\":1}}\n",
            b"error: object or array\n",
            (1, 6),
        ),
    ];
    assert_runs(&rt, rt.alloc(), &cases)?;
    Ok(())
}

#[test]
fn a_line_without_a_value_at_the_path_is_refused(rt: HostRuntime) -> Result<(), Fail> {
    let cases = [
        refused(b".[1]", b"[0]\n", b"error: no value at the path\n", (1, 0)),
        refused(
            b".a[]",
            b"{\"a\":[]}\n",
            b"error: no value at the path\n",
            (1, 0),
        ),
        refused(
            b".a[0]",
            b"{\"a\":{\"b\":1}}\n",
            b"error: no value at the path\n",
            (1, 0),
        ),
        refused(
            b".a.b",
            b"{\"a\":[\"b\",1]}\n",
            b"error: no value at the path\n",
            (1, 0),
        ),
        refused(b".a", b"{\"a\":\"x\"}\n", b"not, so\n", (1, 7)),
        refused(b".[]", b"[1, \"x\", \"x\"]\n", b"not, so\n", (1, 6)),
    ];
    assert_runs(&rt, rt.alloc(), &cases)?;
    Ok(())
}

#[test]
fn lines_stay_and_replies_are_quoted_where_that_is_asked(rt: HostRuntime) -> Result<(), Fail> {
    let cases = [
        Case {
            stays: true,
            ..exchanged(
                b".a",
                b"{\"a\":1}\n \t\r\n\n //\n",
                b"{\"a\":\"yes\"}\n \t\r\n\n //\n",
            )
        },
        Case {
            stays: true,
            ..refused(b".a", b"{\"a\":1\n", b"{\"a\":1\n", (1, 0))
        },
        Case {
            stays: true,
            ..refused(
                b".a[]",
                b"{\"a\":[1,\"x\"]}\n",
                b"{\"a\":[1,\"x\"]}\n",
                (1, 10),
            )
        },
        Case {
            failing_write: 0,
            status: Status::WriteFault,
            ..exchanged(b".a", b"{\"a\":1}\n", b"")
        },
        Case {
            failing_read: 0,
            status: Status::ReadFault,
            ..exchanged(b".a", b"{\"a\":1}\n", b"")
        },
    ];
    assert_runs(&rt, rt.alloc(), &cases)?;
    Ok(())
}
