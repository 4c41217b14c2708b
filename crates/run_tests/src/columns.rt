//! Whole runs over columns of bytes in memory, by a rule that refuses some fields and leaves others unchanged.

ghost use Rattle.std.specs.Prelude.{◌≡◌, ◌==◌, ◌<◌, ◌≤◌, get_or};

use column_engine::{
    Column, ColumnEnd, ColumnTask, Destination, FieldPlace, FieldRule, FirstRefused, Keeping,
    Range, RecordBuffer, Stop, run_column,
};
use fixed_steps::Steps;
use line_engine::{MemorySink, MemorySource, NEVER, Output};
use std::alloc::{AllocError, Global};
use std::marker::Brand;
use std::process::Abort;
use std::sync::ledger::{Blank, Ledger};
use std::test::Fail;
use text_buffer::TextBuffer;

/// Refuses a field that begins with an x, and leaves one that begins with an = unchanged.
#[derive(Drop)]
pub(crate) struct NoX;

/// The first byte, or 0.
pub(crate) fn first_of(bytes: &[u8]) -> u8
    ensures { result ≡ get_or bytes.now 0 0 }
{
    match bytes.first() {
        Some(byte) => *byte,
        None => 0,
    }
}

impl<L: Ledger> FieldRule<L> for NoX {
    ghost use Rattle.std.specs.Prelude.{[], codes, false, get_or, if◌then◌else◌, true};
    ghost use Rattle.std.proofs.Common.{◌∙◌, sym};
    ghost use Rattle.run_tests.specs.Replies.{reply_to};

    ghost Answers = { λ rule field reply. reply ≡ reply_to (get_or field 0 0) };

    fn answer(
        &self,
        field: &[u8],
        _scratch: &mut RecordBuffer,
        out: &mut Output,
        _steps: &mut Steps<L>,
    ) -> bool {
        match first_of(field) {
            b'x' => out.push_bytes(b"not, so"),
            b'=' => (),
            _ => out.push_bytes(b"yes"),
        }
        first_of(field) == b'x'
    }

    ghost one_law = { λ rule field a b is same. is ∙ sym same };
}

/// A run: how many lines are skipped, the columns, the name of a new one for the answers, whether there is a header,
/// what is kept of fields, the input, which read and which write fails, the output, and how the run ends.
#[derive(Drop)]
struct Case {
    skipped: u64,
    name: Option<&'static str>,
    range: Option<Range>,
    into: Option<&'static [u8]>,
    has_header: bool,
    is_kept: bool,
    has_quotes: bool,
    delimiter: u8,
    failing_read: u64,
    failing_write: u64,
    input: &'static [u8],
    written: &'static [u8],
    end: ColumnEnd,
}

/// The columns of a case: one, by its name or by numbers.
fn columns_of(alloc: Global, case: &Case) -> Result<[Column; 1], AllocError> {
    match case.name {
        Some(name) => Ok([Column::Named(String::from_str(alloc, name)?, case.range)]),
        None => Ok([Column::At(case.range.unwrap_or(Range { from: 0, to: 0 }))]),
    }
}

/// The destination of a case's answers.
fn destination_of(case: &Case) -> Destination {
    match case.into {
        Some(name) => {
            let mut text = TextBuffer::new();
            text.push_bytes(&name[..name.len().min(100)]);
            Destination::NewColumn(text)
        }
        None => Destination::InPlace,
    }
}

/// Runs a case over these bytes, in place of its own input. Returns how the run ends, what it writes, and the first
/// refused field.
fn run_case<L: Ledger>(
    alloc: Global,
    case: &Case,
    input: Vec<u8>,
    most: usize,
    blank: Blank,
) -> Result<(ColumnEnd, Vec<u8>, FirstRefused), AllocError>
    requires name { blank.name ≡ L.name }
    requires parts { blank.parts ≡ L.parts }
    requires some { 0 < blank.parts }
{
    let mut steps = Steps::<L>::new(blank);
    let columns = columns_of(alloc, case)?;
    let destination = destination_of(case);
    let task = ColumnTask {
        rule: &NoX,
        skipped: case.skipped,
        columns: &columns,
        destination: &destination,
        has_header: case.has_header,
        keeps: Keeping {
            refused: case.is_kept,
            quotes: case.has_quotes,
        },
        delimiter: case.delimiter,
    };
    let most = most.max(1);
    let room = 4_096;
    let mut source = MemorySource::new(input, most, vec![in alloc; case.failing_read]?);
    let mut sink = MemorySink::new(
        vec![in alloc; 0u8; room]?,
        most,
        vec![in alloc; case.failing_write]?,
    );
    let first = FirstRefused::new();
    let run = run_column(alloc, &task, first, &mut source, &mut sink, &mut steps);
    Ok((run.end, sink.written().to_vec(alloc)?, run.records.observer))
}

/// Asserts what a run writes and how it ends, however many bytes move at a time.
fn assert_runs(rt: &impl Abort, alloc: Global, cases: &[Case]) -> Result<(), AllocError> {
    for case in cases {
        for most in &[1, 2, 3, 5, 4096] {
            let (end, written, _first) = run_case::<Brand>(
                alloc,
                case,
                case.input.to_vec(alloc)?,
                *most,
                Blank::new(1),
            )?;
            assert_eq!(rt; written.as_slice(), case.written);
            assert_eq!(rt; end, case.end);
        }
    }
    Ok(())
}

/// The end of a run that answered this many records and refused none.
fn ended(stop: Stop, answered: u64) -> ColumnEnd {
    ColumnEnd {
        stop,
        answered,
        refused: 0,
        first: 0,
    }
}

/// The range of one column.
fn one(place: usize) -> Option<Range> {
    Some(Range {
        from: place,
        to: place,
    })
}

/// A run of the second column, without a header, in which no field is refused.
fn second(input: &'static [u8], written: &'static [u8], answered: u64) -> Case {
    Case {
        skipped: 0,
        name: None,
        range: one(1),
        into: None,
        has_header: false,
        is_kept: false,
        has_quotes: false,
        delimiter: b',',
        failing_read: NEVER,
        failing_write: NEVER,
        input,
        written,
        end: ended(Stop::Done, answered),
    }
}

/// A run of the column that a header gives this name, or at this number.
fn named(
    name: &'static str,
    range: Option<Range>,
    input: &'static [u8],
    written: &'static [u8],
    answered: u64,
) -> Case {
    Case {
        name: Some(name),
        range,
        has_header: true,
        ..second(input, written, answered)
    }
}

/// A run that ends early.
fn stopped(case: Case, stop: Stop) -> Case {
    Case {
        end: ColumnEnd { stop, ..case.end },
        ..case
    }
}

/// A run in which some fields are refused: how many, and in which record the first is.
fn refusing(case: Case, refused: u64, first: u64) -> Case {
    Case {
        end: ColumnEnd {
            refused,
            first,
            ..case.end
        },
        ..case
    }
}

#[test]
fn a_number_is_a_column_of_every_record(rt: HostRuntime) -> Result<(), Fail> {
    let cases = [
        second(b"a,b,c\n1,2,3\n", b"a,yes,c\n1,yes,3\n", 2),
        second(b"a,b", b"a,yes", 1),
        second(b"a,b\nc,d,e\n", b"a,yes\nc,yes,e\n", 2),
        second(b"", b"", 0),
        Case {
            range: one(0),
            ..second(b"a,b\n1,2\n", b"yes,b\nyes,2\n", 2)
        },
        Case {
            range: one(2),
            ..second(b"a,b,c\n", b"a,b,yes\n", 1)
        },
        Case {
            range: Some(Range { from: 1, to: 2 }),
            ..second(b"a,b,c,d\n", b"a,yes,yes,d\n", 1)
        },
        Case {
            range: Some(Range {
                from: 0,
                to: usize::MAX,
            }),
            ..second(b"a,b\n\nc\n", b"yes,yes\n\nyes\n", 2)
        },
    ];
    assert_runs(&rt, rt.alloc(), &cases)?;
    Ok(())
}

#[test]
fn a_name_of_the_header_comes_before_a_number(rt: HostRuntime) -> Result<(), Fail> {
    let cases = [
        named("n", None, b"a,n\n1,2\n", b"a,n\n1,yes\n", 2),
        named("n", None, b"a,n,n\n1,2,3\n", b"a,n,n\n1,yes,3\n", 2),
        named("2", one(1), b"2,b\n1,c\n", b"2,b\nyes,c\n", 2),
        named("2", one(1), b"a,b\n1,c\n", b"a,b\n1,yes\n", 2),
        named("b", None, b"a,b\n", b"a,b\n", 1),
        named("a,b", None, b"\"a,b\",c\n1,2\n", b"\"a,b\",c\nyes,2\n", 2),
        named("", None, b"\"\"\n1\n", b"\"\"\nyes\n", 2),
        named("n", None, b"\r\nn\r\n1\r\n", b"\r\nn\r\nyes\r\n", 2),
        named("n", None, b"", b"", 0),
    ];
    assert_runs(&rt, rt.alloc(), &cases)?;
    Ok(())
}

#[test]
fn every_other_byte_stays(rt: HostRuntime) -> Result<(), Fail> {
    let cases = [
        second(b"\"a\",\"1\"\n", b"\"a\",yes\n", 1),
        second(b"\"a,b\",1\n", b"\"a,b\",yes\n", 1),
        second(b"\"a\"\"b\",1\n", b"\"a\"\"b\",yes\n", 1),
        second(b"a\"b,1\n", b"a\"b,yes\n", 1),
        second(b"\"a\nb\",1\nc,2\n", b"\"a\nb\",yes\nc,yes\n", 2),
        second(b"\"a\r\nb\",1\r\n", b"\"a\r\nb\",yes\r\n", 1),
        second(b",1,\n", b",yes,\n", 1),
        second(b"a,\"\"\n", b"a,yes\n", 1),
        second(b" a ,1, b\n", b" a ,yes, b\n", 1),
        second(b"\xff\xc3,1\n", b"\xff\xc3,yes\n", 1),
        second(b"a,1\rb,2\r", b"a,yes\rb,yes\r", 2),
        second(b"\n\r\na,1\n\n\nb,2\n\n", b"\n\r\na,yes\n\n\nb,yes\n\n", 2),
        second(b"\n\n", b"\n\n", 0),
        second(b"\"1\"x,\"1\"x\n", b"\"1\"x,yes\n", 1),
        Case {
            skipped: 2,
            ..second(b"sep=,\r\n\"\na,1\n", b"sep=,\r\n\"\na,yes\n", 1)
        },
        Case {
            skipped: 2,
            ..second(b"a,1", b"a,1", 0)
        },
    ];
    assert_runs(&rt, rt.alloc(), &cases)?;
    Ok(())
}

#[test]
fn a_byte_order_mark_stays_before_the_first_field(rt: HostRuntime) -> Result<(), Fail> {
    let cases = [
        second(b"\xef\xbb\xbfa,1\n", b"\xef\xbb\xbfa,yes\n", 1),
        second(b"\xef\xbb\xbf\"a,b\",1\n", b"\xef\xbb\xbf\"a,b\",yes\n", 1),
        second(b"\xef\xbba,1\n", b"\xef\xbba,yes\n", 1),
        stopped(second(b"\xef\xbb", b"", 0), Stop::NoColumn(1)),
        second(b"\xef\xbb\xbf", b"\xef\xbb\xbf", 0),
        named(
            "n",
            None,
            b"\xef\xbb\xbfn,m\n1,2\n",
            b"\xef\xbb\xbfn,m\nyes,2\n",
            2,
        ),
    ];
    assert_runs(&rt, rt.alloc(), &cases)?;
    Ok(())
}

#[test]
fn another_byte_can_be_between_fields(rt: HostRuntime) -> Result<(), Fail> {
    let cases = [
        Case {
            delimiter: b';',
            ..second(b"a,b;1;c\n", b"a,b;yes;c\n", 1)
        },
        Case {
            delimiter: b';',
            ..second(b"\"a;b\";1\n", b"\"a;b\";yes\n", 1)
        },
        Case {
            delimiter: b'\t',
            ..refusing(second(b"a\tx\n", b"a\tnot, so\n", 1), 1, 1)
        },
    ];
    assert_runs(&rt, rt.alloc(), &cases)?;
    Ok(())
}

#[test]
fn refused_fields_are_counted_and_kept_where_that_is_asked(rt: HostRuntime) -> Result<(), Fail> {
    let input = b"a,1\nb,\"x,y\"\nx,2\nd,x\n";
    let replaced = b"a,yes\nb,\"not, so\"\nx,yes\nd,\"not, so\"\n";
    let kept = b"a,yes\nb,\"x,y\"\nx,yes\nd,x\n";
    let cases = [
        refusing(second(input, replaced, 4), 2, 2),
        Case {
            is_kept: true,
            ..refusing(second(input, kept, 4), 2, 2)
        },
        refusing(named("n", None, b"n\nx\n", b"n\n\"not, so\"\n", 2), 1, 2),
        second(b"a,\"\"\"x\"\n", b"a,yes\n", 1),
        refusing(second(b"a,\"x\"\"\"\n", b"a,\"not, so\"\n", 1), 1, 1),
        second(b"a,\"=1\"\nb,=\n", b"a,\"=1\"\nb,=\n", 2),
    ];
    assert_runs(&rt, rt.alloc(), &cases)?;
    Ok(())
}

#[test]
fn the_first_refused_field_is_kept_with_its_place(rt: HostRuntime) -> Result<(), Fail> {
    let input: &[u8] = b"a,b\r\n\"c\nd\",1\n\nx,\"x\"\"\"\ny,xx\n";
    let case = second(input, b"", 0);
    for most in &[1, 2, 3, 5, 4096] {
        let (_end, _written, first) = run_case::<Brand>(
            rt.alloc(),
            &case,
            input.to_vec(rt.alloc())?,
            *most,
            Blank::new(1),
        )?;
        let field = first.field.expect(&rt, "no field is refused");
        let place = FieldPlace {
            record: 3,
            line: 5,
            column: 1,
        };
        assert_eq!(rt; field.place, place);
        assert_eq!(rt; field.text.as_bytes(), b"x\"".as_slice());
        assert_eq!(rt; field.reply.as_bytes(), b"not, so".as_slice());
    }
    Ok(())
}

#[test]
fn answers_to_fields_in_quotes_stay_in_quotes_where_that_is_asked(
    rt: HostRuntime,
) -> Result<(), Fail> {
    let in_place = second(
        b"a,\"1\"\n\"b\",2\nc,=\n",
        b"a,\"yes\"\n\"b\",yes\nc,=\n",
        3,
    );
    let appended = second(b"a,\"1\"\nb,2\n", b"a,\"1\",\"yes\"\nb,2,yes\n", 2);
    let cases = [
        Case {
            has_quotes: true,
            ..in_place
        },
        Case {
            has_quotes: true,
            ..appending(b"m", appended)
        },
    ];
    assert_runs(&rt, rt.alloc(), &cases)?;
    Ok(())
}

/// A run whose answers go into a new column with this name.
fn appending(name: &'static [u8], case: Case) -> Case {
    Case {
        into: Some(name),
        ..case
    }
}

#[test]
fn a_new_column_has_the_answers(rt: HostRuntime) -> Result<(), Fail> {
    let input = b"k,n\r\n1,\"x\"\r\n\r\n\"2\",=3\r\n4,5,6";
    let written = b"k,n,\"m, \"\"n\"\"\"\r\n1,\"x\",\"not, so\"\r\n\r\n\"2\",=3,=3\r\n4,5,6,yes";
    let kept = b"k,n,m\r\n1,\"x\",\"x\"\r\n\r\n\"2\",=3,=3\r\n4,5,6,yes";
    let cases = [
        appending(b"m", second(b"a,b\nc,\n", b"a,b,yes\nc,,yes\n", 2)),
        appending(b"m", second(b"\n\r\n", b"\n\r\n", 0)),
        appending(b"m", named("n", None, b"k,n\n", b"k,n,m\n", 1)),
        appending(b"", named("n", None, b"n\n1\n", b"n,\"\"\n1,yes\n", 2)),
        refusing(
            appending(b"m, \"n\"", named("n", None, input, written, 4)),
            1,
            2,
        ),
        Case {
            is_kept: true,
            ..refusing(appending(b"m", named("n", None, input, kept, 4)), 1, 2)
        },
        stopped(
            appending(b"m", second(b"a,1\nb\nc,2\n", b"a,1,yes\n", 1)),
            Stop::NoColumn(1),
        ),
        stopped(
            appending(b"m", named("c", None, b"a,b\n1,2\n", b"", 0)),
            Stop::NoName,
        ),
        stopped(
            appending(b"m", second(b"a,1\nb,\"2\n", b"a,1,yes\n", 1)),
            Stop::Unclosed,
        ),
    ];
    assert_runs(&rt, rt.alloc(), &cases)?;
    Ok(())
}

#[test]
fn a_record_or_a_header_without_the_column_ends_the_run(rt: HostRuntime) -> Result<(), Fail> {
    let cases = [
        stopped(second(b"a,1\nb\nc,2\n", b"a,yes\n", 1), Stop::NoColumn(1)),
        stopped(second(b"\"\"\n", b"", 0), Stop::NoColumn(1)),
        stopped(
            named("n", None, b"a,n,c\n1\n", b"a,n,c\n", 1),
            Stop::NoColumn(1),
        ),
        stopped(named("3", one(2), b"a,b\n1,2\n", b"", 0), Stop::NoColumn(2)),
        stopped(named("c", None, b"a,b\n1,2\n", b"", 0), Stop::NoName),
        stopped(named("A", None, b"a,b\n1,2\n", b"", 0), Stop::NoName),
    ];
    assert_runs(&rt, rt.alloc(), &cases)?;
    Ok(())
}

#[test]
fn a_quote_that_is_never_closed_ends_the_run(rt: HostRuntime) -> Result<(), Fail> {
    let cases = [
        stopped(second(b"a,1\nb,\"2\nc,3\n", b"a,yes\n", 1), Stop::Unclosed),
        stopped(second(b"a,\"1\"\"", b"", 0), Stop::Unclosed),
        stopped(second(b"\"", b"", 0), Stop::Unclosed),
        stopped(named("n", None, b"\"n\n", b"", 0), Stop::Unclosed),
    ];
    assert_runs(&rt, rt.alloc(), &cases)?;
    Ok(())
}

/// The input of the runs in which a call fails, a byte at a time.
const INPUT: &[u8] = b"\xef\xbb\xbfa,1\nb,\"2\"\n";

/// Their output.
const OUTPUT: &[u8] = b"\xef\xbb\xbfa,yes\nb,yes\n";

/// Read call k reads byte k. The answers to the records that ended before it are written.
#[test]
fn each_read_fails_in_turn(rt: HostRuntime) -> Result<(), Fail> {
    for call in 0..14usize {
        let (output, answered): (&[u8], u64) = match call {
            0..3 => (b"", 0),
            3..7 => (b"\xef\xbb\xbf", 0),
            7..13 => (b"\xef\xbb\xbfa,yes\n", 1),
            _ => (OUTPUT, 2),
        };
        let case = Case {
            failing_read: call as u64,
            ..second(INPUT, b"", 0)
        };
        let input = INPUT.to_vec(rt.alloc())?;
        let (end, written, _first) = run_case::<Brand>(rt.alloc(), &case, input, 1, Blank::new(1))?;
        assert_eq!(rt; end, ended(Stop::ReadFault, answered), "at {call}");
        assert_eq!(rt; written.as_slice(), output, "at {call}");
    }
    Ok(())
}

/// Their output with a new column.
const LONGER_OUTPUT: &[u8] = b"\xef\xbb\xbfa,1,yes\nb,\"2\",yes\n";

/// Returns the case with a new column or without, the write call that fails, and the output without a failure.
fn failing_write(call: usize) -> (Case, usize, &'static [u8]) {
    if call < OUTPUT.len() {
        return (second(INPUT, b"", 0), call, OUTPUT);
    }
    let longer = appending(b"m", second(INPUT, b"", 0));
    (longer, call - OUTPUT.len(), LONGER_OUTPUT)
}

/// Write call k writes byte k of the output. The bytes before it are written.
#[test]
fn each_write_fails_in_turn(rt: HostRuntime) -> Result<(), Fail> {
    for at in 0..36usize {
        let (plain, call, output) = failing_write(at);
        let case = Case {
            failing_write: call as u64,
            ..plain
        };
        let input = INPUT.to_vec(rt.alloc())?;
        let (end, written, _first) = run_case::<Brand>(rt.alloc(), &case, input, 1, Blank::new(1))?;
        assert_eq!(rt; end.stop, Stop::WriteFault, "at {at}");
        let wanted = output.get(..call).unwrap_or(&[]);
        assert_eq!(rt; written.as_slice(), wanted, "at {at}");
    }
    Ok(())
}
