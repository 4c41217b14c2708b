//! Lines answered by a rule over a source and a sink in memory, with some failing calls, and what an observer keeps of
//! refused lines.

use crate::columns::first_of;
use fixed_steps::Steps;
use line_engine::{MemoryProgram, MemoryRun, MemorySink, MemorySource, NEVER, Output, Status};
use run_engine::{Cause, LineRule, Refusals, Rule, push_error, run_lines, run_watched};
use std::alloc::Global;
use std::cell::Cell;
use std::sync::ledger::Ledger;
use std::test::Fail;

/// A line begins with an x.
#[derive(Clone, Copy)]
struct NotSo;

impl Cause for NotSo {
    ghost use Rattle.std.specs.Prelude.{codes};

    ghost message = { λ cause. codes "not so" };

    fn push_message(&self, out: &mut Output) {
        out.push_bytes(b"not so");
    }
}

/// Refuses a line that begins with an x.
#[derive(Clone, Copy)]
struct NoX;

impl<L: Ledger> Rule<L> for NoX {
    ghost use Rattle.std.proofs.Common.{◌≡◌, ◌∙◌, codes, get_or, lit<, sym};
    ghost use Rattle.run_engine.specs.Reply.{error_text};
    ghost use Rattle.run_tests.specs.Replies.{line_reply};

    type Note = ();

    type Cause = NotSo;

    const PER_BYTE: u64 = 0;

    const EXTRA: u64 = 0;

    const MAX_ANSWER: usize = 13;

    ghost PER_BYTE = { 0 };

    ghost EXTRA = { 0 };

    ghost MAX_ANSWER = { 13 };

    ghost Answers = { λ rule line reply. reply ≡ line_reply (get_or line 0 0) };

    ghost Notes = { λ rule line note. Unit {0} };

    ghost refusal = { λ rule line cause. error_text (codes "not so") };

    fn answer(&self, line: &[u8], out: &mut Output, _steps: &mut Steps<L>) -> Result<(), NotSo> {
        if first_of(line) == b'x' {
            return Err(NotSo);
        }
        out.push_bytes(b"yes");
        Ok(())
    }

    fn push_refusal(&self, _line: &[u8], cause: &NotSo, out: &mut Output) {
        push_error(cause, out);
    }

    ghost room_law = { lit< tt };

    ghost one_law = { λ rule line a b is same. is ∙ sym same };
}

impl<L: Ledger> LineRule<L> for NoX {
    ghost use Rattle.run_tests.specs.Replies.{long_by_its_prefix};

    ghost kept_law = { λ rule. long_by_its_prefix };
}

/// A run of lines by the rule, with a limit in bytes.
#[derive(Drop)]
struct Lines {
    limit: u64,
}

impl MemoryProgram for Lines {
    fn run<L: Ledger>(
        &self,
        alloc: Global,
        _args: &[String],
        source: &mut MemorySource,
        sink: &mut MemorySink,
        steps: &mut Steps<L>,
    ) -> Status {
        run_lines(alloc, self.limit.min(1000), &NoX, source, sink, steps)
    }
}

/// Five lines, of which the second and the fourth are refused and the last has no newline.
const LINES: &str = "ab\nxyz\n\nx\nc";

/// Their output.
const REPLIES: &str = "yes\nerror: not so\nyes\nerror: not so\nyes\n";

/// The limit, how many bytes move at a time, which read and which write fails, the output, and how the run ends.
type Row = (u64, usize, u64, u64, &'static str, Status);

#[test]
fn lines_are_answered_or_refused_up_to_the_call_that_fails(rt: HostRuntime) -> Result<(), Fail> {
    let two = "yes\nerror: not so\n";
    let rows: [Row; 8] = [
        (1000, 1, NEVER, NEVER, REPLIES, Status::Faults),
        (1000, 4, NEVER, NEVER, REPLIES, Status::Faults),
        (11, 4096, NEVER, NEVER, REPLIES, Status::Faults),
        (
            10,
            4096,
            NEVER,
            NEVER,
            "yes\nerror: not so\nyes\nerror: not so\n",
            Status::TooLong,
        ),
        (7, 4, NEVER, NEVER, two, Status::TooLong),
        (1000, 4, 0, NEVER, "", Status::ReadFault),
        (1000, 4, 1, NEVER, "yes\n", Status::ReadFault),
        (1000, 4, NEVER, 2, "yes\nerro", Status::WriteFault),
    ];
    for (limit, most, failing_read, failing_write, written, status) in &rows {
        let case = MemoryRun {
            args: &[],
            input: LINES,
            most: *most,
            failing_read: *failing_read,
            failing_write: *failing_write,
            written: *written,
            status: *status,
        };
        let program = Lines { limit: *limit };
        let input = LINES.as_bytes().to_vec(rt.alloc())?;
        let (ended, text) = case.of(rt.alloc(), &program, input)?;
        assert!(rt; ended == case.status, "the status of {}", case.written);
        assert!(rt;
            text.as_slice() == case.written.as_bytes(),
            "not {}",
            case.written
        );
    }
    Ok(())
}

/// The limit, which read and which write fails, how many lines the observer was told are refused, and how the run ends.
type Seen = (u64, u64, u64, u64, Status);

/// A run of lines that is observed. `MemoryProgram` lends it, so its end is kept in a cell.
#[derive(Drop)]
struct Watched {
    limit: u64,
    end: Cell<Refusals<NotSo>>,
}

impl MemoryProgram for Watched {
    fn run<L: Ledger>(
        &self,
        alloc: Global,
        _args: &[String],
        source: &mut MemorySource,
        sink: &mut MemorySink,
        steps: &mut Steps<L>,
    ) -> Status {
        let limit = self.limit.min(1000);
        let end = run_watched(alloc, limit, &NoX, Refusals::new(), source, sink, steps);
        self.end.set(end.watch);
        end.status
    }
}

#[test]
fn an_observer_is_told_of_each_refused_line(rt: HostRuntime) -> Result<(), Fail> {
    let rows: [Seen; 5] = [
        (1000, NEVER, NEVER, 2, Status::Faults),
        (7, NEVER, NEVER, 1, Status::TooLong),
        (2, NEVER, NEVER, 0, Status::TooLong),
        (1000, 2, NEVER, 1, Status::ReadFault),
        (1000, NEVER, 2, 1, Status::WriteFault),
    ];
    for (limit, failing_read, failing_write, count, status) in &rows {
        let case = MemoryRun {
            args: &[],
            input: LINES,
            most: 4,
            failing_read: *failing_read,
            failing_write: *failing_write,
            written: "",
            status: *status,
        };
        let program = Watched {
            limit: *limit,
            end: Cell::new(Refusals::new()),
        };
        let (ended, _) = case.of(rt.alloc(), &program, LINES.as_bytes().to_vec(rt.alloc())?)?;
        let refusals = program.end.replace(Refusals::new());
        assert!(rt; ended == *status, "the status at {limit}");
        assert!(rt; refusals.count == *count, "the count at {limit}");
        if let Some(first) = refusals.first {
            assert!(rt; first.number == 2);
            assert!(rt; first.line.as_bytes() == b"xyz".as_slice());
        }
    }
    Ok(())
}
