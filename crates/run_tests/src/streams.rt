//! The adapters, over a reader and a writer that fail at one call and count their calls, and in a run of lines.

use crate::runs::{ANSWERS, LINES};
use fixed_io::{StdSink, StdSource};
use fixed_respell::run;
use fixed_steps::Steps;
use line_engine::{
    Failed, MemoryProgram, MemoryRun, MemorySink, MemorySource, Sink, Source, Status,
};
use std::alloc::Global;
use std::io;
use std::io::{ErrorKind, Read, Write};
use std::process::Abort;
use std::sync::ledger::Ledger;
use std::test::Fail;

/// How many calls of a source or a sink a test makes.
const CALLS: u64 = 5;

/// Two errors that may pass after a while, and one that does not.
const KINDS: [ErrorKind; 3] = [
    ErrorKind::Interrupted,
    ErrorKind::WouldBlock,
    ErrorKind::BrokenPipe,
];

/// A reader of zeros and a writer to nowhere that fails at the call with this number, and counts its calls.
#[derive(Drop)]
struct Counted {
    calls: u64,
    failing: u64,
    kind: ErrorKind,
}

impl Counted {
    /// Counts a call, which moves at most two bytes, or fails.
    fn call(&mut self, len: usize) -> io::Result<usize> {
        let call = self.calls;
        self.calls = call.saturating_add(1);
        if call == self.failing {
            return Err(io::Error::from(self.kind));
        }
        Ok(len.min(2))
    }
}

impl Read for Counted {
    fn read(&mut self, buf: &mut [u8]) -> io::Result<usize> {
        match self.call(buf.len()) {
            Ok(count) => Ok(count.min(buf.len())),
            Err(error) => Err(error),
        }
    }
}

impl Write for Counted {
    fn write(&mut self, buf: &[u8]) -> io::Result<usize> {
        match self.call(buf.len()) {
            Ok(count) => Ok(count.min(buf.len())),
            Err(error) => Err(error),
        }
    }

    fn flush(&mut self) -> io::Result<()> {
        Ok(())
    }
}

/// Asserts that each read of a source is one call of its reader, including the one that fails.
fn assert_one_read_each(rt: &impl Abort, failing: u64, kind: ErrorKind) {
    let mut reader = Counted {
        calls: 0,
        failing,
        kind,
    };
    let mut piece = [0u8; 8];
    for call in 0..CALLS {
        let result = StdSource::new(&mut reader).read(&mut piece);
        assert_eq!(rt; reader.calls, call + 1);
        assert_eq!(rt; result.is_err(), call == failing);
    }
    let none = StdSource::new(&mut reader).read(&mut []);
    assert_eq!(rt; none, Ok(0));
    assert_eq!(rt; reader.calls, CALLS);
}

/// Asserts that each write of a sink is one call of its writer, including the one that fails.
fn assert_one_write_each(rt: &impl Abort, failing: u64, kind: ErrorKind) {
    let mut writer = Counted {
        calls: 0,
        failing,
        kind,
    };
    for call in 0..CALLS {
        let result = StdSink::new(&mut writer).write(b"piece");
        assert_eq!(rt; writer.calls, call + 1);
        assert_eq!(rt; result.is_err(), call == failing);
    }
}

#[test]
fn each_read_is_one_call_of_the_reader(rt: HostRuntime) {
    for failing in 0..CALLS {
        for kind in &KINDS {
            assert_one_read_each(&rt, failing, *kind);
        }
    }
}

#[test]
fn each_write_is_one_call_of_the_writer(rt: HostRuntime) {
    for failing in 0..CALLS {
        for kind in &KINDS {
            assert_one_write_each(&rt, failing, *kind);
        }
    }
}

#[test]
fn a_failed_device_shows_its_words(rt: HostRuntime) -> Result<(), Fail> {
    let words = format!(in rt.alloc(); "{Failed}")?;
    assert!(rt; words.as_str() == "device failed");
    Ok(())
}

/// The program of lines over the adapters. Its output then goes to the sink in memory.
#[derive(Drop)]
struct Adapted;

impl MemoryProgram for Adapted {
    fn run<L: Ledger>(
        &self,
        alloc: Global,
        args: &[String],
        _source: &mut MemorySource,
        sink: &mut MemorySink,
        steps: &mut Steps<L>,
    ) -> Status {
        let mut written = Vec::new(alloc);
        let mut source = StdSource::new(LINES.as_bytes());
        let status = run(
            alloc,
            args,
            &mut source,
            &mut StdSink::new(&mut written),
            steps,
        );
        match sink.write(written.as_slice()) {
            Ok(_) => status,
            Err(_) => Status::WriteFault,
        }
    }
}

#[test]
fn lines_are_answered_through_the_adapters(rt: HostRuntime) -> Result<(), Fail> {
    let alloc = rt.alloc();
    let case = MemoryRun::unfailing(&[], LINES, ANSWERS[3], Status::Faults);
    let (status, written) = case.of(alloc, &Adapted, Vec::new(alloc))?;
    assert!(rt; status == case.status);
    assert!(rt; written.as_slice() == case.written.as_bytes());
    Ok(())
}
