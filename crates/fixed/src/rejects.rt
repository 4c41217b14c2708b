//! The file that `--rejects` names: a line for each refused line.

ghost use Rattle.std.specs.Prelude.{◌≡◌, ◌&&◌};
ghost use Rattle.fixed.specs.Columns.{stopped_if};
ghost use Rattle.fixed.specs.Inputs.{end_of};

use crate::options::{OUTPUT, REJECTS};
use crate::output::{inputs_of, is_any_readable, is_one_file, open_path, path_of};
use column_engine::{ColumnEnd, Stop};
use command_line::device::{Failure, Output, Writer};
use command_line::given::{Asked, Given, Refusal};
use fixed_io::StdSink;
use line_engine::Status;
use line_rejects::Rejects;
use std::io::{self, Error, ErrorKind, Write};
use std::mem;

/// The sink of rejects.
pub type RejectSink<'c> = StdSink<Writer<'c, Output>>;

/// The rejects of a command, and the error of their device.
#[derive(Drop)]
pub struct RejectFile<'c, 'a> {
    /// The rejects.
    pub rejects: Rejects<'a, RejectSink<'c>>,
    /// The error of their device, if it failed.
    pub failure: &'c Failure,
    /// Whether there is a file for them.
    has_file: bool,
    /// Whether each line names its input.
    has_names: bool,
}

impl<'c, 'a> RejectFile<'c, 'a> {
    /// Rejects that go nowhere.
    pub fn none(failure: &'c Failure) -> RejectFile<'c, 'a> {
        let rejects: Rejects<'a, RejectSink<'c>> = Rejects::none();
        RejectFile {
            rejects,
            failure,
            has_file: false,
            has_names: false,
        }
    }

    /// Whether a write of rejects failed.
    pub fn has_failed(&self) -> bool
        ensures { result ≡ (self.now.has_file && self.now.rejects.has_failed) }
    {
        self.has_file && self.rejects.has_failed()
    }

    /// Begins an input with this name.
    pub fn begin(&mut self, name: &'a str) {
        let shown = if self.has_names {
            Some(name.as_bytes())
        } else {
            None
        };
        self.rejects.name_input(shown);
    }

    /// Takes the rejects, for a run that keeps them.
    pub fn take(&mut self) -> Rejects<'a, RejectSink<'c>>
        ensures value { result ≡ self.old.rejects }
        ensures file { self.new.has_file ≡ self.old.has_file }
    {
        let none: Rejects<'a, RejectSink<'c>> = Rejects::none();
        mem::replace(&mut self.rejects, none)
    }

    /// Takes the rejects of a run over columns back, and writes the gathered lines. Returns how that run ended.
    pub fn end_columns(
        &mut self,
        rejects: Rejects<'a, RejectSink<'c>>,
        mut end: ColumnEnd,
    ) -> ColumnEnd
        ensures { result ≡ stopped_if (self.old.has_file && self.new.rejects.has_failed) end }
    {
        self.rejects = rejects;
        self.rejects.flush();
        if self.has_failed() {
            end.stop = Stop::WriteFault;
        }
        end
    }

    /// Takes the rejects of a run back, and writes the gathered lines. Returns the status of the input, from the status
    /// of the run.
    pub fn end_with(&mut self, rejects: Rejects<'a, RejectSink<'c>>, status: Status) -> Status
        ensures { result ≡ end_of (self.old.has_file && self.new.rejects.has_failed) status }
    {
        self.rejects = rejects;
        self.end(status)
    }

    /// Returns the error of the rejects' device if a write of rejects failed, else the other one.
    pub fn failure_or<'f>(&self, other: &'f Failure) -> &'f Failure
    where
        'c: 'f,
    {
        if self.has_failed() {
            self.failure
        } else {
            other
        }
    }

    /// Writes the gathered lines at the end of an input. Returns the status of the input, of which this is the status
    /// so far.
    pub fn end(&mut self, status: Status) -> Status
        ensures { result ≡ end_of (self.old.has_file && self.new.rejects.has_failed) status }
    {
        self.rejects.flush();
        if self.has_failed() {
            Status::WriteFault
        } else {
            status
        }
    }
}

/// Whether the output that the option names is this file.
fn is_output(rt: &HostRuntime, given: &Given<'_, '_>, path: &str) -> bool {
    given
        .value(&OUTPUT)
        .is_some_and(|output| output == path || is_one_file(rt, output, path))
}

/// Refuses a file for rejects that is an input or the output as well.
pub fn refuse_rejects<'a>(
    rt: &HostRuntime,
    given: &Given<'_, 'a>,
    files: &[&'a str],
) -> Asked<'a, ()> {
    let path = match given.value(&REJECTS) {
        Some(path) => path,
        None => return Ok(()),
    };
    let is_input = inputs_of(files)
        .iter()
        .any(|input| is_one_file(rt, path_of(input), path));
    if path == "-" {
        Err(Refusal::Word(
            path,
            "is not a file for rejects: answers go to standard output",
        ))
    } else if is_input {
        Err(Refusal::Word(path, "is an input: rejects cannot go there as well"))
    } else if is_output(rt, given, path) {
        Err(Refusal::Word(path, "is the output: rejects cannot go there as well"))
    } else {
        Ok(())
    }
}

/// Opens the file for the rejects of these files, or of standard input if there are none. It is opened before they are
/// read, and stays unchanged if none of them can be read.
///
/// # Errors
///
/// The output, which is open by then, is refused.
pub fn open_rejects<'c, 'a>(
    rt: &HostRuntime,
    given: &Given<'_, 'a>,
    files: &[&'a str],
    failure: &'c Failure,
) -> Asked<'a, Result<RejectFile<'c, 'a>, Status>> {
    let path = match given.value(&REJECTS) {
        Some(path) if is_any_readable(rt, inputs_of(files)) => path,
        _ => return Ok(Ok(RejectFile::none(failure))),
    };
    refuse_rejects(rt, given, files)?;
    match open_path(rt, Some(path)) {
        Ok(writer) => Ok(Ok(RejectFile {
            rejects: Rejects::to(StdSink::new(Writer { writer, failure })),
            failure,
            has_file: true,
            has_names: files.len() > 1,
        })),
        Err(status) => Ok(Err(status)),
    }
}

/// A writer of answers that fails once the device of the rejects failed, so that the run ends.
#[derive(Drop)]
pub struct Guarded<'c, W> {
    pub writer: W,
    pub failure: &'c Failure,
}

impl<'c, W: Write> Write for Guarded<'c, W> {
    ghost contents = { λ w. W.contents w.writer };

    fn write(&mut self, buf: &[u8]) -> io::Result<usize> {
        let error = self.failure.take();
        let has_failed = error.is_some();
        self.failure.set(error);
        if has_failed {
            return Err(Error::from(ErrorKind::Other));
        }
        self.writer.write(buf)
    }

    fn flush(&mut self) -> io::Result<()> {
        self.writer.flush()
    }
}
