//! The output for answers: standard output, or the file that an option names.
//!
//! The file is not written under another name and then renamed: that would turn a device into a file, and lose the
//! owner and the links of a file.

use crate::options::OUTPUT;
use command_line::device::Output;
use command_line::given::{Asked, Given, Refusal};
use command_line::report::{Report, push_words};
use line_engine::Status;
use std::fs::File;
use std::io::Write;
use std::os::unix::fs::{FileTypeExt, MetadataExt};
use std::{fs, io};

/// Returns the path of an input: standard input is `-`.
pub fn path_of(input: &str) -> &str {
    if input == "-" { "/dev/stdin" } else { input }
}

/// Whether two paths are the same existing file, other than a character device, which holds nothing to be lost.
pub fn is_one_file(rt: &HostRuntime, one: &str, other: &str) -> bool {
    match (fs::metadata(rt, one), fs::metadata(rt, other)) {
        (Ok(one), Ok(other)) => {
            let is_device = one.file_type().is_char_device();
            !is_device && one.dev() == other.dev() && one.ino() == other.ino()
        }
        _ => false,
    }
}

/// Whether an input can be read: it is not a folder, and a regular file can be opened. Other inputs are opened once, by
/// their run, since a pipe that is opened and closed is lost.
fn is_readable(rt: &HostRuntime, input: &str) -> bool {
    match fs::metadata(rt, path_of(input)) {
        Ok(found) if found.is_dir() => false,
        Ok(found) if found.is_file() && input != "-" => File::open(rt, input).is_ok(),
        Ok(_) => true,
        Err(_) => input == "-",
    }
}

/// Opens the output with this path. A file is created anew.
fn created(rt: &HostRuntime, path: Option<&str>) -> io::Result<Output> {
    match path {
        None | Some("-") => Ok(Output::Standard(rt.stdout())),
        Some(path) => Ok(Output::File(File::create(rt, path)?)),
    }
}

/// Opens the output that the option names, for answers to operands. A file is created anew; if that fails, standard
/// error says why, and the status is that of a failed write.
pub fn open_answers(rt: &HostRuntime, given: &Given<'_, '_>) -> Result<Output, Status> {
    open_path(rt, given.value(&OUTPUT))
}

/// Opens the output with this path as `open_answers` does.
pub fn open_path(rt: &HostRuntime, path: Option<&str>) -> Result<Output, Status> {
    match created(rt, path) {
        Ok(output) => Ok(output),
        Err(error) => {
            let mut report = Report::of(path);
            push_words(&mut report, rt.alloc(), &error);
            report.send(rt);
            Err(Status::WriteFault)
        }
    }
}

/// The output that the option names, opened when the first byte is written: a file is created anew only then.
#[derive(Drop)]
pub struct LateOutput<'r, 'a> {
    rt: &'r HostRuntime,
    path: Option<&'a str>,
    output: Option<Output>,
}

impl<'r, 'a> LateOutput<'r, 'a> {
    /// The output that the option names, not yet opened.
    pub fn new(rt: &'r HostRuntime, given: &Given<'_, 'a>) -> LateOutput<'r, 'a> {
        LateOutput {
            rt,
            path: given.value(&OUTPUT),
            output: None,
        }
    }

    /// Returns the path of the file, if the option names one.
    pub fn file(&self) -> Option<&'a str> {
        match self.path {
            Some("-") => None,
            path => path,
        }
    }

    /// Opens the output, unless it is open.
    pub fn open(&mut self) -> io::Result<()> {
        if self.output.is_none() {
            self.output = Some(created(self.rt, self.path)?);
        }
        Ok(())
    }
}

impl<'r, 'a> Write for LateOutput<'r, 'a> {
    fn write(&mut self, buf: &[u8]) -> io::Result<usize> {
        self.open()?;
        match &mut self.output {
            Some(output) => output.write(buf),
            None => Ok(0),
        }
    }

    fn flush(&mut self) -> io::Result<()> {
        match &mut self.output {
            Some(output) => output.flush(),
            None => Ok(()),
        }
    }
}

/// Refuses an output that is an input as well: it would be empty before it is read.
pub fn refuse_input<'a>(
    rt: &HostRuntime,
    given: &Given<'_, 'a>,
    inputs: &[&'a str],
) -> Asked<'a, ()> {
    match given.value(&OUTPUT) {
        Some(path)
            if path != "-"
                && inputs
                    .iter()
                    .any(|input| is_one_file(rt, path_of(input), path)) => {
            Err(Refusal::Word(path, "is an input: it cannot be the output as well"))
        }
        _ => Ok(()),
    }
}

/// Returns the inputs of a command with these files: standard input if there are none.
pub fn inputs_of<'f, 'a>(files: &'f [&'a str]) -> &'f [&'a str] {
    if files.is_empty() { &["-"] } else { files }
}

/// Whether one of these inputs can be read.
pub fn is_any_readable(rt: &HostRuntime, inputs: &[&str]) -> bool {
    inputs.iter().any(|input| is_readable(rt, input))
}

/// Opens the output that the option names, for answers to files, or to standard input if there are none. It is opened
/// before they are read, and stays unchanged if none of them can be read.
///
/// # Errors
///
/// A file that is an input as well is refused.
pub fn open_output<'a>(
    rt: &HostRuntime,
    given: &Given<'_, 'a>,
    files: &[&'a str],
) -> Asked<'a, Result<Output, Status>> {
    let inputs = inputs_of(files);
    refuse_input(rt, given, inputs)?;
    if given.value(&OUTPUT).is_some() && !is_any_readable(rt, inputs) {
        return Ok(Ok(Output::Nowhere));
    }
    Ok(open_answers(rt, given))
}
