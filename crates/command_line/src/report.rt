//! Reports on standard error: one line each, without control characters.
//!
//! So the text of an input can neither move a terminal's cursor nor break a message. The byte that makes a numeral
//! invalid is one byte, so it is shown by its digits even if it is part of a longer character.

ghost use Rattle.std.specs.Prelude.{◌≡◌, ℕ, decimal, drop, max, option_map, take};
ghost use Rattle.command_line.specs.Said.{IsBegun, IsFirstPart, IsWidth, Shows, first_line, pushed, shown};

use crate::device::Failure;
use fixed_io::StdSink;
use itoa::Buffer;
use line_engine::{Status, write_text};
use line_rejects::first_shown;
pub use line_rejects::{character_width, hex_digit};
use memchr::memchr;
use std::alloc::Global;
use std::io::{Error, ErrorKind};
use text_buffer::TextBuffer;

/// Returns the part of a file's name in reports: its first characters that fit in 256 bytes.
fn first_part(name: &str) -> &str
    ensures { IsFirstPart name.now result.now }
{
    'ends: for end in [256, 255, 254, 253] {
        if let Some(first) = name.get(..end) {
            return first;
        }
    }
    name
}

/// A line for standard error.
#[derive(Drop)]
pub struct Report {
    line: TextBuffer<1024>,
}

impl Report {
    /// Begins a report of an input: a file, or standard input.
    pub fn of(file: Option<&str>) -> Report
        ensures { IsBegun (option_map (λ s. s.now) file.entry) result.line }
    {
        let mut line = TextBuffer::new();
        line.push_bytes(b"fixed");
        let mut report = Report { line };
        if let Some(file) = file {
            report.text(": ");
            report.name(first_part(file).as_bytes(), 256);
        }
        report.text(": ");
        report
    }

    /// Appends bytes if they and a newline fit.
    #[tactic(auto, unfolding(crate::specs::Said::pushed))]
    fn push(&mut self, bytes: &[u8])
        ensures { self.new.line ≡ pushed self.old.line bytes.now }
    {
        if self.line.room() > bytes.len() {
            self.line.push_bytes(bytes);
        }
    }

    /// Appends the first character of `bytes` in readable form, and returns the bytes after it. A control character is
    /// shown as `?`, and a byte that does not begin a UTF-8 character as `\x` and two hexadecimal digits.
    fn character<'t>(&mut self, bytes: &'t [u8]) -> &'t [u8]
        ensures { (width : ℕ) × IsWidth bytes.now width × (result.now ≡ drop (max width 1) bytes.now)
            × (self.new.line ≡ pushed self.old.line (shown width (take (max width 1) bytes.now))) }
    {
        let (first, rest) = first_shown(bytes);
        self.push(first.as_bytes());
        rest
    }

    /// Appends the first `most` characters of `bytes`, with a newline like any other control character.
    pub fn name(&mut self, bytes: &[u8], most: usize)
        ensures { Shows most bytes.now self.old.line self.new.line }
    {
        let mut rest = bytes;
        'characters: for count in 0..most {
            if rest.is_empty() {
                return;
            }
            rest = self.character(rest);
        }
    }

    /// Appends the first `most` characters of `bytes`, up to a newline.
    pub fn bytes(&mut self, bytes: &[u8], most: usize)
        ensures { Shows most (first_line bytes.now) self.old.line self.new.line }
    {
        match memchr(b'\n', bytes) {
            Some(end) => self.name(&bytes[..end], most),
            None => self.name(bytes, most),
        }
    }

    /// Appends a text.
    pub fn text(&mut self, text: &str)
        ensures { Shows 1024 (first_line text.now) self.old.line self.new.line }
    {
        self.bytes(text.as_bytes(), 1024);
    }

    /// Appends how to get help for a command, or for all of them if its name is empty.
    pub fn end_with_help(&mut self, command: &str) {
        self.text("; try 'fixed ");
        self.text(command);
        if !command.is_empty() {
            self.text(" ");
        }
        self.text("--help'");
    }

    /// Appends a number.
    pub fn number(&mut self, number: u64)
        ensures { Shows 1024 (first_line (decimal number)) self.old.line self.new.line }
    {
        let mut digits = Buffer::new();
        self.text(digits.format(number));
    }

    /// Writes the report to standard error.
    pub fn send(mut self, rt: &HostRuntime) {
        if self.line.room() > 0 {
            self.line.push(b'\n');
        }
        let mut errors = StdSink::new(rt.stderr());
        write_text(self.line.as_bytes(), Status::Done, &mut errors);
    }
}

/// Reports on standard error why a command line is refused, and how to get help.
pub fn refuse(rt: &HostRuntime, command: &str, words: &[&str]) -> Status {
    let mut report = Report::of(None);
    for word in words {
        report.text(word);
    }
    report.end_with_help(command);
    report.send(rt);
    Status::Usage
}

/// Reports on standard error that there is no memory for a command line.
pub fn report_no_memory(rt: &HostRuntime) -> Status {
    let mut report = Report::of(None);
    report.text("there is no memory, lines answered: 0");
    report.send(rt);
    Status::NoMemory
}

/// Returns why a run failed with this status; empty for `Done`, `Faults` and `Usage`.
fn cause_of(status: Status) -> &'static str {
    match status {
        Status::Done | Status::Faults | Status::Usage => "",
        Status::ReadFault => "a read failed",
        Status::WriteFault => "a write failed",
        Status::NoMemory => "there is no memory",
        Status::TooLong => "the input is longer than the limit",
    }
}

/// Returns the message of a device's error without the system's number at its end.
fn without_number(words: &str) -> &str {
    match words.split_once(" (os error ") {
        Some((bare, _number)) => bare,
        None => words,
    }
}

/// Appends the message of a device's error.
pub fn push_words(report: &mut Report, alloc: Global, error: &Error) {
    if let Ok(words) = error.to_string(alloc) {
        report.text(without_number(&words));
    }
}

/// Whether a device failed because its reader is gone, which is not reported.
pub fn is_broken_pipe(error: &Option<Error>) -> bool {
    match error {
        Some(error) => error.kind() == ErrorKind::BrokenPipe,
        None => false,
    }
}

/// Reports on standard error why a run over an input or over operands failed, and how many lines were written.
pub fn report_end(
    rt: &HostRuntime,
    file: Option<&str>,
    status: Status,
    written: u64,
    failure: &Failure,
) {
    let cause = cause_of(status);
    let error = failure.take();
    if cause.is_empty() || is_broken_pipe(&error) {
        return;
    }
    let mut report = Report::of(file);
    report.text(cause);
    if let Some(error) = &error {
        report.text(": ");
        push_words(&mut report, rt.alloc(), error);
    }
    report.text(", lines answered: ");
    report.number(written);
    report.send(rt);
}
