//! The output of a command, a writer that keeps its device's error for a report, and readers that skip a byte order
//! mark or a count of bytes, stop at a limit, or keep the first four bytes. Each exposes the bytes that its inner
//! reader or writer has left or holds, if these are known.

ghost use Rattle.std.specs.Prelude.{◌≡◌, ◌⊎◌, ◌+◌, [], IfOk, None, OnErr, Some, drop, is_some, option_map};
ghost use Rattle.std.specs.Io.{ReadsAtMost};
ghost use Rattle.std.specs.Io.KnownBytes.{Consumes, IsAtEnd, Keeps, ReadConsumes};
ghost use Rattle.csv.specs.Reading.{strip_bom};
ghost use Rattle.command_line.specs.Device.{byte_of, is_mark, is_part_of_mark, left_after_mark, left_after_skip};
ghost use Rattle.command_line.specs.Device.{left_within};

use std::cell::Cell;
use std::fs::File;
use std::io::{Error, ErrorKind, Read, Result, Stdout, Write};
use text_buffer::TextBuffer;

/// Where answers go.
#[derive(Drop)]
pub enum Output<S = Stdout, F = File> {
    /// Standard output.
    Standard(S),
    /// A file.
    File(F),
    /// Nowhere: there are no answers, since no input can be read.
    Nowhere,
}

impl<S: Write, F: Write> Write for Output<S, F> {
    ghost use Rattle.command_line.specs.Device.{written_to};

    ghost contents = { written_to S.contents F.contents };

    fn write(&mut self, buf: &[u8]) -> Result<usize> {
        match self {
            Output::Standard(out) => out.write(buf),
            Output::File(out) => out.write(buf),
            Output::Nowhere => Err(Error::from(ErrorKind::Other)),
        }
    }

    fn flush(&mut self) -> Result<()> {
        match self {
            Output::Standard(out) => out.flush(),
            Output::File(out) => out.flush(),
            Output::Nowhere => Ok(()),
        }
    }
}

/// The error of a device, if it failed.
pub type Failure = Cell<Option<Error>>;

/// Keeps the error and returns one of the same kind.
fn kept(failure: &Failure, error: Error) -> Error {
    let kind = error.kind();
    failure.set(Some(error));
    Error::from(kind)
}

/// A writer that keeps its error.
#[derive(Drop)]
pub struct Writer<'c, W> {
    pub writer: W,
    pub failure: &'c Failure,
}

impl<'c, W: Write> Write for Writer<'c, W> {
    ghost contents = { λ w. W.contents w.writer };

    fn write(&mut self, buf: &[u8]) -> Result<usize> {
        match self.writer.write(buf) {
            Ok(count) => Ok(count),
            Err(error) => Err(kept(self.failure, error)),
        }
    }

    fn flush(&mut self) -> Result<()> {
        match self.writer.flush() {
            Ok(()) => Ok(()),
            Err(error) => Err(kept(self.failure, error)),
        }
    }
}

/// Whether bytes are a proper prefix of a byte order mark.
fn is_part_of_mark(bytes: &[u8]) -> bool
    ensures { result ≡ is_part_of_mark bytes.now }
{
    match bytes {
        [] => true,
        [first] => *first == 0xef,
        [first, second] => *first == 0xef && *second == 0xbb,
        _ => false,
    }
}

/// Whether bytes are a byte order mark.
fn is_mark(bytes: &[u8]) -> bool
    ensures { result ≡ is_mark bytes.now }
{
    match bytes {
        [first, second, third] => *first == 0xef && *second == 0xbb && *third == 0xbf,
        _ => false,
    }
}

/// Reads the next byte, if any.
fn read_byte<R: Read>(reader: &mut R) -> Result<Option<u8>>
    ensures bytes { IfOk result (λ byte. Consumes (R.remaining reader.old) (R.remaining reader.new) (byte_of byte)) }
    ensures end { IfOk result (λ byte. byte ≡ None → IsAtEnd (R.remaining reader.new)) }
    ensures err { OnErr result (Keeps (R.remaining reader.old) (R.remaining reader.new)) }
{
    let mut byte = [0; 1];
    match reader.read(&mut byte) {
        Ok(0) => Ok(None),
        Ok(_) => Ok(Some(byte[0])),
        Err(error) => Err(error),
    }
}

/// A reader of a text that skips a byte order mark at its start.
#[derive(Drop)]
pub struct Unmarked<R> {
    reader: R,
    // The first bytes, unless they are a mark.
    head: TextBuffer<3>,
    // How many of them were returned; `None` while they are still read.
    given: Option<usize>,
}

impl<R: Read> Unmarked<R> {
    /// A reader of which nothing was read.
    pub fn new(reader: R) -> Self
        ensures { left_after_mark R.remaining result ≡ option_map strip_bom (R.remaining reader) }
    {
        Unmarked {
            reader,
            head: TextBuffer::new(),
            given: None,
        }
    }

    /// Reads the first bytes one at a time, and only as long as they match a mark, so that a typed line is answered.
    /// Returns how many of them were returned. After an error the next call continues with them.
    fn begin(&mut self) -> Result<usize>
        ensures same { Keeps (left_after_mark R.remaining self.old) (left_after_mark R.remaining self.new) }
        ensures given { IfOk result (λ count. self.new.given ≡ Some count) }
    {
        if let Some(count) = self.given {
            return Ok(count);
        }
        'head: while is_part_of_mark(self.head.as_bytes()) {
            match read_byte(&mut self.reader) {
                Ok(Some(byte)) => self.head.push(byte),
                Ok(None) => {
                    self.given = Some(0);
                    return Ok(0);
                }
                Err(error) => return Err(error),
            }
        }
        if is_mark(self.head.as_bytes()) {
            self.head.clear();
        }
        self.given = Some(0);
        Ok(0)
    }
}

impl<R: Read> Read for Unmarked<R> {
    ghost remaining = { left_after_mark R.remaining };

    fn read(&mut self, buf: &mut [u8]) -> Result<usize> {
        let count = match self.begin() {
            Ok(count) => count,
            Err(error) => return Err(error),
        };
        match self.head.as_bytes().get(count) {
            Some(byte) if !buf.is_empty() => {
                buf[0] = *byte;
                self.given = Some(count + 1);
                Ok(1)
            }
            _ => self.reader.read(buf),
        }
    }
}

/// How many bytes are skipped by one read.
const MOST_SKIPPED: usize = 4096;

/// A reader that skips the first bytes.
#[derive(Drop)]
pub struct Skipped<R> {
    reader: R,
    // How many bytes are still to be skipped.
    left: u64,
}

impl<R: Read> Skipped<R> {
    /// A reader that skips this many bytes.
    pub fn new(reader: R, count: u64) -> Self
        ensures { left_after_skip R.remaining result ≡ option_map (drop count) (R.remaining reader) }
    {
        Skipped {
            reader,
            left: count,
        }
    }

    /// Returns how many bytes were still to be skipped at the end of the input, or when a read failed.
    pub fn missing(&self) -> u64
        ensures { result ≡ self.now.left }
    {
        self.left
    }

    /// Reads the bytes to skip. After an error the next call continues with the others.
    fn skip(&mut self) -> Result<()>
        ensures same { Keeps (left_after_skip R.remaining self.old) (left_after_skip R.remaining self.new) }
        ensures end { IfOk result (λ _. (self.new.left ≡ 0) ⊎ IsAtEnd (R.remaining self.new.reader)) }
    {
        let mut bytes = [0; MOST_SKIPPED];
        'parts: while self.left > 0 {
            let most = self.left.min(MOST_SKIPPED as u64) as usize;
            match self.reader.read(&mut bytes[..most]) {
                Ok(0) => return Ok(()),
                Ok(count) => self.left -= count as u64,
                Err(error) => return Err(error),
            }
        }
        Ok(())
    }
}

impl<R: Read> Read for Skipped<R> {
    ghost remaining = { left_after_skip R.remaining };

    fn read(&mut self, buf: &mut [u8]) -> Result<usize> {
        match self.skip() {
            Ok(()) if self.left > 0 => Ok(0),
            Ok(()) => self.reader.read(buf),
            Err(error) => Err(error),
        }
    }
}

/// A reader that returns at most as many bytes as a limit. If there are more, the read after them takes one and fails.
#[derive(Drop)]
pub struct Limited<R> {
    reader: R,
    // How many bytes it may still return.
    left: u64,
    // The byte past the limit, once it was taken.
    past: Option<u8>,
}

impl<R: Read> Limited<R> {
    /// A reader of which nothing was read.
    pub fn new(reader: R, limit: u64) -> Self
        ensures bytes { left_within R.remaining result ≡ R.remaining reader }
        ensures limit { result.left ≡ limit }
        ensures past { result.past ≡ None }
    {
        Limited {
            reader,
            left: limit,
            past: None,
        }
    }

    /// Whether a read failed because there are more bytes than the limit.
    pub fn is_exceeded(&self) -> bool
        ensures { result ≡ is_some self.now.past }
    {
        self.past.is_some()
    }

    /// Reads at the limit: there is an end, or a byte too many.
    fn read_past(&mut self) -> Result<usize>
        requires past { self.old.past ≡ None }
        ensures none { IfOk result (λ count. count ≡ 0) }
        ensures end { IfOk result (λ _. (self.new.past ≡ None)
            × Consumes (R.remaining self.old.reader) (R.remaining self.new.reader) []
            × IsAtEnd (R.remaining self.new.reader)) }
        ensures err { OnErr result (Keeps (R.remaining self.old.reader) (left_within R.remaining self.new)) }
        ensures left { self.new.left ≡ self.old.left }
    {
        match read_byte(&mut self.reader) {
            Ok(None) => Ok(0),
            Ok(Some(byte)) => {
                self.past = Some(byte);
                Err(Error::from(ErrorKind::Other))
            }
            Err(error) => Err(error),
        }
    }
}

impl<R: Read> Read for Limited<R> {
    ghost remaining = { left_within R.remaining };

    fn read(&mut self, buf: &mut [u8]) -> Result<usize>
        ensures bound { ReadsAtMost result buf.new }
        ensures bytes { ReadConsumes (left_within R.remaining self.old) (left_within R.remaining self.new) result
            buf.new }
        ensures limit { IfOk result (λ count. self.new.left + count ≡ self.old.left) }
    {
        if let Some(_) = self.past {
            return Err(Error::from(ErrorKind::Other));
        }
        if self.left == 0 {
            return self.read_past();
        }
        let most = self.left.min(buf.len() as u64) as usize;
        match self.reader.read(&mut buf[..most]) {
            Ok(count) => {
                self.left -= count as u64;
                Ok(count)
            }
            Err(error) => Err(error),
        }
    }
}

/// A reader that keeps the first four bytes that it returns.
#[derive(Drop)]
pub struct Headed<R> {
    reader: R,
    head: TextBuffer<4>,
}

impl<R: Read> Headed<R> {
    /// A reader of which nothing was read.
    pub fn new(reader: R) -> Self
        ensures { R.remaining result.reader ≡ R.remaining reader }
    {
        Headed {
            reader,
            head: TextBuffer::new(),
        }
    }

    /// Returns the first bytes that were read, at most four.
    pub fn head(&self) -> &[u8]
        ensures { result.now ≡ self.now.head }
    {
        self.head.as_bytes()
    }
}

impl<R: Read> Read for Headed<R> {
    ghost remaining = { λ h. R.remaining h.reader };

    fn read(&mut self, buf: &mut [u8]) -> Result<usize> {
        match self.reader.read(buf) {
            Ok(count) => {
                let most = self.head.room().min(count);
                self.head.push_bytes(&buf[..most]);
                Ok(count)
            }
            Err(error) => Err(error),
        }
    }
}
