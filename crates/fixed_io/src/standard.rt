//! A source over any reader and a sink over any writer. They expose the bytes that the reader has left and that the
//! writer holds, if these are known: they are for readers and writers in memory, but not for the process's own streams.
//! The source does not expose what its reads requested.
//!
//! Each `Err` of the reader or the writer counts as a failure, even of an interrupted call: a program without signal
//! handlers has none. Bytes that a writer buffers, such as a `BufWriter`, are written only when its owner flushes it:
//! the programs pass a writer that does not buffer.
//!
//! A read or write that would block is a failure too. The programs cannot wait, since they have no handle that blocks,
//! and only the caller makes a stream non-blocking. Otherwise the system waits.

ghost use Rattle.std.specs.Prelude.{◌≡◌, ◌+◌, ◌-◌, ◌^◌, min, None};

use crate::newlines::newlines_in;
use line_engine::{Failed, Sink, Source};
use std::io::{Read, Write};

/// A source over a reader. It counts the failed reads.
#[derive(Drop)]
pub struct StdSource<R: Read> {
    reader: R,
    failures: u64,
}

impl<R: Read> StdSource<R> {
    /// A source over this reader, with no failed read so far.
    pub fn new(reader: R) -> Self
        ensures failures { result.failures ≡ 0 }
        ensures reader { result.reader ≡ reader }
    {
        StdSource {
            reader,
            failures: 0,
        }
    }
}

impl<R: Read> Source for StdSource<R> {
    ghost use Rattle.std.specs.Prelude.{◌≡◌, Ok, OnErr, length};
    ghost use Rattle.std.specs.Io.{ReadsAtMost};
    ghost use Rattle.std.specs.Io.KnownBytes.{ReadConsumes};
    ghost use Rattle.line_engine.specs.Failures.{FailsOnlyCounted};

    ghost left = { λ s. R.remaining s.reader };

    ghost failures = { λ s. s.failures };

    ghost asked = { λ s. None };

    /// Reads once; a buffer without room is left alone. An `Err` of the reader raises the count of failures by one.
    fn read(&mut self, buf: &mut [u8]) -> Result<usize, Failed>
        ensures bound { ReadsAtMost result buf.new }
        ensures bytes { ReadConsumes (R.remaining self.old.reader) (R.remaining self.new.reader) result buf.new }
        ensures empty { length buf.old ≡ 0 → result ≡ Ok 0 }
        ensures failures { FailsOnlyCounted self.old.failures self.new.failures result }
        ensures once { OnErr result (self.new.failures ≡ min (self.old.failures + 1) (2 ^ 64 - 1)) }
    {
        if buf.is_empty() {
            return Ok(0);
        }
        match self.reader.read(buf) {
            Ok(count) => Ok(count),
            Err(_) => {
                self.failures = self.failures.saturating_add(1);
                Err(Failed)
            }
        }
    }
}

/// A sink over a writer. It counts the failed writes and the newlines that the writer took.
#[derive(Drop)]
pub struct StdSink<W: Write> {
    writer: W,
    failures: u64,
    lines: u64,
}

impl<W: Write> StdSink<W> {
    /// A sink over this writer, with no failed write and no newline so far.
    pub fn new(writer: W) -> Self
        ensures failures { result.failures ≡ 0 }
        ensures lines { result.lines ≡ 0 }
        ensures writer { result.writer ≡ writer }
    {
        StdSink {
            writer,
            failures: 0,
            lines: 0,
        }
    }

    /// Returns how many newlines the writer took: the count of answered lines if each answer is a line. It stays at
    /// `u64::MAX`.
    pub fn lines(&self) -> u64
        ensures { result ≡ self.now.lines }
    {
        self.lines
    }

    /// Returns the writer.
    pub fn into_writer(self) -> W
        ensures { result ≡ self.writer }
    {
        self.writer
    }
}

impl<W: Write> Sink for StdSink<W> {
    ghost use Rattle.std.specs.Prelude.{◌<◌, IfOk, MatchResult, OnErr, length, take};
    ghost use Rattle.fixed_io.specs.Report.{newlines_of};
    ghost use Rattle.std.specs.Io.{WritesAtMost};
    ghost use Rattle.std.specs.Io.KnownBytes.{WriteAppends};
    ghost use Rattle.line_engine.specs.Failures.{FailsOnlyCounted};

    ghost written = { λ s. W.contents s.writer };

    ghost failures = { λ s. s.failures };

    /// Writes once. An `Err` of the writer raises the count of failures by one, and so does a write that takes no byte
    /// of a piece that is not empty. Counts the newlines in the bytes that the writer took.
    fn write(&mut self, piece: &[u8]) -> Result<usize, Failed>
        ensures bound { WritesAtMost result piece.now }
        ensures bytes { WriteAppends (W.contents self.old.writer) (W.contents self.new.writer) result piece.now }
        ensures progress { 0 < length piece.now → IfOk result (λ n. 0 < n) }
        ensures failures { FailsOnlyCounted self.old.failures self.new.failures result }
        ensures once { OnErr result (self.new.failures ≡ min (self.old.failures + 1) (2 ^ 64 - 1)) }
        ensures lines { MatchResult result
            (λ n. self.new.lines ≡ min (self.old.lines + newlines_of (take n piece.now)) (2 ^ 64 - 1))
            (λ e. self.new.lines ≡ self.old.lines) }
    {
        match self.writer.write(piece) {
            Ok(count) if count > 0 || piece.is_empty() => {
                let lines = newlines_in(&piece[..count]);
                self.lines = self.lines.saturating_add(lines as u64);
                Ok(count)
            }
            _ => {
                self.failures = self.failures.saturating_add(1);
                Err(Failed)
            }
        }
    }
}
