//! Where the records of a text begin, and what reports need of its header.

ghost use Rattle.std.specs.Prelude.{◌≡◌};
ghost use Rattle.column_engine.specs.Seen.{place_in};

use crate::watch::FieldPlace;
use memchr::memchr;
use text_buffer::TextBuffer;

/// How many bytes of a header are kept.
const KEPT_HEADER: usize = 4096;

/// The records of a text up to the current one, and the observer of their fields.
#[derive(Drop)]
pub struct Records<W> {
    /// The first bytes of the header, once it is read.
    pub header: Option<TextBuffer<KEPT_HEADER>>,
    /// The index of the operand that was last looked up in the header.
    pub word: usize,
    /// The observer of the answered fields.
    pub observer: W,
    line: u64,
    next_line: u64,
    record: u64,
    is_after_return: bool,
}

/// Counts the newlines in the bytes.
fn newlines_in(bytes: &[u8]) -> u64 {
    let mut rest = bytes;
    let mut count = 0u64;
    'newlines: while let Some(at) = memchr(b'\n', rest) {
        count = count.saturating_add(1);
        rest = &rest[at + 1..];
    }
    count
}

impl<W> Records<W> {
    /// The state before the first record of a text whose first line has this number.
    pub(crate) fn new(line: u64, observer: W) -> Records<W> {
        Records {
            header: None,
            word: 0,
            observer,
            line,
            next_line: line,
            record: 0,
            is_after_return: false,
        }
    }

    /// Returns the position of a field of the current record.
    pub(crate) fn place(&self, column: usize) -> FieldPlace
        ensures { result ≡ place_in self.now column }
    {
        FieldPlace {
            record: self.record,
            line: self.line,
            column,
        }
    }

    /// Begins a record or an empty line. A newline after a carriage return does not end another line. A plain record
    /// has no newline.
    #[inline]
    pub(crate) fn begin_row(&mut self, body: &[u8], end: &[u8], is_plain: bool)
        ensures { self.new.observer ≡ self.old.observer }
    {
        let is_second = self.is_after_return && body.is_empty() && end == b"\n".as_slice();
        self.is_after_return = end == b"\r".as_slice();
        self.line = self.next_line;
        if !body.is_empty() {
            self.record = self.record.saturating_add(1);
        }
        if !is_second {
            let within = if is_plain { 0 } else { newlines_in(body) };
            self.next_line = self.line.saturating_add(within).saturating_add(1);
        }
    }

    /// Keeps the header, which is the current record.
    pub(crate) fn keep_header(&mut self, body: &[u8])
        ensures { self.new.observer ≡ self.old.observer }
    {
        let mut header = TextBuffer::new();
        header.push_bytes(&body[..KEPT_HEADER.min(body.len())]);
        self.header = Some(header);
    }
}
