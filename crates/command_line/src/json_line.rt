//! Reports on standard error for programs: one JSON object on a line.
//!
//! A control character is escaped, so that the text of an input cannot move a terminal's cursor.

ghost use Rattle.std.specs.Prelude.{◌≡◌, ◌<◌};
ghost use Rattle.command_line.specs.JsonLine.{added};

use crate::report::{character_width, hex_digit};
use fixed_io::StdSink;
use itoa::Buffer;
use line_engine::{Status, write_text};
use text_buffer::TextBuffer;

/// How many characters of a file's name are shown: no longer path can be opened.
const MAX_NAME: usize = 4096;

/// The most bytes of a line: enough for a name of which every byte is escaped.
const MAX_LINE: usize = 40960;

/// An object of JSON, without the brace at its end.
#[derive(Drop)]
pub struct JsonLine {
    text: TextBuffer<MAX_LINE>,
}

impl JsonLine {
    /// Begins the object of an input: a file, or standard input, whose name is `-`.
    pub fn of(file: Option<&str>) -> JsonLine {
        let mut line = JsonLine {
            text: TextBuffer::new(),
        };
        line.push(b"{");
        line.string("file", file.unwrap_or("-").as_bytes(), MAX_NAME);
        line
    }

    /// Appends bytes if they and the end of the object fit.
    #[tactic(auto, unfolding(crate::specs::JsonLine::added))]
    fn push(&mut self, bytes: &[u8])
        ensures { self.new.text ≡ added self.old.text bytes.now }
    {
        if self.text.room() > bytes.len() + 1 {
            self.text.push_bytes(bytes);
        }
    }

    /// Appends a key, after a comma unless it is the first of its object.
    fn key(&mut self, key: &str) {
        if !self.text.as_bytes().ends_with(b"{") {
            self.push(b",");
        }
        self.push(b"\"");
        self.push(key.as_bytes());
        self.push(b"\":");
    }

    /// Appends a character by its code, which is below 256.
    fn escape(&mut self, code: u8) {
        self.push(&[
            b'\\',
            b'u',
            b'0',
            b'0',
            hex_digit(code / 16),
            hex_digit(code % 16),
        ]);
    }

    /// Appends the first character of `bytes` within a string, and returns the bytes after it. A byte that does not
    /// begin a UTF-8 character becomes U+FFFD.
    fn character<'t>(&mut self, bytes: &'t [u8]) -> &'t [u8] {
        let width = character_width(bytes);
        let (first, rest) = bytes.split_at(width.max(1).min(bytes.len()));
        match first {
            [_] if width == 0 => self.push(b"\\ufffd"),
            [b'"'] => self.push(b"\\\""),
            [b'\\'] => self.push(b"\\\\"),
            [byte] if byte.is_ascii_control() => self.escape(*byte),
            [0xc2, byte] if *byte < 0xa0 => self.escape(*byte),
            _ => self.push(first),
        }
        rest
    }

    /// Appends a member: the first `most` characters of `bytes` as a string.
    pub fn string(&mut self, key: &str, bytes: &[u8], most: usize) {
        self.key(key);
        self.push(b"\"");
        let mut rest = bytes;
        'characters: for count in 0..most {
            if rest.is_empty() {
                break;
            }
            rest = self.character(rest);
        }
        self.push(b"\"");
    }

    /// Appends a member: a number.
    pub fn number(&mut self, key: &str, number: u64) {
        self.key(key);
        let mut digits = Buffer::new();
        self.push(digits.format(number).as_bytes());
    }

    /// Appends a member without a value.
    pub fn null(&mut self, key: &str) {
        self.key(key);
        self.push(b"null");
    }

    /// Begins a member that is an object. `close` ends it.
    pub fn open(&mut self, key: &str) {
        self.key(key);
        self.push(b"{");
    }

    /// Ends a member that is an object.
    pub fn close(&mut self) {
        self.push(b"}");
    }

    /// Ends the object, and writes it to standard error.
    pub fn send(mut self, rt: &HostRuntime) {
        self.push(b"}");
        if self.text.room() > 0 {
            self.text.push(b'\n');
        }
        let mut errors = StdSink::new(rt.stderr());
        write_text(self.text.as_bytes(), Status::Done, &mut errors);
    }
}
