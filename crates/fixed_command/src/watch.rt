//! The refused lines that a report names.

ghost use Rattle.std.specs.Prelude.{◌≡◌, ◌==◌, None, length, take};
ghost use Rattle.fixed_command.specs.Watched.{count_told, first_told, kept_bytes};

use crate::blocks::first_bytes;
use line_engine::WholeRefusal;
use text_buffer::TextBuffer;

/// How many bytes of a line, and of the cause of its refusal, are kept.
const KEPT: usize = 160;

/// A refused line.
#[derive(Drop)]
pub struct RefusedLine {
    /// Its number, from 1.
    pub number: u64,
    /// Its first bytes.
    pub text: TextBuffer<KEPT>,
    /// The cause of its refusal.
    pub cause: TextBuffer<KEPT>,
}

impl RefusedLine {
    /// Returns the line with this number, with text and cause cut.
    pub fn new(number: u64, text: &[u8], cause: &[u8]) -> RefusedLine
        ensures { result ≡ record {
          number = number;
          text = take kept_bytes text.now;
          cause = take kept_bytes cause.now;
        } }
    {
        RefusedLine {
            number,
            text: kept(text),
            cause: kept(cause),
        }
    }

    /// Whether the line may have more bytes than are kept.
    pub fn is_cut(&self) -> bool
        ensures { result ≡ (length self.now.text == kept_bytes) }
    {
        self.text.len() == KEPT
    }
}

/// Returns the bytes, cut to the kept length.
fn kept(bytes: &[u8]) -> TextBuffer<KEPT>
    ensures { result ≡ take kept_bytes bytes.now }
{
    let mut text = TextBuffer::new();
    text.push_bytes(first_bytes(bytes, KEPT));
    text
}

/// The refused lines of an input: their count, and the first.
#[derive(Drop)]
pub struct Refusals {
    /// How many lines.
    pub count: u64,
    /// The first, if there is one.
    pub first: Option<RefusedLine>,
}

impl Refusals {
    /// Returns no refused lines.
    pub fn new() -> Refusals
        ensures count { result.count ≡ 0 }
        ensures first { result.first ≡ None }
    {
        Refusals {
            count: 0,
            first: None,
        }
    }

    /// Returns the refusal of a whole input, if it was refused.
    pub fn of_whole(refusal: &Option<WholeRefusal>) -> Refusals
        ensures count { result.count ≡ count_told refusal.now }
        ensures first { result.first ≡ first_told refusal.now }
    {
        match refusal {
            None => Refusals::new(),
            Some(line) => Refusals {
                count: 1,
                first: Some(RefusedLine::new(
                    line.number,
                    line.line.as_bytes(),
                    line.cause.as_slice(),
                )),
            },
        }
    }
}
