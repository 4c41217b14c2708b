//! The refusal of a whole input: for which line, and why.

ghost use Rattle.std.specs.Prelude.{◌≡◌, ◌≤◌, ◌-◌, [], List, ℕ, IfOk, get_or, length, take};
ghost use Rattle.line_engine.specs.Lines.{lines};
ghost use Rattle.line_engine.specs.Refusals.{line_at, refusal_text, written_refusal};

use crate::text_lines::first_line;
use itoa::Buffer;
use std::alloc::{AllocError, Global};
use text_buffer::TextBuffer;

/// How many bytes of a refused line are kept.
const KEPT: usize = 160;

/// The line for which an input is refused.
#[derive(Drop)]
pub struct WholeRefusal {
    /// Its number, from 1.
    pub number: u64,
    /// Its first 160 bytes.
    pub line: TextBuffer<KEPT>,
    /// The cause.
    pub cause: Vec<u8>,
}

/// Returns the line of an input after this many lines, or no bytes if there is none.
fn line_after(input: &[u8], before: u64) -> &[u8]
    ensures { result.now ≡ get_or (lines input.now) before [] }
{
    let mut rest = input;
    let mut left = before;
    while !rest.is_empty() {
        let (line, later) = first_line(rest);
        if left == 0 {
            return line;
        }
        left -= 1;
        rest = later;
    }
    &[]
}

/// Returns the first bytes of a line.
fn first_bytes(line: &[u8]) -> TextBuffer<KEPT>
    ensures { result ≡ take 160 line.now }
{
    let mut text = TextBuffer::new();
    let count = KEPT.min(line.len());
    text.push_bytes(&line[..count]);
    text
}

impl WholeRefusal {
    /// Returns the refusal of an input for the line of this number.
    pub(crate) fn new(input: &[u8], number: u64, cause: Vec<u8>) -> WholeRefusal
        ensures number { result.number ≡ number }
        ensures line { result.line ≡ take 160 (line_at number input.now) }
        ensures cause { result.cause ≡ cause }
    {
        WholeRefusal {
            number,
            line: first_bytes(line_after(input, number.saturating_sub(1))),
            cause,
        }
    }
}

/// Returns the text that is written for an input that is refused for the line of this number.
fn refusal_text(alloc: Global, number: u64, cause: &[u8]) -> Result<Vec<u8>, AllocError>
    ensures { IfOk result (λ text. text.items ≡ refusal_text number cause.now) }
{
    let mut digits = Buffer::new();
    let mut text = Vec::new(alloc);
    text.extend_from_slice(b"error: line ")?;
    text.extend_from_slice(digits.format(number).as_bytes())?;
    text.extend_from_slice(b": ")?;
    text.extend_from_slice(cause)?;
    text.push(b'\n')?;
    Ok(text)
}

/// Returns that text, or none if refusals are not written.
pub(crate) fn written_refusal(
    alloc: Global,
    is_written: bool,
    number: u64,
    cause: &[u8],
) -> Result<Vec<u8>, AllocError>
    ensures { IfOk result (λ text. text.items ≡ written_refusal is_written number cause.now) }
{
    if is_written {
        refusal_text(alloc, number, cause)
    } else {
        Ok(Vec::new(alloc))
    }
}
