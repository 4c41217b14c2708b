//! What is kept of refused lines for their report.

ghost use Rattle.std.specs.Prelude.{◌≡◌, None, take};
ghost use Rattle.fixed_command.specs.FieldRejects.{cause_in};
ghost use Rattle.json_lines.specs.Told.{IsWithin, first_after, most_kept, refusal_of, refused_after, report_of};
ghost use Rattle.line_engine.specs.Memory.{next_count};

use crate::answer::Refused;
use crate::piece::{content, is_string};
use text_buffer::TextBuffer;

/// How many bytes of a refused text and of its cause are kept.
pub const MAX_KEPT: usize = 160;

/// The first refused line.
#[derive(Drop)]
pub struct JsonRefusal {
    /// Its number, from 1.
    pub number: u64,
    /// The position of the refused value in it, from 1; or 0, if the line is refused as a whole.
    pub byte: u64,
    /// The position in it, from 1, at which a line that is not JSON stops being so; or 0.
    pub stop: u64,
    /// The first bytes of the value or of the line.
    pub text: TextBuffer<MAX_KEPT>,
    /// Whether that is all of it.
    pub is_whole: bool,
    /// The first bytes of the cause.
    pub cause: TextBuffer<MAX_KEPT>,
}

/// The refused lines: their count, which stays at `u64::MAX`, and the first of them.
#[derive(Drop)]
pub struct JsonRefusals {
    /// How many lines ended; the count stays at `u64::MAX`.
    lines: u64,
    pub count: u64,
    pub first: Option<JsonRefusal>,
}

/// Returns the first bytes of a text.
#[tactic(auto, using(std::proofs::lemmas::List::take_min))]
fn first_bytes(text: &[u8]) -> TextBuffer<MAX_KEPT>
    ensures { result ≡ take most_kept text.now }
{
    let mut first = TextBuffer::new();
    let count = MAX_KEPT.min(text.len());
    first.push_bytes(&text[..count]);
    first
}

/// Returns the report of a refused text.
fn refusal_of(number: u64, byte: u64, stop: u64, text: &[u8], cause: &[u8]) -> JsonRefusal
    ensures { result ≡ refusal_of number byte stop text.now cause.now }
{
    JsonRefusal {
        number,
        byte,
        stop,
        text: first_bytes(text),
        is_whole: text.len() <= MAX_KEPT,
        cause: first_bytes(cause),
    }
}

/// Returns the cause in the reply to a refused value.
fn cause_in(reply: &[u8]) -> &[u8]
    ensures { result.now ≡ cause_in reply.now }
{
    match reply.strip_prefix(b"error: ".as_slice()) {
        Some(cause) => cause,
        None => reply,
    }
}

/// Returns the report of a refused line, if it is refused.
fn report_of(
    number: u64,
    refused: Refused,
    stop: u64,
    line: &[u8],
    reply: &[u8],
) -> Option<JsonRefusal>
    ensures { IsWithin refused line.now → result ≡ report_of number refused stop line.now reply.now }
{
    match refused {
        Refused::No => None,
        Refused::Line(fault) => Some(refusal_of(number, 0, stop, line, fault.message())),
        Refused::Value(at, end) => {
            let end = end.min(line.len());
            let at = at.min(end);
            let piece = &line[at..end];
            let before = if is_string(piece) { 2 } else { 1 };
            let cause = cause_in(reply);
            Some(refusal_of(number, at as u64 + before, 0, content(piece), cause))
        }
    }
}

impl JsonRefusals {
    /// The state before the first line.
    pub fn new() -> JsonRefusals
        ensures lines { result.lines ≡ 0 }
        ensures count { result.count ≡ 0 }
        ensures first { result.first ≡ None }
    {
        JsonRefusals {
            lines: 0,
            count: 0,
            first: None,
        }
    }

    /// Returns how many lines ended.
    pub fn lines(&self) -> u64
        ensures { result ≡ self.now.lines }
    {
        self.lines
    }

    /// Counts a line, and keeps the report of the first refused one, for which the rule wrote a reply. `stop` is where
    /// it stops being JSON, from 1, or 0.
    pub fn note(&mut self, refused: Refused, stop: u64, line: &[u8], reply: &[u8])
        ensures lines { self.new.lines ≡ next_count self.old.lines }
        ensures count { self.new.count ≡ refused_after refused self.old.count }
        ensures first { IsWithin refused line.now → self.new.first ≡ first_after self.old.first
            (report_of (next_count self.old.lines) refused stop line.now reply.now) }
    {
        self.lines = self.lines.saturating_add(1);
        if refused.is_refused() {
            self.count = self.count.saturating_add(1);
            if self.first.is_none() {
                self.first = report_of(self.lines, refused, stop, line, reply);
            }
        }
    }
}
