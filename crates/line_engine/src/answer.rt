//! The answer of a rule to a line.

ghost use Rattle.std.specs.Prelude.{◌≡◌, ◌≤◌, length};

use arrayvec::ArrayVec;
use std::marker::Model;

/// The longest answer, in bytes.
pub const MAX_ANSWER: usize = 192;

/// The answer to a line: at most 192 bytes, and whether they name a fault.
#[derive(Drop)]
pub struct Answer {
    bytes: ArrayVec<u8, MAX_ANSWER>,
    is_fault: bool,
}

impl Model for Answer {
    ghost use Rattle.line_engine.specs.AnswerText.{AnswerText};

    ghost Value = { AnswerText };

    ghost view = { λ a. record { text = a.bytes.items; fault = a.is_fault } };
}

impl Answer {
    /// Makes an answer of at most 192 bytes, with whether they name a fault.
    pub fn of(bytes: &[u8], is_fault: bool) -> Answer
        requires { length bytes.now ≤ 192 }
        ensures text { result.text ≡ bytes.now }
        ensures fault { result.fault ≡ is_fault }
    {
        let mut text = ArrayVec::new();
        text.try_extend_from_slice(bytes).unwrap();
        Answer {
            bytes: text,
            is_fault,
        }
    }

    /// Returns the bytes, at most 192, without a newline.
    pub fn as_bytes(&self) -> &[u8]
        ensures bytes { result.now ≡ self.now.text }
        ensures short { length result.now ≤ 192 }
    {
        self.bytes.as_slice()
    }

    /// Whether the bytes name a fault.
    pub fn is_fault(&self) -> bool
        ensures { result ≡ self.now.fault }
    {
        self.is_fault
    }
}
