//! Why a line is refused, besides a reply that refuses a value.

ghost use Rattle.std.specs.Prelude.{◌≡◌};
ghost use Rattle.json_lines.specs.Answers.{fault_text};

/// A fault of a line.
#[derive(Clone, Copy, Debug, PartialEq, Eq)]
pub enum JsonFault {
    /// It has more than 1,048,576 bytes.
    LineTooLong,
    /// Its answer has more than 1,048,576 bytes.
    AnswerTooLong,
    /// It is not JSON.
    NotJson,
    /// It has no value at the path.
    NoValue,
    /// It has an object or an array at the path.
    Nested,
}

impl JsonFault {
    /// Returns the message.
    pub fn message(self) -> &'static [u8]
        ensures { result.now ≡ fault_text self }
    {
        match self {
            JsonFault::LineTooLong => b"line too long",
            JsonFault::AnswerTooLong => b"answer too long",
            JsonFault::NotJson => b"not JSON",
            JsonFault::NoValue => b"no value at the path",
            JsonFault::Nested => b"object or array",
        }
    }
}
