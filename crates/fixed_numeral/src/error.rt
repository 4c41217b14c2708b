//! The reasons why a text is refused.

ghost use Rattle.std.specs.Prelude.{◌≡◌};

use std::error::Error;
use std::fmt;
use std::marker::Model;

/// Why bytes are not a numeral, or a numeral does not fit a format.
#[derive(Clone, Copy, Debug, PartialEq, Eq)]
pub enum ParseErrorKind {
    /// A byte that is not allowed before a separator.
    InvalidDigit,
    /// A sign after another byte of its part, or at the beginning of a literal's rest.
    MisplacedSign,
    /// An underscore without a digit before it in its part. Only literals have it.
    MisplacedUnderscore,
    /// A second point before a separator.
    TooManyPoints,
    /// A second separator.
    TooManyExp,
    /// A byte that is not allowed after a separator.
    ExpInvalidDigit,
    /// The decimal digit with which the exponent leaves the range of i32.
    ExpOverflow,
    /// No digit before a separator.
    NoDigits,
    /// No digit after a separator.
    ExpNoDigits,
    /// A numeral that does not fit the format.
    Overflow,
}

/// A refused numeral.
#[derive(Clone, Copy, Debug, PartialEq, Eq)]
pub struct ParseFixedError {
    kind: ParseErrorKind,
}

impl Model for ParseFixedError {
    ghost use Rattle.fixed_numeral.specs.declared.error.ParseErrorKind.{ParseErrorKind};

    ghost Value = { ParseErrorKind };

    ghost view = { λ e. e.kind };

    ghost inverse = { λ k. record { kind = k } };
}

impl ParseFixedError {
    ghost use Rattle.fixed_numeral.specs.Messages.{message_of};

    /// Returns the error of a kind.
    pub fn new(kind: ParseErrorKind) -> ParseFixedError
        ensures { result ≡ kind }
    {
        ParseFixedError { kind }
    }

    /// Returns the reason why the text is refused.
    pub fn kind(self) -> ParseErrorKind
        ensures { result ≡ self }
    {
        self.kind
    }

    /// Returns the message of the kind, which `Display` writes too.
    pub fn message(self) -> &'static str
        ensures { result.now ≡ message_of self }
    {
        match self.kind {
            ParseErrorKind::InvalidDigit => "invalid digit found in string",
            ParseErrorKind::MisplacedSign => "misplaced sign found in string",
            ParseErrorKind::MisplacedUnderscore => "misplaced underscore found in string",
            ParseErrorKind::TooManyPoints => "more than one point found in string",
            ParseErrorKind::TooManyExp => "more than one exponent found",
            ParseErrorKind::ExpInvalidDigit => "invalid digit found in exponent",
            ParseErrorKind::ExpOverflow => "exponent overflow",
            ParseErrorKind::NoDigits => "string has no digits",
            ParseErrorKind::ExpNoDigits => "exponent has no digits",
            ParseErrorKind::Overflow => "overflow",
        }
    }
}

impl fmt::Display for ParseFixedError {
    ghost use Rattle.std.specs.Prelude.{Some};
    ghost use Rattle.fixed_numeral.specs.Messages.{message_of};

    ghost output = { λ e. Some (message_of e) };

    fn fmt<W: fmt::Write>(&self, f: &mut fmt::Formatter<W>) -> fmt::Result {
        f.write_str(self.message())
    }
}

impl Error for ParseFixedError {}
