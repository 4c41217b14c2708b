//! The reasons why a call is refused, and their codes.

ghost use Rattle.std.specs.Prelude.{◌≡◌, ◌⊎◌, ◌<◌, ◌≤◌, length, MatchOption};
ghost use Rattle.fixed_c.specs.Codes.{IsMessage, kind_code, refusal_code, refusal_message};
ghost use Rattle.fixed_c.specs.Outcome.{HandsOver};

use fixed_numeral::{ParseErrorKind, ParseFixedError};

/// The code of a call that succeeded.
pub const OK: u32 = 0;

/// Why a call is refused.
#[derive(Clone, Copy, Debug, PartialEq, Eq)]
pub enum Refusal {
    /// The text is not a numeral, or its number is out of a format's range.
    Numeral(ParseErrorKind),
    /// The radix is not 2, 8, 10 or 16.
    BadRadix,
    /// The only format, or the first of two, is invalid.
    BadFormat,
    /// The second format is invalid.
    BadTarget,
    /// The policy is not 0 to 3.
    BadPolicy,
    /// The mode is not 0 to 8.
    BadMode,
    /// The only bits, or the first of two, are out of the range of their format.
    BadBits,
    /// The text and a zero byte do not fit into the buffer.
    NoRoom,
    /// The second bits are out of the range of their format.
    BadOtherBits,
    /// There are more than 64 places, in a decimal format more than 18, or in a style more than 65,535.
    BadPlaces,
    /// The rounding is not 0 to 4.
    BadRounding,
    /// The word does not name a format.
    BadWord,
    /// The given sizes are not those of the rows.
    BadRows,
    /// The notation is not 0 to 6.
    BadNotation,
    /// The width is more than 65,535 characters.
    BadWidth,
    /// The fill is not a Unicode scalar value.
    BadFill,
    /// The alignment is not 0 to 2.
    BadAlign,
    /// The float is an infinity or a NaN.
    NotFinite,
}

/// Returns the code of a kind, 1 to 10.
fn kind_code(kind: ParseErrorKind) -> u32
    ensures { result ≡ kind_code kind }
{
    match kind {
        ParseErrorKind::InvalidDigit => 1,
        ParseErrorKind::MisplacedSign => 2,
        ParseErrorKind::MisplacedUnderscore => 3,
        ParseErrorKind::TooManyPoints => 4,
        ParseErrorKind::TooManyExp => 5,
        ParseErrorKind::ExpInvalidDigit => 6,
        ParseErrorKind::ExpOverflow => 7,
        ParseErrorKind::NoDigits => 8,
        ParseErrorKind::ExpNoDigits => 9,
        ParseErrorKind::Overflow => 10,
    }
}

impl Refusal {
    /// Returns the code of the refusal, 1 to 27.
    pub fn code(self) -> u32
        ensures { result ≡ refusal_code self }
    {
        match self {
            Refusal::Numeral(kind) => kind_code(kind),
            Refusal::BadRadix => 11,
            Refusal::BadFormat => 12,
            Refusal::BadTarget => 13,
            Refusal::BadPolicy => 14,
            Refusal::BadMode => 15,
            Refusal::BadBits => 16,
            Refusal::NoRoom => 17,
            Refusal::BadOtherBits => 18,
            Refusal::BadPlaces => 19,
            Refusal::BadRounding => 20,
            Refusal::BadWord => 21,
            Refusal::BadRows => 22,
            Refusal::BadNotation => 23,
            Refusal::BadWidth => 24,
            Refusal::BadFill => 25,
            Refusal::BadAlign => 26,
            Refusal::NotFinite => 27,
        }
    }

    /// Returns the message of the refusal, at most 47 bytes.
    fn message(self) -> &'static str
        ensures message { result.now ≡ refusal_message self }
        ensures short { length result.now ≤ 47 }
    {
        match self {
            Refusal::Numeral(kind) => ParseFixedError::new(kind).message(),
            Refusal::BadRadix => "bad radix",
            Refusal::BadFormat => "bad format",
            Refusal::BadTarget => "bad target format",
            Refusal::BadPolicy => "bad policy",
            Refusal::BadMode => "bad mode",
            Refusal::BadBits => "bits out of range",
            Refusal::NoRoom => "no room for the text",
            Refusal::BadOtherBits => "second bits out of range",
            Refusal::BadPlaces => "too many places",
            Refusal::BadRounding => "bad rounding",
            Refusal::BadWord => "bad format word",
            Refusal::BadRows => "rows of another size",
            Refusal::BadNotation => "bad notation",
            Refusal::BadWidth => "too great a width",
            Refusal::BadFill => "bad fill character",
            Refusal::BadAlign => "bad alignment",
            Refusal::NotFinite => "not a finite number",
        }
    }
}

/// Returns the refusal with a code, or `None` if there is none.
fn refusal_of(code: u32) -> Option<Refusal>
    ensures { MatchOption result ((code ≡ 0) ⊎ (27 < code)) (λ refusal. code ≡ refusal_code refusal) }
{
    match code {
        1 => Some(Refusal::Numeral(ParseErrorKind::InvalidDigit)),
        2 => Some(Refusal::Numeral(ParseErrorKind::MisplacedSign)),
        3 => Some(Refusal::Numeral(ParseErrorKind::MisplacedUnderscore)),
        4 => Some(Refusal::Numeral(ParseErrorKind::TooManyPoints)),
        5 => Some(Refusal::Numeral(ParseErrorKind::TooManyExp)),
        6 => Some(Refusal::Numeral(ParseErrorKind::ExpInvalidDigit)),
        7 => Some(Refusal::Numeral(ParseErrorKind::ExpOverflow)),
        8 => Some(Refusal::Numeral(ParseErrorKind::NoDigits)),
        9 => Some(Refusal::Numeral(ParseErrorKind::ExpNoDigits)),
        10 => Some(Refusal::Numeral(ParseErrorKind::Overflow)),
        11 => Some(Refusal::BadRadix),
        12 => Some(Refusal::BadFormat),
        13 => Some(Refusal::BadTarget),
        14 => Some(Refusal::BadPolicy),
        15 => Some(Refusal::BadMode),
        16 => Some(Refusal::BadBits),
        17 => Some(Refusal::NoRoom),
        18 => Some(Refusal::BadOtherBits),
        19 => Some(Refusal::BadPlaces),
        20 => Some(Refusal::BadRounding),
        21 => Some(Refusal::BadWord),
        22 => Some(Refusal::BadRows),
        23 => Some(Refusal::BadNotation),
        24 => Some(Refusal::BadWidth),
        25 => Some(Refusal::BadFill),
        26 => Some(Refusal::BadAlign),
        27 => Some(Refusal::NotFinite),
        _ => None,
    }
}

/// Returns the message of a code, at most 47 bytes.
pub fn message_of(code: u32) -> &'static str
    ensures message { IsMessage code result.now }
    ensures short { length result.now ≤ 47 }
{
    match refusal_of(code) {
        Some(refusal) => refusal.message(),
        None if code == OK => "done",
        None => "unknown code",
    }
}

/// Writes a result to `out` and returns 0, or returns the code of a refusal and leaves `out` unchanged.
pub fn hand_over<T: Copy>(answer: Result<T, Refusal>, out: &mut T) -> u32
    ensures { HandsOver answer out.old out.new result }
{
    match answer {
        Ok(answer) => {
            *out = answer;
            OK
        }
        Err(refusal) => refusal.code(),
    }
}
