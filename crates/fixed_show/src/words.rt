//! Words: the bits of a register, as a person writes them.
//!
//! A sign makes a word the number itself, whatever its radix: `-0x180` is -384, as `-384` is. A word without a sign is
//! in two's complement, so in `I8F8` `65152` is -384, and `+65152` is out of range. If words without a prefix are in
//! radix 16, `0b10` is hexadecimal, as `--print readmemh` writes it.

ghost use Rattle.std.specs.Prelude.{◌≡◌, ◌+◌, ◌*◌, ◌^◌, ◌≤◌, ◌<◌, ◌↔◌, pos, true, false, IfOk};
ghost use Rattle.std.specs.Prelude.{MatchOption, MatchResult, length, min};
ghost use Rattle.std.specs.Char.{digit_value};
ghost use Rattle.std.specs.Str.Parse.{AllDigits, digits_value};
ghost use Rattle.fixed_bits.specs.Images.{IsWrapped};
ghost use Rattle.fixed_bits.specs.Numbers.{with_sign};
ghost use Rattle.fixed_bits.specs.Ranges.{IsWide};
ghost use Rattle.fixed_numeral.specs.Literal.{without_underscores};
ghost use Rattle.fixed_numeral.specs.Numeral.{base};
ghost use Rattle.fixed_show.specs.WordText.{HasWordFault, IsWord, after_prefix};
ghost use Rattle.fixed_show.specs.WordText.{has_sign, letter_radix};
ghost use Rattle.fixed_show.specs.WordText.{word_radix};
ghost use Rattle.fixed_show.specs.BitsBlock.{fault_message};
ghost use Rattle.fixed_show.specs.Inner.Words.{IsCutOff, IsUnspelled};

use fixed_bits::{Format, Policy};
use fixed_numeral::Radix;

/// Why a text is not a word of a format.
#[derive(Clone, Copy, Debug, PartialEq, Eq)]
pub enum WordFault {
    /// An underscore comes first.
    MisplacedUnderscore,
    /// A byte is neither a digit of the radix nor an underscore.
    InvalidDigit,
    /// There is no digit.
    NoDigits,
    /// The word has more bits than the format.
    TooWide,
    /// With its sign the number is out of the format's range.
    OutOfRange,
}

impl WordFault {
    /// The message of the fault.
    pub fn message(self) -> &'static str
        ensures message { result.now ≡ fault_message self }
        ensures short { length result.now ≤ 64 }
    {
        match self {
            WordFault::MisplacedUnderscore => "misplaced underscore found in string",
            WordFault::InvalidDigit => "invalid digit found in string",
            WordFault::NoDigits => "string has no digits",
            WordFault::TooWide => "word is wider than the format",
            WordFault::OutOfRange => "number is out of the format's range",
        }
    }
}

/// Returns the radix that a letter after a zero names. Digits without a prefix are in the radix `bare`.
fn letter_radix(letter: u8, bare: Radix) -> Option<Radix>
    ensures { result ≡ letter_radix bare letter }
{
    match letter {
        b'x' | b'X' => Some(Radix::Hex),
        b'o' | b'O' => Some(Radix::Oct),
        b'b' | b'B' if bare != Radix::Hex => Some(Radix::Bin),
        _ => None,
    }
}

/// Returns the radix of a word's digits, and the bytes after its prefix.
pub(crate) fn split_prefix(text: &[u8], bare: Radix) -> (Radix, &[u8])
    ensures radix { result.0 ≡ word_radix bare text.now }
    ensures rest { result.1.now ≡ after_prefix bare text.now }
{
    if text.len() < 2 || text[0] != b'0' {
        return (bare, text);
    }
    match letter_radix(text[1], bare) {
        Some(radix) => (radix, &text[2..]),
        None => (bare, text),
    }
}

/// Returns the value of a byte as a digit of a radix, if it is one.
fn digit_of(byte: u8, radix: Radix) -> Option<u8>
    ensures { MatchOption result (base radix ≤ digit_value byte) (λ d. (d ≡ digit_value byte) × (d < base radix)) }
{
    let digit = match byte {
        b'0'..=b'9' => byte - b'0',
        b'a'..=b'f' => byte - b'a' + 10,
        b'A'..=b'F' => byte - b'A' + 10,
        _ => 16,
    };
    if u32::from(digit) < radix.base() {
        Some(digit)
    } else {
        None
    }
}

/// One more than the greatest word.
pub(crate) const LIMIT: u128 = 1 << 64;

/// Appends a digit to a number that is cut off at `LIMIT`.
fn with_digit(number: u128, base: u32, digit: u8) -> u128
    requires number { number ≤ LIMIT }
    requires base { base ≤ 16 }
    requires digit { digit < 16 }
    ensures { result ≡ min (number * base + digit) LIMIT }
{
    (number * u128::from(base) + u128::from(digit)).min(LIMIT)
}

/// Reads digits with underscores as a number, cut off at `LIMIT`. `None`: a byte is neither.
fn digits_number(bytes: &[u8], radix: Radix) -> Option<u128>
    ensures { MatchOption result (¬ AllDigits (base radix) (without_underscores bytes.now))
        (λ n. AllDigits (base radix) (without_underscores bytes.now) × (n ≡ min (digits_value (base radix)
        (without_underscores bytes.now)) LIMIT)) }
{
    let mut number = 0;
    for byte in bytes {
        if *byte != b'_' {
            match digit_of(*byte, radix) {
                Some(digit) => number = with_digit(number, radix.base(), digit),
                None => return None,
            }
        }
    }
    Some(number)
}

/// Whether there is a byte other than an underscore.
fn has_digit(bytes: &[u8]) -> bool
    ensures { (result ≡ true) ↔ (0 < length (without_underscores bytes.now)) }
{
    for byte in bytes {
        if *byte != b'_' {
            return true;
        }
    }
    false
}

/// Reads a text without a sign as a number, cut off at `LIMIT`.
pub(crate) fn spelled_number(text: &[u8], bare: Radix) -> Result<u128, WordFault>
    ensures { MatchResult result (IsCutOff bare text.now) (IsUnspelled bare text.now) }
{
    if text.len() > 0 && text[0] == b'_' {
        return Err(WordFault::MisplacedUnderscore);
    }
    let (radix, rest) = split_prefix(text, bare);
    let Some(number) = digits_number(rest, radix) else {
        return Err(WordFault::InvalidDigit);
    };
    if has_digit(rest) {
        Ok(number)
    } else {
        Err(WordFault::NoDigits)
    }
}

/// Reads a word without a sign, in two's complement.
fn read_plain(text: &[u8], bare: Radix, format: Format) -> Result<i128, WordFault>
    requires { has_sign text.now ≡ false }
    ensures word { MatchResult result (IsWord bare format text.now) (HasWordFault bare format text.now) }
    ensures wide { IfOk result IsWide }
{
    let number = spelled_number(text, bare)?;
    if number >= words_of(format) {
        return Err(WordFault::TooWide);
    }
    Ok(bits_of(number as u64, format))
}

/// How many words a format has.
pub(crate) fn words_of(format: Format) -> u128
    ensures count { result ≡ 2 ^ format.width }
    ensures most { result ≤ LIMIT }
    ensures width { format.width ≤ 64 }
{
    1 << format.width()
}

/// Returns the bits of a format for a word in two's complement.
pub(crate) fn bits_of(word: u64, format: Format) -> i128
    ensures image { IsWrapped format.signed format.width (pos word) result }
    ensures wide { IsWide result }
{
    Policy::Wrapping.image(format, i128::from(word)).unwrap()
}

/// Reads a word with a sign as the number itself.
fn read_signed(text: &[u8], bare: Radix, format: Format) -> Result<i128, WordFault>
    requires { has_sign text.now ≡ true }
    ensures word { MatchResult result (IsWord bare format text.now) (HasWordFault bare format text.now) }
    ensures wide { IfOk result IsWide }
{
    let size = spelled_number(&text[1..], bare)?;
    let number = signed(text[0] == b'-', size);
    let _words = words_of(format);
    if format.contains(number) {
        Ok(number)
    } else {
        Err(WordFault::OutOfRange)
    }
}

/// Gives a size its sign.
fn signed(negative: bool, size: u128) -> i128
    requires { size ≤ LIMIT }
    ensures { result ≡ with_sign negative size }
{
    if negative {
        -(size as i128)
    } else {
        size as i128
    }
}

/// Whether a text begins with a sign.
pub(crate) fn has_sign(text: &[u8]) -> bool
    ensures { result ≡ has_sign text.now }
{
    text.len() > 0 && (text[0] == b'+' || text[0] == b'-')
}

/// Reads a text as a word of a format: digits with underscores, in radix 2, 8 or 16 after `0b`, `0o` or `0x` in either
/// case, else in the radix `bare`. If `bare` is 16, a `b` after a zero is a digit. Without a sign, the text is a word
/// of at most the format's width in two's complement; with a sign, it is the number itself.
///
/// # Errors
///
/// Refuses a text whose digits begin with an underscore, that has another byte or no digit, that spells more bits than
/// the format's width, or that spells with its sign a number out of the format's range.
pub fn read_word(text: &[u8], bare: Radix, format: Format) -> Result<i128, WordFault>
    ensures word { MatchResult result (IsWord bare format text.now) (HasWordFault bare format text.now) }
    ensures wide { IfOk result IsWide }
{
    if has_sign(text) {
        read_signed(text, bare, format)
    } else {
        read_plain(text, bare, format)
    }
}
