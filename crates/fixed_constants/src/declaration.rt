//! Reads the declaration of a line.

ghost use Rattle.std.specs.Prelude.{◌≡◌, ◌↔◌, ◌≤◌, ◌<◌, ℕ, List, [], ◌∷◌, IsTrue, Err, IfOk, IfErr, MatchOption};
ghost use Rattle.fixed_bits.specs.Ranges.{IsWide};
ghost use Rattle.fixed_respell.specs.LineWords.{HasWords, space};
ghost use Rattle.fixed_respell.specs.Split.{count_of};
ghost use Rattle.fixed_constants.specs.Constants.{
  HasFault,
  IsLiteralOf,
  AreNameBytes,
  IsName,
  IsNameByte,
  IsPassedOver,
  IsRefusedLiteral,
  Spells,
  equals_sign,
};

use crate::fault::ConstantFault;
use fixed_bits::{Format, Policy};
use fixed_numeral::{ParseErrorKind, ParseFixedError};
use fixed_read::read_literal;
use fixed_respell::{format_word, split_once};

/// The longest name, in bytes.
const MAX_NAME: usize = 64;

/// Whether a line declares nothing: it is empty, or begins with `#`.
pub fn is_passed_over(line: &[u8]) -> bool
    ensures { IsTrue result ↔ IsPassedOver line.now }
{
    line.is_empty() || line[0] == b'#'
}

/// Whether a name may contain the byte.
fn is_name_byte(byte: u8) -> bool
    ensures { IsTrue result ↔ IsNameByte byte }
{
    matches!(byte, b'A'..=b'Z' | b'a'..=b'z' | b'0'..=b'9' | b'_')
}

/// Whether a name may contain each of the bytes.
fn are_name_bytes(word: &[u8]) -> bool
    ensures { IsTrue result ↔ AreNameBytes word.now }
{
    for i in 0..word.len() {
        if !is_name_byte(word[i]) {
            return false;
        }
    }
    true
}

/// Whether a word is a name.
pub fn is_name(word: &[u8]) -> bool
    ensures { IsTrue result ↔ IsName word.now }
{
    if word.is_empty() || word.len() > MAX_NAME || matches!(word[0], b'0'..=b'9') {
        return false;
    }
    are_name_bytes(word)
}

/// Whether a word is the equals sign.
fn is_equals_sign(word: &[u8]) -> bool
    ensures { IsTrue result ↔ (word.now ≡ equals_sign) }
{
    word == b"=".as_slice()
}

/// The words before a line's first three spaces, and the text after the third.
#[derive(Drop)]
pub struct Fields<'a> {
    /// The first word.
    pub name: &'a [u8],
    /// The second word.
    pub equals: &'a [u8],
    /// The third word.
    pub literal: &'a [u8],
    /// The text after the third space.
    pub format: &'a [u8],
}

/// Splits a line at its first three spaces. `None`: it has fewer.
pub fn split_line(line: &[u8]) -> Option<Fields<'_>>
    ensures { MatchOption result (count_of space line.now < 3)
        (λ f. HasWords line.now (f.name.now ∷ f.equals.now ∷ f.literal.now ∷ []) f.format.now) }
{
    let Some((name, rest)) = split_once(line, b' ') else {
        return None;
    };
    let Some((equals, rest)) = split_once(rest, b' ') else {
        return None;
    };
    let Some((literal, format)) = split_once(rest, b' ') else {
        return None;
    };
    Some(Fields {
        name,
        equals,
        literal,
        format,
    })
}

/// Returns the bits of a literal in a format.
fn literal_bits(literal: &[u8], format: Format) -> Result<i128, ParseFixedError>
    ensures bits { IfOk result (λ bits. IsLiteralOf format literal.now bits) }
    ensures wide { IfOk result IsWide }
    ensures refused { IfErr result (λ kind. IsRefusedLiteral format literal.now kind) }
{
    match read_literal(literal, format) {
        Ok(found) => match found.image(Policy::Checked) {
            Some(bits) => Ok(bits),
            None => Err(ParseFixedError::new(ParseErrorKind::Overflow)),
        },
        Err(error) => Err(error),
    }
}

/// A constant as a line spells it.
#[derive(Drop)]
pub struct Declaration<'a> {
    /// The name.
    pub name: &'a [u8],
    /// The format.
    pub format: Format,
    /// The bits.
    pub bits: i128,
}

/// Returns the declaration of a line that is not passed over, or its first fault that does not depend on another line.
pub fn read_line(line: &[u8]) -> Result<Declaration<'_>, ConstantFault>
    requires { ¬ IsPassedOver line.now }
    ensures spells { IfOk result
        (λ d. Spells line.now (record { name = d.name.now; format = d.format; bits = d.bits })) }
    ensures wide { IfOk result (λ d. IsWide d.bits) }
    ensures refused { IfErr result (λ fault. (before : List (List ℕ)) → HasFault before line.now fault) }
{
    let Some(fields) = split_line(line) else {
        return Err(ConstantFault::MissingField);
    };
    if !is_name(fields.name) {
        return Err(ConstantFault::BadName);
    }
    if !is_equals_sign(fields.equals) {
        return Err(ConstantFault::MissingEquals);
    }
    let Some(format) = format_word(fields.format) else {
        return Err(ConstantFault::BadFormat);
    };
    match literal_bits(fields.literal, format) {
        Ok(bits) => Ok(Declaration {
            name: fields.name,
            format,
            bits,
        }),
        Err(error) => Err(ConstantFault::BadLiteral(error)),
    }
}
