//! The words of a line that requests a text in a style.

ghost use Rattle.std.specs.Prelude.{◌≤◌, IfSome};
ghost use Rattle.fixed_bits.specs.Ranges.{IsWide};

use fixed_write::{Align, Base, Notation, Style};
use std::str::Split;

/// Returns the bits that a word spells.
pub(crate) fn bits_word(word: &str) -> Option<i128>
    ensures { IfSome result (λ v. IsWide v) }
{
    match word.parse::<i64>() {
        Ok(bits) => Some(i128::from(bits)),
        Err(_) => match word.parse::<u64>() {
            Ok(bits) => Some(i128::from(bits)),
            Err(_) => None,
        },
    }
}

/// Returns the number of at most 64 that a word spells.
pub(crate) fn small_word(word: &str) -> Option<u32>
    ensures { IfSome result (λ n. n ≤ 64) }
{
    match word.parse::<u32>() {
        Ok(number) if number <= 64 => Some(number),
        _ => None,
    }
}

/// Returns the bits that the next word spells, and the fraction length that the word after it spells.
pub(crate) fn number_words(words: &mut Split<'_, char>) -> Option<(i128, u32)>
    ensures { IfSome result (λ number. IsWide number.0 × number.1 ≤ 64) }
{
    let bits = bits_word(words.next()?)?;
    let frac = small_word(words.next()?)?;
    Some((bits, frac))
}

/// Returns the base that a word names.
pub(crate) fn base_word(word: &str) -> Option<Base> {
    match word {
        "bin" => Some(Base::Bin),
        "oct" => Some(Base::Oct),
        "dec" => Some(Base::Dec),
        "hex" => Some(Base::LowerHex),
        "HEX" => Some(Base::UpperHex),
        _ => None,
    }
}

fn notation_word(word: &str) -> Option<Notation> {
    match word {
        "dec" => Some(Notation::Dec),
        "exp" => Some(Notation::LowerExp),
        "EXP" => Some(Notation::UpperExp),
        "bin" => Some(Notation::Bin),
        "oct" => Some(Notation::Oct),
        "hex" => Some(Notation::LowerHex),
        "HEX" => Some(Notation::UpperHex),
        _ => None,
    }
}

fn align_word(word: &str) -> Option<Align> {
    match word {
        "left" => Some(Align::Left),
        "center" => Some(Align::Center),
        "right" => Some(Align::Right),
        _ => None,
    }
}

fn precision_word(word: &str) -> Option<Option<u16>> {
    if word == "none" {
        return Some(None);
    }
    match word.parse::<u16>() {
        Ok(precision) => Some(Some(precision)),
        Err(_) => None,
    }
}

fn width_word(word: &str) -> Option<u16> {
    match word.parse::<u16>() {
        Ok(width) => Some(width),
        Err(_) => None,
    }
}

fn fill_word(word: &str) -> Option<char> {
    match word.parse::<u32>() {
        Ok(code) => char::from_u32(code),
        Err(_) => None,
    }
}

/// Returns the style that six words describe.
pub(crate) fn style_words(words: &mut Split<'_, char>) -> Option<Style> {
    let notation = notation_word(words.next()?)?;
    let precision = precision_word(words.next()?)?;
    let width = width_word(words.next()?)?;
    let fill = fill_word(words.next()?)?;
    let align = align_word(words.next()?)?;
    let flags = words.next()?;
    Some(Style {
        notation,
        precision,
        width,
        fill,
        align,
        plus: flags.contains('+'),
        prefix: flags.contains('#'),
        zero_pad: flags.contains('0'),
    })
}
