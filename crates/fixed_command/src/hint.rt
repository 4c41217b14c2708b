//! Names the likely cause of an invalid byte, and the option of the command that reads such a text.

ghost use Rattle.std.specs.Prelude.{◌≡◌, ◌≤◌, if◌then◌else◌, length};
ghost use Rattle.std.specs.List.{list_all};
ghost use Rattle.fixed_command.specs.Hints.{begins_with_digit, hint_of, is_blank, is_decimal_comma, is_hex_letter};
ghost use Rattle.fixed_command.specs.Hints.{is_hex_prefix, is_numeral, is_outer_blank, is_whole, is_zero};

use crate::field::{after_sign, digits_of, has_part, is_digit};
use crate::spelling::Spelling;
use fixed_numeral::Radix;

/// The options that a command offers for other spellings of numerals.
#[derive(Clone, Copy, Debug, PartialEq, Eq)]
pub struct Offers {
    /// `--decimal`: the byte before a fraction.
    pub decimal: bool,
    /// `--trim`: no blanks around a numeral.
    pub trim: bool,
    /// `--radix`: the radix of digits.
    pub radix: bool,
}

/// Whether bytes are digits and not empty.
fn is_whole(is_hex: bool, bytes: &[u8]) -> bool
    ensures { result ≡ is_whole is_hex bytes.now }
{
    !bytes.is_empty() && digits_of(is_hex, bytes) == bytes.len()
}

/// Whether bytes begin with a digit.
fn begins_with_digit(is_hex: bool, bytes: &[u8]) -> bool
    ensures { result ≡ begins_with_digit is_hex bytes.now }
{
    digits_of(is_hex, bytes) > 0
}

/// Whether a byte is a comma between digits, and there is no other comma or point.
fn is_decimal_comma(is_hex: bool, before: &[u8], byte: u8, after: &[u8]) -> bool
    ensures { result ≡ is_decimal_comma is_hex before.now byte after.now }
{
    byte == b','
        && is_whole(is_hex, after_sign(before))
        && begins_with_digit(is_hex, after)
        && !has_part(b",.", after)
}

/// Whether a byte is a space or a tab.
fn is_blank(byte: u8) -> bool
    ensures { result ≡ is_blank byte }
{
    byte == b' ' || byte == b'\t'
}

/// Whether bytes are blanks.
fn are_blanks(bytes: &[u8]) -> bool
    ensures { result ≡ list_all is_blank bytes.now }
{
    bytes.iter().all(|byte| is_blank(*byte))
}

/// Whether a byte is a blank at an end of a text.
fn is_outer_blank(before: &[u8], byte: u8, after: &[u8]) -> bool
    ensures { result ≡ is_outer_blank before.now byte after.now }
{
    is_blank(byte) && (before.is_empty() || are_blanks(after))
}

/// Whether bytes are `0`.
fn is_zero(bytes: &[u8]) -> bool
    ensures { result ≡ is_zero bytes.now }
{
    matches!(bytes, [b'0'])
}

/// Whether a byte is the letter of the prefix `0x`.
fn is_hex_prefix(before: &[u8], byte: u8, after: &[u8]) -> bool
    ensures { result ≡ is_hex_prefix before.now byte after.now }
{
    (byte == b'x' || byte == b'X') && is_zero(after_sign(before)) && begins_with_digit(true, after)
}

/// Whether a byte is a letter of a hexadecimal whole number, and the radix is 10.
fn is_hex_letter(radix: Radix, text: &[u8], byte: u8) -> bool
    ensures { result ≡ is_hex_letter radix text.now byte }
{
    radix.base() == 10 && !is_digit(false, byte) && is_whole(true, after_sign(text))
}

/// Whether a line spells a numeral.
fn is_numeral(spelling: Spelling) -> bool
    ensures { result ≡ is_numeral spelling }
{
    match spelling {
        Spelling::Numeral => true,
        Spelling::Word => false,
    }
}

/// Returns one of two hints, by whether the command offers the option that the first names.
fn pick(is_offered: bool, with_option: &'static str, without: &'static str) -> &'static str
    requires long { length with_option.now ≤ 64 }
    requires short { length without.now ≤ 64 }
    ensures value { result.now ≡ (if is_offered then with_option.now else without.now) }
    ensures short { length result.now ≤ 64 }
{
    if is_offered { with_option } else { without }
}

/// Returns the likely cause of the invalid byte at a place of a text, from 1, with the option that reads such a text if
/// the command offers it; empty if no cause is likely.
pub fn hint_of(
    offers: Offers,
    spelling: Spelling,
    radix: Radix,
    text: &[u8],
    place: usize,
) -> &'static str
    requires { place ≤ length text.now }
    ensures value { result.now ≡ hint_of offers spelling radix text.now place }
    ensures short { length result.now ≤ 64 }
{
    let before = &text[..place.saturating_sub(1)];
    let byte = text.get(place.saturating_sub(1)).copied().unwrap_or(0);
    let after = &text[place..];
    if is_numeral(spelling) && is_decimal_comma(radix.base() == 16, before, byte, after) {
        pick(
            offers.decimal,
            " (decimal comma? --decimal ,)",
            " (decimal comma?)",
        )
    } else if is_outer_blank(before, byte, after) {
        pick(offers.trim, " (blanks? --trim)", " (blanks?)")
    } else if is_hex_prefix(before, byte, after) {
        pick(
            offers.radix,
            " (hexadecimal? --radix 16 without 0x)",
            " (hexadecimal?)",
        )
    } else if is_hex_letter(radix, text, byte) {
        pick(
            offers.radix,
            " (hexadecimal? --radix 16)",
            " (hexadecimal?)",
        )
    } else {
        ""
    }
}
