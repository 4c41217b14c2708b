//! Explains why a conversion refuses a numeral: the byte where it goes wrong, or the range of the exceeded format.
//!
//! An overflow names the exceeded format and the number that did not fit: the numeral rounded to the source, or that
//! number rounded to the target. A number of more than 64 bits is not written out.

ghost use Rattle.std.specs.Prelude.{◌≡◌, ◌≤◌, ◌+◌, ◌++◌, [], ℕ, ℤ, IfSome, List, codes, false, length, true};
ghost use Rattle.fixed_bits.specs.Numbers.{IsNumber};
ghost use Rattle.fixed_bits.specs.Ranges.{IsWide, greatest, lowest};
ghost use Rattle.fixed_command.specs.Convert.{AreFormats};
ghost use Rattle.fixed_command.specs.Explained.{ExplainsByte, ExplainsOverflow, IsPlaceOrZero, IsRefusedWith};
ghost use Rattle.fixed_command.specs.Explained.{IsFoundIfWide, IsMovedText, IsReachedText};
ghost use Rattle.fixed_command.specs.Explained.{NamesAByte, NamesAnExponentByte, holds_text, place_text};
ghost use Rattle.fixed_convert.specs.Rounded.{IsMovedIn};
ghost use Rattle.fixed_numeral.specs.Numeral.{HasNumeral, Parts};
ghost use Rattle.fixed_read.specs.Reading.{IsReadNumber};

use crate::convert::{frac_of, source_number};
use crate::hint::{Offers, hint_of};
use crate::{ConvertRule, Settings};
use fixed_bits::{Format, Number, Policy, signed_number};
use fixed_convert::reformat_mode;
use fixed_read::read_format;
use fixed_respell::format_name;
use fixed_steps::Steps;
use fixed_write::{Base, push_exact};
use itoa::Buffer;
use std::sync::ledger::Ledger;
use text_buffer::TextBuffer;

/// The longest explanation, in bytes.
pub const MAX_EXPLANATION: usize = 640;

/// Whether a text is refused as a number of the source for this cause.
fn is_invalid<L: Ledger>(
    text: &[u8],
    cause: &[u8],
    settings: &Settings,
    steps: &mut Steps<L>,
) -> bool
    ensures invalid { result ≡ true → IsRefusedWith cause.now settings.now text.now }
    ensures not { result ≡ false → ¬ IsRefusedWith cause.now settings.now text.now }
{
    match source_number(settings, text, steps) {
        Ok(_) => false,
        Err(message) => message.as_bytes() == cause,
    }
}

/// Returns the place, from 1, of the first byte that makes a text refused for this cause, or 0.
pub(crate) fn refused_place<L: Ledger>(
    text: &[u8],
    cause: &[u8],
    settings: &Settings,
    steps: &mut Steps<L>,
) -> usize
    ensures { IsPlaceOrZero cause.now settings.now text.now result }
{
    for end in 0..text.len() {
        if is_invalid(&text[..end + 1], cause, settings, steps) {
            return end + 1;
        }
    }
    0
}

/// Returns the least and the greatest number of a format, in ulps.
fn ends_of(format: Format) -> (i128, i128)
    ensures low { result.0 ≡ lowest format.signed format.width }
    ensures high { result.1 ≡ greatest format.signed format.width }
    ensures low_wide { IsWide result.0 }
    ensures high_wide { IsWide result.1 }
{
    let _width = format.width();
    (format.lowest(), format.greatest())
}

/// Appends the range of a format.
fn push_range(out: &mut TextBuffer<MAX_EXPLANATION>, format: Format)
    requires room { length out.old + 280 ≤ 640 }
    ensures appended { out.new ≡ out.old ++ holds_text format }
    ensures short { length out.new ≤ length out.old + 280 }
{
    let name = format_name(format);
    let (lowest, greatest) = ends_of(format);
    out.push_bytes(name.as_bytes());
    out.push_bytes(b" holds ");
    push_exact(out, lowest, frac_of(format), Base::Dec);
    out.push_bytes(b" to ");
    push_exact(out, greatest, frac_of(format), Base::Dec);
}

/// Returns a number if it has at most 64 bits.
fn wide_number(number: Number) -> Option<i128>
    ensures number { (v : ℤ) → IsNumber number v → IsFoundIfWide v result }
    ensures wide { IfSome result IsWide }
{
    if number.has_high_bits {
        return None;
    }
    let value = signed_number(number.negative, number.low);
    if value < i128::from(i64::MIN) {
        return None;
    }
    Some(value)
}

/// Returns the number of ulps of the source that a numeral is rounded to, if it has at most 64 bits.
fn read_wide<L: Ledger>(settings: &Settings, numeral: &[u8], steps: &mut Steps<L>) -> Option<i128>
    ensures number { (parts : Parts) (v : ℤ) → HasNumeral settings.now.radix numeral.now parts
        → IsReadNumber settings.now.mode settings.now.radix parts settings.now.source.frac v
        → IsFoundIfWide v result }
    ensures wide { IfSome result IsWide }
{
    let s = settings;
    match read_format(numeral, s.radix, s.source, s.mode, steps) {
        Ok(found) => wide_number(found.number()),
        Err(_) => None,
    }
}

/// Returns the number of ulps of the target that a number of the source is rounded to, if it has at most 64 bits.
fn moved_wide(settings: &Settings, number: i128) -> Option<i128>
    requires { IsWide number }
    ensures number { (v : ℤ)
        → IsMovedIn settings.now.target_mode number settings.now.source.frac settings.now.target.frac v
        → IsFoundIfWide v result }
    ensures wide { IfSome result IsWide }
{
    let s = settings;
    let wide = Format::of(number < 0, 64, frac_of(s.target));
    match reformat_mode(
        wide,
        Policy::Checked,
        s.target_mode,
        number,
        frac_of(s.source),
    ) {
        Some((moved, _)) => Some(moved),
        None => None,
    }
}

/// Appends a number of ulps of 2^-`frac` exactly, if it has at most 64 bits.
fn push_number(out: &mut TextBuffer<MAX_EXPLANATION>, number: Option<i128>, frac: u32)
    requires wide { IfSome number IsWide }
    requires frac { frac ≤ 64 }
    requires room { length out.old + 130 ≤ 640 }
    ensures appended { (v : ℤ) → IsFoundIfWide v number
        → (text : List ℕ) × IsReachedText v frac text × (out.new ≡ out.old ++ text) }
    ensures short { length out.new ≤ length out.old + 130 }
{
    match number {
        Some(number) => push_exact(out, number, frac, Base::Dec),
        None => out.push_bytes(b"a number of more than 64 bits"),
    }
}

/// Appends the number of the target that a number of the source is rounded to, or that number if nothing is rounded.
fn push_moved(out: &mut TextBuffer<MAX_EXPLANATION>, settings: &Settings, number: i128)
    requires wide { IsWide number }
    requires room { length out.old + 130 ≤ 640 }
    ensures appended { (v : ℤ)
        → IsMovedIn settings.now.target_mode number settings.now.source.frac settings.now.target.frac v
        → (text : List ℕ) × IsMovedText number settings.now.source.frac v settings.now.target.frac text
        × (out.new ≡ out.old ++ text) }
    ensures formats { AreFormats settings.now }
    ensures short { length out.new ≤ length out.old + 130 }
{
    let from = frac_of(settings.source);
    let to = frac_of(settings.target);
    if from <= to {
        push_exact(out, number, from, Base::Dec);
    } else {
        push_number(out, moved_wide(settings, number), to);
    }
}

/// Appends the number that was reached, and the range of the format that does not hold it.
fn push_overflow<L: Ledger>(
    out: &mut TextBuffer<MAX_EXPLANATION>,
    settings: &Settings,
    numeral: &[u8],
    steps: &mut Steps<L>,
)
    requires empty { out.old ≡ [] }
    ensures { ExplainsOverflow settings.now numeral.now out.new }
{
    out.push_bytes(b", reached ");
    match source_number(settings, numeral, steps) {
        Ok(found) => {
            push_moved(out, settings, found.bits);
            out.push_bytes(b", ");
            push_range(out, settings.target);
        }
        Err(_) => {
            let number = read_wide(settings, numeral, steps);
            push_number(out, number, frac_of(settings.source));
            out.push_bytes(b", ");
            push_range(out, settings.source);
        }
    }
}

/// Appends the byte at a place of a text, from 1, and its place in the line. `before` counts the bytes before the text.
fn push_place(out: &mut TextBuffer<MAX_EXPLANATION>, text: &[u8], place: usize, before: usize)
    requires empty { out.old ≡ [] }
    requires some { 1 ≤ place }
    requires within { place ≤ length text.now }
    ensures appended { out.new ≡ place_text text.now place before }
    ensures short { length out.new ≤ 64 }
{
    out.push_bytes(b", byte ");
    let mut digits = Buffer::new();
    out.push_bytes(digits.format(place.saturating_add(before)).as_bytes());
    out.push_bytes(b", '");
    out.push(text[place - 1]);
    out.push(b'\'');
}

/// Whether a cause is a refusal for one byte of an exponent.
fn names_an_exponent_byte(cause: &[u8]) -> bool
    ensures yes { result ≡ true → NamesAnExponentByte cause.now }
    ensures no { result ≡ false → ¬ NamesAnExponentByte cause.now }
{
    if cause == b"more than one exponent found".as_slice() {
        return true;
    }
    if cause == b"invalid digit found in exponent".as_slice() {
        return true;
    }
    cause == b"exponent overflow".as_slice()
}

/// Whether a cause is a refusal for one byte.
pub(crate) fn names_a_byte(cause: &[u8]) -> bool
    ensures yes { result ≡ true → NamesAByte cause.now }
    ensures no { result ≡ false → ¬ NamesAByte cause.now }
{
    if names_an_exponent_byte(cause) || cause == b"invalid digit found in string".as_slice() {
        return true;
    }
    if cause == b"misplaced sign found in string".as_slice() {
        return true;
    }
    if cause == b"misplaced underscore found in string".as_slice() {
        return true;
    }
    cause == b"more than one point found in string".as_slice()
}

/// Appends the first byte for which a numeral or a word is refused with this cause, if any, with its place and a hint.
fn push_byte<L: Ledger>(
    out: &mut TextBuffer<MAX_EXPLANATION>,
    text: &[u8],
    cause: &[u8],
    before: usize,
    settings: &Settings,
    offers: Offers,
    steps: &mut Steps<L>,
)
    requires empty { out.old ≡ [] }
    ensures { ExplainsByte cause.now offers settings.now text.now before out.new }
{
    let place = refused_place(text, cause, settings, steps);
    if place > 0 {
        push_place(out, text, place, before);
        let hint = hint_of(offers, settings.spelling, settings.radix, text, place);
        out.push_bytes(hint.as_bytes());
    }
}

/// Explains why a rule refuses a numeral or a word with this cause. An overflow: the number that was reached and the
/// range of the format. A byte that no numeral, or no word, has there: the first such byte, its place in the line, from
/// 1, if `before` bytes come before the text, and a hint about what the command offers. Nothing for another cause.
pub fn explanation<L: Ledger>(
    rule: &ConvertRule,
    offers: Offers,
    text: &[u8],
    before: usize,
    cause: &[u8],
    steps: &mut Steps<L>,
) -> TextBuffer<MAX_EXPLANATION>
    ensures overflow { cause.now ≡ codes "overflow" → ExplainsOverflow rule.now text.now result }
    ensures byte { NamesAByte cause.now → ExplainsByte cause.now offers rule.now text.now before result }
    ensures other { ¬ (cause.now ≡ codes "overflow") → ¬ NamesAByte cause.now → result ≡ [] }
{
    let mut out = TextBuffer::new();
    let settings = rule.settings();
    if cause == b"overflow".as_slice() {
        push_overflow(&mut out, settings, text, steps);
    } else if names_a_byte(cause) {
        push_byte(&mut out, text, cause, before, settings, offers, steps);
    }
    out
}
