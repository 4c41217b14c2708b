//! The names of formats of any width and fraction length: whole bits and fraction bits after I or U, in either case,
//! and ARM's Q notation.

ghost use Rattle.std.specs.Prelude.{◌≡◌, ◌⊎◌, ◌↔◌, ◌+◌, ◌/◌, ◌%◌, ◌<◌, ◌≤◌, ◌∷◌, []};
ghost use Rattle.std.specs.Prelude.{ℕ, IsTrue, MatchOption, decimal};
ghost use Rattle.fixed_bits.specs.Formats.{FormatParts};
ghost use Rattle.fixed_respell.specs.FormatNames.{IsFormatName, IsLetter};
ghost use Rattle.fixed_respell.specs.Inner.NameParts.{IsAfterQ, IsAfterU, IsCounted, IsCountedBeyond};
ghost use Rattle.fixed_respell.specs.Inner.NameParts.{IsCountedWithin, IsFraction, IsPointed, two_counts};
ghost use Rattle.fixed_respell.specs.Words.{fraction_letter};

use crate::decimal::number_word;
use crate::split::split_once;
use fixed_bits::Format;

/// Reads a count of bits below 100 in decimal. `None`: the bytes are not one.
fn count_of(digits: &[u8]) -> Option<u32>
    ensures { MatchOption result
        ((n : ℕ) → n < 100 → ¬ (digits.now ≡ decimal n))
        (λ n. (n < 100) × (digits.now ≡ decimal n)) }
{
    match number_word(digits, 99) {
        Some(count) => Some(count as u32),
        None => None,
    }
}

/// Reads the counts around the first `mark`, which is not a digit. `None`: the bytes are not two counts around it.
fn counts_around(bytes: &[u8], mark: u8) -> Option<(u32, u32)>
    requires { (mark < 48) ⊎ (57 < mark) }
    ensures { MatchOption result
        ((whole frac : ℕ) → whole < 100 → frac < 100 → ¬ (bytes.now ≡ two_counts mark whole frac))
        (λ r. (r.0 < 100) × (r.1 < 100) × (bytes.now ≡ two_counts mark r.0 r.1)) }
{
    let Some((whole, frac)) = split_once(bytes, mark) else {
        return None;
    };
    let Some(whole) = count_of(whole) else {
        return None;
    };
    let Some(frac) = count_of(frac) else {
        return None;
    };
    Some((whole, frac))
}

/// Reads the counts around an F in either case.
fn counts_around_letter(bytes: &[u8]) -> Option<(u32, u32)>
    ensures { MatchOption result
        ((mark whole frac : ℕ) → IsLetter fraction_letter mark → whole < 100 → frac < 100
        → ¬ (bytes.now ≡ two_counts mark whole frac))
        (λ r. (r.0 < 100) × (r.1 < 100)
        × ((mark : ℕ) × IsLetter fraction_letter mark × (bytes.now ≡ two_counts mark r.0 r.1))) }
{
    match counts_around(bytes, b'F') {
        Some(counts) => Some(counts),
        None => counts_around(bytes, b'f'),
    }
}

/// Reads whole bits, zero or more, F and fraction bits as a format with a sign rule.
fn counted_within(signed: bool, rest: &[u8]) -> Option<Format>
    ensures { MatchOption result
        ((f : FormatParts) → ¬ IsCountedWithin signed rest.now f)
        (λ f. IsCountedWithin signed rest.now f) }
{
    match counts_around_letter(rest) {
        Some((whole, frac)) => Format::of_any_width(signed, whole + frac, frac),
        None => None,
    }
}

/// Reads whole bits, below zero and after their minus, F and fraction bits as a format with a sign rule.
fn counted_beyond(signed: bool, rest: &[u8]) -> Option<Format>
    ensures { MatchOption result
        ((f : FormatParts) → ¬ IsCountedBeyond signed rest.now f)
        (λ f. IsCountedBeyond signed rest.now f) }
{
    let Some((missing, frac)) = counts_around_letter(rest) else {
        return None;
    };
    if missing == 0 {
        return None;
    }
    Format::of_any_width(signed, frac.saturating_sub(missing), frac)
}

/// Reads whole bits, F and fraction bits as a format with a sign rule.
fn counted(signed: bool, rest: &[u8]) -> Option<Format>
    ensures { MatchOption result
        ((f : FormatParts) → ¬ IsCounted signed rest.now f)
        (λ f. IsCounted signed rest.now f) }
{
    match split_first(rest) {
        Some((first, counts)) if first == b'-' => counted_beyond(signed, counts),
        _ => counted_within(signed, rest),
    }
}

/// Reads whole bits, a point and fraction bits as a format with a sign rule. The sign bit is one of the whole bits.
fn pointed(signed: bool, rest: &[u8]) -> Option<Format>
    ensures { MatchOption result
        ((f : FormatParts) → ¬ IsPointed signed rest.now f)
        (λ f. IsPointed signed rest.now f) }
{
    let Some((whole, frac)) = counts_around(rest, b'.') else {
        return None;
    };
    if signed && whole == 0 {
        return None;
    }
    Format::of_any_width(signed, whole + frac, frac)
}

/// Reads fraction bits as a format with these and a sign bit.
fn fraction(rest: &[u8]) -> Option<Format>
    ensures { MatchOption result ((f : FormatParts) → ¬ IsFraction rest.now f) (λ f. IsFraction rest.now f) }
{
    match count_of(rest) {
        Some(frac) => Format::of_any_width(true, frac + 1, frac),
        None => None,
    }
}

/// Returns the format of the rest of a name after Q.
fn after_q(rest: &[u8]) -> Option<Format>
    ensures { MatchOption result ((f : FormatParts) → ¬ IsAfterQ rest.now f) (λ f. IsAfterQ rest.now f) }
{
    match pointed(true, rest) {
        Some(format) => Some(format),
        None => fraction(rest),
    }
}

/// Returns the first byte and the bytes after it. `None`: there are no bytes.
fn split_first(bytes: &[u8]) -> Option<(u8, &[u8])>
    ensures { MatchOption result (bytes.now ≡ []) (λ r. bytes.now ≡ r.0 ∷ r.1.now) }
{
    if bytes.is_empty() {
        None
    } else {
        Some((bytes[0], &bytes[1..]))
    }
}

/// Whether a byte is the letter `capital` in either case.
fn is_letter(byte: u8, capital: u8) -> bool
    requires { capital < 128 }
    ensures { IsTrue result ↔ IsLetter capital byte }
{
    byte == capital || byte == capital + 32
}

/// Returns the format of the rest of a name after U.
fn after_u(rest: &[u8]) -> Option<Format>
    ensures { MatchOption result ((f : FormatParts) → ¬ IsAfterU rest.now f) (λ f. IsAfterU rest.now f) }
{
    match split_first(rest) {
        Some((first, counts)) if is_letter(first, b'Q') => pointed(false, counts),
        _ => counted(false, rest),
    }
}

/// Returns the format that a word names, of any width from 1 to 64 bits, with a fraction of 0 to 64. `None`: it does
/// not name a format.
///
/// A name is I or U, whole bits, F, fraction bits, with a minus before whole bits below zero: I-9F25 has 16 bits; or Q
/// or UQ, whole bits, a point, fraction bits, in ARM's counting, in which the sign bit is one of the whole bits; or Q
/// and fraction bits, with one whole bit. Letters may have either case.
pub fn format_named(word: &[u8]) -> Option<Format>
    ensures { MatchOption result ((f : FormatParts) → ¬ IsFormatName word.now f) (λ f. IsFormatName word.now f) }
{
    let Some((first, rest)) = split_first(word) else {
        return None;
    };
    if is_letter(first, b'I') {
        counted(true, rest)
    } else if is_letter(first, b'Q') {
        after_q(rest)
    } else if is_letter(first, b'U') {
        after_u(rest)
    } else {
        None
    }
}
