//! Finds the ends of CSV records and fields.

ghost use Rattle.std.specs.Prelude.{◌≡◌, ◌≤◌, ◌<◌, ◌+◌, ◌++◌, [], ◌∷◌, ◌==◌, ℕ, true, false, drop, get_or, length};
ghost use Rattle.std.specs.Prelude.{IfSome, IsTrue, take};
ghost use Rattle.column_engine.specs.Places.{HasNoBefore, IsPlainBefore, StaysFor, behind_plain, first_set};
ghost use Rattle.column_engine.specs.Rows.{IsUnended, ends_field, ends_record, place_after, places_after, raw_fields};
ghost use Rattle.column_engine.specs.Rows.{within_after};
ghost use Rattle.column_engine.specs.declared.place.TheConstants.{NEAR};

use memchr::{memchr, memchr3};
use std::simd::prelude::*;

/// How many bytes are compared at once.
const NEAR: usize = 16;

/// The state of the lexer in a record.
#[derive(Clone, Copy, Debug, PartialEq, Eq)]
pub enum Place {
    /// At the start of a field.
    Start,
    /// In an unquoted field, or after the quoted part of a field.
    Inside,
    /// Between the quotes of a field.
    Quoted,
    /// After a quote that closes a field or is the first of a doubled quote.
    AfterQuote,
}

/// Whether a byte ends a record.
fn ends_record(place: Place, byte: u8) -> bool
    ensures { result ≡ ends_record place byte }
{
    match place {
        Place::Quoted => false,
        _ => byte == b'\n' || byte == b'\r',
    }
}

/// Whether a byte ends a field.
fn ends_field(delimiter: u8, place: Place, byte: u8) -> bool
    ensures { result ≡ ends_field delimiter place byte }
{
    match place {
        Place::Quoted => false,
        _ => byte == delimiter,
    }
}

/// Returns the state after a byte of a field.
pub(crate) fn within_after(place: Place, byte: u8) -> Place
    ensures { result ≡ within_after place byte }
{
    match place {
        Place::Start | Place::AfterQuote if byte == b'"' => Place::Quoted,
        Place::Quoted if byte == b'"' => Place::AfterQuote,
        Place::Quoted => Place::Quoted,
        _ => Place::Inside,
    }
}

/// Returns the state after a byte of a record.
fn place_after(delimiter: u8, place: Place, byte: u8) -> Place
    ensures { result ≡ place_after delimiter place byte }
{
    if ends_field(delimiter, place, byte) {
        Place::Start
    } else {
        within_after(place, byte)
    }
}

/// Returns the index of the lowest set bit, or `NEAR` if none is set.
#[inline(always)]
fn first_set(marks: u64) -> usize
    ensures { result ≡ first_set marks }
{
    if marks == 0 {
        NEAR
    } else {
        marks.trailing_zeros() as usize
    }
}

/// Counts the bytes before the first `byte` in the next `NEAR`, all of them if it is not there.
#[inline(always)]
fn before_near(byte: u8, bytes: &[u8]) -> usize
    requires { NEAR ≤ length bytes.now }
    ensures within { result ≤ NEAR }
    ensures none { HasNoBefore byte bytes.now result }
    ensures found { result < NEAR → get_or bytes.now result 0 ≡ byte }
{
    let marks = u8x16::from_slice(bytes)
        .simd_eq(u8x16::splat(byte))
        .to_bitmask();
    first_set(marks)
}

/// Counts the bytes before the first `byte`, all of them if there is none.
#[inline(always)]
fn before_byte(byte: u8, bytes: &[u8]) -> usize
    ensures within { result ≤ length bytes.now }
    ensures none { HasNoBefore byte bytes.now result }
    ensures found { result < length bytes.now → get_or bytes.now result 0 ≡ byte }
{
    if NEAR <= bytes.len() {
        let near = before_near(byte, bytes);
        if near < NEAR {
            return near;
        }
    }
    match memchr(byte, bytes) {
        Some(count) => count,
        None => bytes.len(),
    }
}

/// Counts the bytes before the first quote or line end, all of them if there is none.
fn before_mark(bytes: &[u8]) -> usize
    ensures within { result ≤ length bytes.now }
    ensures plain { IsPlainBefore bytes.now result }
{
    if !bytes.is_empty() && bytes[0] == b'"' {
        return 0;
    }
    match memchr3(b'"', b'\n', b'\r', bytes) {
        Some(count) => count,
        None => bytes.len(),
    }
}

/// Returns the state after bytes of a record without quotes and line ends.
fn behind_plain(delimiter: u8, place: Place, bytes: &[u8]) -> Place
    ensures { result ≡ behind_plain delimiter place bytes.now }
{
    if bytes.is_empty() {
        return place;
    }
    if bytes[bytes.len() - 1] == delimiter {
        Place::Start
    } else {
        Place::Inside
    }
}

/// Whether bytes at the start of a field open with a quote that is not the delimiter.
fn opens_quotes(delimiter: u8, bytes: &[u8]) -> bool
    ensures some { IsTrue result → 0 < length bytes.now }
    ensures quote { IsTrue result → get_or bytes.now 0 0 ≡ 34 }
    ensures other { IsTrue result → (34 == delimiter) ≡ false }
{
    !bytes.is_empty() && bytes[0] == b'"' && delimiter != b'"'
}

/// Whether the next byte is a quote that opens a field.
fn opens_field(delimiter: u8, place: Place, bytes: &[u8]) -> bool
    ensures start { IsTrue result → place ≡ Place.Start }
    ensures some { IsTrue result → 0 < length bytes.now }
    ensures quote { IsTrue result → get_or bytes.now 0 0 ≡ 34 }
    ensures other { IsTrue result → (34 == delimiter) ≡ false }
{
    match place {
        Place::Start => opens_quotes(delimiter, bytes),
        _ => false,
    }
}

/// Passes over bytes that neither end a record nor change what ends it. Returns their count and the state after them.
#[inline(always)]
fn pass_over(delimiter: u8, place: Place, bytes: &[u8]) -> (usize, Place)
    ensures within { result.0 ≤ length bytes.now }
    ensures unended { IsUnended delimiter place (take result.0 bytes.now) }
    ensures after { result.1 ≡ places_after delimiter place (take result.0 bytes.now) }
{
    if opens_field(delimiter, place, bytes) {
        return (1 + before_byte(b'"', &bytes[1..]), Place::Quoted);
    }
    match place {
        Place::Quoted => (before_byte(b'"', bytes), Place::Quoted),
        Place::AfterQuote => (0, Place::AfterQuote),
        _ => {
            let count = before_mark(bytes);
            (count, behind_plain(delimiter, place, &bytes[..count]))
        }
    }
}

/// Finds the end of the current record in `bytes`. Returns its index, if any, the lexer state there, and whether the
/// fast path was taken: then there is no newline before the index.
#[inline(always)]
pub(crate) fn record_end(delimiter: u8, from: Place, bytes: &[u8]) -> (Option<usize>, Place, bool)
    ensures some { IfSome result.0 (λ end. (end < length bytes.now) × IsUnended delimiter from (take end bytes.now)
        × (result.1 ≡ places_after delimiter from (take end bytes.now)) × (ends_record result.1 (get_or bytes.now end
        0) ≡ true)) }
    ensures none { result.0 ≡ None → IsUnended delimiter from bytes.now × (result.1 ≡ places_after delimiter from
        bytes.now) }
{
    let mut place = from;
    let mut at = 0;
    let mut is_plain = from != Place::Quoted;
    'bytes: loop {
        let (count, next) = pass_over(delimiter, place, &bytes[at..]);
        at += count;
        if at == bytes.len() {
            return (None, next, is_plain);
        }
        if ends_record(next, bytes[at]) {
            return (Some(at), next, is_plain);
        }
        place = place_after(delimiter, next, bytes[at]);
        at += 1;
        is_plain = false;
    }
}

/// Counts the bytes of a field that keep its state, up to the next that may change it or end the field.
fn staying(delimiter: u8, place: Place, bytes: &[u8]) -> usize
    ensures within { result ≤ length bytes.now }
    ensures stays { StaysFor delimiter place bytes.now result }
{
    match place {
        Place::Inside => before_byte(delimiter, bytes),
        Place::Quoted => before_byte(b'"', bytes),
        Place::Start | Place::AfterQuote => 0,
    }
}

/// Returns a state from which the first field of a record may be read: `Inside` unless it begins with a quote.
fn first_place(body: &[u8]) -> Place
    ensures { (delimiter : ℕ) → raw_fields delimiter Place.Start body.now ≡ raw_fields delimiter result body.now }
{
    if body.is_empty() {
        return Place::Inside;
    }
    if body[0] == b'"' {
        Place::Start
    } else {
        Place::Inside
    }
}

/// Returns the length of the first field of a record in bytes, by a walk over its bytes.
fn walked_end(delimiter: u8, body: &[u8]) -> usize
    ensures within { result ≤ length body.now }
    ensures last { result ≡ length body.now → raw_fields delimiter Place.Start body.now ≡ body.now ∷ [] }
    ensures more { result < length body.now
        → raw_fields delimiter Place.Start body.now ≡ take result body.now ∷ raw_fields delimiter Place.Start (drop
        (result + 1) body.now) }
    ensures delimiter { result < length body.now → get_or body.now result 0 ≡ delimiter }
{
    let mut place = first_place(body);
    let mut at = 0;
    'bytes: loop {
        at += staying(delimiter, place, &body[at..]);
        if at == body.len() {
            return at;
        }
        if ends_field(delimiter, place, body[at]) {
            return at;
        }
        place = within_after(place, body[at]);
        at += 1;
    }
}

/// Returns the length of the first field of a record if it is quoted, has no quote inside and is not the last.
fn quoted_end(delimiter: u8, body: &[u8]) -> Option<usize>
    ensures within { IfSome result (λ end. end < length body.now) }
    ensures more { IfSome result (λ end. raw_fields delimiter Place.Start body.now ≡ take end body.now
        ∷ raw_fields delimiter Place.Start (drop (end + 1) body.now)) }
    ensures delimiter { IfSome result (λ end. get_or body.now end 0 ≡ delimiter) }
{
    if !opens_quotes(delimiter, body) {
        return None;
    }
    let close = 1 + before_byte(b'"', &body[1..]);
    if body.len() - close < 2 {
        return None;
    }
    if body[close + 1] == delimiter {
        Some(close + 1)
    } else {
        None
    }
}

/// Returns the length of the first field of a record in bytes.
#[inline(always)]
pub fn field_end(delimiter: u8, body: &[u8]) -> usize
    ensures within { result ≤ length body.now }
    ensures last { result ≡ length body.now → raw_fields delimiter Place.Start body.now ≡ body.now ∷ [] }
    ensures more { result < length body.now
        → raw_fields delimiter Place.Start body.now ≡ take result body.now ∷ raw_fields delimiter Place.Start (drop
        (result + 1) body.now) }
    ensures delimiter { result < length body.now → get_or body.now result 0 ≡ delimiter }
{
    match first_place(body) {
        Place::Inside => before_byte(delimiter, body),
        _ => match quoted_end(delimiter, body) {
            Some(end) => end,
            None => walked_end(delimiter, body),
        },
    }
}
