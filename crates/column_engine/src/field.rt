//! The text of a field, and a text written as a field.

ghost use Rattle.std.specs.Prelude.{◌≡◌, ◌==◌, ◌<◌, ◌≤◌, ◌+◌, ◌*◌, ◌++◌, [], ◌∷◌, IfSome, if◌then◌else◌, length};
ghost use Rattle.csv.specs.Writing.{default_writer, needs_byte, needs_quotes, quoted};
ghost use Rattle.column_engine.specs.Answers.{as_field, calls_for_quotes, in_quotes};
ghost use Rattle.column_engine.specs.Rows.{content, is_dropped};
ghost use Rattle.column_engine.specs.Limits.{longest_record};

use crate::place::{Place, within_after};
use crate::record_buffer::RecordBuffer;
use memchr::memchr;

/// Whether a byte of a field is an opening or closing quote, or the first of a doubled quote.
pub(crate) fn is_dropped(place: Place, byte: u8) -> bool
    ensures { result ≡ is_dropped place byte }
{
    match place {
        Place::Start | Place::Quoted => byte == b'"',
        Place::Inside | Place::AfterQuote => false,
    }
}

/// Returns the text of a field if it is a slice of the field's bytes.
pub(crate) fn plain_content(raw: &[u8]) -> Option<&[u8]>
    ensures { IfSome result (λ text. text.now ≡ content Place.Start raw.now) }
{
    if raw.is_empty() {
        return Some(raw);
    }
    if raw[0] != b'"' {
        return Some(raw);
    }
    let rest = &raw[1..];
    match memchr(b'"', rest) {
        Some(end) if end + 1 == rest.len() => Some(&rest[..end]),
        _ => None,
    }
}

/// Appends a byte of a field if it belongs to the text.
fn push_kept(place: Place, byte: u8, text: &mut RecordBuffer)
    requires { length text.old < longest_record }
    ensures text { text.new ≡ text.old ++ (if is_dropped place byte then [] else byte ∷ []) }
    ensures short { length text.new ≤ length text.old + 1 }
{
    if !is_dropped(place, byte) {
        text.push(byte);
    }
}

/// Writes the text of a field.
pub(crate) fn write_content(raw: &[u8], text: &mut RecordBuffer)
    requires { length raw.now ≤ longest_record }
    ensures { text.new ≡ content Place.Start raw.now }
{
    text.clear();
    let mut place = Place::Start;
    'bytes: for at in 0..raw.len() {
        push_kept(place, raw[at], text);
        place = within_after(place, raw[at]);
    }
}

/// Whether a byte needs quotes.
fn is_special(delimiter: u8, byte: u8) -> bool
    ensures { result ≡ needs_byte (record default_writer { delimiter = delimiter }) byte }
{
    byte == delimiter || byte == b'"' || byte == b'\r' || byte == b'\n'
}

/// Whether a text has a byte that needs quotes.
fn has_special(delimiter: u8, text: &[u8]) -> bool
    ensures { result ≡ needs_quotes (record default_writer { delimiter = delimiter }) text.now }
{
    'bytes: for at in 0..text.len() {
        if is_special(delimiter, text[at]) {
            return true;
        }
    }
    false
}

/// Whether a text must be quoted as a field.
pub(crate) fn calls_for_quotes(delimiter: u8, text: &[u8]) -> bool
    ensures { result ≡ calls_for_quotes delimiter text.now }
{
    if text.is_empty() || text[0] == 0xef {
        return true;
    }
    has_special(delimiter, text)
}

/// Appends a byte between quotes.
fn push_escaped(byte: u8, shown: &mut RecordBuffer)
    requires { length shown.old + 2 ≤ longest_record }
    ensures text { shown.new ≡ shown.old ++ (if byte == 34 then 34 ∷ byte ∷ [] else byte ∷ []) }
    ensures short { length shown.new ≤ length shown.old + 2 }
{
    if byte == b'"' {
        shown.push(b'"');
    }
    shown.push(byte);
}

/// Appends a text in quotes, with each quote in it doubled.
fn push_quoted(delimiter: u8, text: &[u8], shown: &mut RecordBuffer)
    requires { length shown.old + 2 * length text.now + 2 ≤ longest_record }
    ensures { shown.new ≡ shown.old ++ quoted (record default_writer { delimiter = delimiter }) text.now }
{
    shown.push(b'"');
    'bytes: for at in 0..text.len() {
        push_escaped(text[at], shown);
    }
    shown.push(b'"');
}

/// Writes a text as a field in quotes.
pub(crate) fn write_in_quotes(delimiter: u8, text: &[u8], shown: &mut RecordBuffer)
    requires { 2 * length text.now + 2 ≤ longest_record }
    ensures { shown.new ≡ in_quotes delimiter text.now }
{
    shown.clear();
    push_quoted(delimiter, text, shown);
}

/// Writes a text as a field.
pub(crate) fn write_as_field(delimiter: u8, text: &[u8], shown: &mut RecordBuffer)
    requires { 2 * length text.now + 2 ≤ longest_record }
    ensures { shown.new ≡ as_field delimiter text.now }
{
    if calls_for_quotes(delimiter, text) {
        write_in_quotes(delimiter, text, shown);
    } else {
        shown.clear();
        shown.append(text);
    }
}
