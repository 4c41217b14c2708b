//! The requested columns under a header.
//!
//! An operand is tried as a name before it is read as a number, so a column named `2024` is found. If two columns share
//! a name, it means the first.

ghost use Rattle.std.specs.Prelude.{◌≡◌, ◌≢◌, ◌≤◌, ◌<◌, ◌↔◌, IsTrue, MatchOption, length};
ghost use Rattle.column_engine.specs.Answers.{HasNoNamed, IsFirstNamed, IsFound, IsMissing};
ghost use Rattle.column_engine.specs.Rows.{content, field_texts};
ghost use Rattle.column_engine.specs.Limits.{longest_record};

use crate::columns::{Column, Range};
use crate::end::Stop;
use crate::field::{plain_content, write_content};
use crate::place::{Place, field_end};
use crate::record_buffer::RecordBuffer;

/// Whether the text of a field equals `name`.
fn is_named(raw: &[u8], name: &[u8], text: &mut RecordBuffer) -> bool
    requires { length raw.now ≤ longest_record }
    ensures { IsTrue result ↔ (content Place.Start raw.now ≡ name.now) }
{
    match plain_content(raw) {
        Some(plain) => plain == name,
        None => {
            write_content(raw, text);
            text.as_slice() == name
        }
    }
}

/// Returns the index of the first field of a header named `name`.
fn place_of_name(
    delimiter: u8,
    header: &[u8],
    name: &[u8],
    text: &mut RecordBuffer,
) -> Option<usize>
    requires { length header.now ≤ longest_record }
    ensures { MatchOption result (HasNoNamed name.now (field_texts delimiter header.now)) (IsFirstNamed name.now
        (field_texts delimiter header.now)) }
{
    let mut rest = header;
    let mut column = 0;
    'fields: loop {
        let end = field_end(delimiter, rest);
        if is_named(&rest[..end], name, text) {
            return Some(column);
        }
        if end == rest.len() {
            return None;
        }
        rest = &rest[end + 1..];
        column += 1;
    }
}

/// Returns the columns that an operand means under a header.
pub(crate) fn found_column(
    delimiter: u8,
    header: &[u8],
    column: &Column,
    text: &mut RecordBuffer,
) -> Option<Range>
    requires { length header.now ≤ longest_record }
    ensures { MatchOption result (IsMissing (field_texts delimiter header.now) column.now) (IsFound (field_texts
        delimiter header.now) column.now) }
{
    match column {
        Column::At(range) => Some(*range),
        Column::Named(name, range) => match place_of_name(
            delimiter,
            header,
            name.as_bytes(),
            text,
        ) {
            Some(place) => Some(Range {
                from: place,
                to: place,
            }),
            None => *range,
        },
    }
}
