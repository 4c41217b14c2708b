//! The word `HI:LO:FORMAT` of a field of bits with a format.

ghost use Rattle.std.specs.Prelude.{◌<◌, MatchOption, length};
ghost use Rattle.fixed_fields.specs.Fields.{IsFieldAt, IsFieldName};
ghost use Rattle.fixed_fields.specs.declared.list.Field.{Field};

use crate::bit_field::field_named;
use crate::list::Field;
use fixed_names::format_of_name;

/// Returns the field that a word names by the colon at an index: before it `HI:LO`, behind it the format.
fn field_at(word: &[u8], index: usize) -> Option<Field>
    requires within { index < length word.now }
    ensures { MatchOption result ((field : Field) → ¬ IsFieldAt word.now index field) (IsFieldAt word.now index) }
{
    if word[index] != b':' {
        return None;
    }
    let (bits, name) = word.split_at(index);
    match format_of_name(&name[1..]) {
        Some(format) => match field_named(bits, format) {
            Some(low) => Some(Field {
                low: low as u8,
                format,
            }),
            None => None,
        },
        None => None,
    }
}

/// Returns the field that a word `HI:LO:FORMAT` names: the bits of a word of 64 from `LO` up to `HI`, as many as the
/// format has. The format has any of its names. `None` if it does not name such a field.
pub fn field_of_name(word: &[u8]) -> Option<Field>
    ensures { MatchOption result ((field : Field) → ¬ IsFieldName word.now field) (IsFieldName word.now) }
{
    'colons: for index in 0..word.len() {
        match field_at(word, index) {
            Some(field) => return Some(field),
            None => (),
        }
    }
    None
}
