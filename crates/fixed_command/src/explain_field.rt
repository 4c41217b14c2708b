//! Explains why a conversion refuses a field.

ghost use Rattle.std.specs.Prelude.{◌≡◌, ◌==◌, ◌≤◌, ◌-◌, ◌++◌, [], codes, if◌then◌else◌, length, take};
ghost use Rattle.std.specs.List.{list_any};
ghost use Rattle.fixed_command.specs.Convert.{without_return};
ghost use Rattle.fixed_command.specs.Explained.{ExplainsFieldByte, ExplainsOverflow, NamesAByte, field_place};
ghost use Rattle.fixed_command.specs.Explained.{blanks_of, field_hint, field_place_text, looked_at, place_of};
ghost use Rattle.fixed_command.specs.Fields.{read_for};

use crate::convert::without_return;
use crate::explain::{MAX_EXPLANATION, explanation, names_a_byte, refused_place};
use crate::field::{FieldForm, bare, swapped};
use crate::hint::{Offers, hint_of};
use crate::layout::after_blanks;
use crate::{ConvertRule, Settings};
use fixed_steps::Steps;
use itoa::Buffer;
use std::sync::ledger::Ledger;
use text_buffer::TextBuffer;

/// Appends the byte, if any, that is read for a byte of a field, if there is room for it.
fn push_looked_at(form: &FieldForm<'_>, byte: u8, numeral: &mut TextBuffer<MAX_EXPLANATION>)
    ensures { numeral.new ≡ take 640 (numeral.old ++ read_for form.now.thousands.now form.now.decimal byte) }
{
    if numeral.room() > 0 && !form.thousands.contains(&byte) {
        numeral.push(swapped(form.decimal, byte));
    }
}

/// Returns the numeral of a field, as far as there is room for it.
pub(crate) fn numeral_of(form: &FieldForm<'_>, field: &[u8]) -> TextBuffer<MAX_EXPLANATION>
    ensures { result ≡ looked_at form.now field.now }
{
    let bytes = bare(form, field);
    let mut numeral = TextBuffer::new();
    'bytes: for at in 0..bytes.len() {
        push_looked_at(form, bytes[at], &mut numeral);
    }
    numeral
}

/// Returns how many bytes that do not separate thousands are left to pass after this byte.
fn left_after(form: &FieldForm<'_>, byte: u8, left: usize) -> usize
    requires { 1 ≤ left }
    ensures { result ≡ (if list_any (λ b. b == byte) form.now.thousands.now then left else left - 1) }
{
    if form.thousands.contains(&byte) {
        left
    } else {
        left - 1
    }
}

/// Returns the position, from 1, of the `number`th byte that does not separate thousands, from 1.
fn place_of(form: &FieldForm<'_>, bytes: &[u8], number: usize) -> usize
    ensures place { result ≡ place_of form.now.thousands.now bytes.now number }
    ensures within { result ≤ length bytes.now }
{
    let mut left = number;
    'bytes: for at in 0..bytes.len() {
        if left == 0 {
            return at;
        }
        left = left_after(form, bytes[at], left);
    }
    bytes.len()
}

/// How many bytes of a field are blanks before its numeral.
fn blanks_of(form: &FieldForm<'_>, field: &[u8]) -> usize
    ensures { result ≡ blanks_of form.now field.now }
{
    if form.is_trimmed {
        field.len() - after_blanks(field).len()
    } else {
        0
    }
}

/// Returns the position in a field, from 1, of the byte that is read as the byte at a position of its numeral, from 1.
fn place_in_field(form: &FieldForm<'_>, field: &[u8], place: usize) -> usize
    ensures { result ≡ field_place form.now field.now place }
{
    blanks_of(form, field) + place_of(form, bare(form, field), place)
}

/// Appends the byte at a position of a field, from 1, and the position.
fn push_place(out: &mut TextBuffer<MAX_EXPLANATION>, field: &[u8], place: usize)
    requires empty { out.old ≡ [] }
    ensures appended { out.new ≡ field_place_text field.now place }
    ensures short { length out.new ≤ 64 }
{
    out.push_bytes(b", byte ");
    let mut digits = Buffer::new();
    out.push_bytes(digits.format(place).as_bytes());
    out.push_bytes(b", '");
    let byte = field.get(place.saturating_sub(1)).copied().unwrap_or(b'?');
    out.push(if byte == b'\n' { b'?' } else { byte });
    out.push(b'\'');
}

/// Returns a hint about a field whose numeral is invalid at a place, from 1.
fn field_hint(
    form: &FieldForm<'_>,
    field: &[u8],
    place: usize,
    settings: &Settings,
    offers: Offers,
) -> &'static str
    ensures value { result.now ≡ field_hint offers settings.now form.now field.now place }
    ensures short { length result.now ≤ 64 }
{
    let text = bare(form, field);
    let at = place_of(form, text, place);
    hint_of(offers, settings.spelling, settings.radix, text, at)
}

/// Appends the first byte of a field for which its numeral is refused with this cause, if any, and a hint.
fn push_byte<L: Ledger>(
    out: &mut TextBuffer<MAX_EXPLANATION>,
    form: &FieldForm<'_>,
    field: &[u8],
    cause: &[u8],
    settings: &Settings,
    offers: Offers,
    steps: &mut Steps<L>,
)
    requires empty { out.old ≡ [] }
    ensures { ExplainsFieldByte cause.now offers settings.now form.now field.now out.new }
{
    let numeral = numeral_of(form, field);
    let place = refused_place(numeral.as_bytes(), cause, settings, steps);
    if place > 0 {
        push_place(out, field, place_in_field(form, field, place));
        out.push_bytes(field_hint(form, field, place, settings, offers).as_bytes());
    }
}

/// Explains a field that is refused for this cause. For an overflow, gives the number that was reached and the range of
/// the format; for a byte that no numeral, or no word, has there, the position from 1 of the first such byte, and what
/// it is likely to be. Empty for other causes. It reads up to 640 bytes of the field's numeral.
pub fn field_explanation<L: Ledger>(
    rule: &ConvertRule,
    offers: Offers,
    form: &FieldForm<'_>,
    field: &[u8],
    cause: &[u8],
    steps: &mut Steps<L>,
) -> TextBuffer<MAX_EXPLANATION>
    ensures overflow { cause.now ≡ codes "overflow"
        → ExplainsOverflow rule.now (without_return (looked_at form.now field.now)) result }
    ensures byte { NamesAByte cause.now
        → ExplainsFieldByte cause.now offers rule.now form.now field.now result }
    ensures other { ¬ (cause.now ≡ codes "overflow") → ¬ NamesAByte cause.now → result ≡ [] }
{
    if names_a_byte(cause) {
        let mut out = TextBuffer::new();
        push_byte(&mut out, form, field, cause, rule.settings(), offers, steps);
        return out;
    }
    let numeral = numeral_of(form, field);
    explanation(
        rule,
        offers,
        without_return(numeral.as_bytes()),
        0,
        cause,
        steps,
    )
}
