//! Numbers of several fields of a register word: a line for each, or a JSON object on a line for each.
//!
//! A word is refused as a whole, for the first of its fields that it does not have. An object shows at most 84 bytes of
//! its word, so that 32 objects fit the longest answer: a binary word with underscores between its nibbles has 81.

ghost use Rattle.std.specs.Prelude.{◌≡◌, ◌≤◌, ◌<◌, ◌+◌, ◌*◌, ◌++◌, IfErr, IfSome, OnOk, is_some, length, map, take};
ghost use Rattle.fixed_bits.specs.Formats.{IsFormat};
ghost use Rattle.fixed_bits.specs.Ranges.{IsWide};
ghost use Rattle.fixed_fields.specs.Answer.{AreFields, HasFieldFault, IsFieldsAnswer, between, field_answer};
ghost use Rattle.fixed_fields.specs.Answer.{given_text, most_of, next_most, part_of, plain, refused_text};
ghost use Rattle.fixed_show.specs.Blocks.{Appends};
ghost use Rattle.fixed_show.specs.Forms.{refusal};
ghost use Rattle.fixed_show.specs.JsonText.{object_text};
ghost use Rattle.fixed_show.specs.declared.form.Form.TheVariants.{Lines, Members};

use crate::bit_field::field_word;
use crate::list::{Field, FieldList};
use fixed_bits::Format;
use fixed_numeral::Radix;
use fixed_respell::format_name;
use fixed_show::{
    Form, MAX_BLOCK, MAX_OBJECT, Part, PartFault, push_fact, push_integer_fact, push_refusal,
    push_refused_object, read_part,
};
use fixed_steps::Steps;
use fixed_write::push_shortest;
use std::sync::ledger::Ledger;
use text_buffer::TextBuffer;

/// A question about the numbers of several fields of a word.
#[derive(Clone, Copy)]
pub struct FieldsQuestion {
    /// The radix of a word without a prefix.
    pub radix: Radix,
    /// Whether the word's bytes are reversed first.
    pub is_reversed: bool,
    /// The fields.
    pub fields: FieldList,
}

/// How many bytes of a word its objects show.
const MAX_GIVEN: usize = 84;

/// A format's width.
fn width_of(format: Format) -> u32
    ensures value { result ≡ format.width }
    ensures some { 0 < result }
    ensures most { result ≤ 64 }
{
    format.width()
}

/// A format's fraction length.
fn frac_of(format: Format) -> u32
    ensures value { result ≡ format.frac }
    ensures most { result ≤ 64 }
{
    format.frac()
}

/// Shows that the format of a field is valid.
fn check_format(format: Format)
    ensures { IsFormat format.width format.frac }
{
    let _frac = format.frac();
}

/// Returns which part of a word a field is.
fn part_of(question: &FieldsQuestion, field: Field) -> Part
    ensures { result ≡ part_of question.now field }
{
    Part {
        low: Some(u32::from(field.low)),
        is_reversed: question.is_reversed,
    }
}

/// Returns a byte of a register word, or a question mark in place of any other byte.
fn plain(byte: u8) -> u8
    ensures { result ≡ plain byte }
{
    if byte.is_ascii_alphanumeric() || byte == b'_' {
        byte
    } else {
        b'?'
    }
}

/// Appends bytes of a register word, with a question mark in place of any other byte.
fn push_plain<const N: usize>(out: &mut TextBuffer<N>, bytes: &[u8])
    requires room { length out.old + length bytes.now ≤ N }
    ensures { out.new ≡ out.old ++ map plain bytes.now }
{
    for byte in bytes {
        out.push(plain(*byte));
    }
}

/// Returns the first 84 bytes of a word.
fn given_bytes(word: &[u8]) -> &[u8]
    ensures value { result.now ≡ take 84 word.now }
    ensures short { length result.now ≤ 84 }
{
    &word[..MAX_GIVEN.min(word.len())]
}

/// Appends the start of an object: the first 84 bytes of a word.
fn push_given<const N: usize>(out: &mut TextBuffer<N>, word: &[u8])
    requires room { length out.old + 95 ≤ N }
    ensures appended { out.new ≡ out.old ++ given_text word.now }
    ensures short { length out.new ≤ length out.old + 95 }
{
    out.push_bytes(b"{\"given\":\"");
    push_plain(out, given_bytes(word));
    out.push(b'"');
}

/// Appends the answer about a field, whose number is `bits`.
fn push_field<const N: usize, L: Ledger>(
    out: &mut TextBuffer<N>,
    form: Form,
    word: &[u8],
    field: Field,
    bits: i128,
    steps: &mut Steps<L>,
)
    requires wide { IsWide bits }
    requires room { length out.old + most_of form ≤ N }
    ensures appended { out.new ≡ out.old ++ field_answer form word.now field bits }
    ensures short { length out.new ≤ length out.old + most_of form }
    ensures cost { steps.new ≤ steps.old + 48 }
{
    let name = field_word(width_of(field.format), u32::from(field.low));
    let mut text: TextBuffer<48> = TextBuffer::new();
    push_shortest(&mut text, bits, frac_of(field.format), steps);
    match form {
        Form::Lines => push_fact(out, form, name.as_bytes(), text.as_bytes()),
        Form::Members => {
            push_given(out, word);
            push_fact(out, form, b"field", name.as_bytes());
            push_fact(out, form, b"format", format_name(field.format).as_bytes());
            push_fact(out, form, b"text", text.as_bytes());
            push_integer_fact(out, form, b"bits", bits);
            out.push(b'}');
        }
    }
}

/// Appends what stands between the answers about a field and about the next: a newline after an object.
fn push_between<const N: usize>(out: &mut TextBuffer<N>, form: Form, more: &[Field])
    requires { length out.old < N }
    ensures appended { out.new ≡ out.old ++ between form more.now }
    ensures short { length out.new ≤ length out.old + 1 }
{
    if form == Form::Members && !more.is_empty() {
        out.push(b'\n');
    }
}

/// Appends the answers about some fields, or returns why the word does not have the first that it lacks.
fn push_fields<const N: usize, L: Ledger>(
    out: &mut TextBuffer<N>,
    form: Form,
    question: &FieldsQuestion,
    fields: &[Field],
    word: &[u8],
    steps: &mut Steps<L>,
) -> Result<(), PartFault>
    requires room { length out.old + next_most form * length fields.now ≤ N }
    ensures ok { OnOk result (Appends (AreFields form question.now fields.now word.now)
        (next_most form * length fields.now) out.old out.new) }
    ensures err { IfErr result (HasFieldFault question.now fields.now word.now) }
    ensures cost { steps.new ≤ steps.old + 48 * length fields.now }
{
    match fields {
        [] => Ok(()),
        [field, more @ ..] => {
            let part = part_of(question, *field);
            match read_part(word, question.radix, part, field.format) {
                Err(fault) => Err(fault),
                Ok(bits) => {
                    check_format(field.format);
                    push_field(out, form, word, *field, bits, steps);
                    push_between(out, form, more);
                    push_fields(out, form, question, more, word, steps)
                }
            }
        }
    }
}

/// Appends the report of a refused word.
fn push_refused<const N: usize>(out: &mut TextBuffer<N>, form: Form, word: &[u8], fault: PartFault)
    requires lines { form ≡ Lines → length out.old + MAX_BLOCK ≤ N }
    requires members { form ≡ Members → length out.old + MAX_OBJECT ≤ N }
    ensures appended { out.new ≡ out.old ++ refused_text form word.now fault }
    ensures lines { form ≡ Lines → length out.new ≤ length out.old + MAX_BLOCK }
    ensures members { form ≡ Members → length out.new ≤ length out.old + MAX_OBJECT }
{
    match form {
        Form::Lines => push_refusal(out, form, fault.message()),
        Form::Members => push_refused_object(out, word, fault.message()),
    }
}

/// Appends a line for each field of a word, in order: its bits `HI:LO` and the shortest text of its number. If the word
/// lacks one, appends only a line `error: ` and why, and returns that message. There must be room for `MAX_BLOCK`
/// bytes.
pub fn fields_block<const N: usize, L: Ledger>(
    question: &FieldsQuestion,
    word: &[u8],
    out: &mut TextBuffer<N>,
    steps: &mut Steps<L>,
) -> Option<&'static str>
    requires room { length out.old + MAX_BLOCK ≤ N }
    ensures block { Appends (IsFieldsAnswer Lines question.now word.now (is_some result)) MAX_BLOCK out.old out.new }
    ensures refused { IfSome result (λ m. out.new ≡ out.old ++ refusal Lines m.now) }
    ensures cost { steps.new ≤ steps.old + 1536 }
{
    let mut lines: TextBuffer<MAX_OBJECT> = TextBuffer::new();
    let fields = question.fields.as_slice();
    match push_fields(&mut lines, Form::Lines, question, fields, word, steps) {
        Ok(()) => {
            out.push_bytes(lines.as_bytes());
            None
        }
        Err(fault) => {
            push_refused(out, Form::Lines, word, fault);
            Some(fault.message())
        }
    }
}

/// Appends an object of JSON for each field of a word, each but the last with a newline after it: the first 84 bytes of
/// the word, the field, its format, and the shortest text and the bits of its number. If the word lacks one, appends
/// only one object that says why, and returns that message. There must be room for `MAX_OBJECT` bytes.
pub fn fields_object<const N: usize, L: Ledger>(
    question: &FieldsQuestion,
    word: &[u8],
    out: &mut TextBuffer<N>,
    steps: &mut Steps<L>,
) -> Option<&'static str>
    requires room { length out.old + MAX_OBJECT ≤ N }
    ensures objects { Appends (IsFieldsAnswer Members question.now word.now (is_some result)) MAX_OBJECT out.old
        out.new }
    ensures refused { IfSome result (λ m. out.new ≡ out.old ++ object_text word.now (refusal Members m.now)) }
    ensures cost { steps.new ≤ steps.old + 1536 }
{
    let mut objects: TextBuffer<MAX_OBJECT> = TextBuffer::new();
    let fields = question.fields.as_slice();
    match push_fields(&mut objects, Form::Members, question, fields, word, steps) {
        Ok(()) => {
            out.push_bytes(objects.as_bytes());
            None
        }
        Err(fault) => {
            push_refused(out, Form::Members, word, fault);
            Some(fault.message())
        }
    }
}
