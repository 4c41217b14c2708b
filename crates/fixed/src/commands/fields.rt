//! Several fields of a register word, each with a format of its own, for `fixed bits`.

ghost use Rattle.std.specs.Prelude.{◌≡◌, IfErr, IfOk, codes, map};
ghost use Rattle.command_line.specs.Words.{values_of};
ghost use Rattle.fixed.specs.Questions.{AreFieldsAsked, AreNames, has_fields_in, has_two_colons};
ghost use Rattle.fixed_fields.specs.Fields.{IsFieldName, fields_of};
ghost use Rattle.fixed_fields.specs.declared.answer.FieldsQuestion.{FieldsQuestion};
ghost use Rattle.fixed_fields.specs.declared.list.Field.{Field};
ghost use Rattle.fixed_fields.specs.declared.list.FieldList.{FieldList};

use crate::options::{FIELD, SWAP};
use crate::settings::radix_of;
use command_line::given::{Asked, Given, Refusal};
use fixed_amounts::decimal_format_named;
use fixed_fields::{Field, FieldList, FieldsQuestion, field_of_name};
use fixed_names::format_of_name;
use fixed_respell::number_word;

/// Whether a word has two colons or more, as `HI:LO:FORMAT` does.
fn has_two_colons(word: &[u8]) -> bool
    ensures { result ≡ has_two_colons word.now }
{
    let mut has_one = false;
    for byte in word {
        if *byte == b':' {
            if has_one {
                return true;
            }
            has_one = true;
        }
    }
    false
}

/// Whether fields with formats of their own are requested: several, or one `HI:LO:FORMAT`.
pub fn has_fields(given: &Given<'_, '_>) -> bool
    ensures { result ≡ has_fields_in (values_of given.now (codes "field")) }
{
    match given.values(&FIELD) {
        None | Some([]) => false,
        Some([word]) => has_two_colons(word.as_bytes()),
        Some(_) => true,
    }
}

/// Whether two texts are the highest and the lowest bit of a field of a word of 64 bits.
fn are_bits(high: &[u8], low: &[u8]) -> bool {
    match (number_word(high, 63), number_word(low, 63)) {
        (Some(high), Some(low)) => low <= high,
        _ => false,
    }
}

/// Returns why a word does not name a field with a format.
fn why_no_field(word: &str) -> &'static str {
    let Some((high, rest)) = word.split_once(':') else {
        return "is not a field: it is HI:LO:FORMAT";
    };
    let Some((low, name)) = rest.split_once(':') else {
        return "has no format: if there are several fields, each is HI:LO:FORMAT";
    };
    if !are_bits(high.as_bytes(), low.as_bytes()) {
        return "is not a field: HI and LO are 0 to 63, without leading zeros, and HI is not below LO";
    }
    if decimal_format_named(name.as_bytes()).is_some() {
        return "has a decimal format: a field takes a binary one";
    }
    match format_of_name(name.as_bytes()) {
        Some(_) => "has a format of another width than HI:LO",
        None => {
            "has an invalid format: I or U, whole bits, F, fraction bits, 1 to 64 in all; or as Q15, UQ8.8"
        }
    }
}

/// Returns the field that a word names.
fn field_of<'a>(word: &'a str) -> Asked<'a, Field>
    ensures value { IfOk result (λ field. IsFieldName word.now field) }
    ensures refused { IfErr result (λ _. (field : Field) → ¬ IsFieldName word.now field) }
{
    match field_of_name(word.as_bytes()) {
        Some(field) => Ok(field),
        None => Err(Refusal::Word(word, why_no_field(word))),
    }
}

/// Returns the fields that words name.
fn fields_named<'a>(words: &[&'a str]) -> Asked<'a, FieldList>
    ensures value { IfOk result (λ list. AreNames (map (λ s. s.now) words.now) (fields_of list)) }
    ensures refused { IfErr result (λ _. (list : FieldList)
        → ¬ AreNames (map (λ s. s.now) words.now) (fields_of list)) }
{
    let mut list = FieldList::new();
    let mut rest = words;
    'words: while !rest.is_empty() {
        let word = rest[0];
        let field = match field_of(word) {
            Ok(field) => field,
            Err(refusal) => return Err(refusal),
        };
        if !list.push(field) {
            return Err(Refusal::Word(word, "is one field too many: there are at most 32"));
        }
        rest = &rest[1..];
    }
    Ok(list)
}

/// Returns the question about several fields of a word.
pub fn fields_question<'a>(given: &Given<'_, 'a>) -> Asked<'a, FieldsQuestion>
    ensures value { IfOk result (λ asked. AreFieldsAsked given.now asked) }
    ensures refused { IfErr result (λ _. (asked : FieldsQuestion) → ¬ AreFieldsAsked given.now asked) }
{
    let radix = radix_of(given)?;
    let named = match given.values(&FIELD) {
        Some(words) => fields_named(words),
        None => Ok(FieldList::new()),
    };
    let fields = match named {
        Ok(fields) => fields,
        Err(refusal) => return Err(refusal),
    };
    Ok(FieldsQuestion {
        radix,
        is_reversed: given.has(&SWAP),
        fields,
    })
}
