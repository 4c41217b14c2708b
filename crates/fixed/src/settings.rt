//! The formats and the settings that the arguments of a conversion name.
//!
//! A second operand is a target only if it has the shape of a format. Any other one is a file: `fixed convert I16F16
//! data.txt` reads the file, and `I65F0` is refused as a format.

ghost use Rattle.std.specs.Prelude.{◌≡◌, ◌≢◌, ◌+◌, ◌<◌, ◌^◌, ◌⊎◌, ℕ, IfErr, IfOk, MatchOption, None, Some};
ghost use Rattle.std.specs.Prelude.{Option, codes, decimal, false, length, slice_index, true, unwrap_or};
ghost use Rattle.std.specs.List.{list_all};
ghost use Rattle.clap.specs.Words.{first_value, found_of};
ghost use Rattle.command_line.specs.Words.{has_flag, keyword_at, value_of, word_at};
ghost use Rattle.fixed.specs.Convert.{IsConversionAsked, lacks_target_mode};
ghost use Rattle.fixed.specs.Lines.{IsFormatAsked, IsPartAsked, IsTargetAsked, are_counts, is_count};
ghost use Rattle.fixed.specs.Lines.{after_minus, is_like_counts, is_like_format};
ghost use Rattle.fixed.specs.Settings.{IsCountWord, IsLimitAsked, IsLimitWord, IsPlacesWord, IsPrintAsked};
ghost use Rattle.fixed.specs.Settings.{endian_text};
ghost use Rattle.fixed.specs.Settings.{floats_text, pack_input_text};
ghost use Rattle.fixed.specs.declared.settings.PackInput.{PackInput};
ghost use Rattle.fixed_bits.specs.Formats.{FormatParts};
ghost use Rattle.fixed_bits.specs.declared.format.Policy.{Policy};
ghost use Rattle.fixed_bits.specs.declared.mode.ReadMode.{ReadMode};
ghost use Rattle.fixed_command.specs.Asked.{IsNamed, spelling_text};
ghost use Rattle.fixed_command.specs.declared.convert.Settings.{Settings};
ghost use Rattle.fixed_command.specs.declared.print.Print.{Print};
ghost use Rattle.fixed_command.specs.declared.spelling.Spelling.{Spelling};
ghost use Rattle.fixed_float.specs.declared.layout.FloatLayout.{FloatLayout};
ghost use Rattle.fixed_numeral.specs.declared.radix.Radix.{Radix};
ghost use Rattle.fixed_pack.specs.declared.endian.Endian.{Endian};
ghost use Rattle.fixed_names.specs.Names.{IsName};
ghost use Rattle.fixed_respell.specs.Words.{mode_text, policy_text, radix_text};
ghost use Rattle.fixed_show.specs.declared.parts.Part.{Part};

use crate::options::{
    ENDIAN, ENDIAN_OUT, FIELD, FROM, LIMIT, MODE, PACK_FROM, PLACES, PLACES_MODE, POLICY, PRINT,
    RADIX, SWAP, TARGET_MODE, UNPACK_TO,
};
use command_line::given::{Asked, Given, Refusal};
use command_line::page::Row;
use command_line::report::Report;
use fixed_amounts::decimal_format_named;
use fixed_bits::{Format, Policy, ReadMode};
use fixed_command::{
    ConvertRule, Limit, Part, Places, Print, Settings, Spelling, mode_named, policy_named,
    print_named, radix_named, spelling_named, target_mode_named,
};
use fixed_fields::field_named;
use fixed_float::FloatLayout;
use fixed_names::{format_of_name, is_like_tool_name};
use fixed_numeral::Radix;
use fixed_pack::Endian;
use fixed_respell::number_word;
use line_engine::MAX_LIMIT;

/// What the input of `pack` is.
#[derive(Clone, Copy, Debug, PartialEq, Eq)]
pub enum PackInput {
    /// Numerals, one a line.
    Numerals,
    /// Words of bits, one a line.
    Bits,
    /// Raw floats.
    Floats(FloatLayout),
}

/// Returns the format that a word names.
pub fn format_of<'a>(word: &'a str) -> Asked<'a, Format>
    ensures value { IfOk result (λ f. IsName word.now f) }
    ensures refused { IfErr result (λ _. (f : FormatParts) → ¬ IsName word.now f) }
{
    match format_of_name(word.as_bytes()) {
        Some(format) => Ok(format),
        None => Err(Refusal::Word(word, why_no_format(word))),
    }
}

/// Returns why a word does not name a binary format.
fn why_no_format(word: &str) -> &'static str {
    match decimal_format_named(word.as_bytes()) {
        Some(_) =>
            "is a decimal format: convert, column, json, show, bits, format, pack and unpack take it, as SOURCE",
        None => {
            "is not a format: I or U, whole bits, F, fraction bits, 1 to 64 in all; or as Q15, UQ8.8"
        }
    }
}

/// Whether a byte is a digit, `one` or `other`.
fn is_count(byte: u8, one: u8, other: u8) -> bool
    ensures { result ≡ is_count one other byte }
{
    byte.is_ascii_digit() || byte == one || byte == other
}

/// Whether `bytes` holds only digits, `one` and `other`.
fn are_all_counts(bytes: &[u8], one: u8, other: u8) -> bool
    ensures { result ≡ list_all (is_count one other) bytes.now }
{
    bytes.iter().all(|b| is_count(*b, one, other))
}

/// Whether `bytes` is not empty and holds only digits, `one` and `other`.
fn are_counts(bytes: &[u8], one: u8, other: u8) -> bool
    ensures { result ≡ are_counts one other bytes.now }
{
    !bytes.is_empty() && are_all_counts(bytes, one, other)
}

/// Returns the bytes after a minus, if they begin with one, else all of them.
fn after_minus(bytes: &[u8]) -> &[u8]
    ensures { result.now ≡ after_minus bytes.now }
{
    match bytes {
        [b'-', rest @ ..] => rest,
        _ => bytes,
    }
}

/// Whether a word has the shape of a format: I or U, maybe a minus, and then digits and F; or Q or UQ, and then digits
/// and a point.
fn is_like_counts(word: &[u8]) -> bool
    ensures { result ≡ is_like_counts word.now }
{
    match word {
        [b'U' | b'u', b'Q' | b'q', rest @ ..] => are_counts(rest, b'.', b'.'),
        [b'Q' | b'q', rest @ ..] => are_counts(rest, b'.', b'.'),
        [b'I' | b'U' | b'i' | b'u', rest @ ..] => are_counts(after_minus(rest), b'F', b'f'),
        _ => false,
    }
}

/// Whether a word has the shape of a format or of one of another tool. A file with such a name is written `./I8F8`.
pub fn is_like_format(word: &str) -> bool
    ensures { result ≡ is_like_format word.now }
{
    is_like_counts(word.as_bytes()) || is_like_tool_name(word.as_bytes())
}

/// Returns the value of an option, or `default` without the option.
pub fn value_or<'a>(given: &Given<'_, 'a>, row: &Row, default: &'static str) -> &'a str
    ensures { result.now ≡ unwrap_or (value_of given.now row.now.name.now) default.now }
{
    match given.value(row) {
        Some(value) => value,
        None => default,
    }
}

/// Returns what an option's value names, or refuses the value.
pub fn known<'a, T>(found: Option<T>, given: &Given<'_, 'a>, row: &Row) -> Asked<'a, T>
    ensures value { IfOk result (λ a. found ≡ Some a) }
    ensures refused { IfErr result (λ _. found ≡ None) }
{
    match found {
        Some(found) => Ok(found),
        None => Err(Refusal::Word(
            given.value(row).unwrap_or(""),
            "is not a value of the option",
        )),
    }
}

/// Refuses an option with a value, for this reason.
pub fn refuse_value<'a>(given: &Given<'_, 'a>, row: &Row, why: &'static str) -> Asked<'a, ()>
    ensures value { IfOk result (λ _. value_of given.now row.now.name.now ≡ None) }
    ensures refused { IfErr result (λ _. ¬ (value_of given.now row.now.name.now ≡ None)) }
{
    match given.value(row) {
        None => Ok(()),
        Some(_) => Err(Refusal::Option(row.name, why)),
    }
}

/// Refuses an option without a value, for this reason.
pub fn refuse_flag<'a>(given: &Given<'_, 'a>, row: &Row, why: &'static str) -> Asked<'a, ()>
    ensures value { IfOk result (λ _. has_flag given.now row.now.name.now ≡ false) }
    ensures refused { IfErr result (λ _. ¬ (has_flag given.now row.now.name.now ≡ false)) }
{
    if given.has(row) {
        Err(Refusal::Option(row.name, why))
    } else {
        Ok(())
    }
}

/// Returns the radix that the option names.
pub fn radix_of<'a>(given: &Given<'_, 'a>) -> Asked<'a, Radix>
    ensures value { IfOk result (λ a. IsNamed Radix radix_text Radix.Dec
        (first_value (found_of given.now.matches.now) (codes "radix")) a) }
    ensures refused { IfErr result (λ _. (a : Radix) → ¬ IsNamed Radix radix_text Radix.Dec
        (first_value (found_of given.now.matches.now) (codes "radix")) a) }
{
    known(radix_named(given.value(&RADIX)), given, &RADIX)
}

/// Returns the policy that the option names.
pub fn policy_of<'a>(given: &Given<'_, 'a>) -> Asked<'a, Policy>
    ensures value { IfOk result (λ a. IsNamed Policy policy_text Policy.Checked
        (first_value (found_of given.now.matches.now) (codes "policy")) a) }
    ensures refused { IfErr result (λ _. (a : Policy) → ¬ IsNamed Policy policy_text Policy.Checked
        (first_value (found_of given.now.matches.now) (codes "policy")) a) }
{
    known(policy_named(given.value(&POLICY)), given, &POLICY)
}

/// Returns the mode that the option names.
pub fn mode_of<'a>(given: &Given<'_, 'a>) -> Asked<'a, ReadMode>
    ensures value { IfOk result (λ a. IsNamed ReadMode mode_text ReadMode.NearestEven
        (first_value (found_of given.now.matches.now) (codes "mode")) a) }
    ensures refused { IfErr result (λ _. (a : ReadMode) → ¬ IsNamed ReadMode mode_text ReadMode.NearestEven
        (first_value (found_of given.now.matches.now) (codes "mode")) a) }
{
    known(mode_named(given.value(&MODE)), given, &MODE)
}

/// Returns the mode that the option names for the move to the target.
pub fn target_mode_of<'a>(given: &Given<'_, 'a>) -> Asked<'a, ReadMode>
    ensures value { IfOk result (λ a. IsNamed ReadMode mode_text ReadMode.Floor
        (first_value (found_of given.now.matches.now) (codes "target-mode")) a) }
    ensures refused { IfErr result (λ _. (a : ReadMode) → ¬ IsNamed ReadMode mode_text ReadMode.Floor
        (first_value (found_of given.now.matches.now) (codes "target-mode")) a) }
{
    known(
        target_mode_named(given.value(&TARGET_MODE)),
        given,
        &TARGET_MODE,
    )
}

/// Returns how a line spells a number, from the option.
pub fn spelling_of<'a>(given: &Given<'_, 'a>) -> Asked<'a, Spelling>
    ensures value { IfOk result (λ a. IsNamed Spelling spelling_text Spelling.Numeral
        (first_value (found_of given.now.matches.now) (codes "from")) a) }
    ensures refused { IfErr result (λ _. (a : Spelling) → ¬ IsNamed Spelling spelling_text Spelling.Numeral
        (first_value (found_of given.now.matches.now) (codes "from")) a) }
{
    known(spelling_named(given.value(&FROM)), given, &FROM)
}

/// Returns the part of an answer to print, from the options.
fn print_of<'a>(given: &Given<'_, 'a>) -> Asked<'a, Print>
    ensures value { IfOk result (λ a. IsPrintAsked (first_value (found_of given.now.matches.now) (codes "print"))
        (first_value (found_of given.now.matches.now) (codes "places"))
        (first_value (found_of given.now.matches.now) (codes "places-mode")) a) }
    ensures refused { IfErr result (λ _. (a : Print)
        → ¬ IsPrintAsked (first_value (found_of given.now.matches.now) (codes "print"))
        (first_value (found_of given.now.matches.now) (codes "places"))
        (first_value (found_of given.now.matches.now) (codes "places-mode")) a) }
{
    let print = match known(print_named(given.value(&PRINT)), given, &PRINT) {
        Ok(print) => print,
        Err(refusal) => return Err(refusal),
    };
    match given.value(&PLACES) {
        None => match given.value(&PLACES_MODE) {
            None => Ok(print),
            Some(word) => Err(Refusal::Word(
                word,
                "rounds nothing: '--places-mode' goes with '--places' alone",
            )),
        },
        Some(word) => match print {
            Print::Text => match places_mode_of(given) {
                Ok(mode) => text_of_places(word, mode),
                Err(refusal) => Err(refusal),
            },
            _ => Err(Refusal::Word(
                word,
                "rounds nothing: '--places' goes with '--print text' alone",
            )),
        },
    }
}

/// Returns the mode that the option names for rounding to decimal places.
fn places_mode_of<'a>(given: &Given<'_, 'a>) -> Asked<'a, ReadMode>
    ensures value { IfOk result (λ a. IsNamed ReadMode mode_text ReadMode.NearestEven
        (first_value (found_of given.now.matches.now) (codes "places-mode")) a) }
    ensures refused { IfErr result (λ _. (a : ReadMode) → ¬ IsNamed ReadMode mode_text ReadMode.NearestEven
        (first_value (found_of given.now.matches.now) (codes "places-mode")) a) }
{
    known(mode_named(given.value(&PLACES_MODE)), given, &PLACES_MODE)
}

/// Returns the text with the decimal places that a word counts, in a mode.
fn text_of_places<'a>(word: &'a str, mode: ReadMode) -> Asked<'a, Print>
    ensures value { IfOk result (λ a. (n : ℕ) × IsPlacesWord word.now n × (a ≡ Print.Places n mode)) }
    ensures refused { IfErr result (λ _. (n : ℕ) → ¬ IsPlacesWord word.now n) }
{
    match places_of(word) {
        Some(places) => Ok(Print::Places(places, mode)),
        None => Err(Refusal::Word(
            word,
            "is not a count of places: it is a number from 0 to 64",
        )),
    }
}

/// Returns the decimal places that a word counts.
fn places_of(word: &str) -> Option<Places>
    ensures { MatchOption result ((n : ℕ) → ¬ IsPlacesWord word.now n) (λ n. IsPlacesWord word.now n) }
{
    match number_word(word.as_bytes(), 64) {
        Some(count) => Places::new(count as u32),
        None => None,
    }
}

/// Returns the format that the operand at an index names, which must be given.
pub fn format_at<'a>(given: &Given<'_, 'a>, place: usize, name: &'static str) -> Asked<'a, Format>
    ensures value { IfOk result (λ f. IsFormatAsked (word_at given.now place) f) }
    ensures refused { IfErr result (λ _. (f : FormatParts) → ¬ IsFormatAsked (word_at given.now place) f) }
{
    match given.needed(place, name) {
        Ok(word) => format_of(word),
        Err(refusal) => Err(refusal),
    }
}

/// Returns the target that the operand at an index names, or the source, and the index of the first file.
fn target_of<'a>(given: &Given<'_, 'a>, place: usize, source: Format) -> Asked<'a, (Format, usize)>
    ensures value { IfOk result (λ a. IsTargetAsked (keyword_at given.now place) source place a.0 a.1) }
    ensures refused { IfErr result (λ _. (target : FormatParts) (files : ℕ)
        → ¬ IsTargetAsked (keyword_at given.now place) source place target files) }
{
    match given.keyword(place) {
        Some(word) if is_like_format(word) => match format_of(word) {
            Ok(target) => Ok((target, place.saturating_add(1))),
            Err(refusal) => Err(refusal),
        },
        _ => Ok((source, place)),
    }
}

/// Returns the byte order that a value names.
fn endian_named(word: &str) -> Option<Endian>
    ensures { MatchOption result ((a : Endian) → ¬ (word.now ≡ endian_text a)) (λ a. word.now ≡ endian_text a) }
{
    match word {
        "little" => Some(Endian::Little),
        "big" => Some(Endian::Big),
        _ => None,
    }
}

/// Returns the byte order of a word that the option names, or `little` without the option.
pub fn endian_of<'a>(given: &Given<'_, 'a>) -> Asked<'a, Endian>
    ensures value { IfOk result (λ a. IsNamed Endian endian_text Endian.Little
        (first_value (found_of given.now.matches.now) (codes "endian")) a) }
    ensures refused { IfErr result (λ _. (a : Endian) → ¬ IsNamed Endian endian_text Endian.Little
        (first_value (found_of given.now.matches.now) (codes "endian")) a) }
{
    match given.value(&ENDIAN) {
        None => Ok(Endian::Little),
        Some(word) => known(endian_named(word), given, &ENDIAN),
    }
}

/// Returns the byte order of a written word that the option names. Without the option it is that of the words read.
pub fn endian_out_of<'a>(given: &Given<'_, 'a>, endian: Endian) -> Asked<'a, Endian>
    ensures value { IfOk result (λ a. IsNamed Endian endian_text endian
        (first_value (found_of given.now.matches.now) (codes "endian-out")) a) }
    ensures refused { IfErr result (λ _. (a : Endian) → ¬ IsNamed Endian endian_text endian
        (first_value (found_of given.now.matches.now) (codes "endian-out")) a) }
{
    match given.value(&ENDIAN_OUT) {
        None => Ok(endian),
        Some(word) => known(endian_named(word), given, &ENDIAN_OUT),
    }
}

/// Returns the floats that a value names. The outer `None`: it names neither floats nor text.
fn floats_named(word: &str) -> Option<Option<FloatLayout>>
    ensures { MatchOption result ((a : Option FloatLayout) → ¬ (word.now ≡ floats_text a))
        (λ a. word.now ≡ floats_text a) }
{
    match word {
        "text" => Some(None),
        "f64" => Some(Some(FloatLayout::Binary64)),
        "f32" => Some(Some(FloatLayout::Binary32)),
        _ => None,
    }
}

/// Returns what a value of the option `from` of `pack` names.
fn pack_input_named(word: &str) -> Option<PackInput>
    ensures { MatchOption result ((a : PackInput) → ¬ (word.now ≡ pack_input_text a))
        (λ a. word.now ≡ pack_input_text a) }
{
    match word {
        "text" => Some(PackInput::Numerals),
        "bits" => Some(PackInput::Bits),
        "f64" => Some(PackInput::Floats(FloatLayout::Binary64)),
        "f32" => Some(PackInput::Floats(FloatLayout::Binary32)),
        _ => None,
    }
}

/// Returns what the option `from` of `pack` names, or numerals without the option.
pub fn pack_input_of<'a>(given: &Given<'_, 'a>) -> Asked<'a, PackInput>
    ensures value { IfOk result (λ a. IsNamed PackInput pack_input_text PackInput.Numerals
        (first_value (found_of given.now.matches.now) (codes "from")) a) }
    ensures refused { IfErr result (λ _. (a : PackInput) → ¬ IsNamed PackInput pack_input_text PackInput.Numerals
        (first_value (found_of given.now.matches.now) (codes "from")) a) }
{
    match given.value(&PACK_FROM) {
        None => Ok(PackInput::Numerals),
        Some(word) => known(pack_input_named(word), given, &PACK_FROM),
    }
}

/// Returns the floats that the option `to` of `unpack` names; `None` for text, which is the default.
pub fn written_floats_of<'a>(given: &Given<'_, 'a>) -> Asked<'a, Option<FloatLayout>>
    ensures value { IfOk result (λ a. IsNamed (Option FloatLayout) floats_text None
        (first_value (found_of given.now.matches.now) (codes "to")) a) }
    ensures refused { IfErr result (λ _. (a : Option FloatLayout) → ¬ IsNamed (Option FloatLayout) floats_text None
        (first_value (found_of given.now.matches.now) (codes "to")) a) }
{
    match given.value(&UNPACK_TO) {
        None => Ok(None),
        Some(word) => known(floats_named(word), given, &UNPACK_TO),
    }
}

/// Returns the part of a word that the options name; `None` if they take the whole word unchanged.
pub fn part_of<'a>(given: &Given<'_, 'a>, format: Format) -> Asked<'a, Option<Part>>
    ensures value { IfOk result (λ a. IsPartAsked format given.now a) }
    ensures refused { IfErr result (λ _. (a : Option Part) → ¬ IsPartAsked format given.now a) }
{
    let is_reversed = given.has(&SWAP);
    let low = match given.value(&FIELD) {
        None => None,
        Some(word) => match field_named(word.as_bytes(), format) {
            Some(low) => Some(low),
            None => {
                return Err(Refusal::Word(
                    word,
                    "is not a field of the format: it is HI:LO, of as many bits as the format, HI at most 63",
                ));
            }
        },
    };
    Ok(if is_reversed || low.is_some() {
        Some(Part { low, is_reversed })
    } else {
        None
    })
}

/// Returns the conversion that the operands from an index on and the options name, and the index of the first file.
pub fn conversion<'a>(given: &Given<'_, 'a>, place: usize) -> Asked<'a, (ConvertRule, usize)>
    ensures value { IfOk result (λ found. IsConversionAsked given.now place found.0 found.1) }
    ensures refused { IfErr result (λ _. (s : Settings) (files : ℕ) → ¬ IsConversionAsked given.now place s files) }
{
    let source = match format_at(given, place, "SOURCE") {
        Ok(source) => source,
        Err(refusal) => return Err(refusal),
    };
    let (target, files) = match target_of(given, place.saturating_add(1), source) {
        Ok(found) => found,
        Err(refusal) => return Err(refusal),
    };
    let print = match print_of(given) {
        Ok(print) => print,
        Err(refusal) => return Err(refusal),
    };
    let settings = Settings {
        spelling: spelling_of(given)?,
        radix: radix_of(given)?,
        source,
        target,
        policy: policy_of(given)?,
        mode: mode_of(given)?,
        target_mode: target_mode_of(given)?,
        print,
    };
    Ok((ConvertRule::new(settings), files))
}

/// Whether a target and `--mode` are given without `--target-mode`. `files` is the index of the first file after a
/// source at `place`.
fn lacks_target_mode(given: &Given<'_, '_>, place: usize, files: usize) -> bool
    ensures { result ≡ lacks_target_mode given.now place files }
{
    let has_target = files > place.saturating_add(1);
    has_target && given.value(&MODE).is_some() && given.value(&TARGET_MODE).is_none()
}

/// Reports on standard error that the move to the target rounds down, if a target and `--mode` are given without
/// `--target-mode`.
pub fn note_target_mode(rt: &HostRuntime, given: &Given<'_, '_>, place: usize, files: usize) {
    if lacks_target_mode(given, place, files) {
        let mut report = Report::of(None);
        report.text(
            "--mode rounds into SOURCE; the move to TARGET rounds down, for want of --target-mode",
        );
        report.send(rt);
    }
}

/// Whether a word begins neither with a plus nor with a zero before another byte.
fn is_plain(word: &[u8]) -> bool
    ensures yes { result ≡ true → (slice_index word.now 0 ≢ 43)
        × (slice_index word.now 0 ≡ 48 → length word.now ≡ 1) }
    ensures no { result ≡ false → (slice_index word.now 0 ≡ 43)
        ⊎ ((slice_index word.now 0 ≡ 48) × (1 < length word.now)) }
{
    match word {
        [b'+', ..] => false,
        [b'0', _, ..] => false,
        _ => true,
    }
}

/// Returns the 64-bit number that a word writes in decimal, without a sign or a leading zero.
pub fn count_named(word: &str) -> Option<u64>
    ensures { MatchOption result ((n : ℕ) → n < 2 ^ 64 → ¬ (word.now ≡ decimal n)) (λ n. word.now ≡ decimal n) }
{
    match word.parse::<u64>() {
        Ok(count) if is_plain(word.as_bytes()) => Some(count),
        _ => None,
    }
}

/// Returns the count that an option's value writes in decimal, or that `default` does without the option. `why` refuses
/// any other value.
pub fn count_of<'a>(
    given: &Given<'_, 'a>,
    row: &Row,
    default: &'static str,
    why: &'static str,
) -> Asked<'a, u64>
    ensures value { IfOk result (λ count.
        IsCountWord (unwrap_or (value_of given.now row.now.name.now) default.now) count) }
    ensures refused { IfErr result (λ _. (count : ℕ)
        → ¬ IsCountWord (unwrap_or (value_of given.now row.now.name.now) default.now) count) }
{
    let word = value_or(given, row, default);
    match count_named(word) {
        Some(count) => Ok(count),
        None => Err(Refusal::Word(word, why)),
    }
}

/// Returns the limit that a word names: a decimal number without a sign or a leading zero.
fn limit_named(word: &str) -> Option<Limit>
    ensures { MatchOption result ((n : ℕ) → ¬ IsLimitWord word.now n) (λ n. IsLimitWord word.now n) }
{
    match number_word(word.as_bytes(), MAX_LIMIT) {
        Some(bytes) => match Limit::new(bytes) {
            Some(limit) => Some(limit),
            None => None,
        },
        None => None,
    }
}

/// Returns the limit that a word names.
pub fn limit_of<'a>(word: &'a str) -> Asked<'a, Limit>
    ensures value { IfOk result (λ n. IsLimitWord word.now n) }
    ensures refused { IfErr result (λ _. (n : ℕ) → ¬ IsLimitWord word.now n) }
{
    match limit_named(word) {
        Some(limit) => Ok(limit),
        None => Err(Refusal::Word(word, "is not a limit: it is a number from 1 to 4294967296")),
    }
}

/// Returns the limit of each input that the option names, if it is given.
pub fn limit_asked<'a>(given: &Given<'_, 'a>) -> Asked<'a, Option<Limit>>
    ensures value { IfOk result (λ limit. IsLimitAsked (value_of given.now (codes "limit")) limit) }
    ensures refused { IfErr result (λ _. (limit : Option ℕ)
        → ¬ IsLimitAsked (value_of given.now (codes "limit")) limit) }
{
    match given.value(&LIMIT) {
        None => Ok(None),
        Some(word) => match limit_of(word) {
            Ok(limit) => Ok(Some(limit)),
            Err(refusal) => Err(refusal),
        },
    }
}
