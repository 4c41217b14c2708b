//! The requests in the options of `fixed convert --print error` and `--print ulps`.

ghost use Rattle.std.specs.Prelude.{◌≡◌, IfErr, IfOk, MatchOption, codes};
ghost use Rattle.command_line.specs.Words.{value_of};
ghost use Rattle.fixed.specs.Errors.{AreErrorsAsked, HasErrorsAlone, IsMeasureAsked, measure_text};
ghost use Rattle.fixed_command.specs.declared.error_lines.ErrorSettings.{ErrorSettings};
ghost use Rattle.fixed_show.specs.declared.measure.Measure.{Measure};

use crate::commands::amounts::refuse_decimal_target;
use crate::options::{
    FROM, KEEP_WORDS, PLACES, PLACES_MODE, PRINT_OR_ERROR, REFUSED, REPORT, SEPARATORS,
    TARGET_MODE, WORDS,
};
use crate::settings::{
    format_at, is_like_format, mode_of, policy_of, radix_of, refuse_flag, refuse_value,
};
use command_line::given::{Asked, Given, Refusal};
use fixed_command::{ErrorSettings, Measure};

/// Why an option does not go with errors.
const BESIDE: &str = "does not go with '--print error' or '--print ulps'";

/// Returns the measure that a value names.
fn measure_named(word: &str) -> Option<Measure>
    ensures { MatchOption result ((a : Measure) → ¬ (word.now ≡ measure_text a)) (λ a. word.now ≡ measure_text a) }
{
    match word {
        "error" => Some(Measure::Value),
        "ulps" => Some(Measure::Ulps),
        _ => None,
    }
}

/// Returns the measure of the requested errors, if any are requested.
pub fn measure_of(given: &Given<'_, '_>) -> Option<Measure>
    ensures { MatchOption result ((a : Measure) → ¬ IsMeasureAsked (value_of given.now (codes "print")) a)
        (λ a. IsMeasureAsked (value_of given.now (codes "print")) a) }
{
    match given.value(&PRINT_OR_ERROR) {
        Some(word) => measure_named(word),
        None => None,
    }
}

/// Returns how numerals are read and their errors measured, from the operands and options.
pub fn error_settings<'a>(given: &Given<'_, 'a>, measure: Measure) -> Asked<'a, ErrorSettings>
    ensures value { IfOk result (λ s. AreErrorsAsked given.now measure s) }
    ensures refused { IfErr result (λ _. (s : ErrorSettings) → ¬ AreErrorsAsked given.now measure s) }
{
    let format = match format_at(given, 0, "SOURCE") {
        Ok(format) => format,
        Err(refusal) => return Err(refusal),
    };
    Ok(ErrorSettings {
        radix: radix_of(given)?,
        format,
        policy: policy_of(given)?,
        mode: mode_of(given)?,
        measure,
    })
}

/// Refuses the operands and options that have no meaning for errors.
pub fn refuse_beside_errors<'a>(given: &Given<'_, 'a>) -> Asked<'a, ()>
    ensures value { IfOk result (λ _. HasErrorsAlone given.now) }
    ensures refused { IfErr result (λ _. ¬ HasErrorsAlone given.now) }
{
    refuse_decimal_target(given, 1)?;
    match given.keyword(1) {
        Some(word) if is_like_format(word) => {
            return Err(Refusal::Word(
                word,
                "is a TARGET: '--print error' and '--print ulps' are of the number read into SOURCE",
            ));
        }
        _ => (),
    }
    if let Some("bits") = given.value(&FROM) {
        return Err(Refusal::Word(
            "bits",
            "has no error to print: a word of bits is a number of SOURCE",
        ));
    }
    refuse_value(given, &PLACES, BESIDE)?;
    refuse_value(given, &PLACES_MODE, BESIDE)?;
    refuse_value(given, &TARGET_MODE, BESIDE)?;
    refuse_value(given, &SEPARATORS, BESIDE)?;
    refuse_value(given, &REFUSED, BESIDE)?;
    refuse_value(given, &KEEP_WORDS, BESIDE)?;
    refuse_flag(given, &WORDS, BESIDE)?;
    refuse_value(given, &REPORT, BESIDE)
}
