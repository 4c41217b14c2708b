//! The options that say what a line may have besides its numeral.

ghost use Rattle.std.specs.Prelude.{◌≡◌, IfErr, IfOk, Option, false};
ghost use Rattle.fixed.specs.Lines.{IsLayoutAsked, IsLayoutIfAsked, has_layout};
ghost use Rattle.fixed_command.specs.Layout.{LineLayout};

use crate::options::{COMMENTS, SKIP_BLANK, TRIM};
use crate::settings::{refuse_flag, refuse_value};
use command_line::given::{Asked, Given, Refusal};
use fixed_command::Layout;

/// Whether an option of a layout is given.
pub fn has_layout(given: &Given<'_, '_>) -> bool
    ensures { result ≡ has_layout given.now }
{
    given.has(&TRIM) || given.has(&SKIP_BLANK) || given.value(&COMMENTS).is_some()
}

/// Returns what a line may have in addition to its numeral, from the options.
pub fn layout_of<'a>(given: &Given<'_, 'a>) -> Asked<'a, Layout>
    ensures value { IfOk result (λ layout. IsLayoutAsked given.now layout) }
    ensures refused { IfErr result (λ _. (layout : LineLayout) → ¬ IsLayoutAsked given.now layout) }
{
    let prefix = match given.value(&COMMENTS) {
        Some("") => return Err(Refusal::Word("", "is no beginning of a comment: it is empty")),
        Some(prefix) if prefix.starts_with(' ') || prefix.starts_with('\t') => {
            return Err(Refusal::Word(prefix, "begins with a blank, which no comment does"));
        }
        Some(prefix) => prefix,
        None => "",
    };
    match Layout::new(given.has(&TRIM), given.has(&SKIP_BLANK), prefix.as_bytes()) {
        Some(layout) => Ok(layout),
        None => Err(Refusal::Word(
            prefix,
            "is longer than a comment's beginning may be: 64 bytes",
        )),
    }
}

/// Returns what a line may have in addition to its numeral, if an option of a layout is given.
pub fn layout_asked<'a>(given: &Given<'_, 'a>) -> Asked<'a, Option<Layout>>
    ensures value { IfOk result (λ layout. IsLayoutIfAsked given.now layout) }
    ensures refused { IfErr result (λ _. (layout : Option LineLayout) → ¬ IsLayoutIfAsked given.now layout) }
{
    if !has_layout(given) {
        return Ok(None);
    }
    match layout_of(given) {
        Ok(layout) => Ok(Some(layout)),
        Err(refusal) => Err(refusal),
    }
}

/// Refuses the options of a layout, for this reason.
pub fn refuse_layout<'a>(given: &Given<'_, 'a>, why: &'static str) -> Asked<'a, ()>
    ensures value { IfOk result (λ _. has_layout given.now ≡ false) }
    ensures refused { IfErr result (λ _. ¬ (has_layout given.now ≡ false)) }
{
    refuse_flag(given, &TRIM, why)?;
    refuse_flag(given, &SKIP_BLANK, why)?;
    refuse_value(given, &COMMENTS, why)
}
