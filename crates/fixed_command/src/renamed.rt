//! Named literals whose formats have names that a constants file does not take, such as `Q15`.

ghost use Rattle.std.specs.Prelude.{◌≡◌, ◌++◌, ◌∷◌, [], ℕ, IfOk, List, MatchOption, OnOk};
ghost use Rattle.fixed_bits.specs.Formats.{FormatParts, IsTypeFormat};
ghost use Rattle.fixed_command.specs.Lemmas.RenamedLemmas.{renamed_answer_one};
ghost use Rattle.fixed_command.specs.Renamed.{AreRenamed, IsRenamedAnswer, IsRenamedLine};
ghost use Rattle.fixed_names.specs.Names.{IsName};
ghost use Rattle.fixed_respell.specs.LineWords.{spaced};
ghost use Rattle.line_engine.specs.Lines.{lines};

use fixed_bits::Format;
use fixed_constants::{Fields, split_line};
use fixed_names::format_of_name;
use fixed_respell::format_name;
use fixed_steps::Steps;
use line_engine::{MAX_LIMIT, NoMemory, WholeAnswer, WholeRule, first_line};
use std::alloc::{AllocError, Global};
use std::sync::ledger::Ledger;

/// Returns the format of a type that a word names. `None`: it names none.
fn type_named(word: &[u8]) -> Option<Format>
    ensures { MatchOption result ((f : FormatParts) → IsName word.now f → ¬ IsTypeFormat f.width f.frac)
        (λ f. IsName word.now f × IsTypeFormat f.width f.frac) }
{
    let Some(format) = format_of_name(word) else {
        return None;
    };
    match Format::new(format.signed(), format.width(), format.frac()) {
        Some(_) => Some(format),
        None => None,
    }
}

/// Appends the words of a line before its format, and a format's name.
fn push_words(text: &mut Vec<u8>, fields: &Fields<'_>, name: &[u8]) -> Result<(), AllocError>
    ensures { OnOk result (text.new.items ≡ text.old.items
        ++ spaced (fields.now.name.now ∷ fields.now.equals.now ∷ fields.now.literal.now ∷ []) name.now) }
{
    text.extend_from_slice(fields.name)?;
    text.push(b' ')?;
    text.extend_from_slice(fields.equals)?;
    text.push(b' ')?;
    text.extend_from_slice(fields.literal)?;
    text.push(b' ')?;
    text.extend_from_slice(name)?;
    Ok(())
}

/// Appends a line with the name that a constants file takes for its format, if it names the format of a type.
fn push_renamed(text: &mut Vec<u8>, line: &[u8]) -> Result<(), AllocError>
    ensures { OnOk result ((renamed : List ℕ) × IsRenamedLine line.now renamed
        × (text.new.items ≡ text.old.items ++ renamed)) }
{
    match split_line(line) {
        None => text.extend_from_slice(line)?,
        Some(fields) => match type_named(fields.format) {
            None => text.extend_from_slice(line)?,
            Some(format) => push_words(text, &fields, format_name(format).as_bytes())?,
        },
    }
    Ok(())
}

/// Returns the renamed lines of a text, each with a newline.
fn renamed_text(alloc: Global, text: &[u8]) -> Result<Vec<u8>, AllocError>
    ensures { IfOk result (λ renamed. AreRenamed (lines text.now) renamed.items) }
{
    let mut renamed = Vec::new(alloc);
    let mut rest = text;
    while !rest.is_empty() {
        let (line, after) = first_line(rest);
        push_renamed(&mut renamed, line)?;
        renamed.push(b'\n')?;
        rest = after;
    }
    Ok(renamed)
}

/// The rule that answers named literals as another rule answers them with the names that a constants file takes for
/// their formats.
#[derive(Clone, Copy)]
pub struct RenamedRule<'r, R> {
    /// The other rule.
    pub rule: &'r R,
}

impl<'r, R: WholeRule<L>, L: Ledger> WholeRule<L> for RenamedRule<'r, R> {
    ghost Answers = { λ renamed. IsRenamedAnswer (R.Answers renamed.rule.now) };

    fn answer(
        &self,
        alloc: Global,
        input: &[u8],
        steps: &mut Steps<L>,
    ) -> Result<WholeAnswer, NoMemory> {
        match renamed_text(alloc, input) {
            Ok(text) if text.len() as u64 <= MAX_LIMIT => self.rule.answer(alloc, &text, steps),
            _ => Err(NoMemory),
        }
    }

    ghost one_law = { λ renamed. renamed_answer_one (R.Answers renamed.rule.now) (R.one_law renamed.rule.now) };
}
