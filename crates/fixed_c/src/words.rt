//! The names of formats.

ghost use Rattle.std.specs.Prelude.{MatchResult};
ghost use Rattle.fixed_c.specs.Numbers.{format_of};
ghost use Rattle.fixed_c.specs.Texts.{TextEnds};
ghost use Rattle.fixed_c.specs.Words.{FormatIsRefused, IsFormatNamed, IsFormatText, WordIsRefused};

use crate::arguments::{FixedFormat, format_of};
use crate::number::flag;
use crate::refusal::Refusal;
use crate::texts::put_text;
use fixed_names::format_of_name;
use fixed_respell::format_name;

/// Returns the format that a word names.
pub fn named_format(word: &[u8]) -> Result<FixedFormat, Refusal>
    ensures { MatchResult result (IsFormatNamed word.now) (WordIsRefused word.now) }
{
    match format_of_name(word) {
        Some(format) => Ok(FixedFormat {
            is_signed: flag(format.signed()),
            width: format.width(),
            frac: format.frac(),
        }),
        None => Err(Refusal::BadWord),
    }
}

/// Writes the name of a format.
pub fn put_word(format: FixedFormat, out: &mut [u8], len: &mut usize) -> u32
    ensures { TextEnds
        (λ word. IsFormatText word (format_of format.is_signed format.width format.frac))
        (FormatIsRefused (format_of format.is_signed format.width format.frac)) out.old out.new len.old len.new result }
{
    match format_of(format, Refusal::BadFormat) {
        Ok(format) => put_text(format_name(format).as_bytes(), out, len),
        Err(refusal) => refusal.code(),
    }
}
