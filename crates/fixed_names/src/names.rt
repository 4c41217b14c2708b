//! All names of formats.

ghost use Rattle.std.specs.Prelude.{MatchOption};
ghost use Rattle.fixed_bits.specs.Formats.{FormatParts};
ghost use Rattle.fixed_names.specs.Names.{IsName};

use crate::tool_names::tool_format;
use fixed_bits::Format;
use fixed_respell::format_named;

/// Returns the format with this name, such as `I1F15`, `Q15` or one of another tool. `None`: it is not a format's name.
pub fn format_of_name(word: &[u8]) -> Option<Format>
    ensures { MatchOption result ((f : FormatParts) → ¬ IsName word.now f) (λ f. IsName word.now f) }
{
    match format_named(word) {
        Some(format) => Some(format),
        None => tool_format(word),
    }
}
