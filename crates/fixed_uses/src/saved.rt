//! A number saved as text and loaded again.

ghost use Rattle.std.specs.Prelude.{◌≡◌, ℤ, Result, IfOk};
ghost use Rattle.fixed_numeral.specs.declared.error.ParseErrorKind.{ParseErrorKind};
ghost use Rattle.fixed_uses.specs.Gain.{IsGain};

use fixed_bits::Inner;
use fixed_laws::laws::plain_text_reads_back;
use fixed_point::types::I16F16;
use fixed_point::{NoMemory, Notation, Style, Text};
use fixed_write::to_text;
use std::alloc::Global;

/// Writes the number as text.
pub fn saved(alloc: Global, number: I16F16) -> Result<Text, NoMemory>
    ensures { IfOk result (λ text. (answer : Result ℤ ParseErrorKind) → IsGain text answer → answer ≡ Ok number) }
{
    plain_text_reads_back();
    to_text(
        alloc,
        number.to_bits().value(),
        16,
        &Style::plain(Notation::Dec),
    )
}
