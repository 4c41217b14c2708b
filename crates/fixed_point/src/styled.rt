//! The text of a number in a style.

ghost use Rattle.std.specs.Prelude.{◌≤◌, IfOk};
ghost use Rattle.fixed_write.specs.Styled.{IsStyledText};

use crate::number::Fixed;
use fixed_bits::Inner;
use fixed_write::{NoMemory, Style, Text};
use std::alloc::Global;

impl<I: Inner, const FRAC: u32> Fixed<I, FRAC> {
    /// Writes the number in a style, in memory that is allocated once. Fails only if there is no memory.
    pub fn to_text(self, alloc: Global, style: &Style) -> Result<Text, NoMemory>
        requires { FRAC ≤ I.BITS }
        ensures { IfOk result (λ text. IsStyledText style.now (I.number self) FRAC text) }
    {
        fixed_write::to_text(alloc, self.to_bits().value(), FRAC, style)
    }
}
