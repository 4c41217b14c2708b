//! A line of a configuration, such as `gain = 0.75`.

ghost use Rattle.std.specs.Prelude.{List, ℕ, IfSome, IfNone};
ghost use Rattle.fixed_uses.specs.Gain.{SetsGain, IsGain};

use fixed_point::ParseFixedError;
use fixed_point::types::I16F16;

/// Reads the gain that a line sets, or why its number is refused; `None` exactly if the line does not set the gain.
pub fn gain(line: &[u8]) -> Option<Result<I16F16, ParseFixedError>>
    ensures some { IfSome result (λ answer. (text : List ℕ) × SetsGain line.now text × IsGain text answer) }
    ensures none { IfNone result ((text : List ℕ) → ¬ SetsGain line.now text) }
{
    let text = line.strip_prefix(b"gain = ")?;
    Some(I16F16::from_ascii(text))
}
