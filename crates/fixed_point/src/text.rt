//! The texts of a number, in buffers that do not allocate.

ghost use Rattle.std.specs.Prelude.{◌≡◌};
ghost use Rattle.std.specs.Str.{IsAscii};
ghost use Rattle.fixed_bits.specs.Ranges.{IsWide};
ghost use Rattle.fixed_point.specs.Texts.{shift_text};

use fixed_write::push_integer;
use text_buffer::TextBuffer;

/// A default text, or one that shows a fraction length above the width.
pub(crate) type ShownText = TextBuffer<48>;

/// A text with up to 64 places, or an exact one.
pub(crate) type PlacesText = TextBuffer<136>;

/// The bits and the fraction length, as `(bits >> FRAC)`.
pub(crate) fn shift_text(value: i128, frac: u32) -> ShownText
    requires { IsWide value }
    ensures text { result ≡ shift_text value frac }
    ensures ascii { IsAscii result }
{
    let mut text = TextBuffer::new();
    text.push_bytes(b"(");
    push_integer(&mut text, value);
    text.push_bytes(b" >> ");
    push_integer(&mut text, i128::from(frac));
    text.push_bytes(b")");
    text
}
