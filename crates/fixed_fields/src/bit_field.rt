//! The word `HI:LO` of a field of bits.

ghost use Rattle.std.specs.Prelude.{◌≡◌, ◌≤◌, ◌+◌, ◌<◌, ◌↔◌, ℕ, MatchOption, length, true};
ghost use Rattle.fixed_fields.specs.Names.{field_text};

use fixed_bits::Format;
use fixed_write::push_integer;
use text_buffer::TextBuffer;

/// Returns the word of the field of `width` bits from bit `low` on.
pub(crate) fn field_word(width: u32, low: u32) -> TextBuffer<64>
    requires some { 0 < width }
    requires within { low + width ≤ 1000 }
    ensures text { result ≡ field_text width low }
    ensures short { length result ≤ 7 }
{
    let mut text: TextBuffer<64> = TextBuffer::new();
    push_integer(&mut text, i128::from(low + width - 1));
    text.push(b':');
    push_integer(&mut text, i128::from(low));
    text
}

/// Whether a word names the field of `width` bits from bit `low` on.
fn is_field(word: &[u8], width: u32, low: u32) -> bool
    requires some { 0 < width }
    requires within { low + width ≤ 64 }
    ensures { (result ≡ true) ↔ (word.now ≡ field_text width low) }
{
    word == field_word(width, low).as_bytes()
}

/// Returns the lowest bit of the field that a word `HI:LO` names: the bits of a word of 64 from `LO` up to `HI`, as
/// many as the format has. `None` if it does not name such a field.
pub fn field_named(word: &[u8], format: Format) -> Option<u32>
    ensures { MatchOption result ((low : ℕ) → low + format.width ≤ 64 → ¬ (word.now ≡ field_text format.width low))
        (λ low. (low + format.width ≤ 64) × (word.now ≡ field_text format.width low)) }
{
    let width = format.width();
    'lows: for low in 0..65 - width {
        if is_field(word, width, low) {
            return Some(low);
        }
    }
    None
}
