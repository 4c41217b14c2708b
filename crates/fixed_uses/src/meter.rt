//! A meter: a register word, scaled and shown to two places.

ghost use Rattle.std.specs.Prelude.{◌≡◌, ◌*ℤ◌, pos};
ghost use Rattle.fixed_uses.specs.Meter.{ShowsHundredths};

use fixed_bits::Inner;
use fixed_point::ReadMode;
use fixed_point::types::{I16F16, I48F16};
use fixed_write::push_decimal;
use text_buffer::TextBuffer;

/// Returns the reading in a register word times the ratio of the meter's transformer. It always fits.
pub fn scaled(word: I16F16, ratio: u8) -> I48F16
    ensures { result ≡ word *ℤ pos ratio }
{
    I48F16::from_bits(i64::from(word.to_bits()) * i64::from(ratio))
}

/// Writes a reading to the nearest hundredth, in a buffer that does not allocate.
pub fn shown(reading: I48F16) -> TextBuffer<136>
    ensures { ShowsHundredths reading result }
{
    let mut text = TextBuffer::new();
    push_decimal(
        &mut text,
        reading.to_bits().value(),
        16,
        2,
        ReadMode::NearestEven,
    );
    text
}
