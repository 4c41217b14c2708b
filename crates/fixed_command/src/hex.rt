//! The bits of a number in hexadecimal.

ghost use Rattle.std.specs.Prelude.{◌≡◌, ◌+◌, ◌^◌, ◌<◌, ◌≤◌, ◌++◌, length};
ghost use Rattle.fixed_bits.specs.Ranges.{IsInRange};
ghost use Rattle.fixed_command.specs.Hex.{hex_digits, hex_text, word_of};

use fixed_bits::Format;
use fixed_show::push_hex_digits;
use text_buffer::TextBuffer;

/// Returns two to the power of a format's width.
fn turn_of(format: Format) -> u128
    ensures turn { result ≡ 2 ^ format.width }
    ensures most { result ≤ 2 ^ 64 }
    ensures some { 0 < format.width }
{
    1 << format.width()
}

/// Returns the bits of a format as an unsigned number, in two's complement.
pub fn word_of(format: Format, bits: i128) -> u64
    requires { IsInRange format.signed format.width bits }
    ensures { result ≡ word_of format.width bits }
{
    if bits < 0 {
        (turn_of(format) - bits.unsigned_abs()) as u64
    } else {
        bits as u64
    }
}

/// Appends bits of a format in hexadecimal: a digit for every four bits of its width, from the last one on.
pub fn push_digits<const N: usize>(out: &mut TextBuffer<N>, format: Format, bits: i128)
    requires range { IsInRange format.signed format.width bits }
    requires room { length out.old + 16 ≤ N }
    ensures appended { out.new ≡ out.old ++ hex_digits format.width bits }
    ensures short { length out.new ≤ length out.old + 16 }
{
    push_hex_digits(out, word_of(format, bits), (format.width() + 3) / 4);
}

/// Appends bits of a format in hexadecimal after `0x`.
pub fn push_hex<const N: usize>(out: &mut TextBuffer<N>, format: Format, bits: i128)
    requires range { IsInRange format.signed format.width bits }
    requires room { length out.old + 18 ≤ N }
    ensures appended { out.new ≡ out.old ++ hex_text format.width bits }
    ensures short { length out.new ≤ length out.old + 18 }
{
    out.push_bytes(b"0x");
    push_digits(out, format, bits);
}
