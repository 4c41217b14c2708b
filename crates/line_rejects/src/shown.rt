//! A text as it is shown on one line, without control characters.

ghost use Rattle.std.specs.Prelude.{◌≡◌, ◌<◌, ◌≤◌, length};
ghost use Rattle.line_rejects.specs.Shown.{IsFirstShown, IsWidth, hex_digit, shown};

use text_buffer::TextBuffer;

/// Returns a number below 16 as a hexadecimal digit.
pub fn hex_digit(number: u8) -> u8
    ensures { number < 16 → result ≡ hex_digit number }
{
    if number < 10 {
        b'0' + number
    } else {
        b'a' + (number.min(15) - 10)
    }
}

/// Returns the length of the UTF-8 character that `bytes` begins with, or 0 if it does not begin with one.
pub fn character_width(bytes: &[u8]) -> usize
    ensures width { IsWidth bytes.now result }
    ensures most { result ≤ 4 }
    ensures within { result ≤ length bytes.now }
{
    let width = match bytes {
        [0..=0x7f, ..] => 1,
        [0xc0..=0xdf, ..] => 2,
        [0xe0..=0xef, ..] => 3,
        [0xf0..=0xff, ..] => 4,
        _ => 0,
    };
    match bytes.get(..width) {
        Some(first) if str::from_utf8(first).is_ok() => width,
        _ => 0,
    }
}

/// Returns the first bytes of a text as they are shown: a character of this width or, if that is 0, a byte that begins
/// no character.
fn shown_text(width: usize, first: &[u8]) -> TextBuffer<4>
    requires most { length first.now ≤ 4 }
    requires one { width ≡ 0 → length first.now ≤ 1 }
    ensures { result ≡ shown width first.now }
{
    let mut text = TextBuffer::new();
    match first {
        [byte] if width == 0 => {
            text.push_bytes(&[b'\\', b'x', hex_digit(byte / 16), hex_digit(byte % 16)]);
        }
        [byte] if byte.is_ascii_control() => text.push(b'?'),
        [0xc2, 0x80..=0x9f] => text.push(b'?'),
        _ => text.push_bytes(first),
    }
    text
}

/// Returns the first character of `bytes` in readable form, and the bytes after it. A control character is shown as
/// `?`, and a byte that does not begin a UTF-8 character as `\x` and two hexadecimal digits.
pub fn first_shown(bytes: &[u8]) -> (TextBuffer<4>, &[u8])
    ensures { IsFirstShown bytes.now result.0 result.1.now }
{
    let width = character_width(bytes);
    let (first, rest) = bytes.split_at(width.max(1).min(bytes.len()));
    (shown_text(width, first), rest)
}
