//! The lines of a text in memory, one at a time: each call returns the first.

ghost use Rattle.std.specs.Prelude.{◌≡◌, ◌<◌, ◌∷◌, [], length};
ghost use Rattle.line_engine.specs.Lines.{lines};

use memchr::memchr;

/// Returns the first line of a text, without its newline, and the text after it.
pub fn first_line(text: &[u8]) -> (&[u8], &[u8])
    requires { ¬ (text.now ≡ []) }
    ensures lines { lines text.now ≡ result.0.now ∷ lines result.1.now }
    ensures shorter { length result.1.now < length text.now }
{
    match memchr(b'\n', text) {
        Some(end) => (&text[..end], &text[end + 1..]),
        None => (text, &text[text.len()..]),
    }
}
