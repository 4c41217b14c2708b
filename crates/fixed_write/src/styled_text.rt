//! A number in a style without allocation: the parts of its text, which are written to bytes of the caller.

ghost use Rattle.std.specs.Prelude.{◌≡◌, ◌+◌, ◌*◌, ◌^◌, ◌<◌, ◌≤◌, ◌++◌, length, drop};
ghost use Rattle.std.specs.List.{repeat};
ghost use Rattle.std.specs.Char.{encode_utf8};
ghost use Rattle.fixed_bits.specs.Ranges.{IsWide};
ghost use Rattle.fixed_write.specs.Styled.{IsStyledText, padded_text};
ghost use Rattle.fixed_write.specs.Inner.Styling.{IsPut, body_text};

use crate::exponent::{Body, Tail};
use crate::printer::magnitude_of;
use crate::style::Style;
use crate::styled::{push_body, sign_and_prefix};
use crate::text::fills_before;
use std::marker::Model;
use text_buffer::TextBuffer;

/// The parts of the text of a number in a style.
#[derive(Drop)]
pub struct StyledText {
    fill: TextBuffer<4>,
    before: usize,
    prefix: TextBuffer<8>,
    inner: usize,
    digits: Body,
    zeros: usize,
    tail: Tail,
    after: usize,
}

impl Model for StyledText {
    ghost use Rattle.std.specs.Prelude.{List, ℕ, ◌+◌, ◌<◌, ◌^◌};
    ghost use Rattle.fixed_write.specs.Inner.Styling.{laid_out, body_text};

    ghost Value = { List ℕ };

    ghost view = { λ s. laid_out s.fill s.before s.prefix s.inner (body_text s.digits s.zeros s.tail) s.after };

    ghost invariant = { λ s. (s.before + s.after < 2 ^ 16) × (s.inner < 2 ^ 16) × (s.zeros < 2 ^ 16) };
}

impl StyledText {
    /// The length in bytes.
    pub fn len(&self) -> usize
        ensures { result ≡ length self.now }
    {
        (self.before + self.after) * self.fill.len()
            + self.prefix.len()
            + self.inner
            + self.digits.len()
            + self.zeros
            + self.tail.len()
    }

    /// Writes the text to the first bytes of `out`, which must be long enough, and leaves the others as they were.
    pub fn write_to(&self, out: &mut [u8])
        requires { length self.now ≤ length out.old }
        ensures { out.new ≡ self.now ++ drop (length self.now) out.old }
    {
        let at = put_times(out, 0, self.fill.as_bytes(), self.before);
        let at = put(out, at, self.prefix.as_bytes());
        let at = put_times(out, at, b"0", self.inner);
        let at = put(out, at, self.digits.as_bytes());
        let at = put_times(out, at, b"0", self.zeros);
        let at = put(out, at, self.tail.as_bytes());
        put_times(out, at, self.fill.as_bytes(), self.after);
    }
}

/// Puts bytes at an index, and returns the index after them.
fn put(out: &mut [u8], at: usize, part: &[u8]) -> usize
    requires { at + length part.now ≤ length out.old }
    ensures { IsPut part.now out.old out.new at result }
{
    let end = at + part.len();
    out[at..end].copy_from_slice(part);
    end
}

/// Puts the same bytes `times` times at an index, and returns the index after them.
fn put_times(out: &mut [u8], at: usize, part: &[u8], times: usize) -> usize
    requires { at + times * length part.now ≤ length out.old }
    ensures { IsPut (repeat times part.now) out.old out.new at result }
{
    let mut end = at;
    'copies: for done in 0..times {
        end = put(out, end, part);
    }
    end
}

/// The bytes of a character.
fn bytes_of(fill: char) -> TextBuffer<4>
    ensures { result ≡ encode_utf8 fill }
{
    let mut buffer = [0u8; 4];
    let mut bytes = TextBuffer::new();
    bytes.push_bytes(fill.encode_utf8(&mut buffer).as_bytes());
    bytes
}

/// Lays out sign and prefix and a body in its parts, padded up to the width of a style.
fn padded_parts(
    style: &Style,
    prefix: TextBuffer<8>,
    digits: Body,
    zeros: usize,
    tail: Tail,
) -> StyledText
    requires { zeros < 2 ^ 16 }
    ensures { result ≡ padded_text style.now prefix (body_text digits zeros tail) }
{
    let shown = prefix.len() + digits.len() + zeros + tail.len();
    let padding = (style.width as usize).saturating_sub(shown);
    let fill = bytes_of(style.fill);
    if style.zero_pad {
        StyledText {
            fill,
            before: 0,
            prefix,
            inner: padding,
            digits,
            zeros,
            tail,
            after: 0,
        }
    } else {
        let before = fills_before(style.align, padding);
        StyledText {
            fill,
            before,
            prefix,
            inner: 0,
            digits,
            zeros,
            tail,
            after: padding - before,
        }
    }
}

/// Writes `value` ulps of 2^-`frac` in a style, like `to_text`, but without allocation.
pub fn text_in_style(value: i128, frac: u32, style: &Style) -> StyledText
    requires wide { IsWide value }
    requires frac { frac ≤ 64 }
    ensures { IsStyledText style.now value frac result }
{
    let prefix = sign_and_prefix(value < 0, style);
    let mut digits: Body = TextBuffer::new();
    let mut tail: Tail = TextBuffer::new();
    let zeros = push_body(&mut digits, &mut tail, magnitude_of(value), frac, style);
    padded_parts(style, prefix, digits, zeros, tail)
}
