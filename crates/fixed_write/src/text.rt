//! A text in memory, padded up to a width. Memory is allocated once, exactly as many bytes as the text has.

ghost use Rattle.std.specs.Prelude.{◌≡◌, ◌+◌, ◌*◌, ◌^◌, ◌<◌, ◌≤◌, ◌++◌, [], length, vec_len, vec_capacity};
ghost use Rattle.std.specs.Prelude.{IfOk};
ghost use Rattle.std.specs.List.{repeat};
ghost use Rattle.fixed_write.specs.Styled.{padded_text, fills_before};
ghost use Rattle.fixed_write.specs.Inner.Styling.{laid_out, body_text};

use crate::style::{Align, Style};
use std::alloc::{AllocError, Global};
use std::marker::Model;
use text_buffer::NoMemory;

/// A text in memory.
#[derive(Drop)]
pub struct Text {
    bytes: Vec<u8>,
}

impl Model for Text {
    ghost use Rattle.std.specs.Prelude.{List, ℕ};

    ghost Value = { List ℕ };

    ghost view = { λ s. s.bytes.items };
}

impl Text {
    /// The bytes of the text.
    pub fn as_bytes(&self) -> &[u8]
        ensures { result.now ≡ self.now }
    {
        self.bytes.as_slice()
    }
}

/// Appends bytes, for which there is capacity.
fn append(bytes: &mut Vec<u8>, part: &[u8])
    requires { vec_len bytes.old + length part.now ≤ vec_capacity bytes.old }
    ensures items { bytes.new.items ≡ bytes.old.items ++ part.now }
    ensures len { vec_len bytes.new ≡ vec_len bytes.old + length part.now }
    ensures capacity { vec_capacity bytes.old ≤ vec_capacity bytes.new }
{
    let _ = bytes.extend_from_slice(part);
}

/// Appends the same bytes `times` times.
fn append_times(bytes: &mut Vec<u8>, part: &[u8], times: usize)
    requires { vec_len bytes.old + times * length part.now ≤ vec_capacity bytes.old }
    ensures items { bytes.new.items ≡ bytes.old.items ++ repeat times part.now }
    ensures len { vec_len bytes.new ≡ vec_len bytes.old + times * length part.now }
    ensures capacity { vec_capacity bytes.old ≤ vec_capacity bytes.new }
{
    'copies: for done in 0..times {
        append(bytes, part);
    }
}

/// How many of `padding` fills come before the text.
pub(crate) fn fills_before(align: Align, padding: usize) -> usize
    ensures value { result ≡ fills_before align padding }
    ensures most { result ≤ padding }
{
    match align {
        Align::Left => 0,
        Align::Center => padding / 2,
        Align::Right => padding,
    }
}

/// Writes fills, sign and prefix, zeros, the body in its parts, and fills, to a text of exactly their length.
fn written(
    alloc: Global,
    fill: &[u8],
    before: usize,
    prefix: &[u8],
    inner: usize,
    body: &BodyParts,
    after: usize,
) -> Result<Text, NoMemory>
    requires fill { length fill.now ≤ 4 }
    requires before { before < 2 ^ 20 }
    requires prefix { length prefix.now ≤ 200 }
    requires inner { inner < 2 ^ 20 }
    requires digits { length body.now.digits.now ≤ 200 }
    requires zeros { body.now.zeros < 2 ^ 20 }
    requires tail { length body.now.tail.now ≤ 200 }
    requires after { after < 2 ^ 20 }
    ensures { IfOk result (λ t. t ≡ laid_out fill.now before prefix.now inner
        (body_text body.now.digits.now body.now.zeros body.now.tail.now) after) }
{
    let length = (before + after) * fill.len()
        + prefix.len()
        + inner
        + body.digits.len()
        + body.zeros
        + body.tail.len();
    match Vec::with_capacity(alloc, length) {
        Ok(room) => {
            let mut bytes = room;
            append_times(&mut bytes, fill, before);
            append(&mut bytes, prefix);
            append_times(&mut bytes, b"0", inner);
            append(&mut bytes, body.digits);
            append_times(&mut bytes, b"0", body.zeros);
            append(&mut bytes, body.tail);
            append_times(&mut bytes, fill, after);
            Ok(Text { bytes })
        }
        Err(AllocError) => Err(NoMemory),
    }
}

/// A body in its parts: digits, zeros after them, and an exponent.
#[derive(Clone, Copy)]
pub(crate) struct BodyParts<'a> {
    pub(crate) digits: &'a [u8],
    pub(crate) zeros: usize,
    pub(crate) tail: &'a [u8],
}

/// Writes sign and prefix and a body, padded up to the width of a style.
pub(crate) fn padded(
    alloc: Global,
    style: &Style,
    prefix: &[u8],
    body: &BodyParts,
) -> Result<Text, NoMemory>
    requires prefix { length prefix.now ≤ 200 }
    requires digits { length body.now.digits.now ≤ 200 }
    requires zeros { body.now.zeros < 2 ^ 16 }
    requires tail { length body.now.tail.now ≤ 200 }
    ensures { IfOk result (λ t. t ≡ padded_text style.now prefix.now
        (body_text body.now.digits.now body.now.zeros body.now.tail.now)) }
{
    let shown = prefix.len() + body.digits.len() + body.zeros + body.tail.len();
    let padding = (style.width as usize).saturating_sub(shown);
    let mut buffer = [0u8; 4];
    let fill = style.fill.encode_utf8(&mut buffer).as_bytes();
    if style.zero_pad {
        written(alloc, fill, 0, prefix, padding, body, 0)
    } else {
        let before = fills_before(style.align, padding);
        written(alloc, fill, before, prefix, 0, body, padding - before)
    }
}
