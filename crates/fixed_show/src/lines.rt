//! The lines that blocks share.

ghost use Rattle.std.specs.Prelude.{◌≡◌, ◌+◌, ◌≤◌, ◌++◌, false, pos, ◌≤ℤ◌, length};
ghost use Rattle.std.specs.Fmt.{signed_decimal};
ghost use Rattle.fixed_bits.specs.Formats.{IsFormat};
ghost use Rattle.fixed_bits.specs.Ranges.{IsWide, greatest, lowest};
ghost use Rattle.fixed_write.specs.Places.{IsExactText, exact_text};
ghost use Rattle.fixed_write.specs.Texts.{IsShortestText, shortest_text};
ghost use Rattle.fixed_show.specs.Blocks.{line};
ghost use Rattle.fixed_show.specs.Forms.{fact, refusal};

use crate::form::{Form, end_byte, push_label};
use fixed_bits::Format;
use fixed_steps::Steps;
use fixed_write::{Base, push_exact, push_integer, push_shortest};
use std::sync::ledger::Ledger;
use text_buffer::TextBuffer;

/// The length of the longest block, in bytes.
pub const MAX_BLOCK: usize = 3328;

/// A format's fraction length.
pub(crate) fn frac_of(format: Format) -> u32
    ensures value { result ≡ format.frac }
    ensures most { result ≤ 64 }
    ensures valid { IsFormat format.width format.frac }
{
    format.frac()
}

/// A format's lowest bits.
pub(crate) fn lowest_of(format: Format) -> i128
    ensures value { result ≡ lowest format.signed format.width }
    ensures wide { IsWide result }
{
    let _width = format.width();
    format.lowest()
}

/// A format's greatest bits.
pub(crate) fn greatest_of(format: Format) -> i128
    ensures value { result ≡ greatest format.signed format.width }
    ensures wide { IsWide result }
    ensures some { pos 0 ≤ℤ result }
{
    let _width = format.width();
    format.greatest()
}

/// Appends a line of a label and a text.
pub(crate) fn push_line<const N: usize>(out: &mut TextBuffer<N>, label: &[u8], text: &[u8])
    requires { length out.old + (length label.now + length text.now + 1) ≤ N }
    ensures appended { out.new ≡ out.old ++ line label.now text.now }
    ensures long { length out.new ≡ length out.old + (length label.now + length text.now + 1) }
{
    out.push_bytes(label);
    out.push_bytes(text);
    out.push(b'\n');
}

/// Appends a fact: `value` ulps of 2^-`frac`, exactly in decimal.
pub(crate) fn push_exact_fact<const N: usize>(
    out: &mut TextBuffer<N>,
    form: Form,
    key: &[u8],
    value: i128,
    frac: u32,
)
    requires wide { IsWide value }
    requires frac { frac ≤ 64 }
    requires key { length key.now ≤ 10 }
    requires room { length out.old + 146 ≤ N }
    ensures appended { out.new ≡ out.old ++ fact form key.now (exact_text 10 false value frac) }
    ensures exact { IsExactText 10 false value frac (exact_text 10 false value frac) }
    ensures short { length out.new ≤ length out.old + 146 }
{
    push_label(out, form, key);
    push_exact(out, value, frac, Base::Dec);
    out.push(end_byte(form));
}

/// Appends a fact: the shortest decimal text of `value` ulps of 2^-`frac`.
pub(crate) fn push_shortest_fact<const N: usize, L: Ledger>(
    out: &mut TextBuffer<N>,
    form: Form,
    key: &[u8],
    value: i128,
    frac: u32,
    steps: &mut Steps<L>,
)
    requires wide { IsWide value }
    requires frac { frac ≤ 64 }
    requires key { length key.now ≤ 10 }
    requires room { length out.old + 64 ≤ N }
    ensures appended { out.new ≡ out.old ++ fact form key.now (shortest_text value frac) }
    ensures shortest { IsShortestText value frac (shortest_text value frac) }
    ensures short { length out.new ≤ length out.old + 64 }
    ensures cost { steps.new ≤ steps.old + 48 }
{
    push_label(out, form, key);
    push_shortest(out, value, frac, steps);
    out.push(end_byte(form));
}

/// Appends a fact: a number in decimal.
pub fn push_integer_fact<const N: usize>(
    out: &mut TextBuffer<N>,
    form: Form,
    key: &[u8],
    value: i128,
)
    requires wide { IsWide value }
    requires key { length key.now ≤ 10 }
    requires room { length out.old + 37 ≤ N }
    ensures appended { out.new ≡ out.old ++ fact form key.now (signed_decimal value) }
    ensures short { length out.new ≤ length out.old + 37 }
{
    push_label(out, form, key);
    push_integer(out, value);
    out.push(end_byte(form));
}

/// Appends a fact: a text.
pub fn push_fact<const N: usize>(out: &mut TextBuffer<N>, form: Form, key: &[u8], text: &[u8])
    requires key { length key.now ≤ 10 }
    requires room { length out.old + (length text.now + 16) ≤ N }
    ensures appended { out.new ≡ out.old ++ fact form key.now text.now }
    ensures short { length out.new ≤ length out.old + (length text.now + 16) }
{
    push_label(out, form, key);
    out.push_bytes(text);
    out.push(end_byte(form));
}

/// Appends the line or the member that reports a refusal.
pub fn push_refusal<const N: usize>(out: &mut TextBuffer<N>, form: Form, message: &str)
    requires short { length message.now ≤ 64 }
    requires room { length out.old + 80 ≤ N }
    ensures appended { out.new ≡ out.old ++ refusal form message.now }
    ensures short { length out.new ≤ length out.old + 80 }
{
    match form {
        Form::Lines => push_line(out, b"error: ", message.as_bytes()),
        Form::Members => push_fact(out, Form::Members, b"refused", message.as_bytes()),
    }
}
