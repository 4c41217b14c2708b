//! The number that the bits of a register stand for.

ghost use Rattle.std.specs.Prelude.{◌≡◌, ◌+◌, ◌-◌, ◌≤◌, ◌<◌, ◌/◌, ◌++◌, IfSome, false, pos, is_some, length, codes};
ghost use Rattle.fixed_bits.specs.Images.{IsWrapped};
ghost use Rattle.fixed_bits.specs.Ranges.{IsWide};
ghost use Rattle.fixed_show.specs.Blocks.{Appends, hex_text};
ghost use Rattle.fixed_show.specs.BitsBlock.{AreBitsFacts, AreValues, IsBitsBlock, IsBitsObject};
ghost use Rattle.fixed_show.specs.Forms.{fact, refusal};
ghost use Rattle.fixed_show.specs.JsonText.{object_text};
ghost use Rattle.fixed_show.specs.declared.form.Form.TheVariants.{Lines, Members};

use crate::form::{Form, end_byte, push_label};
use crate::hex::push_hex_digits;
use crate::json::{MAX_OBJECT, push_given};
use crate::lines::{
    MAX_BLOCK, frac_of, push_exact_fact, push_integer_fact, push_refusal, push_shortest_fact,
};
use crate::words::read_word;
use fixed_bits::{Format, Policy};
use fixed_numeral::Radix;
use fixed_steps::Steps;
use std::sync::ledger::Ledger;
use text_buffer::TextBuffer;

/// Returns the bits of a number in two's complement, as a word of the format's width.
fn word_of(bits: i128, format: Format) -> u64
    ensures { IsWrapped false format.width bits (pos result) }
{
    let words = Format::of(false, format.width(), 0);
    Policy::Wrapping.image(words, bits).unwrap() as u64
}

/// Appends a fact: a word in hexadecimal.
fn push_hex_fact<const N: usize>(out: &mut TextBuffer<N>, form: Form, word: u64, width: u32)
    requires width { width ≤ 64 }
    requires room { length out.old + 34 ≤ N }
    ensures appended { out.new ≡ out.old ++ fact form (codes "hex") (hex_text width word) }
    ensures short { length out.new ≤ length out.old + 34 }
{
    push_label(out, form, b"hex");
    out.push_bytes(b"0x");
    push_hex_digits(out, word, (width + 3) / 4);
    out.push(end_byte(form));
}

/// A format's width.
fn width_of(format: Format) -> u32
    ensures value { result ≡ format.width }
    ensures most { result ≤ 64 }
{
    format.width()
}

/// Appends the facts of bits in a format: the shortest text, the bits in decimal and in hexadecimal, and the exact
/// value.
pub(crate) fn push_values<const N: usize, L: Ledger>(
    out: &mut TextBuffer<N>,
    form: Form,
    bits: i128,
    format: Format,
    steps: &mut Steps<L>,
)
    requires wide { IsWide bits }
    requires room { length out.old + 281 ≤ N }
    ensures values { Appends (AreValues form format bits) 281 out.old out.new }
    ensures cost { steps.new ≤ steps.old + 48 }
{
    let frac = frac_of(format);
    push_shortest_fact(out, form, b"text", bits, frac, steps);
    push_integer_fact(out, form, b"bits", bits);
    push_hex_fact(out, form, word_of(bits, format), width_of(format));
    push_exact_fact(out, form, b"value", bits, frac);
}

/// Appends the facts of a word, or why it is refused. Returns that message if it is refused.
fn push_bits_facts<const N: usize, L: Ledger>(
    out: &mut TextBuffer<N>,
    form: Form,
    text: &[u8],
    bare: Radix,
    format: Format,
    steps: &mut Steps<L>,
) -> Option<&'static str>
    requires room { length out.old + 281 ≤ N }
    ensures facts { Appends (AreBitsFacts form bare format text.now (is_some result)) 281 out.old out.new }
    ensures refused { IfSome result (λ m. out.new ≡ out.old ++ refusal form m.now) }
    ensures cost { steps.new ≤ steps.old + 48 }
{
    match read_word(text, bare, format) {
        Ok(bits) => {
            push_values(out, form, bits, format, steps);
            None
        }
        Err(fault) => {
            let message = fault.message();
            push_refusal(out, form, message);
            Some(message)
        }
    }
}

/// Appends the block of a word in a format: the shortest text of its number, the bits in decimal and in hexadecimal,
/// and the exact value. A word without a prefix is in the radix `bare`. A text that is not a word of the format gets
/// only one line, `error: ` and why, and that message is returned. There must be room for `MAX_BLOCK` bytes. It takes
/// at most 48 steps.
pub fn bits_block<const N: usize, L: Ledger>(
    text: &[u8],
    bare: Radix,
    format: Format,
    out: &mut TextBuffer<N>,
    steps: &mut Steps<L>,
) -> Option<&'static str>
    requires room { length out.old + MAX_BLOCK ≤ N }
    ensures block { Appends (IsBitsBlock bare format text.now (is_some result)) MAX_BLOCK out.old out.new }
    ensures refused { IfSome result (λ m. out.new ≡ out.old ++ refusal Lines m.now) }
    ensures cost { steps.new ≤ steps.old + 48 }
{
    push_bits_facts(out, Form::Lines, text, bare, format, steps)
}

/// Appends the same as a JSON object of at most `MAX_OBJECT` bytes, in which `refused` is the returned message.
/// Its first member, `given`, has the first 768 bytes of the text. It takes at most 48 steps.
pub fn bits_object<const N: usize, L: Ledger>(
    text: &[u8],
    bare: Radix,
    format: Format,
    out: &mut TextBuffer<N>,
    steps: &mut Steps<L>,
) -> Option<&'static str>
    requires room { length out.old + MAX_OBJECT ≤ N }
    ensures object { Appends (IsBitsObject bare format text.now (is_some result)) MAX_OBJECT out.old out.new }
    ensures refused { IfSome result (λ m. out.new ≡ out.old ++ object_text text.now (refusal Members m.now)) }
    ensures cost { steps.new ≤ steps.old + 48 }
{
    push_given(out, text);
    let refused = push_bits_facts(out, Form::Members, text, bare, format, steps);
    out.push(b'}');
    refused
}
