//! Templates: texts with slots for a list, its format and one of its numbers.

ghost use Rattle.std.specs.Prelude.{◌≡◌, ◌≤◌, ◌<◌, ◌+◌, ◌^◌, ◌++◌, ◌∷◌, List, ℕ, IfOk, OnOk, false, length};
ghost use Rattle.std.specs.Fmt.{decimal, digit_glyph};
ghost use Rattle.fixed_bits.specs.Ranges.{IsInRange, IsWide};
ghost use Rattle.fixed_write.specs.Texts.{last_digits, shortest_text};
ghost use Rattle.fixed_arrays.specs.Slots.{binary_digits, c_sign, count_slot, element_format, element_width, fill};
ghost use Rattle.fixed_arrays.specs.Slots.{fill_from, hex_digits, label_text, number_slot, parts_of, rust_sign};
ghost use Rattle.fixed_arrays.specs.Slots.{separator, slot};
ghost use Rattle.fixed_arrays.specs.Slots.{vhdl_sign, word_of};

use fixed_bits::Format;
use fixed_constants::{push_c_number, push_hexadecimal};
use fixed_respell::format_name;
use fixed_steps::Steps;
use fixed_write::push_shortest;
use itoa::Buffer;
use std::alloc::AllocError;
use std::sync::ledger::Ledger;
use text_buffer::TextBuffer;

/// The byte before a slot of a template.
const MARK: u8 = b'@';

/// The contents of slots.
#[derive(Clone, Copy)]
pub struct Filling<'a> {
    /// The list's name.
    pub name: &'a [u8],
    /// The name that guards a C header.
    pub guard: &'a [u8],
    /// The format of the numbers.
    pub format: Format,
    /// The count of numbers.
    pub count: u64,
    /// The name of a number; empty if it has none.
    pub label: &'a [u8],
    /// Its index, from 0.
    pub index: u64,
    /// Its bits.
    pub bits: i128,
}

/// Returns the width of an element's integer type in bits, for a format of this width.
fn element_width(width: u32) -> u32
    ensures value { result ≡ element_width width }
    ensures enough { width ≤ 64 → width ≤ result }
    ensures most { result ≤ 64 }
{
    if width > 32 {
        64
    } else if width > 16 {
        32
    } else if width > 8 {
        16
    } else {
        8
    }
}

/// Returns the format with the width of an element's integer type.
fn element_format(format: Format) -> Format
    ensures { result ≡ element_format format }
{
    Format::of(
        format.signed(),
        element_width(format.width()),
        format.frac(),
    )
}

/// Returns the prefix of C's integer types.
fn c_sign(signed: bool) -> &'static [u8]
    ensures { result.now ≡ c_sign signed }
{
    if signed { b"" } else { b"u" }
}

/// Returns the prefix of Rust's integer types.
fn rust_sign(signed: bool) -> &'static [u8]
    ensures { result.now ≡ rust_sign signed }
{
    if signed { b"i" } else { b"u" }
}

/// Returns the prefix of VHDL's `signed`.
fn vhdl_sign(signed: bool) -> &'static [u8]
    ensures { result.now ≡ vhdl_sign signed }
{
    if signed { b"" } else { b"un" }
}

/// Returns the separator before a number, empty for the first.
fn separator(index: u64) -> &'static [u8]
    ensures { result.now ≡ separator index }
{
    if index == 0 { b"" } else { b",\n" }
}

/// Appends bytes.
fn push_bytes(text: &mut Vec<u8>, bytes: &[u8]) -> Result<(), AllocError>
    ensures { OnOk result (text.new.items ≡ text.old.items ++ bytes.now) }
{
    text.extend_from_slice(bytes)?;
    Ok(())
}

/// Appends the name of a number, if any, and the separator before its value.
fn push_label(text: &mut Vec<u8>, label: &[u8]) -> Result<(), AllocError>
    ensures { OnOk result (text.new.items ≡ text.old.items ++ label_text label.now) }
{
    if label.is_empty() {
        return Ok(());
    }
    text.extend_from_slice(label)?;
    text.extend_from_slice(b", ")?;
    Ok(())
}

/// Appends a number in decimal.
pub fn push_number(text: &mut Vec<u8>, number: u64) -> Result<(), AllocError>
    ensures { OnOk result (text.new.items ≡ text.old.items ++ decimal number) }
{
    let mut digits = Buffer::new();
    text.extend_from_slice(digits.format(number).as_bytes())?;
    Ok(())
}

/// Appends the value of bits.
fn push_value<L: Ledger>(
    text: &mut Vec<u8>,
    format: Format,
    bits: i128,
    steps: &mut Steps<L>,
) -> Result<(), AllocError>
    requires { IsWide bits }
    ensures { OnOk result (text.new.items ≡ text.old.items ++ shortest_text bits format.frac) }
{
    let mut value: TextBuffer<48> = TextBuffer::new();
    push_shortest(&mut value, bits, format.frac(), steps);
    text.extend_from_slice(value.as_bytes())?;
    Ok(())
}

/// Returns two to the power of a format's width.
fn turn_of(format: Format) -> u128
    ensures turn { result ≡ 2 ^ format.width }
    ensures most { result ≤ 2 ^ 64 }
    ensures some { 0 < format.width }
{
    1 << format.width()
}

/// Returns the bits of a format in two's complement, as an unsigned number.
fn word_of(format: Format, bits: i128) -> u64
    requires { IsInRange format.signed format.width bits }
    ensures { result ≡ word_of format.width bits }
{
    if bits < 0 {
        (turn_of(format) - bits.unsigned_abs()) as u64
    } else {
        bits as u64
    }
}

/// Returns a digit in lower case.
fn glyph_of(digit: u8) -> u8
    requires { digit < 16 }
    ensures { result ≡ digit_glyph false digit }
{
    if digit < 10 {
        b'0' + digit
    } else {
        b'a' + (digit - 10)
    }
}

/// Appends the last `count` digits of a word in a base, with leading zeros if it has fewer.
fn push_last(digits: &mut TextBuffer<64>, base: u64, word: u64, count: u32)
    requires some { 0 < base }
    requires most { base ≤ 16 }
    requires room { length digits.old + count ≤ 64 }
    ensures appended { digits.new ≡ digits.old ++ last_digits base false count word }
    ensures length { length digits.new ≡ length digits.old + count }
{
    if count > 0 {
        push_last(digits, base, word / base, count - 1);
        digits.push(glyph_of((word % base) as u8));
    }
}

/// Appends bits in two's complement in hexadecimal.
fn push_hex_word(text: &mut Vec<u8>, format: Format, bits: i128) -> Result<(), AllocError>
    requires { IsInRange format.signed format.width bits }
    ensures { OnOk result (text.new.items ≡ text.old.items ++ hex_digits format.width bits) }
{
    let mut digits = TextBuffer::new();
    push_last(
        &mut digits,
        16,
        word_of(format, bits),
        (format.width() + 3) / 4,
    );
    text.extend_from_slice(digits.as_bytes())?;
    Ok(())
}

/// Appends bits in two's complement in binary.
fn push_binary_word(text: &mut Vec<u8>, format: Format, bits: i128) -> Result<(), AllocError>
    requires { IsInRange format.signed format.width bits }
    ensures { OnOk result (text.new.items ≡ text.old.items ++ binary_digits format.width bits) }
{
    let mut digits = TextBuffer::new();
    push_last(&mut digits, 2, word_of(format, bits), format.width());
    text.extend_from_slice(digits.as_bytes())?;
    Ok(())
}

/// Appends the contents of a slot for a number.
fn push_number_slot<L: Ledger>(
    text: &mut Vec<u8>,
    filling: &Filling<'_>,
    key: u8,
    steps: &mut Steps<L>,
) -> Result<(), AllocError>
    requires range { IsInRange filling.now.format.signed filling.now.format.width filling.now.bits }
    requires wide { IsWide filling.now.bits }
    ensures { OnOk result (text.new.items ≡ text.old.items ++ number_slot (parts_of filling.now) key) }
{
    let format = filling.format;
    let bits = filling.bits;
    match key {
        b'd' => push_c_number(text, element_format(format), bits),
        b'x' => push_hexadecimal(text, bits),
        b'h' => push_hex_word(text, format, bits),
        b'z' => push_binary_word(text, format, bits),
        _ => push_value(text, format, bits, steps),
    }
}

/// Appends the contents of a slot for a count or a number.
fn push_count_slot<L: Ledger>(
    text: &mut Vec<u8>,
    filling: &Filling<'_>,
    key: u8,
    steps: &mut Steps<L>,
) -> Result<(), AllocError>
    requires range { IsInRange filling.now.format.signed filling.now.format.width filling.now.bits }
    requires wide { IsWide filling.now.bits }
    ensures { OnOk result (text.new.items ≡ text.old.items ++ count_slot (parts_of filling.now) key) }
{
    let width = filling.format.width();
    match key {
        b'c' => push_number(text, filling.count),
        b'l' => push_number(text, filling.count.saturating_sub(1)),
        b'i' => push_number(text, filling.index),
        b'w' => push_number(text, u64::from(element_width(width))),
        b'b' => push_number(text, u64::from(width)),
        b'm' => push_number(text, u64::from(width - 1)),
        b'p' => push_number(text, u64::from(filling.format.frac())),
        _ => push_number_slot(text, filling, key, steps),
    }
}

/// Appends the contents of a slot.
fn push_slot<L: Ledger>(
    text: &mut Vec<u8>,
    filling: &Filling<'_>,
    key: u8,
    steps: &mut Steps<L>,
) -> Result<(), AllocError>
    requires range { IsInRange filling.now.format.signed filling.now.format.width filling.now.bits }
    requires wide { IsWide filling.now.bits }
    ensures { OnOk result (text.new.items ≡ text.old.items ++ slot (parts_of filling.now) key) }
{
    let signed = filling.format.signed();
    match key {
        b'n' => push_bytes(text, filling.name),
        b'g' => push_bytes(text, filling.guard),
        b'f' => push_bytes(text, format_name(filling.format).as_bytes()),
        b'u' => push_bytes(text, c_sign(signed)),
        b'r' => push_bytes(text, rust_sign(signed)),
        b'q' => push_bytes(text, vhdl_sign(signed)),
        b',' => push_bytes(text, separator(filling.index)),
        b'k' => push_label(text, filling.label),
        _ => push_count_slot(text, filling, key, steps),
    }
}

/// Appends the next byte of a template, or the contents of the slot that it names. Returns whether the byte after it
/// names a slot.
fn push_next<L: Ledger>(
    text: &mut Vec<u8>,
    filling: &Filling<'_>,
    is_slot: bool,
    byte: u8,
    steps: &mut Steps<L>,
) -> Result<bool, AllocError>
    requires range { IsInRange filling.now.format.signed filling.now.format.width filling.now.bits }
    requires wide { IsWide filling.now.bits }
    ensures { IfOk result (λ next. (more : List ℕ)
        → text.old.items ++ fill_from is_slot (parts_of filling.now) (byte ∷ more)
        ≡ text.new.items ++ fill_from next (parts_of filling.now) more) }
{
    if is_slot {
        push_slot(text, filling, byte, steps)?;
        Ok(false)
    } else if byte == MARK {
        Ok(true)
    } else {
        text.push(byte)?;
        Ok(false)
    }
}

/// Appends a template with its slots filled.
pub fn push_filled<L: Ledger>(
    text: &mut Vec<u8>,
    filling: &Filling<'_>,
    template: &[u8],
    steps: &mut Steps<L>,
) -> Result<(), AllocError>
    requires range { IsInRange filling.now.format.signed filling.now.format.width filling.now.bits }
    requires wide { IsWide filling.now.bits }
    ensures { OnOk result (text.new.items ≡ text.old.items ++ fill (parts_of filling.now) template.now) }
{
    let mut is_slot = false;
    for byte in template {
        is_slot = push_next(text, filling, is_slot, *byte, steps)?;
    }
    Ok(())
}
