//! Writes constants as a C header and as Rust.
//!
//! A type of Rust has its whole path, so a file of constants needs no `use`. A negative constant of C is
//! `(-INT8_C(0x33))`, since the macro takes a constant and a minus is not part of one. The lowest number of a width is
//! `(-INT8_C(0x7f) - 1)`, as in `<stdint.h>`, since its magnitude is out of the range of the type.

ghost use Rattle.std.specs.Prelude.{◌≡◌, ◌<◌, ◌++◌, ◌-◌, ◌^◌, OnOk, IfOk, unsigned_abs};
ghost use Rattle.fixed_bits.specs.Ranges.{IsWide};
ghost use Rattle.fixed_constants.specs.Canonical.{literal_text};
ghost use Rattle.fixed_constants.specs.Forms.{
  c_closing,
  c_comment,
  c_constant,
  c_line,
  c_lowest,
  c_macro,
  c_minus,
  c_negative,
  c_number,
  c_opening,
  closing,
  form_line,
  form_lines,
  form_text,
  guard_test,
  macro_stem,
  opening,
  rust_line,
  rust_type,
  rust_value,
};

use crate::canonical::{push_entry, push_literal};
use crate::constant::{Constant, Constants};
use crate::form::Form;
use fixed_bits::Format;
use fixed_respell::format_name;
use fixed_steps::Steps;
use fixed_write::push_shortest;
use itoa::Buffer;
use std::alloc::{AllocError, Global};
use std::sync::ledger::Ledger;
use text_buffer::TextBuffer;

/// Appends a number in hexadecimal, with the prefix `0x` after the sign.
pub fn push_hexadecimal(text: &mut Vec<u8>, value: i128) -> Result<(), AllocError>
    requires { IsWide value }
    ensures { OnOk result (text.new.items ≡ text.old.items ++ literal_text value 0) }
{
    let mut literal: TextBuffer<160> = TextBuffer::new();
    push_literal(&mut literal, value, 0);
    text.extend_from_slice(literal.as_bytes())?;
    Ok(())
}

/// Returns the prefix of the macros of `<stdint.h>` for constants.
fn stem_of(signed: bool) -> &'static [u8]
    ensures { result.now ≡ macro_stem signed }
{
    if signed { b"INT" } else { b"UINT" }
}

/// Appends the name of the macro for constants of a format's width and sign rule.
fn push_c_macro(text: &mut Vec<u8>, format: Format) -> Result<(), AllocError>
    ensures { OnOk result (text.new.items ≡ text.old.items ++ c_macro format) }
{
    let mut digits = Buffer::new();
    text.extend_from_slice(stem_of(format.signed()))?;
    text.extend_from_slice(digits.format(format.width()).as_bytes())?;
    text.extend_from_slice(b"_C")?;
    Ok(())
}

/// Appends a number in its macro.
fn push_c_constant(text: &mut Vec<u8>, format: Format, number: u64) -> Result<(), AllocError>
    ensures { OnOk result (text.new.items ≡ text.old.items ++ c_constant format number) }
{
    push_c_macro(text, format)?;
    text.extend_from_slice(b"(")?;
    push_hexadecimal(text, number as i128)?;
    text.extend_from_slice(b")")?;
    Ok(())
}

/// Returns the magnitude of the lowest signed number of a format's width.
fn lowest_magnitude(format: Format) -> u64
    ensures value { result ≡ 2 ^ (format.width - 1) }
    ensures some { 0 < result }
{
    1 << (format.width() - 1)
}

/// Appends the lowest number of a width as a number that its macro takes, less 1.
fn push_c_lowest(text: &mut Vec<u8>, format: Format, above: u64) -> Result<(), AllocError>
    ensures { OnOk result (text.new.items ≡ text.old.items ++ c_lowest format above) }
{
    text.extend_from_slice(b"(-")?;
    push_c_constant(text, format, above)?;
    text.extend_from_slice(b" - 1)")?;
    Ok(())
}

/// Appends a negative number by its magnitude.
fn push_c_minus(text: &mut Vec<u8>, format: Format, magnitude: u64) -> Result<(), AllocError>
    ensures { OnOk result (text.new.items ≡ text.old.items ++ c_minus format magnitude) }
{
    text.extend_from_slice(b"(-")?;
    push_c_constant(text, format, magnitude)?;
    text.extend_from_slice(b")")?;
    Ok(())
}

/// Appends a negative number by its magnitude, including the lowest of its width.
fn push_c_negative(text: &mut Vec<u8>, format: Format, magnitude: u64) -> Result<(), AllocError>
    ensures { OnOk result (text.new.items ≡ text.old.items ++ c_negative format magnitude) }
{
    if magnitude == lowest_magnitude(format) {
        push_c_lowest(text, format, magnitude - 1)
    } else {
        push_c_minus(text, format, magnitude)
    }
}

/// Returns the magnitude of bits.
fn word_of(bits: i128) -> u64
    requires { IsWide bits }
    ensures { result ≡ unsigned_abs bits }
{
    bits.unsigned_abs() as u64
}

/// Appends bits as an expression of C.
pub fn push_c_number(text: &mut Vec<u8>, format: Format, bits: i128) -> Result<(), AllocError>
    requires { IsWide bits }
    ensures { OnOk result (text.new.items ≡ text.old.items ++ c_number format bits) }
{
    if bits < 0 {
        push_c_negative(text, format, word_of(bits))
    } else {
        push_c_constant(text, format, word_of(bits))
    }
}

/// Appends the comment of a line of C, and the end of the line.
fn push_c_comment<L: Ledger>(
    text: &mut Vec<u8>,
    format: Format,
    bits: i128,
    steps: &mut Steps<L>,
) -> Result<(), AllocError>
    requires { IsWide bits }
    ensures { OnOk result (text.new.items ≡ text.old.items ++ c_comment format bits) }
{
    let mut value: TextBuffer<48> = TextBuffer::new();
    push_shortest(&mut value, bits, format.frac(), steps);
    text.extend_from_slice(b" /* ")?;
    text.extend_from_slice(format_name(format).as_bytes())?;
    text.extend_from_slice(b", ")?;
    text.extend_from_slice(value.as_bytes())?;
    text.extend_from_slice(b" */\n")?;
    Ok(())
}

/// Appends the line of a constant in C.
fn push_c_line<L: Ledger>(
    text: &mut Vec<u8>,
    constant: &Constant,
    steps: &mut Steps<L>,
) -> Result<(), AllocError>
    ensures { OnOk result (text.new.items ≡ text.old.items ++ c_line constant.now) }
{
    text.extend_from_slice(b"#define ")?;
    text.extend_from_slice(constant.name())?;
    text.push(b' ')?;
    push_c_number(text, constant.format(), constant.bits())?;
    push_c_comment(text, constant.format(), constant.bits(), steps)?;
    Ok(())
}

/// Appends the type of a format, as the Rust crate `fixed` names it.
fn push_rust_type(text: &mut Vec<u8>, format: Format) -> Result<(), AllocError>
    ensures { OnOk result (text.new.items ≡ text.old.items ++ rust_type format) }
{
    text.extend_from_slice(b"fixed::types::")?;
    text.extend_from_slice(format_name(format).as_bytes())?;
    Ok(())
}

/// Appends bits as an expression of Rust, and the end of the line.
fn push_rust_value(text: &mut Vec<u8>, format: Format, bits: i128) -> Result<(), AllocError>
    requires { IsWide bits }
    ensures { OnOk result (text.new.items ≡ text.old.items ++ rust_value format bits) }
{
    push_rust_type(text, format)?;
    text.extend_from_slice(b"::from_bits(")?;
    push_hexadecimal(text, bits)?;
    text.extend_from_slice(b");\n")?;
    Ok(())
}

/// Appends the line of a constant in Rust.
fn push_rust_line(text: &mut Vec<u8>, constant: &Constant) -> Result<(), AllocError>
    ensures { OnOk result (text.new.items ≡ text.old.items ++ rust_line constant.now) }
{
    text.extend_from_slice(b"pub const ")?;
    text.extend_from_slice(constant.name())?;
    text.extend_from_slice(b": ")?;
    push_rust_type(text, constant.format())?;
    text.extend_from_slice(b" = ")?;
    push_rust_value(text, constant.format(), constant.bits())?;
    Ok(())
}

/// Appends the line of a constant in a form.
fn push_line<L: Ledger>(
    text: &mut Vec<u8>,
    form: Form,
    constant: &Constant,
    steps: &mut Steps<L>,
) -> Result<(), AllocError>
    ensures { OnOk result (text.new.items ≡ text.old.items ++ form_line form constant.now) }
{
    match form {
        Form::Canonical => push_entry(text, constant),
        Form::C => push_c_line(text, constant, steps),
        Form::Rust => push_rust_line(text, constant),
    }
}

/// Appends the lines of all constants.
fn push_lines<L: Ledger>(
    text: &mut Vec<u8>,
    form: Form,
    constants: &Constants,
    steps: &mut Steps<L>,
) -> Result<(), AllocError>
    ensures { OnOk result (text.new.items ≡ text.old.items ++ form_lines form constants.now) }
{
    for i in 0..constants.len() {
        let Some(constant) = constants.get(i) else {
            return Ok(());
        };
        push_line(text, form, constant, steps)?;
    }
    Ok(())
}

/// Appends the test of a header's guard, if any.
fn push_guard_test(text: &mut Vec<u8>, guard: &[u8]) -> Result<(), AllocError>
    ensures { OnOk result (text.new.items ≡ text.old.items ++ guard_test guard.now) }
{
    if guard.is_empty() {
        return Ok(());
    }
    text.extend_from_slice(b"#ifndef ")?;
    text.extend_from_slice(guard)?;
    text.extend_from_slice(b"\n#define ")?;
    text.extend_from_slice(guard)?;
    text.extend_from_slice(b"\n\n")?;
    Ok(())
}

/// Appends the text before the lines of a C header.
fn push_c_opening(text: &mut Vec<u8>, guard: &[u8]) -> Result<(), AllocError>
    ensures { OnOk result (text.new.items ≡ text.old.items ++ c_opening guard.now) }
{
    push_guard_test(text, guard)?;
    text.extend_from_slice(b"#include <stdint.h>\n\n")?;
    Ok(())
}

/// Appends the text before the lines.
fn push_opening(text: &mut Vec<u8>, form: Form, guard: &[u8]) -> Result<(), AllocError>
    ensures { OnOk result (text.new.items ≡ text.old.items ++ opening form guard.now) }
{
    match form {
        Form::C => push_c_opening(text, guard),
        Form::Canonical | Form::Rust => Ok(()),
    }
}

/// Appends the end of a header's guard, if any.
fn push_c_closing(text: &mut Vec<u8>, guard: &[u8]) -> Result<(), AllocError>
    ensures { OnOk result (text.new.items ≡ text.old.items ++ c_closing guard.now) }
{
    if !guard.is_empty() {
        text.extend_from_slice(b"\n#endif\n")?;
    }
    Ok(())
}

/// Appends the text after the lines.
fn push_closing(text: &mut Vec<u8>, form: Form, guard: &[u8]) -> Result<(), AllocError>
    ensures { OnOk result (text.new.items ≡ text.old.items ++ closing form guard.now) }
{
    match form {
        Form::C => push_c_closing(text, guard),
        Form::Canonical | Form::Rust => Ok(()),
    }
}

/// Returns constants in a form: for each a line with its name and its bits.
pub fn source_text<L: Ledger>(
    alloc: Global,
    form: Form,
    guard: &[u8],
    constants: &Constants,
    steps: &mut Steps<L>,
) -> Result<Vec<u8>, AllocError>
    ensures { IfOk result (λ text. text.items ≡ form_text form guard.now constants.now) }
{
    let mut text = Vec::new(alloc);
    push_opening(&mut text, form, guard)?;
    push_lines(&mut text, form, constants, steps)?;
    push_closing(&mut text, form, guard)?;
    Ok(text)
}
