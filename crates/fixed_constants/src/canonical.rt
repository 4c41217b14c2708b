//! Writes constants in their one canonical form.

ghost use Rattle.std.specs.Prelude.{◌≡◌, ◌≤◌, ◌+◌, ◌++◌, ◌<◌, pos, length, unsigned_abs, OnOk, IfOk};
ghost use Rattle.std.specs.Fmt.{sign_text};
ghost use Rattle.std.specs.Int.{is_negative};
ghost use Rattle.fixed_bits.specs.Ranges.{IsWide};
ghost use Rattle.fixed_constants.specs.Canonical.{canonical_text, entry_text, literal_text};

use crate::constant::{Constant, Constants};
use fixed_respell::format_name;
use fixed_write::{Base, push_exact};
use std::alloc::{AllocError, Global};
use std::marker::Model;
use text_buffer::{NoMemory, TextBuffer};

/// The text of a file. Contracts see the list of its bytes.
#[derive(Drop)]
pub struct FileText {
    bytes: Vec<u8>,
}

impl Model for FileText {
    ghost use Rattle.std.specs.Prelude.{List, ℕ};

    ghost Value = { List ℕ };

    ghost view = { λ t. t.bytes.items };
}

impl FileText {
    /// Returns the bytes.
    pub fn as_bytes(&self) -> &[u8]
        ensures { result.now ≡ self.now }
    {
        self.bytes.as_slice()
    }

    /// Returns the bytes, without a copy.
    pub(crate) fn into_bytes(self) -> Vec<u8>
        ensures { result.items ≡ self }
    {
        self.bytes
    }
}

/// Returns the magnitude of a number.
fn magnitude_of(value: i128) -> i128
    requires { IsWide value }
    ensures magnitude { result ≡ pos (unsigned_abs value) }
    ensures wide { IsWide result }
{
    if value < 0 { -value } else { value }
}

/// Appends `-` if a number is negative, else nothing.
fn push_sign(out: &mut TextBuffer<160>, value: i128)
    requires { length out.old < 160 }
    ensures { out.new ≡ out.old ++ sign_text (is_negative value) }
{
    if value < 0 {
        out.push(b'-');
    }
}

/// Appends the value of the bits in hexadecimal, exactly, with the prefix `0x` after the sign.
pub(crate) fn push_literal(out: &mut TextBuffer<160>, bits: i128, frac: u32)
    requires wide { IsWide bits }
    requires frac { frac ≤ 64 }
    requires room { length out.old + 133 ≤ 160 }
    ensures { out.new ≡ out.old ++ literal_text bits frac }
{
    push_sign(out, bits);
    out.push_bytes(b"0x");
    push_exact(out, magnitude_of(bits), frac, Base::LowerHex);
}

/// Appends the line of a constant, with its newline.
pub(crate) fn push_entry(text: &mut Vec<u8>, constant: &Constant) -> Result<(), AllocError>
    ensures { OnOk result (text.new.items ≡ text.old.items ++ entry_text constant.now) }
{
    let format = constant.format();
    let mut literal: TextBuffer<160> = TextBuffer::new();
    push_literal(&mut literal, constant.bits(), format.frac());
    text.extend_from_slice(constant.name())?;
    text.extend_from_slice(b" = ")?;
    text.extend_from_slice(literal.as_bytes())?;
    text.push(b' ')?;
    text.extend_from_slice(format_name(format).as_bytes())?;
    text.push(b'\n')?;
    Ok(())
}

/// Returns the lines of all constants.
fn text_of(alloc: Global, constants: &Constants) -> Result<Vec<u8>, AllocError>
    ensures { IfOk result (λ text. text.items ≡ canonical_text constants.now) }
{
    let mut text = Vec::new(alloc);
    for i in 0..constants.len() {
        let Some(constant) = constants.get(i) else {
            return Ok(text);
        };
        push_entry(&mut text, constant)?;
    }
    Ok(text)
}

/// Returns the canonical text of constants: a line for each, with its name, exact value in hexadecimal and format.
///
/// # Errors
///
/// There may be no memory.
pub fn write_constants(alloc: Global, constants: &Constants) -> Result<FileText, NoMemory>
    ensures { IfOk result (λ text. text ≡ canonical_text constants.now) }
{
    match text_of(alloc, constants) {
        Ok(bytes) => Ok(FileText { bytes }),
        Err(_) => Err(NoMemory),
    }
}
