//! Reads the constants of a file of named literals with one format, and writes the text of their array.
//!
//! The elements of an array have one type, so a literal of another format than the first is refused and not converted.
//! The names are in comments, where no language reserves any. COE has no comments on its lines, and so no names.

ghost use Rattle.std.specs.Prelude.{◌≡◌, ◌↔◌, ◌++◌, ℕ, IfErr, IfOk, OnOk, IsTrue, MatchOption, codes, length};
ghost use Rattle.fixed_bits.specs.Formats.{FormatParts};
ghost use Rattle.fixed_bits.specs.Ranges.{IsInRange};
ghost use Rattle.fixed_respell.specs.Words.{format_text};
ghost use Rattle.line_engine.specs.Lines.{lines};
ghost use Rattle.fixed_arrays.specs.Literals.{HasFirstFormat, HasFormat, HasOther, OtherFrom};
ghost use Rattle.fixed_arrays.specs.Inner.Literals.{AreInRange, AreLiterals, HasLiteralsError};
ghost use Rattle.fixed_arrays.specs.Table.{element_line, literal_lines};

use crate::elements::Elements;
use crate::fault::LiteralsFault;
use crate::text::{Frame, push_element};
use fixed_bits::Format;
use fixed_constants::{
    Constant, Constants, ConstantsError, is_passed_over, read_constants, split_line,
};
use fixed_respell::{format_name, format_word};
use fixed_steps::Steps;
use line_engine::first_line;
use std::alloc::{AllocError, Global};
use std::sync::ledger::Ledger;

/// Returns the format of a line. `None`: it is passed over or has no format word.
fn format_of(line: &[u8]) -> Option<Format>
    ensures { MatchOption result ((f : FormatParts) → ¬ HasFormat line.now f) (λ f. HasFormat line.now f) }
{
    if is_passed_over(line) {
        return None;
    }
    let fields = split_line(line)?;
    format_word(fields.format)
}

/// Returns the format of the first line of a text that has one.
pub fn first_format(text: &[u8]) -> Option<Format>
    ensures { MatchOption result ((f : FormatParts) → ¬ HasFirstFormat (lines text.now) f)
        (λ f. HasFirstFormat (lines text.now) f) }
{
    let mut rest = text;
    while !rest.is_empty() {
        let (line, after) = first_line(rest);
        if let Some(format) = format_of(line) {
            return Some(format);
        }
        rest = after;
    }
    None
}

/// Whether a line has another format than `format`.
fn has_other(line: &[u8], format: Format) -> bool
    ensures { IsTrue result ↔ HasOther format line.now }
{
    match format_of(line) {
        Some(other) => other != format,
        None => false,
    }
}

/// Returns the number, from 1, of the first line of a text with another format than `format`.
fn first_other(text: &[u8], format: Format) -> Option<u64>
    ensures { MatchOption result ((p : ℕ) → ¬ OtherFrom 1 format (lines text.now) p)
        (λ p. OtherFrom 1 format (lines text.now) p) }
{
    let mut number = 0u64;
    let mut rest = text;
    while !rest.is_empty() {
        let (line, after) = first_line(rest);
        number += 1;
        if has_other(line, format) {
            return Some(number);
        }
        rest = after;
    }
    None
}

/// Returns why a text without a line with a format is not an array.
pub fn fault_without_format(alloc: Global, text: &[u8]) -> LiteralsFault
    requires { (f : FormatParts) → ¬ HasFirstFormat (lines text.now) f }
    ensures { HasLiteralsError text.now result }
{
    match read_constants(alloc, text) {
        Ok(_constants) => LiteralsFault::Empty,
        Err(ConstantsError::Refused { line, fault }) => LiteralsFault::Refused { line, fault },
        Err(ConstantsError::NoMemory) => LiteralsFault::NoMemory,
    }
}

/// Returns the constants of a text, which all have the format of its first line that has one.
///
/// # Errors
///
/// The first line with a fault, or with another format, whichever is earlier; if one line has both, the fault. There
/// may be no memory.
pub fn read_of_format(alloc: Global, text: &[u8], first: Format) -> Result<Constants, LiteralsFault>
    requires { HasFirstFormat (lines text.now) first }
    ensures ok { IfOk result (λ constants. AreLiterals text.now first constants) }
    ensures err { IfErr result (HasLiteralsError text.now) }
{
    let other = first_other(text, first);
    match read_constants(alloc, text) {
        Ok(constants) => match other {
            None => Ok(constants),
            Some(line) => Err(LiteralsFault::OtherFormat { line, first }),
        },
        Err(ConstantsError::Refused { line, fault }) => match other {
            None => Err(LiteralsFault::Refused { line, fault }),
            Some(place) => {
                if place < line {
                    Err(LiteralsFault::OtherFormat { line: place, first })
                } else {
                    Err(LiteralsFault::Refused { line, fault })
                }
            }
        },
        Err(ConstantsError::NoMemory) => Err(LiteralsFault::NoMemory),
    }
}

/// Appends the line of a named literal with this index in its list.
fn push_literal<L: Ledger>(
    text: &mut Vec<u8>,
    frame: &Frame<'_>,
    index: u64,
    constant: &Constant,
    steps: &mut Steps<L>,
) -> Result<(), AllocError>
    requires { IsInRange frame.now.format.signed frame.now.format.width constant.now.bits }
    ensures { OnOk result (text.new.items ≡ text.old.items
        ++ element_line frame.now index constant.now.name constant.now.bits) }
{
    push_element(text, frame, index, constant.name(), constant.bits(), steps)
}

/// Appends the lines of named literals.
fn push_literals<L: Ledger>(
    text: &mut Vec<u8>,
    frame: &Frame<'_>,
    constants: &Constants,
    steps: &mut Steps<L>,
) -> Result<(), AllocError>
    requires { AreInRange frame.now.format constants.now }
    ensures { OnOk result (text.new.items ≡ text.old.items ++ literal_lines frame.now 0 constants.now) }
{
    for i in 0..constants.len() {
        let Some(constant) = constants.get(i) else {
            return Ok(());
        };
        push_literal(text, frame, i as u64, constant, steps)?;
    }
    Ok(())
}

/// Returns the elements of named literals.
pub fn literal_elements<L: Ledger>(
    alloc: Global,
    frame: &Frame<'_>,
    constants: &Constants,
    steps: &mut Steps<L>,
) -> Result<Elements, AllocError>
    requires { AreInRange frame.now.format constants.now }
    ensures text { IfOk result (λ e. e.text.items ≡ literal_lines frame.now 0 constants.now) }
    ensures count { IfOk result (λ e. e.count ≡ length constants.now) }
{
    let mut text = Vec::new(alloc);
    push_literals(&mut text, frame, constants, steps)?;
    let count = constants.len() as u64;
    Ok(Elements {
        text,
        count,
        lines: count,
    })
}

/// Returns why a literal of another format than the first is refused.
pub fn other_format_cause(alloc: Global, first: Format) -> Result<Vec<u8>, AllocError>
    ensures { IfOk result (λ cause. cause.items ≡ codes "another format than " ++ format_text first) }
{
    let mut cause = Vec::new(alloc);
    cause.extend_from_slice(b"another format than ")?;
    cause.extend_from_slice(format_name(first).as_bytes())?;
    Ok(cause)
}
