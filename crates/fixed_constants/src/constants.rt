//! Reads a constants file.

ghost use Rattle.std.specs.Prelude.{◌≡◌, ◌<◌, ◌+◌, ℕ, List, [], ◌∷◌, ◌++◌, Ok, Err, IfOk, IfErr, OnOk, Some, bytes_eq};
ghost use Rattle.std.specs.Map.{update};
ghost use Rattle.fixed_bits.specs.Ranges.{IsWide};
ghost use Rattle.fixed_constants.specs.Constants.{IsConstantsOf, IsErrorOf, IsPassedOver};
ghost use Rattle.fixed_constants.specs.Inner.Known.{AddsConstant, AddsLine, AtLine, IsLineError, Knows, line_of};

use crate::constant::{Constant, Constants};
use crate::declaration::{is_passed_over, read_line};
use crate::fault::{ConstantFault, ConstantsError};
use fixed_bits::Format;
use line_engine::first_line;
use std::alloc::{AllocError, Global};
use std::collections::HashMap;
use text_buffer::NoMemory;

/// Records that a name is declared on a line. Returns the line that declared it before, if any.
fn note_name<'a>(
    known: &mut HashMap<&'a [u8], u64>,
    name: &'a [u8],
    line: u64,
) -> Result<Option<u64>, NoMemory>
    ensures old { IfOk result (λ old. old ≡ line_of known.old name.now) }
    ensures updates { OnOk result ((q : List ℕ)
        → line_of known.new q ≡ update bytes_eq (line_of known.old) name.now (Some line) q) }
{
    match known.insert(name, line) {
        Ok(old) => Ok(old),
        Err(_) => Err(NoMemory),
    }
}

/// Adds a constant to a list.
fn add_constant(
    alloc: Global,
    entries: &mut Vec<Constant>,
    name: &[u8],
    format: Format,
    bits: i128,
) -> Result<(), AllocError>
    requires { IsWide bits }
    ensures { OnOk result (entries.new.items ≡ entries.old.items
        ++ (record { name = name.now; format = format; bits = bits }) ∷ []) }
{
    let constant = Constant::new(name.to_vec(alloc)?, format, bits);
    entries.push(constant)?;
    Ok(())
}

/// Reads a line that is not passed over. `number` is its number in the text, from 1.
fn add_declared<'a>(
    alloc: Global,
    line: &'a [u8],
    number: u64,
    entries: &mut Vec<Constant>,
    known: &mut HashMap<&'a [u8], u64>,
) -> Result<(), ConstantsError>
    requires { ¬ IsPassedOver line.now }
    ensures added { OnOk result
        (AtLine number known.old
        (λ before. AddsConstant before line.now entries.old.items entries.new.items known.new)) }
    ensures refused { IfErr result (λ error. (before : List (List ℕ)) → Knows before known.old
        → IsLineError before line.now number error) }
{
    let declared = match read_line(line) {
        Ok(declared) => declared,
        Err(fault) => {
            return Err(ConstantsError::Refused {
                line: number,
                fault,
            });
        }
    };
    match note_name(known, declared.name, number) {
        Ok(None) => {}
        Ok(Some(first)) => {
            return Err(ConstantsError::Refused {
                line: number,
                fault: ConstantFault::Duplicate { first },
            });
        }
        Err(NoMemory) => return Err(ConstantsError::NoMemory),
    }
    match add_constant(
        alloc,
        entries,
        declared.name,
        declared.format,
        declared.bits,
    ) {
        Ok(()) => Ok(()),
        Err(_) => Err(ConstantsError::NoMemory),
    }
}

/// Reads a line. `number` is its number in the text, from 1.
fn add_line<'a>(
    alloc: Global,
    line: &'a [u8],
    number: u64,
    entries: &mut Vec<Constant>,
    known: &mut HashMap<&'a [u8], u64>,
) -> Result<(), ConstantsError>
    ensures added { OnOk result
        (AtLine number known.old (λ before. AddsLine before line.now entries.old.items entries.new.items known.new)) }
    ensures refused { IfErr result (λ error. (before : List (List ℕ)) → Knows before known.old
        → IsLineError before line.now number error) }
{
    if is_passed_over(line) {
        Ok(())
    } else {
        add_declared(alloc, line, number, entries, known)
    }
}

/// Reads the constants of a text.
///
/// An empty line and a line that begins with `#` are passed over. Any other line is `NAME = LITERAL FORMAT`.
///
/// # Errors
///
/// The first line with a fault is reported with its number and its first fault. There may be no memory.
pub fn read_constants(alloc: Global, text: &[u8]) -> Result<Constants, ConstantsError>
    ensures constants { IfOk result (λ t. IsConstantsOf text.now t) }
    ensures refused { IfErr result (λ error. IsErrorOf text.now error) }
{
    let mut entries = Vec::new(alloc);
    let mut known = HashMap::new(alloc);
    let mut number = 0u64;
    let mut rest = text;
    while !rest.is_empty() {
        let (line, after) = first_line(rest);
        number += 1;
        match add_line(alloc, line, number, &mut entries, &mut known) {
            Ok(()) => {}
            Err(error) => return Err(error),
        }
        rest = after;
    }
    Ok(Constants::of(entries))
}
