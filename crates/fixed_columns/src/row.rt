//! Reads the cell of a line.

ghost use Rattle.std.specs.Prelude.{◌≡◌, IfOk, IfErr};
ghost use Rattle.fixed_bits.specs.Formats.{IsTypeFormat};
ghost use Rattle.fixed_columns.specs.Rows.{HasFault, IsNumeralOf, IsRefusedNumeral, Spells, after_spaces};

use crate::cell::Cell;
use crate::fault::CellFault;
use crate::uncounted::read_decimal_uncounted;
use fixed_bits::{Format, Policy};
use fixed_numeral::{ParseErrorKind, ParseFixedError};
use fixed_respell::{format_word, split_once};

/// Returns a line from its first byte other than a space.
fn without_leading_spaces(line: &[u8]) -> &[u8]
    ensures { result.now ≡ after_spaces line.now }
{
    for i in 0..line.len() {
        if line[i] != b' ' {
            return &line[i..];
        }
    }
    &line[line.len()..]
}

/// Returns the cell of a format that a decimal numeral is read as.
fn numeral_cell(numeral: &[u8], format: Format) -> Result<Cell, ParseFixedError>
    requires { IsTypeFormat format.width format.frac }
    ensures cell { IfOk result (λ c. (c.format ≡ format) × IsNumeralOf format numeral.now c.bits) }
    ensures refused { IfErr result (λ kind. IsRefusedNumeral format numeral.now kind) }
{
    match read_decimal_uncounted(numeral, format) {
        Ok(found) => match found.image(Policy::Checked) {
            Some(bits) => Ok(Cell::within(format, bits)),
            None => Err(ParseFixedError::new(ParseErrorKind::Overflow)),
        },
        Err(error) => Err(error),
    }
}

/// Returns the cell that a line spells, or the line's first fault.
pub fn read_row(line: &[u8]) -> Result<Cell, CellFault>
    ensures cell { IfOk result (λ c. Spells line.now c) }
    ensures refused { IfErr result (λ fault. HasFault line.now fault) }
{
    let Some((numeral, word)) = split_once(without_leading_spaces(line), b' ') else {
        return Err(CellFault::MissingField);
    };
    let Some(format) = format_word(word) else {
        return Err(CellFault::BadFormat);
    };
    match numeral_cell(numeral, format) {
        Ok(cell) => Ok(cell),
        Err(error) => Err(CellFault::BadNumeral(error)),
    }
}
