//! Writes cells, one a line.

ghost use Rattle.std.specs.Prelude.{◌≡◌, ◌++◌, ◌∷◌, [], IfOk, OnOk};
ghost use Rattle.fixed_respell.specs.LineWords.{space};
ghost use Rattle.fixed_respell.specs.Words.{format_text};
ghost use Rattle.fixed_columns.specs.ColumnText.{AppendsRow, IsColumnText};

use crate::cell::Cell;
use crate::cells::Cells;
use fixed_bits::Format;
use fixed_respell::format_name;
use fixed_write::{Style, to_text};
use std::alloc::{AllocError, Global};
use std::marker::Model;
use text_buffer::NoMemory;

/// The text of cells. Contracts see the list of its bytes.
#[derive(Drop)]
pub struct ColumnText {
    bytes: Vec<u8>,
}

impl Model for ColumnText {
    ghost use Rattle.std.specs.Prelude.{List, ℕ};

    ghost Value = { List ℕ };

    ghost view = { λ t. t.bytes.items };
}

impl ColumnText {
    /// Returns the bytes.
    pub fn as_bytes(&self) -> &[u8]
        ensures { result.now ≡ self.now }
    {
        self.bytes.as_slice()
    }

    /// Returns the bytes, without a copy.
    pub(crate) fn into_bytes(self) -> Vec<u8>
        ensures { result.items ≡ self }
    {
        self.bytes
    }
}

/// Appends the line of a number's text and a format, with its newline.
fn push_row(text: &mut Vec<u8>, number: &[u8], format: Format) -> Result<(), AllocError>
    ensures { OnOk result (text.new.items ≡ text.old.items ++ ((number.now ++ space ∷ format_text format) ++ 10 ∷ [])) }
{
    text.extend_from_slice(number)?;
    text.push(b' ')?;
    text.extend_from_slice(format_name(format).as_bytes())?;
    text.push(b'\n')?;
    Ok(())
}

/// Appends the line of a cell in a style.
fn push_cell(alloc: Global, text: &mut Vec<u8>, cell: Cell, style: &Style) -> Result<(), NoMemory>
    ensures { OnOk result (AppendsRow style.now cell text.old.items text.new.items) }
{
    let format = cell.format();
    match to_text(alloc, cell.bits(), format.frac(), style) {
        Ok(number) => Ok(push_row(text, number.as_bytes(), format)?),
        Err(_) => Err(NoMemory),
    }
}

/// Returns the text of cells: for each a line with its value in the style, a space and its format.
///
/// # Errors
///
/// There may be no memory.
pub fn write_cells(alloc: Global, cells: &Cells, style: &Style) -> Result<ColumnText, NoMemory>
    ensures { IfOk result (λ text. IsColumnText style.now cells.now text) }
{
    let mut bytes = Vec::new(alloc);
    for i in 0..cells.len() {
        let Some(cell) = cells.get(i) else {
            return Ok(ColumnText { bytes });
        };
        push_cell(alloc, &mut bytes, cell, style)?;
    }
    Ok(ColumnText { bytes })
}
