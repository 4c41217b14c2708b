//! Lists of cells: read from a text, and sorted.
//!
//! A list in order is determined by how often it holds each cell, so a correct sort has one result.

ghost use Rattle.std.specs.Prelude.{◌≡◌, ◌<◌, List, length, slice_get, IfOk, IfErr};
ghost use Rattle.fixed_columns.specs.Cells.{CellParts, HoldsAsOften, IsInOrder};
ghost use Rattle.fixed_columns.specs.Rows.{IsCellsOf, IsErrorOf};

use crate::cell::Cell;
use crate::fault::CellsError;
use crate::row::read_row;
use line_engine::first_line;
use std::alloc::Global;
use std::marker::Model;

/// A list of cells. Contracts see the list of their formats and bits.
#[derive(Drop)]
pub struct Cells {
    cells: Vec<Cell>,
}

impl Model for Cells {
    ghost use Rattle.std.specs.Prelude.{List};
    ghost use Rattle.fixed_columns.specs.Cells.{CellParts};

    ghost Value = { List CellParts };

    ghost view = { λ c. c.cells.items };
}

impl Cells {
    /// Returns how many cells there are.
    pub fn len(&self) -> usize
        ensures { result ≡ length self.now }
    {
        self.cells.len()
    }

    /// Returns the cell with this index, from 0. `None`: there are at most `i` cells.
    pub fn get(&self, i: usize) -> Option<Cell>
        ensures { result ≡ slice_get self.now i }
    {
        self.cells.get(i).copied()
    }

    /// Sorts the cells without an allocation.
    pub fn sort(&mut self)
        ensures same { HoldsAsOften self.old self.new }
        ensures order { IsInOrder self.new }
    {
        self.cells.sort_unstable();
    }
}

/// Returns the cells of a text, in the order of its lines.
///
/// Spaces at the start of a line are passed over. After them come a decimal numeral, a space and a format word.
///
/// # Errors
///
/// The first line with a fault is reported with its number and its first fault. There may be no memory.
pub fn read_cells(alloc: Global, text: &[u8]) -> Result<Cells, CellsError>
    ensures cells { IfOk result (λ t. IsCellsOf text.now t) }
    ensures refused { IfErr result (λ error. IsErrorOf text.now error) }
{
    let mut cells = Vec::new(alloc);
    let mut number = 0u64;
    let mut rest = text;
    while !rest.is_empty() {
        let (line, after) = first_line(rest);
        number += 1;
        match read_row(line) {
            Ok(cell) => match cells.push(cell) {
                Ok(()) => {}
                Err(_) => return Err(CellsError::NoMemory),
            },
            Err(fault) => {
                return Err(CellsError::Refused {
                    line: number,
                    fault,
                });
            }
        }
        rest = after;
    }
    Ok(Cells { cells })
}
