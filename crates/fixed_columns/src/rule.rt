//! The rule of the program: it answers a text with the column of its cells in order.

ghost use Rattle.std.specs.Prelude.{◌≡◌};
ghost use Rattle.fixed_columns.specs.Answer.{IsWholeAnswer, column_style, fault_message};
ghost use Rattle.fixed_columns.specs.Lemmas.ColumnsLemmas.{answer_one};

use crate::cells::read_cells;
use crate::column_text::write_cells;
use crate::fault::{CellFault, CellsError};
use fixed_steps::Steps;
use fixed_write::{Notation, Style};
use line_engine::{WholeAnswer, WholeRule};
use std::alloc::Global;
use std::sync::ledger::Ledger;
use text_buffer::NoMemory;

/// The rule that answers a text of cells.
#[derive(Clone, Copy, Debug, PartialEq, Eq)]
pub struct ColumnsRule;

/// The least width of a number in a column, in characters.
const COLUMN_WIDTH: u16 = 24;

/// Returns the style of a number in a column: the default text, aligned to the right.
fn column_style() -> Style
    ensures { result ≡ column_style }
{
    Style {
        width: COLUMN_WIDTH,
        ..Style::plain(Notation::Dec)
    }
}

/// Returns the message of a fault.
fn message(fault: CellFault) -> &'static [u8]
    ensures { result.now ≡ fault_message fault }
{
    match fault {
        CellFault::MissingField => b"missing field",
        CellFault::BadFormat => b"bad format",
        CellFault::BadNumeral(error) => error.message().as_bytes(),
    }
}

impl<L: Ledger> WholeRule<L> for ColumnsRule {
    ghost Answers = { λ rule. IsWholeAnswer };

    fn answer(
        &self,
        alloc: Global,
        input: &[u8],
        steps: &mut Steps<L>,
    ) -> Result<WholeAnswer, NoMemory> {
        match read_cells(alloc, input) {
            Ok(mut cells) => {
                cells.sort();
                let text = write_cells(alloc, &cells, &column_style())?;
                Ok(WholeAnswer::Text(text.into_bytes()))
            }
            Err(CellsError::Refused { line, fault }) => {
                WholeAnswer::refused(alloc, line, message(fault))
            }
            Err(CellsError::NoMemory) => Err(NoMemory),
        }
    }

    ghost one_law = { λ rule. answer_one };
}
