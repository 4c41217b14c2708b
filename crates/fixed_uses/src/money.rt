//! A column of amounts of money.

ghost use Rattle.std.specs.Prelude.{IfOk};
ghost use Rattle.fixed_uses.specs.Money.{IsAmountCell};

use fixed_point::types::I24F8;
use fixed_point::{NoMemory, Notation, Style, Text};
use std::alloc::Global;

/// Writes an amount to the nearest cent, right-aligned in 12 characters.
pub fn amount_cell(alloc: Global, amount: I24F8) -> Result<Text, NoMemory>
    ensures { IfOk result (IsAmountCell amount) }
{
    let mut style = Style::plain(Notation::Dec);
    style.precision = Some(2);
    style.width = 12;
    amount.to_text(alloc, &style)
}
