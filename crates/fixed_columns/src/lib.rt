//! Columns of fixed-point numbers of mixed formats, in the order of their values.
//!
//! A line is a decimal numeral, a space and a format (`row`): a `Cell`. `cells` reads a text line by line and keeps its
//! cells, and sorts them; `column_text` writes them in one aligned column, which reads back as the same cells.
#![tactic(auto)]

pub mod cell;
pub mod cells;
pub mod column_text;
mod command;
pub mod fault;
pub mod laws;
pub mod program;
mod row;
pub mod rule;
mod uncounted;

pub use cell::Cell;
pub use cells::{Cells, read_cells};
pub use column_text::{ColumnText, write_cells};
pub use fault::{CellFault, CellsError};
pub use program::run_columns;
pub use rule::ColumnsRule;
pub use text_buffer::NoMemory;
