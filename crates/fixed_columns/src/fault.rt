//! Why a text is not a column.

use fixed_numeral::ParseFixedError;

/// The fault of a line, in the order of the checks.
#[derive(Clone, Copy, Debug, PartialEq, Eq)]
pub enum CellFault {
    /// No space after the leading spaces.
    MissingField,
    /// The text after the space after the numeral is not a format word.
    BadFormat,
    /// The numeral is refused for the format, for this reason.
    BadNumeral(ParseFixedError),
}

/// Why a text was not read.
#[derive(Clone, Copy, Debug, PartialEq, Eq)]
pub enum CellsError {
    /// The first line with a fault.
    Refused {
        /// The number of the line, from 1.
        line: u64,
        /// Its fault.
        fault: CellFault,
    },
    /// There was no memory.
    NoMemory,
}
