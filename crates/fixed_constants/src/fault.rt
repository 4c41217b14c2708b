//! Why a text is not a constants file.

use fixed_numeral::ParseFixedError;

/// The fault of a line, in the order of the checks.
#[derive(Clone, Copy, Debug, PartialEq, Eq)]
pub enum ConstantFault {
    /// Fewer than three spaces.
    MissingField,
    /// The first word is not 1 to 64 ASCII letters, digits and `_`, or begins with a digit.
    BadName,
    /// The second word is not `=`.
    MissingEquals,
    /// The text after the third space is not a format word.
    BadFormat,
    /// The third word is not a literal of the format, for this reason.
    BadLiteral(ParseFixedError),
    /// An earlier line has the same name.
    Duplicate {
        /// The number of that line, from 1.
        first: u64,
    },
}

/// Why a text was not read.
#[derive(Clone, Copy, Debug, PartialEq, Eq)]
pub enum ConstantsError {
    /// The first line with a fault.
    Refused {
        /// The number of the line, from 1.
        line: u64,
        /// Its fault.
        fault: ConstantFault,
    },
    /// There was no memory.
    NoMemory,
}
