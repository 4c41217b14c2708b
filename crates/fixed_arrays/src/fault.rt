//! Why a list of numerals, or a file of named literals, is not an array.

use fixed_bits::Format;
use fixed_constants::ConstantFault;
use fixed_numeral::ParseFixedError;

/// Why a list of numerals is not an array.
#[derive(Clone, Copy, Debug, PartialEq, Eq)]
pub enum ArrayFault {
    /// There is no line.
    Empty,
    /// A line is refused as a numeral.
    Refused {
        /// Its number, from 1.
        place: u64,
        /// Why.
        error: ParseFixedError,
    },
    /// There was no memory.
    NoMemory,
}

/// Why a file of named literals is not an array.
#[derive(Clone, Copy, Debug, PartialEq, Eq)]
pub enum LiteralsFault {
    /// There is no literal.
    Empty,
    /// A line is refused as a named literal.
    Refused {
        /// Its number, from 1.
        line: u64,
        /// Why.
        fault: ConstantFault,
    },
    /// A literal has another format than the first.
    OtherFormat {
        /// The number of its line, from 1.
        line: u64,
        /// The format of the first.
        first: Format,
    },
    /// There was no memory.
    NoMemory,
}
