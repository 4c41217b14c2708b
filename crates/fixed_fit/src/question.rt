//! The question about a list.

use fixed_bits::Format;
use fixed_numeral::Radix;

/// The question about a list.
#[derive(Clone, Copy, Debug, PartialEq, Eq)]
pub struct Question {
    /// The radix of the numerals.
    pub radix: Radix,
    /// A format of the width, signed if only signed formats are requested.
    pub kind: Format,
    /// The fraction lengths that the format may have.
    pub fractions: Fractions,
    /// Whether to name the line that rules out the next finer format and, within an error, the next lesser width.
    pub is_reason_asked: bool,
    /// Whether the list is the two ends of a range.
    pub is_range: bool,
}

/// The fraction lengths that a format of a width may have.
#[derive(Clone, Copy, Debug, PartialEq, Eq)]
pub enum Fractions {
    /// The lengths that leave at least this many whole bits.
    Whole(u32),
    /// Each length up to 64, even if longer than the width.
    Beyond,
}

/// The widths to try for a format within an error.
#[derive(Clone, Copy, Debug, PartialEq, Eq)]
pub enum Widths {
    /// The width of the question.
    One,
    /// 8, 16, 32 and 64.
    Types,
    /// Each from 1 to 64.
    Any,
}
