//! How a line gives an amount, and what is written of it.

use fixed_bits::{Policy, ReadMode};
use fixed_decimal::DecimalFormat;

/// How a line gives an amount.
#[derive(Clone, Copy, Debug, PartialEq, Eq)]
pub enum AmountSpelling {
    /// As a decimal numeral.
    Numeral,
    /// As a count of units, or a word of 64 bits.
    Units,
}

/// What is written of an amount.
#[derive(Clone, Copy, Debug, PartialEq, Eq)]
pub enum AmountPrint {
    /// Its text, with exactly the places of the format.
    Text,
    /// The count of units in decimal.
    Units,
    /// The count as a word of 64 bits in hexadecimal, after `0x`.
    Hex,
    /// The count in hexadecimal without `0x`.
    HexDigits,
    /// Text, count, and whether the number was out of range.
    All,
}

/// How lines with amounts are answered.
#[derive(Clone, Copy, Debug, PartialEq, Eq)]
pub struct AmountSettings {
    /// How a line gives an amount.
    pub spelling: AmountSpelling,
    /// The decimal format that it is read into.
    pub format: DecimalFormat,
    /// What happens to a number that is out of range.
    pub policy: Policy,
    /// How a numeral is rounded.
    pub mode: ReadMode,
    /// What is written of an amount.
    pub print: AmountPrint,
}
