//! How a line spells a number.

/// How a line spells a number of the source.
#[derive(Clone, Copy, Debug, PartialEq, Eq)]
pub enum Spelling {
    /// It is a numeral.
    Numeral,
    /// It is the word of a register.
    Word,
}
