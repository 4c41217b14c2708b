//! Why a line is refused as an amount, besides the faults of numerals.

ghost use Rattle.fixed_amounts.specs.Reply.{fault_text};

use fixed_respell::{Fault, LineFault};
use fixed_show::WordFault;

/// A fault of a line.
#[derive(Clone, Copy, Debug, PartialEq, Eq)]
pub enum AmountFault {
    /// It has more than 1,048,576 bytes.
    TooLong,
    /// It is not a count of units.
    NoUnits(WordFault),
}

impl Fault for AmountFault {
    ghost use Rattle.fixed_amounts.specs.Reply.{fault_text};

    ghost text = { fault_text };

    fn report(&self) -> &'static str {
        match self {
            AmountFault::TooLong => LineFault::LineTooLong.words(),
            AmountFault::NoUnits(fault) => fault.message(),
        }
    }
}
