//! Numerals in radix 2, 8, 10 and 16: parsing, value, and the reason for each rejection.
#![tactic(auto)]

mod decimal;
mod digit_slice;
mod digit_view;
mod ending;
mod error;
mod exponent;
pub mod laws;
mod leading;
mod literal;
mod powers;
mod radix;
mod scanned;
mod scanner;
mod segment;
mod short;
mod swar;

pub use digit_view::DigitView;
pub use error::{ParseErrorKind, ParseFixedError};
pub use leading::leading_numeral;
pub use literal::{scan_lit, short_literal};
pub use powers::power_of_ten;
pub use radix::Radix;
pub use scanned::Scanned;
pub use scanner::scan;
pub use short::{ShortNumeral, short_decimal, short_numeral};
