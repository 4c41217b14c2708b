//! Decimal formats: whole numbers of 64 bits that count cents or another power of ten, read from decimal numerals and
//! written exactly, never through a binary fraction.
#![tactic(auto)]

mod count;
mod format;
pub mod laws;
mod number;
mod reading;
mod text;
mod uncounted;
mod units;
mod whole;

pub use format::DecimalFormat;
pub use number::DecimalNumber;
pub use reading::read_decimal_format;
pub use text::{push_decimal_format, push_decimal_magnitude};
pub use uncounted::read_decimal_format_uncounted;
