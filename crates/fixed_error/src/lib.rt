//! The error of a rounded numeral: its size, compared exactly with that of another, whatever their lengths.
#![tactic(auto)]

pub mod cut;
pub mod errors;
pub mod gap;
pub mod greater;
pub mod greatest;
mod half;
pub mod laws;
mod rest;
pub mod short;
mod sums;

pub use cut::{CutError, cut_error, parts_of_ulp};
pub use errors::GreatestErrors;
pub use gap::is_read_within;
pub use greater::{is_error_above, is_error_greater};
pub use greatest::GreatestError;
pub use short::read_short;
