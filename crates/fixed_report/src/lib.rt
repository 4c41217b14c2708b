//! Reports the first numeral of a sequence with the greatest error in a format.
//!
//! `report` keeps the numeral, and `text` writes its place, its error and the same in ulps.
#![tactic(auto)]

pub mod laws;
pub mod means;
pub mod report;
pub mod sums;
pub mod text;

pub use means::{Mean, SixDigits};
pub use report::{ErrorReport, Lost};
pub use sums::ErrorSums;
pub use text::{MAX_GREATEST, MAX_MEAN, MeanTexts};
