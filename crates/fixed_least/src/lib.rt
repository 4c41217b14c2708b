//! The least format that holds each numeral of a list exactly.
//!
//! `exact` reads a numeral into a value that decides for each format whether it holds the numeral (`holding`). `slots`
//! keeps for each format the first line whose numeral it does not hold, and `least` goes through a text and says which
//! format is the least and which lines refute those before it.
#![tactic(auto)]

mod exact;
mod holding;
pub mod laws;
pub mod least;
pub mod program;
pub mod rule;
mod slots;

pub use fixed_bits::format_at;
pub use least::{Least, LeastFault, least_format};
pub use program::run_least;
pub use rule::LeastRule;
