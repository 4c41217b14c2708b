//! The rejects: a line for each refused line of an input. How a text is shown on one line.
//!
//! `shown` shows the first character of a text, without control characters. `rejects` gathers the lines and writes
//! them. `laws` states that a refused line has one line of rejects.
#![tactic(auto)]

pub mod laws;
pub mod rejects;
pub mod shown;

pub use rejects::Rejects;
pub use shown::{character_width, first_shown, hex_digit};
