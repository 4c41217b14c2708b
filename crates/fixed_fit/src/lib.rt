//! Finds, in one pass, the finest format of a width that a list of numerals fits, or the least format within an error.
#![tactic(auto)]

mod answer;
mod bounded;
mod error_word;
mod half;
pub mod laws;
mod lengths;
mod numeral;
mod progress;
pub mod question;
mod reader;
pub mod run;
mod serving;
mod short;

pub use answer::Unfit;
pub use question::{Fractions, Question, Widths};
pub use run::{FitEnd, InputForm, run_fit};
