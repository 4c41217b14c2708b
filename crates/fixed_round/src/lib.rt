//! Rounding of fixed-point numbers to whole numbers.
//!
//! A number is its bits over two to the power of its fraction length. Each call takes the bits and the fraction length
//! and returns bits of the same length: those of the whole number that the value is rounded to.
#![tactic(auto)]

mod forms;
pub mod laws;
mod overflowing;
mod parts;
mod rounding;
mod whole;

pub use forms::{checked_whole, overflowing_whole, plain_whole, saturating_whole, wrapping_whole};
pub use overflowing::{
    overflowing_ceil, overflowing_floor, overflowing_round, overflowing_round_ties_even,
};
pub use parts::{frac, int, round_to_zero, towards_zero};
pub use rounding::Rounding;
pub use whole::whole_of;
