//! The library for C: the exports that `include/fixed.h` declares.
//!
//! C passes a `&[u8]` as a pointer and a length, and a `&mut` as a pointer. Only the pointer of zero bytes may be null,
//! and memory that a call writes must not overlap any other argument. Every other argument is tested: an export writes
//! its result and returns 0, or returns the code of the first refusal.
#![tactic(auto)]

mod arguments;
mod asked;
mod decimal_rows;
mod decimals;
mod exports;
mod float_rows;
mod floats;
mod kept_range;
pub mod laws;
mod number;
mod numbers;
mod order_rows;
mod place_rows;
mod refusal;
mod rounding;
mod rows;
mod scanning;
mod style;
mod texts;
mod uncounted;
mod words;
