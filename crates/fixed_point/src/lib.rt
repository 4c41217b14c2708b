//! Fixed-point numbers: one type for each integer type of bits and each fraction length.
//!
//! `Fixed<I, FRAC>` holds bits of the integer type `I`, 8 to 64 of them, and is the number bits · 2^-FRAC. So its ulp,
//! the distance between two neighbouring numbers, is 2^-FRAC. Contracts see a `Fixed` as its bits: `I.number x` is the
//! whole number of ulps of `x`. Types of other crates that calls take and return are re-exported from here, so that a
//! program lists only this crate.
#![tactic(auto)]

pub mod conversion;
mod ends;
mod in_base;
pub mod laws;
pub mod literal;
pub mod lossless;
pub mod number;
pub mod numerals;
pub mod order;
mod parsing;
mod printing;
mod reading;
pub mod rounding;
pub mod styled;
mod text;
pub mod types;
mod uncounted;

pub use ends::Ends;
pub use fixed_bits::{FixedBits, Inner, ReadMode};
pub use fixed_numeral::{ParseErrorKind, ParseFixedError, Radix};
pub use fixed_write::{Align, Base, NoMemory, Notation, Style, Text};
pub use in_base::InBase;
pub use number::{
    Fixed, FixedI8, FixedI16, FixedI32, FixedI64, FixedU8, FixedU16, FixedU32, FixedU64,
};
