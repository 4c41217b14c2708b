//! Moving bits between fraction lengths, conversion and casts between numbers, and their order.
#![tactic(auto)]

pub mod cast;
pub mod fixed;
pub mod floored;
mod integer_types;
pub mod laws;
pub mod lossless;
pub mod num;
pub mod order;
pub mod rounded;
mod to_bits;
mod to_number;

pub use cast::{
    Cast, CheckedCast, OverflowingCast, SaturatingCast, StrictCast, UnwrappedCast, WrappingCast,
};
pub use fixed::{FromFixed, ToFixed};
pub use floored::{Floored, floor_into, reformat, reformat_signed};
pub use lossless::{LosslessTryFrom, LossyFrom, lossless_from};
pub use num::{Num, NumTarget};
pub use order::compare;
pub use rounded::reformat_mode;
