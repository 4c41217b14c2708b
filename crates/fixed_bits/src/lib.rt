//! Integer types that hold the bits of fixed-point numbers, formats, images of numbers out of range, and rounding
//! modes.
#![tactic(auto)]

pub mod bits;
pub mod format;
pub mod inner;
mod integer_types;
pub mod laws;
mod masks;
pub mod mode;
pub mod number;
pub mod order;
pub mod rounding;

pub use bits::FixedBits;
pub use format::{Format, Policy, mul10};
pub use inner::Inner;
pub use mode::{ReadMode, magnitude_mode_of};
pub use number::{Image, Number, is_refused, moved, sign_and_magnitude, signed_number};
pub use order::{FORMAT_COUNT, format_at};
pub use rounding::{LostFraction, lost_fraction, rounding_increment, share_increment};
