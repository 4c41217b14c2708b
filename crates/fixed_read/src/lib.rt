//! Reading numerals into the bits of fixed-point numbers.
#![tactic(auto)]

mod decimal;
mod decimal_block;
mod digits;
pub mod laws;
mod literal;
mod lost_fraction;
mod magnitude;
mod power_of_two_radix;
mod read;
mod read_number;
mod reciprocal;
mod shifts;
mod short_numeral;
mod uncounted;

pub use fixed_bits::ReadMode;
pub use literal::lit;
pub use read::{
    from_str_radix, from_str_radix_mode, overflowing_from_str_radix,
    overflowing_from_str_radix_counted, overflowing_from_str_radix_mode,
    overflowing_from_str_radix_mode_counted, saturating_from_str_radix,
    saturating_from_str_radix_mode, wrapping_from_str_radix, wrapping_from_str_radix_mode,
};
pub use read_number::{ReadNumber, read_ending, read_format};
pub use uncounted::{read_literal, read_uncounted};
