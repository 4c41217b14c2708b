//! The words of a line, and the types that they name.

ghost use Rattle.fixed_bits.specs.Ranges.{IsWide};

/// Returns the whole number that a word spells in decimal; 0 if it does not spell one of 64 bits.
pub fn number_of(word: &str) -> i128
    ensures { IsWide result }
{
    match word.parse::<i64>() {
        Ok(number) => i128::from(number),
        Err(_) => match word.parse::<u64>() {
            Ok(number) => i128::from(number),
            Err(_) => 0,
        },
    }
}

/// Calls a function with the number that has these bits in the format that a word names, such as `i8.4` for FixedI8<4>.
macro_rules! at_format {
    ($word:expr, $bits:expr, $call:ident ( $($given:expr),* ), $rt:expr, $otherwise:expr) => {
        match $word {
            "i8.0" => $call($rt, Fixed::<i8, 0>::from_bits(Inner::wrap($bits)), $($given),*),
            "i8.4" => $call($rt, Fixed::<i8, 4>::from_bits(Inner::wrap($bits)), $($given),*),
            "i8.7" => $call($rt, Fixed::<i8, 7>::from_bits(Inner::wrap($bits)), $($given),*),
            "i8.8" => $call($rt, Fixed::<i8, 8>::from_bits(Inner::wrap($bits)), $($given),*),
            "u8.0" => $call($rt, Fixed::<u8, 0>::from_bits(Inner::wrap($bits)), $($given),*),
            "u8.4" => $call($rt, Fixed::<u8, 4>::from_bits(Inner::wrap($bits)), $($given),*),
            "u8.7" => $call($rt, Fixed::<u8, 7>::from_bits(Inner::wrap($bits)), $($given),*),
            "u8.8" => $call($rt, Fixed::<u8, 8>::from_bits(Inner::wrap($bits)), $($given),*),
            "i16.8" => $call($rt, Fixed::<i16, 8>::from_bits(Inner::wrap($bits)), $($given),*),
            "u16.16" => $call($rt, Fixed::<u16, 16>::from_bits(Inner::wrap($bits)), $($given),*),
            "i32.16" => $call($rt, Fixed::<i32, 16>::from_bits(Inner::wrap($bits)), $($given),*),
            "u32.5" => $call($rt, Fixed::<u32, 5>::from_bits(Inner::wrap($bits)), $($given),*),
            "i64.32" => $call($rt, Fixed::<i64, 32>::from_bits(Inner::wrap($bits)), $($given),*),
            "i64.63" => $call($rt, Fixed::<i64, 63>::from_bits(Inner::wrap($bits)), $($given),*),
            "u64.0" => $call($rt, Fixed::<u64, 0>::from_bits(Inner::wrap($bits)), $($given),*),
            "u64.64" => $call($rt, Fixed::<u64, 64>::from_bits(Inner::wrap($bits)), $($given),*),
            _ => $otherwise,
        }
    };
}

/// The same for the ten formats of pairs.
macro_rules! at_pair_format {
    ($word:expr, $bits:expr, $call:ident ( $($given:expr),* ), $rt:expr, $otherwise:expr) => {
        match $word {
            "i8.0" => $call($rt, Fixed::<i8, 0>::from_bits(Inner::wrap($bits)), $($given),*),
            "i8.4" => $call($rt, Fixed::<i8, 4>::from_bits(Inner::wrap($bits)), $($given),*),
            "i8.8" => $call($rt, Fixed::<i8, 8>::from_bits(Inner::wrap($bits)), $($given),*),
            "u8.0" => $call($rt, Fixed::<u8, 0>::from_bits(Inner::wrap($bits)), $($given),*),
            "u8.7" => $call($rt, Fixed::<u8, 7>::from_bits(Inner::wrap($bits)), $($given),*),
            "i16.8" => $call($rt, Fixed::<i16, 8>::from_bits(Inner::wrap($bits)), $($given),*),
            "u16.16" => $call($rt, Fixed::<u16, 16>::from_bits(Inner::wrap($bits)), $($given),*),
            "i32.16" => $call($rt, Fixed::<i32, 16>::from_bits(Inner::wrap($bits)), $($given),*),
            "i64.32" => $call($rt, Fixed::<i64, 32>::from_bits(Inner::wrap($bits)), $($given),*),
            "u64.64" => $call($rt, Fixed::<u64, 64>::from_bits(Inner::wrap($bits)), $($given),*),
            _ => $otherwise,
        }
    };
}

pub(crate) use at_format;
pub(crate) use at_pair_format;
