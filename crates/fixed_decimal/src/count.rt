//! How many units a magnitude is, before and after rounding.

ghost use Rattle.std.specs.Prelude.{◌^◌, ◌<◌};

use fixed_bits::LostFraction;

/// A magnitude before it is rounded: whole units, and the lost fraction of one more.
#[derive(Clone, Copy)]
pub struct Count {
    /// The whole units, perhaps less a multiple of two to the power of 64.
    pub units: u128,
    /// Whether that multiple is more than 0.
    pub is_over: bool,
    /// The lost fraction of one more unit.
    pub lost: LostFraction,
    ghost room: { units < 2 ^ 127 },
}

/// A magnitude rounded to whole units.
#[derive(Clone, Copy)]
pub struct Units {
    /// The lowest 64 bits of the number of units.
    pub low: u64,
    /// Whether there are more bits.
    pub has_high_bits: bool,
    /// Whether it was a whole number of units before rounding.
    pub is_exact: bool,
}
