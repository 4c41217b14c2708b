//! Zero and the ends of the range of a number type.

use crate::number::Fixed;
use fixed_bits::Inner;

/// Zero and the ends of the range, as `Ends::ZERO`, `Ends::MIN` and `Ends::MAX` of a type. They are in a trait because
/// proofs know nothing about the value of a constant of a generic type itself.
pub trait Ends: Sized {
    /// The number with the bits 0.
    const ZERO: Self;

    /// The lowest number.
    const MIN: Self;

    /// The greatest number.
    const MAX: Self;

    ghost ZERO: { Self };

    ghost MIN: { Self };

    ghost MAX: { Self };
}

impl<I: Inner, const FRAC: u32> Ends for Fixed<I, FRAC> {
    const ZERO: Self = Fixed { bits: I::ZERO };

    const MIN: Self = Fixed { bits: I::MIN };

    const MAX: Self = Fixed { bits: I::MAX };

    ghost ZERO = { I.ZERO };

    ghost MIN = { I.MIN };

    ghost MAX = { I.MAX };
}
