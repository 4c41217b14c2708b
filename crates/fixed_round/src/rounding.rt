//! The four roundings.

/// To which of the two whole numbers around a value it is rounded: the four roundings of the crate `fixed`, by its
/// names. So this is not the enum `ReadMode`, in which `Round` is NearestAway.
#[derive(Clone, Copy, Debug, PartialEq, Eq)]
pub enum Rounding {
    /// The least whole number that is not below the value.
    Ceil,
    /// The greatest whole number that is not above the value.
    Floor,
    /// The nearest whole number, ties away from zero.
    Round,
    /// The nearest whole number, ties to even.
    RoundTiesEven,
}
