//! How a number between two multiples of an ulp (the unit in the last place, the crate's DELTA) is rounded.

ghost use Rattle.std.specs.Prelude.{◌≡◌};
ghost use Rattle.fixed_bits.specs.Rounded.{magnitude_mode};

/// To which of its two neighbours in a format a number is rounded.
#[derive(Clone, Copy, Debug, PartialEq, Eq)]
pub enum ReadMode {
    /// The nearest one; of two equally near ones, the one whose bits are even.
    NearestEven,
    /// The greatest one that is not above the number.
    Floor,
    /// The least one that is not below the number.
    Ceil,
    /// The nearest one that is not farther from zero.
    TowardsZero,
    /// The nearest one; of two equally near ones, the one farther from zero.
    NearestAway,
    /// The nearest one; of two equally near ones, the one nearer to zero.
    NearestZero,
    /// The nearest one; of two equally near ones, the greater one.
    NearestUp,
    /// The nearest one; of two equally near ones, the lesser one.
    NearestDown,
    /// The nearest one that is not nearer to zero.
    AwayFromZero,
}

/// Returns the mode that rounds the magnitude of a number, negative or not, as `mode` rounds the number.
pub fn magnitude_mode_of(mode: ReadMode, negative: bool) -> ReadMode
    ensures { result ≡ magnitude_mode mode negative }
{
    if !negative {
        return mode;
    }
    match mode {
        ReadMode::Floor => ReadMode::Ceil,
        ReadMode::Ceil => ReadMode::Floor,
        ReadMode::NearestUp => ReadMode::NearestDown,
        ReadMode::NearestDown => ReadMode::NearestUp,
        same => same,
    }
}
