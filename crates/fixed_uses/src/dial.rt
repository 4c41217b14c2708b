//! A dial that shows whole degrees.

ghost use Rattle.fixed_uses.specs.Dial.{IsOnDial};

use fixed_bits::laws::down_is_the_one;
use fixed_point::types::I16F16;

/// Returns the degrees of a reading, rounded down; the nearer end of the dial if they are beyond it.
pub fn degrees(reading: I16F16) -> i8
    ensures { IsOnDial reading result }
{
    down_is_the_one();
    reading.saturating_to_num()
}
