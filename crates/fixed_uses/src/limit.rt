//! A limit in another format than the readings.

ghost use Rattle.std.specs.Prelude.{◌↔◌, ◌*ℤ◌, ◌<ℤ◌, ◌^◌, pos, IsTrue};

use fixed_convert::laws::order_is_of_values;
use fixed_point::types::{I16F16, U4F4};

/// Whether a reading is above a limit: limit / 2^4 < reading / 2^16, without a division.
pub fn is_above(reading: I16F16, limit: U4F4) -> bool
    ensures { IsTrue result ↔ ((pos limit *ℤ pos (2 ^ 16)) <ℤ (reading *ℤ pos (2 ^ 4))) }
{
    order_is_of_values();
    reading.gt_num(limit)
}
