//! A tariff: the cost of energy, and the sum of two amounts.

ghost use Rattle.std.specs.Prelude.{◌≡◌, ◌↔◌, ◌+◌, ◌-◌, ◌*◌, ◌/◌, ◌^◌, ◌<◌, ◌≤◌, IsSome, IfSome};

use fixed_point::types::{U16F16, U48F16};

/// The exact cost of `units` at a price each, plus a standing charge.
pub fn cost(price: U16F16, units: u32, standing: U16F16) -> U48F16
    ensures { result ≡ price * units + standing }
{
    let energy = u64::from(price.to_bits()) * u64::from(units);
    U48F16::from_bits(energy + u64::from(standing.to_bits()))
}

/// The sum of two amounts; `None` exactly if it does not fit.
pub fn total(one: U16F16, other: U16F16) -> Option<U16F16>
    ensures exists { IsSome result ↔ (one + other < 2 ^ 32) }
    ensures sum { IfSome result (λ sum. sum ≡ one + other) }
{
    let sum = one.to_bits().checked_add(other.to_bits())?;
    Some(U16F16::from_bits(sum))
}

/// The amount less a discount in percent, rounded down.
pub fn discounted(amount: U16F16, percent: u8) -> U16F16
    requires { percent ≤ 100 }
    ensures { result ≡ amount * (100 - percent) / 100 }
{
    let kept = u64::from(amount.to_bits()) * u64::from(100 - percent) / 100;
    U16F16::from_bits(kept as u32)
}
