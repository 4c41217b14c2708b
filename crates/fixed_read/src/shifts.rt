//! Shifts that lose no bits.

ghost use Rattle.std.specs.Prelude.{◌≡◌, ◌*◌, ◌/◌, ◌%◌, ◌^◌, ◌<◌, ◌≤◌, ◌↔◌, IsTrue};

/// Returns 2^bits.
pub fn power_of_two(bits: u32) -> u64
    requires { bits < 64 }
    ensures { result ≡ 2 ^ bits }
{
    1 << bits
}

/// Returns value * 2^bits.
pub fn shl(value: u128, bits: u32) -> u128
    requires bits { bits < 128 }
    requires room { value * 2 ^ bits < 2 ^ 128 }
    ensures { result ≡ value * 2 ^ bits }
{
    value << bits
}

/// Returns value * 2^bits in 64 bits.
pub fn shl_u64(value: u64, bits: u32) -> u64
    requires bits { bits < 64 }
    requires room { value * 2 ^ bits < 2 ^ 64 }
    ensures { result ≡ value * 2 ^ bits }
{
    value << bits
}

/// Returns a number that fits 64 bits as a `u64`.
pub fn to_u64(value: u128) -> u64
    requires { value < 2 ^ 64 }
    ensures { result ≡ value }
{
    value as u64
}

/// Returns a number without its lowest bits, and these bits.
pub fn split_bits(value: u128, bits: u32) -> (u128, u64)
    requires { bits ≤ 64 }
    ensures high { result.0 ≡ value / 2 ^ bits }
    ensures low { result.1 ≡ value % 2 ^ bits }
{
    let high = value >> bits;
    (high, (value - (high << bits)) as u64)
}

/// Whether a number is more than 0.
pub fn is_some(value: u128) -> bool
    ensures { IsTrue result ↔ (0 < value) }
{
    value != 0
}
