//! The last bits of a number, and the number without them.

ghost use Rattle.std.specs.Prelude.{◌≡◌, ◌≤◌, ◌<◌, ◌^◌, ◌-◌};
ghost use Rattle.fixed_bits.specs.Down.{IsDown};
ghost use Rattle.fixed_bits.specs.Images.{wrap_to_unsigned};
ghost use Rattle.fixed_bits.specs.Ranges.{IsWide};

/// Returns a number of `n` ones.
pub(crate) fn mask(n: u32) -> u64
    requires { n ≤ 64 }
    ensures { result ≡ 2 ^ n - 1 }
{
    if n == 64 { u64::MAX } else { (1 << n) - 1 }
}

/// Returns the last `n` bits of a number.
pub(crate) fn low_bits(v: i128, n: u32) -> u64
    requires { n ≤ 64 }
    ensures bits { result ≡ wrap_to_unsigned n v }
    ensures below { result < 2 ^ n }
{
    (v.cast_unsigned() & mask(n) as u128) as u64
}

/// Returns the greatest whole number not above `v` over two to the power of `k`, for any `k`.
#[tactic(auto, using(crate::proofs::DownLemmas::down_by_shift, crate::proofs::DownLemmas::down_past, crate::proofs::DownLemmas::down_past_below))]
pub(crate) fn floor_quotient(v: i128, k: u32) -> i128
    requires { IsWide v }
    ensures { IsDown v k 0 result }
{
    if k < 64 {
        v >> k
    } else if v < 0 {
        -1
    } else {
        0
    }
}
