//! Bytes split at the first byte of a kind.

ghost use Rattle.std.specs.Prelude.{◌≡◌, ◌≤◌, ◌<◌, length, take, get_or, MatchOption};
ghost use Rattle.fixed_respell.specs.Split.{IsSplit, count_of};

use std::simd::prelude::*;

/// The number of bytes compared together. Nearly every field of a line is shorter.
const LANES: usize = 16;

/// Returns the index of the first `wanted` among the first 16 bytes, or 16 if there is none.
#[inline(always)]
fn first_place(bytes: &[u8], wanted: u8) -> usize
    requires { LANES ≤ length bytes.now }
    ensures within { result ≤ LANES }
    ensures none { count_of wanted (take result bytes.now) ≡ 0 }
    ensures found { result < LANES → get_or bytes.now result 0 ≡ wanted }
{
    let found = u8x16::from_slice(bytes)
        .simd_eq(u8x16::splat(wanted))
        .to_bitmask();
    if found == 0 {
        LANES
    } else {
        found.trailing_zeros() as usize
    }
}

/// Returns the bytes before and after the first `wanted`. `None`: there is none.
#[inline(never)]
pub fn split_once(bytes: &[u8], wanted: u8) -> Option<(&[u8], &[u8])>
    ensures { MatchOption result (count_of wanted bytes.now ≡ 0) (λ r. IsSplit wanted bytes.now r.0.now r.1.now) }
{
    let mut at = 0;
    if bytes.len() >= LANES {
        at = first_place(bytes, wanted);
        if at < LANES {
            return Some((&bytes[..at], &bytes[at + 1..]));
        }
    }
    while at < bytes.len() {
        if bytes[at] == wanted {
            return Some((&bytes[..at], &bytes[at + 1..]));
        }
        at += 1;
    }
    None
}
