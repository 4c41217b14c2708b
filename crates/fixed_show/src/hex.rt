//! The last digits of a word in hexadecimal.
//!
//! The sixteen digits of a word are made in the lanes of a vector, and one store writes them. First the word is moved
//! up so that its last digits come first. So digits need no loop and no branch on their count.

ghost use Rattle.std.specs.Prelude.{◌≡◌, ◌+◌, ◌-◌, ◌*◌, ◌%◌, ◌^◌, ◌≤◌, ◌++◌, false, length};
ghost use Rattle.fixed_show.specs.Inner.Nibbles.{nibbles_of};
ghost use Rattle.fixed_write.specs.Texts.{last_digits};

use std::simd::prelude::*;
use text_buffer::TextBuffer;

/// Returns the sixteen nibbles of a word, the highest first.
#[inline(always)]
fn nibbles(word: u64) -> u8x16
    ensures { result ≡ nibbles_of word }
{
    let bytes = u64x2::from_array([word, 0]).to_le_bytes();
    let upper = bytes >> 4;
    let lower = bytes & u8x16::splat(15);
    upper.shuffle(
        lower,
        [7, 23, 6, 22, 5, 21, 4, 20, 3, 19, 2, 18, 1, 17, 0, 16],
    )
}

/// Returns the sixteen digits of a word, in lower case.
#[inline(always)]
fn sixteen_digits(word: u64) -> [u8; 16]
    ensures { result ≡ last_digits 16 false 16 word }
{
    let nibbles = nibbles(word);
    let zeros = nibbles
        .simd_gt(u8x16::splat(9))
        .select(u8x16::splat(b'a' - 10), u8x16::splat(b'0'));
    (nibbles + zeros).to_array()
}

/// Moves a word up until its last `count` digits come first.
#[inline(always)]
fn moved_up(word: u64, count: u32) -> u64
    requires { count ≤ 16 }
    ensures { result ≡ word * 2 ^ (64 - 4 * count) % 2 ^ 64 }
{
    ((u128::from(word) << (64 - 4 * count)) % (1 << 64)) as u64
}

/// Appends the last `count` digits of a word in radix 16, with leading zeros if it has fewer.
pub fn push_hex_digits<const N: usize>(out: &mut TextBuffer<N>, word: u64, count: u32)
    requires room { length out.old + count ≤ N }
    ensures appended { out.new ≡ out.old ++ last_digits 16 false count word }
    ensures length { length out.new ≡ length out.old + count }
{
    let mut left = count;
    while left > 16 {
        out.push(b'0');
        left -= 1;
    }
    out.push_prefix(sixteen_digits(moved_up(word, left)), left as usize);
}
