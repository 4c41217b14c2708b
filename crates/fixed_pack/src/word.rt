//! The bytes of a word.

ghost use Rattle.std.specs.Prelude.{◌≡◌, ◌+◌, ◌*◌, ◌^◌, ◌<◌, ◌≤◌, ◌++◌, MatchOption, if◌then◌else◌, length, reverse};
ghost use Rattle.fixed_bits.specs.Numbers.{with_sign};
ghost use Rattle.fixed_bits.specs.Ranges.{IsInRange};
ghost use Rattle.fixed_command.specs.Hex.{word_of};
ghost use Rattle.fixed_pack.specs.Word.{IsBitsOf, bytes_of, low_bytes, low_number, number_of, word_length};

use crate::Endian;
use fixed_bits::Format;
use text_buffer::TextBuffer;

/// Returns the length of a format's words in bytes.
pub fn word_length(format: Format) -> usize
    ensures value { result ≡ word_length format.width }
    ensures some { 1 ≤ result }
    ensures most { result ≤ 8 }
{
    ((format.width() + 7) / 8) as usize
}

/// Returns the bits of a format whose word is this number. `None`: it has a bit above the format's width.
pub fn word_bits(format: Format, number: u64) -> Option<i128>
    ensures { MatchOption result (2 ^ format.width ≤ number) (IsBitsOf format number) }
{
    let turn: u128 = 1 << format.width();
    let word = u128::from(number);
    if word >= turn {
        None
    } else if format.signed() && 2 * word >= turn {
        Some(-((turn - word) as i128))
    } else {
        Some(word as i128)
    }
}

/// Returns the first or the second of two numbers, without a branch.
#[inline(always)]
fn chosen(is_first: bool, first: u64, second: u64) -> u64
    ensures { result ≡ (if is_first then first else second) }
{
    if is_first { first } else { second }
}

/// Returns the word of a number in a format's range from its sign and magnitude. The sign changes from word to word.
#[inline(always)]
pub fn signed_word(format: Format, negative: bool, magnitude: u64) -> u64
    requires { IsInRange format.signed format.width (with_sign negative magnitude) }
    ensures { result ≡ word_of format.width (with_sign negative magnitude) }
{
    let turn: u128 = 1 << format.width();
    let turned = ((turn - u128::from(magnitude)) % (1 << 64)) as u64;
    let is_below_zero = negative && magnitude > 0;
    chosen(is_below_zero, turned, magnitude)
}

/// Appends the last bytes of a number, at most 8, in an order.
#[inline(always)]
fn push_few<const N: usize>(out: &mut TextBuffer<N>, endian: Endian, count: usize, number: u64)
    requires few { count ≤ 8 }
    requires room { length out.old + count ≤ N }
    ensures appended { out.new ≡ out.old ++ bytes_of endian count number }
    ensures length { length out.new ≡ length out.old + count }
{
    match endian {
        Endian::Little => out.push_bytes(&number.to_le_bytes()[..count]),
        Endian::Big => out.push_bytes(&number.to_be_bytes()[8 - count..]),
    }
}

/// Appends the last bytes of a number, the least significant first.
fn push_low<const N: usize>(out: &mut TextBuffer<N>, count: usize, number: u64)
    requires room { length out.old + count ≤ N }
    ensures appended { out.new ≡ out.old ++ low_bytes count number }
    ensures length { length out.new ≡ length out.old + count }
{
    let mut rest = number;
    for _ in 0..count {
        out.push((rest % 256) as u8);
        rest /= 256;
    }
}

/// Appends the last bytes of a number, the most significant first.
fn push_high<const N: usize>(out: &mut TextBuffer<N>, count: usize, number: u64)
    requires room { length out.old + count ≤ N }
    ensures appended { out.new ≡ out.old ++ reverse (low_bytes count number) }
    ensures length { length out.new ≡ length out.old + count }
{
    if count > 0 {
        push_high(out, count - 1, number / 256);
        out.push((number % 256) as u8);
    }
}

/// Appends the last bytes of a number in an order. Two, four or eight bytes are one write.
#[inline(always)]
pub fn push_word<const N: usize>(out: &mut TextBuffer<N>, endian: Endian, count: usize, number: u64)
    requires room { length out.old + count ≤ N }
    ensures appended { out.new ≡ out.old ++ bytes_of endian count number }
    ensures length { length out.new ≡ length out.old + count }
{
    match (count, endian) {
        (2, _) => push_few(out, endian, 2, number),
        (4, _) => push_few(out, endian, 4, number),
        (8, _) => push_few(out, endian, 8, number),
        (_, Endian::Little) => push_low(out, count, number),
        (_, Endian::Big) => push_high(out, count, number),
    }
}

/// Counts the words of a size in bytes, at most as many as there is room for if each becomes eight bytes.
pub fn words_within(bytes: usize, size: usize, room: usize) -> usize
    requires { 0 < size }
    ensures bytes { size * result ≤ bytes }
    ensures room { 8 * result ≤ room }
{
    (bytes / size).min(room / 8)
}

/// Returns the number of at most 8 bytes, the least significant first.
fn low_number(bytes: &[u8]) -> u64
    requires { length bytes.now ≤ 8 }
    ensures value { result ≡ low_number bytes.now }
    ensures below { result < 256 ^ length bytes.now }
{
    match bytes {
        [] => 0,
        [first, rest @ ..] => u64::from(*first) + 256 * low_number(rest),
    }
}

/// Returns the number of at most 8 bytes, the most significant first.
fn high_number(bytes: &[u8]) -> u64
    requires { length bytes.now ≤ 8 }
    ensures value { result ≡ low_number (reverse bytes.now) }
    ensures below { result < 256 ^ length bytes.now }
{
    match bytes {
        [] => 0,
        [rest @ .., last] => u64::from(*last) + 256 * high_number(rest),
    }
}

/// Returns the number of two bytes in an order.
#[inline(always)]
fn number_of_two(bytes: &[u8], endian: Endian) -> u64
    requires { length bytes.now ≡ 2 }
    ensures value { result ≡ number_of endian bytes.now }
    ensures below { result < 2 ^ 16 }
{
    let mut word = [0; 2];
    word.copy_from_slice(bytes);
    match endian {
        Endian::Little => u64::from(u16::from_le_bytes(word)),
        Endian::Big => u64::from(u16::from_be_bytes(word)),
    }
}

/// Returns the number of four bytes in an order.
#[inline(always)]
fn number_of_four(bytes: &[u8], endian: Endian) -> u64
    requires { length bytes.now ≡ 4 }
    ensures value { result ≡ number_of endian bytes.now }
    ensures below { result < 2 ^ 32 }
{
    let mut word = [0; 4];
    word.copy_from_slice(bytes);
    match endian {
        Endian::Little => u64::from(u32::from_le_bytes(word)),
        Endian::Big => u64::from(u32::from_be_bytes(word)),
    }
}

/// Returns the number of eight bytes in an order.
#[inline(always)]
fn number_of_eight(bytes: &[u8], endian: Endian) -> u64
    requires { length bytes.now ≡ 8 }
    ensures { result ≡ number_of endian bytes.now }
{
    let mut word = [0; 8];
    word.copy_from_slice(bytes);
    match endian {
        Endian::Little => u64::from_le_bytes(word),
        Endian::Big => u64::from_be_bytes(word),
    }
}

/// Returns the number of at most 8 bytes in an order. Two, four or eight bytes are one read.
#[inline(always)]
pub fn word_number(bytes: &[u8], endian: Endian) -> u64
    requires { length bytes.now ≤ 8 }
    ensures value { result ≡ number_of endian bytes.now }
    ensures below { result < 256 ^ length bytes.now }
{
    match (bytes.len(), endian) {
        (2, _) => number_of_two(bytes, endian),
        (4, _) => number_of_four(bytes, endian),
        (8, _) => number_of_eight(bytes, endian),
        (_, Endian::Little) => low_number(bytes),
        (_, Endian::Big) => high_number(bytes),
    }
}
