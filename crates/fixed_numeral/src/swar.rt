//! Eight digits at once, each in a byte of a word.

ghost use Rattle.std.specs.Prelude.{◌≡◌, ◌+◌, ◌-◌, ◌<◌, ◌≤◌, ◌^◌, List, ℕ, ◌++◌, replicate, length, take, drop, IsTrue};
ghost use Rattle.std.specs.Prelude.{IfSome};
ghost use Rattle.std.specs.Int.Digits.{AllBelowBase, number_from_digits};
ghost use Rattle.std.specs.Simd.Lanes.{number_l};
ghost use Rattle.std.specs.Str.Parse.{AllDigits, digits_value};
ghost use Rattle.fixed_numeral.specs.Digits.{digits_in};

/// Returns the eight bytes from index `at` on, with the first in the lowest byte.
#[tactic(auto, using(crate::proofs::LaneLemmas::eight_bytes))]
#[inline(always)]
pub(crate) fn word_at(bytes: &[u8], at: usize) -> u64
    requires { at + 8 ≤ length bytes.now }
    ensures { result ≡ number_l 256 (take 8 (drop at bytes.now)) }
{
    u64::from_le_bytes([
        bytes[at],
        bytes[at + 1],
        bytes[at + 2],
        bytes[at + 3],
        bytes[at + 4],
        bytes[at + 5],
        bytes[at + 6],
        bytes[at + 7],
    ])
}

/// Whether each of the eight bytes of a word is a decimal digit. The upper half of a byte is 3 from '0' to the sixth
/// byte after '9'. With 6 added it is still 3 only for the digits.
#[tactic(auto, using(crate::proofs::LaneLemmas::sixes_fit, crate::proofs::LaneLemmas::eight_decimal))]
#[inline(always)]
pub(crate) fn are_decimal(word: u64) -> bool
    ensures { (bs : List ℕ) → length bs ≡ 8 → AllBelowBase 256 bs → word ≡ number_l 256 bs → IsTrue result
        → AllDigits 10 bs }
{
    (word & 0xf0f0_f0f0_f0f0_f0f0) == 0x3030_3030_3030_3030
        && ((word + 0x0606_0606_0606_0606) & 0xf0f0_f0f0_f0f0_f0f0) == 0x3030_3030_3030_3030
}

/// Returns the values of eight digits, each in the byte of its digit. A letter has the bit 64, and the low half of its
/// byte is 9 less than its value.
#[inline(always)]
fn digit_values(word: u64) -> u64
    ensures { (bs : List ℕ) → length bs ≡ 8 → length (digits_in bs) ≡ length bs → word ≡ number_l 256 bs
        → result ≡ number_l 256 (digits_in bs) }
{
    (word & 0x0f0f_0f0f_0f0f_0f0f) + ((word >> 6) & 0x0101_0101_0101_0101) * 9
}

/// Returns the number that eight digits, each in a byte, spell in a base. Digits are joined to pairs, pairs to fours,
/// and the two fours to the number, with one multiplication each time.
#[tactic(auto, using(crate::proofs::LaneLemmas::eight_is))]
#[inline(always)]
fn number_of_eight(digits: u64, base: u64) -> u64
    requires { base ≤ 16 }
    ensures number { (ds : List ℕ) → length ds ≡ 8 → AllBelowBase base ds → digits ≡ number_l 256 ds
        → result ≡ number_from_digits base ds }
    ensures small { result < 2 ^ 32 }
{
    let square = base * base;
    let fourth = square * square;
    let pairs = (digits.wrapping_mul(base * 0x100 + 1) >> 8) & 0x00ff_00ff_00ff_00ff;
    let fours = (pairs.wrapping_mul(square * 0x1_0000 + 1) >> 16) & 0x0000_ffff_0000_ffff;
    fours.wrapping_mul(fourth * 0x1_0000_0000 + 1) >> 32
}

/// Returns the number that eight decimal digits spell.
#[inline(always)]
pub(crate) fn number_of_decimals(word: u64) -> u64
    ensures number { (bs : List ℕ) → length bs ≡ 8 → AllDigits 10 bs → word ≡ number_l 256 bs
        → result ≡ digits_value 10 bs }
    ensures small { result < 2 ^ 32 }
{
    number_of_eight(word & 0x0f0f_0f0f_0f0f_0f0f, 10)
}

/// Returns the number that the first `count` bytes of a word, one to eight, spell if they are decimal digits. Zeros are
/// put before them.
#[inline(always)]
pub(crate) fn first_decimals(word: u64, count: usize) -> Option<u64>
    requires some { 0 < count }
    requires few { count ≤ 8 }
    ensures { IfSome result (λ n. (bs : List ℕ) → length bs ≡ 8 → AllBelowBase 256 bs → word ≡ number_l 256 bs
        → AllDigits 10 (take count bs) × (n ≡ digits_value 10 (take count bs))) }
{
    let zeros = 0x0030_3030_3030_3030u64 >> (8 * count - 8);
    let padded = (word << (64 - 8 * count)) + zeros;
    if are_decimal(padded) {
        Some(number_of_decimals(padded))
    } else {
        None
    }
}

/// Masks for the last bytes of a word, by their count.
const LAST_BYTES: [u64; 9] = [
    0,
    0xff00_0000_0000_0000,
    0xffff_0000_0000_0000,
    0xffff_ff00_0000_0000,
    0xffff_ffff_0000_0000,
    0xffff_ffff_ff00_0000,
    0xffff_ffff_ffff_0000,
    0xffff_ffff_ffff_ff00,
    0xffff_ffff_ffff_ffff,
];

/// The digit 0 for each byte before the last ones, by their count.
const ZEROS_BEFORE: [u64; 9] = [
    0x3030_3030_3030_3030,
    0x0030_3030_3030_3030,
    0x3030_3030_3030,
    0x0030_3030_3030,
    0x3030_3030,
    0x0030_3030,
    0x3030,
    0x0030,
    0,
];

/// Returns the last `count` bytes of a word after zeros. With tables, a count of 0 needs no case of its own.
#[tactic(auto, using(crate::proofs::DecimalLemmas::padded_is))]
#[inline(always)]
fn after_zeros(word: u64, count: usize) -> u64
    requires few { count ≤ 8 }
    ensures { (bs : List ℕ) → length bs ≡ 8 → AllBelowBase 256 bs → word ≡ number_l 256 bs
        → result ≡ number_l 256 (replicate (8 - count) 48 ++ drop (8 - count) bs) }
{
    (word & LAST_BYTES[count]) + ZEROS_BEFORE[count]
}

/// Returns the number that the last `count` bytes of a word, at most eight, spell if they are decimal digits. The bytes
/// before them are made zeros.
#[tactic(auto, using(crate::proofs::DecimalLemmas::last_digits))]
#[inline(always)]
pub(crate) fn last_decimals(word: u64, count: usize) -> Option<u64>
    requires few { count ≤ 8 }
    ensures { IfSome result (λ n. (bs : List ℕ) → length bs ≡ 8 → AllBelowBase 256 bs → word ≡ number_l 256 bs
        → AllDigits 10 (drop (8 - count) bs) × (n ≡ digits_value 10 (drop (8 - count) bs))) }
{
    let padded = after_zeros(word, count);
    if are_decimal(padded) {
        Some(number_of_decimals(padded))
    } else {
        None
    }
}

/// Returns the number that the last `count` bytes of a word, at most eight, spell in a base if they are digits. Base 10
/// has no letters.
#[inline(always)]
pub(crate) fn last_number(word: u64, count: usize, base: u64) -> u64
    requires few { count ≤ 8 }
    requires least { 2 ≤ base }
    requires most { base ≤ 16 }
    ensures number { (bs : List ℕ) → length bs ≡ 8 → AllBelowBase 256 bs → word ≡ number_l 256 bs
        → AllDigits base (drop (8 - count) bs) → result ≡ digits_value base (drop (8 - count) bs) }
    ensures small { result < 2 ^ 32 }
{
    let padded = after_zeros(word, count);
    if base == 10 {
        return number_of_decimals(padded);
    }
    number_of_eight(digit_values(padded), base)
}

/// Returns the number that the first `count` digits of a slice, fewer than eight, spell in a base. The slice has at
/// least eight bytes, all of them digits. The word is shifted up until zeros come before the digits.
#[inline(always)]
fn number_of_first(bytes: &[u8], count: usize, base: u64) -> u64
    requires long { 8 ≤ length bytes.now }
    requires few { count < 8 }
    requires plain { length (digits_in bytes.now) ≡ length bytes.now }
    requires digits { AllBelowBase base (digits_in bytes.now) }
    requires least { 2 ≤ base }
    requires most { base ≤ 16 }
    ensures { result ≡ number_from_digits base (digits_in (take count bytes.now)) }
{
    if count == 0 {
        return 0;
    }
    number_of_eight(digit_values(word_at(bytes, 0)) << (64 - 8 * count), base)
}

/// Returns the number that eight or more bytes spell in a base. Each byte is a digit. Eight are taken at a time, after
/// the few left over at the front.
#[inline(always)]
fn number_by_eights(bytes: &[u8], base: u64) -> u64
    requires long { 8 ≤ length bytes.now }
    requires plain { length (digits_in bytes.now) ≡ length bytes.now }
    requires digits { AllBelowBase base (digits_in bytes.now) }
    requires least { 2 ≤ base }
    requires most { base ≤ 16 }
    requires room { base ^ length (digits_in bytes.now) ≤ 2 ^ 64 }
    ensures { result ≡ number_from_digits base (digits_in bytes.now) }
{
    let square = base * base;
    let fourth = square * square;
    let eighth = fourth * fourth;
    let mut at = bytes.len() % 8;
    let mut number = number_of_first(bytes, at, base);
    while at < bytes.len() {
        number = number * eighth + number_of_eight(digit_values(word_at(bytes, at)), base);
        at += 8;
    }
    number
}

/// Returns what `number_by_eights` returns. The powers of base 10 are constants.
pub(crate) fn long_number(bytes: &[u8], base: u64) -> u64
    requires long { 8 ≤ length bytes.now }
    requires plain { length (digits_in bytes.now) ≡ length bytes.now }
    requires digits { AllBelowBase base (digits_in bytes.now) }
    requires least { 2 ≤ base }
    requires most { base ≤ 16 }
    requires room { base ^ length (digits_in bytes.now) ≤ 2 ^ 64 }
    ensures { result ≡ number_from_digits base (digits_in bytes.now) }
{
    if base == 10 {
        number_by_eights(bytes, 10)
    } else {
        number_by_eights(bytes, base)
    }
}
