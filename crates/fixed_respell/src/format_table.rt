//! A table of the formats by the counts in their words.
//!
//! The word of a format has four to six bytes: a letter for its sign rule, and two counts with an `F` between them. The
//! bytes after the letter are one number of at most 40 bits, with the first byte lowest. With the count of the word's
//! bytes in the sixth byte this is the word's key, below 2^48. An entry of the table is a key, the fraction length in
//! the seventh byte, and the width in the eighth. Its index is the first eight bits of the product of its key and
//! `MULTIPLIER`, the first of the tried multipliers with which no two of the 124 keys share an index. So one
//! multiplication and one comparison find the two counts, and no branch depends on the number of their digits.

ghost use Rattle.std.specs.Prelude.{◌≡◌, ◌<◌, ◌≤◌, ◌^◌, ◌*◌, ◌+◌, ℕ, length, get_or, MatchOption};
ghost use Rattle.std.specs.Simd.Lanes.{number_l};
ghost use Rattle.fixed_bits.specs.Formats.{IsTypeFormat};
ghost use Rattle.fixed_respell.specs.Inner.FormatKeys.{IsEntry, counts_word, word_key};

/// The multiplier of keys.
const MULTIPLIER: u64 = 9_476_561_537_795_100_451;

/// The entries; no entry is 0.
const FORMATS: [u64; 256] = [
    0x200b_0631_3146_3132,
    0,
    0x402d_0635_3446_3931,
    0x4023_0635_3346_3932,
    0x4019_0635_3246_3933,
    0x400f_0635_3146_3934,
    0,
    0,
    0,
    0,
    0x2014_0630_3246_3231,
    0x200a_0630_3146_3232,
    0,
    0,
    0,
    0x2002_0500_3246_3033,
    0x2001_0500_3146_3133,
    0x2000_0500_3046_3233,
    0x1006_0500_3646_3031,
    0x1005_0500_3546_3131,
    0x1004_0500_3446_3231,
    0x1003_0500_3346_3331,
    0x1002_0500_3246_3431,
    0x1001_0500_3146_3531,
    0x1000_0500_3046_3631,
    0,
    0,
    0,
    0,
    0,
    0,
    0,
    0,
    0,
    0x2020_0500_3233_4630,
    0x201f_0500_3133_4631,
    0x201e_0500_3033_4632,
    0,
    0,
    0x1010_0500_3631_4630,
    0x100f_0500_3531_4631,
    0x100e_0500_3431_4632,
    0x100d_0500_3331_4633,
    0x100c_0500_3231_4634,
    0x100b_0500_3131_4635,
    0x100a_0500_3031_4636,
    0,
    0,
    0,
    0,
    0,
    0,
    0,
    0,
    0,
    0,
    0,
    0x4009_0500_3946_3535,
    0x4008_0500_3846_3635,
    0x4007_0500_3746_3735,
    0x4006_0500_3646_3835,
    0x4005_0500_3546_3935,
    0,
    0,
    0,
    0,
    0,
    0,
    0,
    0,
    0,
    0x2013_0639_3146_3331,
    0,
    0,
    0x403b_0500_3935_4635,
    0x403a_0500_3835_4636,
    0x4039_0500_3735_4637,
    0x4038_0500_3635_4638,
    0x4037_0500_3535_4639,
    0,
    0,
    0,
    0x2012_0638_3146_3431,
    0,
    0,
    0,
    0,
    0,
    0,
    0,
    0,
    0,
    0,
    0x2011_0637_3146_3531,
    0,
    0,
    0,
    0,
    0,
    0,
    0,
    0,
    0,
    0,
    0x2010_0636_3146_3631,
    0,
    0,
    0,
    0x4036_0634_3546_3031,
    0x402c_0634_3446_3032,
    0x4022_0634_3346_3033,
    0x4018_0634_3246_3034,
    0x400e_0634_3146_3035,
    0,
    0,
    0x200f_0635_3146_3731,
    0,
    0,
    0,
    0x4035_0633_3546_3131,
    0x402b_0633_3446_3132,
    0x4021_0633_3346_3133,
    0x4017_0633_3246_3134,
    0,
    0x400d_0633_3146_3135,
    0,
    0x200e_0634_3146_3831,
    0,
    0,
    0,
    0x4034_0632_3546_3231,
    0x402a_0632_3446_3232,
    0,
    0x4020_0632_3346_3233,
    0x4016_0632_3246_3234,
    0x400c_0632_3146_3235,
    0,
    0,
    0x200d_0633_3146_3931,
    0,
    0,
    0,
    0x4033_0631_3546_3331,
    0x4029_0631_3446_3332,
    0x401f_0631_3346_3333,
    0x4015_0631_3246_3334,
    0x400b_0631_3146_3335,
    0,
    0,
    0,
    0,
    0,
    0,
    0x4032_0630_3546_3431,
    0x4028_0630_3446_3432,
    0x401e_0630_3346_3433,
    0x4014_0630_3246_3434,
    0x400a_0630_3146_3435,
    0x4004_0500_3446_3036,
    0x4003_0500_3346_3136,
    0x4002_0500_3246_3236,
    0x4001_0500_3146_3336,
    0x4000_0500_3046_3436,
    0,
    0,
    0,
    0,
    0x2009_0500_3946_3332,
    0x2008_0500_3846_3432,
    0x2007_0500_3746_3532,
    0x2006_0500_3646_3632,
    0x2005_0500_3546_3732,
    0x2004_0500_3446_3832,
    0x2003_0500_3346_3932,
    0x4040_0500_3436_4630,
    0x403f_0500_3336_4631,
    0x403e_0500_3236_4632,
    0x403d_0500_3136_4633,
    0x403c_0500_3036_4634,
    0,
    0,
    0,
    0,
    0,
    0,
    0,
    0,
    0x201d_0500_3932_4633,
    0x201c_0500_3832_4634,
    0x201b_0500_3732_4635,
    0x201a_0500_3632_4636,
    0x2019_0500_3532_4637,
    0x2018_0500_3432_4638,
    0x2017_0500_3332_4639,
    0,
    0,
    0,
    0,
    0,
    0,
    0,
    0,
    0,
    0x0808_0400_0038_4630,
    0x0807_0400_0037_4631,
    0x0806_0400_0036_4632,
    0x0805_0400_0035_4633,
    0x0804_0400_0034_4634,
    0x0803_0400_0033_4635,
    0x0802_0400_0032_4636,
    0x0801_0400_0031_4637,
    0x0800_0400_0030_4638,
    0,
    0x4031_0639_3446_3531,
    0x4027_0639_3346_3532,
    0x401d_0639_3246_3533,
    0x4013_0639_3146_3534,
    0,
    0,
    0,
    0,
    0,
    0,
    0,
    0x4030_0638_3446_3631,
    0x4026_0638_3346_3632,
    0,
    0x401c_0638_3246_3633,
    0x4012_0638_3146_3634,
    0,
    0x1009_0400_0039_4637,
    0x1008_0400_0038_4638,
    0x1007_0400_0037_4639,
    0,
    0,
    0,
    0x402f_0637_3446_3731,
    0x4025_0637_3346_3732,
    0x401b_0637_3246_3733,
    0x4011_0637_3146_3734,
    0,
    0,
    0,
    0,
    0x2016_0632_3246_3031,
    0x200c_0632_3146_3032,
    0,
    0x402e_0636_3446_3831,
    0x4024_0636_3346_3832,
    0x401a_0636_3246_3833,
    0x4010_0636_3146_3834,
    0,
    0,
    0,
    0,
    0x2015_0631_3246_3131,
];

/// Returns four bytes from index `at` on as a number, with the first byte lowest.
#[inline(always)]
pub(crate) fn four_bytes(word: &[u8], at: usize) -> u64
    requires { at + 4 ≤ length word.now }
    ensures { result ≡ get_or word.now at 0 + 256 * get_or word.now (at + 1) 0 + 65536 * get_or word.now (at + 2) 0
        + 16777216 * get_or word.now (at + 3) 0 }
{
    u64::from(u32::from_le_bytes([word[at], word[at + 1], word[at + 2], word[at + 3]]))
}

/// Returns the bytes of a word of four to six bytes as a number, with the first byte lowest.
#[inline(always)]
fn word_number(word: &[u8]) -> u64
    requires least { 4 ≤ length word.now }
    requires most { length word.now ≤ 6 }
    ensures { result ≡ number_l 256 word.now }
{
    let last = four_bytes(word, word.len() - 4);
    four_bytes(word, 0) + ((last >> (8 * (8 - word.len()))) << 32)
}

/// Returns the key of a word of four to six bytes.
#[inline(always)]
pub(crate) fn key_of(word: &[u8]) -> u64
    requires least { 4 ≤ length word.now }
    requires most { length word.now ≤ 6 }
    ensures key { result ≡ word_key word.now }
    ensures some { 0 < result }
    ensures most { result < 2 ^ 48 }
{
    (word_number(word) >> 8) + ((word.len() as u64) << 40)
}

/// Returns the entry at the index of a key.
#[inline(always)]
fn entry_at(key: u64) -> u64
    ensures sound { 0 < result → IsEntry result }
    ensures whole { (width frac : ℕ) → IsTypeFormat width frac → key ≡ word_key (counts_word width frac)
        → result ≡ key + frac * 2 ^ 48 + width * 2 ^ 56 }
{
    FORMATS[(key.wrapping_mul(MULTIPLIER) >> 56) as usize]
}

/// Returns the width and the fraction length of the formats whose words have a key. `None`: no format's word has it.
#[inline(always)]
pub(crate) fn counts_of_key(key: u64) -> Option<(u32, u32)>
    requires some { 0 < key }
    requires most { key < 2 ^ 48 }
    ensures { MatchOption result ((width frac : ℕ) → IsTypeFormat width frac → key ≡ word_key (counts_word width frac)
        → ⊥) (λ r. IsTypeFormat r.0 r.1 × (key ≡ word_key (counts_word r.0 r.1))) }
{
    let entry = entry_at(key);
    if entry % (1 << 48) == key {
        Some(((entry >> 56) as u32, ((entry >> 48) % 256) as u32))
    } else {
        None
    }
}
