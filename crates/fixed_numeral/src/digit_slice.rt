//! A slice of a text as digits.

ghost use Rattle.std.specs.Prelude.{◌≡◌, ◌+◌, ◌*◌, ◌^◌, ◌<◌, ◌≤◌, [], ◌∷◌, nat_lt, length, take, drop, MatchOption};
ghost use Rattle.std.specs.Int.Digits.{AllBelowBase, number_from_digits, number_from_digits_after};
ghost use Rattle.fixed_numeral.specs.Inner.MovedPoint.{IsWithoutLeading, IsWithoutTrailing};
ghost use Rattle.std.specs.Char.{digit_value};
ghost use Rattle.fixed_numeral.specs.Digits.{digits_in};

use crate::swar::long_number;
use std::marker::Model;

/// The digits of a slice and their count. Other bytes of the slice are skipped.
#[derive(Drop)]
pub struct DigitSlice<'a> {
    bytes: &'a [u8],
    count: u64,
}

impl<'a> Model for DigitSlice<'a> {
    ghost use Rattle.std.specs.Prelude.{◌≡◌, List, ℕ, length};
    ghost use Rattle.fixed_numeral.specs.Digits.{digits_in};

    ghost Value = { List ℕ };

    ghost view = { λ p. digits_in p.bytes.now };

    ghost invariant = { λ p. p.count ≡ length (digits_in p.bytes.now) };
}

/// Whether the byte is a digit of radix 16.
pub(crate) fn is_digit(b: u8) -> bool
    ensures { result ≡ nat_lt (digit_value b) 16 }
{
    match b {
        b'0'..=b'9' | b'a'..=b'f' | b'A'..=b'F' => true,
        _ => false,
    }
}

/// Returns the value of a digit of radix 16. The low half of a letter's byte is 9 less than its value.
#[tactic(auto, using(crate::proofs::ByteLemmas::value_is))]
pub(crate) fn value_of_digit(b: u8) -> u8
    requires { digit_value b < 16 }
    ensures { result ≡ digit_value b }
{
    b % 16 + b / 64 * 9
}

/// Returns the value of a byte, if it is a digit.
fn digit_of_byte(b: u8) -> Option<u8>
    ensures { MatchOption result (16 ≤ digit_value b) (λ d. (d ≡ digit_value b) × (d < 16)) }
{
    if is_digit(b) {
        Some(value_of_digit(b))
    } else {
        None
    }
}

/// Returns the number that the digits of `start` and then `bytes` spell in a base. Each byte is a digit.
fn plain_number(bytes: &[u8], base: u64, start: u64) -> u64
    requires plain { length (digits_in bytes.now) ≡ length bytes.now }
    requires digits { AllBelowBase base (digits_in bytes.now) }
    requires least { 2 ≤ base }
    requires most { base ≤ 16 }
    requires room { (start + 1) * base ^ length (digits_in bytes.now) ≤ 2 ^ 64 }
    ensures { result ≡ number_from_digits_after base start (digits_in bytes.now) }
{
    let mut number = start;
    for b in bytes {
        number = number * base + u64::from(value_of_digit(*b));
    }
    number
}

/// Returns the number that bytes spell in a base. Each byte is a digit.
#[inline(always)]
fn whole_number(bytes: &[u8], base: u64) -> u64
    requires plain { length (digits_in bytes.now) ≡ length bytes.now }
    requires digits { AllBelowBase base (digits_in bytes.now) }
    requires least { 2 ≤ base }
    requires most { base ≤ 16 }
    requires room { base ^ length (digits_in bytes.now) ≤ 2 ^ 64 }
    ensures { result ≡ number_from_digits base (digits_in bytes.now) }
{
    if bytes.len() >= 8 {
        long_number(bytes, base)
    } else {
        plain_number(bytes, base, 0)
    }
}

/// Returns the number that the digits of `start` and then the digits in `bytes` spell in a base.
fn mixed_number(bytes: &[u8], base: u64, start: u64) -> u64
    requires digits { AllBelowBase base (digits_in bytes.now) }
    requires least { 2 ≤ base }
    requires most { base ≤ 16 }
    requires room { (start + 1) * base ^ length (digits_in bytes.now) ≤ 2 ^ 64 }
    ensures { result ≡ number_from_digits_after base start (digits_in bytes.now) }
{
    let mut number = start;
    for b in bytes {
        if is_digit(*b) {
            number = number * base + u64::from(value_of_digit(*b));
        }
    }
    number
}

impl<'a> DigitSlice<'a> {
    /// Returns no digits.
    #[tactic(auto, using(crate::proofs::DigitLemmas::digits_in_none))]
    pub fn none() -> DigitSlice<'a>
        ensures { result ≡ [] }
    {
        DigitSlice {
            bytes: &[],
            count: 0,
        }
    }

    /// Returns the digits of a slice, which has `count` digits.
    pub fn of(bytes: &'a [u8], count: u64) -> DigitSlice<'a>
        requires { count ≡ length (digits_in bytes.now) }
        ensures { result ≡ digits_in bytes.now }
    {
        DigitSlice { bytes, count }
    }

    /// Returns the first `i` digits of a slice, and the bytes after them.
    #[tactic(auto, using(crate::proofs::DigitLemmas::back_is, crate::proofs::DigitLemmas::prefix_is))]
    pub fn split_at_digit(bytes: &'a [u8], i: u64) -> (DigitSlice<'a>, &'a [u8])
        requires { i ≤ length (digits_in bytes.now) }
        ensures prefix { result.0 ≡ take i (digits_in bytes.now) }
        ensures back { digits_in result.1.now ≡ drop i (digits_in bytes.now) }
    {
        let place = byte_index_by_search(bytes, i);
        let prefix = &bytes[..place];
        let back = &bytes[place..];
        (
            DigitSlice {
                bytes: prefix,
                count: i,
            },
            back,
        )
    }

    /// Returns the same digits.
    #[inline]
    pub fn same(&self) -> DigitSlice<'a>
        ensures { result ≡ self.now }
    {
        DigitSlice {
            bytes: self.bytes,
            count: self.count,
        }
    }

    #[inline]
    pub fn len(&self) -> u64
        ensures { result ≡ length self.now }
    {
        self.count
    }

    /// Returns the first digit and the others.
    pub fn first(&self) -> Option<(u8, DigitSlice<'a>)>
        ensures { MatchOption result (self.now ≡ []) (λ r. (self.now ≡ r.0 ∷ r.1) × (r.0 < 16)) }
    {
        let bytes = self.bytes;
        for (i, b) in bytes.iter().enumerate() {
            if let Some(d) = digit_of_byte(*b) {
                let rest = &bytes[i + 1..];
                return Some((
                    d,
                    DigitSlice {
                        bytes: rest,
                        count: self.count - 1,
                    },
                ));
            }
        }
        None
    }

    /// Returns the digits without leading zeros.
    #[inline(always)]
    pub fn without_leading(&self) -> DigitSlice<'a>
        ensures { IsWithoutLeading self.now result }
    {
        let bytes = self.bytes;
        let mut zeros: u64 = 0;
        for (i, b) in bytes.iter().enumerate() {
            if *b == b'0' {
                zeros += 1;
            } else if is_digit(*b) {
                let rest = &bytes[i..];
                return DigitSlice {
                    bytes: rest,
                    count: self.count - zeros,
                };
            }
        }
        DigitSlice::none()
    }

    /// Returns the digits without trailing zeros.
    #[inline(always)]
    pub fn without_trailing(&self) -> DigitSlice<'a>
        ensures { IsWithoutTrailing self.now result }
    {
        let bytes = self.bytes;
        let mut zeros: u64 = 0;
        let mut end = bytes.len();
        while end > 0 {
            let b = bytes[end - 1];
            if b == b'0' {
                zeros += 1;
            } else if is_digit(b) {
                let rest = &bytes[..end];
                return DigitSlice {
                    bytes: rest,
                    count: self.count - zeros,
                };
            }
            end -= 1;
        }
        DigitSlice::none()
    }

    /// Returns the number that the digits of `start` and then these digits spell in a base.
    #[inline(always)]
    pub fn number_onto(&self, base: u64, start: u64) -> u64
        requires digits { AllBelowBase base self.now }
        requires least { 2 ≤ base }
        requires most { base ≤ 16 }
        requires room { (start + 1) * base ^ length self.now ≤ 2 ^ 64 }
        ensures { result ≡ number_from_digits_after base start self.now }
    {
        let bytes = self.bytes;
        if self.count != bytes.len() as u64 {
            mixed_number(bytes, base, start)
        } else {
            plain_number(bytes, base, start)
        }
    }

    /// Returns the number that the first `i` digits spell in a base.
    #[inline(always)]
    pub fn prefix_number(&self, base: u64, i: u64) -> u64
        requires within { i ≤ length self.now }
        requires digits { AllBelowBase base self.now }
        requires least { 2 ≤ base }
        requires most { base ≤ 16 }
        requires room { base ^ i ≤ 2 ^ 64 }
        ensures { result ≡ number_from_digits base (take i self.now) }
    {
        let bytes = self.bytes;
        if self.count != bytes.len() as u64 {
            return mixed_number(&bytes[..byte_index_by_search(bytes, i)], base, 0);
        }
        whole_number(&bytes[..i as usize], base)
    }

    /// Returns the digits after the first `i`.
    #[inline(always)]
    pub fn suffix(&self, i: u64) -> DigitSlice<'a>
        requires { i ≤ length self.now }
        ensures { result ≡ drop i self.now }
    {
        let bytes = self.bytes;
        let place = byte_index(bytes, self.count, i);
        let back = &bytes[place..];
        DigitSlice {
            bytes: back,
            count: self.count - i,
        }
    }

    /// Returns the first `i` digits and the others.
    #[inline]
    pub fn split_at(&self, i: u64) -> (DigitSlice<'a>, DigitSlice<'a>)
        requires { i ≤ length self.now }
        ensures prefix { result.0 ≡ take i self.now }
        ensures back { result.1 ≡ drop i self.now }
    {
        let bytes = self.bytes;
        let place = byte_index(bytes, self.count, i);
        let prefix = &bytes[..place];
        let back = &bytes[place..];
        (
            DigitSlice {
                bytes: prefix,
                count: i,
            },
            DigitSlice {
                bytes: back,
                count: self.count - i,
            },
        )
    }
}

/// Returns the index with `i` digits before it, in bytes that hold `count` digits.
#[tactic(auto, using(crate::proofs::DigitLemmas::all_counted))]
#[inline(always)]
fn byte_index(bytes: &[u8], count: u64, i: u64) -> usize
    requires count { count ≡ length (digits_in bytes.now) }
    requires within { i ≤ count }
    ensures within { result ≤ length bytes.now }
    ensures digits { length (digits_in (take result bytes.now)) ≡ i }
{
    if count == bytes.len() as u64 {
        return i as usize;
    }
    byte_index_by_search(bytes, i)
}

/// Finds the index with `i` digits before it by reading the bytes.
fn byte_index_by_search(bytes: &[u8], i: u64) -> usize
    requires { i ≤ length (digits_in bytes.now) }
    ensures within { result ≤ length bytes.now }
    ensures digits { length (digits_in (take result bytes.now)) ≡ i }
{
    let mut seen: u64 = 0;
    for (k, b) in bytes.iter().enumerate() {
        if seen == i {
            return k;
        }
        if digit_of_byte(*b).is_some() {
            seen += 1;
        }
    }
    bytes.len()
}
