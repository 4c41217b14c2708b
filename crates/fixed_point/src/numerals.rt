//! Reading numbers from text and from bytes: 40 calls that round to the nearest ulp with ties to even, by form and
//! radix, and four that take a radix and a mode.
//!
//! A text is read as a numeral of its radix. If it is not one, each call except the strict ones returns the kind of its
//! cause, a `ParseErrorKind` other than Overflow.

ghost use Rattle.std.specs.Prelude.{◌≤◌};
ghost use Rattle.fixed_bits.specs.declared.format.Policy.TheVariants.{Saturating, Wrapping};
ghost use Rattle.fixed_bits.specs.declared.mode.ReadMode.TheVariants.{NearestEven};
ghost use Rattle.fixed_numeral.specs.Numeral.{Parts, HasNumeral};
ghost use Rattle.fixed_numeral.specs.declared.radix.Radix.TheVariants.{Bin, Oct, Dec, Hex};
ghost use Rattle.fixed_read.specs.Reading.{IsReadInRange, IsReadNumber};
ghost use Rattle.fixed_point.specs.Readings.{IsPlainReading, IsImageReading, IsOverflowingReading};

use crate::number::Fixed;
use crate::reading::{overflowing_read, read, saturating_read, strict_read, wrapping_read};
use fixed_bits::{Inner, ReadMode};
use fixed_numeral::{ParseFixedError, Radix};

/// Plain: a number out of range is refused as Overflow.
impl<I: Inner, const FRAC: u32> Fixed<I, FRAC> {
    /// Reads a decimal numeral; Overflow if the number is out of range.
    #[inline]
    pub fn from_str(src: &str) -> Result<Self, ParseFixedError>
        requires { FRAC ≤ I.BITS }
        ensures { IsPlainReading I.number NearestEven Dec src.now FRAC I.SIGNED I.BITS result }
    {
        read(src.as_bytes(), Radix::Dec, ReadMode::NearestEven)
    }

    /// Reads a binary numeral; Overflow if the number is out of range.
    #[inline]
    pub fn from_str_binary(src: &str) -> Result<Self, ParseFixedError>
        requires { FRAC ≤ I.BITS }
        ensures { IsPlainReading I.number NearestEven Bin src.now FRAC I.SIGNED I.BITS result }
    {
        read(src.as_bytes(), Radix::Bin, ReadMode::NearestEven)
    }

    /// Reads an octal numeral; Overflow if the number is out of range.
    #[inline]
    pub fn from_str_octal(src: &str) -> Result<Self, ParseFixedError>
        requires { FRAC ≤ I.BITS }
        ensures { IsPlainReading I.number NearestEven Oct src.now FRAC I.SIGNED I.BITS result }
    {
        read(src.as_bytes(), Radix::Oct, ReadMode::NearestEven)
    }

    /// Reads a hexadecimal numeral; Overflow if the number is out of range.
    #[inline]
    pub fn from_str_hex(src: &str) -> Result<Self, ParseFixedError>
        requires { FRAC ≤ I.BITS }
        ensures { IsPlainReading I.number NearestEven Hex src.now FRAC I.SIGNED I.BITS result }
    {
        read(src.as_bytes(), Radix::Hex, ReadMode::NearestEven)
    }

    /// Reads a decimal numeral; Overflow if the number is out of range.
    #[inline]
    pub fn from_ascii(src: &[u8]) -> Result<Self, ParseFixedError>
        requires { FRAC ≤ I.BITS }
        ensures { IsPlainReading I.number NearestEven Dec src.now FRAC I.SIGNED I.BITS result }
    {
        read(src, Radix::Dec, ReadMode::NearestEven)
    }

    /// Reads a binary numeral; Overflow if the number is out of range.
    #[inline]
    pub fn from_ascii_binary(src: &[u8]) -> Result<Self, ParseFixedError>
        requires { FRAC ≤ I.BITS }
        ensures { IsPlainReading I.number NearestEven Bin src.now FRAC I.SIGNED I.BITS result }
    {
        read(src, Radix::Bin, ReadMode::NearestEven)
    }

    /// Reads an octal numeral; Overflow if the number is out of range.
    #[inline]
    pub fn from_ascii_octal(src: &[u8]) -> Result<Self, ParseFixedError>
        requires { FRAC ≤ I.BITS }
        ensures { IsPlainReading I.number NearestEven Oct src.now FRAC I.SIGNED I.BITS result }
    {
        read(src, Radix::Oct, ReadMode::NearestEven)
    }

    /// Reads a hexadecimal numeral; Overflow if the number is out of range.
    #[inline]
    pub fn from_ascii_hex(src: &[u8]) -> Result<Self, ParseFixedError>
        requires { FRAC ≤ I.BITS }
        ensures { IsPlainReading I.number NearestEven Hex src.now FRAC I.SIGNED I.BITS result }
    {
        read(src, Radix::Hex, ReadMode::NearestEven)
    }
}

/// Saturating: a number out of range becomes the nearer end of the range.
impl<I: Inner, const FRAC: u32> Fixed<I, FRAC> {
    /// Reads a decimal numeral; a number out of range becomes the nearer end.
    #[inline]
    pub fn saturating_from_str(src: &str) -> Result<Self, ParseFixedError>
        requires { FRAC ≤ I.BITS }
        ensures { IsImageReading I.number Saturating NearestEven Dec src.now FRAC I.SIGNED I.BITS result }
    {
        saturating_read(src.as_bytes(), Radix::Dec, ReadMode::NearestEven)
    }

    /// Reads a binary numeral; a number out of range becomes the nearer end.
    #[inline]
    pub fn saturating_from_str_binary(src: &str) -> Result<Self, ParseFixedError>
        requires { FRAC ≤ I.BITS }
        ensures { IsImageReading I.number Saturating NearestEven Bin src.now FRAC I.SIGNED I.BITS result }
    {
        saturating_read(src.as_bytes(), Radix::Bin, ReadMode::NearestEven)
    }

    /// Reads an octal numeral; a number out of range becomes the nearer end.
    #[inline]
    pub fn saturating_from_str_octal(src: &str) -> Result<Self, ParseFixedError>
        requires { FRAC ≤ I.BITS }
        ensures { IsImageReading I.number Saturating NearestEven Oct src.now FRAC I.SIGNED I.BITS result }
    {
        saturating_read(src.as_bytes(), Radix::Oct, ReadMode::NearestEven)
    }

    /// Reads a hexadecimal numeral; a number out of range becomes the nearer end.
    #[inline]
    pub fn saturating_from_str_hex(src: &str) -> Result<Self, ParseFixedError>
        requires { FRAC ≤ I.BITS }
        ensures { IsImageReading I.number Saturating NearestEven Hex src.now FRAC I.SIGNED I.BITS result }
    {
        saturating_read(src.as_bytes(), Radix::Hex, ReadMode::NearestEven)
    }

    /// Reads a decimal numeral; a number out of range becomes the nearer end.
    #[inline]
    pub fn saturating_from_ascii(src: &[u8]) -> Result<Self, ParseFixedError>
        requires { FRAC ≤ I.BITS }
        ensures { IsImageReading I.number Saturating NearestEven Dec src.now FRAC I.SIGNED I.BITS result }
    {
        saturating_read(src, Radix::Dec, ReadMode::NearestEven)
    }

    /// Reads a binary numeral; a number out of range becomes the nearer end.
    #[inline]
    pub fn saturating_from_ascii_binary(src: &[u8]) -> Result<Self, ParseFixedError>
        requires { FRAC ≤ I.BITS }
        ensures { IsImageReading I.number Saturating NearestEven Bin src.now FRAC I.SIGNED I.BITS result }
    {
        saturating_read(src, Radix::Bin, ReadMode::NearestEven)
    }

    /// Reads an octal numeral; a number out of range becomes the nearer end.
    #[inline]
    pub fn saturating_from_ascii_octal(src: &[u8]) -> Result<Self, ParseFixedError>
        requires { FRAC ≤ I.BITS }
        ensures { IsImageReading I.number Saturating NearestEven Oct src.now FRAC I.SIGNED I.BITS result }
    {
        saturating_read(src, Radix::Oct, ReadMode::NearestEven)
    }

    /// Reads a hexadecimal numeral; a number out of range becomes the nearer end.
    #[inline]
    pub fn saturating_from_ascii_hex(src: &[u8]) -> Result<Self, ParseFixedError>
        requires { FRAC ≤ I.BITS }
        ensures { IsImageReading I.number Saturating NearestEven Hex src.now FRAC I.SIGNED I.BITS result }
    {
        saturating_read(src, Radix::Hex, ReadMode::NearestEven)
    }
}

/// Wrapping: the bits of a number out of range are reduced modulo two to the power of the width.
impl<I: Inner, const FRAC: u32> Fixed<I, FRAC> {
    /// Reads a decimal numeral; the bits of a number out of range wrap around.
    #[inline]
    pub fn wrapping_from_str(src: &str) -> Result<Self, ParseFixedError>
        requires { FRAC ≤ I.BITS }
        ensures { IsImageReading I.number Wrapping NearestEven Dec src.now FRAC I.SIGNED I.BITS result }
    {
        wrapping_read(src.as_bytes(), Radix::Dec, ReadMode::NearestEven)
    }

    /// Reads a binary numeral; the bits of a number out of range wrap around.
    #[inline]
    pub fn wrapping_from_str_binary(src: &str) -> Result<Self, ParseFixedError>
        requires { FRAC ≤ I.BITS }
        ensures { IsImageReading I.number Wrapping NearestEven Bin src.now FRAC I.SIGNED I.BITS result }
    {
        wrapping_read(src.as_bytes(), Radix::Bin, ReadMode::NearestEven)
    }

    /// Reads an octal numeral; the bits of a number out of range wrap around.
    #[inline]
    pub fn wrapping_from_str_octal(src: &str) -> Result<Self, ParseFixedError>
        requires { FRAC ≤ I.BITS }
        ensures { IsImageReading I.number Wrapping NearestEven Oct src.now FRAC I.SIGNED I.BITS result }
    {
        wrapping_read(src.as_bytes(), Radix::Oct, ReadMode::NearestEven)
    }

    /// Reads a hexadecimal numeral; the bits of a number out of range wrap around.
    #[inline]
    pub fn wrapping_from_str_hex(src: &str) -> Result<Self, ParseFixedError>
        requires { FRAC ≤ I.BITS }
        ensures { IsImageReading I.number Wrapping NearestEven Hex src.now FRAC I.SIGNED I.BITS result }
    {
        wrapping_read(src.as_bytes(), Radix::Hex, ReadMode::NearestEven)
    }

    /// Reads a decimal numeral; the bits of a number out of range wrap around.
    #[inline]
    pub fn wrapping_from_ascii(src: &[u8]) -> Result<Self, ParseFixedError>
        requires { FRAC ≤ I.BITS }
        ensures { IsImageReading I.number Wrapping NearestEven Dec src.now FRAC I.SIGNED I.BITS result }
    {
        wrapping_read(src, Radix::Dec, ReadMode::NearestEven)
    }

    /// Reads a binary numeral; the bits of a number out of range wrap around.
    #[inline]
    pub fn wrapping_from_ascii_binary(src: &[u8]) -> Result<Self, ParseFixedError>
        requires { FRAC ≤ I.BITS }
        ensures { IsImageReading I.number Wrapping NearestEven Bin src.now FRAC I.SIGNED I.BITS result }
    {
        wrapping_read(src, Radix::Bin, ReadMode::NearestEven)
    }

    /// Reads an octal numeral; the bits of a number out of range wrap around.
    #[inline]
    pub fn wrapping_from_ascii_octal(src: &[u8]) -> Result<Self, ParseFixedError>
        requires { FRAC ≤ I.BITS }
        ensures { IsImageReading I.number Wrapping NearestEven Oct src.now FRAC I.SIGNED I.BITS result }
    {
        wrapping_read(src, Radix::Oct, ReadMode::NearestEven)
    }

    /// Reads a hexadecimal numeral; the bits of a number out of range wrap around.
    #[inline]
    pub fn wrapping_from_ascii_hex(src: &[u8]) -> Result<Self, ParseFixedError>
        requires { FRAC ≤ I.BITS }
        ensures { IsImageReading I.number Wrapping NearestEven Hex src.now FRAC I.SIGNED I.BITS result }
    {
        wrapping_read(src, Radix::Hex, ReadMode::NearestEven)
    }
}

/// Overflowing: the Wrapping image, and whether the number is out of range.
impl<I: Inner, const FRAC: u32> Fixed<I, FRAC> {
    /// Reads a decimal numeral. Returns the Wrapping image, and whether the number is out of range.
    #[inline]
    pub fn overflowing_from_str(src: &str) -> Result<(Self, bool), ParseFixedError>
        requires { FRAC ≤ I.BITS }
        ensures { IsOverflowingReading I.number NearestEven Dec src.now FRAC I.SIGNED I.BITS result }
    {
        overflowing_read(src.as_bytes(), Radix::Dec, ReadMode::NearestEven)
    }

    /// Reads a binary numeral. Returns the Wrapping image, and whether the number is out of range.
    #[inline]
    pub fn overflowing_from_str_binary(src: &str) -> Result<(Self, bool), ParseFixedError>
        requires { FRAC ≤ I.BITS }
        ensures { IsOverflowingReading I.number NearestEven Bin src.now FRAC I.SIGNED I.BITS result }
    {
        overflowing_read(src.as_bytes(), Radix::Bin, ReadMode::NearestEven)
    }

    /// Reads an octal numeral. Returns the Wrapping image, and whether the number is out of range.
    #[inline]
    pub fn overflowing_from_str_octal(src: &str) -> Result<(Self, bool), ParseFixedError>
        requires { FRAC ≤ I.BITS }
        ensures { IsOverflowingReading I.number NearestEven Oct src.now FRAC I.SIGNED I.BITS result }
    {
        overflowing_read(src.as_bytes(), Radix::Oct, ReadMode::NearestEven)
    }

    /// Reads a hexadecimal numeral. Returns the Wrapping image, and whether the number is out of range.
    #[inline]
    pub fn overflowing_from_str_hex(src: &str) -> Result<(Self, bool), ParseFixedError>
        requires { FRAC ≤ I.BITS }
        ensures { IsOverflowingReading I.number NearestEven Hex src.now FRAC I.SIGNED I.BITS result }
    {
        overflowing_read(src.as_bytes(), Radix::Hex, ReadMode::NearestEven)
    }

    /// Reads a decimal numeral. Returns the Wrapping image, and whether the number is out of range.
    #[inline]
    pub fn overflowing_from_ascii(src: &[u8]) -> Result<(Self, bool), ParseFixedError>
        requires { FRAC ≤ I.BITS }
        ensures { IsOverflowingReading I.number NearestEven Dec src.now FRAC I.SIGNED I.BITS result }
    {
        overflowing_read(src, Radix::Dec, ReadMode::NearestEven)
    }

    /// Reads a binary numeral. Returns the Wrapping image, and whether the number is out of range.
    #[inline]
    pub fn overflowing_from_ascii_binary(src: &[u8]) -> Result<(Self, bool), ParseFixedError>
        requires { FRAC ≤ I.BITS }
        ensures { IsOverflowingReading I.number NearestEven Bin src.now FRAC I.SIGNED I.BITS result }
    {
        overflowing_read(src, Radix::Bin, ReadMode::NearestEven)
    }

    /// Reads an octal numeral. Returns the Wrapping image, and whether the number is out of range.
    #[inline]
    pub fn overflowing_from_ascii_octal(src: &[u8]) -> Result<(Self, bool), ParseFixedError>
        requires { FRAC ≤ I.BITS }
        ensures { IsOverflowingReading I.number NearestEven Oct src.now FRAC I.SIGNED I.BITS result }
    {
        overflowing_read(src, Radix::Oct, ReadMode::NearestEven)
    }

    /// Reads a hexadecimal numeral. Returns the Wrapping image, and whether the number is out of range.
    #[inline]
    pub fn overflowing_from_ascii_hex(src: &[u8]) -> Result<(Self, bool), ParseFixedError>
        requires { FRAC ≤ I.BITS }
        ensures { IsOverflowingReading I.number NearestEven Hex src.now FRAC I.SIGNED I.BITS result }
    {
        overflowing_read(src, Radix::Hex, ReadMode::NearestEven)
    }
}

/// Strict: the text must be a numeral whose number is in range.
impl<I: Inner, const FRAC: u32> Fixed<I, FRAC> {
    /// Reads a text that must be a decimal numeral with a number in range.
    #[inline]
    pub fn strict_from_str(src: &str) -> Self
        requires frac { FRAC ≤ I.BITS }
        requires fits { IsReadInRange NearestEven Dec (HasNumeral Dec src.now) FRAC I.SIGNED I.BITS }
        ensures { (p : Parts) → HasNumeral Dec src.now p → IsReadNumber NearestEven Dec p FRAC (I.number result) }
    {
        strict_read(src.as_bytes(), Radix::Dec)
    }

    /// Reads a text that must be a binary numeral with a number in range.
    #[inline]
    pub fn strict_from_str_binary(src: &str) -> Self
        requires frac { FRAC ≤ I.BITS }
        requires fits { IsReadInRange NearestEven Bin (HasNumeral Bin src.now) FRAC I.SIGNED I.BITS }
        ensures { (p : Parts) → HasNumeral Bin src.now p → IsReadNumber NearestEven Bin p FRAC (I.number result) }
    {
        strict_read(src.as_bytes(), Radix::Bin)
    }

    /// Reads a text that must be an octal numeral with a number in range.
    #[inline]
    pub fn strict_from_str_octal(src: &str) -> Self
        requires frac { FRAC ≤ I.BITS }
        requires fits { IsReadInRange NearestEven Oct (HasNumeral Oct src.now) FRAC I.SIGNED I.BITS }
        ensures { (p : Parts) → HasNumeral Oct src.now p → IsReadNumber NearestEven Oct p FRAC (I.number result) }
    {
        strict_read(src.as_bytes(), Radix::Oct)
    }

    /// Reads a text that must be a hexadecimal numeral with a number in range.
    #[inline]
    pub fn strict_from_str_hex(src: &str) -> Self
        requires frac { FRAC ≤ I.BITS }
        requires fits { IsReadInRange NearestEven Hex (HasNumeral Hex src.now) FRAC I.SIGNED I.BITS }
        ensures { (p : Parts) → HasNumeral Hex src.now p → IsReadNumber NearestEven Hex p FRAC (I.number result) }
    {
        strict_read(src.as_bytes(), Radix::Hex)
    }

    /// Reads a text that must be a decimal numeral with a number in range.
    #[inline]
    pub fn strict_from_ascii(src: &[u8]) -> Self
        requires frac { FRAC ≤ I.BITS }
        requires fits { IsReadInRange NearestEven Dec (HasNumeral Dec src.now) FRAC I.SIGNED I.BITS }
        ensures { (p : Parts) → HasNumeral Dec src.now p → IsReadNumber NearestEven Dec p FRAC (I.number result) }
    {
        strict_read(src, Radix::Dec)
    }

    /// Reads a text that must be a binary numeral with a number in range.
    #[inline]
    pub fn strict_from_ascii_binary(src: &[u8]) -> Self
        requires frac { FRAC ≤ I.BITS }
        requires fits { IsReadInRange NearestEven Bin (HasNumeral Bin src.now) FRAC I.SIGNED I.BITS }
        ensures { (p : Parts) → HasNumeral Bin src.now p → IsReadNumber NearestEven Bin p FRAC (I.number result) }
    {
        strict_read(src, Radix::Bin)
    }

    /// Reads a text that must be an octal numeral with a number in range.
    #[inline]
    pub fn strict_from_ascii_octal(src: &[u8]) -> Self
        requires frac { FRAC ≤ I.BITS }
        requires fits { IsReadInRange NearestEven Oct (HasNumeral Oct src.now) FRAC I.SIGNED I.BITS }
        ensures { (p : Parts) → HasNumeral Oct src.now p → IsReadNumber NearestEven Oct p FRAC (I.number result) }
    {
        strict_read(src, Radix::Oct)
    }

    /// Reads a text that must be a hexadecimal numeral with a number in range.
    #[inline]
    pub fn strict_from_ascii_hex(src: &[u8]) -> Self
        requires frac { FRAC ≤ I.BITS }
        requires fits { IsReadInRange NearestEven Hex (HasNumeral Hex src.now) FRAC I.SIGNED I.BITS }
        ensures { (p : Parts) → HasNumeral Hex src.now p → IsReadNumber NearestEven Hex p FRAC (I.number result) }
    {
        strict_read(src, Radix::Hex)
    }
}

/// With the caller's radix and rounding mode.
impl<I: Inner, const FRAC: u32> Fixed<I, FRAC> {
    /// Reads a numeral in a mode. Returns the Wrapping image, and whether the number is out of range.
    #[inline]
    pub fn overflowing_from_ascii_mode(
        src: &[u8],
        radix: Radix,
        mode: ReadMode,
    ) -> Result<(Self, bool), ParseFixedError>
        requires { FRAC ≤ I.BITS }
        ensures { IsOverflowingReading I.number mode radix src.now FRAC I.SIGNED I.BITS result }
    {
        overflowing_read(src, radix, mode)
    }

    /// Reads a numeral in a mode; the bits of a number out of range wrap around.
    #[inline]
    pub fn wrapping_from_ascii_mode(
        src: &[u8],
        radix: Radix,
        mode: ReadMode,
    ) -> Result<Self, ParseFixedError>
        requires { FRAC ≤ I.BITS }
        ensures { IsImageReading I.number Wrapping mode radix src.now FRAC I.SIGNED I.BITS result }
    {
        wrapping_read(src, radix, mode)
    }

    /// Reads a numeral in a mode; a number out of range becomes the nearer end.
    #[inline]
    pub fn saturating_from_ascii_mode(
        src: &[u8],
        radix: Radix,
        mode: ReadMode,
    ) -> Result<Self, ParseFixedError>
        requires { FRAC ≤ I.BITS }
        ensures { IsImageReading I.number Saturating mode radix src.now FRAC I.SIGNED I.BITS result }
    {
        saturating_read(src, radix, mode)
    }

    /// Reads a numeral in a mode; Overflow if the number is out of range.
    #[inline]
    pub fn from_ascii_mode(
        src: &[u8],
        radix: Radix,
        mode: ReadMode,
    ) -> Result<Self, ParseFixedError>
        requires { FRAC ≤ I.BITS }
        ensures { IsPlainReading I.number mode radix src.now FRAC I.SIGNED I.BITS result }
    {
        read(src, radix, mode)
    }
}
