//! Formats chosen at run time, and what happens to a number that is out of range.

ghost use Rattle.std.specs.Prelude.{◌≡◌, ◌↔◌, ◌≤◌, ◌<◌, ◌^◌, ◌-◌, ◌*◌, ◌/◌, ◌%◌, false, IsTrue, IsSome, IsNone};
ghost use Rattle.std.specs.Prelude.{IfSome, Option};
ghost use Rattle.fixed_bits.specs.Ranges.{IsInRange, IsOutOfRange, IsWide, lowest, greatest};
ghost use Rattle.fixed_bits.specs.Formats.{IsFormat, IsTypeFormat, whole_length};
ghost use Rattle.fixed_bits.specs.Images.{IsImage};

use crate::masks::mask;
use crate::number::{Number, greatest_magnitude, signed_number};
use std::marker::Model;

/// A sign rule, a width of 1 to 64 bits, and a fraction length of 0 to 64 bits, whatever the width. The value of bits
/// is bits / 2^frac.
#[derive(Clone, Copy, Debug, PartialEq, Eq)]
pub struct Format {
    signed: bool,
    // Each is one byte, so that a format is passed in a register.
    width: u8,
    frac: u8,
}

impl Model for Format {
    ghost use Rattle.fixed_bits.specs.Formats.{FormatParts, IsFormat};

    ghost Value = { FormatParts };

    ghost view = { λ f. record { signed = f.signed; width = f.width; frac = f.frac } };

    ghost invariant = { λ f. IsFormat f.width f.frac };

    ghost inverse = { λ s. record { signed = s.signed; width = s.width; frac = s.frac } };
}

impl Format {
    /// Returns the format with these three parts, as wide as an integer type. `None` exactly if the width isn't 8, 16,
    /// 32 or 64, or the fraction is longer than the width.
    pub fn new(signed: bool, width: u32, frac: u32) -> Option<Format>
        ensures exists { IsSome result ↔ IsTypeFormat width frac }
        ensures parts { IfSome result (λ f. (f.signed ≡ signed) × (f.width ≡ width) × (f.frac ≡ frac)) }
    {
        match width {
            8 | 16 | 32 | 64 if frac <= width => Some(Format {
                signed,
                width: width as u8,
                frac: frac as u8,
            }),
            _ => None,
        }
    }

    /// Returns the format with these three parts, of any width, and with a fraction of up to 64 bits. `None` exactly if
    /// the width isn't from 1 to 64, or the fraction is longer than 64 bits.
    pub fn of_any_width(signed: bool, width: u32, frac: u32) -> Option<Format>
        ensures exists { IsSome result ↔ IsFormat width frac }
        ensures parts { IfSome result (λ f. (f.signed ≡ signed) × (f.width ≡ width) × (f.frac ≡ frac)) }
    {
        if width > 0 && width <= 64 && frac <= 64 {
            Some(Format::of(signed, width, frac))
        } else {
            None
        }
    }

    /// Returns the format with these three parts, which must be valid.
    pub fn of(signed: bool, width: u32, frac: u32) -> Format
        requires valid { IsFormat width frac }
        ensures signed { result.signed ≡ signed }
        ensures width { result.width ≡ width }
        ensures frac { result.frac ≡ frac }
    {
        Format {
            signed,
            width: width as u8,
            frac: frac as u8,
        }
    }

    /// Whether the bits may be negative.
    pub fn signed(self) -> bool
        ensures { result ≡ self.signed }
    {
        self.signed
    }

    /// How many bits there are.
    pub fn width(self) -> u32
        ensures width { result ≡ self.width }
        ensures valid { IsFormat self.width self.frac }
    {
        u32::from(self.width)
    }

    /// The fraction length: the values are whole multiples of 2^-frac.
    pub fn frac(self) -> u32
        ensures frac { result ≡ self.frac }
        ensures valid { IsFormat self.width self.frac }
    {
        u32::from(self.frac)
    }

    /// How many bits are before the point, including the sign bit: below zero if the fraction is longer than the width.
    pub fn whole_length(self) -> i32
        ensures length { result ≡ whole_length self }
        ensures valid { IsFormat self.width self.frac }
    {
        self.width() as i32 - self.frac() as i32
    }

    /// The lowest bits, as a number.
    pub fn lowest(self) -> i128
        ensures { result ≡ lowest self.signed self.width }
    {
        signed_number(true, greatest_magnitude(self, true))
    }

    /// The greatest bits, as a number.
    pub fn greatest(self) -> i128
        ensures { result ≡ greatest self.signed self.width }
    {
        i128::from(greatest_magnitude(self, false))
    }

    /// Whether a number is in the format's range.
    pub fn contains(self, v: i128) -> bool
        ensures inside { IsTrue result ↔ IsInRange self.signed self.width v }
        ensures outside { (result ≡ false) ↔ IsOutOfRange self.signed self.width v }
        ensures wide { IsTrue result → IsWide v }
    {
        self.lowest() <= v && v <= self.greatest()
    }
}

/// What happens to a number that is out of range.
#[derive(Clone, Copy, Debug, PartialEq, Eq)]
pub enum Policy {
    /// It has no image.
    Checked,
    /// Its image is the nearer end of the range.
    Saturating,
    /// Its image is the number in range that differs from it by a multiple of two to the power of the width.
    Wrapping,
    /// Its image is the nearer end of the range without the lowest number, which itself counts as out of range. In an
    /// unsigned format, which has no number below zero, it is `Saturating`.
    Symmetric,
}

impl Policy {
    /// Returns the image of a number in a format: the number itself if it is in the policy's range. `None` exactly if
    /// it is out of range and the policy is `Checked`.
    pub fn image(self, format: Format, v: i128) -> Option<i128>
        ensures image { IfSome result (λ c. IsImage self format.signed format.width v c) }
        ensures none { IsNone result ↔ ((self ≡ Policy.Checked) × IsOutOfRange format.signed format.width v) }
        ensures range { IfSome result (λ c. IsInRange format.signed format.width c) }
        ensures wide { IfSome result IsWide }
    {
        Number::of(v).image(format, self).admitted(self)
    }
}

/// Multiplies a fraction of `bits` bits by ten. Returns the digit before the point and the remaining fraction, in the
/// same unit.
#[tactic(auto, using(std::proofs::lemmas::Nat::and_mask))]
pub fn mul10(rest: u64, bits: u32) -> (u8, u64)
    requires width { bits ≤ 64 }
    requires below { rest < 2 ^ bits }
    ensures digit { result.0 ≡ 10 * rest / 2 ^ bits }
    ensures rest { result.1 ≡ 10 * rest % 2 ^ bits }
{
    let product = 10 * (rest as u128);
    (
        (product >> bits) as u8,
        (product & mask(bits) as u128) as u64,
    )
}
