//! Numbers on their way to a format, by sign and magnitude.
//!
//! A number in a format's range has a magnitude of at most 64 bits; one that was read, or moved to another fraction
//! length, may have more. Whether it is in range, and what its image is, depends only on three things: its sign, the
//! lowest 64 bits of its magnitude, and whether there are more. These stay in registers, while a signed number of 128
//! bits takes two of them and two instructions for each step.

ghost use Rattle.std.specs.Prelude.{◌≡◌, ◌↔◌, ◌⊎◌, ◌≤◌, ◌<◌, ◌-◌, ◌*◌, ◌^◌, ◌%◌, ◌/◌, ℤ, IsTrue, IsNone, IfSome};
ghost use Rattle.std.specs.Prelude.{if◌then◌else◌};
ghost use Rattle.std.specs.Int.{is_negative};
ghost use Rattle.fixed_bits.specs.Down.{IsDown, down};
ghost use Rattle.fixed_bits.specs.Formats.{IsFormat};
ghost use Rattle.fixed_bits.specs.Images.{IsOutOfRangeBy, IsWrapped};
ghost use Rattle.fixed_bits.specs.Numbers.{IsImageUnlessRefused, IsNumber, IsRefused, greatest_magnitude};
ghost use Rattle.fixed_bits.specs.Numbers.{greatest_magnitude_by, number_of_image, with_sign};
ghost use Rattle.fixed_bits.specs.Ranges.{IsInRange, IsOutOfRange, IsWide};

use crate::format::{Format, Policy};

/// A number that may be out of a format's range: its sign, the lowest 64 bits of its magnitude, and whether there are
/// more.
#[derive(Clone, Copy, Debug, PartialEq, Eq)]
pub struct Number {
    pub low: u64,
    pub negative: bool,
    pub has_high_bits: bool,
}

/// The image of a number in a format by its sign and magnitude, and whether the number was out of the policy's range.
#[derive(Clone, Copy, Debug, PartialEq, Eq)]
pub struct Image {
    pub magnitude: u64,
    pub negative: bool,
    pub is_out_of_range: bool,
}

impl Number {
    /// Returns the number with this sign and magnitude.
    #[inline(always)]
    pub fn new(negative: bool, magnitude: u128) -> Number
        ensures value { IsNumber result (with_sign negative magnitude) }
        ensures sign { result.negative ≡ negative }
    {
        Number {
            negative,
            low: (magnitude % (1 << 64)) as u64,
            has_high_bits: magnitude >= 1 << 64,
        }
    }

    /// Returns the number `v`. Zero has no minus.
    #[inline(always)]
    pub fn of(v: i128) -> Number
        ensures value { IsNumber result v }
        ensures sign { result.negative ≡ is_negative v }
    {
        Number::new(v < 0, v.unsigned_abs())
    }

    /// Whether the number is out of a format's range.
    #[inline(always)]
    pub fn is_out_of_range(self, format: Format) -> bool
        ensures range { (v : ℤ) → IsNumber self v → IsTrue result ↔ IsOutOfRange format.signed format.width v }
        ensures valid { IsFormat format.width format.frac }
    {
        self.is_above(greatest_magnitude(format, self.negative))
    }

    /// Whether the number is out of the policy's part of a format's range.
    #[inline(always)]
    pub fn is_out_of_range_by(self, format: Format, policy: Policy) -> bool
        ensures range { (v : ℤ) → IsNumber self v
            → IsTrue result ↔ IsOutOfRangeBy policy format.signed format.width v }
        ensures valid { IsFormat format.width format.frac }
    {
        self.is_above(greatest_magnitude_by(format, policy, self.negative))
    }

    /// Whether the number's magnitude is above a limit.
    #[inline(always)]
    fn is_above(self, limit: u64) -> bool
        ensures { IsTrue result ↔ (IsTrue self.has_high_bits ⊎ (limit < self.low)) }
    {
        self.has_high_bits || self.low > limit
    }

    /// Returns the image of the number in a format, and whether the number is out of the policy's range. If it is, and
    /// the policy refuses it, there is no image, and any number in range is returned for it. All images are computed
    /// and one is chosen: whether a number is in range, and by which policy it is brought there, changes from line to
    /// line, and a branch on it is mispredicted.
    #[inline(always)]
    pub fn image(self, format: Format, policy: Policy) -> Image
        ensures image { (v : ℤ) → IsNumber self v → IsImageUnlessRefused policy format v result }
        ensures flag { (v : ℤ) → IsNumber self v
            → IsTrue result.is_out_of_range ↔ IsOutOfRangeBy policy format.signed format.width v }
        ensures range { IsInRange format.signed format.width (number_of_image result) }
        ensures valid { IsFormat format.width format.frac }
    {
        let end = greatest_magnitude_by(format, policy, self.negative);
        let is_out_of_range = self.is_above(end);
        let (negative, magnitude) = wrapped(format, self.negative, self.low);
        let is_end = is_at_end(policy, is_out_of_range);
        Image {
            negative: choice(is_end, self.negative, negative),
            magnitude: choice(is_end, end, magnitude),
            is_out_of_range,
        }
    }
}

impl Image {
    /// The image as a number.
    #[inline(always)]
    pub fn number(self) -> i128
        ensures { result ≡ number_of_image self }
    {
        signed_number(self.negative, self.magnitude)
    }

    /// The image as a number, or `None` if the policy refuses the number.
    #[inline(always)]
    pub fn admitted(self, policy: Policy) -> Option<i128>
        ensures image { IfSome result (λ c. ¬ IsRefused policy self.is_out_of_range × (c ≡ number_of_image self)) }
        ensures none { IsNone result ↔ IsRefused policy self.is_out_of_range }
    {
        if is_refused(policy, self.is_out_of_range, false) {
            None
        } else {
            Some(self.number())
        }
    }
}

/// Returns the number with this sign and magnitude.
#[inline(always)]
pub fn signed_number(negative: bool, magnitude: u64) -> i128
    ensures { result ≡ with_sign negative magnitude }
{
    if negative {
        -i128::from(magnitude)
    } else {
        i128::from(magnitude)
    }
}

/// Returns whether a number is negative, and its magnitude.
#[inline(always)]
pub fn sign_and_magnitude(v: i128) -> (bool, u64)
    requires { IsWide v }
    ensures value { with_sign result.0 result.1 ≡ v }
    ensures sign { result.0 ≡ is_negative v }
{
    (v < 0, v.unsigned_abs() as u64)
}

/// Returns a number of as many ones as a format has bits.
#[inline(always)]
fn ones(format: Format) -> u64
    ensures ones { result ≡ 2 ^ format.width - 1 }
    ensures valid { IsFormat format.width format.frac }
{
    u64::MAX >> (64 - format.width())
}

/// Returns the greatest magnitude of a format's numbers with this sign.
#[inline(always)]
pub(crate) fn greatest_magnitude(format: Format, negative: bool) -> u64
    ensures magnitude { result ≡ greatest_magnitude format.signed negative format.width }
    ensures valid { IsFormat format.width format.frac }
{
    let ones = ones(format);
    if format.signed() {
        (ones >> 1) + u64::from(negative)
    } else if negative {
        0
    } else {
        ones
    }
}

/// Returns the greatest magnitude in the policy's range. Its conditions are joined without a branch.
#[inline(always)]
fn greatest_magnitude_by(format: Format, policy: Policy, negative: bool) -> u64
    ensures magnitude { result ≡ greatest_magnitude_by policy format.signed negative format.width }
    ensures valid { IsFormat format.width format.frac }
{
    let is_short = format.signed() & negative & (policy == Policy::Symmetric);
    greatest_magnitude(format, negative) - u64::from(is_short)
}

/// Returns the lowest bits of a magnitude, as many as a format has.
#[inline(always)]
fn low_bits(format: Format, magnitude: u64) -> u64
    ensures bits { result ≡ magnitude % 2 ^ format.width }
    ensures valid { IsFormat format.width format.frac }
{
    magnitude & ones(format)
}

/// Returns the Wrapping image of the number with this sign and magnitude. Its lowest bits, with its sign, are in range
/// up to the end of the range on that side; above it, the image is what they lack of a whole turn, with the other sign.
#[inline(always)]
fn wrapped(format: Format, negative: bool, magnitude: u64) -> (bool, u64)
    ensures image { IsWrapped format.signed format.width (with_sign negative magnitude) (with_sign result.0 result.1) }
    ensures same { magnitude ≤ greatest_magnitude format.signed negative format.width
        → (result.0 ≡ negative) × (result.1 ≡ magnitude) }
{
    let end = greatest_magnitude(format, negative);
    let low = low_bits(format, magnitude);
    if low > end {
        (!negative, ones(format) - low + 1)
    } else {
        (negative, low)
    }
}

/// How many of two numbers may be out of range, for each policy.
const ADMITTED: [u8; 4] = [0, 2, 2, 2];

/// Whether a policy refuses two numbers, of which one may be out of its range. It is one comparison with a table's
/// entry: each of three conditions would be a branch, and often mispredicted.
#[inline(always)]
pub fn is_refused(policy: Policy, is_first_out: bool, is_second_out: bool) -> bool
    ensures { IsTrue result ↔ ((policy ≡ Policy.Checked) × (IsTrue is_first_out ⊎ IsTrue is_second_out)) }
{
    u8::from(is_first_out) + u8::from(is_second_out) > ADMITTED[policy as usize]
}

/// Whether the policy's image of a number is an end of the range, and not its Wrapping image.
#[inline(always)]
fn is_at_end(policy: Policy, is_out_of_range: bool) -> bool
    ensures { IsTrue result ↔ (((policy ≡ Policy.Saturating) ⊎ (policy ≡ Policy.Symmetric)) × IsTrue is_out_of_range) }
{
    match policy {
        Policy::Checked => false,
        Policy::Saturating => is_out_of_range,
        Policy::Wrapping => false,
        Policy::Symmetric => is_out_of_range,
    }
}

/// Chooses the first or the second value. A separate call for each of two choices lets each be made without a branch.
#[inline(always)]
fn choice<T: Copy>(is_first: bool, first: T, second: T) -> T
    ensures { result ≡ (if is_first then first else second) }
{
    if is_first { first } else { second }
}

/// Returns the magnitude over two to the power of `k`, rounded down, and the rest.
#[inline(always)]
fn split_low_bits(magnitude: u64, k: u32) -> (u64, u64)
    requires { k ≤ 64 }
    ensures whole { result.0 ≡ magnitude / 2 ^ k }
    ensures rest { result.1 ≡ magnitude % 2 ^ k }
{
    if k == 64 {
        (0, magnitude)
    } else {
        (magnitude >> k, magnitude % (1 << k))
    }
}

/// Returns the magnitude of a number without its last `k` bits. The number is rounded down.
#[inline(always)]
fn floored_magnitude(negative: bool, magnitude: u64, k: u32) -> u64
    requires { k ≤ 64 }
    ensures { IsDown (with_sign negative magnitude) k 0 (with_sign negative result) }
{
    let (whole, rest) = split_low_bits(magnitude, k);
    if negative && rest > 0 {
        whole + 1
    } else {
        whole
    }
}

/// Returns the magnitude times two to the power of `k`.
#[inline(always)]
fn grown_magnitude(magnitude: u64, k: u32) -> u128
    requires { k ≤ 64 }
    ensures { result ≡ magnitude * 2 ^ k }
{
    u128::from(magnitude) << k
}

/// Moves the number with this sign and magnitude from fraction length `from` to `to`, rounded down (floor). It is made
/// shorter, then longer, and at least one of the two does nothing; which one changes from line to line.
#[inline(always)]
pub fn moved(negative: bool, magnitude: u64, from: u32, to: u32) -> Number
    requires from { from ≤ 64 }
    requires to { to ≤ 64 }
    ensures value { IsNumber result (down (with_sign negative magnitude) from to) }
    ensures sign { result.negative ≡ negative }
{
    let whole = floored_magnitude(negative, magnitude, from.saturating_sub(to));
    Number::new(negative, grown_magnitude(whole, to.saturating_sub(from)))
}
