//! The bits of an IEEE 754 float, and the parts of its number.

ghost use Rattle.std.specs.Prelude.{◌≡◌, ◌↔◌, ◌+◌, ◌-◌, ◌<◌, ◌^◌, ◌==◌, if◌then◌else◌, IsNone, IfSome};
ghost use Rattle.fixed_float.specs.Floats.{IsFinite};
ghost use Rattle.fixed_float.specs.Inner.Fields.{AreFields};
ghost use Rattle.fixed_float.specs.declared.layout.FloatLayout.TheVariants.{Binary32, Binary64};

/// The layout of a float's bits.
#[derive(Clone, Copy, Debug, PartialEq, Eq)]
pub enum FloatLayout {
    /// Single precision: from the lowest up 23 bits of fraction, 8 of exponent, and the sign.
    Binary32,
    /// Double precision: from the lowest up 52 bits of fraction, 11 of exponent, and the sign.
    Binary64,
}

/// The parts of a finite float: `significand` times two to the power of `scale` less the scale of one.
#[derive(Clone, Copy)]
pub struct FloatFields {
    pub significand: u64,
    pub scale: u32,
    pub negative: bool,
}

/// Returns the bit before the fraction: 0 in zeros and subnormals, whose exponent is 0.
#[inline(always)]
fn leading_bit(exponent: u64, bit: u64) -> u64
    ensures { result ≡ (if exponent == 0 then 0 else bit) }
{
    if exponent == 0 { 0 } else { bit }
}

/// Returns the scale of an exponent. Zeros and subnormals have the scale of the least normal floats.
#[inline(always)]
fn scale_of(exponent: u64) -> u64
    ensures { result ≡ (if exponent == 0 then 1 else exponent) }
{
    if exponent == 0 { 1 } else { exponent }
}

/// Returns the parts of a double. `None` exactly if it is an infinity or a NaN.
#[inline(always)]
pub fn binary64_fields(bits: u64) -> Option<FloatFields>
    ensures none { IsNone result ↔ (¬ IsFinite Binary64 bits) }
    ensures fields { IfSome result (AreFields Binary64 bits) }
{
    let exponent = (bits >> 52) % (1 << 11);
    if exponent == 0x7ff {
        return None;
    }
    Some(FloatFields {
        significand: leading_bit(exponent, 1 << 52) + bits % (1 << 52),
        scale: scale_of(exponent) as u32,
        negative: (bits >> 63) % 2 == 1,
    })
}

/// Returns the parts of a single-precision float. `None` exactly if it is an infinity or a NaN.
#[inline(always)]
pub fn binary32_fields(bits: u32) -> Option<FloatFields>
    ensures none { IsNone result ↔ (¬ IsFinite Binary32 bits) }
    ensures fields { IfSome result (AreFields Binary32 bits) }
{
    let bits = u64::from(bits);
    let exponent = (bits >> 23) % (1 << 8);
    if exponent == 0xff {
        return None;
    }
    Some(FloatFields {
        significand: leading_bit(exponent, 1 << 23) + bits % (1 << 23),
        scale: scale_of(exponent) as u32,
        negative: (bits >> 31) % 2 == 1,
    })
}
