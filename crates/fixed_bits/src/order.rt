//! The order of the formats of 8, 16, 32 and 64 bits: by width, then unsigned before signed, then by fraction length.

ghost use Rattle.std.specs.Prelude.{◌≡◌, ◌↔◌, ◌<◌, ◌≤◌, ◌+◌, ◌*◌, IsSome, IfSome};
ghost use Rattle.fixed_bits.specs.Ranges.{IsTypeWidth};
ghost use Rattle.fixed_bits.specs.Formats.{IsTypeFormat};
ghost use Rattle.fixed_bits.specs.Order.{rank, rank_in_width, rank_of_width};

use crate::format::Format;

/// How many formats are as wide as an integer type, with a fraction that is not longer.
pub const FORMAT_COUNT: usize = 248;

/// The rank of the first format with 16 bits, and of those with 32 and 64.
const FIRST_OF_16: u32 = 18;

const FIRST_OF_32: u32 = 52;

const FIRST_OF_64: u32 = 118;

impl Format {
    /// The number of the format in the order, from 0 to 247. `None` exactly if the width isn't 8, 16, 32 or 64, or the
    /// fraction is longer than the width.
    pub fn rank(self) -> Option<usize>
        ensures exists { IsSome result ↔ IsTypeFormat self.width self.frac }
        ensures rank { IfSome result (λ i. (i ≡ rank self) × (i < FORMAT_COUNT)) }
    {
        let width = self.width();
        if self.frac() > width {
            return None;
        }
        let before = first_of_width(width)?;
        let sign = if self.signed() { width + 1 } else { 0 };
        Some((before + sign + self.frac()) as usize)
    }
}

/// Returns the rank of the first format with this many bits. `None` exactly if no integer type has this width.
fn first_of_width(width: u32) -> Option<u32>
    ensures exists { IsSome result ↔ IsTypeWidth width }
    ensures rank { IfSome result (λ i. (i ≡ rank_of_width width) × (i + 2 * (width + 1) ≤ FORMAT_COUNT)) }
{
    match width {
        8 => Some(0),
        16 => Some(FIRST_OF_16),
        32 => Some(FIRST_OF_32),
        64 => Some(FIRST_OF_64),
        _ => None,
    }
}

/// Returns the format with number `i` in the order, from 0; `None` exactly if `i` is 248 or more.
pub fn format_at(i: usize) -> Option<Format>
    ensures exists { IsSome result ↔ (i < FORMAT_COUNT) }
    ensures rank { IfSome result (λ f. IsTypeFormat f.width f.frac × (rank f ≡ i)) }
{
    if i >= FORMAT_COUNT {
        return None;
    }
    let i = i as u32;
    if i < FIRST_OF_16 {
        format_of_width(8, i)
    } else if i < FIRST_OF_32 {
        format_of_width(16, i - FIRST_OF_16)
    } else if i < FIRST_OF_64 {
        format_of_width(32, i - FIRST_OF_32)
    } else {
        format_of_width(64, i - FIRST_OF_64)
    }
}

/// Returns the format with number `i` among those with this many bits.
fn format_of_width(width: u32, i: u32) -> Option<Format>
    requires width { IsTypeWidth width }
    requires below { i < 2 * (width + 1) }
    ensures exists { IsSome result }
    ensures parts { IfSome result (λ f. (f.width ≡ width) × IsTypeFormat f.width f.frac × (rank_in_width f ≡ i)) }
{
    if i <= width {
        Format::new(false, width, i)
    } else {
        Format::new(true, width, i - width - 1)
    }
}
