//! The order of values across formats.

ghost use Rattle.std.specs.Prelude.{◌≡◌};
ghost use Rattle.fixed_bits.specs.Ranges.{IsWide};
ghost use Rattle.fixed_convert.specs.Order.{order_of};

use crate::floored::Floored;
use std::cmp::Ordering;

/// Compares `b` over two to the power of `f` with `c` over two to the power of `g`. The fraction lengths `f` and `g`
/// may have any size.
#[tactic(auto, using(crate::proofs::OrderLemmas::comparing))]
pub fn compare(b: i128, f: u32, c: i128, g: u32) -> Ordering
    requires left { IsWide b }
    requires right { IsWide c }
    ensures { result ≡ order_of b f c g }
{
    if f <= g {
        let left = Floored {
            bits: b,
            shift: g - f,
        };
        left.representative().cmp(&c)
    } else {
        let right = Floored {
            bits: c,
            shift: f - g,
        };
        b.cmp(&right.representative())
    }
}
