//! Compares the bits of rows as the single call does.

ghost use Rattle.std.specs.Prelude.{◌↔◌, ◌<◌, ℤ, IsTrue, length};
ghost use Rattle.fixed_c.specs.Items.{AreItems, ComparesRow, HavePairs, ItemsEnd};
ghost use Rattle.fixed_c.specs.Numbers.{format_of};

use crate::arguments::FixedFormat;
use crate::exports::fixed_compare_bits;
use crate::refusal::{OK, Refusal};
use crate::rows::{bits_at, tally};

/// Compares the bits of row `i` by the single call.
fn order_row(a: &[i64], f: FixedFormat, b: &[i64], g: FixedFormat, i: usize) -> (i32, u32)
    requires left { i < length a.now }
    requires right { i < length b.now }
    ensures { ComparesRow a.now (format_of f.is_signed f.width f.frac) b.now (format_of g.is_signed g.width g.frac) i
        result.0 result.1 }
{
    let left = bits_at(a, i);
    let right = bits_at(b, i);
    let mut order = 0;
    let code = fixed_compare_bits(left, f, right, g, &mut order);
    (order, code)
}

/// Whether there are equally many bits on each side, orders and codes.
fn have_pairs(a: &[i64], b: &[i64], orders: &[i32], codes: &[u32]) -> bool
    ensures { IsTrue result ↔ HavePairs a.now b.now orders.now codes.now }
{
    a.len() == codes.len() && b.len() == codes.len() && orders.len() == codes.len()
}

/// Compares the bits of each row. Returns the number of refused rows.
fn each_order(
    a: &[i64],
    f: FixedFormat,
    b: &[i64],
    g: FixedFormat,
    orders: &mut [i32],
    codes: &mut [u32],
) -> usize
    requires { HavePairs a.now b.now orders.old codes.old }
    ensures { AreItems ℤ (ComparesRow a.now (format_of f.is_signed f.width f.frac) b.now
        (format_of g.is_signed g.width g.frac)) orders.new codes.new result }
{
    let mut refused = 0;
    for i in 0..codes.len() {
        let (order, code) = order_row(a, f, b, g, i);
        orders[i] = order;
        codes[i] = code;
        refused += tally(code);
    }
    refused
}

/// Compares the bits of rows if the lengths match.
pub fn compare_rows(
    a: &[i64],
    f: FixedFormat,
    b: &[i64],
    g: FixedFormat,
    orders: &mut [i32],
    codes: &mut [u32],
    refused: &mut usize,
) -> u32
    ensures { ItemsEnd ℤ (HavePairs a.now b.now orders.old codes.old)
        (ComparesRow a.now (format_of f.is_signed f.width f.frac) b.now (format_of g.is_signed g.width g.frac))
        orders.old orders.new codes.old codes.new refused.old refused.new result }
{
    if have_pairs(a, b, orders, codes) {
        *refused = each_order(a, f, b, g, orders, codes);
        OK
    } else {
        Refusal::BadRows.code()
    }
}
