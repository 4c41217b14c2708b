//! For each format the number of the first line whose numeral it does not hold.
//!
//! A line number is in a slot, one for each kind of format (a width and a sign rule) and fraction length. The formats
//! of a kind that hold a value have neighbouring fraction lengths: a longer fraction has a smaller ulp and leaves fewer
//! whole bits. So the formats of a kind that hold every value so far are always an interval, and all of them hold a
//! value if the first and the last do. Two arrays keep the ends of the eight intervals, and a value is only tried
//! there.

ghost use Rattle.std.specs.Prelude.{◌≡◌, ◌⊎◌, ◌↔◌, ◌≤◌, ◌<◌, ◌+◌, ◌-◌, ◌*◌, ℕ, get_or};
ghost use Rattle.fixed_bits.specs.Formats.{IsTypeFormat};
ghost use Rattle.fixed_least.specs.Inner.Slots.{AreLiving, AreNoted, IsLiving, IsNoted, slot, slot_of};
ghost use Rattle.fixed_least.specs.Inner.Slots.{kind_format, kind_width};
ghost use Rattle.fixed_least.specs.Inner.Valued.{HasValue};

use crate::exact::Exact;
use crate::holding::has_value;
use fixed_bits::Format;

/// How many kinds of formats there are: two sign rules at each of four widths.
pub const KINDS: usize = 8;

/// The most fraction lengths of a kind.
const LENGTHS: usize = 65;

/// How many slots there are.
pub const SLOTS: usize = 520;

/// The width of a kind, in bits.
fn width_of(kind: usize) -> u32
    requires { kind < KINDS }
    ensures { result ≡ kind_width kind }
{
    if kind < 2 {
        8
    } else if kind < 4 {
        16
    } else if kind < 6 {
        32
    } else {
        64
    }
}

/// Returns the format of a kind with this fraction length.
fn format_of(kind: usize, frac: usize) -> Format
    requires kind { kind < KINDS }
    requires frac { frac ≤ kind_width kind }
    ensures { result ≡ kind_format kind frac }
{
    Format::new(kind % 2 == 1, width_of(kind), frac as u32).unwrap()
}

/// Returns the slot of a format.
pub fn slot_of(format: Format) -> usize
    requires { IsTypeFormat format.width format.frac }
    ensures slot { result ≡ slot_of format }
    ensures within { result < SLOTS }
{
    let kind = match format.width() {
        8 => 0,
        16 => 2,
        32 => 4,
        _ => 6,
    };
    let kind = if format.signed() { kind + 1 } else { kind };
    kind * LENGTHS + format.frac() as usize
}

/// Returns the intervals of all fraction lengths: for each kind the first, and the one after the last.
pub fn all_lengths() -> ([usize; KINDS], [usize; KINDS])
    ensures low { (j : ℕ) → j < 8 → get_or result.0 j 0 ≡ 0 }
    ensures high { (j : ℕ) → j < 8 → get_or result.1 j 0 ≡ kind_width j + 1 }
{
    ([0; KINDS], [9, 9, 17, 17, 33, 33, 65, 65])
}

/// Writes a line number into the slots of the formats of a kind with the fraction lengths from `low` on, up to the
/// first that has the value or to `high`. Returns the fraction length at which it ended.
fn refute_up(
    slots: &mut [u64; SLOTS],
    kind: usize,
    low: usize,
    high: usize,
    value: Option<Exact>,
    place: u64,
) -> usize
    requires kind { kind < KINDS }
    requires order { low ≤ high }
    requires most { high ≤ kind_width kind + 1 }
    ensures low { low ≤ result }
    ensures high { result ≤ high }
    ensures refused { (k : ℕ) → low ≤ k → k < result
        → (get_or slots.new (slot kind k) 0 ≡ place) × ¬ HasValue (kind_format kind k) value }
    ensures others { (i : ℕ) → (i < slot kind low) ⊎ (slot kind result ≤ i)
        → get_or slots.new i 0 ≡ get_or slots.old i 0 }
    ensures held { result < high → HasValue (kind_format kind result) value }
{
    for frac in low..high {
        if has_value(format_of(kind, frac), value) {
            return frac;
        }
        slots[kind * LENGTHS + frac] = place;
    }
    high
}

/// Writes a line number into the slots of the formats of a kind with the fraction lengths below `high`, down to the
/// last that has the value or to `low`. Returns the fraction length below which it ended.
fn refute_down(
    slots: &mut [u64; SLOTS],
    kind: usize,
    low: usize,
    high: usize,
    value: Option<Exact>,
    place: u64,
) -> usize
    requires kind { kind < KINDS }
    requires order { low ≤ high }
    requires most { high ≤ kind_width kind + 1 }
    ensures low { low ≤ result }
    ensures high { result ≤ high }
    ensures refused { (k : ℕ) → result ≤ k → k < high
        → (get_or slots.new (slot kind k) 0 ≡ place) × ¬ HasValue (kind_format kind k) value }
    ensures others { (i : ℕ) → (i < slot kind result) ⊎ (slot kind high ≤ i)
        → get_or slots.new i 0 ≡ get_or slots.old i 0 }
    ensures held { low < result → HasValue (kind_format kind (result - 1)) value }
{
    let mut end = high;
    while low < end {
        if has_value(format_of(kind, end - 1), value) {
            return end;
        }
        end -= 1;
        slots[kind * LENGTHS + end] = place;
    }
    end
}

/// Writes a line number into the slots of the formats of a kind that hold every value before this one but not this one.
/// Those that hold every value so far are the fraction lengths from `low` on and below `high`. Returns the new two.
fn refute_kind(
    slots: &mut [u64; SLOTS],
    kind: usize,
    low: usize,
    high: usize,
    value: Option<Exact>,
    place: u64,
) -> (usize, usize)
    requires kind { kind < KINDS }
    requires place { 0 < place }
    requires order { low ≤ high }
    requires most { high ≤ kind_width kind + 1 }
    requires living { IsLiving kind low high slots.old }
    ensures order { result.0 ≤ result.1 }
    ensures most { result.1 ≤ kind_width kind + 1 }
    ensures living { IsLiving kind result.0 result.1 slots.new }
    ensures noted { (k : ℕ) → k ≤ kind_width kind
        → IsNoted (kind_format kind k) value place (get_or slots.old (slot kind k) 0)
        (get_or slots.new (slot kind k) 0) }
    ensures others { (i : ℕ) → (i < slot kind 0) ⊎ (slot kind 65 ≤ i) → get_or slots.new i 0 ≡ get_or slots.old i 0 }
{
    let first = refute_up(slots, kind, low, high, value, place);
    let end = refute_down(slots, kind, first, high, value, place);
    (first, end)
}

/// Writes a line number into the slot of each format that holds every value before this one but not this one.
pub fn refute(
    slots: &mut [u64; SLOTS],
    lows: &mut [usize; KINDS],
    highs: &mut [usize; KINDS],
    value: Option<Exact>,
    place: u64,
)
    requires place { 0 < place }
    requires living { AreLiving slots.old lows.old highs.old }
    ensures living { AreLiving slots.new lows.new highs.new }
    ensures noted { AreNoted value place slots.old slots.new }
{
    for kind in 0..KINDS {
        let (low, high) = refute_kind(slots, kind, lows[kind], highs[kind], value, place);
        lows[kind] = low;
        highs[kind] = high;
    }
}
