//! Numbers of a format chosen at run time, and their order by value.
//!
//! Cells of equal value are ordered by width, sign rule and fraction length and not by `rank`. So the order covers all
//! records of these parts, and its laws need no premise.

ghost use Rattle.std.specs.Prelude.{◌≡◌, ◌↔◌, ◌≤◌, IsSome, IfSome};
ghost use Rattle.std.proofs.Common.{rules};
ghost use Rattle.std.specs.Bool.{one_answer};
ghost use Rattle.std.specs.Cmp.{po};
ghost use Rattle.std.specs.Cmp.Rules.{comparing};
ghost use Rattle.std.specs.Ordering.{as_partial_cmp};
ghost use Rattle.fixed_bits.specs.Ranges.{IsWide};
ghost use Rattle.fixed_columns.specs.Cells.{CellParts, IsCell, cell_of, format_order};

use fixed_bits::{Format, Inner};
use fixed_convert::compare;
use fixed_point::Fixed;
use std::cmp::Ordering;
use std::marker::Model;

/// A number of a format of 8, 16, 32 or 64 bits. Equal cells have the same format and the same bits; their order is
/// that of their values, ties in the order of their formats: by width, then unsigned before signed, then by fraction
/// length.
#[derive(Clone, Copy, Debug, PartialEq, Eq)]
pub struct Cell {
    format: Format,
    bits: i128,
}

impl Model for Cell {
    ghost use Rattle.fixed_columns.specs.Cells.{CellParts, IsCell};

    ghost Value = { CellParts };

    ghost view = { λ c. record { format = c.format; bits = c.bits } };

    ghost invariant = { λ c. IsCell (record { format = c.format; bits = c.bits }) };

    ghost inverse = { λ c. record { format = c.format; bits = c.bits } };
}

impl Cell {
    /// Returns the cell of a format with these bits. `None`: the format's width is not 8, 16, 32 or 64, or the bits are
    /// out of its range.
    pub fn new(format: Format, bits: i128) -> Option<Cell>
        ensures exists { IsSome result ↔ IsCell (record { format = format; bits = bits }) }
        ensures parts { IfSome result (λ c. c ≡ record { format = format; bits = bits }) }
    {
        if format.rank().is_some() && format.contains(bits) {
            Some(Cell { format, bits })
        } else {
            None
        }
    }

    /// Returns the cell of a format with these bits, which must be one.
    pub(crate) fn within(format: Format, bits: i128) -> Cell
        requires { IsCell (record { format = format; bits = bits }) }
        ensures { result ≡ record { format = format; bits = bits } }
    {
        Cell { format, bits }
    }

    /// Returns the cell of a number, with its format and its bits.
    pub fn of<I: Inner, const FRAC: u32>(value: Fixed<I, FRAC>) -> Cell
        requires { FRAC ≤ I.BITS }
        ensures { result ≡ cell_of I.SIGNED I.BITS FRAC (I.number value) }
    {
        match Format::new(I::SIGNED, I::BITS, FRAC) {
            Some(format) => Cell {
                format,
                bits: value.to_bits().value(),
            },
            None => unreachable!(),
        }
    }

    /// Returns the format.
    pub fn format(self) -> Format
        ensures { result ≡ self.format }
    {
        self.format
    }

    /// Returns the bits: the value is this many ulps of the format.
    pub fn bits(self) -> i128
        ensures bits { result ≡ self.bits }
        ensures cell { IsCell self }
        ensures wide { IsWide result }
    {
        self.bits
    }
}

/// Compares formats: by width, then unsigned before signed, then by fraction length.
fn compare_formats(a: Format, b: Format) -> Ordering
    ensures { result ≡ format_order a b }
{
    a.width()
        .cmp(&b.width())
        .then(a.signed().cmp(&b.signed()))
        .then(a.frac().cmp(&b.frac()))
}

impl Ord for Cell {
    ghost use Rattle.fixed_columns.specs.Cells.{cell_order};
    ghost use Rattle.fixed_columns.specs.Lemmas.OrderLemmas.{cell_decides, cell_total};

    ghost cmp = { cell_order };

    ghost total = { cell_total };

    ghost matches_partial_cmp = { Prim.search (rules) };

    ghost matches_eq = { λ a b. one_answer _ _ (Prim.search (comparing, rules)) (cell_decides a b) };

    // Cells of one format, and most columns have only one, are ordered by their bits.
    fn cmp(&self, other: &Cell) -> Ordering {
        let (format, other_format) = (self.format(), other.format());
        match compare_formats(format, other_format) {
            Ordering::Equal => self.bits().cmp(&other.bits()),
            by_format => {
                let (frac, other_frac) = (format.frac(), other_format.frac());
                compare(self.bits(), frac, other.bits(), other_frac).then(by_format)
            }
        }
    }
}

impl PartialOrd for Cell {
    ghost use Rattle.fixed_columns.specs.Cells.{cell_order};
    ghost use Rattle.fixed_columns.specs.Lemmas.OrderLemmas.{cell_decides, cell_total};

    ghost partial_cmp = { as_partial_cmp cell_order };

    ghost laws = { po cell_total (λ a b. one_answer _ _ (Prim.search (comparing, rules)) (cell_decides a b)) };

    fn partial_cmp(&self, other: &Cell) -> Option<Ordering> {
        Some(self.cmp(other))
    }
}
