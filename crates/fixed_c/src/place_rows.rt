//! Prints the bits of rows to decimal places as the single call does.

ghost use Rattle.std.specs.Prelude.{◌≡◌, ◌≢◌, ◌+◌, ◌*◌, ◌≤◌, ℕ, length};
ghost use Rattle.fixed_c.specs.Items.{ArePlaces, PlacesEnd, PrintsPlaces};
ghost use Rattle.fixed_c.specs.Numbers.{format_of};
ghost use Rattle.fixed_c.specs.Rows.{HaveTexts, row_at};

use crate::arguments::FixedFormat;
use crate::refusal::{OK, Refusal};
use crate::rows::{bits_at, have_texts, put_row, tally};
use crate::texts::rounded_to;

/// How the bits of rows are printed, in the codes of C.
#[derive(Clone, Copy)]
pub struct PlacesPrinting {
    pub format: FixedFormat,
    pub places: u32,
    pub mode: u32,
}

/// Prints bits into a row to `printing.places` decimal places.
fn places_row(bits: i64, printing: PlacesPrinting, row: &mut [u8]) -> u32
    ensures { PrintsPlaces (format_of printing.format.is_signed printing.format.width printing.format.frac)
        printing.places printing.mode bits row.old row.new result }
{
    match rounded_to(bits, printing.format, printing.places, printing.mode) {
        Ok(text) => put_row(text.as_bytes(), row),
        Err(refusal) => refusal.code(),
    }
}

/// Prints bits into row `i` to `printing.places` decimal places. Every other row is unchanged.
fn places_at(bits: i64, printing: PlacesPrinting, rows: &mut [u8], size: usize, i: usize) -> u32
    requires { i * size + size ≤ length rows.old }
    ensures printed { PrintsPlaces (format_of printing.format.is_signed printing.format.width printing.format.frac)
        printing.places printing.mode bits (row_at rows.old size i) (row_at rows.new size i) result }
    ensures others { (k : ℕ) → k ≢ i → row_at rows.new size k ≡ row_at rows.old size k }
{
    let start = i * size;
    places_row(bits, printing, &mut rows[start..start + size])
}

/// Prints the bits of each row to `printing.places` decimal places. Returns the number of refused rows.
fn each_places(
    bits: &[i64],
    printing: PlacesPrinting,
    rows: &mut [u8],
    size: usize,
    codes: &mut [u32],
) -> usize
    requires { HaveTexts bits.now rows.old size codes.old }
    ensures { ArePlaces (format_of printing.format.is_signed printing.format.width printing.format.frac)
        printing.places printing.mode bits.now size rows.old rows.new codes.new result }
{
    let mut refused = 0;
    for i in 0..codes.len() {
        let given = bits_at(bits, i);
        let code = places_at(given, printing, rows, size, i);
        codes[i] = code;
        refused += tally(code);
    }
    refused
}

/// Prints the bits of rows to `printing.places` decimal places if the lengths match.
pub fn print_places_rows(
    bits: &[i64],
    printing: PlacesPrinting,
    rows: &mut [u8],
    size: usize,
    codes: &mut [u32],
    refused: &mut usize,
) -> u32
    ensures { PlacesEnd (format_of printing.format.is_signed printing.format.width printing.format.frac)
        printing.places printing.mode bits.now size rows.old rows.new codes.old codes.new refused.old refused.new
        result }
{
    if have_texts(bits, rows, size, codes) {
        *refused = each_places(bits, printing, rows, size, codes);
        OK
    } else {
        Refusal::BadRows.code()
    }
}
