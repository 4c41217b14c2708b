//! The readings that the tests share, each with its own ledger.

ghost use Rattle.std.specs.Prelude.{◌≡◌, ◌<◌, ◌≤◌, length};

use fixed_numeral::{
    DigitView, ParseErrorKind, Radix, Scanned, ShortNumeral, leading_numeral, scan, scan_lit,
    short_numeral,
};
use fixed_steps::Steps;
use std::marker::Brand;
use std::sync::ledger::{Blank, Ledger};

/// Whether the view's digits are those of the text, in radix 16.
fn shows<L: Ledger>(view: &DigitView, digits: &[u8], steps: &mut Steps<L>) -> bool {
    let mut rest = view.same();
    for digit in digits {
        match rest.take(steps) {
            Some((found, others)) => {
                if char::from(*digit).to_digit(16) != Some(u32::from(found)) {
                    return false;
                }
                rest = others;
            }
            None => return false,
        }
    }
    rest.is_empty()
}

/// The parts that a numeral must read as.
#[derive(Clone, Copy)]
pub(super) struct Views {
    pub neg: bool,
    pub whole: &'static str,
    pub fraction: &'static str,
    pub bits: u32,
}

pub(super) fn spelled_by(whole: &'static str, fraction: &'static str, bits: u32) -> Views {
    Views {
        neg: false,
        whole,
        fraction,
        bits,
    }
}

fn fits<L: Ledger>(
    found: &Scanned,
    neg: bool,
    whole: &[u8],
    fraction: &[u8],
    bits: u32,
    steps: &mut Steps<L>,
) -> bool {
    found.neg() == neg
        && found.bit_shift() == bits
        && shows(&found.whole(), whole, steps)
        && shows(&found.fraction(), fraction, steps)
}

fn reads_over<L: Ledger>(
    radix: Radix,
    text: &[u8],
    neg: bool,
    whole: &[u8],
    fraction: &[u8],
    bits: u32,
    blank: Blank,
) -> bool
    requires name { blank.name ≡ L.name }
    requires parts { blank.parts ≡ L.parts }
    requires backed { 0 < L.parts }
{
    let mut steps: Steps<L> = Steps::new(blank);
    match scan(text, radix, &mut steps) {
        Ok(found) => fits(&found, neg, whole, fraction, bits, &mut steps),
        Err(_error) => false,
    }
}

pub(super) fn reads(radix: Radix, text: &str, want: Views) -> bool {
    let whole = want.whole.as_bytes();
    let fraction = want.fraction.as_bytes();
    reads_over::<Brand>(
        radix,
        text.as_bytes(),
        want.neg,
        whole,
        fraction,
        want.bits,
        Blank::new(1),
    )
}

fn refused_over<L: Ledger>(radix: Radix, text: &[u8], blank: Blank) -> Option<ParseErrorKind>
    requires name { blank.name ≡ L.name }
    requires parts { blank.parts ≡ L.parts }
    requires backed { 0 < L.parts }
{
    let mut steps: Steps<L> = Steps::new(blank);
    match scan(text, radix, &mut steps) {
        Ok(_found) => None,
        Err(error) => Some(error.kind()),
    }
}

fn refused_bytes(radix: Radix, text: &[u8]) -> Option<ParseErrorKind> {
    refused_over::<Brand>(radix, text, Blank::new(1))
}

pub(super) fn refused(radix: Radix, text: &str) -> Option<ParseErrorKind> {
    refused_bytes(radix, text.as_bytes())
}

fn lengths_over<L: Ledger>(text: &[u8], blank: Blank) -> Option<(u64, u64)>
    requires name { blank.name ≡ L.name }
    requires parts { blank.parts ≡ L.parts }
    requires backed { 0 < L.parts }
{
    let mut steps: Steps<L> = Steps::new(blank);
    match scan(text, Radix::Dec, &mut steps) {
        Ok(found) => Some((found.whole_view().len(), found.fraction_view().len())),
        Err(_error) => None,
    }
}

pub(super) fn lengths(text: &[u8]) -> Option<(u64, u64)> {
    lengths_over::<Brand>(text, Blank::new(1))
}

fn literal_over<L: Ledger>(
    signed: bool,
    text: &[u8],
    radix: Radix,
    neg: bool,
    whole: &[u8],
    fraction: &[u8],
    bits: u32,
    blank: Blank,
) -> bool
    requires name { blank.name ≡ L.name }
    requires parts { blank.parts ≡ L.parts }
    requires backed { 0 < L.parts }
{
    let mut steps: Steps<L> = Steps::new(blank);
    match scan_lit(text, signed, &mut steps) {
        Ok((found_radix, found)) => {
            found_radix == radix && fits(&found, neg, whole, fraction, bits, &mut steps)
        }
        Err(_error) => false,
    }
}

pub(super) fn literal(signed: bool, text: &str, radix: Radix, want: Views) -> bool {
    let whole = want.whole.as_bytes();
    let fraction = want.fraction.as_bytes();
    literal_over::<Brand>(
        signed,
        text.as_bytes(),
        radix,
        want.neg,
        whole,
        fraction,
        want.bits,
        Blank::new(1),
    )
}

fn no_literal_over<L: Ledger>(signed: bool, text: &[u8], blank: Blank) -> Option<ParseErrorKind>
    requires name { blank.name ≡ L.name }
    requires parts { blank.parts ≡ L.parts }
    requires backed { 0 < L.parts }
{
    let mut steps: Steps<L> = Steps::new(blank);
    match scan_lit(text, signed, &mut steps) {
        Ok((_radix, _found)) => None,
        Err(error) => Some(error.kind()),
    }
}

pub(super) fn no_literal(signed: bool, text: &str) -> Option<ParseErrorKind> {
    no_literal_over::<Brand>(signed, text.as_bytes(), Blank::new(1))
}

fn first_over<L: Ledger>(text: &[u8], blank: Blank) -> Option<(u64, u64)>
    requires name { blank.name ≡ L.name }
    requires parts { blank.parts ≡ L.parts }
    requires backed { 0 < L.parts }
{
    let mut steps: Steps<L> = Steps::new(blank);
    match scan(text, Radix::Hex, &mut steps) {
        Ok(found) => {
            let whole = found.whole_view();
            let alone = whole.first_number(16, 4, &mut steps);
            let (number, rest) = whole.take_number(16, 4, &mut steps);
            if number == alone {
                Some((number, rest.len()))
            } else {
                None
            }
        }
        Err(_error) => None,
    }
}

pub(super) fn first(text: &str) -> Option<(u64, u64)> {
    first_over::<Brand>(text.as_bytes(), Blank::new(1))
}

/// Why this many ones, at most 24, are not a numeral once another byte replaces one of them.
pub(super) fn kind_of_bad(digits: usize, place: usize, bad: u8) -> Option<ParseErrorKind> {
    let mut text = [b'1'; 24];
    let end = digits.min(24);
    if place < end {
        text[place] = bad;
    }
    refused_bytes(Radix::Dec, &text[..end])
}

fn short_over<L: Ledger>(
    radix: Radix,
    text: &[u8],
    from: usize,
    blank: Blank,
) -> Option<ShortNumeral>
    requires name { blank.name ≡ L.name }
    requires parts { blank.parts ≡ L.parts }
    requires backed { 0 < L.parts }
    requires place { from ≤ length text.now }
{
    let mut steps: Steps<L> = Steps::new(blank);
    short_numeral(text, from, radix, &mut steps)
}

pub(super) fn short(radix: Radix, text: &str) -> Option<ShortNumeral> {
    short_over::<Brand>(radix, text.as_bytes(), 0, Blank::new(1))
}

/// A numeral of at most 48 bytes after 16 bytes that are digits of radix 16.
pub(super) fn short_after(radix: Radix, text: &str) -> Option<ShortNumeral> {
    let numeral = text.as_bytes();
    let count = numeral.len().min(48);
    let mut bytes = [b'e'; 64];
    bytes[16..16 + count].copy_from_slice(&numeral[..count]);
    short_over::<Brand>(radix, &bytes[..16 + count], 16, Blank::new(1))
}

/// Reads the decimal of this many ones, at most 28, once another byte replaces one of them. If there are more than 16,
/// the first is a point.
pub(super) fn short_with(length: usize, place: usize, other: u8) -> Option<ShortNumeral> {
    let mut text = [b'1'; 28];
    if length > 16 {
        text[0] = b'.';
    }
    let end = length.min(28);
    if place < end {
        text[place] = other;
    }
    short_over::<Brand>(Radix::Dec, &text[..end], 0, Blank::new(1))
}

fn leading_over<L: Ledger>(radix: Radix, text: &[u8], blank: Blank) -> Result<usize, ParseErrorKind>
    requires name { blank.name ≡ L.name }
    requires parts { blank.parts ≡ L.parts }
    requires backed { 0 < L.parts }
{
    let mut steps: Steps<L> = Steps::new(blank);
    match leading_numeral(text, radix, &mut steps) {
        Ok(count) => Ok(count),
        Err(error) => Err(error.kind()),
    }
}

/// How many bytes the numeral at the start of a text takes, or why there is none.
pub(super) fn leading(radix: Radix, text: &str) -> Result<usize, ParseErrorKind> {
    leading_over::<Brand>(radix, text.as_bytes(), Blank::new(1))
}
