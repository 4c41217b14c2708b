//! Texts of numbers in styles that lines describe. Bits are in decimal; the fill is a code point; the flags are some of
//! `+`, `#` and `0`, or `-` for none:
//!
//! - `text NOTATION PRECISION WIDTH FILL ALIGN FLAGS BITS FRAC`
//! - `decimal PLACES BITS FRAC`
//! - `exact BASE BITS FRAC`
//! - `shortest BITS FRAC`
//! - `integer BITS`

use crate::reading::mode_of;
use crate::style_words::{base_word, bits_word, number_words, small_word, style_words};
use fixed_bits::ReadMode;
use fixed_steps::Steps;
use fixed_write::{push_decimal, push_exact, push_integer, push_shortest, to_text};
use std::alloc::{AllocError, Global};
use std::str::Split;
use std::sync::ledger::Ledger;
use text_buffer::TextBuffer;

/// A text in place.
type Place = TextBuffer<192>;

/// The answer to a line that describes nothing.
const BAD_LINE: &[u8] = b"bad line";

/// Writes the text that a line requests; `None` if it requests none.
pub(crate) fn text_of<L: Ledger>(
    alloc: Global,
    line: &str,
    steps: &mut Steps<L>,
) -> Result<Option<Vec<u8>>, AllocError> {
    let (call, words) = line.split_once(' ').unwrap_or((line, ""));
    match call {
        "text" => Ok(Some(styled(alloc, &mut words.split(' '))?)),
        "decimal" | "rounded" | "exact" | "shortest" | "integer" => Ok(Some(text_in_place(
            alloc, line, steps,
        )?)),
        _ => Ok(None),
    }
}

/// Writes the text that a line requests in place.
fn text_in_place<L: Ledger>(
    alloc: Global,
    line: &str,
    steps: &mut Steps<L>,
) -> Result<Vec<u8>, AllocError> {
    let mut words = line.split(' ');
    let call = words.next().unwrap_or("");
    let mut place: Place = TextBuffer::new();
    if in_place(call, &mut words, &mut place, steps).is_none() {
        place.clear();
        place.push_bytes(BAD_LINE);
    }
    Vec::from_slice(alloc, place.as_bytes())
}

/// Writes the text in memory that the words of a line after `text` request.
fn styled(alloc: Global, words: &mut Split<'_, char>) -> Result<Vec<u8>, AllocError> {
    let Some(style) = style_words(words) else {
        return Vec::from_slice(alloc, BAD_LINE);
    };
    let Some((bits, frac)) = number_words(words) else {
        return Vec::from_slice(alloc, BAD_LINE);
    };
    match to_text(alloc, bits, frac, &style) {
        Ok(text) => Vec::from_slice(alloc, text.as_bytes()),
        Err(_) => Err(AllocError),
    }
}

/// Writes a text without allocation; `None` if the line describes nothing.
fn in_place<L: Ledger>(
    call: &str,
    words: &mut Split<'_, char>,
    place: &mut Place,
    steps: &mut Steps<L>,
) -> Option<()> {
    match call {
        "integer" => integer_in_place(words, place),
        "shortest" => shortest_in_place(words, place, steps),
        "decimal" => decimal_in_place(words, place, ReadMode::NearestEven),
        "rounded" => {
            let mode = mode_of(words.next()?);
            decimal_in_place(words, place, mode)
        }
        "exact" => exact_in_place(words, place),
        _ => None,
    }
}

fn integer_in_place(words: &mut Split<'_, char>, place: &mut Place) -> Option<()> {
    let bits = bits_word(words.next()?)?;
    place.clear();
    push_integer(place, bits);
    Some(())
}

fn shortest_in_place<L: Ledger>(
    words: &mut Split<'_, char>,
    place: &mut Place,
    steps: &mut Steps<L>,
) -> Option<()> {
    let (bits, frac) = number_words(words)?;
    place.clear();
    push_shortest(place, bits, frac, steps);
    Some(())
}

fn decimal_in_place(words: &mut Split<'_, char>, place: &mut Place, mode: ReadMode) -> Option<()> {
    let places = small_word(words.next()?)?;
    let (bits, frac) = number_words(words)?;
    place.clear();
    push_decimal(place, bits, frac, places, mode);
    Some(())
}

fn exact_in_place(words: &mut Split<'_, char>, place: &mut Place) -> Option<()> {
    let base = base_word(words.next()?)?;
    let (bits, frac) = number_words(words)?;
    place.clear();
    push_exact(place, bits, frac, base);
    Some(())
}
