//! The calls that the words of the command name.

use crate::printing::SignedBits;
use crate::{printing, reading, typed};
use fixed_steps::Steps;
use std::alloc::Global;
use std::io;
use std::sync::ledger::Ledger;

/// Returns the number that a word spells in decimal, else 0.
fn number(word: Option<&String>) -> u32 {
    match word {
        Some(digits) => match digits.as_str().parse::<u32>() {
            Ok(n) => n,
            Err(_) => 0,
        },
        None => 0,
    }
}

/// Returns a word, or an empty one if there is none.
pub fn text<'a>(word: Option<&'a String>) -> &'a str {
    match word {
        Some(word) => word.as_str(),
        None => "",
    }
}

/// Makes the calls that the words name, and returns the sum of their results.
pub fn sum_of<L: Ledger>(
    words: &[String],
    inputs: &[String],
    alloc: Global,
    steps: &mut Steps<L>,
) -> io::Result<i128> {
    let times = number(words.get(1));
    let word = text(words.get(2));
    match text(words.get(0)) {
        "scan" => Ok(reading::scan_all(inputs, reading::radix_of(word), times, steps)),
        "read" => Ok(reading::read_as(word, inputs, times, steps)),
        "ending" => {
            let radix = reading::radix_of(text(words.get(3)));
            let from = number(words.get(2)) as usize;
            Ok(reading::read_endings(inputs, from, radix, times, steps))
        }
        "typed" => Ok(typed::read_as(word, inputs, times)),
        work => {
            let bits = printing::bits_of(alloc, inputs)?;
            sum_over_bits(work, word, words.get(3), alloc, &bits, times, steps)
        }
    }
}

/// Returns the sum of the results of one work for numbers given by their bits; -1 if there is no such work.
fn sum_over_bits<L: Ledger>(
    work: &str,
    word: &str,
    places: Option<&String>,
    alloc: Global,
    bits: &[SignedBits],
    times: u32,
    steps: &mut Steps<L>,
) -> io::Result<i128> {
    Ok(match work {
        "write" => printing::write_as(word, bits, times, steps),
        "append" => printing::append_as(word, bits, times, steps),
        "places" => printing::places_as(word, bits, number(places), times),
        "styled" => {
            let places = match text(places).parse::<u16>() {
                Ok(places) => places,
                Err(_) => 0,
            };
            printing::styled_as(word, alloc, bits, places, times)
        }
        "display" => typed::display_as(word, alloc, bits, times)?,
        "display_places" => typed::display_places_as(word, alloc, bits, times)?,
        other => match typed::work_of(other) {
            Some(work) => typed::work_as(work, word, alloc, bits, times)?,
            None => -1,
        },
    })
}
