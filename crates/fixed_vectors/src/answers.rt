//! Writes results. Generic calls pass their results here, so that each line is formatted once.

use std::cmp::Ordering;
use std::io;

/// Writes a number.
pub fn write_number(rt: &impl Print, number: i128) -> io::Result<()> {
    println!(rt; "{number}")
}

/// Writes a number, and whether it is out of range.
pub fn write_flagged(rt: &impl Print, number: i128, overflowed: bool) -> io::Result<()> {
    println!(rt; "{number} {overflowed}")
}

/// Writes a few words.
pub fn write_words(rt: &impl Print, words: &str) -> io::Result<()> {
    println!(rt; "{words}")
}

/// Writes an order, and whether the numbers are equal, less, at most, greater and at least.
pub fn write_order(rt: &impl Print, order: Ordering, answers: [bool; 5]) -> io::Result<()> {
    let name = match order {
        Ordering::Less => "less",
        Ordering::Equal => "equal",
        Ordering::Greater => "greater",
    };
    let [equal, less, at_most, greater, at_least] = answers;
    println!(rt; "{name} {equal} {less} {at_most} {greater} {at_least}")
}
