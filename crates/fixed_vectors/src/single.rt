//! Calls on one number, or on a text that reads as one number.

ghost use Rattle.std.specs.Prelude.{◌≤◌};

use crate::answers::write_words;
use crate::words::{at_format, number_of};
use crate::{reading, rounding};
use fixed_bits::Inner;
use fixed_point::Fixed;
use std::io;

/// A call: its name, its form or what it rounds to, and the text to read with its mode and radix. A word is empty if
/// the call takes none.
#[derive(Drop)]
struct Call<'a> {
    name: &'a str,
    form: &'a str,
    mode: &'a str,
    radix: &'a str,
    text: &'a str,
}

/// Writes the result of a reading call: `FORM MODE RADIX TYPE TEXT`.
pub fn answer_reading(rt: &impl Print, rest: &str) -> io::Result<()> {
    let (form, rest) = rest.split_once(' ').unwrap_or((rest, ""));
    let (mode, rest) = rest.split_once(' ').unwrap_or((rest, ""));
    let (radix, rest) = rest.split_once(' ').unwrap_or((rest, ""));
    let (word, text) = rest.split_once(' ').unwrap_or((rest, ""));
    let call = Call {
        name: "read",
        form,
        mode,
        radix,
        text,
    };
    at_type(rt, word, 0, &call)
}

/// Writes the number that a literal reads as: `TYPE TEXT`.
pub fn answer_literal(rt: &impl Print, rest: &str) -> io::Result<()> {
    let (word, text) = rest.split_once(' ').unwrap_or((rest, ""));
    let call = Call {
        name: "lit",
        form: "",
        mode: "",
        radix: "",
        text,
    };
    at_type(rt, word, 0, &call)
}

/// Writes the result of a rounding call, or of Display if the form is `show`: a type and bits.
pub fn answer_bits(rt: &impl Print, form: &str, word: &str, bits: &str) -> io::Result<()> {
    let call = Call {
        name: "bits",
        form,
        mode: "",
        radix: "",
        text: "",
    };
    at_type(rt, word, number_of(bits), &call)
}

/// Makes a call on the number with these bits in the format that a word names.
fn at_type(rt: &impl Print, word: &str, bits: i128, call: &Call<'_>) -> io::Result<()> {
    at_format!(
        word,
        bits,
        answer_of(call),
        rt,
        shown_alone(rt, call.form, word, bits)
    )
}

/// Writes what Display writes for a number of a format that no other call uses.
fn shown_alone(rt: &impl Print, form: &str, word: &str, bits: i128) -> io::Result<()> {
    match (form, word) {
        ("show", "i8.100") => show(rt, Fixed::<i8, 100>::from_bits(Inner::wrap(bits))),
        ("show", "u8.100") => show(rt, Fixed::<u8, 100>::from_bits(Inner::wrap(bits))),
        ("show", "i64.64") => show(rt, Fixed::<i64, 64>::from_bits(Inner::wrap(bits))),
        ("show", "u64.3000") => show(rt, Fixed::<u64, 3000>::from_bits(Inner::wrap(bits))),
        _ => write_words(rt, "unknown type"),
    }
}

fn answer_of<I: Inner, const FRAC: u32>(
    rt: &impl Print,
    x: Fixed<I, FRAC>,
    call: &Call<'_>,
) -> io::Result<()>
    requires { FRAC ≤ I.BITS }
{
    match call.name {
        "read" => reading::read(rt, x, call.form, call.mode, call.radix, call.text),
        "lit" => reading::literal(rt, x, call.text),
        _ => match call.form {
            "show" => show(rt, x),
            form => rounding::round(rt, x, form),
        },
    }
}

fn show<I: Inner, const FRAC: u32>(rt: &impl Print, x: Fixed<I, FRAC>) -> io::Result<()> {
    println!(rt; "{x}")
}
