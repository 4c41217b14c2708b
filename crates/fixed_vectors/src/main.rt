//! Answers lines that name a call of the library and its arguments, so that another implementation can be compared with
//! it. `oracle/typed.py` describes the lines about typed calls of `fixed_point`, `oracle/styled.py` those about texts
//! in a style (`styles`); each makes such lines and answers them.
#![tactic(auto)]

mod answers;
mod comparison;
mod conversion;
mod reading;
mod rounding;
mod single;
mod style_words;
mod styles;
mod words;

ghost use Rattle.std.specs.Prelude.{◌≡◌, ◌<◌};

use fixed_steps::Steps;
use std::io::{self, Write};
use std::marker::Brand;
use std::sync::ledger::{Blank, Ledger};
use words::number_of;

fn main(rt: HostRuntime) -> io::Result<()> {
    answer_lines::<Brand>(&rt, Blank::new(1))
}

/// Answers each line of standard input with a line.
fn answer_lines<L: Ledger>(rt: &HostRuntime, blank: Blank) -> io::Result<()>
    requires name { blank.name ≡ L.name }
    requires parts { blank.parts ≡ L.parts }
    requires some { 0 < blank.parts }
{
    let mut steps: Steps<L> = Steps::new(blank);
    for line in rt.lines(rt.alloc()) {
        let given = line?;
        match styles::text_of(rt.alloc(), given.as_str(), &mut steps)? {
            Some(text) => write_line(rt, text.as_slice())?,
            None => answer(rt, given.as_str())?,
        }
    }
    Ok(())
}

/// Writes a line whose bytes need not be UTF-8.
fn write_line(rt: &HostRuntime, line: &[u8]) -> io::Result<()> {
    let mut out = io::writer(rt);
    out.write_all(line)?;
    out.write_all(b"\n")
}

/// Writes the answer to a line about a typed call.
fn answer(rt: &impl Print, line: &str) -> io::Result<()> {
    let (call, rest) = line.split_once(' ').unwrap_or((line, ""));
    match call {
        "read" => single::answer_reading(rt, rest),
        "lit" => single::answer_literal(rt, rest),
        _ => answer_numbers(rt, call, rest),
    }
}

/// Writes the answer to a line whose words are types and whole numbers.
fn answer_numbers(rt: &impl Print, call: &str, rest: &str) -> io::Result<()> {
    let mut words = rest.split(' ');
    let first = words.next().unwrap_or("");
    let second = words.next().unwrap_or("");
    let third = words.next().unwrap_or("");
    let fourth = words.next().unwrap_or("");
    match call {
        "round" => single::answer_bits(rt, first, second, third),
        "show" => single::answer_bits(rt, call, first, second),
        "convert" => conversion::answer(rt, first, second, third, number_of(fourth)),
        "compare" => comparison::answer(rt, first, second, number_of(third), number_of(fourth)),
        _ => answers::write_words(rt, "unknown call"),
    }
}
