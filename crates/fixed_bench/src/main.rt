//! Times single library calls.
//!
//! `fixed_bench CALL TIMES WORDS..` reads the lines of standard input once, makes the call with each line TIMES times,
//! and prints the sum of the results, so that no call can be left out. With TIMES 0 it makes no call, so that the
//! difference of two runs is the time of the calls alone.
//!
//! | CALL | WORDS | A line | The call |
//! |---|---|---|---|
//! | `scan` | RADIX | a numeral | `scan` |
//! | `read` | FORMAT | a decimal numeral | the overflowing reader, to the nearest |
//! | `ending` | FROM RADIX | a text that a numeral ends from byte FROM on | `read_ending`, into I32F32 |
//! | `typed` | FORMAT | a decimal numeral | `overflowing_from_str` of the number type, U16F16 or I32F32 |
//! | `write` | FORMAT | bits | `shortest` |
//! | `append` | FORMAT | bits | `push_shortest`, in place |
//! | `places` | FORMAT N | bits | `push_decimal` to N places, in place |
//! | `styled` | FORMAT N | bits | `to_text` in decimal to N places |
//! | `display` | FORMAT | bits | `write!` of `{}` into one String, U16F16 or I32F32 |
//! | `display_places` | FORMAT | bits | `write!` of `{:.2}` into one String, U16F16 or I32F32 |
//! | `round` | FORMAT | bits | `overflowing_round` |
//! | `convert` | FORMAT | bits | `overflowing_to_num` into I16F16 |
//! | `compare` | FORMAT | bits | `cmp_num` with a number of U8F8 |
//! | `engine` | | a line | the line engine alone, with a rule of one constant answer; TIMES is ignored |
//!
//! FORMAT is one of `I4F4`, `U16F16`, `I32F32` and `U0F64`.
#![tactic(auto)]

ghost use Rattle.std.specs.Prelude.{◌≡◌, ◌<◌};

mod calls;
mod constant;
mod printing;
mod reading;
mod typed;

use calls::{sum_of, text};
use constant::run_constant;
use fixed_steps::Steps;
use line_engine::Status;
use std::alloc::Global;
use std::marker::Brand;
use std::sync::ledger::{Blank, Ledger};
use std::{env, io};

/// Reads the lines of standard input.
fn lines(rt: &HostRuntime) -> io::Result<Vec<String>> {
    let mut all = Vec::new(rt.alloc());
    for line in rt.lines(rt.alloc()) {
        all.push(line?)?;
    }
    Ok(all)
}

/// Makes the calls that the words name, with the steps on this blank, and returns the sum of their results.
fn sum_over<L: Ledger>(
    words: &[String],
    inputs: &[String],
    alloc: Global,
    blank: Blank,
) -> io::Result<i128>
    requires name { blank.name ≡ L.name }
    requires parts { blank.parts ≡ L.parts }
    requires some { 0 < blank.parts }
{
    sum_of(words, inputs, alloc, &mut Steps::<L>::new(blank))
}

/// Answers the lines of standard input, with the steps on this blank.
fn constant_over<L: Ledger>(rt: &HostRuntime, alloc: Global, blank: Blank) -> Status
    requires name { blank.name ≡ L.name }
    requires parts { blank.parts ≡ L.parts }
    requires some { 0 < blank.parts }
{
    run_constant(rt, alloc, &mut Steps::<L>::new(blank))
}

fn main(rt: HostRuntime) -> io::Result<()> {
    let words: Vec<String> = env::args(&rt)?.skip(1).collect(rt.alloc())?;
    if text(words.get(0)) == "engine" {
        let status = constant_over::<Brand>(&rt, rt.alloc(), Blank::new(1));
        if status != Status::Done {
            println!(rt; "stopped early")?;
        }
        return Ok(());
    }
    let inputs = lines(&rt)?;
    let sum = sum_over::<Brand>(&words, &inputs, rt.alloc(), Blank::new(1))?;
    println!(rt; "{sum}")
}
