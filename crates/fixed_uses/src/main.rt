//! Small callers of the number library, one in each module: a function whose contract is in the caller's own words,
//! proved from the library's contracts. As a program it reads settings such as `gain=2.75`, rounds and converts each
//! number, and compares it with a limit.
#![tactic(auto)]

pub mod dial;
pub mod gain;
pub mod limit;
pub mod meter;
pub mod money;
pub mod saved;
pub mod taps;
pub mod tariff;
#[cfg(test)]
mod tests;

use fixed_point::{FixedI8, FixedI32, FixedU16};
use std::io;

#[tactic(auto, using(fixed_point::proofs::ReadingLemmas::reads_in_range))]
fn main(rt: HostRuntime) -> io::Result<()> {
    let limit = FixedU16::<8>::strict_from_str("12.5");
    for line in rt.lines(rt.alloc()) {
        let setting = line?;
        let (name, text) = setting.split_once('=').unwrap_or(("", ""));
        match FixedI32::<16>::from_str(text) {
            Err(error) => println!(rt; "{name}: {error}")?,
            Ok(number) => {
                println!(rt; "{name} is {number}, about {}", number.saturating_round())?;
                let (sixteenths, overflowed) = number.overflowing_to_num::<FixedI8<4>>();
                println!(rt; "  in a byte of sixteenths {sixteenths}, overflowed: {overflowed}")?;
                println!(rt; "  above the limit of {limit}: {}", number.gt_num(limit))?;
            }
        }
    }
    Ok(())
}
