//! Reads a constants file from standard input, and writes it to standard output: in its canonical form, as a C header
//! or as Rust.
#![tactic(auto)]

ghost use Rattle.std.specs.Prelude.{◌≡◌, ◌<◌};

mod tool;

use crate::tool::ConstantsTool;
use fixed_io::run_process;
use std::marker::Brand;
use std::process::ExitCode;
use std::sync::ledger::{Blank, Ledger};

/// Runs the program with the arguments and the streams of its process.
fn run_tool<L: Ledger>(rt: &HostRuntime, blank: Blank) -> u8
    requires name { blank.name ≡ L.name }
    requires parts { blank.parts ≡ L.parts }
    requires some { 0 < blank.parts }
{
    run_process::<ConstantsTool, L>(rt, b"constants_tool", &ConstantsTool, blank)
}

fn main(rt: HostRuntime) -> ExitCode {
    ExitCode::from(run_tool::<Brand>(&rt, Blank::new(1)))
}
