//! Encloses the numerals of lines from standard input, and writes their answers to standard output.
#![tactic(auto)]

ghost use Rattle.std.specs.Prelude.{◌≡◌, ◌<◌};

mod tool;

use crate::tool::EncloseTool;
use fixed_io::run_process;
use std::marker::Brand;
use std::process::ExitCode;
use std::sync::ledger::{Blank, Ledger};

/// Runs the program with the arguments and the streams of its process.
fn run_tool<L: Ledger>(rt: &HostRuntime, blank: Blank) -> u8
    requires name { blank.name ≡ L.name }
    requires parts { blank.parts ≡ L.parts }
    requires some { 0 < blank.parts }
{
    run_process::<EncloseTool, L>(rt, b"enclose_tool", &EncloseTool, blank)
}

fn main(rt: HostRuntime) -> ExitCode {
    ExitCode::from(run_tool::<Brand>(&rt, Blank::new(1)))
}
