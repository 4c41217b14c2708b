//! The commands, one file each: its help page and what its arguments request.
//!
//! The other programs keep their operands as keywords: `least 16`, `constants rust`, `sort limit 7`. A keyword stands
//! before the files and before `--`. The guard of a header is an option, so that no file is taken for a guard.

pub mod amounts;
pub mod bits;
pub mod column;
pub mod column_report;
pub mod column_run;
pub mod column_words;
pub mod constants;
pub mod convert;
pub mod convert_errors;
pub mod convert_words;
pub mod enclose;
pub mod fields;
pub mod fit;
pub mod floats;
pub mod format;
pub mod json;
pub mod least;
pub mod lines;
pub mod modes;
pub mod pack;
pub mod repack;
pub mod show;
pub mod sort;
pub mod unpack;
pub mod unpack_words;

use command_line::given::{Asked, Given};
use command_line::page::Page;
use command_line::run::{Commands, Program};
use fixed_steps::Steps;
use line_engine::Status;
use std::sync::ledger::Ledger;

/// Returns the pages of the commands, in the order of the help. Each has its own function: in one constant they are
/// more than the prover reads at once.
pub fn pages() -> [Page; 16] {
    [
        convert::page(),
        column::page(),
        json::page(),
        bits::page(),
        show::page(),
        format::page(),
        modes::page(),
        lines::page(),
        enclose::page(),
        least::page(),
        fit::page(),
        pack::page(),
        unpack::page(),
        repack::page(),
        constants::page(),
        sort::page(),
    ]
}

/// Returns the command for people, with these pages.
pub fn program(pages: &[Page]) -> Program<'_> {
    Program {
        name: "fixed",
        version: "1.1.0",
        about: "Read, print and convert binary fixed-point numbers",
        usage: "fixed COMMAND [OPTIONS] [WORD]...",
        end: "Example: fixed convert U8F8 --print all <numerals.txt",
        pages,
    }
}

/// The commands.
#[derive(Clone, Copy)]
pub struct AllCommands;

impl<L: Ledger> Commands<L> for AllCommands {
    fn run<'a>(
        &self,
        rt: &HostRuntime,
        name: &str,
        given: &Given<'_, 'a>,
        steps: &mut Steps<L>,
    ) -> Asked<'a, Status> {
        match name {
            "convert" => convert::run(rt, given, steps),
            "column" => column::run(rt, given, steps),
            "json" => json::run(rt, given, steps),
            "bits" => bits::run(rt, given, steps),
            "show" => show::run(rt, given, steps),
            "format" => format::run(rt, given, steps),
            "modes" => modes::run(rt, given, steps),
            "lines" => lines::run(rt, given, steps),
            "enclose" => enclose::run(rt, given, steps),
            "least" => least::run(rt, given, steps),
            "fit" => fit::run(rt, given, steps),
            "pack" => pack::run(rt, given, steps),
            "unpack" => unpack::run(rt, given, steps),
            "repack" => repack::run(rt, given, steps),
            "constants" => constants::run(rt, given, steps),
            _ => sort::run(rt, given, steps),
        }
    }
}
