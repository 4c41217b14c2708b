//! A program with several commands: its command line, read by the kit's `clap` from tables; its inputs and outputs,
//! which keep the error message of a device that fails; and its reports, one line each.
//!
//! `page` has the tables and passes them to `clap`, `given` has the arguments of a command, `run` runs the requested
//! command, `report` writes to standard error, and `device` has the readers and writers.
#![tactic(auto)]

pub mod device;
pub mod given;
pub mod json_line;
pub mod page;
pub mod report;
pub mod run;

pub use device::{Failure, Headed, Output, Skipped, Unmarked, Writer};
pub use given::{Asked, Given, Refusal};
pub use page::{FILES, Operand, Page, Row};
pub use report::{Report, refuse, report_end, report_no_memory};
pub use run::{Commands, Program, run_words};
