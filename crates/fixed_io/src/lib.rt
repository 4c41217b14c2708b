//! Sources and sinks over the readers and writers of std, the arguments and streams of a process, and the line on
//! standard error that says why a run failed.
#![tactic(auto)]

pub mod laws;
mod newlines;
pub mod process;
pub mod report;
pub mod standard;
pub mod uncounted;

pub use line_engine::{Filled, NoMemory, Whole, write_whole};
pub use process::program_args;
pub use report::{MAX_PLACE, report_end};
pub use standard::{StdSink, StdSource};
pub use uncounted::{Reports, run_process, run_streams};
