//! One run over an input, for any machine.
//!
//! `streams` treats both devices of a run as one, `gathered` keeps the output not yet written, and `machine` defines
//! machines, which are fed with an input. `engine` has the one loop, which reads and feeds the machine. `pieces` is the
//! loop of machines that cut their input at certain bytes, such as `lines`, which answers each line by a rule (`rule`,
//! `answering`) and tells an observer (`watch`, `refusals`). `line_run` runs lines from a source to a sink.
#![tactic(auto)]

pub mod answering;
pub mod engine;
pub mod gathered;
pub mod laws;
mod line_run;
pub mod lines;
pub mod machine;
pub mod pieces;
pub mod refusals;
pub mod rule;
pub mod streams;
pub mod watch;

pub use answering::{answer_one, push_error};
pub use engine::{End, run};
pub use gathered::Gathered;
pub use line_run::{LinesEnd, run_lines, run_watched, status_of};
pub use lines::Lines;
pub use machine::{Halt, Machine};
pub use pieces::{Cut, Pieces, find_newline};
pub use refusals::{Refusals, RefusedLine};
pub use rule::{Cause, LineRule, Rule};
pub use streams::{Devices, Streams};
pub use watch::Watch;
