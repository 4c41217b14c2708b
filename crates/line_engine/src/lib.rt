//! Sources, sinks and lines, and runs over whole inputs.
//!
//! `device` defines sources and sinks, `memory` has one of each in memory, and `memory_run` runs a program over them
//! for tests. `whole_engine` reads an input to its end (`whole`), answers it by a rule (`whole_rule`, `refusal`) and
//! writes the answer (`writing`). `line_buffer`, `answer` and `output` are what runs over lines need. `status` says
//! how a run ended, `text_lines` returns the lines of a text in memory one by one, and `laws` states laws of lines and
//! runs.
#![tactic(auto)]

pub mod answer;
mod chunk;
pub mod device;
pub mod laws;
mod line_buffer;
pub mod memory;
pub mod memory_run;
pub mod output;
pub mod program;
pub mod refusal;
pub mod status;
pub mod text_lines;
mod uncounted;
pub mod whole;
pub mod whole_engine;
pub mod whole_rule;
pub mod writing;

pub use answer::{Answer, MAX_ANSWER};
pub use chunk::{MAX_LIMIT, NO_LIMIT};
pub use device::{Failed, Sink, Source};
pub use line_buffer::{LineBuffer, MAX_LINE};
pub use memory::{MemorySink, MemorySource};
pub use memory_run::{MemoryProgram, MemoryRun, NEVER};
pub use output::{OUTPUT_BUFFER, Output};
pub use program::{NoArgs, Program, run_program};
pub use refusal::WholeRefusal;
pub use status::Status;
pub use text_buffer::NoMemory;
pub use text_lines::first_line;
pub use whole::{Filled, MAX_WHOLE, Whole};
pub use whole_engine::{WholeEnd, answer_whole, run_whole};
pub use whole_rule::{WholeAnswer, WholeRule};
pub use writing::{write_text, write_whole};
