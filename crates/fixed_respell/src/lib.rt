//! Lines of numerals, answered one at a time from a source to a sink. The devices are those of `line_engine`, and
//! `run_engine` reads the lines and writes the answers. Their names are exported again here.
#![tactic(auto)]

pub mod answering;
mod command;
mod decimal;
pub mod fault;
mod fields;
mod format_names;
mod format_table;
pub mod laws;
pub mod program;
pub mod refusal;
pub mod respell_rule;
pub mod respelling;
mod self_mode;
pub mod split;
pub mod words;

pub use answering::{answer, append_answer, push_fault, push_respelled, push_verdict};
pub use command::Command;
pub use decimal::number_word;
pub use fault::LineFault;
pub use format_names::format_named;
pub use line_engine::{Answer, Failed, MemorySink, MemorySource, Sink, Source, Status};
pub use program::run;
pub use refusal::{Fault, Refusal};
pub use respell_rule::RespellRule;
pub use respelling::{Bits, Respelled, reached_image, respell, respell_mode};
pub use run_engine::{LineRule, run_lines};
pub use split::split_once;
pub use words::{FormatName, format_name, format_word, policy_word, radix_word};
